// Why a sheet or a question is refused.
ghost use Rattle.std.specs.Prelude.{◌≡◌};
ghost use Rattle.paper.specs.Refusal.{number_of};

// The paper's refusals by number, in the order of its table; docs/REFUSALS.md says what each means.
#[derive(Clone, Copy, Debug, PartialEq, Eq)]
pub enum Refusal {
    NotWhole = 1,
    BadCount = 2,
    BadPlaces = 3,
    BadStages = 4,
    BadBlocks = 5,
    BadOffices = 6,
    BadQuestion = 7,
    BadK = 8,
    SliceShort = 9,
    TableShort = 10,
    CutOff = 11,
    NoBlock = 12,
    WrongColour = 13,
    WrongRatio = 14,
    UselessBlock = 15,
    TooManyStages = 16,
    NoBlockOnWay = 17,
    EmptyInterval = 18,
    TooLarge = 20,
}

// The number in a byte. The call is kept: where it is not, the compiler's table of the numbers is one of whole words, and a handset has little room for constants.
#[inline(never)]
fn byte(refusal: Refusal) -> u8
    ensures { result ≡ number_of refusal }
{
    refusal as u8
}

impl From<Refusal> for u32 {
    ghost from_gives = { λ refusal number. number ≡ number_of refusal };

    fn from(refusal: Refusal) -> u32 {
        u32::from(byte(refusal))
    }
}
