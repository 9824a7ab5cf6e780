// The paper's kinds of number, and what several crates hand to each other.
#![tactic(auto)]

mod refusal;
pub mod sizes;

ghost use Rattle.std.specs.Prelude.{◌≡◌, ◌^◌, ◌<◌};

pub use refusal::Refusal;

// Spatial distance, as the crow flies: sizes::CROW_UNIT to a cell.
#[derive(Clone, Copy)]
pub struct Spatial(pub u32);

// Network distance, along roads, in furlongs.
#[derive(Clone, Copy)]
pub struct Network(pub u64);

// A length as it stands in a word.
impl From<u32> for Network {
    ghost from_gives = { λ word length. (length.0 ≡ word) × (word < 2 ^ 32) };

    fn from(word: u32) -> Network {
        Network(u64::from(word))
    }
}

// The same of a word of 64 bits.
impl From<u64> for Network {
    ghost from_gives = { λ word length. length.0 ≡ word };

    fn from(word: u64) -> Network {
        Network(word)
    }
}

// Where a place lies: x and y are 0 to 1,023.
#[derive(Clone, Copy)]
pub struct Cell {
    pub x: u32,
    pub y: u32,
}

// How many records there are: the places, stages and blocks of the ground, and the offices of the list.
#[derive(Clone, Copy)]
pub struct Counts {
    pub places: usize,
    pub stages: usize,
    pub blocks: usize,
    pub offices: usize,
}

// How far a question has walked towards a place: where it stands, the length and the stages behind it, and the ends.
#[derive(Clone, Copy)]
pub struct Trail {
    pub via: usize,
    pub walked: Network,
    pub low: Network,
    pub high: Network,
    pub stages: usize,
}

// What a question asks of each office: the road between this place and the office's, in this direction. The direction is a number, since the walk serves
// every number: OUTWARD is outward, any other inward.
#[derive(Clone, Copy)]
pub struct Quest {
    pub place: usize,
    pub direction: u32,
}

// What a question comes to that is not refused: how many offices are listed, and how many refinements were made.
#[derive(Clone, Copy)]
pub struct Listed {
    pub count: u32,
    pub refinements: u64,
}
