// The map that a search runs over.
ghost use Rattle.std.specs.Prelude.{length};
ghost use Rattle.roads.specs.Towards.{Ready, Entered};

// The stages of a map of so many places in slices, and the chain of those into each place. With heads for tails and tails for heads they lead
// away; for that, and since `chain` takes the heads alone, tails, lengths and previous are slices of their own.
#[derive(Clone, Copy)]
pub struct Roads<'a> {
    pub tails: &'a [u32],
    pub lengths: &'a [u32],
    pub last: &'a [u32],
    pub previous: &'a [u32],
    pub places: usize,
    pub ghost ready: { Ready tails.now lengths.now previous.now places },
    pub ghost entered: { Entered last.now places (length tails.now) },
}
