// What the core reads: the ground, the map that is read off the bytes, and a whole sheet. Each fact is kept by its type.
ghost use Rattle.paper.specs.Layout.{Bytes};
ghost use Rattle.sheet.specs.Ground.{Ground as keeps_places, Mapped as keeps_rules, Parted, Roll, Stocked};

use paper::Counts;

// Bytes that begin with whole sections of places, stages and blocks.
#[derive(Clone, Copy)]
pub struct Parts<'a> {
    pub bytes: &'a [u8],
    pub counts: Counts,
    pub ghost parted: { Parted bytes.now counts },
}

// Places and blocks at the start of some bytes.
#[derive(Clone, Copy)]
pub struct Ground<'a> {
    pub bytes: &'a [u8],
    pub counts: Counts,
    pub ghost fits: { Bytes bytes.now },
    pub ghost keeps: { keeps_places bytes.now counts },
}

// Places, stages and blocks that keep every rule, at the start of some bytes.
#[derive(Clone, Copy)]
pub struct Mapped<'a> {
    pub bytes: &'a [u8],
    pub counts: Counts,
    pub ghost fits: { Bytes bytes.now },
    pub ghost keeps: { keeps_rules bytes.now counts },
}

// A sheet that its layout passes: the map, and the office records behind it as a slice of their own.
#[derive(Clone, Copy)]
pub struct Sheet<'a> {
    pub map: Mapped<'a>,
    pub list: &'a [u8],
    pub ghost roll: { Roll list.now map.counts.offices map.counts.places },
}

// A ground, and what it has of a book: where the stages of each place begin, and their heads and lengths. The book stands in slices of its own, since
// whoever looks for road lengths takes the heads alone, or runs the map the other way round.
#[derive(Clone, Copy)]
pub struct Chart<'a> {
    pub ground: Ground<'a>,
    pub first: &'a [u32],
    pub heads: &'a [u32],
    pub lengths: &'a [u32],
    pub ghost stocked: { Stocked ground.bytes.now first.now heads.now lengths.now },
}
