// What is written to the lent slices, and read from them.
ghost use Rattle.std.specs.Prelude.{◌≡◌, ◌+◌, ◌*◌, ◌^◌, ◌≤◌, ◌<◌, length};
ghost use Rattle.paper.specs.Sizes.{line_words, most_offices};
ghost use Rattle.paper.specs.Listing.{line_with};
ghost use Rattle.nearest.specs.Working.{side_words, key as key_of, Side, Stored};
ghost use Rattle.quadtree.specs.Walks.{trail_of};
ghost use Rattle.nearest.specs.Going.{Wrote};

use paper::sizes::{LINE_WORDS, MOST_OFFICES, SLOT_WORDS};
use paper::{Network, Trail};

// More than any number of an office.
pub const PACK: u64 = MOST_OFFICES as u64;

// An office's words but for two, which the tree takes.
pub const SIDE_WORDS: usize = SLOT_WORDS - 2;

// An end with the number of its office, in the order of (end, number).
pub fn key(end: Network, i: usize) -> u64
    requires { (end.0 < 2 ^ 51) × (i < most_offices) }
    ensures { result ≡ key_of end.0 i }
{
    PACK * end.0 + i as u64
}

// The trail's words of office i, but for the low end.
pub fn store(working: &mut [u64], i: usize, t: Trail)
    requires { side_words * i + side_words ≤ length working.old }
    ensures { Stored i (trail_of t) working.old working.new }
{
    let at = SIDE_WORDS * i;
    working[at] = t.via as u64;
    working[at + 1] = t.walked.0;
    working[at + 2] = t.high.0;
    working[at + 3] = t.stages as u64;
}

// The trail of office i, whose low end the tree has.
pub fn trail_at(working: &[u64], i: usize, low: Network) -> Trail
    requires { side_words * i + side_words ≤ length working.now }
    ensures { (Side working.now i (trail_of result)) × (result.low.0 ≡ low.0) }
{
    let at = SIDE_WORDS * i;
    Trail {
        via: working[at] as usize,
        walked: Network(working[at + 1]),
        low,
        high: Network(working[at + 2]),
        stages: working[at + 3] as usize,
    }
}

// The line of office i, whose place has this gazetteer number, as line r of the answer.
pub fn write_line(answer: &mut [u64], r: usize, i: usize, t: Trail, gazetteer: u32)
    requires { line_words * r + line_words ≤ length answer.old }
    ensures { Wrote r (line_with i (trail_of t) gazetteer) answer.old answer.new }
{
    let at = LINE_WORDS * r;
    answer[at] = i as u64;
    answer[at + 1] = t.low.0;
    answer[at + 2] = t.high.0;
    answer[at + 3] = t.stages as u64;
    answer[at + 4] = gazetteer as u64;
}
