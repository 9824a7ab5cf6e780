// The rule of the stages (4), and how many leave each place.
ghost use Rattle.std.specs.Prelude.{◌≡◌, true, ℕ, ◌+◌, ◌*◌, ◌≤◌, length};
ghost use Rattle.paper.specs.Sizes.{stage_words};
ghost use Rattle.paper.specs.Map.{Map};
ghost use Rattle.paper.specs.Sheet.{map_of, stages_at};
ghost use Rattle.paper.specs.Layout.{stage_holds, stages_hold};
ghost use Rattle.paper.specs.Slice.{Untouched};
ghost use Rattle.sheet.specs.Records.{StageIs, Zeros, Leaving};

use crate::ground::Parts;
use crate::{stages_at, word};
use paper::sizes::{MOST_FURLONGS, MOST_LEAVING, MOST_PLACES, STAGE_WORDS};

// More than any place.
const SPAN: u32 = MOST_PLACES as u32;

#[derive(Clone, Copy)]
pub struct Stage {
    pub tail: u32,
    pub head: u32,
    pub furlongs: u32,
}

#[tactic(auto, unfolding(paper::specs::Sheet::map_of))]
fn read_stage(sheet: &[u8], base: usize, i: usize) -> Stage
    requires { (base ≡ stages_at sheet.now) × (4 * (base + 1 + stage_words * i + stage_words) ≤ length sheet.now) }
    ensures { StageIs (map_of sheet.now) i result }
{
    let at = base + 1 + STAGE_WORDS * i;
    Stage {
        tail: word(sheet, at),
        head: word(sheet, at + 1),
        furlongs: word(sheet, at + 2),
    }
}

// Tail and head are places and different, the length is in its range.
#[tactic(auto, unfolding(paper::specs::Layout::stage_holds))]
fn stage_holds(stage: Stage, places: usize) -> bool
    ensures { (m : Map) (i : ℕ) → m.places ≡ places → StageIs m i stage → result ≡ stage_holds m i }
{
    (stage.tail as usize) < places
        && (stage.head as usize) < places
        && stage.tail != stage.head
        && (1..=MOST_FURLONGS).contains(&stage.furlongs)
}

// Whether each stage holds, they strictly ascend by (tail, head), and at most 8 leave a place; if so, leaving[u] leave u. Words past the places stay.
pub fn stages_hold(parts: &Parts, leaving: &mut [u32]) -> bool
    requires { Zeros parts.now.counts.places leaving.old }
    ensures value { result ≡ stages_hold (map_of parts.now.bytes.now) }
    ensures leaving { result ≡ true → Leaving (map_of parts.now.bytes.now) leaving.new }
    ensures untouched { Untouched parts.now.counts.places leaving.old leaving.new }
{
    let at = stages_at(parts.counts);
    // one more than the stage before, as tail × SPAN + head
    let mut from = 0;
    // by index, see `take_places`
    for i in 0..parts.counts.stages {
        let stage = read_stage(parts.bytes, at, i);
        if !stage_holds(stage, parts.counts.places) {
            return false;
        }
        let key = stage.tail * SPAN + stage.head;
        if key < from {
            return false;
        }
        let tail = stage.tail as usize;
        let before = leaving[tail];
        if before >= MOST_LEAVING {
            return false;
        }
        leaving[tail] = before + 1;
        from = key + 1;
    }
    true
}
