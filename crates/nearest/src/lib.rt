// The question: the k offices nearest by road to a place, or from it.
#![tactic(auto)]

pub mod errand;
mod slices;
mod tree;
mod walk;

ghost use Rattle.std.specs.Prelude.{◌≡◌, List, ℕ, ◌*◌, ◌≤◌, ◌<◌, length};
ghost use Rattle.paper.specs.Sizes.{line_words, slot_words, most_offices};
ghost use Rattle.paper.specs.Map.{Map, Offices};
ghost use Rattle.paper.specs.Sheet.{map_of, offices_in};
ghost use Rattle.paper.specs.Quest.{is_direction};
ghost use Rattle.paper.specs.Refusal.{number};
ghost use Rattle.paper.specs.Listing.{listing};
ghost use Rattle.paper.specs.Verdict.{Accepted};
ghost use Rattle.paper.specs.Reply.{invalid as invalid_of, reply_on, reply, Valid, ListsNearest, RefinesThriftily};
ghost use Rattle.nearest.specs.Working.{Beyond};
ghost use Rattle.nearest.specs.Going.{Came};
ghost use Rattle.nearest.specs.Question.{quest_on, replied};

use crate::errand::Errand;
use paper::sizes::{INWARD, LINE_WORDS, MOST_PLACES, MOST_STAGES, OUTWARD, SLOT_WORDS};
use paper::{Counts, Listed, Quest, Refusal};
use sheet::{Chart, Sheet, layout};

// Whether a number names a direction.
fn is_direction(number: u32) -> bool
    ensures { result ≡ is_direction number }
{
    if number == OUTWARD {
        return true;
    }
    number == INWARD
}

// The first of 7, 8 and 9 that is due, for slices of so many words.
pub fn invalid(
    counts: Counts,
    q: u32,
    k: u32,
    direction: u32,
    answer: usize,
    working: usize,
) -> Result<(), Refusal>
    requires { counts.offices ≤ most_offices }
    ensures { (m : Map) (o : Offices) (a w : List ℕ) → m.places ≡ counts.places → o.count ≡ counts.offices → length a ≡ answer → length w ≡ working → number result ≡ invalid_of m o q k direction a w }
{
    if counts.places <= q as usize {
        return Err(Refusal::BadQuestion);
    }
    if !is_direction(direction) {
        return Err(Refusal::BadQuestion);
    }
    if k == 0 {
        return Err(Refusal::BadK);
    }
    if counts.offices < k as usize {
        return Err(Refusal::BadK);
    }
    if answer < LINE_WORDS * k as usize {
        return Err(Refusal::SliceShort);
    }
    if working < SLOT_WORDS * counts.offices {
        return Err(Refusal::SliceShort);
    }
    Ok(())
}

// The walk over a map that is read off the bytes: its road book, and then the listing, with the total of refinements.
pub fn walk_mapped(
    sheet: &Sheet,
    quest: Quest,
    k: usize,
    answer: &mut [u64],
    working: &mut [u64],
) -> Result<u64, Refusal>
    requires { (quest.place < sheet.now.map.counts.places) × (1 ≤ k) × (k ≤ sheet.now.map.counts.offices) × (line_words * k ≤ length answer.old) × (slot_words * sheet.now.map.counts.offices ≤ length working.old) }
    ensures beyond { Beyond (slot_words * sheet.now.map.counts.offices) working.old working.new }
    ensures came { Came k (listing (map_of sheet.now.map.bytes.now) (quest_on sheet.now.list.now quest) k) answer.old answer.new result }
{
    let mut first = [0u32; MOST_PLACES];
    let mut tails = [0u32; MOST_STAGES];
    let mut heads = [0u32; MOST_STAGES];
    let mut lengths = [0u32; MOST_STAGES];
    sheet
        .map
        .road_book(&mut first, &mut tails, &mut heads, &mut lengths);
    let errand = Errand {
        chart: Chart {
            ground: sheet.map.ground(),
            first: &first,
            heads: &heads,
            lengths: &lengths,
        },
        list: sheet.list,
        quest,
    };
    errand.walk(k, answer, working)
}

// The question on a map that is read off the bytes and keeps the rules, over a list of offices. The catalogue has its own, whose list and working slice are
// bytes and which tests a third slice: what differs is most of it.
fn ask(
    sheet: &Sheet,
    q: u32,
    k: u32,
    direction: u32,
    answer: &mut [u64],
    working: &mut [u64],
) -> Result<Listed, Refusal>
    ensures { replied result answer.new working.new ≡ reply_on 0 (map_of sheet.now.map.bytes.now) (offices_in sheet.now.list.now) q k direction answer.old working.old }
{
    let counts = sheet.map.counts;
    invalid(counts, q, k, direction, answer.len(), working.len())?;
    let quest = Quest {
        place: q as usize,
        direction,
    };
    let walked = walk_mapped(sheet, quest, k as usize, answer, working);
    working[..SLOT_WORDS * counts.offices].fill(0);
    match walked {
        Ok(refinements) => Ok(Listed {
            count: k,
            refinements,
        }),
        Err(refusal) => {
            answer[..LINE_WORDS * k as usize].fill(0);
            Err(refusal)
        }
    }
}

// The k offices nearest by the road from the place q to them, or inward by the road from them to q: number, low end, high end, stages walked and its
// place's gazetteer number for each, in the first 5k words of the answer slice. The first 6M words of the working slice are used, and 0 at the end. Any
// sheet is taken, accepted or not.
pub fn question(
    sheet: &[u8],
    q: u32,
    k: u32,
    direction: u32,
    answer: &mut [u64],
    working: &mut [u64],
) -> Result<Listed, Refusal>
    ensures rules { replied result answer.new working.new ≡ reply sheet.now q k direction answer.old working.old }
    ensures nearest { Accepted sheet.now → Valid sheet.now q k direction answer.old working.old → ListsNearest sheet.now q k direction answer.old (replied result answer.new working.new) }
    ensures thrifty { Accepted sheet.now → Valid sheet.now q k direction answer.old working.old → RefinesThriftily sheet.now q k direction (replied result answer.new working.new) }
{
    let sheet = layout(sheet)?;
    ask(&sheet, q, k, direction, answer, working)
}
