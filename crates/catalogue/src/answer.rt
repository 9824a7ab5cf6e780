// The question's list and counts in the host's bytes. The walk has words of its own, as many as the largest sheet needs.
ghost use Rattle.std.specs.Prelude.{◌≡◌, ◌*◌, ◌≤◌, ◌<◌, length};
ghost use Rattle.paper.specs.Sizes.{line_words, long_bytes, most_offices};
ghost use Rattle.paper.specs.Map.{Map, Offices};
ghost use Rattle.paper.specs.Sheet.{map_of, offices_in};
ghost use Rattle.paper.specs.Refusal.{number};
ghost use Rattle.paper.specs.Listing.{listing};
ghost use Rattle.paper.specs.Host.{counted, host_invalid, host_reply_on};
ghost use Rattle.nearest.specs.Question.{quest_on};
ghost use Rattle.catalogue.specs.Handed.{replied, CameOut};

use crate::bytes::{put_long, put_longs};
use nearest::{invalid as invalid_in_words, walk_mapped};
use paper::sizes::{COUNTS_BYTES, LINE_WORDS, LONG_BYTES, MOST_OFFICES, SLOT_WORDS};
use paper::{Counts, Listed, Quest, Refusal};
use sheet::Sheet;

// Words of the walk's own slices.
const LINES: usize = LINE_WORDS * MOST_OFFICES;

const SLOTS: usize = SLOT_WORDS * MOST_OFFICES;

// How many are listed, and how many refinements were made. A slice without room for both is not touched.
pub fn put_counts(bytes: &mut [u8], listed: u64, refinements: u64)
    ensures { bytes.new ≡ counted listed refinements bytes.old }
{
    if bytes.len() < COUNTS_BYTES {
        return;
    }
    put_long(bytes, 0, listed);
    put_long(bytes, LONG_BYTES, refinements);
}

// The first of 7, 8 and 9 that is due, for slices of so many bytes.
fn invalid(
    found: Counts,
    q: u32,
    k: u32,
    direction: u32,
    answer: &[u8],
    working: &[u8],
    counts: &[u8],
) -> Result<(), Refusal>
    requires { found.offices ≤ most_offices }
    ensures { (m : Map) (o : Offices) → m.places ≡ found.places → o.count ≡ found.offices → number result ≡ host_invalid m o q k direction answer.now working.now counts.now }
{
    invalid_in_words(
        found,
        q,
        k,
        direction,
        answer.len() / LONG_BYTES,
        working.len() / LONG_BYTES,
    )?;
    if counts.len() < COUNTS_BYTES {
        return Err(Refusal::SliceShort);
    }
    Ok(())
}

// The listing of k offices, over a map that is read off the bytes. After a refusal the answer's first 40k bytes may be anything.
fn list_lines(sheet: &Sheet, quest: Quest, k: usize, answer: &mut [u8]) -> Result<u64, Refusal>
    requires { (quest.place < sheet.now.map.counts.places) × (1 ≤ k) × (k ≤ sheet.now.map.counts.offices) × (long_bytes * (line_words * k) ≤ length answer.old) }
    ensures { CameOut k (listing (map_of sheet.now.map.bytes.now) (quest_on sheet.now.list.now quest) k) answer.old answer.new result }
{
    let mut lines = [0u64; LINES];
    let mut slots = [0u64; SLOTS];
    let walked = walk_mapped(sheet, quest, k, &mut lines, &mut slots);
    put_longs(answer, &lines[..LINE_WORDS * k]);
    walked
}

// The question on a map that is read off the bytes and keeps the rules, over a list of offices, before its counts are written. See `ask` of nearest.
pub fn ask(
    sheet: &Sheet,
    q: u32,
    k: u32,
    direction: u32,
    answer: &mut [u8],
    working: &mut [u8],
    counts: &[u8],
) -> Result<Listed, Refusal>
    ensures { replied result answer.new working.new counts.now ≡ host_reply_on 0 (map_of sheet.now.map.bytes.now) (offices_in sheet.now.list.now) q k direction answer.old working.old counts.now }
{
    let found = sheet.map.counts;
    invalid(found, q, k, direction, answer, working, counts)?;
    let quest = Quest {
        place: q as usize,
        direction,
    };
    let walked = list_lines(sheet, quest, k as usize, answer);
    working[..LONG_BYTES * (SLOT_WORDS * found.offices)].fill(0);
    match walked {
        Ok(refinements) => Ok(Listed {
            count: k,
            refinements,
        }),
        Err(refusal) => {
            answer[..LONG_BYTES * (LINE_WORDS * k as usize)].fill(0);
            Err(refusal)
        }
    }
}
