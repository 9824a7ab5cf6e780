// The check and the question for the catalogue, a program in C: numbers and slices of bytes, every lent word as bytes, low byte first. The crate catalogue_c exports them.
#![tactic(auto)]

mod answer;
mod bytes;
mod table;

ghost use Rattle.std.specs.Prelude.{◌≡◌, ◌↔◌, ◌*◌, ◌≤◌, length};
ghost use Rattle.paper.specs.Sizes.{word_bytes};
ghost use Rattle.paper.specs.Refusal.{number};
ghost use Rattle.paper.specs.Sheet.{map_of};
ghost use Rattle.paper.specs.Words.{longs_held};
ghost use Rattle.paper.specs.Verdict.{area, Accepted};
ghost use Rattle.paper.specs.Reply.{ListsNearest, RefinesThriftily};
ghost use Rattle.paper.specs.Host.{HostChecked, host_reply, HostValid, read_back};
ghost use Rattle.catalogue.specs.Handed.{handed, replied};

use crate::answer::{ask, put_counts};
use crate::table::HostBytes;
use paper::{Listed, Refusal};
use sheet::layout;
use truth::judge;

// The check, with its table in the host's bytes.
fn check(sheet: &[u8], distances: &mut [u8]) -> Result<(), Refusal>
    ensures { HostChecked sheet.now distances.old (number result) distances.new }
{
    let sheet = layout(sheet)?;
    judge::<u8, HostBytes>(&sheet.map, distances)
}

// 0 for a sheet that is laid out and tells the truth, and else the first of 1 to 6 and 10 to 15 that is due. After 0 and after 12 to 15
// word u × N + v of the slice is the road distance from u to v; after 11 the first N × N words are 0; otherwise nothing is written. The catalogue
// calls it from C, through catalogue_c: so it gives a number, and no Result.
pub fn atlas_check(sheet: &[u8], distances: &mut [u8]) -> u32
    ensures rules { HostChecked sheet.now distances.old result distances.new }
    ensures truth { word_bytes * area (map_of sheet.now) ≤ length distances.old → (result ≡ 0) ↔ Accepted sheet.now }
{
    match check(sheet, distances) {
        Ok(()) => 0,
        Err(refusal) => u32::from(refusal),
    }
}

// The question before its counts are written: of their slice only the room is looked at.
fn listed(
    sheet: &[u8],
    q: u32,
    k: u32,
    direction: u32,
    answer: &mut [u8],
    working: &mut [u8],
    counts: &[u8],
) -> Result<Listed, Refusal>
    ensures { replied result answer.new working.new counts.now ≡ host_reply sheet.now q k direction answer.old working.old counts.now }
{
    let sheet = layout(sheet)?;
    ask(&sheet, q, k, direction, answer, working, counts)
}

// 0 for a list of the k offices nearest by the road from the place q to them, or inward by the road from them to q, and else the first of 1 to 9 and 16 to
// 18 that is due. The list is 5k words of 64 bits: number, low end, high end, stages walked and the gazetteer number of its place for each. The counts are two
// more: how many are listed, and the refinements. The catalogue calls it from C, through catalogue_c: so it gives a number, and no Result.
pub fn atlas_question(
    sheet: &[u8],
    q: u32,
    k: u32,
    direction: u32,
    answer: &mut [u8],
    working: &mut [u8],
    counts: &mut [u8],
) -> u32
    ensures rules { handed result answer.new working.new counts.new ≡ host_reply sheet.now q k direction answer.old working.old counts.old }
    ensures nearest { Accepted sheet.now → HostValid sheet.now q k direction answer.old working.old counts.old → ListsNearest sheet.now q k direction (longs_held answer.old) (read_back (handed result answer.new working.new counts.new)) }
    ensures thrifty { Accepted sheet.now → HostValid sheet.now q k direction answer.old working.old counts.old → RefinesThriftily sheet.now q k direction (read_back (handed result answer.new working.new counts.new)) }
{
    match listed(sheet, q, k, direction, answer, working, counts) {
        Ok(Listed { count, refinements }) => {
            put_counts(counts, u64::from(count), refinements);
            0
        }
        Err(refusal) => {
            put_counts(counts, 0, 0);
            u32::from(refusal)
        }
    }
}
