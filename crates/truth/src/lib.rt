// The check: whether a sheet tells the truth about its roads, and the road distances between all its places.
#![tactic(auto)]

pub mod columns;
mod known;
pub mod pairs;
mod slices;
pub mod table;
#[cfg(test)]
mod tests;

ghost use Rattle.std.specs.Prelude.{◌≡◌, ◌↔◌, ◌*◌, ◌≤◌, length, take};
ghost use Rattle.paper.specs.Refusal.{number};
ghost use Rattle.paper.specs.Sheet.{map_of};
ghost use Rattle.paper.specs.Verdict.{area, Checked, Accepted};
ghost use Rattle.sheet.specs.Book.{Roomy};
ghost use Rattle.truth.specs.Roads.{Surveyed};
ghost use Rattle.truth.specs.Table.{CheckedIn};

use crate::columns::columns_of_map;
use crate::table::{Table, Words};
pub use known::Survey;
use paper::Refusal;
use paper::sizes::{MOST_PLACES, MOST_STAGES};
use roads::{Roads, chain};
use sheet::{Chart, Mapped, layout};

// The road book of a map that is read off the bytes, and the chains of its stages. The slices are those of the caller's arrays, which a `Survey` then
// borrows: a struct of them to be filled would be taken apart at once.
pub fn survey(
    map: &Mapped,
    first: &mut [u32],
    tails: &mut [u32],
    heads: &mut [u32],
    lengths: &mut [u32],
    last: &mut [u32],
    previous: &mut [u32],
)
    requires roomy { Roomy map.now.counts first.old tails.old heads.old lengths.old }
    requires places_in_bounds { (map.now.counts.places ≤ length last.old) × (map.now.counts.stages ≤ length previous.old) }
    ensures { Surveyed map.now.bytes.now first.new (take map.now.counts.stages tails.new) heads.new lengths.new last.new previous.new (map_of map.now.bytes.now) }
{
    map.road_book(first, tails, heads, lengths);
    chain(
        &heads[..map.counts.stages],
        map.counts.places,
        last,
        previous,
    );
}

// The check of a map that is read off the bytes, with a slice that is long enough: the survey, and then column after column.
fn fill<U, T: Table<U>>(map: &Mapped, table: &mut [U]) -> Result<(), Refusal>
    requires room { map.now.counts.places * map.now.counts.places ≤ length (T.held table.old) }
    requires whole { table.old ≡ T.written (T.held table.old) table.old }
    ensures { CheckedIn T.held T.written 0 (map_of map.now.bytes.now) table.old (number result) table.new }
{
    let mut first = [0u32; MOST_PLACES];
    let mut tails = [0u32; MOST_STAGES];
    let mut heads = [0u32; MOST_STAGES];
    let mut lengths = [0u32; MOST_STAGES];
    let mut last = [0u32; MOST_PLACES];
    let mut previous = [0u32; MOST_STAGES];
    survey(
        map,
        &mut first,
        &mut tails,
        &mut heads,
        &mut lengths,
        &mut last,
        &mut previous,
    );
    let surveyed = Survey {
        chart: Chart {
            ground: map.ground(),
            first: &first,
            heads: &heads,
            lengths: &lengths,
        },
        roads: Roads {
            tails: &tails[..map.counts.stages],
            lengths: &lengths,
            last: &last,
            previous: &previous,
            places: map.counts.places,
        },
    };
    columns_of_map::<U, T>(&surveyed, table)
}

// The check of a map that is read off the bytes, in whatever its table stands: 10, or what the roads and the blocks come to.
pub fn judge<U, T: Table<U>>(map: &Mapped, table: &mut [U]) -> Result<(), Refusal>
    ensures { CheckedIn T.held T.written 0 (map_of map.now.bytes.now) table.old (number result) table.new }
{
    if T::room(table) < map.counts.places * map.counts.places {
        return Err(Refusal::TableShort);
    }
    fill::<U, T>(map, table)
}

// Nothing is due for a sheet that is laid out and tells the truth, and else the first of 1 to 6 and 10 to 15. Where nothing is due, and after 12 to 15,
// word u × N + v of the slice is the road distance from u to v; after 11 the first N × N words are 0; otherwise nothing is written.
pub fn check(sheet: &[u8], distances: &mut [u32]) -> Result<(), Refusal>
    ensures rules { Checked sheet.now distances.old (number result) distances.new }
    ensures truth { area (map_of sheet.now) ≤ length distances.old → (number result ≡ 0) ↔ Accepted sheet.now }
{
    let sheet = layout(sheet)?;
    judge::<u32, Words>(&sheet.map, distances)
}
