// A sheet as bytes: its words, its layout, and its road book.
#![tactic(auto)]

mod blocks;
mod book;
mod ground;
mod mapped;
mod offices;
pub mod places;
mod sections;
mod stages;

ghost use Rattle.std.specs.Prelude.{◌≡◌, ◌+◌, ◌*◌, ◌≤◌, ◌<◌, length, drop, IfOk};
ghost use Rattle.paper.specs.Refusal.{served_as};
ghost use Rattle.paper.specs.Sheet.{word as word_of};
ghost use Rattle.sheet.specs.Laid.{Sectioned, Within, stages_from, blocks_from, offices_from, list_from, laid_of};

pub use blocks::Block;
pub use ground::{Chart, Ground, Mapped, Parts, Sheet};
use paper::sizes::{BLOCK_WORDS, MOST_PLACES, PLACE_WORDS, STAGE_WORDS, WORD_BYTES};
use paper::{Counts, Refusal};

// Word i of the sheet, low byte first.
#[tactic(auto, unfolding(paper::specs::Sheet::word))]
pub fn word(sheet: &[u8], i: usize) -> u32
    requires { 4 * i + 4 ≤ length sheet.now }
    ensures { result ≡ word_of sheet.now i }
{
    let at = WORD_BYTES * i;
    u32::from_le_bytes([sheet[at], sheet[at + 1], sheet[at + 2], sheet[at + 3]])
}

// The word at which the count of stages stands. That counts are within their limits is asked of these functions one by one, since they serve counts that are
// read before it is known whether the sections fit.
pub fn stages_at(counts: Counts) -> usize
    requires { Within counts }
    ensures { result ≡ stages_from counts }
{
    1 + PLACE_WORDS * counts.places
}

// The word at which the count of blocks stands.
pub fn blocks_at(counts: Counts) -> usize
    requires { Within counts }
    ensures { result ≡ blocks_from counts }
{
    stages_at(counts) + 1 + STAGE_WORDS * counts.stages
}

// The word at which the count of offices stands.
pub fn offices_at(counts: Counts) -> usize
    requires { Within counts }
    ensures { result ≡ offices_from counts }
{
    blocks_at(counts) + 1 + BLOCK_WORDS * counts.blocks
}

// The byte at which the office records begin.
pub fn list_at(counts: Counts) -> usize
    requires { Within counts }
    ensures { result ≡ list_from counts }
{
    WORD_BYTES * (offices_at(counts) + 1)
}

// The rules that the records keep (3 to 6), where the sections are whole.
#[tactic(auto, unfolding(crate::specs::Laid::laid_of, paper::specs::Layout::layout))]
fn records(bytes: &[u8], counts: Counts) -> Result<(), Refusal>
    requires { Sectioned bytes.now counts }
    ensures { served_as (λ _. counts) result ≡ laid_of bytes.now }
{
    let parts = Parts { bytes, counts };
    let mut leaving = [0u32; MOST_PLACES];
    if !places::places_hold(&parts) {
        return Err(Refusal::BadPlaces);
    }
    if !stages::stages_hold(&parts, &mut leaving) {
        return Err(Refusal::BadStages);
    }
    if !blocks::blocks_hold(&parts, &leaving) {
        return Err(Refusal::BadBlocks);
    }
    if !offices::offices_hold(&bytes[list_at(counts)..], counts.places) {
        return Err(Refusal::BadOffices);
    }
    Ok(())
}

// The layout of a sheet: its map and its list, or the first of 1 to 6 that is due.
pub fn layout(sheet: &[u8]) -> Result<Sheet<'_>, Refusal>
    ensures counts { served_as (λ s. s.map.counts) result ≡ laid_of sheet.now }
    ensures parts { IfOk result (λ s. (s.map.bytes.now ≡ sheet.now) × (s.list.now ≡ drop (list_from s.map.counts) sheet.now)) }
{
    let counts = sections::sections(sheet)?;
    records(sheet, counts)?;
    Ok(Sheet {
        map: Mapped {
            bytes: sheet,
            counts,
        },
        list: &sheet[list_at(counts)..],
    })
}
