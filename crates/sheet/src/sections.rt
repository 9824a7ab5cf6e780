// The sections of a sheet, one after the other.
ghost use Rattle.std.specs.Prelude.{◌≡◌, ◌≤◌};
ghost use Rattle.paper.specs.Sizes.{block_words};
ghost use Rattle.paper.specs.Refusal.{came};
ghost use Rattle.paper.specs.Sheet.{word as word_of};
ghost use Rattle.paper.specs.Layout.{section as section_of, sections as sections_of};
ghost use Rattle.sheet.specs.Laid.{counted_by, laid_by};

use crate::word;
use paper::sizes::{
    BLOCK_WORDS, MOST_BLOCKS, MOST_OFFICES, MOST_PLACES, MOST_STAGES, OFFICE_WORDS, PLACE_WORDS,
    STAGE_WORDS, WORD_BYTES,
};
use paper::{Counts, Refusal};

// The section whose count stands at word `at`: the count is present (1) and from least to most (2), and its records are present (1).
#[tactic(auto, unfolding(paper::specs::Layout::section))]
pub fn section(
    sheet: &[u8],
    at: usize,
    least: usize,
    most: usize,
    size: usize,
) -> Result<usize, Refusal>
    requires { size ≤ block_words }
    ensures { came result ≡ counted_by (word_of sheet.now at) (section_of sheet.now at least most size) }
{
    let words = sheet.len() / WORD_BYTES;
    if at >= words {
        return Err(Refusal::NotWhole);
    }
    let count = word(sheet, at) as usize;
    let ends = at + 1 + size * count;
    if count < least {
        return Err(Refusal::BadCount);
    }
    if count > most {
        return Err(Refusal::BadCount);
    }
    if ends > words {
        return Err(Refusal::NotWhole);
    }
    Ok(count)
}

// The four sections stand one after the other, and nothing is left over (1 and 2).
pub fn sections(sheet: &[u8]) -> Result<Counts, Refusal>
    ensures { came result ≡ laid_by sheet.now (sections_of sheet.now) }
{
    if sheet.len() % WORD_BYTES != 0 {
        return Err(Refusal::NotWhole);
    }
    let places = section(sheet, 0, 1, MOST_PLACES, PLACE_WORDS)?;
    let stages_at = 1 + PLACE_WORDS * places;
    let stages = section(sheet, stages_at, 0, MOST_STAGES, STAGE_WORDS)?;
    let blocks_at = stages_at + 1 + STAGE_WORDS * stages;
    let blocks = section(sheet, blocks_at, 0, MOST_BLOCKS, BLOCK_WORDS)?;
    let offices_at = blocks_at + 1 + BLOCK_WORDS * blocks;
    let offices = section(sheet, offices_at, 0, MOST_OFFICES, OFFICE_WORDS)?;
    if offices_at + 1 + offices != sheet.len() / WORD_BYTES {
        return Err(Refusal::NotWhole);
    }
    Ok(Counts {
        places,
        stages,
        blocks,
        offices,
    })
}
