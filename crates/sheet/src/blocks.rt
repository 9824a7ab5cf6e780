// The rule of the blocks (5).
ghost use Rattle.std.specs.Prelude.{◌≡◌, ℕ, ◌+◌, ◌*◌, ◌%◌, ◌^◌, ◌≤◌, eqb, length};
ghost use Rattle.paper.specs.Sizes.{block_words, top_level};
ghost use Rattle.paper.specs.Map.{Map};
ghost use Rattle.paper.specs.Sheet.{map_of, blocks_at};
ghost use Rattle.paper.specs.Layout.{block_holds, blocks_hold};
ghost use Rattle.sheet.specs.Records.{BlockIs, Leaving};

use crate::ground::Parts;
use crate::{blocks_at, word};
use cells::cells_under;
use paper::sizes::{ALL_CELLS, BLOCK_WORDS, TOP_LEVEL};

// More than the end of any block.
const SPAN: u32 = 2 * ALL_CELLS;

#[derive(Clone, Copy)]
pub struct Block {
    pub owner: u32,
    pub code: u32,
    pub level: u32,
    pub colour: u32,
    pub low: u32,
    pub high: u32,
}

// The record of block i, in a section whose count stands at word `base`.
#[tactic(auto, unfolding(paper::specs::Sheet::map_of))]
pub fn read_block(sheet: &[u8], base: usize, i: usize) -> Block
    requires { (base ≡ blocks_at sheet.now) × (4 * (base + 1 + block_words * i + block_words) ≤ length sheet.now) }
    ensures { BlockIs (map_of sheet.now) i result }
{
    let at = base + 1 + BLOCK_WORDS * i;
    Block {
        owner: word(sheet, at),
        code: word(sheet, at + 1),
        level: word(sheet, at + 2),
        colour: word(sheet, at + 3),
        low: word(sheet, at + 4),
        high: word(sheet, at + 5),
    }
}

// The code is a multiple of 4^level.
fn is_aligned(code: u32, level: u32) -> bool
    requires { level ≤ top_level }
    ensures { result ≡ eqb (code % 4 ^ level) 0 }
{
    code & (cells_under(level) - 1) == 0
}

// What a block has to keep by itself.
#[tactic(auto, unfolding(paper::specs::Layout::block_holds, paper::specs::Layout::block_lies))]
fn block_holds(block: Block, places: usize, leaving: &[u32]) -> bool
    requires { places ≤ length leaving.now }
    ensures { (m : Map) (i : ℕ) → m.places ≡ places → Leaving m leaving.now → BlockIs m i block → result ≡ block_holds m i }
{
    (block.owner as usize) < places
        && block.level <= TOP_LEVEL
        && block.code < ALL_CELLS
        && is_aligned(block.code, block.level)
        && block.low <= block.high
        && block.colour < leaving[block.owner as usize]
}

// Whether each block holds, and they ascend by place and within a place by code without overlap.
pub fn blocks_hold(parts: &Parts, leaving: &[u32]) -> bool
    requires places_in_bounds { parts.now.counts.places ≤ length leaving.now }
    requires leaving { Leaving (map_of parts.now.bytes.now) leaving.now }
    ensures { result ≡ blocks_hold (map_of parts.now.bytes.now) }
{
    let at = blocks_at(parts.counts);
    // where the block before ends, as place × SPAN + code
    let mut from = 0;
    // by index, see `take_places`
    for i in 0..parts.counts.blocks {
        let block = read_block(parts.bytes, at, i);
        if !block_holds(block, parts.counts.places, leaving) {
            return false;
        }
        let key = block.owner * SPAN + block.code;
        if key < from {
            return false;
        }
        from = key + cells_under(block.level);
    }
    true
}
