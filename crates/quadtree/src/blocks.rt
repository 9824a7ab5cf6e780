// The block of a place that covers another.
ghost use Rattle.std.specs.Prelude.{◌≡◌, ◌+◌, ◌*◌, ◌^◌, ◌≤◌, ◌<◌};
ghost use Rattle.paper.specs.Sizes.{most_places, top_level};
ghost use Rattle.paper.specs.Sheet.{map_of};
ghost use Rattle.quadtree.specs.Blocks.{key_of, key_at, Last, covers_code, CoverIs};

use cells::cells_under;
use paper::sizes::ALL_CELLS;
use sheet::Ground;

// Place and code as one number, by which the blocks ascend.
fn key(place: u32, code: u32) -> u32
    requires { (place < most_places) × (code < 4 ^ top_level) }
    ensures { result ≡ key_of place code }
{
    place * ALL_CELLS + code
}

fn key_of(ground: &Ground, b: usize) -> u32
    requires { b < ground.now.counts.blocks }
    ensures { result ≡ key_at (map_of ground.now.bytes.now) b }
{
    let block = ground.block(b);
    key(block.owner, block.code)
}

// The last block whose key is at most the key asked for; 0 where there is none. It lies from `last` on, among the next `span` blocks. The records are
// words of the bytes and no slice that the library's partition_point could search.
fn last_up_to(ground: &Ground, asked: u32) -> usize
    requires { 1 ≤ ground.now.counts.blocks }
    ensures { Last (map_of ground.now.bytes.now) asked result }
{
    let mut last = 0;
    let mut span = ground.counts.blocks;
    while 1 < span {
        let half = span / 2;
        let middle = last + half;
        last = if key_of(ground, middle) <= asked {
            middle
        } else {
            last
        };
        span -= half;
    }
    last
}

// Whether the block b is that of the place u and covers the code.
#[tactic(auto, using(crate::proofs::Search::covers_other, crate::proofs::Search::covers_before))]
fn covers(ground: &Ground, b: usize, u: u32, code: u32) -> bool
    requires { b < ground.now.counts.blocks }
    ensures { result ≡ covers_code (map_of ground.now.bytes.now) u code b }
{
    let block = ground.block(b);
    if block.owner != u {
        return false;
    }
    if code < block.code {
        return false;
    }
    code < block.code + cells_under(block.level)
}

// The block of the place u that covers the code, if there is one.
pub fn block_of(ground: &Ground, u: usize, code: u32) -> Option<usize>
    requires { (u < ground.now.counts.places) × (code < 4 ^ top_level) }
    ensures { CoverIs (map_of ground.now.bytes.now) u code result }
{
    if ground.counts.blocks == 0 {
        return None;
    }
    let place = u as u32;
    let b = last_up_to(ground, key(place, code));
    if covers(ground, b, place, code) {
        Some(b)
    } else {
        None
    }
}
