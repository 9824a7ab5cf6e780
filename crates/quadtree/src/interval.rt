// The interval between two places.
ghost use Rattle.std.specs.Prelude.{◌≡◌, ◌<◌};
ghost use Rattle.paper.specs.Refusal.{served_as};
ghost use Rattle.paper.specs.Sheet.{map_of};
ghost use Rattle.paper.specs.Cell.{cell};
ghost use Rattle.paper.specs.Crow.{crow as crow_of};
ghost use Rattle.paper.specs.Trail.{between as between_of};
ghost use Rattle.quadtree.specs.Walks.{low_end, high_end, ends_of, ends_as};

use crate::blocks::block_of;
use paper::sizes::RATIO_UNIT;
use paper::{Network, Refusal, Spatial};
use sheet::Ground;
use sheet::places::cell_of;

// The two ends of an interval.
#[derive(Clone, Copy)]
pub struct Ends {
    pub low: Network,
    pub high: Network,
}

// What a low ratio makes of a crow distance, rounded up.
fn low_end(ratio: u32, c: Spatial) -> Network
    ensures { result.0 ≡ low_end ratio c.0 }
{
    Network((ratio as u64 * c.0 as u64 + (RATIO_UNIT - 1)) / RATIO_UNIT)
}

// What a high ratio makes of a crow distance, rounded down.
fn high_end(ratio: u32, c: Spatial) -> Network
    ensures { result.0 ≡ high_end ratio c.0 }
{
    Network(ratio as u64 * c.0 as u64 / RATIO_UNIT)
}

// The crow distance between two places.
#[tactic(auto, using(cells::proofs::Codes::crow_places))]
pub fn crow(ground: &Ground, u: usize, v: usize) -> Spatial
    requires { (u < ground.now.counts.places) × (v < ground.now.counts.places) }
    ensures { result.0 ≡ crow_of (map_of ground.now.bytes.now) u v }
{
    cells::crow(cell_of(ground.bytes, u), cell_of(ground.bytes, v))
}

// The code of the place v.
#[tactic(auto, using(cells::proofs::Codes::code_place))]
pub fn code(ground: &Ground, v: usize) -> u32
    requires { v < ground.now.counts.places }
    ensures { result ≡ cell (map_of ground.now.bytes.now) v }
{
    cells::code(cell_of(ground.bytes, v))
}

// The interval that the block b gives over the crow distance c.
fn ends_of(ground: &Ground, b: usize, c: Spatial) -> Ends
    requires { b < ground.now.counts.blocks }
    ensures { ends_as result ≡ ends_of (map_of ground.now.bytes.now) b c.0 }
{
    let block = ground.block(b);
    Ends {
        low: low_end(block.low, c),
        high: high_end(block.high, c),
    }
}

// The interval between u and v, whose code is given: 0 to 0 for the same place; 17 where no block of u covers v.
#[tactic(auto, using(crate::proofs::Steps::between_home, crate::proofs::Steps::between_by, crate::proofs::Steps::between_none, crate::proofs::Search::cell_lt))]
pub fn towards(ground: &Ground, u: usize, v: usize, code: u32) -> Result<Ends, Refusal>
    requires { (u < ground.now.counts.places) × (v < ground.now.counts.places) × (code ≡ cell (map_of ground.now.bytes.now) v) }
    ensures { served_as ends_as result ≡ between_of (map_of ground.now.bytes.now) u v }
{
    if u == v {
        return Ok(Ends {
            low: Network(0),
            high: Network(0),
        });
    }
    match block_of(ground, u, code) {
        Some(b) => Ok(ends_of(ground, b, crow(ground, u, v))),
        None => Err(Refusal::NoBlockOnWay),
    }
}

// The interval between two places, not yet tested.
pub fn between(ground: &Ground, u: usize, v: usize) -> Result<Ends, Refusal>
    requires { (u < ground.now.counts.places) × (v < ground.now.counts.places) }
    ensures { served_as ends_as result ≡ between_of (map_of ground.now.bytes.now) u v }
{
    towards(ground, u, v, code(ground, v))
}
