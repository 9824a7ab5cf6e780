// The trail towards a place: how it starts, and one refinement.
ghost use Rattle.std.specs.Prelude.{◌≡◌, ◌+◌, ◌≤◌, ◌<◌, length as length_of, get_or};
ghost use Rattle.paper.specs.Sizes.{most_places, most_furlongs};
ghost use Rattle.paper.specs.Refusal.{served_as};
ghost use Rattle.paper.specs.Map.{Map};
ghost use Rattle.paper.specs.Sheet.{map_of};
ghost use Rattle.paper.specs.Cell.{cell};
ghost use Rattle.paper.specs.Trail.{start as start_of, refine as refine_of, tested as tested_of};
ghost use Rattle.paper.specs.Bounds.{Sane, Summed};
ghost use Rattle.sheet.specs.Charts.{OnChart};
ghost use Rattle.quadtree.specs.Walks.{trail_of, ends_as, ahead, walked_to, refine_by_chart};

use crate::blocks::block_of;
use crate::interval::{Ends, between, code, towards};
use paper::{Network, Refusal, Trail};
use sheet::{Chart, Ground};

// 18 where the interval is empty.
fn tested(t: Trail) -> Result<Trail, Refusal>
    ensures { served_as trail_of result ≡ tested_of (trail_of t) }
{
    if t.high.0 < t.low.0 {
        return Err(Refusal::EmptyInterval);
    }
    Ok(t)
}

// The trail from u to v before any refinement.
#[tactic(auto, using(crate::proofs::Steps::start_refused, std::proofs::lemmas::Result::err_from_is_err_and))]
pub fn start(ground: &Ground, u: usize, v: usize) -> Result<Trail, Refusal>
    requires { (u < ground.now.counts.places) × (v < ground.now.counts.places) }
    ensures { served_as trail_of result ≡ start_of (map_of ground.now.bytes.now) u v }
{
    let first = between(ground, u, v)?;
    tested(Trail {
        via: u,
        walked: Network(0),
        low: first.low,
        high: first.high,
        stages: 0,
    })
}

// The stage of the place u that the block b names by its colour: so many after the first that leaves u.
pub fn stage_of(ground: &Ground, first: &[u32], u: usize, b: usize) -> usize
    requires { (u < length_of first.now) × (b < ground.now.counts.blocks) }
    ensures { result ≡ get_or first.now u 0 + (map_of ground.now.bytes.now).colour b }
{
    first[u] as usize + ground.block(b).colour as usize
}

// The trail after a stage of the length to the place `via`, whose interval is `ends`: the overlap with the old one is kept.
fn onward(t: Trail, via: usize, length: Network, ends: Ends) -> Trail
    requires { (t.stages < most_places) × Summed (t.walked.0 + length.0) (ends_as ends) }
    ensures { trail_of result ≡ ahead (trail_of t) via length.0 (ends_as ends) }
{
    let walked = t.walked.0 + length.0;
    let near = walked + ends.low.0;
    let far = walked + ends.high.0;
    Trail {
        via,
        walked: Network(walked),
        low: Network(t.low.0.max(near)),
        high: Network(t.high.0.min(far)),
        stages: t.stages + 1,
    }
}

// The trail towards v, whose code is given, after a stage of the length to the place `via`.
#[tactic(auto, using(crate::proofs::Steps::walked_refused, std::proofs::lemmas::Result::err_from_is_err_and))]
fn walked_to(
    ground: &Ground,
    v: usize,
    code: u32,
    t: Trail,
    via: usize,
    length: Network,
) -> Result<Trail, Refusal>
    requires { (via < ground.now.counts.places) × (v < ground.now.counts.places) × (code ≡ cell (map_of ground.now.bytes.now) v) × (Sane ground.now.counts.places (trail_of t)) × (t.stages + 1 < ground.now.counts.places) × (length.0 ≤ most_furlongs) }
    ensures { served_as trail_of result ≡ walked_to (map_of ground.now.bytes.now) v (trail_of t) via length.0 }
{
    let next = towards(ground, via, v, code)?;
    tested(onward(t, via, length, next))
}

// One refinement of the trail t towards v, by the chart and on any map that has it. What is said by the chart holds of one that no map has
// too, and so the result is pinned.
pub fn refine(chart: &Chart, v: usize, t: Trail) -> Result<Trail, Refusal>
    requires { (v < chart.now.ground.counts.places) × (Sane chart.now.ground.counts.places (trail_of t)) }
    ensures by_chart { served_as trail_of result ≡ refine_by_chart chart.now v (trail_of t) }
    ensures mapped { (m : Map) → OnChart chart.now m → served_as trail_of result ≡ refine_of m v (trail_of t) }
{
    let ground = &chart.ground;
    if ground.counts.places <= t.stages + 1 {
        return Err(Refusal::TooManyStages);
    }
    let code = code(ground, v);
    match block_of(ground, t.via, code) {
        Some(b) => {
            let i = stage_of(ground, chart.first, t.via, b);
            let head = chart.heads[i] as usize;
            walked_to(ground, v, code, t, head, chart.lengths[i].into())
        }
        None => Err(Refusal::NoBlockOnWay),
    }
}
