// The pairs of a column: what is due for each place and v, over the road distances to v.
ghost use Rattle.std.specs.Prelude.{◌≡◌, ◌+◌, ◌*◌, ◌^◌, ◌≤◌, ◌<◌, min, leb, length, IfSome};
ghost use Rattle.std.proofs.Math.Option.{some};
ghost use Rattle.paper.specs.Sizes.{ratio_unit};
ghost use Rattle.paper.specs.Refusal.{number};
ghost use Rattle.paper.specs.Map.{Map};
ghost use Rattle.paper.specs.Sheet.{map_of};
ghost use Rattle.paper.specs.Cell.{cell};
ghost use Rattle.paper.specs.Crow.{crow as crow_of};
ghost use Rattle.paper.specs.Verdict.{fault_by, fault as fault_of};
ghost use Rattle.sheet.specs.Charts.{OnChart};
ghost use Rattle.truth.specs.Table.{marked, marked_below};
ghost use Rattle.truth.specs.Faults.{Looked, none_below, found_below};
ghost use Rattle.truth.specs.Pairs.{by_column, Own, colour_true, ratios_true, colour_by_chart, due_by_chart, fault_by_chart};

use crate::slices::USED;
use paper::sizes::RATIO_UNIT;
use paper::{Network, Refusal, Spatial};
use quadtree::blocks::block_of;
use quadtree::interval::{code, crow};
use quadtree::walk::stage_of;
use sheet::{Chart, Ground};

// A faulty pair of a column, by its first place, and what is due for it: a refusal, or whatever stands for one.
#[derive(Clone, Copy)]
pub struct Fault<N = Refusal> {
    pub place: usize,
    pub refusal: N,
}

// Whether a low ratio is true of the two distances.
fn is_low(ratio: u32, c: Spatial, d: Network) -> bool
    requires { d.0 < 2 ^ 32 }
    ensures { result ≡ leb (ratio * c.0) (ratio_unit * d.0) }
{
    let least = ratio as u64 * c.0 as u64;
    least <= RATIO_UNIT * d.0
}

// Whether a high ratio is true of the two distances.
fn is_high(ratio: u32, c: Spatial, d: Network) -> bool
    requires { d.0 < 2 ^ 32 }
    ensures { result ≡ leb (ratio_unit * d.0) (ratio * c.0) }
{
    RATIO_UNIT * d.0 <= ratio as u64 * c.0 as u64
}

// Whether the ratios of the block b are true of u and v, whose road distance is d.
fn ratios_hold(ground: &Ground, b: usize, u: usize, v: usize, d: Network) -> bool
    requires { (u < ground.now.counts.places) × (v < ground.now.counts.places) × (b < ground.now.counts.blocks) × (d.0 < 2 ^ 32) }
    ensures { result ≡ ratios_true (map_of ground.now.bytes.now) b (crow_of (map_of ground.now.bytes.now) u v) d.0 }
{
    let c = crow(ground, u, v);
    let block = ground.block(b);
    if !is_low(block.low, c, d) {
        return false;
    }
    is_high(block.high, c, d)
}

// Whether the stage that the block b names begins a shortest road from u, by the chart and on any map that has it. Here and below what is said by the chart
// holds of one that no map has too, and so each result is pinned.
fn colour_holds(chart: &Chart, column: &[u32], u: usize, b: usize) -> bool
    requires { (u < chart.now.ground.counts.places) × (chart.now.ground.counts.places ≤ length column.now) × (Own (map_of chart.now.ground.bytes.now) u b) }
    ensures by_chart { result ≡ colour_by_chart chart.now column.now u b }
    ensures mapped { (m : Map) → OnChart chart.now m → result ≡ colour_true m column.now u b }
{
    let i = stage_of(&chart.ground, chart.first, u, b);
    let head = chart.heads[i] as usize;
    let beyond = Network::from(column[head]);
    Network::from(chart.lengths[i]).0 + beyond.0 == Network::from(column[u]).0
}

// What is due for u and v, where the block b of u covers v: 13, 14, or nothing.
fn block_fault(chart: &Chart, column: &[u32], u: usize, v: usize, b: usize) -> Result<(), Refusal>
    requires { (u < chart.now.ground.counts.places) × (v < chart.now.ground.counts.places) × (chart.now.ground.counts.places ≤ length column.now) × (Own (map_of chart.now.ground.bytes.now) u b) }
    ensures by_chart { number result ≡ due_by_chart chart.now column.now u v (some b) }
    ensures mapped { (m : Map) → OnChart chart.now m → number result ≡ fault_by m (by_column column.now) u v (some b) }
{
    if !colour_holds(chart, column, u, b) {
        return Err(Refusal::WrongColour);
    }
    if !ratios_hold(&chart.ground, b, u, v, Network::from(column[u])) {
        return Err(Refusal::WrongRatio);
    }
    Ok(())
}

// What is due for u and v: 12, 13, 14, or nothing, as for a place and itself. The block that covers v is marked.
fn pair_fault(
    chart: &Chart,
    column: &[u32],
    u: usize,
    v: usize,
    code: u32,
    marks: &mut [u8],
) -> Result<(), Refusal>
    requires { (u < chart.now.ground.counts.places) × (v < chart.now.ground.counts.places) × (chart.now.ground.counts.places ≤ length column.now) × (chart.now.ground.counts.blocks ≤ length marks.old) × (code ≡ cell (map_of chart.now.ground.bytes.now) v) }
    ensures by_chart { number result ≡ fault_by_chart chart.now column.now u v }
    ensures value { (m : Map) → OnChart chart.now m → number result ≡ fault_of m (by_column column.now) u v }
    ensures marks_after { marks.new ≡ marked (map_of chart.now.ground.bytes.now) u v marks.old }
{
    if u == v {
        return Ok(());
    }
    match block_of(&chart.ground, u, code) {
        Some(b) => {
            marks[b] = USED;
            block_fault(chart, column, u, v, b)
        }
        None => Err(Refusal::NoBlock),
    }
}

// Goes through the pairs of v with the places below `below`, as far as the first that is faulty.
pub fn column_fault(
    chart: &Chart,
    column: &[u32],
    v: usize,
    marks: &mut [u8],
    below: usize,
) -> Option<Fault>
    requires { (below ≤ chart.now.ground.counts.places) × (v < chart.now.ground.counts.places) × (chart.now.ground.counts.places ≤ length column.now) × (chart.now.ground.counts.blocks ≤ length marks.old) }
    ensures by_chart { Looked (λ u. fault_by_chart chart.now column.now u v) (none_below below) (found_below below result) }
    ensures looked { (m : Map) → OnChart chart.now m → Looked (λ u. fault_of m (by_column column.now) u v) (none_below below) (found_below below result) }
    ensures within { IfSome result (λ f. f.place < below) }
    ensures marks_after { marks.new ≡ marked_below (map_of chart.now.ground.bytes.now) v (min ((found_below below result).place + 1) below) marks.old }
{
    let code = code(&chart.ground, v);
    for u in 0..below {
        if let Err(refusal) = pair_fault(chart, column, u, v, code, marks) {
            return Some(Fault { place: u, refusal });
        }
    }
    None
}
