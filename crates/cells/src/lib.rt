// The code of a cell, and the crow distance between two cells.
#![tactic(auto)]

ghost use Rattle.std.specs.Prelude.{◌≡◌, ◌*◌, ◌^◌, ◌<◌, ◌≤◌};
ghost use Rattle.paper.specs.Sizes.{grid_side, top_level};
ghost use Rattle.paper.specs.Cell.{spread as spread_of, code_of};
ghost use Rattle.paper.specs.Crow.{Root, gap, crow_across};
ghost use Rattle.cells.specs.Cells.{OnGrid, MovedApart, root_limit};

use paper::sizes::{CROW_UNIT, GRID_SIDE};
use paper::{Cell, Spatial};

// A crow distance counts in parts of a cell's side, so its square in squares of them.
const CROW_SCALE: u64 = CROW_UNIT * CROW_UNIT;

// Every root that is asked for is below it: a crow distance is at most the sum of two gaps, each below the grid's side.
const ROOT_LIMIT: u64 = CROW_UNIT * (2 * GRID_SIDE as u64);

// The bits of x, and those of x moved up, as far as they are among `kept`.
fn apart(x: u32, by: u32, kept: u32) -> u32
    requires { by < 32 }
    ensures { MovedApart by kept x result }
{
    (x | x << by) & kept
}

// Bit b of x at bit 2b: the groups of eight bits are moved apart, then in each the groups of four, of two, and the single bits.
pub fn spread(x: u32) -> u32
    requires { x < grid_side }
    ensures { result ≡ spread_of x }
{
    let eights = apart(x, 8, 0x00FF00FF);
    let fours = apart(eights, 4, 0x0F0F0F0F);
    let twos = apart(fours, 2, 0x33333333);
    apart(twos, 1, 0x55555555)
}

// The code of a cell: x at its even bits, y at its odd ones.
pub fn code(c: Cell) -> u32
    requires { OnGrid c }
    ensures { result ≡ code_of c.x c.y }
{
    spread(c.x) + 2 * spread(c.y)
}

// How many cells a block of the level covers.
pub fn cells_under(level: u32) -> u32
    requires { level ≤ top_level }
    ensures { result ≡ 4 ^ level }
{
    1 << (2 * level)
}

// The largest number whose square is at most n. It lies from `root` on, among the next `span` numbers. The library's isqrt goes through 32 halvings
// where these are 17: a call of `crow` took 100 ns with it, and 41 ns so.
fn root(n: u64) -> u64
    requires { n < root_limit * root_limit }
    ensures { Root n result }
{
    let mut root = 0;
    let mut span = ROOT_LIMIT;
    while 1 < span {
        let half = span / 2;
        let middle = root + half;
        root = if middle * middle <= n { middle } else { root };
        span -= half;
    }
    root
}

// The crow distance between two cells.
pub fn crow(a: Cell, b: Cell) -> Spatial
    requires { (OnGrid a) × (OnGrid b) }
    ensures { result.0 ≡ crow_across (gap a.x b.x) (gap a.y b.y) }
{
    let dx = u64::from(a.x.abs_diff(b.x));
    let dy = u64::from(a.y.abs_diff(b.y));
    Spatial(root(CROW_SCALE * (dx * dx + dy * dy)) as u32)
}
