// A map that was surveyed.
ghost use Rattle.std.specs.Prelude.{◌≡◌};

use roads::Roads;
use sheet::Chart;

// The chart of a map, and what finds its roads.
#[derive(Clone, Copy)]
pub struct Survey<'c, 'r> {
    pub chart: Chart<'c>,
    pub roads: Roads<'r>,
    pub ghost same: { roads.places ≡ chart.ground.counts.places },
}
