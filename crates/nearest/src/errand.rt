// What a question goes by.
ghost use Rattle.std.specs.Prelude.{◌<◌};
ghost use Rattle.sheet.specs.Ground.{Roll};

use paper::Quest;
use sheet::Chart;

// A question's errand: the chart, the list of offices as a slice of its own, and what is asked of each office.
#[derive(Clone, Copy)]
pub struct Errand<'a> {
    pub chart: Chart<'a>,
    pub list: &'a [u8],
    pub quest: Quest,
    pub ghost roll: { Roll list.now chart.ground.counts.offices chart.ground.counts.places },
    pub ghost placed: { quest.place < chart.ground.counts.places },
}
