//! What there is at a beat.
ghost use Rattle.std.specs.Prelude.{◌≡◌, ◌<◌, ◌≤◌, length};
ghost use Rattle.history.specs.declared.limits.TheConstants.{MOST_DIMENSIONS_OF_CHART};
ghost use Rattle.alarm_core.specs.Series.{series_of_chart, series_of_all};

use crate::latest::Latest;
use chart_registry::Registry;
use query_engine::SeriesList;

/// What there is at a beat, beside the points.
#[derive(Clone, Copy)]
pub struct Sight<'a> {
    /// The moment of the beat, in seconds.
    pub moment: u32,
    pub registry: &'a Registry,
    pub latest: &'a Latest,
    /// The series of each chart, in the order of the charts.
    pub series: &'a [SeriesList],
    ghost whole: { series.now ≡ series_of_all registry.now },
}

impl<'a> Sight<'a> {
    /// The series of a chart, at most 1,024.
    pub fn series_of(&self, chart: u32) -> &'a [u32]
        requires { chart < length self.now.registry.now.charts }
        ensures series { result.now ≡ series_of_chart self.now.registry.now chart }
        ensures few { length result.now ≤ MOST_DIMENSIONS_OF_CHART }
    {
        let _few = self.registry.dimensions_of(chart);
        self.series[chart as usize].as_slice()
    }
}
