//! What an alarm of a chart sees.
ghost use Rattle.std.specs.Prelude.{◌≡◌, ◌<◌, ◌≤◌, length};
ghost use Rattle.history.specs.declared.limits.TheConstants.{MOST_DIMENSIONS_OF_CHART};
ghost use Rattle.alarm_core.specs.Series.{series_of_chart};

use crate::latest::Latest;
use alarm_events::Status;
use chart_registry::Registry;
use health_config::Entity;

/// What an alarm of a chart sees when it is computed.
#[derive(Drop)]
pub struct Scene<'a> {
    /// The alarm that is computed.
    pub alarm: &'a Entity,
    /// The charts as they are now.
    pub registry: &'a Registry,
    /// What was last seen of the charts.
    pub latest: &'a Latest,
    /// The number of the chart.
    pub chart: u32,
    /// The series of the chart, in the order of their numbers: at most 1,024.
    pub series: &'a [u32],
    /// When it is, in seconds.
    pub moment: u32,
    /// The status before.
    pub status: Status,
    ghost known: { chart < length registry.now.charts },
    ghost whole: { series.now ≡ series_of_chart registry.now chart },
    ghost few: { length series.now ≤ MOST_DIMENSIONS_OF_CHART },
}
