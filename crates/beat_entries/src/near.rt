//! The series of a dimension that is probably the one behind that of the dimension before it.

ghost use Rattle.std.specs.Prelude.{◌≡◌, ◌<◌, length};
ghost use Rattle.chart_registry.specs.Defining.{chart_id};
ghost use Rattle.history.specs.Registry.{series_of};

use chart_registry::Registry;

/// The series of a dimension by its id and its chart's number. Where it is `near` it is not looked up.
pub(crate) fn series_near(registry: &Registry, chart: u32, near: u32, id: &str) -> Option<u32>
    requires { chart < length registry.now.charts }
    ensures { result ≡ series_of registry.now (chart_id registry.now chart) id.now }
{
    if registry.is_series_of(near, chart, id) {
        Some(near)
    } else {
        registry.series_of(chart, id)
    }
}
