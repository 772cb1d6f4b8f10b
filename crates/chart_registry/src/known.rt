//! What the registry says of the charts and dimensions that a beat defines.

ghost use Rattle.std.specs.Prelude.{◌≡◌, ◌≤◌, ◌%◌, ◌==◌, ◌&&◌, false, not, nat_lt, count_by, find};
ghost use Rattle.std.specs.List.{list_any};
ghost use Rattle.std.specs.Option.{option_map, option_map_or};
ghost use Rattle.history.specs.Refusal.{is_new_chart, is_new_dimension, is_new_of};
ghost use Rattle.history.specs.Registry.{is_chart, is_of, is_dimension};

use crate::registry::Registry;
use history::{ChartDef, MOST_DIMENSIONS_OF_CHART, OpenDim};

/// Whether a moment is no multiple of the update_every of a chart, which is in seconds; no chart has none.
pub fn is_off(update_every: Option<u32>, moment: u32) -> bool
    ensures { result ≡ option_map_or
        (λ every. nat_lt 0 every && not (moment % every == 0)) update_every false }
{
    match update_every {
        Some(update_every) => update_every > 0 && moment % update_every != 0,
        None => false,
    }
}

/// The update_every of a chart that the registry has.
pub fn known_update_every(registry: &Registry, id: &str) -> Option<u32>
    ensures { result ≡ option_map (λ def. def.update_every)
        (find (is_chart id.now) registry.now.charts) }
{
    match registry.chart_of(id) {
        Some(number) => Some(registry.chart(number).update_every),
        None => None,
    }
}

/// Whether the registry has this dimension of the chart.
pub fn is_known_dimension(registry: &Registry, chart: &str, id: &str) -> bool
    ensures { result ≡ list_any (is_dimension chart.now id.now) registry.now.dimensions }
{
    match registry.chart_of(chart) {
        Some(number) => registry.series_of(number, id).is_some(),
        None => false,
    }
}

/// The same, where the registry may have the chart at this number, which spares looking for it.
pub fn is_known_dimension_at(
    registry: &Registry,
    number: Option<u32>,
    chart: &str,
    id: &str,
) -> bool
    ensures { result ≡ list_any (is_dimension chart.now id.now) registry.now.dimensions }
{
    match number {
        Some(number) if registry.is_number_of(number, chart) => {
            registry.series_of(number, id).is_some()
        }
        _ => is_known_dimension(registry, chart, id),
    }
}

/// How many dimensions of this chart the registry has.
pub fn known_dimensions_of(registry: &Registry, chart: &str) -> u32
    ensures value { result ≡ count_by (is_of chart.now) registry.now.dimensions }
    ensures few { result ≤ MOST_DIMENSIONS_OF_CHART }
{
    match registry.chart_of(chart) {
        Some(number) => registry.dimensions_of(number),
        None => 0,
    }
}

/// Whether the registry does not have the chart.
pub fn is_new_chart(registry: &Registry, def: &ChartDef) -> bool
    ensures { result ≡ is_new_chart registry.now def.now }
{
    registry.chart_of(def.id.as_str()).is_none()
}

/// How many of these charts the registry does not have.
pub fn new_charts(registry: &Registry, charts: &[ChartDef]) -> usize
    ensures { result ≡ count_by (is_new_chart registry.now) charts.now }
{
    charts
        .iter()
        .filter(|def| is_new_chart(registry, def))
        .count()
}

/// Whether the registry does not have the dimension.
pub fn is_new_dimension(registry: &Registry, dimension: &OpenDim) -> bool
    ensures { result ≡ is_new_dimension registry.now dimension.now }
{
    !is_known_dimension(
        registry,
        dimension.chart.as_str(),
        dimension.def.id.as_str(),
    )
}

/// How many of these dimensions the registry does not have.
pub fn new_dimensions(registry: &Registry, dimensions: &[OpenDim]) -> usize
    ensures { result ≡ count_by (is_new_dimension registry.now) dimensions.now }
{
    dimensions
        .iter()
        .filter(|dimension| is_new_dimension(registry, dimension))
        .count()
}

/// How many of these dimensions are of this chart, and the registry does not have them.
pub fn new_dimensions_of(registry: &Registry, dimensions: &[OpenDim], chart: &str) -> usize
    ensures { result ≡ count_by (is_new_of registry.now chart.now) dimensions.now }
{
    dimensions
        .iter()
        .filter(|dimension| {
            chart == dimension.chart.as_str() && is_new_dimension(registry, dimension)
        })
        .count()
}
