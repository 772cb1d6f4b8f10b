//! Why a registry does not take what the names of a `Data` define. It takes no memory, so that it is told also where
//! there is none. The names are gone through a few times, and none of them is compared with the others.

ghost use Rattle.std.specs.Prelude.{◌≡◌, ◌+◌, ◌<◌, ◌≤◌, true, false, nat_lt, length, count_by, set, slice_get, slice_index};
ghost use Rattle.std.specs.List.{list_any};
ghost use Rattle.std.specs.Option.{option_copied, option_map_or};
ghost use Rattle.history.specs.Refusal.{is_new_chart, is_new_dimension};
ghost use Rattle.link_frames.specs.DataForm.{AreApart, IsData};
ghost use Rattle.agent_core.specs.Copying.{copy_refusal, defined_chart, defined_dimension, definitions_in, names_refusal};
ghost use Rattle.agent_core.specs.NewNames.{CountsMore, HaveRoom, IsOneTooMany};
ghost use Rattle.agent_core.specs.Rules.{changes_grid, changes_grid_of, fills_chart, too_many_charts, too_many_dimensions};

use crate::left::Role;
use chart_registry::{Registry, is_known_dimension, known_dimensions_of, known_update_every};
use history::{BlockFault, MOST_CHARTS, MOST_DIMENSIONS, MOST_DIMENSIONS_OF_CHART};
use replication::{ChartName, Data, DimName, Names};

/// How many charts a message may name that is not refused for them.
const PLACES: usize = MOST_CHARTS as usize;

/// Whether the registry has the chart with another update_every.
fn changes_grid_of(registry: &Registry, chart: &ChartName) -> bool
    ensures { result ≡ changes_grid_of registry.now (defined_chart chart.now) }
{
    match known_update_every(registry, chart.id.as_str()) {
        Some(update_every) => update_every != chart.update_every,
        None => false,
    }
}

fn change_grids(registry: &Registry, charts: &[ChartName]) -> bool
    ensures { result ≡ list_any
        (λ chart. changes_grid_of registry.now (defined_chart chart)) charts.now }
{
    charts.iter().any(|chart| changes_grid_of(registry, chart))
}

fn changes_grid(registry: &Registry, names: &Names) -> bool
    ensures { result ≡ changes_grid registry.now (definitions_in names.now) }
{
    change_grids(registry, names.charts.as_slice())
}

/// Whether the registry does not have the chart.
fn is_new_chart(registry: &Registry, chart: &ChartName) -> bool
    ensures { result ≡ is_new_chart registry.now (defined_chart chart.now) }
{
    registry.chart_of(chart.id.as_str()).is_none()
}

#[tactic(auto, using(crate::proofs::Lists::count_map))]
fn new_charts(registry: &Registry, names: &Names) -> usize
    ensures { result
        ≡ count_by (is_new_chart registry.now) (definitions_in names.now).charts }
{
    let charts = names.charts.as_slice();
    charts
        .iter()
        .filter(|chart| is_new_chart(registry, chart))
        .count()
}

/// The charts are gone through only where they are too many if all of them are new.
fn too_many_charts(registry: &Registry, names: &Names) -> bool
    ensures { result ≡ too_many_charts registry.now (definitions_in names.now) }
{
    let room = (MOST_CHARTS - registry.charts()) as usize;
    names.charts.len() > room && new_charts(registry, names) > room
}

/// The name of the chart of a dimension, if it has one.
fn chart_of<'a>(names: &'a Names, dimension: &DimName) -> Option<&'a ChartName>
    ensures { option_copied result ≡ slice_get names.now.charts dimension.now.chart }
{
    names.charts.as_slice().get(dimension.chart as usize)
}

/// Whether a dimension is defined that the registry does not have.
fn is_new_dimension(registry: &Registry, names: &Names, dimension: &DimName) -> bool
    ensures { result ≡ option_map_or (is_new_dimension registry.now)
        (defined_dimension names.now dimension.now) false }
{
    match chart_of(names, dimension) {
        Some(chart) => !is_known_dimension(registry, chart.id.as_str(), dimension.id.as_str()),
        None => false,
    }
}

#[tactic(auto, using(crate::proofs::Lists::count_made))]
fn new_dimensions(registry: &Registry, names: &Names) -> usize
    ensures { result
        ≡ count_by (is_new_dimension registry.now) (definitions_in names.now).dimensions }
{
    let dimensions = names.dimensions.as_slice();
    dimensions
        .iter()
        .filter(|dimension| is_new_dimension(registry, names, dimension))
        .count()
}

/// Counts one more dimension of the chart at this place, where there is room for it beside those that the registry
/// has. Whether there is none.
fn fills(counts: &mut [u16; PLACES], place: usize, known: u32) -> bool
    requires within { place < MOST_CHARTS }
    requires few { known ≤ MOST_DIMENSIONS_OF_CHART }
    ensures full { result
        ≡ nat_lt MOST_DIMENSIONS_OF_CHART (known + slice_index counts.old place + 1) }
    ensures counted { result ≡ false
        → counts.new ≡ set counts.old place (slice_index counts.old place + 1) }
{
    let is_full = known + u32::from(counts[place]) >= MOST_DIMENSIONS_OF_CHART;
    if !is_full {
        counts[place] += 1;
    }
    is_full
}

/// Counts a dimension, if it is new, at the place of its chart. Whether that has too many then.
fn fills_chart(
    registry: &Registry,
    names: &Names,
    dimension: &DimName,
    counts: &mut [u16; PLACES],
) -> bool
    requires { length names.now.charts ≤ MOST_CHARTS }
    ensures full { result ≡ true
        → IsOneTooMany registry.now names.now counts.old dimension.now }
    ensures counted { result ≡ false
        → CountsMore registry.now names.now dimension.now counts.old counts.new }
    ensures room { result ≡ false → HaveRoom registry.now names.now counts.old
        → HaveRoom registry.now names.now counts.new }
{
    match chart_of(names, dimension) {
        Some(chart) if is_new_dimension(registry, names, dimension) => {
            let known = known_dimensions_of(registry, chart.id.as_str());
            fills(counts, dimension.chart as usize, known)
        }
        _ => false,
    }
}

/// Whether a dimension is new to a chart that then has too many. Each dimension is looked for once.
fn fill_a_chart(registry: &Registry, names: &Names) -> bool
    requires apart { AreApart names.now }
    requires few { length names.now.charts ≤ MOST_CHARTS }
    ensures { result ≡ list_any (λ dimension. option_map_or
        (fills_chart registry.now (definitions_in names.now))
        (defined_dimension names.now dimension) false) names.now.dimensions }
{
    let dimensions = names.dimensions.as_slice();
    let mut counts = [0; PLACES];
    for dimension in dimensions {
        if fills_chart(registry, names, dimension, &mut counts) {
            return true;
        }
    }
    false
}

#[tactic(auto, using(crate::proofs::Lists::few_made))]
fn fill_the_registry(registry: &Registry, names: &Names) -> bool
    ensures { result ≡ nat_lt MOST_DIMENSIONS (length registry.now.dimensions
        + count_by (is_new_dimension registry.now) (definitions_in names.now).dimensions) }
{
    let room = (MOST_DIMENSIONS - registry.dimensions()) as usize;
    names.dimensions.len() > room && new_dimensions(registry, names) > room
}

fn too_many_dimensions(registry: &Registry, names: &Names) -> bool
    requires apart { AreApart names.now }
    requires few { length names.now.charts ≤ MOST_CHARTS }
    ensures { result ≡ too_many_dimensions registry.now (definitions_in names.now) }
{
    fill_the_registry(registry, names) || fill_a_chart(registry, names)
}

fn names_refusal(registry: &Registry, names: &Names) -> Option<BlockFault>
    requires { AreApart names.now }
    ensures { result ≡ names_refusal registry.now (definitions_in names.now) }
{
    if changes_grid(registry, names) {
        Some(BlockFault::GridChanged)
    } else if too_many_charts(registry, names) {
        Some(BlockFault::TooManyCharts)
    } else if too_many_dimensions(registry, names) {
        Some(BlockFault::TooManyDimensions)
    } else {
        None
    }
}

/// Why a history with this registry that does this does not take a `Data` that begins where it ends, if it does not.
pub(crate) fn copy_refusal(registry: &Registry, role: Role, message: &Data) -> Option<BlockFault>
    requires { IsData message.now }
    ensures { result ≡ copy_refusal registry.now role message.now }
{
    if role.may_copy() {
        names_refusal(registry, &message.names)
    } else {
        Some(BlockFault::MixedRoles)
    }
}
