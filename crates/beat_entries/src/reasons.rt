//! Why a registry does not take what a beat defines and sets.

ghost use Rattle.std.specs.Prelude.{◌≡◌, ◌+◌, false, not, nat_lt, length, count_by};
ghost use Rattle.std.specs.List.{list_any};
ghost use Rattle.history.specs.Refusal.{has_chart, is_new_dimension, is_off_grid};
ghost use Rattle.history.specs.declared.beat.OpenDim.{OpenDim as ADim};
ghost use Rattle.history.specs.declared.beat.OpenRow.{OpenRow as ARow};
ghost use Rattle.beat_entries.specs.Rules.{changes_grid, changes_grid_of, content_refusal, fills_chart, is_too_long, lacks_dimension, too_many_charts, too_many_dimensions};

use crate::coming::Coming;
use crate::rows::FoundRows;
use chart_registry::{
    Registry, is_new_dimension, known_dimensions_of, known_update_every, new_charts,
};
use history::{
    BlockFault, ChartDef, MOST_CHARTS, MOST_DIMENSIONS, MOST_DIMENSIONS_OF_CHART, OpenBeat,
    OpenDim, OpenRow,
};

fn dimensions_lack_chart(coming: &Coming) -> bool
    ensures { result ≡ list_any (λ (dimension : ADim). not
        (has_chart coming.now.registry.now coming.now.beat.now dimension.chart))
        coming.now.beat.now.dimensions }
{
    let dimensions = coming.beat.dimensions.as_slice();
    dimensions.iter().any(|dimension| coming.chart(dimension.chart.as_str()).is_none())
}

fn changes_grid_of(registry: &Registry, def: &ChartDef) -> bool
    ensures { result ≡ changes_grid_of registry.now def.now }
{
    match known_update_every(registry, def.id.as_str()) {
        Some(update_every) => update_every != def.update_every,
        None => false,
    }
}

/// Whether the registry has a chart of the beat with another update_every.
pub(crate) fn changes_grid(registry: &Registry, beat: &OpenBeat) -> bool
    ensures { result ≡ changes_grid registry.now beat.now }
{
    beat.charts
        .as_slice()
        .iter()
        .any(|def| changes_grid_of(registry, def))
}

/// Whether with the beat there would be more than 4,096 charts. The charts of the beat are gone through only where
/// they are too many if all of them are new.
pub(crate) fn too_many_charts(registry: &Registry, beat: &OpenBeat) -> bool
    ensures { result ≡ too_many_charts registry.now beat.now }
{
    let room = (MOST_CHARTS - registry.charts()) as usize;
    let charts = beat.charts.as_slice();
    charts.len() > room && new_charts(registry, charts) > room
}

fn fills_chart(coming: &Coming, dimension: &OpenDim) -> bool
    ensures { result
        ≡ fills_chart coming.now.registry.now coming.now.beat.now dimension.now }
{
    let chart = dimension.chart.as_str();
    let known = known_dimensions_of(coming.registry, chart);
    let room = (MOST_DIMENSIONS_OF_CHART - known) as usize;
    coming.beat.dimensions.len() > room
        && is_new_dimension(coming.registry, dimension)
        && coming.new_dimensions_of(chart) > room
}

fn fill_a_chart(coming: &Coming) -> bool
    ensures { result ≡ list_any
        (fills_chart coming.now.registry.now coming.now.beat.now) coming.now.beat.now.dimensions }
{
    let dimensions = coming.beat.dimensions.as_slice();
    dimensions
        .iter()
        .any(|dimension| fills_chart(coming, dimension))
}

fn fill_the_registry(coming: &Coming) -> bool
    ensures { result ≡ nat_lt MOST_DIMENSIONS
        (length coming.now.registry.now.dimensions + count_by
        (is_new_dimension coming.now.registry.now) coming.now.beat.now.dimensions) }
{
    let room = (MOST_DIMENSIONS - coming.registry.dimensions()) as usize;
    coming.beat.dimensions.len() > room && coming.new_dimensions() > room
}

fn has_a_long_row(rows: &[OpenRow]) -> bool
    ensures { result ≡ list_any is_too_long rows.now }
{
    rows.iter()
        .any(|row| row.values.len() > MOST_DIMENSIONS_OF_CHART as usize)
}

/// Whether with the beat there would be more than 1,024 dimensions of a chart, or more than 65,536 in all, or a row
/// sets more than 1,024.
pub(crate) fn too_many_dimensions(coming: &Coming) -> bool
    ensures { result ≡ too_many_dimensions coming.now.registry.now coming.now.beat.now }
{
    fill_the_registry(coming) || fill_a_chart(coming) || has_a_long_row(coming.beat.rows.as_slice())
}

/// Why what the beat defines and sets may not come to its registry, if it may not, by what its rows came to: each of
/// them is of a chart that is there.
pub(crate) fn content_refusal(coming: &Coming, moment: u32, found: &FoundRows) -> Option<BlockFault>
    requires charts { list_any (λ (row : ARow). not
        (has_chart coming.now.registry.now coming.now.beat.now row.chart)) coming.now.beat.now.rows
        ≡ false }
    requires lack { found.now.lack
        ≡ lacks_dimension coming.now.registry.now coming.now.beat.now }
    requires off { changes_grid coming.now.registry.now coming.now.beat.now ≡ false
        → found.now.off_grid ≡ is_off_grid coming.now.registry.now coming.now.beat.now moment }
    ensures { result ≡ content_refusal coming.now.registry.now moment coming.now.beat.now }
{
    if dimensions_lack_chart(coming) {
        Some(BlockFault::NoChart)
    } else if found.lack {
        Some(BlockFault::NoDimension)
    } else if changes_grid(coming.registry, coming.beat) {
        Some(BlockFault::GridChanged)
    } else if too_many_charts(coming.registry, coming.beat) {
        Some(BlockFault::TooManyCharts)
    } else if too_many_dimensions(coming) {
        Some(BlockFault::TooManyDimensions)
    } else if found.off_grid {
        Some(BlockFault::OffGrid)
    } else {
        None
    }
}
