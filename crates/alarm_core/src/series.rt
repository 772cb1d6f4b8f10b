//! The series of charts.
ghost use Rattle.std.specs.Prelude.{◌≡◌, ◌<◌, [], ◌∷◌, ◌++◌, length, map, slice_set, slice_index_or, IfOk, OnOk};
ghost use Rattle.std.specs.List.{range_with_len};
ghost use Rattle.alarm_core.specs.Known.{AreKnown, no_series};
ghost use Rattle.alarm_core.specs.Series.{series_of_all};

use chart_registry::Registry;
use query_engine::SeriesList;
use std::alloc::{AllocError, Global};

/// Adds a list.
fn push_list(lists: &mut Vec<SeriesList>, list: SeriesList) -> Result<(), AllocError>
    ensures { OnOk result (lists.new.items ≡ lists.old.items ++ list ∷ []) }
{
    lists.push(list).map_err(|_| AllocError)
}

/// A list without series for each chart.
fn empty_lists(alloc: Global, registry: &Registry) -> Result<Vec<SeriesList>, AllocError>
    ensures lists { IfOk result (λ lists. lists.items
        ≡ map no_series (range_with_len 0 (length registry.now.charts))) }
    ensures known { OnOk result (AreKnown registry.now (length registry.now.charts)) }
{
    let mut lists = Vec::new(alloc);
    for chart in 0..registry.charts() {
        let _known = registry.chart(chart);
        push_list(&mut lists, SeriesList::new(alloc))?;
    }
    Ok(lists)
}

/// Adds a series to the list of its chart.
fn add_series(lists: &mut Vec<SeriesList>, chart: u32, series: u32) -> Result<(), AllocError>
    requires { chart < length lists.old.items }
    ensures { OnOk result (lists.new.items ≡ slice_set lists.old.items chart
        (slice_index_or lists.old.items chart [] ++ series ∷ [])) }
{
    lists[chart as usize].push(series).map_err(|_| AllocError)
}

/// The series of each chart, in the order of the charts. It goes through all dimensions once.
pub fn all_series(alloc: Global, registry: &Registry) -> Result<Vec<SeriesList>, AllocError>
    ensures { IfOk result (λ lists. lists.items ≡ series_of_all registry.now) }
{
    let mut lists = empty_lists(alloc, registry)?;
    for series in 0..registry.dimensions() {
        let chart = registry.owner(series);
        add_series(&mut lists, chart, series)?;
    }
    Ok(lists)
}
