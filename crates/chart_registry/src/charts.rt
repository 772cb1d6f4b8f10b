ghost use Rattle.std.specs.Prelude.{◌≡◌, ◌<◌, ◌≤◌, [], ◌∷◌, ◌++◌, true, length, position, slice_get, slice_set, is_some, Some, None, string_bytes, OnOk, OnErr};
ghost use Rattle.std.specs.Str.{bytes_eq};
ghost use Rattle.chart_registry.specs.Rows.{rows, row_at, ids, chart_defs, series_in, AreById, AddsSeries, EntersSeries};
ghost use Rattle.chart_registry.specs.Leaving.{RemovesSeries, LeavesSeries};
ghost use Rattle.indexmap.specs.IndexMap.{values};
ghost use Rattle.chart_registry.specs.declared.charts.Chart.{Chart as Kept};

use history::{ChartDef, MOST_CHARTS};
use indexmap::IndexMap;
use std::alloc::{AllocError, Global};
use std::mem::replace;

/// A chart as it is kept: its last definition, and the series of its dimensions by their ids.
#[derive(Drop)]
pub(crate) struct Chart {
    pub(crate) def: ChartDef,
    pub(crate) series: IndexMap<String, u32>,
}

// The number of the chart with this id.
pub(crate) fn number_of(charts: &IndexMap<String, Chart>, id: &str) -> Option<u32>
    requires by_id { AreById charts.now }
    requires few { length (chart_defs charts.now) ≤ MOST_CHARTS }
    ensures { result ≡ position (bytes_eq id.now) (ids (rows charts.now)) }
{
    match charts.get_index_of(id) {
        Some(place) => Some(place as u32),
        None => None,
    }
}

// The chart with this number.
pub(crate) fn chart_at(charts: &IndexMap<String, Chart>, number: u32) -> &Chart
    requires { number < length (chart_defs charts.now) }
    ensures def { slice_get (chart_defs charts.now) number ≡ Some result.now.def }
    ensures row { row_at (rows charts.now) number
        ≡ record { id = result.now.def.id; series = result.now.series.entries } }
{
    &charts[number as usize]
}

// Puts a definition in the place of that of the chart with this number, which has the same id, and gives that.
pub(crate) fn exchange(charts: &mut IndexMap<String, Chart>, number: u32, def: ChartDef) -> ChartDef
    requires there { number < length (chart_defs charts.old) }
    requires same { (row_at (rows charts.old) number).id ≡ def.id }
    ensures by_id { AreById charts.old → AreById charts.new }
    ensures rows { rows charts.new ≡ rows charts.old }
    ensures defs { chart_defs charts.new ≡ slice_set (chart_defs charts.old) number def }
    ensures before { slice_get (chart_defs charts.old) number ≡ Some result }
{
    replace(&mut charts[number as usize].def, def)
}

// Takes the last chart out.
pub(crate) fn remove_last(charts: &mut IndexMap<String, Chart>)
    requires { 0 < length (chart_defs charts.old) }
    ensures by_id { AreById charts.old → AreById charts.new }
    ensures last { (last : Kept) × (values charts.old ≡ values charts.new ++ last ∷ []) }
{
    let _last = charts.pop();
}

// Keeps a chart with an id that no chart has yet.
pub(crate) fn add(
    alloc: Global,
    charts: &mut IndexMap<String, Chart>,
    def: &ChartDef,
) -> Result<(), AllocError>
    requires by_id { AreById charts.old }
    requires absent { position (bytes_eq def.now.id) (ids (rows charts.old)) ≡ None }
    ensures by_id { AreById charts.new }
    ensures rows { OnOk result
        (rows charts.new ≡ rows charts.old ++ record { id = def.now.id; series = [] } ∷ []) }
    ensures ok { OnOk result (chart_defs charts.new ≡ chart_defs charts.old ++ def.now ∷ []) }
    ensures rows_err { OnErr result (rows charts.new ≡ rows charts.old) }
    ensures err { OnErr result (chart_defs charts.new ≡ chart_defs charts.old) }
{
    let chart = Chart {
        def: def.clone()?,
        series: IndexMap::new(alloc),
    };
    let id = def.id.clone()?.into_string();
    charts.insert(id, chart)?;
    Ok(())
}

// The series that a chart's table has for an id.
pub(crate) fn series_of(charts: &IndexMap<String, Chart>, number: u32, id: &str) -> Option<u32>
    requires { number < length (chart_defs charts.now) }
    ensures { result ≡ series_in (row_at (rows charts.now) number).series id.now }
{
    chart_at(charts, number).series.get(id).copied()
}

// Adds the series of a new dimension to a chart's table.
fn add_series(chart: &mut Chart, id: String, series: u32) -> Result<(), AllocError>
    requires { series_in chart.old.series.entries (string_bytes id) ≡ None }
    ensures def { chart.new.def ≡ chart.old.def }
    ensures ok { OnOk result (AddsSeries chart.old.series.entries
        (string_bytes id) series chart.new.series.entries) }
    ensures err { OnErr result (chart.new.series.entries ≡ chart.old.series.entries) }
{
    chart.series.insert(id, series)?;
    Ok(())
}

// Takes the series of a dimension out of a chart's table.
fn remove_series(chart: &mut Chart, id: &str)
    requires { is_some (series_in chart.old.series.entries id.now) ≡ true }
    ensures def { chart.new.def ≡ chart.old.def }
    ensures series { RemovesSeries chart.old.series.entries id.now chart.new.series.entries }
{
    let _series = chart.series.swap_remove(id);
}

// Takes the series of a dimension out of the table of the chart with this number.
pub(crate) fn leave(charts: &mut IndexMap<String, Chart>, number: u32, id: &str)
    requires there { number < length (chart_defs charts.old) }
    requires found { is_some (series_in (row_at (rows charts.old) number).series id.now) ≡ true }
    ensures by_id { AreById charts.old → AreById charts.new }
    ensures defs { chart_defs charts.new ≡ chart_defs charts.old }
    ensures rows { LeavesSeries (rows charts.old) number id.now (rows charts.new) }
{
    remove_series(&mut charts[number as usize], id)
}

// Enters the series of a new dimension into the table of the chart with this number.
pub(crate) fn enter(
    charts: &mut IndexMap<String, Chart>,
    number: u32,
    id: String,
    series: u32,
) -> Result<(), AllocError>
    requires there { number < length (chart_defs charts.old) }
    requires absent { series_in (row_at (rows charts.old) number).series (string_bytes id) ≡ None }
    ensures by_id { AreById charts.old → AreById charts.new }
    ensures defs { chart_defs charts.new ≡ chart_defs charts.old }
    ensures ok { OnOk result (EntersSeries (rows charts.old) number (string_bytes id) series
        (rows charts.new)) }
    ensures err { OnErr result (rows charts.new ≡ rows charts.old) }
{
    add_series(&mut charts[number as usize], id, series)
}
