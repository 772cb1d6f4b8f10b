//! The definitions and the rows of a numbered beat, as a registry takes them.
ghost use Rattle.std.specs.Prelude.{◌≡◌, true, false, map, IfErr, OnOk};
ghost use Rattle.std.specs.List.{list_all};
ghost use Rattle.chart_registry.specs.Taking.{all_taken, with_chart, with_charts, takes_chart, with_dimension, with_dimensions, takes_dimension};
ghost use Rattle.beat_entries.specs.Copied.{full_chart, full_dimension};
ghost use Rattle.beat_entries.specs.Next.{owner_of, is_of_chart, takes_row};
ghost use Rattle.beat_entries.specs.declared.refusal.EntryRefusal.TheVariants.{NotNext};

use crate::refusal::EntryRefusal;
use crate::usual;
use chart_registry::Registry;
use entry_codec::{CopiedChart, CopiedDimension};
use history::{MOST_DIMENSIONS_OF_CHART, NumberedChart, NumberedDimension, Row, Value};
use std::alloc::Global;

/// The most values of one row.
const MOST_VALUES: usize = MOST_DIMENSIONS_OF_CHART as usize;

/// Takes a chart, if it may be taken. After an `Err` all is as before.
fn take_chart(registry: &mut Registry, chart: &NumberedChart) -> Result<(), EntryRefusal>
    ensures ok { OnOk result (registry.new ≡ with_chart registry.old chart.now) }
    ensures taken { OnOk result (takes_chart registry.old chart.now ≡ true) }
    ensures refused { IfErr result (λ refusal. refusal ≡ NotNext
        → takes_chart registry.old chart.now ≡ false) }
{
    if !registry.takes_chart(chart) {
        return Err(EntryRefusal::NotNext);
    }
    registry.take_chart(chart)?;
    Ok(())
}

/// Takes charts, each by its number. `NotNext` only where one does not keep its limits, or the registry refuses it or
/// numbers it otherwise. After an `Err` the registry has taken those before it.
pub fn define_charts(registry: &mut Registry, charts: &[NumberedChart]) -> Result<(), EntryRefusal>
    ensures ok { OnOk result (registry.new ≡ with_charts registry.old charts.now) }
    ensures taken { OnOk result
        (all_taken takes_chart with_chart registry.old charts.now ≡ true) }
    ensures refused { IfErr result (λ refusal. refusal ≡ NotNext
        → all_taken takes_chart with_chart registry.old charts.now ≡ false) }
{
    for chart in charts {
        take_chart(registry, chart)?;
    }
    Ok(())
}

/// The same of charts of which a copy tells.
pub(crate) fn define_copied_charts(
    alloc: Global,
    registry: &mut Registry,
    charts: &[CopiedChart],
) -> Result<(), EntryRefusal>
    ensures ok { OnOk result (registry.new ≡ with_charts registry.old (map full_chart charts.now)) }
    ensures taken { OnOk result
        (all_taken takes_chart with_chart registry.old (map full_chart charts.now) ≡ true) }
    ensures refused { IfErr result (λ refusal. refusal ≡ NotNext
        → all_taken takes_chart with_chart registry.old (map full_chart charts.now) ≡ false) }
{
    for chart in charts {
        let full = usual::full_chart(alloc, chart)?;
        take_chart(registry, &full)?;
    }
    Ok(())
}

/// Takes a dimension, if it may be taken. After an `Err` all is as before.
fn take_dimension(
    registry: &mut Registry,
    dimension: &NumberedDimension,
) -> Result<(), EntryRefusal>
    ensures ok { OnOk result (registry.new ≡ with_dimension registry.old dimension.now) }
    ensures taken { OnOk result (takes_dimension registry.old dimension.now ≡ true) }
    ensures refused { IfErr result (λ refusal. refusal ≡ NotNext
        → takes_dimension registry.old dimension.now ≡ false) }
{
    if !registry.takes_dimension(dimension) {
        return Err(EntryRefusal::NotNext);
    }
    registry.take_dimension(dimension)?;
    Ok(())
}

/// Takes dimensions, each by its number, of charts that are there. `NotNext` only where one does not keep its
/// limits, or the registry refuses it or numbers it otherwise. After an `Err` the registry has taken those
/// before it.
pub fn define_dimensions(
    registry: &mut Registry,
    dimensions: &[NumberedDimension],
) -> Result<(), EntryRefusal>
    ensures ok { OnOk result (registry.new ≡ with_dimensions registry.old dimensions.now) }
    ensures taken { OnOk result
        (all_taken takes_dimension with_dimension registry.old dimensions.now ≡ true) }
    ensures refused { IfErr result (λ refusal. refusal ≡ NotNext
        → all_taken takes_dimension with_dimension registry.old dimensions.now ≡ false) }
{
    for dimension in dimensions {
        take_dimension(registry, dimension)?;
    }
    Ok(())
}

/// The same of dimensions of which a copy tells.
pub(crate) fn define_copied_dimensions(
    registry: &mut Registry,
    dimensions: &[CopiedDimension],
) -> Result<(), EntryRefusal>
    ensures ok { OnOk result
        (registry.new ≡ with_dimensions registry.old (map full_dimension dimensions.now)) }
    ensures taken { OnOk result (all_taken takes_dimension with_dimension registry.old
        (map full_dimension dimensions.now) ≡ true) }
    ensures refused { IfErr result (λ refusal. refusal ≡ NotNext
        → all_taken takes_dimension with_dimension registry.old
        (map full_dimension dimensions.now) ≡ false) }
{
    for dimension in dimensions {
        let full = usual::full_dimension(dimension)?;
        take_dimension(registry, &full)?;
    }
    Ok(())
}

/// The number of the chart of a dimension, if it is there.
fn owner_of(registry: &Registry, series: u32) -> Option<u32>
    ensures { result ≡ owner_of registry.now series }
{
    if series < registry.dimensions() {
        Some(registry.owner(series))
    } else {
        None
    }
}

/// Whether a value is of a dimension of this chart.
fn is_of_chart(registry: &Registry, chart: u32, value: &Value) -> bool
    ensures { result ≡ is_of_chart registry.now chart value.now }
{
    match owner_of(registry, value.series) {
        Some(owner) => chart == owner,
        None => false,
    }
}

/// Whether each value is so.
fn are_of_chart(registry: &Registry, chart: u32, values: &[Value]) -> bool
    ensures { result ≡ list_all (is_of_chart registry.now chart) values.now }
{
    values
        .iter()
        .all(|value| is_of_chart(registry, chart, value))
}

/// Whether a row is of a chart that is there, with values of its dimensions, and no longer than a chart can
/// be.
fn takes_row(registry: &Registry, row: &Row) -> bool
    ensures { result ≡ takes_row registry.now row.now }
{
    if row.chart >= registry.charts() || row.values.len() > MOST_VALUES {
        return false;
    }
    are_of_chart(registry, row.chart, row.values.as_slice())
}

/// Whether each row is so.
pub(crate) fn takes_rows(registry: &Registry, rows: &[Row]) -> bool
    ensures { result ≡ list_all (takes_row registry.now) rows.now }
{
    rows.iter().all(|row| takes_row(registry, row))
}
