ghost use Rattle.std.specs.Prelude.{◌≡◌, ◌++◌, [], Some, true, is_some, All, IsSome, IfOk, OnOk, filter_map};
ghost use Rattle.std.specs.List.{cons_option};
ghost use Rattle.std.specs.List.Sorted.{IsPermutation, IsNonDecreasingBy};
ghost use Rattle.beat_entries.specs.Defined.{IsDefinedIn};
ghost use Rattle.history.specs.Numbered.{numbered_charts, numbered_dimensions};
ghost use Rattle.history.specs.Registry.{chart_of, series_of};
ghost use Rattle.beat_entries.specs.Coming.{CanNumber};
ghost use Rattle.beat_entries.specs.Gathered.{chart_at, dimension_at};
ghost use Rattle.beat_entries.specs.Rules.{with_beat};

use crate::coming::Coming;
use fixed_num::ListOf;
use history::{
    ChartDef, ChartList, DimensionList, NumberedChart, NumberedDimension, OpenBeat, OpenDim,
};
use std::alloc::{AllocError, Global};

/// What a beat defines, by the numbers that it has once a registry takes it: each list in the order of its numbers,
/// each number once.
#[derive(Debug, Drop)]
pub struct NumberedDefinitions {
    pub charts: ChartList,
    pub dimensions: DimensionList,
}

/// A chart with its number.
fn number_chart(coming: &Coming, def: &ChartDef) -> Result<NumberedChart, AllocError>
    requires can { CanNumber coming.now }
    requires chart { IsSome
        (chart_of (with_beat coming.now.registry.now coming.now.beat.now) def.now.id) }
    ensures { IfOk result (λ made. Some made
        ≡ chart_at (with_beat coming.now.registry.now coming.now.beat.now) def.now) }
{
    let place = coming.chart(def.id.as_str()).unwrap();
    Ok(NumberedChart {
        number: place.number,
        def: def.clone()?,
    })
}

/// Adds a chart with its number.
fn push_chart(
    charts: &mut Vec<NumberedChart>,
    coming: &Coming,
    def: &ChartDef,
) -> Result<(), AllocError>
    requires can { CanNumber coming.now }
    requires chart { IsSome
        (chart_of (with_beat coming.now.registry.now coming.now.beat.now) def.now.id) }
    ensures { OnOk result (charts.new.items ≡ charts.old.items
        ++ cons_option
        (chart_at (with_beat coming.now.registry.now coming.now.beat.now) def.now) []) }
{
    charts.push(number_chart(coming, def)?)?;
    Ok(())
}

fn gather_charts(
    alloc: Global,
    coming: &Coming,
    defs: &[ChartDef],
) -> Result<Vec<NumberedChart>, AllocError>
    requires can { CanNumber coming.now }
    requires charts { All (λ def. IsSome
        (chart_of (with_beat coming.now.registry.now coming.now.beat.now) def.id)) defs.now }
    ensures { IfOk result (λ charts. charts.items ≡ filter_map
        (chart_at (with_beat coming.now.registry.now coming.now.beat.now)) defs.now) }
{
    let mut charts = Vec::with_capacity(alloc, defs.len())?;
    for def in defs {
        push_chart(&mut charts, coming, def)?;
    }
    Ok(charts)
}

fn sort_charts(mut charts: Vec<NumberedChart>) -> Result<ChartList, AllocError>
    ensures same { IfOk result (λ list. IsPermutation charts.items list) }
    ensures rises { IfOk result (λ list. IsNonDecreasingBy (λ chart. chart.number) list) }
{
    charts.sort_by_key(|chart| chart.number)?;
    Ok(ListOf::from_vec(charts))
}

/// The charts that a beat defines, in the order of their numbers.
fn charts(alloc: Global, coming: &Coming, beat: &OpenBeat) -> Result<ChartList, AllocError>
    requires can { CanNumber coming.now }
    requires defined { IsDefinedIn
        (with_beat coming.now.registry.now coming.now.beat.now) beat.now }
    ensures { IfOk result (λ list. list
        ≡ numbered_charts (with_beat coming.now.registry.now coming.now.beat.now) beat.now) }
{
    sort_charts(gather_charts(alloc, coming, beat.charts.as_slice())?)
}

/// A dimension with its number and that of its chart.
fn number_dimension(
    coming: &Coming,
    near: u32,
    dimension: &OpenDim,
) -> Result<NumberedDimension, AllocError>
    requires can { CanNumber coming.now }
    requires chart { IsSome
        (chart_of (with_beat coming.now.registry.now coming.now.beat.now) dimension.now.chart) }
    requires series { IsSome
        (series_of (with_beat coming.now.registry.now coming.now.beat.now) dimension.now.chart
        dimension.now.def.id) }
    ensures { IfOk result (λ made. Some made
        ≡ dimension_at (with_beat coming.now.registry.now coming.now.beat.now) dimension.now) }
{
    let chart = dimension.chart.as_str();
    let id = dimension.def.id.as_str();
    let place = coming.chart(chart).unwrap();
    let series = coming.series(place.known, near, chart, id).unwrap();
    Ok(NumberedDimension {
        series,
        chart: place.number,
        def: dimension.def.clone()?,
    })
}

/// The series behind the last of these dimensions.
fn series_behind(dimensions: &[NumberedDimension]) -> u32 {
    match dimensions.last() {
        Some(dimension) => dimension.series.saturating_add(1),
        None => 0,
    }
}

/// Adds a dimension with its number.
fn push_dimension(
    dimensions: &mut Vec<NumberedDimension>,
    coming: &Coming,
    dimension: &OpenDim,
) -> Result<(), AllocError>
    requires can { CanNumber coming.now }
    requires chart { IsSome
        (chart_of (with_beat coming.now.registry.now coming.now.beat.now) dimension.now.chart) }
    requires series { IsSome
        (series_of (with_beat coming.now.registry.now coming.now.beat.now) dimension.now.chart
        dimension.now.def.id) }
    ensures { OnOk result (dimensions.new.items ≡ dimensions.old.items
        ++ cons_option
        (dimension_at (with_beat coming.now.registry.now coming.now.beat.now) dimension.now) []) }
{
    let near = series_behind(dimensions.as_slice());
    dimensions.push(number_dimension(coming, near, dimension)?)?;
    Ok(())
}

fn gather_dimensions(
    alloc: Global,
    coming: &Coming,
    defs: &[OpenDim],
) -> Result<Vec<NumberedDimension>, AllocError>
    requires can { CanNumber coming.now }
    requires charts { All (λ dimension. IsSome
        (chart_of (with_beat coming.now.registry.now coming.now.beat.now) dimension.chart))
        defs.now }
    requires series { All (λ dimension. IsSome
        (series_of (with_beat coming.now.registry.now coming.now.beat.now) dimension.chart
        dimension.def.id)) defs.now }
    ensures { IfOk result (λ dimensions. dimensions.items ≡ filter_map
        (dimension_at (with_beat coming.now.registry.now coming.now.beat.now)) defs.now) }
{
    let mut dimensions = Vec::with_capacity(alloc, defs.len())?;
    for dimension in defs {
        push_dimension(&mut dimensions, coming, dimension)?;
    }
    Ok(dimensions)
}

fn sort_dimensions(mut dimensions: Vec<NumberedDimension>) -> Result<DimensionList, AllocError>
    ensures same { IfOk result (λ list. IsPermutation dimensions.items list) }
    ensures rises { IfOk result (λ list. IsNonDecreasingBy (λ dimension. dimension.series) list) }
{
    dimensions.sort_by_key(|dimension| dimension.series)?;
    Ok(ListOf::from_vec(dimensions))
}

/// The dimensions that a beat defines, in the order of their numbers.
fn dimensions(alloc: Global, coming: &Coming, beat: &OpenBeat) -> Result<DimensionList, AllocError>
    requires can { CanNumber coming.now }
    requires defined { IsDefinedIn
        (with_beat coming.now.registry.now coming.now.beat.now) beat.now }
    ensures { IfOk result (λ list. list
        ≡ numbered_dimensions (with_beat coming.now.registry.now coming.now.beat.now) beat.now) }
{
    sort_dimensions(gather_dimensions(alloc, coming, beat.dimensions.as_slice())?)
}

/// What a beat defines by number, where what was to be numbered was found.
pub(crate) fn definitions(
    alloc: Global,
    coming: &Coming,
    beat: &OpenBeat,
) -> Result<NumberedDefinitions, AllocError>
    requires can { is_some coming.now.fresh ≡ true → CanNumber coming.now }
    requires defined { IsDefinedIn
        (with_beat coming.now.registry.now coming.now.beat.now) beat.now }
    ensures charts { IfOk result (λ made. made.charts
        ≡ numbered_charts (with_beat coming.now.registry.now coming.now.beat.now) beat.now) }
    ensures dimensions { IfOk result (λ made. made.dimensions
        ≡ numbered_dimensions (with_beat coming.now.registry.now coming.now.beat.now) beat.now) }
    ensures found { OnOk result (is_some coming.now.fresh ≡ true) }
{
    if !coming.has_memory() {
        return Err(AllocError);
    }
    Ok(NumberedDefinitions {
        charts: charts(alloc, coming, beat)?,
        dimensions: dimensions(alloc, coming, beat)?,
    })
}
