//! Registries by definitions, each taken by the number that its id has or gets.

use chart_registry::Registry;
use history::{ChartDef, DimDef, NumberedChart, NumberedDimension, OpenBeat, OpenDim};
use std::test::Fail;

/// Takes a chart by the number that its id has or gets, which is given; a chart that may not be taken fails.
pub(crate) fn define_chart(registry: &mut Registry, def: ChartDef) -> Result<u32, Fail> {
    let number = registry
        .chart_of(def.id.as_str())
        .unwrap_or(registry.charts());
    let chart = NumberedChart { number, def };
    if !registry.takes_chart(&chart) {
        return Err(Fail::from("a chart may not be taken"));
    }
    registry.take_chart(&chart)?;
    Ok(number)
}

/// The same of a dimension.
pub(crate) fn define_dimension(
    registry: &mut Registry,
    chart: u32,
    def: DimDef,
) -> Result<(), Fail> {
    if chart >= registry.charts() {
        return Err(Fail::from("no such chart"));
    }
    let series = registry
        .series_of(chart, def.id.as_str())
        .unwrap_or(registry.dimensions());
    let dimension = NumberedDimension { series, chart, def };
    if !registry.takes_dimension(&dimension) {
        return Err(Fail::from("a dimension may not be taken"));
    }
    registry.take_dimension(&dimension)?;
    Ok(())
}

fn define_open_dimension(registry: &mut Registry, dimension: &OpenDim) -> Result<(), Fail> {
    let Some(chart) = registry.chart_of(dimension.chart.as_str()) else {
        return Err(Fail::from("no such chart"));
    };
    define_dimension(registry, chart, dimension.def.clone()?)
}

fn define_dimensions(registry: &mut Registry, dimensions: &[OpenDim]) -> Result<(), Fail> {
    for dimension in dimensions {
        define_open_dimension(registry, dimension)?;
    }
    Ok(())
}

/// Takes what a beat defines, the charts first.
pub(crate) fn define(registry: &mut Registry, beat: &OpenBeat) -> Result<(), Fail> {
    for def in beat.charts.as_slice() {
        define_chart(registry, def.clone()?)?;
    }
    define_dimensions(registry, beat.dimensions.as_slice())
}
