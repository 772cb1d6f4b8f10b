//! The charts that the tests share.
ghost use Rattle.std.specs.Prelude.{◌<◌, IfOk};

use chart_registry::Registry;
use fixed_num::Text;
use history::{Algorithm, ChartDef, ChartKind, DimDef, NumberedChart, NumberedDimension};
use std::alloc::{AllocError, Global};
use std::test::Fail;

fn chart_def(alloc: Global, id: &str, name: &str, context: &str) -> Result<ChartDef, AllocError>
    ensures { IfOk result (λ def. 0 < def.update_every) }
{
    Ok(ChartDef {
        id: Text::from_str(alloc, id)?,
        name: Text::from_str(alloc, name)?,
        title: Text::new(alloc),
        units: Text::new(alloc),
        family: Text::new(alloc),
        context: Text::from_str(alloc, context)?,
        kind: ChartKind::Line,
        priority: 1_000,
        update_every: 5,
        store_first: false,
    })
}

fn dim_def(alloc: Global, id: &str, name: &str, hidden: bool) -> Result<DimDef, AllocError> {
    Ok(DimDef {
        id: Text::from_str(alloc, id)?,
        name: Text::from_str(alloc, name)?,
        algorithm: Algorithm::Absolute,
        multiplier: 1,
        divisor: 1,
        hidden,
        noreset: false,
    })
}

/// The id and the name of a dimension, and whether it is hidden.
type Dimension = (&'static str, &'static str, bool);

/// Takes a chart by the number that its id has or gets, which is given; a chart that may not be taken fails.
fn define_chart(registry: &mut Registry, def: ChartDef) -> Result<u32, Fail> {
    let number = registry
        .chart_of(def.id.as_str())
        .unwrap_or(registry.charts());
    let chart = NumberedChart { number, def };
    if !registry.takes_chart(&chart) {
        return Err(Fail::from("a chart may not be taken"));
    }
    registry.take_chart(&chart)?;
    Ok(number)
}

/// The same of a dimension.
fn define_dimension(registry: &mut Registry, chart: u32, def: DimDef) -> Result<(), Fail> {
    if chart >= registry.charts() {
        return Err(Fail::from("no such chart"));
    }
    let series = registry
        .series_of(chart, def.id.as_str())
        .unwrap_or(registry.dimensions());
    let dimension = NumberedDimension { series, chart, def };
    if !registry.takes_dimension(&dimension) {
        return Err(Fail::from("a dimension may not be taken"));
    }
    registry.take_dimension(&dimension)?;
    Ok(())
}

/// Defines a chart and its dimensions.
fn define(
    alloc: Global,
    registry: &mut Registry,
    id: &str,
    name: &str,
    context: &str,
    dimensions: &[Dimension],
) -> Result<(), Fail> {
    let number = define_chart(registry, chart_def(alloc, id, name, context)?)?;
    for (id, name, hidden) in dimensions {
        define_dimension(registry, number, dim_def(alloc, id, name, *hidden)?)?;
    }
    Ok(())
}

static DIMENSIONS: [Dimension; 3] = [
    ("a", "used", false),
    ("b", "avail", false),
    ("c", "all", true),
];

static OTHERS: [Dimension; 1] = [("x", "x", false)];

/// A chart of series 0 to 2, the last of which is hidden, and another of series 3.
pub fn two_charts(alloc: Global) -> Result<Registry, Fail> {
    let mut registry = Registry::new(alloc);
    define(
        alloc,
        &mut registry,
        "test.one",
        "one",
        "disk.space",
        DIMENSIONS.as_slice(),
    )?;
    define(
        alloc,
        &mut registry,
        "test.two",
        "nice",
        "sys.load",
        OTHERS.as_slice(),
    )?;
    Ok(registry)
}
