//! The tests of `beat_points`: the points of beats, one after the other.
ghost use Rattle.std.specs.Prelude.{◌≡◌, ◌∷◌, [], IfOk};

use beat_points::{LastRows, SeriesWord, SeriesWordList};
use chart_registry::Registry;
use fixed_num::{ListOf, Text};
use history::{
    Algorithm, ChartDef, ChartKind, DimDef, NumberedBeat, NumberedChart, NumberedDimension, Row,
    Value,
};
use std::alloc::{AllocError, Global};
use std::process::Abort;
use std::test::Fail;

const CHART: &str = "t.o";

fn chart_def(alloc: Global) -> Result<ChartDef, AllocError>
    ensures { IfOk result (λ def. def.update_every ≡ 1) }
{
    Ok(ChartDef {
        id: Text::from_str(alloc, CHART)?,
        name: Text::new(alloc),
        title: Text::new(alloc),
        units: Text::new(alloc),
        family: Text::new(alloc),
        context: Text::new(alloc),
        kind: ChartKind::Line,
        priority: 1_000,
        update_every: 1,
        store_first: false,
    })
}

fn dim_def(alloc: Global, id: &str, multiplier: i32) -> Result<DimDef, AllocError> {
    Ok(DimDef {
        id: Text::from_str(alloc, id)?,
        name: Text::new(alloc),
        algorithm: Algorithm::Incremental,
        multiplier,
        divisor: 1,
        hidden: false,
        noreset: false,
    })
}

/// Takes a chart by the number that its id has or gets, which is given; a chart that may not be taken fails.
fn define_chart(registry: &mut Registry, def: ChartDef) -> Result<u32, Fail> {
    let number = registry
        .chart_of(def.id.as_str())
        .unwrap_or(registry.charts());
    let chart = NumberedChart { number, def };
    if !registry.takes_chart(&chart) {
        return Err(Fail::from("a chart may not be taken"));
    }
    registry.take_chart(&chart)?;
    Ok(number)
}

/// The same of a dimension.
fn define_dimension(registry: &mut Registry, chart: u32, def: DimDef) -> Result<(), Fail> {
    if chart >= registry.charts() {
        return Err(Fail::from("no such chart"));
    }
    let series = registry
        .series_of(chart, def.id.as_str())
        .unwrap_or(registry.dimensions());
    let dimension = NumberedDimension { series, chart, def };
    if !registry.takes_dimension(&dimension) {
        return Err(Fail::from("a dimension may not be taken"));
    }
    registry.take_dimension(&dimension)?;
    Ok(())
}

fn define(alloc: Global, registry: &mut Registry, id: &str, multiplier: i32) -> Result<(), Fail> {
    let chart = define_chart(registry, chart_def(alloc)?)?;
    define_dimension(registry, chart, dim_def(alloc, id, multiplier)?)
}

fn beat_of(alloc: Global, moment: u32, chart: u32, value: Value) -> Result<NumberedBeat, AllocError>
    ensures { IfOk result (λ beat. beat.rows ≡ record { chart = chart; values = value ∷ [] } ∷ []) }
{
    let mut values = ListOf::new(alloc);
    values.push(value)?;
    let mut rows = ListOf::new(alloc);
    rows.push(Row { chart, values })?;
    Ok(NumberedBeat {
        moment,
        charts: ListOf::new(alloc),
        dimensions: ListOf::new(alloc),
        rows,
    })
}

/// The points of a beat with one value, which is then taken.
fn step(
    alloc: Global,
    last: &mut LastRows,
    registry: &Registry,
    series: u32,
    value: i64,
    moment: u32,
) -> Result<SeriesWordList, Fail> {
    if series >= registry.dimensions() {
        return Err(Fail::from("no such dimension"));
    }
    let value = Value {
        series,
        value,
        anomalous: false,
    };
    let beat = beat_of(alloc, moment, registry.owner(series), value)?;
    let points = last.points(alloc, registry, &beat)?;
    last.apply(registry, &beat)?;
    Ok(points)
}

/// The points of the last of these beats, each with a series, its value and its moment.
fn last_points(
    alloc: Global,
    last: &mut LastRows,
    registry: &Registry,
    beats: &[(u32, i64, u32)],
) -> Result<SeriesWordList, Fail> {
    let mut points = ListOf::new(alloc);
    for (series, value, moment) in beats {
        points = step(alloc, last, registry, *series, *value, *moment)?;
    }
    Ok(points)
}

/// Checks that the last of these beats has one point, with this word.
fn check(
    rt: &impl Abort,
    alloc: Global,
    last: &mut LastRows,
    registry: &Registry,
    beats: &[(u32, i64, u32)],
    word: u32,
) -> Result<(), Fail> {
    let points = last_points(alloc, last, registry, beats)?;
    let words: &[SeriesWord] = points.as_slice();
    assert_eq!(rt; words.len(), 1);
    assert_eq!(rt; words[0].word, word);
    Ok(())
}

/// The registry of counters with these ids.
fn registry_of(alloc: Global, ids: &[&str]) -> Result<Registry, Fail> {
    let mut registry = Registry::new(alloc);
    for id in ids {
        define(alloc, &mut registry, id, 1)?;
    }
    Ok(registry)
}

#[test]
fn a_counter_rises_and_is_reset(rt: HostRuntime) -> Result<(), Fail> {
    let registry = registry_of(rt.alloc(), &["a"])?;
    let mut last = LastRows::new(rt.alloc());
    let first = step(rt.alloc(), &mut last, &registry, 0, 100, 1)?;
    assert!(rt; first.is_empty());
    for (beat, word) in [((0, 160, 2), 0x295B_8D80), ((0, 10, 3), 0x0300_0000)] {
        check(&rt, rt.alloc(), &mut last, &registry, &[beat], word)?;
    }
    Ok(())
}

#[test]
fn the_last_row_with_the_dimension_counts(rt: HostRuntime) -> Result<(), Fail> {
    let registry = registry_of(rt.alloc(), &["b", "a"])?;
    let mut last = LastRows::new(rt.alloc());
    let beats = [(1, 100, 1), (0, 5, 2), (1, 160, 3)];
    check(&rt, rt.alloc(), &mut last, &registry, &beats, 0x292D_C6C0)
}

/// Defines a counter again behind its first beat, and checks the point of the second.
fn check_again(
    rt: &impl Abort,
    alloc: Global,
    last: &mut LastRows,
    registry: &mut Registry,
) -> Result<(), Fail> {
    step(alloc, last, registry, 0, 100, 1)?;
    define(alloc, registry, "a", 2)?;
    check(rt, alloc, last, registry, &[(0, 160, 2)], 0x29B7_1B00)
}

#[test]
fn a_new_definition_counts(rt: HostRuntime) -> Result<(), Fail> {
    let mut registry = registry_of(rt.alloc(), &["a"])?;
    let mut last = LastRows::new(rt.alloc());
    check_again(&rt, rt.alloc(), &mut last, &mut registry)
}
