//! The tests of `chart_registry`: the numbers of charts and dimensions, and its limits.

use chart_registry::Registry;
use fixed_num::Text;
use history::{
    Algorithm, ChartDef, ChartKind, DimDef, MOST_CHARTS, MOST_DIMENSIONS, MOST_DIMENSIONS_OF_CHART,
    NumberedChart, NumberedDimension,
};
use std::alloc::{AllocError, Global};
use std::test::Fail;

fn chart_def(alloc: Global, id: &str, update_every: u32) -> Result<ChartDef, AllocError> {
    Ok(ChartDef {
        id: Text::from_str(alloc, id)?,
        name: Text::new(alloc),
        title: Text::new(alloc),
        units: Text::new(alloc),
        family: Text::new(alloc),
        context: Text::new(alloc),
        kind: ChartKind::Line,
        priority: 1_000,
        update_every,
        store_first: false,
    })
}

fn dim_def(alloc: Global, id: &str, multiplier: i32) -> Result<DimDef, AllocError> {
    Ok(DimDef {
        id: Text::from_str(alloc, id)?,
        name: Text::new(alloc),
        algorithm: Algorithm::Absolute,
        multiplier,
        divisor: 1,
        hidden: false,
        noreset: false,
    })
}

/// Takes a chart by this number, if it may be taken.
fn take_chart_at(
    alloc: Global,
    registry: &mut Registry,
    number: u32,
    id: &str,
    update_every: u32,
) -> Result<bool, Fail> {
    let chart = NumberedChart {
        number,
        def: chart_def(alloc, id, update_every)?,
    };
    if registry.takes_chart(&chart) {
        registry.take_chart(&chart)?;
        Ok(true)
    } else {
        Ok(false)
    }
}

/// Takes a dimension by these numbers, if it may be taken.
fn take_dimension_at(
    alloc: Global,
    registry: &mut Registry,
    series: u32,
    chart: u32,
    id: &str,
    multiplier: i32,
) -> Result<bool, Fail> {
    let dimension = NumberedDimension {
        series,
        chart,
        def: dim_def(alloc, id, multiplier)?,
    };
    if registry.takes_dimension(&dimension) {
        registry.take_dimension(&dimension)?;
        Ok(true)
    } else {
        Ok(false)
    }
}

fn series_of(registry: &Registry, chart: u32, id: &str) -> Option<u32> {
    if chart < registry.charts() {
        registry.series_of(chart, id)
    } else {
        None
    }
}

fn dimensions_of(registry: &Registry, chart: u32) -> Option<u32> {
    if chart < registry.charts() {
        Some(registry.dimensions_of(chart))
    } else {
        None
    }
}

fn update_every_of(registry: &Registry, chart: u32) -> Option<u32> {
    if chart < registry.charts() {
        Some(registry.chart(chart).update_every)
    } else {
        None
    }
}

fn owner(registry: &Registry, series: u32) -> Option<u32> {
    if series < registry.dimensions() {
        Some(registry.owner(series))
    } else {
        None
    }
}

fn multiplier_of(registry: &Registry, series: u32) -> Option<i32> {
    if series < registry.dimensions() {
        Some(registry.dimension(series).multiplier)
    } else {
        None
    }
}

#[test]
fn takes_charts_by_number(rt: HostRuntime) -> Result<(), Fail> {
    let mut registry = Registry::new(rt.alloc());
    for (number, id, update_every, want) in [
        (1, "system.load", 10, false),
        (0, "system.load", 0, false),
        (0, "system", 10, false),
        (0, "system.load", 10, true),
        (1, "system.cpu", 1, true),
        (0, "system.load", 10, true),
        (0, "system.load", 1, false),
        (1, "system.load", 10, false),
        (0, "system.cpu", 1, false),
        (2, "system.cpu", 1, false),
        (2, "system.io", 10, true),
        (1, "system.cpu", 1, true),
    ] {
        let got = take_chart_at(rt.alloc(), &mut registry, number, id, update_every)?;
        assert_eq!(rt; got, want, "{id} at {update_every} as {number}");
    }
    assert_eq!(rt; registry.charts(), 3);
    assert_eq!(rt; registry.chart_of("system.cpu"), Some(1));
    assert_eq!(rt; registry.chart_of("system.cp"), None);
    assert_eq!(rt; update_every_of(&registry, 0), Some(10));
    Ok(())
}

/// Takes a chart by the next number.
fn take_next_chart(
    alloc: Global,
    registry: &mut Registry,
    id: &str,
    update_every: u32,
) -> Result<(), Fail> {
    let number = registry.charts();
    if take_chart_at(alloc, registry, number, id, update_every)? {
        Ok(())
    } else {
        Err(Fail::from("a chart may not be taken"))
    }
}

fn two_charts(alloc: Global) -> Result<Registry, Fail> {
    let mut registry = Registry::new(alloc);
    take_next_chart(alloc, &mut registry, "system.cpu", 1)?;
    take_next_chart(alloc, &mut registry, "system.load", 10)?;
    Ok(registry)
}

#[test]
fn takes_dimensions_by_number(rt: HostRuntime) -> Result<(), Fail> {
    let mut registry = two_charts(rt.alloc())?;
    for (series, chart, id, multiplier, want) in [
        (0, 2, "load1", 1, false),
        (1, 1, "load1", 1, false),
        (0, 1, "load1", 1, true),
        (1, 0, "user", 1, true),
        (1, 1, "user", 1, false),
        (2, 1, "user", 1, true),
        (0, 1, "load1", 9, true),
        (2, 1, "load1", 1, false),
        (3, 1, "load1", 1, false),
        (1, 0, "user", 1, true),
        (3, 0, "load1", 1, true),
    ] {
        let got = take_dimension_at(rt.alloc(), &mut registry, series, chart, id, multiplier)?;
        assert_eq!(rt; got, want, "{id} of {chart} as {series}");
    }
    assert_eq!(rt; registry.dimensions(), 4);
    assert_eq!(rt; dimensions_of(&registry, 0), Some(2));
    assert_eq!(rt; series_of(&registry, 0, "user"), Some(1));
    assert_eq!(rt; series_of(&registry, 1, "user"), Some(2));
    assert_eq!(rt; series_of(&registry, 1, "idle"), None);
    assert_eq!(rt; owner(&registry, 2), Some(1));
    assert_eq!(rt; owner(&registry, 3), Some(0));
    assert_eq!(rt; multiplier_of(&registry, 0), Some(9));
    Ok(())
}

// Takes the dimensions of one chart with these ids.
fn take_dimensions(alloc: Global, registry: &mut Registry, chart: u32) -> Result<(), Fail> {
    for n in 0..MOST_DIMENSIONS_OF_CHART {
        let id = format!(in alloc; "{n}")?;
        let series = registry.dimensions();
        if !take_dimension_at(alloc, registry, series, chart, id.as_str(), 1)? {
            return Err(Fail::from("a dimension may not be taken"));
        }
    }
    Ok(())
}

#[test]
fn stops_at_the_limit_of_charts(rt: HostRuntime) -> Result<(), Fail> {
    let mut registry = Registry::new(rt.alloc());
    for n in 0..MOST_CHARTS {
        let id = format!(in rt.alloc(); "chart.{n}")?;
        take_next_chart(rt.alloc(), &mut registry, id.as_str(), 1)?;
    }
    for (number, id, want) in [(4_096, "chart.4096", false), (4_095, "chart.4095", true)] {
        let got = take_chart_at(rt.alloc(), &mut registry, number, id, 1)?;
        assert_eq!(rt; got, want, "{id}");
    }
    Ok(())
}

#[test]
fn stops_at_the_limits_of_dimensions(rt: HostRuntime) -> Result<(), Fail> {
    let mut registry = Registry::new(rt.alloc());
    for n in 0..65 {
        let id = format!(in rt.alloc(); "chart.{n}")?;
        take_next_chart(rt.alloc(), &mut registry, id.as_str(), 1)?;
    }
    for chart in 0..64 {
        take_dimensions(rt.alloc(), &mut registry, chart)?;
    }
    for (series, chart, id, want) in [
        (65_536, 0, "one more", false),
        (1_023, 0, "1023", true),
        (65_535, 63, "1023", true),
        (65_536, 64, "0", false),
    ] {
        let got = take_dimension_at(rt.alloc(), &mut registry, series, chart, id, 1)?;
        assert_eq!(rt; got, want, "{id} of {chart}");
    }
    assert_eq!(rt; registry.dimensions(), MOST_DIMENSIONS);
    Ok(())
}

// After an error the registry has what it had, wherever memory ran out.
#[test]
fn leaves_all_as_it_was_without_memory(rt: HostRuntime) -> Result<(), Fail> {
    let mut registry = two_charts(rt.alloc())?;
    let got = take_next_chart(rt.alloc(), &mut registry, "system.ram", 5);
    let (charts, ram) = if got.is_ok() { (3, Some(2)) } else { (2, None) };
    assert_eq!(rt; registry.charts(), charts);
    assert_eq!(rt; registry.chart_of("system.ram"), ram);
    got
}
