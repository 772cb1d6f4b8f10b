//! The tests of `beat_entries` on beats: what a registry makes of a collected beat.

ghost use Rattle.std.specs.Prelude.{◌≡◌, ◌<◌, true, All, IfOk, OnOk};
ghost use Rattle.history.specs.Limits.{chart_keeps_limits, dimension_keeps_limits};
ghost use Rattle.history.specs.Looking.{same_value};
ghost use Rattle.history.specs.Registry.{same_chart, same_dimension};
ghost use Rattle.history.specs.Regular.{AreApart, same_row};
ghost use Rattle.beat_entries.specs.Rules.{IsOpenBeat};

use beat_entries::{BeatFault, define_beat, judge_beat};
use chart_registry::Registry;
use fixed_num::Text;
use history::{
    Algorithm, BlockFault, ChartDef, ChartDefList, ChartKind, DimDef, NumberedBeat, OpenBeat,
    OpenDim, OpenDimList, OpenRow, OpenRowList, OpenValue, OpenValueList,
};
use std::alloc::{AllocError, Global};
use std::test::Fail;

/// The registry judges a beat, and takes its definitions.
fn take_beat(
    alloc: Global,
    registry: &mut Registry,
    copies: bool,
    last: u32,
    moment: u32,
    beat: &OpenBeat,
) -> Result<NumberedBeat, BeatFault>
    requires is_open { IsOpenBeat beat.now }
    requires charts { AreApart same_chart registry.old.charts }
    requires dimensions { AreApart same_dimension registry.old.dimensions }
    ensures charts { OnOk result (AreApart same_chart registry.new.charts) }
    ensures dimensions { OnOk result (AreApart same_dimension registry.new.dimensions) }
{
    let numbered = judge_beat(alloc, registry, copies, last, moment, beat)?;
    match define_beat(registry, &numbered) {
        Ok(()) => Ok(numbered),
        Err(_) => Err(BeatFault::Memory),
    }
}

fn chart(alloc: Global, id: &str, update_every: u32) -> Result<ChartDef, Fail>
    ensures every { IfOk result (λ def. 0 < def.update_every) }
    ensures limits { IfOk result (λ def. chart_keeps_limits def ≡ true) }
{
    let def = ChartDef {
        id: Text::from_str(alloc, id)?,
        name: Text::new(alloc),
        title: Text::new(alloc),
        units: Text::new(alloc),
        family: Text::new(alloc),
        context: Text::new(alloc),
        kind: ChartKind::Line,
        priority: 1_000,
        update_every,
        store_first: false,
    };
    if def.keeps_limits() && def.update_every > 0 {
        Ok(def)
    } else {
        Err(Fail::from("no such chart"))
    }
}

fn one_chart(alloc: Global, id: &str, update_every: u32) -> Result<ChartDefList, Fail>
    ensures apart { IfOk result (AreApart same_chart) }
    ensures grids { IfOk result (All (λ def. 0 < def.update_every)) }
    ensures limits { IfOk result (All (λ def. chart_keeps_limits def ≡ true)) }
{
    let mut charts = ChartDefList::new(alloc);
    charts.push(chart(alloc, id, update_every)?)?;
    Ok(charts)
}

fn dimension(alloc: Global, id: &str) -> Result<DimDef, Fail>
    ensures { IfOk result (λ def. dimension_keeps_limits def ≡ true) }
{
    let def = DimDef {
        id: Text::from_str(alloc, id)?,
        name: Text::new(alloc),
        algorithm: Algorithm::Absolute,
        multiplier: 1,
        divisor: 1,
        hidden: false,
        noreset: false,
    };
    if def.keeps_limits() {
        Ok(def)
    } else {
        Err(Fail::from("no such dimension"))
    }
}

fn one_dimension(alloc: Global, chart: &str) -> Result<OpenDimList, Fail>
    ensures apart { IfOk result (AreApart same_dimension) }
    ensures limits { IfOk result (All (λ dimension. dimension_keeps_limits dimension.def ≡ true)) }
{
    let mut dimensions = OpenDimList::new(alloc);
    dimensions.push(OpenDim {
        chart: Text::from_str(alloc, chart)?,
        def: dimension(alloc, "a")?,
    })?;
    Ok(dimensions)
}

fn one_value(alloc: Global, id: &str) -> Result<OpenValueList, AllocError>
    ensures { IfOk result (AreApart same_value) }
{
    let mut values = OpenValueList::new(alloc);
    values.push(OpenValue {
        id: Text::from_str(alloc, id)?,
        value: 42,
        anomalous: true,
    })?;
    Ok(values)
}

fn one_row(alloc: Global, chart: &str, id: &str) -> Result<OpenRowList, AllocError>
    ensures rows { IfOk result (AreApart same_row) }
    ensures values { IfOk result (All (λ row. AreApart same_value row.values)) }
{
    let mut rows = OpenRowList::new(alloc);
    rows.push(OpenRow {
        chart: Text::from_str(alloc, chart)?,
        values: one_value(alloc, id)?,
    })?;
    Ok(rows)
}

/// The beat that defines this chart and the dimension a of the chart `owner`, and sets a dimension of the chart
/// `row`.
fn beat_of(
    alloc: Global,
    chart: &str,
    update_every: u32,
    owner: &str,
    row: &str,
    id: &str,
) -> Result<OpenBeat, Fail>
    ensures { IfOk result IsOpenBeat }
{
    Ok(OpenBeat {
        charts: one_chart(alloc, chart, update_every)?,
        dimensions: one_dimension(alloc, owner)?,
        rows: one_row(alloc, row, id)?,
    })
}

/// What comes of a beat behind one that defined the chart test.one with the update_every 2.
fn behind_one(
    alloc: Global,
    registry: &mut Registry,
    copies: bool,
    moment: u32,
    beat: &OpenBeat,
) -> Result<Result<NumberedBeat, BeatFault>, Fail>
    requires is_open { IsOpenBeat beat.now }
    requires charts { AreApart same_chart registry.old.charts }
    requires dimensions { AreApart same_dimension registry.old.dimensions }
{
    let first = beat_of(alloc, "test.one", 2, "test.one", "test.one", "a")?;
    match take_beat(alloc, registry, false, 0, 60, &first) {
        Ok(_) => Ok(take_beat(alloc, registry, copies, 60, moment, beat)),
        Err(_) => Err(Fail::from("the first beat")),
    }
}

/// Why such a beat is refused.
fn refused(
    alloc: Global,
    copies: bool,
    moment: u32,
    beat: &OpenBeat,
) -> Result<Option<BeatFault>, Fail>
    requires { IsOpenBeat beat.now }
{
    let mut registry = Registry::new(alloc);
    Ok(behind_one(alloc, &mut registry, copies, moment, beat)?.err())
}

#[test]
fn numbers_what_it_defines(rt: HostRuntime) -> Result<(), Fail> {
    let alloc = rt.alloc();
    let mut registry = Registry::new(alloc);
    let beat = beat_of(alloc, "test.two", 1, "test.two", "test.two", "a")?;
    let Ok(numbered) = behind_one(alloc, &mut registry, false, 61, &beat)? else {
        return Err(Fail::from("the second beat"));
    };
    assert_eq!(rt; registry.charts(), 2);
    assert_eq!(rt; registry.dimensions(), 2);
    let text = format!(in alloc; "{numbered:?}")?;
    for part in [
        "NumberedBeat { moment: 61, charts: ListOf { items: [NumberedChart { number: 1, ",
        "dimensions: ListOf { items: [NumberedDimension { series: 1, chart: 1, ",
        "rows: ListOf { items: [Row { chart: 1, values: ListOf { items: [Value { series: 1, value: 42, ",
    ] {
        assert!(rt; text.as_str().contains(part), "{part} in {text}");
    }
    Ok(())
}

#[test]
fn refuses_a_beat_by_its_moment(rt: HostRuntime) -> Result<(), Fail> {
    let alloc = rt.alloc();
    for (copies, moment, want) in [
        (true, 60, Some(BeatFault::Refused(BlockFault::MixedRoles))),
        (
            false,
            60,
            Some(BeatFault::Refused(BlockFault::MomentOrder(60))),
        ),
        (false, 63, Some(BeatFault::Refused(BlockFault::OffGrid))),
        (false, 62, None),
    ] {
        let beat = beat_of(alloc, "test.one", 2, "test.one", "test.one", "a")?;
        let got = refused(alloc, copies, moment, &beat)?;
        assert_eq!(rt; got, want, "at {moment}");
    }
    Ok(())
}

#[test]
fn refuses_a_beat_by_what_it_lacks(rt: HostRuntime) -> Result<(), Fail> {
    let alloc = rt.alloc();
    for (update_every, owner, row, id, want) in [
        (2, "test.one", "test.two", "b", BlockFault::NoChart),
        (4, "test.two", "test.one", "b", BlockFault::NoChart),
        (4, "test.one", "test.one", "b", BlockFault::NoDimension),
        (4, "test.one", "test.one", "a", BlockFault::GridChanged),
    ] {
        let beat = beat_of(alloc, "test.one", update_every, owner, row, id)?;
        let got = refused(alloc, false, 62, &beat)?;
        assert_eq!(rt; got, Some(BeatFault::Refused(want)), "{owner} {row} {id}");
    }
    Ok(())
}

// After an error the registry has what it had, wherever memory ran out.
#[test]
fn takes_all_definitions_or_none(rt: HostRuntime) -> Result<(), Fail> {
    let alloc = rt.alloc();
    let mut registry = Registry::new(alloc);
    let beat = beat_of(alloc, "test.one", 2, "test.one", "test.one", "a")?;
    let taken = take_beat(alloc, &mut registry, false, 0, 60, &beat).is_ok();
    let count = if taken { 1 } else { 0 };
    assert_eq!(rt; registry.charts(), count);
    assert_eq!(rt; registry.dimensions(), count);
    if taken {
        Ok(())
    } else {
        Err(Fail::from("out of memory"))
    }
}
