//! The rows of a beat by number. Each chart and each value is looked up once, a value by a hash only where it is not
//! of the dimension behind that of the value before it.

ghost use Rattle.std.specs.Prelude.{◌≡◌, ◌++◌, ◌||◌, [], true, false, not, IfOk, OnOk, IfSome, All, filter_map, is_none};
ghost use Rattle.std.specs.List.{cons_option, list_any};
ghost use Rattle.std.specs.List.Sorted.{IsPermutation, IsNonDecreasingBy};
ghost use Rattle.std.specs.Option.{option_map_or};
ghost use Rattle.history.specs.Looking.{same_value};
ghost use Rattle.history.specs.Numbered.{numbered_rows};
ghost use Rattle.history.specs.Refusal.{chart_now, has_chart, has_dimension, is_off};
ghost use Rattle.history.specs.Registry.{same_chart};
ghost use Rattle.history.specs.declared.beat.OpenBeat.{OpenBeat as AnOpenBeat};
ghost use Rattle.history.specs.declared.beat.OpenRow.{OpenRow as ARow};
ghost use Rattle.history.specs.declared.beat.OpenValue.{OpenValue as AValue};
ghost use Rattle.history.specs.Regular.{AreApart, same_row};
ghost use Rattle.history.specs.Registry.{Registry as ARegistry};
ghost use Rattle.beat_entries.specs.Coming.{CanNumber};
ghost use Rattle.beat_entries.specs.Fresh.{IsKnownAs};
ghost use Rattle.beat_entries.specs.Gathered.{value_at, row_at};
ghost use Rattle.beat_entries.specs.Rules.{changes_grid, row_lacks_dimension, with_beat};

use crate::coming::Coming;
use crate::gathered::Gathered;
use chart_registry::is_off;
use fixed_num::ListOf;
use history::{OpenRow, OpenValue, Row, RowList, Value, ValueList};
use std::alloc::{AllocError, Global};

/// What the values of a row come to.
#[derive(Drop)]
struct FoundValues {
    /// Those of a dimension that is there.
    values: Gathered<Value>,
    /// Whether one is of a dimension that is not.
    lack: bool,
}

/// The series behind the last of these values, or `first` where there are none.
fn series_behind(values: &[Value], first: u32) -> u32 {
    match values.last() {
        Some(value) => value.series.saturating_add(1),
        None => first,
    }
}

/// The series behind the last row, or 0.
fn series_behind_rows(rows: &[Row]) -> u32 {
    match rows.last() {
        Some(row) => series_behind(row.values.as_slice(), 0),
        None => 0,
    }
}

/// Keeps a value of a row of this chart by number, if its dimension is there. It is tried first as the series behind
/// that of the value before it, or as `first`.
fn take_value(
    values: &mut Gathered<Value>,
    coming: &Coming,
    known: Option<u32>,
    first: u32,
    chart: &str,
    value: &OpenValue,
) -> bool
    requires { IsKnownAs coming.now.registry.now chart.now known }
    ensures found { result
        ≡ has_dimension coming.now.registry.now coming.now.beat.now chart.now value.now.id }
    ensures before { values.new.whole ≡ true → values.old.whole ≡ true }
    ensures items { CanNumber coming.now → values.new.whole ≡ true
        → values.new.items.items ≡ values.old.items.items ++ cons_option
        (value_at (with_beat coming.now.registry.now coming.now.beat.now) chart.now value.now) [] }
{
    let near = series_behind(values.items.as_slice(), first);
    match coming.series(known, near, chart, value.id.as_str()) {
        Some(series) => {
            values.push(Value {
                series,
                value: value.value,
                anomalous: value.anomalous,
            });
            true
        }
        None => false,
    }
}

fn find_values(
    alloc: Global,
    coming: &Coming,
    known: Option<u32>,
    first: u32,
    chart: &str,
    given: &[OpenValue],
) -> FoundValues
    requires { IsKnownAs coming.now.registry.now chart.now known }
    ensures lack { result.lack ≡ list_any (λ (value : AValue). not
        (has_dimension coming.now.registry.now coming.now.beat.now chart.now value.id)) given.now }
    ensures values { CanNumber coming.now → result.values.whole ≡ true
        → result.values.items.items ≡ filter_map
        (value_at (with_beat coming.now.registry.now coming.now.beat.now) chart.now) given.now }
{
    let mut values = Gathered::with_room(alloc, given.len());
    let mut lack = false;
    for value in given {
        let there = take_value(&mut values, coming, known, first, chart, value);
        lack = lack || !there;
    }
    FoundValues { values, lack }
}

fn sort_values(mut values: Vec<Value>) -> Result<ValueList, AllocError>
    ensures same { IfOk result (λ list. IsPermutation values.items list) }
    ensures rises { IfOk result (λ list. IsNonDecreasingBy (λ value. value.series) list) }
{
    values.sort_by_key(|value| value.series)?;
    Ok(ListOf::from_vec(values))
}

/// A row of the chart with this number, with its values in the order of theirs.
fn numbered_row(number: u32, values: Gathered<Value>) -> Result<Row, AllocError>
    ensures whole { OnOk result (values.whole ≡ true) }
    ensures chart { IfOk result (λ row. row.chart ≡ number) }
    ensures same { IfOk result (λ row. IsPermutation values.items.items row.values) }
    ensures rises { IfOk result (λ row. IsNonDecreasingBy (λ value. value.series) row.values) }
{
    if !values.whole {
        return Err(AllocError);
    }
    Ok(Row {
        chart: number,
        values: sort_values(values.items)?,
    })
}

/// What the rows of a beat come to, each of a chart that is there.
#[derive(Drop)]
pub(crate) struct FoundRows {
    /// The rows, with those of their values whose dimensions are there.
    pub(crate) rows: Gathered<Row>,
    /// Whether a value is of a dimension that is not.
    pub(crate) lack: bool,
    /// Whether the moment is off the grid of a row's chart.
    pub(crate) off_grid: bool,
}

/// Takes a row of a beat of this moment, if its chart is there.
fn take_row(
    alloc: Global,
    found: &mut FoundRows,
    coming: &Coming,
    moment: u32,
    row: &OpenRow,
) -> bool
    requires { AreApart same_value row.now.values }
    ensures found { result
        ≡ has_chart coming.now.registry.now coming.now.beat.now row.now.chart }
    ensures lack { result ≡ true → found.new.lack
        ≡ (found.old.lack
        || row_lacks_dimension coming.now.registry.now coming.now.beat.now row.now) }
    ensures off { result ≡ true → changes_grid coming.now.registry.now coming.now.beat.now ≡ false
        → found.new.off_grid ≡ (found.old.off_grid || option_map_or (is_off moment)
        (chart_now coming.now.registry.now coming.now.beat.now row.now.chart) false) }
    ensures before { result ≡ true → found.new.rows.whole ≡ true → found.old.rows.whole ≡ true }
    ensures rows { result ≡ true → CanNumber coming.now → found.new.rows.whole ≡ true
        → found.new.rows.items.items ≡ found.old.rows.items.items ++ cons_option
        (row_at (with_beat coming.now.registry.now coming.now.beat.now) row.now) [] }
{
    let Some(place) = coming.chart(row.chart.as_str()) else {
        return false;
    };
    let first = series_behind_rows(found.rows.items.as_slice());
    let values = find_values(
        alloc,
        coming,
        place.known,
        first,
        row.chart.as_str(),
        row.values.as_slice(),
    );
    found.lack = found.lack || values.lack;
    found.off_grid = found.off_grid || is_off(Some(place.update_every), moment);
    found.rows.keep(numbered_row(place.number, values.values));
    true
}

/// The rows of a beat of this moment, or nothing where one is of a chart that is not there.
pub(crate) fn find_rows(
    alloc: Global,
    coming: &Coming,
    moment: u32,
    given: &[OpenRow],
) -> Option<FoundRows>
    requires { All (λ (row : ARow). AreApart same_value row.values) given.now }
    ensures found { is_none result ≡ list_any (λ (row : ARow). not
        (has_chart coming.now.registry.now coming.now.beat.now row.chart)) given.now }
    ensures lack { IfSome result (λ found. found.lack ≡ list_any
        (row_lacks_dimension coming.now.registry.now coming.now.beat.now) given.now) }
    ensures off { changes_grid coming.now.registry.now coming.now.beat.now ≡ false
        → IfSome result (λ found. found.off_grid ≡ list_any
        (λ (row : ARow). option_map_or (is_off moment)
        (chart_now coming.now.registry.now coming.now.beat.now row.chart) false) given.now) }
    ensures rows { CanNumber coming.now
        → IfSome result (λ found. found.rows.whole ≡ true → found.rows.items.items ≡ filter_map
        (row_at (with_beat coming.now.registry.now coming.now.beat.now)) given.now) }
{
    let mut found = FoundRows {
        rows: Gathered::with_room(alloc, given.len()),
        lack: false,
        off_grid: false,
    };
    for row in given {
        if !take_row(alloc, &mut found, coming, moment, row) {
            return None;
        }
    }
    Some(found)
}

fn sort_rows(mut rows: Vec<Row>) -> Result<RowList, AllocError>
    ensures same { IfOk result (λ list. IsPermutation rows.items list) }
    ensures rises { IfOk result (λ list. IsNonDecreasingBy (λ row. row.chart) list) }
{
    rows.sort_by_key(|row| row.chart)?;
    Ok(ListOf::from_vec(rows))
}

/// The rows in the order of their charts' numbers, if there was memory for all of them.
pub(crate) fn sorted(rows: Gathered<Row>) -> Result<RowList, AllocError>
    ensures { IfOk result (λ list. (registry : ARegistry) (beat : AnOpenBeat)
        → AreApart same_chart registry.charts → AreApart same_row beat.rows
        → (rows.whole ≡ true → rows.items.items ≡ filter_map (row_at registry) beat.rows)
        → list ≡ numbered_rows registry beat) }
{
    if !rows.whole {
        return Err(AllocError);
    }
    sort_rows(rows.items)
}
