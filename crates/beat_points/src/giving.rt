ghost use Rattle.std.specs.Prelude.{◌≡◌, ◌<◌, ◌≤◌, ◌++◌, length, All, IfOk, OnOk};
ghost use Rattle.std.specs.List.Sorted.{IsPermutation, IsNonDecreasingBy};
ghost use Rattle.beat_points.specs.Numbered.{word_list, words_by, row_pairs, rows_pairs};

use crate::fault::PointFault;
use crate::samples;
use crate::series_word::{SeriesWord, SeriesWordList};
use algorithms::{Last, Sample, sample_words};
use chart_registry::Registry;
use fixed_num::ListOf;
use history::{MOST_DIMENSIONS_OF_CHART, Row, Value};
use std::alloc::Global;

/// Adds the word of a series, if there is one.
fn push_word(points: &mut Vec<SeriesWord>, series: u32, word: Option<u32>) -> Result<(), PointFault>
    ensures { OnOk result (points.new.items ≡ points.old.items ++ word_list series word) }
{
    match word {
        Some(word) => {
            points.push(SeriesWord { series, word })?;
            Ok(())
        }
        None => Ok(()),
    }
}

/// Adds the words of a row's values.
fn push_words(
    points: &mut Vec<SeriesWord>,
    values: &[Value],
    words: &[Option<u32>],
) -> Result<(), PointFault>
    requires { length words.now ≡ length values.now }
    ensures { OnOk result (points.new.items ≡ points.old.items ++ words_by values.now words.now) }
{
    for (i, value) in values.iter().enumerate() {
        push_word(points, value.series, words[i])?;
    }
    Ok(())
}

/// Adds the words of a row, with memory for its samples.
fn push_row(
    alloc: Global,
    registry: &Registry,
    last: &[Option<Last>],
    row: &Row,
    moment: u32,
    samples: &mut Vec<Sample>,
    points: &mut Vec<SeriesWord>,
) -> Result<(), PointFault>
    requires chart { row.now.chart < length registry.now.charts }
    requires dimensions { All (λ value.
        value.series < length registry.now.dimensions) row.now.values }
    requires limit { length row.now.values ≤ MOST_DIMENSIONS_OF_CHART }
    ensures { OnOk result (points.new.items
        ≡ points.old.items ++ row_pairs registry.now last.now moment row.now) }
{
    let values = row.values.as_slice();
    samples::sample_row(
        samples,
        registry,
        last,
        registry.chart(row.chart),
        moment,
        values,
    )?;
    let words = sample_words(alloc, samples.as_slice())?;
    push_words(points, values, words.as_slice())
}

/// How many values rows have, for the room of a list.
fn count_values(rows: &[Row]) -> usize {
    let mut count = 0usize;
    for row in rows {
        count = count.saturating_add(row.values.len());
    }
    count
}

/// The words of all rows, in their order.
pub(crate) fn gather(
    alloc: Global,
    registry: &Registry,
    last: &[Option<Last>],
    rows: &[Row],
    moment: u32,
) -> Result<Vec<SeriesWord>, PointFault>
    requires charts { All (λ row. row.chart < length registry.now.charts) rows.now }
    requires dimensions { All (λ row.
        All (λ value. value.series < length registry.now.dimensions) row.values) rows.now }
    requires limit { All (λ row. length row.values ≤ MOST_DIMENSIONS_OF_CHART) rows.now }
    ensures { IfOk result (λ points.
        points.items ≡ rows_pairs registry.now last.now moment rows.now) }
{
    let mut samples = Vec::new(alloc);
    let mut points = Vec::with_capacity(alloc, count_values(rows))?;
    for row in rows {
        push_row(
            alloc,
            registry,
            last,
            row,
            moment,
            &mut samples,
            &mut points,
        )?;
    }
    Ok(points)
}

/// Words in the order of their series.
pub(crate) fn sorted(mut points: Vec<SeriesWord>) -> Result<SeriesWordList, PointFault>
    ensures same { IfOk result (λ list. IsPermutation points.items list) }
    ensures rises { IfOk result (λ list. IsNonDecreasingBy (λ point. point.series) list) }
{
    points.sort_by_key(|point| point.series)?;
    Ok(ListOf::from_vec(points))
}
