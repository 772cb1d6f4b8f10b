//! The names that some beats use, and the beats with the new places of their series. Only these names are copied, so
//! that an answer costs by its words, and not by the series of its registry.

ghost use Rattle.std.specs.Prelude.{◌≡◌, ℕ, ◌<◌, ◌≤◌, ◌++◌, List, length, map, slice_get, IfOk, IfSome, OnOk};
ghost use Rattle.std.specs.List.{AllByRecursion};
ghost use Rattle.replication.specs.declared.beats.SeriesWord.{SeriesWord as AWord};
ghost use Rattle.replication.specs.Names.{placed_beat, placed_dimension, placed_word, used_names, uses, words_of};
ghost use Rattle.replication.specs.Places.{place};
ghost use Rattle.link_frames.specs.DataForm.{place_of};
ghost use Rattle.agent_core.specs.Asking.{AreInUtf8, HasChart, IsChartInUtf8, IsDimensionInUtf8};
ghost use Rattle.agent_core.specs.Copies.{chart_name, dimension_name, names_of};
ghost use Rattle.agent_core.specs.Used.{chart_number, has, items_at, Rise};

use chart_registry::Registry;
use fixed_num::Text;
use history::ChartDef;
use replication::{
    Beat, BeatList, ChartName, ChartNameList, CopyFault, DimName, DimNameList, Names, SeriesWord,
    SeriesWordList,
};
use std::alloc::Global;

// ---- numbers in order

/// The numbers in order, each once.
fn in_order(mut numbers: Vec<u32>) -> Result<Vec<u32>, CopyFault>
    ensures rise { IfOk result (λ ordered. Rise ordered.items) }
    ensures same { IfOk result (λ ordered. has ordered.items ≡ has numbers.items) }
{
    numbers.sort()?;
    numbers.dedup();
    Ok(numbers)
}

/// How many of the numbers are below this one, by halves.
fn count_below(numbers: &[u32], number: u32) -> usize
    requires { Rise numbers.now }
    ensures value { result ≡ place (has numbers.now) number }
    ensures bound { result ≤ number }
{
    numbers.partition_point(|other| *other < number)
}

/// The place of a number among the numbers.
fn place_among(numbers: &[u32], number: u32) -> u32
    requires { Rise numbers.now }
    ensures { result ≡ place (has numbers.now) number }
{
    count_below(numbers, number) as u32
}

// ---- the series

/// Adds the series of some words.
fn add_series(numbers: &mut Vec<u32>, words: &[SeriesWord]) -> Result<(), CopyFault>
    ensures { OnOk result (numbers.new.items ≡ numbers.old.items ++ map place_of words.now) }
{
    for word in words {
        numbers.push(word.series)?;
    }
    Ok(())
}

/// The series of all words of the beats.
fn all_series(alloc: Global, beats: &[Beat]) -> Result<Vec<u32>, CopyFault>
    ensures { IfOk result (λ numbers. numbers.items ≡ map place_of (words_of beats.now)) }
{
    let mut numbers = Vec::new(alloc);
    for beat in beats {
        add_series(&mut numbers, beat.words.as_slice())?;
    }
    Ok(numbers)
}

/// The series that the beats use, in order.
pub(crate) fn used_series(alloc: Global, beats: &[Beat]) -> Result<Vec<u32>, CopyFault>
    ensures rise { IfOk result (λ series. Rise series.items) }
    ensures same { IfOk result (λ series. has series.items ≡ uses (words_of beats.now)) }
{
    let all = all_series(alloc, beats)?;
    in_order(all)
}

fn placed_words(
    alloc: Global,
    series: &[u32],
    words: &[SeriesWord],
) -> Result<SeriesWordList, CopyFault>
    requires { Rise series.now }
    ensures { IfOk result (λ placed. placed ≡ map (placed_word (has series.now)) words.now) }
{
    let mut placed = SeriesWordList::new(alloc);
    for word in words {
        placed.push(SeriesWord {
            series: place_among(series, word.series),
            word: word.word,
        })?;
    }
    Ok(placed)
}

/// The beats with the new places of their series.
pub(crate) fn placed_beats(
    alloc: Global,
    series: &[u32],
    beats: &[Beat],
) -> Result<BeatList, CopyFault>
    requires { Rise series.now }
    ensures { IfOk result (λ placed. placed ≡ map (placed_beat (has series.now)) beats.now) }
{
    let mut placed = BeatList::new(alloc);
    for beat in beats {
        placed.push(Beat {
            moment: beat.moment,
            words: placed_words(alloc, series, beat.words.as_slice())?,
        })?;
    }
    Ok(placed)
}

// ---- the charts

/// The number of the chart of a series.
fn chart_number(registry: &Registry, series: u32) -> u32
    requires { series < length registry.now.dimensions }
    ensures value { IfSome (slice_get registry.now.dimensions series)
        (λ dimension. result ≡ chart_number registry.now dimension) }
    ensures within { result < length registry.now.charts }
    ensures owned { IfSome (slice_get registry.now.dimensions series) (HasChart registry.now) }
{
    registry.owner(series)
}

/// The numbers of the charts of all these series.
fn all_charts(alloc: Global, registry: &Registry, series: &[u32]) -> Result<Vec<u32>, CopyFault>
    requires { AllByRecursion (λ number. number < length registry.now.dimensions) series.now }
    ensures charts { IfOk result (λ charts. charts.items
        ≡ map (chart_number registry.now) (items_at registry.now.dimensions series.now)) }
    ensures within { IfOk result
        (λ charts. AllByRecursion (λ number. number < length registry.now.charts) charts.items) }
{
    let mut charts = Vec::new(alloc);
    for number in series {
        charts.push(chart_number(registry, *number))?;
    }
    Ok(charts)
}

/// What is told of a chart.
fn chart_name(alloc: Global, def: &ChartDef) -> Result<ChartName, CopyFault>
    ensures name { IfOk result (λ name. name ≡ chart_name def.now) }
    ensures texts { IfOk result IsChartInUtf8 }
{
    Ok(ChartName {
        id: Text::from_str(alloc, def.id.as_str())?,
        context: Text::from_str(alloc, def.context.as_str())?,
        update_every: def.update_every,
    })
}

/// What is told of these charts.
fn chart_names(
    alloc: Global,
    registry: &Registry,
    charts: &[u32],
) -> Result<ChartNameList, CopyFault>
    requires { AllByRecursion (λ number. number < length registry.now.charts) charts.now }
    ensures names { IfOk result
        (λ names. names ≡ map chart_name (items_at registry.now.charts charts.now)) }
    ensures texts { IfOk result (AllByRecursion IsChartInUtf8) }
{
    let mut names = ChartNameList::new(alloc);
    for number in charts {
        let name = chart_name(alloc, registry.chart(*number))?;
        names.push(name)?;
    }
    Ok(names)
}

// ---- the dimensions

/// What is told of the dimension with this number, with the place of its chart among these charts.
fn dimension_name(
    alloc: Global,
    registry: &Registry,
    charts: &[u32],
    series: u32,
) -> Result<DimName, CopyFault>
    requires charts { Rise charts.now }
    requires within { series < length registry.now.dimensions }
    ensures name { IfOk result (λ name. IfSome (slice_get registry.now.dimensions series)
        (λ dimension.
        name ≡ placed_dimension (has charts.now) (dimension_name registry.now dimension))) }
    ensures text { IfOk result IsDimensionInUtf8 }
    ensures owned { IfSome (slice_get registry.now.dimensions series) (HasChart registry.now) }
{
    let chart = place_among(charts, chart_number(registry, series));
    let def = registry.dimension(series);
    Ok(DimName {
        chart,
        id: Text::from_str(alloc, def.id.as_str())?,
        hidden: def.hidden,
    })
}

/// What is told of the dimensions of these series.
fn dimension_names(
    alloc: Global,
    registry: &Registry,
    charts: &[u32],
    series: &[u32],
) -> Result<DimNameList, CopyFault>
    requires charts { Rise charts.now }
    requires within { AllByRecursion
        (λ number. number < length registry.now.dimensions) series.now }
    ensures names { IfOk result (λ names. names
        ≡ map (λ dimension.
        placed_dimension (has charts.now) (dimension_name registry.now dimension))
        (items_at registry.now.dimensions series.now)) }
    ensures texts { IfOk result (AllByRecursion IsDimensionInUtf8) }
    ensures owned { IfOk result (λ _.
        AllByRecursion (HasChart registry.now) (items_at registry.now.dimensions series.now)) }
{
    let mut names = DimNameList::new(alloc);
    for number in series {
        let name = dimension_name(alloc, registry, charts, *number)?;
        names.push(name)?;
    }
    Ok(names)
}

/// The names that the words of these series use.
pub(crate) fn used_names(
    alloc: Global,
    registry: &Registry,
    series: &[u32],
) -> Result<Names, CopyFault>
    requires rise { Rise series.now }
    requires within { AllByRecursion
        (λ number. number < length registry.now.dimensions) series.now }
    ensures names { IfOk result (λ names. (words : List AWord) → has series.now ≡ uses words
        → names ≡ used_names (names_of registry.now) words) }
    ensures texts { IfOk result AreInUtf8 }
    ensures owned { IfOk result (λ _.
        AllByRecursion (HasChart registry.now) (items_at registry.now.dimensions series.now)) }
{
    let all = all_charts(alloc, registry, series)?;
    let ordered = in_order(all)?;
    let numbers = ordered.as_slice();
    let charts = chart_names(alloc, registry, numbers)?;
    let dimensions = dimension_names(alloc, registry, numbers, series)?;
    Ok(Names { charts, dimensions })
}
