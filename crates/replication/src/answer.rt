ghost use Rattle.std.specs.Prelude.{◌≡◌, ℕ, ◌<◌, ◌≤◌, if◌then◌else◌, Bool, List, [], ◌∷◌, ◌++◌, length, map, IfOk, OnOk};
ghost use Rattle.std.specs.List.{AllByRecursion};
ghost use Rattle.replication.specs.declared.names.DimName.{DimName as ADimension};
ghost use Rattle.replication.specs.Answer.{AreNames, AreOfSeries, AreBeatsOf, from_of, data_with};
ghost use Rattle.replication.specs.Marks.{AreMarks, AreMarksOf, ArePlaces, AreSmall};
ghost use Rattle.replication.specs.Names.{beat_moment, words_of, uses, used_names, placed_dimension, placed_word, placed_beat};
ghost use Rattle.replication.specs.Places.{select, place};

use crate::beats::{Beat, BeatList, SeriesWord, SeriesWordList};
use crate::fault::CopyFault;
use crate::latest::last_moment;
use crate::marks::Marks;
use crate::message::Data;
use crate::names::{ChartName, ChartNameList, DimName, DimNameList, Names};
use std::alloc::Global;

/// How many beats a `Data` may have.
pub const BEAT_LIMIT: usize = 64;

/// How many bytes the body of a `Data`'s frame may have, where it has more than one beat.
pub const DATA_LIMIT: usize = 1 << 20;

/// Above which moment a child with this floor has all: `prev`, or one below the floor.
pub(crate) fn from_of(floor: u32, prev: u32) -> u32
    ensures { result ≡ from_of floor prev }
{
    prev.max(floor.saturating_sub(1))
}

/// The marks of what the beats use.
fn marks_of(alloc: Global, names: &Names, beats: &[Beat]) -> Result<Marks, CopyFault>
    requires names { AreNames names.now }
    requires series { AreBeatsOf (length names.now.dimensions) beats.now }
    ensures { IfOk result (λ marks. AreMarksOf names.now (words_of beats.now) marks) }
{
    let mut marks = Marks::new(alloc, names)?;
    for beat in beats {
        marks.take_beat(names, beat);
    }
    Ok(marks)
}

/// How many places a mark counts for.
fn one_if(mark: bool) -> usize
    ensures value { result ≡ (if mark then 1 else 0) }
    ensures bound { result ≤ 1 }
{
    if mark { 1 } else { 0 }
}

/// The new place of each place that stays: none is above the old one.
fn places_of(alloc: Global, marks: &[bool]) -> Result<Vec<usize>, CopyFault>
    ensures small { IfOk result (λ places. AreSmall places.items) }
    ensures places { IfOk result (λ places. (test : ℕ → Bool) (n : ℕ)
        → AreMarks test n marks.now → ArePlaces test n places.items) }
{
    let mut places = Vec::new(alloc);
    let mut next = 0;
    for mark in marks {
        places.push(next)?;
        next += one_if(*mark);
    }
    Ok(places)
}

/// Adds a chart, if it is marked.
fn add_chart(used: &mut ChartNameList, chart: &ChartName, mark: bool) -> Result<(), CopyFault>
    ensures { OnOk result (used.new ≡ used.old ++ (if mark then chart.now ∷ [] else [])) }
{
    if !mark {
        return Ok(());
    }
    used.push(ChartName {
        id: chart.id.clone()?,
        context: chart.context.clone()?,
        update_every: chart.update_every,
    })?;
    Ok(())
}

/// Adds a dimension with another place of its chart, if it is marked.
fn add_dimension(
    used: &mut DimNameList,
    dimension: &DimName,
    chart: u32,
    mark: bool,
) -> Result<(), CopyFault>
    ensures { OnOk result (used.new ≡ used.old
        ++ (if mark then (record dimension.now { chart = chart }) ∷ [] else [])) }
{
    if !mark {
        return Ok(());
    }
    used.push(DimName {
        chart,
        id: dimension.id.clone()?,
        hidden: dimension.hidden,
    })?;
    Ok(())
}

/// The charts that are marked.
fn used_charts(
    alloc: Global,
    charts: &[ChartName],
    marks: &[bool],
) -> Result<ChartNameList, CopyFault>
    requires { length marks.now ≡ length charts.now }
    ensures { IfOk result (λ used. (test : ℕ → Bool)
        → AreMarks test (length charts.now) marks.now → used ≡ select test 0 charts.now) }
{
    let mut used = ChartNameList::new(alloc);
    for (index, chart) in charts.iter().enumerate() {
        add_chart(&mut used, chart, marks[index])?;
    }
    Ok(used)
}

/// The dimensions that are marked, with the new places of their charts.
fn used_dimensions(
    alloc: Global,
    dimensions: &[DimName],
    marks: &[bool],
    places: &[usize],
) -> Result<DimNameList, CopyFault>
    requires marks { length marks.now ≡ length dimensions.now }
    requires charts { AllByRecursion (λ (dimension : ADimension).
        dimension.chart < length places.now) dimensions.now }
    requires small { AreSmall places.now }
    ensures { IfOk result (λ used. (test charts : ℕ → Bool)
        → AreMarks test (length dimensions.now) marks.now
        → ArePlaces charts (length places.now) places.now
        → used ≡ map (placed_dimension charts) (select test 0 dimensions.now)) }
{
    let mut used = DimNameList::new(alloc);
    for (index, dimension) in dimensions.iter().enumerate() {
        let place = places[dimension.chart as usize] as u32;
        add_dimension(&mut used, dimension, place, marks[index])?;
    }
    Ok(used)
}

fn placed_words(
    alloc: Global,
    places: &[usize],
    words: &[SeriesWord],
) -> Result<SeriesWordList, CopyFault>
    requires series { AreOfSeries (length places.now) words.now }
    requires small { AreSmall places.now }
    ensures { IfOk result (λ placed. (test : ℕ → Bool)
        → ArePlaces test (length places.now) places.now
        → placed ≡ map (placed_word test) words.now) }
{
    let mut placed = SeriesWordList::new(alloc);
    for word in words {
        placed.push(SeriesWord {
            series: places[word.series as usize] as u32,
            word: word.word,
        })?;
    }
    Ok(placed)
}

/// The beats with the new places of their series.
fn placed_beats(alloc: Global, places: &[usize], beats: &[Beat]) -> Result<BeatList, CopyFault>
    requires series { AreBeatsOf (length places.now) beats.now }
    requires small { AreSmall places.now }
    ensures { IfOk result (λ placed. (test : ℕ → Bool)
        → ArePlaces test (length places.now) places.now
        → placed ≡ map (placed_beat test) beats.now) }
{
    let mut placed = BeatList::new(alloc);
    for beat in beats {
        placed.push(Beat {
            moment: beat.moment,
            words: placed_words(alloc, places, beat.words.as_slice())?,
        })?;
    }
    Ok(placed)
}

/// The names that the beats use, and the beats with their new places.
fn used_of(alloc: Global, names: &Names, beats: &[Beat]) -> Result<(Names, BeatList), CopyFault>
    requires names { AreNames names.now }
    requires series { AreBeatsOf (length names.now.dimensions) beats.now }
    ensures names { IfOk result (λ used. used.0 ≡ used_names names.now (words_of beats.now)) }
    ensures beats { IfOk result (λ used.
        used.1 ≡ map (placed_beat (uses (words_of beats.now))) beats.now) }
{
    let marks = marks_of(alloc, names, beats)?;
    let chart_marks = marks.charts.as_slice();
    let series_marks = marks.dimensions.as_slice();
    let new_charts = places_of(alloc, chart_marks)?;
    let new_series = places_of(alloc, series_marks)?;
    let chart_places = new_charts.as_slice();
    let series_places = new_series.as_slice();
    let all_charts = names.charts.as_slice();
    let all_dimensions = names.dimensions.as_slice();
    let charts = used_charts(alloc, all_charts, chart_marks)?;
    let dimensions = used_dimensions(alloc, all_dimensions, series_marks, chart_places)?;
    let placed = placed_beats(alloc, series_places, beats)?;
    Ok((Names { charts, dimensions }, placed))
}

/// The `Data` with these beats.
pub(crate) fn data_with(
    alloc: Global,
    child: u64,
    floor: u32,
    prev: u32,
    names: &Names,
    beats: &[Beat],
) -> Result<Data, CopyFault>
    requires names { AreNames names.now }
    requires series { AreBeatsOf (length names.now.dimensions) beats.now }
    ensures { IfOk result (λ message. message ≡ data_with child floor prev names.now beats.now) }
{
    let from = from_of(floor, prev);
    let (names, placed) = used_of(alloc, names, beats)?;
    Ok(Data {
        child,
        prev,
        from,
        upto: last_moment(from, beats),
        floor,
        names,
        beats: placed,
    })
}
