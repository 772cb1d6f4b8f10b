//! Whether a `Data` is one that a frame may have: a function for each rule.
ghost use Rattle.std.specs.Prelude.{◌≡◌, ℕ, ◌<◌, ◌≤◌, ◌∷◌, ◌++◌, [], ◌↔◌, length, map, IfOk, IsTrue, MatchOption};
ghost use Rattle.std.specs.List.{list_all};
ghost use Rattle.std.specs.Option.{option_to_list};
ghost use Rattle.entry_codec.specs.Lists.{is_ascending};
ghost use Rattle.replication.specs.Answer.{AreBeatsOf, AreNames, AreOfSeries, HaveWords, IsWhole};
ghost use Rattle.replication.specs.Copies.{latest, RisesFrom};
ghost use Rattle.replication.specs.Names.{beat_moment};
ghost use Rattle.link_frames.specs.DataForm.{has_id, has_rising_places, has_storage_numbers, is_chart, is_storage_number, place_of, HasMoments, IsData};

use crate::apart::are_apart;
use crate::used::{are_charts_used, are_dimensions_used};
use history::{TEXT_LIMIT, UPDATE_EVERY_LIMIT};
use replication::{Beat, ChartName, Data, DimName, Names, SeriesWord};
use std::alloc::{AllocError, Global};

fn is_chart(chart: &ChartName) -> bool
    ensures { result ≡ is_chart chart.now }
{
    history::is_chart_id(chart.id.as_str())
        && chart.context.len() <= TEXT_LIMIT
        && 1 <= chart.update_every
        && chart.update_every <= UPDATE_EVERY_LIMIT
}

fn are_charts(charts: &[ChartName]) -> bool
    ensures { result ≡ list_all is_chart charts.now }
{
    charts.iter().all(|chart| is_chart(chart))
}

fn have_ids(dimensions: &[DimName]) -> bool
    ensures { result ≡ list_all has_id dimensions.now }
{
    dimensions
        .iter()
        .all(|dimension| history::is_id(dimension.id.as_str()))
}

/// Whether each dimension has its chart among the names.
fn have_charts(names: &Names) -> bool
    ensures { IsTrue result ↔ AreNames names.now }
{
    let charts = names.charts.len();
    for dimension in names.dimensions.as_slice() {
        if dimension.chart as usize >= charts {
            return false;
        }
    }
    true
}

/// Whether each word is of one of so many dimensions.
fn are_of_series(series: usize, words: &[SeriesWord]) -> bool
    ensures { IsTrue result ↔ AreOfSeries series words.now }
{
    for word in words {
        if word.series as usize >= series {
            return false;
        }
    }
    true
}

fn are_beats_of(series: usize, beats: &[Beat]) -> bool
    ensures { IsTrue result ↔ AreBeatsOf series beats.now }
{
    for beat in beats {
        if !are_of_series(series, beat.words.as_slice()) {
            return false;
        }
    }
    true
}

fn have_words(beats: &[Beat]) -> bool
    ensures { IsTrue result ↔ HaveWords beats.now }
{
    for beat in beats {
        if beat.words.len() == 0 {
            return false;
        }
    }
    true
}

fn is_whole(message: &Data) -> bool
    ensures { IsTrue result ↔ IsWhole message.now }
{
    let beats = message.beats.as_slice();
    have_charts(&message.names)
        && are_beats_of(message.names.dimensions.len(), beats)
        && have_words(beats)
}

/// Whether a place may follow the last one.
fn is_above(last: Option<u32>, place: u32) -> bool
    ensures { result ≡ is_ascending (option_to_list last ++ place ∷ []) }
{
    match last {
        None => true,
        Some(last) => last < place,
    }
}

fn are_rising(words: &[SeriesWord]) -> bool
    ensures { result ≡ is_ascending (map place_of words.now) }
{
    let mut last = None;
    for word in words {
        if !is_above(last, word.series) {
            return false;
        }
        last = Some(word.series);
    }
    true
}

fn have_rising_places(beats: &[Beat]) -> bool
    ensures { result ≡ list_all has_rising_places beats.now }
{
    beats.iter().all(|beat| are_rising(beat.words.as_slice()))
}

fn are_storage_numbers(words: &[SeriesWord]) -> bool
    ensures { result ≡ list_all is_storage_number words.now }
{
    words.iter().all(|word| storage_number::is_word(word.word))
}

fn have_storage_numbers(beats: &[Beat]) -> bool
    ensures { result ≡ list_all has_storage_numbers beats.now }
{
    beats
        .iter()
        .all(|beat| are_storage_numbers(beat.words.as_slice()))
}

/// The moment of the last beat, or `from` where there is none. None where a moment is not above the one before it,
/// or the first is not above `from`.
fn last_rising(from: u32, beats: &[Beat]) -> Option<u32>
    ensures { MatchOption result (RisesFrom beat_moment from beats.now → ⊥)
        (λ last. RisesFrom beat_moment from beats.now
        × (last ≡ latest beat_moment from beats.now)) }
{
    let mut last = from;
    for beat in beats {
        if beat.moment <= last {
            return None;
        }
        last = beat.moment;
    }
    Some(last)
}

/// Whether there is a beat, the moments rise from above `from`, and the last is `upto`.
fn has_moments(message: &Data) -> bool
    ensures { IsTrue result ↔ HasMoments message.now }
{
    let beats = message.beats.as_slice();
    match last_rising(message.from, beats) {
        Some(last) => beats.len() > 0 && message.upto == last,
        None => false,
    }
}

/// Whether a frame may have the `Data`.
pub(crate) fn is_data(alloc: Global, message: &Data) -> Result<bool, AllocError>
    ensures { IfOk result (λ yes. IsTrue yes ↔ IsData message.now) }
{
    let beats = message.beats.as_slice();
    if !are_charts(message.names.charts.as_slice())
        || !have_ids(message.names.dimensions.as_slice())
    {
        return Ok(false);
    }
    if !is_whole(message) || !have_rising_places(beats) || !have_storage_numbers(beats) {
        return Ok(false);
    }
    if message.prev > message.from || !has_moments(message) {
        return Ok(false);
    }
    if !are_apart(alloc, &message.names)? {
        return Ok(false);
    }
    Ok(are_charts_used(alloc, &message.names)? && are_dimensions_used(alloc, message)?)
}
