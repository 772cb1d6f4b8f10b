ghost use Rattle.std.specs.Prelude.{◌≡◌, ℕ, ◌+◌, ◌<◌, ◌≤◌, ◌*◌, not, true, false, if◌then◌else◌, List, [], ◌∷◌, ◌++◌, length, slice_set, slice_index_or, vec_len, IfOk, IfSome, OnSome};
ghost use Rattle.replication.specs.declared.beats.SeriesWord.{SeriesWord as AWord};
ghost use Rattle.replication.specs.Answer.{AreNames, AreOfSeries};

use crate::beats::{Beat, SeriesWord};
use crate::fault::CopyFault;
use crate::names::Names;
use std::alloc::Global;

/// Marks a place, and tells whether it was not marked.
fn mark(marks: &mut Vec<bool>, place: usize) -> bool
    requires { place < vec_len marks.old }
    ensures marks { marks.new.items ≡ slice_set marks.old.items place true }
    ensures new { result ≡ not (slice_index_or marks.old.items place false) }
{
    let new = !marks[place];
    marks[place] = true;
    new
}

/// The size of what is new, and 0 of what is not.
fn size_if(new: bool, size: u128) -> u128
    ensures value { result ≡ (if new then size else 0) }
    ensures bound { result ≤ size }
{
    if new { size } else { 0 }
}

/// Which names some words use: a mark for each dimension and each chart.
#[derive(Drop)]
pub(crate) struct Marks {
    pub(crate) dimensions: Vec<bool>,
    pub(crate) charts: Vec<bool>,
}

impl Marks {
    ghost use Rattle.replication.specs.Marks.{AreMarksOf, IsAsLongAs, IsLeft, words_size};

    /// The marks of no words.
    pub(crate) fn new(alloc: Global, names: &Names) -> Result<Marks, CopyFault>
        ensures { IfOk result (λ marks. AreMarksOf names.now [] marks) }
    {
        Ok(Marks {
            dimensions: vec![in alloc; false; names.dimensions.len()]?,
            charts: vec![in alloc; false; names.charts.len()]?,
        })
    }

    /// Marks what one more word uses, and tells how many bytes it takes with the names that were not marked.
    pub(crate) fn take(&mut self, names: &Names, word: &SeriesWord) -> u128
        requires names { AreNames names.now }
        requires series { word.now.series < length names.now.dimensions }
        requires long { IsAsLongAs names.now self.old }
        ensures long { IsAsLongAs names.now self.new }
        ensures marks { (words : List AWord) → AreMarksOf names.now words self.old
            → AreMarksOf names.now (words ++ word.now ∷ []) self.new }
        ensures size { (words : List AWord) → AreMarksOf names.now words self.old
            → words_size names.now (words ++ word.now ∷ [])
            ≡ words_size names.now words + result }
    {
        let dimensions = names.dimensions.as_slice();
        let charts = names.charts.as_slice();
        let series = word.series as usize;
        let dimension = &dimensions[series];
        let place = dimension.chart as usize;
        let chart = &charts[place];
        let own_len = dimension.id.len() as u128;
        let id_len = chart.id.len() as u128;
        let context_len = chart.context.len() as u128;
        let is_new = mark(&mut self.dimensions, series);
        let is_new_chart = mark(&mut self.charts, place);
        let first = size_if(is_new, 7 + own_len);
        let second = size_if(is_new_chart, 8 + id_len + context_len);
        8 + first + second
    }

    /// Marks what one more beat uses, and tells how much of `room` bytes it leaves with the names that were
    /// not marked: None where it takes more.
    pub(crate) fn room_after(&mut self, names: &Names, beat: &Beat, room: usize) -> Option<usize>
        requires names { AreNames names.now }
        requires series { AreOfSeries (length names.now.dimensions) beat.now.words }
        requires long { IsAsLongAs names.now self.old }
        ensures long { IsAsLongAs names.now self.new }
        ensures marks { (words : List AWord) → AreMarksOf names.now words self.old
            → OnSome result (AreMarksOf names.now (words ++ beat.now.words) self.new) }
        ensures room { (words : List AWord) → AreMarksOf names.now words self.old
            → IsLeft (words_size names.now words)
            (8 + words_size names.now (words ++ beat.now.words)) room result }
    {
        if room < 8 {
            return None;
        }
        let mut room = room - 8;
        for word in beat.words.as_slice() {
            let size = self.take(names, word);
            if size > room as u128 {
                return None;
            }
            room -= size as usize;
        }
        Some(room)
    }

    /// Marks what one more beat uses.
    pub(crate) fn take_beat(&mut self, names: &Names, beat: &Beat)
        requires names { AreNames names.now }
        requires series { AreOfSeries (length names.now.dimensions) beat.now.words }
        requires long { IsAsLongAs names.now self.old }
        ensures long { IsAsLongAs names.now self.new }
        ensures marks { (words : List AWord) → AreMarksOf names.now words self.old
            → AreMarksOf names.now (words ++ beat.now.words) self.new }
    {
        for word in beat.words.as_slice() {
            let _size = self.take(names, word);
        }
    }
}
