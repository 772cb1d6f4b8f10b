//! Whether a `Data` has no name left over, by a mark for each.
ghost use Rattle.std.specs.Prelude.{◌≡◌, ℕ, ◌<◌, ◌++◌, ◌↔◌, true, false, List, length, slice_index_or, vec_len, IfOk, IsTrue};
ghost use Rattle.replication.specs.declared.beats.SeriesWord.{SeriesWord as AWord};
ghost use Rattle.replication.specs.Answer.{AreBeatsOf, AreNames, AreOfSeries};
ghost use Rattle.replication.specs.Marks.{AreMarks};
ghost use Rattle.replication.specs.Names.{uses};
ghost use Rattle.link_frames.specs.DataForm.{AreChartsUsed, AreDimensionsUsed};

use replication::{Data, Names, SeriesWord};
use std::alloc::{AllocError, Global};

/// Whether each place is marked.
fn all_marked(marks: &[bool]) -> bool
    ensures { IsTrue result ↔ ((place : ℕ) → place < length marks.now
        → slice_index_or marks.now place false ≡ true) }
{
    for mark in marks {
        if !*mark {
            return false;
        }
    }
    true
}

/// Marks the dimensions of the words.
fn mark_words(marks: &mut Vec<bool>, words: &[SeriesWord])
    requires { AreOfSeries (vec_len marks.old) words.now }
    ensures long { vec_len marks.new ≡ vec_len marks.old }
    ensures marks { (before : List AWord)
        → AreMarks (uses before) (vec_len marks.old) marks.old.items
        → AreMarks (uses (before ++ words.now)) (vec_len marks.old) marks.new.items }
{
    for word in words {
        marks[word.series as usize] = true;
    }
}

/// Whether each dimension has a word.
pub(crate) fn are_dimensions_used(alloc: Global, message: &Data) -> Result<bool, AllocError>
    requires { AreBeatsOf (length message.now.names.dimensions) message.now.beats }
    ensures { IfOk result (λ used. IsTrue used ↔ AreDimensionsUsed message.now) }
{
    let mut marks = vec![in alloc; false; message.names.dimensions.len()]?;
    for beat in message.beats.as_slice() {
        mark_words(&mut marks, beat.words.as_slice());
    }
    Ok(all_marked(marks.as_slice()))
}

/// Whether each chart has a dimension.
pub(crate) fn are_charts_used(alloc: Global, names: &Names) -> Result<bool, AllocError>
    requires { AreNames names.now }
    ensures { IfOk result (λ used. IsTrue used ↔ AreChartsUsed names.now) }
{
    let mut marks = vec![in alloc; false; names.charts.len()]?;
    for dimension in names.dimensions.as_slice() {
        marks[dimension.chart as usize] = true;
    }
    Ok(all_marked(marks.as_slice()))
}
