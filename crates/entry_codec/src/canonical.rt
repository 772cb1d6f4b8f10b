//! Whether the lists of an entry are as they are written.

ghost use Rattle.std.specs.Prelude.{◌≡◌};
ghost use Rattle.std.specs.List.{list_all};
ghost use Rattle.entry_codec.specs.Entries.{are_values_ascending, is_canonical, is_collected_canonical, is_copied_canonical, is_storage_number};

use crate::entry::{Copied, Entry};
use crate::order;
use crate::words::CopiedWord;
use history::{NumberedBeat, Row};

fn are_values_ascending(rows: &[Row]) -> bool
    ensures { result ≡ list_all are_values_ascending rows.now }
{
    rows.iter()
        .all(|row| order::is_ascending(row.values.as_slice()))
}

fn are_storage_numbers(words: &[CopiedWord]) -> bool
    ensures { result ≡ list_all is_storage_number words.now }
{
    words.iter().all(|word| storage_number::is_word(word.word))
}

#[tactic(auto, unfolding(crate::specs::Entries::is_collected_canonical))]
pub(crate) fn is_collected(collected: &NumberedBeat) -> bool
    ensures { result ≡ is_collected_canonical collected.now }
{
    if !order::is_ascending(collected.charts.as_slice()) {
        return false;
    }
    if !order::is_ascending(collected.dimensions.as_slice()) {
        return false;
    }
    if !order::is_ascending(collected.rows.as_slice()) {
        return false;
    }
    are_values_ascending(collected.rows.as_slice())
}

#[tactic(auto, unfolding(crate::specs::Entries::is_copied_canonical))]
fn is_copied(copied: &Copied) -> bool
    ensures { result ≡ is_copied_canonical copied.now }
{
    if !order::is_ascending(copied.charts.as_slice()) {
        return false;
    }
    if !order::is_ascending(copied.dimensions.as_slice()) {
        return false;
    }
    if !order::is_ascending(copied.words.as_slice()) {
        return false;
    }
    are_storage_numbers(copied.words.as_slice())
}

/// Whether each list is in the order of its numbers, each number once, and each word is a storage number.
#[tactic(auto, unfolding(crate::specs::Entries::is_canonical))]
pub(crate) fn is_canonical(entry: &Entry) -> bool
    ensures { result ≡ is_canonical entry.now }
{
    match entry {
        Entry::Collected(collected) => is_collected(collected),
        Entry::Copied(copied) => is_copied(copied),
        Entry::Health(_) | Entry::Gap(_) => true,
    }
}
