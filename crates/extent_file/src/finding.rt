ghost use Rattle.std.specs.Prelude.{◌≡◌, ℕ, length};
ghost use Rattle.std.specs.List.{position};
ghost use Rattle.extent_file.specs.Directory.{at_first, AreInOrder};
ghost use Rattle.extent_file.specs.Find.{is_wanted};

use crate::entry::Entry;

/// The first page of the series whose last item is at or after the moment, found by halves.
pub(crate) fn first_wanted(entries: &[Entry], series: u32, moment: u32) -> Option<usize>
    requires { (tier : ℕ) × AreInOrder tier (at_first (length entries.now)) entries.now }
    ensures { result ≡ position (is_wanted series moment) entries.now }
{
    let index = entries.partition_point(|entry| entry.is_before(series, moment));
    match entries.get(index) {
        Some(entry) if entry.series == series => Some(index),
        _ => None,
    }
}
