//! Whether items are those of sound tiers.
ghost use Rattle.std.specs.Prelude.{◌≡◌, ◌↔◌, IsTrue};
ghost use Rattle.std.specs.List.{AllByRecursion};
ghost use Rattle.beat_tiers.specs.Sound.{IsPointItem, IsRecordOfSeries};

use beat_tiers::{Item, Stepped};
use fixed_num::Record;
use storage_number::is_word;
use tier_settings::{LONGEST_STEP, MOST_SERIES};

/// Whether the item is a point of a beat.
pub(crate) fn is_point(item: &Item<Stepped>) -> bool
    ensures { IsTrue result ↔ IsPointItem item.now }
{
    let step = item.value.step;
    item.series < MOST_SERIES && 1 <= step && step <= LONGEST_STEP && is_word(item.value.word)
}

/// Whether each item is a point of a beat.
pub(crate) fn are_points(items: &[Item<Stepped>]) -> bool
    ensures { IsTrue result ↔ AllByRecursion IsPointItem items.now }
{
    for item in items {
        if !is_point(item) {
            return false;
        }
    }
    true
}

/// Whether the series of each item is below `MOST_SERIES`.
pub(crate) fn are_records(items: &[Item<Record>]) -> bool
    ensures { IsTrue result ↔ AllByRecursion IsRecordOfSeries items.now }
{
    for item in items {
        if MOST_SERIES <= item.series {
            return false;
        }
    }
    true
}
