ghost use Rattle.std.specs.Prelude.{◌≡◌, ◌≤◌, ◌++◌, None};
ghost use Rattle.std.specs.List.{AllByRecursion};
ghost use Rattle.beat_tiers.specs.Parts.{are_in_form, are_kept, are_open, are_placed, are_record_tiers, are_sealed, is_behind, is_record_tier, is_sealed, last_item};
ghost use Rattle.beat_tiers.specs.Searching.{items_in};
ghost use Rattle.beat_tiers.specs.Tiers.{IsTier};

use crate::item::{Item, Stepped};
use crate::parts::{KeptItems, KeptRecords, Segment};
use fixed_num::Record;
use tier_settings::{MOST_SERIES, Tier};

/// Whether an item comes behind the one before, if there is one.
fn is_behind<T: Copy + Drop>(before: Option<Item<T>>, item: Item<T>) -> bool
    ensures { result ≡ is_behind before item }
{
    match before {
        Some(before) => {
            before.place < item.place || (before.place == item.place && before.series < item.series)
        }
        None => true,
    }
}

/// Whether each item comes behind the one before it, and lies below a place.
fn are_placed<T: Copy + Drop>(limit: u64, mut before: Option<Item<T>>, items: &[Item<T>]) -> bool
    ensures { result ≡ are_placed limit before items.now }
{
    for item in items {
        if !is_behind(before, *item) || limit <= u64::from(item.place) {
            return false;
        }
        before = Some(*item);
    }
    true
}

/// The last of items behind one.
fn last_item<T: Copy + Drop>(before: Option<Item<T>>, items: &[Item<T>]) -> Option<Item<T>>
    ensures { result ≡ last_item before items.now }
{
    match items.last() {
        Some(item) => Some(*item),
        None => before,
    }
}

/// Whether the items of segments, and those since, have their order, and lie below a place.
fn are_all_placed<T: Copy + Drop>(limit: u64, segments: &[Segment<T>], unsealed: &[Item<T>]) -> bool
    ensures { result ≡ are_placed limit None (items_in segments.now ++ unsealed.now) }
{
    let mut before = None;
    for segment in segments {
        let items = segment.items.as_slice();
        if !are_placed(limit, before, items) {
            return false;
        }
        before = last_item(before, items);
    }
    are_placed(limit, before, unsealed)
}

/// Whether a segment has items, and was sealed from one moment to another.
fn is_sealed<T>(least: u64, last: u32, segment: &Segment<T>) -> bool
    ensures { result ≡ is_sealed least last segment.now }
{
    !segment.items.is_empty() && least <= u64::from(segment.sealed_at) && segment.sealed_at <= last
}

/// Whether each segment has items, and the moments of their sealing rise.
fn are_sealed<T>(last: u32, segments: &[Segment<T>]) -> bool
    ensures { result ≡ are_sealed 0 last segments.now }
{
    let mut least: u64 = 0;
    for segment in segments {
        if !is_sealed(least, last, segment) {
            return false;
        }
        least = u64::from(segment.sealed_at) + 1;
    }
    true
}

/// Whether a tier may keep these items: the segments sealed up to the last moment, and each item below a place.
pub fn are_kept<T: Copy + Drop>(tier: Tier, last: u32, limit: u64, kept: &KeptItems<T>) -> bool
    ensures { result ≡ are_kept tier last limit kept.now }
{
    kept.sealed.len() <= tier.extents as usize
        && kept.unsealed.len() < tier.items as usize
        && are_sealed(last, kept.sealed.as_slice())
        && are_all_placed(limit, kept.sealed.as_slice(), kept.unsealed.as_slice())
}

/// Whether the records have the order of their series, each once and below 65,536.
fn are_open(records: &[(u32, Record)]) -> bool
    ensures { result ≡ are_open 0 records.now }
{
    let mut least: u32 = 0;
    for record in records {
        if record.0 < least || MOST_SERIES <= record.0 {
            return false;
        }
        least = record.0 + 1;
    }
    true
}

/// Whether a tier of records may keep these.
pub fn is_record_tier(last: u32, tier: Tier, kept: &KeptRecords) -> bool
    requires { 1 ≤ tier.width }
    ensures { result ≡ is_record_tier last tier kept.now }
{
    kept.items.before == 0
        && are_kept(tier, last, u64::from(last / tier.width), &kept.items)
        && are_open(kept.current.as_slice())
}

/// Whether tiers of records with these settings may keep these, one each.
fn are_record_tiers(last: u32, tiers: &[Tier], records: &[KeptRecords]) -> bool
    requires { AllByRecursion IsTier tiers.now }
    ensures { result ≡ are_record_tiers last tiers.now records.now }
{
    let mut ahead = tiers;
    for kept in records {
        let Some((tier, rest)) = ahead.split_first() else {
            return false;
        };
        if !is_record_tier(last, *tier, kept) {
            return false;
        }
        ahead = rest;
    }
    ahead.is_empty()
}

/// Whether the parts are in the form that tiers of these settings have.
pub(crate) fn are_in_form(
    first: Tier,
    others: &[Tier],
    last: u32,
    points: &KeptItems<Stepped>,
    records: &[KeptRecords],
) -> bool
    requires { AllByRecursion IsTier others.now }
    ensures { result ≡ are_in_form first others.now last points.now records.now }
{
    are_kept(first, last, u64::from(last) + 1, points) && are_record_tiers(last, others, records)
}
