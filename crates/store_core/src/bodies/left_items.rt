//! The items of pages that may hold what no beats leave.
ghost use Rattle.std.specs.Prelude.{◌<◌, IfOk};
ghost use Rattle.std.specs.List.{AllByRecursion};
ghost use Rattle.beat_tiers.specs.Sound.{IsPointItem, IsRecordOfSeries};

use crate::bodies::sound::is_point;
use crate::pages::{items_of_records, items_of_slots, sorted_by_place};
use beat_tiers::{Item, Stepped};
use checkpoint_body::{RecordPage, SlotPage, are_record_pages, are_slot_pages};
use fixed_num::{ListOf, Record};
use std::alloc::{AllocError, Global};
use tier_settings::MOST_SERIES;

/// The items that are points of a beat, up to a moment.
fn points_among(
    alloc: Global,
    until: u32,
    items: &[Item<Stepped>],
) -> Result<ListOf<Item<Stepped>>, AllocError>
    ensures { IfOk result (AllByRecursion IsPointItem) }
{
    let mut points = ListOf::new(alloc);
    for item in items {
        if is_point(item) && item.place <= until {
            points.push(*item)?;
        }
    }
    Ok(points)
}

/// The points of beats up to a moment, of the pages that are in form.
pub(crate) fn left_points(
    alloc: Global,
    until: u32,
    pages: &[SlotPage],
) -> Result<ListOf<Item<Stepped>>, AllocError>
    ensures { IfOk result (AllByRecursion IsPointItem) }
{
    let mut items = Vec::new(alloc);
    for page in pages.chunks(1) {
        if are_slot_pages(page) {
            let found = items_of_slots(alloc, page)?;
            items.extend_from_slice(found.as_slice())?;
        }
    }
    let sorted = sorted_by_place(items)?;
    points_among(alloc, until, sorted.as_slice())
}

/// The items that are records of series, of the buckets before one.
fn records_among(
    alloc: Global,
    bucket: u32,
    items: &[Item<Record>],
) -> Result<ListOf<Item<Record>>, AllocError>
    ensures { IfOk result (AllByRecursion IsRecordOfSeries) }
{
    let mut records = ListOf::new(alloc);
    for item in items {
        if item.series < MOST_SERIES && item.place < bucket {
            records.push(*item)?;
        }
    }
    Ok(records)
}

/// The records of the buckets that are over at a moment, of the pages that are in form.
pub(crate) fn left_records(
    alloc: Global,
    until: u32,
    width: u32,
    pages: &[RecordPage],
) -> Result<ListOf<Item<Record>>, AllocError>
    requires { 0 < width }
    ensures { IfOk result (AllByRecursion IsRecordOfSeries) }
{
    let mut items = Vec::new(alloc);
    for page in pages.chunks(1) {
        if are_record_pages(width, page) {
            let found = items_of_records(alloc, page)?;
            items.extend_from_slice(found.as_slice())?;
        }
    }
    let sorted = sorted_by_place(items)?;
    records_among(alloc, until / width, sorted.as_slice())
}
