//! The items that pages have, where these are in form.
ghost use Rattle.std.specs.Prelude.{◌≡◌, List, Some, IfOk, IfSome};
ghost use Rattle.fixed_num.specs.declared.units.Record.{Record as ARecord};
ghost use Rattle.beat_tiers.specs.declared.item.Item.{Item as AnItem};
ghost use Rattle.beat_tiers.specs.declared.item.Stepped.{Stepped as AStepped};
ghost use Rattle.beat_tiers.specs.Tiers.{AreOrdered};
ghost use Rattle.store_core.specs.bodies.Reading.{ArePointsOf, AreRecordsOf};

use crate::bodies::sound::{are_points, are_records};
use crate::pages::{items_of_records, items_of_slots};
use beat_tiers::{Item, Stepped};
use checkpoint_body::{RecordPage, SlotPage, are_record_pages, are_slot_pages};
use fixed_num::{ListOf, Record};
use std::alloc::{AllocError, Global};

/// The points of pages. `None` where the pages are not in form, or an item is no point of a beat.
pub(crate) fn points_of(
    alloc: Global,
    pages: &[SlotPage],
) -> Result<Option<ListOf<Item<Stepped>>>, AllocError>
    ensures found { IfOk result (λ found. IfSome found (ArePointsOf pages.now)) }
    ensures one { IfOk result (λ found. (items : List (AnItem AStepped)) → AreOrdered items
        → ArePointsOf pages.now items → found ≡ Some items) }
{
    if !are_slot_pages(pages) {
        return Ok(None);
    }
    let items = items_of_slots(alloc, pages)?;
    if !are_points(items.as_slice()) {
        return Ok(None);
    }
    Ok(Some(items))
}

/// The records of pages, of buckets of a width. `None` where the pages are not in form, or the
/// series of a record is too large.
pub(crate) fn records_of(
    alloc: Global,
    width: u32,
    pages: &[RecordPage],
) -> Result<Option<ListOf<Item<Record>>>, AllocError>
    ensures found { IfOk result (λ found. IfSome found (AreRecordsOf width pages.now)) }
    ensures one { IfOk result (λ found. (items : List (AnItem ARecord)) → AreOrdered items
        → AreRecordsOf width pages.now items → found ≡ Some items) }
{
    if !are_record_pages(width, pages) {
        return Ok(None);
    }
    let items = items_of_records(alloc, pages)?;
    if !are_records(items.as_slice()) {
        return Ok(None);
    }
    Ok(Some(items))
}
