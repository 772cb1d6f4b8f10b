//! What a body and the pages of its extents say of each tier.
ghost use Rattle.std.specs.Prelude.{◌≡◌, ◌<◌, ℕ, List, map, true, Some, IfOk, IfSome};
ghost use Rattle.std.specs.List.{list_all};
ghost use Rattle.fixed_num.specs.declared.units.Record.{Record as ARecord};
ghost use Rattle.beat_tiers.specs.declared.item.Stepped.{Stepped as AStepped};
ghost use Rattle.beat_tiers.specs.declared.parts.KeptItems.{KeptItems as Items};
ghost use Rattle.beat_tiers.specs.declared.parts.KeptRecords.{KeptRecords as Records};
ghost use Rattle.beat_tiers.specs.Segments.{items_of};
ghost use Rattle.beat_tiers.specs.Tiers.{AreOrdered};
ghost use Rattle.checkpoint_body.specs.Canonical.{is_record_page, is_slot_page};
ghost use Rattle.store_core.specs.bodies.Reading.{HasPoints, HasRecords};
ghost use Rattle.store_core.specs.bodies.Tiers.{open_record_of};

use crate::bodies::kept_items::{points_of, records_of};
use crate::bodies::kept_segments::{point_segments, record_segments};
use crate::bodies::numbers::first_number;
use beat_tiers::{KeptItems, KeptRecords, OpenRecordList, Stepped, Tier};
use checkpoint_body::{OpenRecord, PointTier, RecordPageList, RecordTier, SlotPageList};
use std::alloc::{AllocError, Global};

/// What is kept of the points. `None` where the body and the pages of its extents are those of no
/// tier.
pub(crate) fn kept_points(
    alloc: Global,
    body: &PointTier,
    kept: &[SlotPageList],
) -> Result<Option<KeptItems<Stepped>>, AllocError>
    requires { list_all is_slot_page body.now.pages ≡ true }
    ensures found { IfOk result (λ found. IfSome found (HasPoints body.now kept.now)) }
    ensures one { IfOk result (λ found. (points : Items AStepped) → AreOrdered (items_of points)
        → HasPoints body.now kept.now points → found ≡ Some points) }
{
    let extents = body.extents.as_slice();
    let serial = first_number(body.sealed, extents.len() as u64);
    let Some(sealed) = point_segments(alloc, serial, body.before, extents, kept)? else {
        return Ok(None);
    };
    let Some(unsealed) = points_of(alloc, body.pages.as_slice())? else {
        return Ok(None);
    };
    Ok(Some(KeptItems {
        floor: body.floor,
        before: body.before,
        count: body.sealed,
        sealed,
        unsealed,
    }))
}

/// The records of the bucket of the last moment. `None` where one is of another bucket.
fn open_records_of(
    alloc: Global,
    last: u32,
    width: u32,
    records: &[OpenRecord],
) -> Result<Option<OpenRecordList>, AllocError>
    requires { 0 < width }
    ensures found { IfOk result (λ found. IfSome found (λ current.
        records.now ≡ map (open_record_of last width) current)) }
    ensures one { IfOk result (λ found. (current : List (ℕ × ARecord))
        → records.now ≡ map (open_record_of last width) current → found ≡ Some current) }
{
    let start = width * (last / width);
    let mut current = OpenRecordList::new(alloc);
    for record in records {
        if record.start != start {
            return Ok(None);
        }
        current.push((record.series, record.value))?;
    }
    Ok(Some(current))
}

/// What is kept of a tier of records. `None` where the body and the pages of its extents say it of
/// no tier with these settings.
pub(crate) fn kept_records(
    alloc: Global,
    last: u32,
    tier: Tier,
    body: &RecordTier,
    kept: &[RecordPageList],
) -> Result<Option<KeptRecords>, AllocError>
    requires width { 0 < tier.width }
    requires form { list_all (is_record_page tier.width) body.now.pages ≡ true }
    ensures found { IfOk result (λ found. IfSome found (HasRecords last tier body.now kept.now)) }
    ensures one { IfOk result (λ found. (records : Records) → AreOrdered (items_of records.items)
        → HasRecords last tier body.now kept.now records → found ≡ Some records) }
{
    let extents = body.extents.as_slice();
    let serial = first_number(body.sealed, extents.len() as u64);
    let Some(sealed) = record_segments(alloc, tier.width, serial, extents, kept)? else {
        return Ok(None);
    };
    let Some(unsealed) = records_of(alloc, tier.width, body.pages.as_slice())? else {
        return Ok(None);
    };
    let open = body.open_records.as_slice();
    let Some(current) = open_records_of(alloc, last, tier.width, open)? else {
        return Ok(None);
    };
    let items = KeptItems {
        floor: body.floor,
        before: 0,
        count: body.sealed,
        sealed,
        unsealed,
    };
    Ok(Some(KeptRecords { items, current }))
}
