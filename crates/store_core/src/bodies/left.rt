//! The tiers of what is left of a database that no beats leave.

ghost use Rattle.std.specs.Prelude.{◌≡◌, ◌+◌, ◌≤◌, true, IfOk};
ghost use Rattle.std.specs.List.{AllByRecursion};
ghost use Rattle.beat_tiers.specs.Parts.{are_kept, is_record_tier};
ghost use Rattle.beat_tiers.specs.Room.{tiers_held};
ghost use Rattle.beat_tiers.specs.Segments.{items_of};
ghost use Rattle.beat_tiers.specs.Sound.{AreSound, IsPointItem, IsRecordOfSeries};
ghost use Rattle.beat_tiers.specs.Tiers.{IsTier};
ghost use Rattle.checkpoint_body.specs.Body.{HasSpelling};

use crate::bodies::left_items::{left_points, left_records};
use crate::bodies::left_segments::{left_point_segments, left_record_segments};
use crate::disk::Left;
use beat_tiers::{KeptItems, KeptRecords, KeptRecordsList, OpenRecordList, Stepped, Tier, Tiers};
use checkpoint_body::{OpenRecord, PointTier, RecordPageList, RecordTier, SlotPageList};
use std::alloc::{AllocError, Global};

/// What is left of the points, or none of them where they are not in the form that a tier has.
fn left_point_tier(
    alloc: Global,
    last: u32,
    tier: Tier,
    body: &PointTier,
    kept: &[SlotPageList],
) -> Result<KeptItems<Stepped>, AllocError>
    requires { IsTier tier }
    ensures form { IfOk result (λ points. are_kept tier last (last + 1) points ≡ true) }
    ensures each { IfOk result (λ points. AllByRecursion IsPointItem (items_of points)) }
{
    let mut points = KeptItems {
        floor: body.floor,
        before: body.before,
        count: body.sealed,
        sealed: left_point_segments(alloc, body.extents.as_slice(), kept)?,
        unsealed: left_points(alloc, last, body.pages.as_slice())?,
    };
    if !beat_tiers::are_kept(tier, last, u64::from(last) + 1, &points) {
        points.sealed.clear();
        points.unsealed.clear();
    }
    Ok(points)
}

/// The records of the bucket of the last moment.
fn left_open_records(
    alloc: Global,
    last: u32,
    width: u32,
    records: &[OpenRecord],
) -> Result<OpenRecordList, AllocError>
    requires { 1 ≤ width }
{
    let start = width * (last / width);
    let mut current = OpenRecordList::new(alloc);
    for record in records {
        if record.start == start {
            current.push((record.series, record.value))?;
        }
    }
    Ok(current)
}

/// What is left of a tier of records, or none of them where they are not in the form that such a
/// tier has.
fn left_record_tier(
    alloc: Global,
    last: u32,
    tier: Tier,
    body: &RecordTier,
    kept: &[RecordPageList],
) -> Result<KeptRecords, AllocError>
    requires { IsTier tier }
    ensures form { IfOk result (λ records. is_record_tier last tier records ≡ true) }
    ensures each { IfOk result
        (λ records. AllByRecursion IsRecordOfSeries (items_of records.items)) }
{
    let width = tier.width;
    let items = KeptItems {
        floor: body.floor,
        before: 0,
        count: body.sealed,
        sealed: left_record_segments(alloc, width, body.extents.as_slice(), kept)?,
        unsealed: left_records(alloc, last, width, body.pages.as_slice())?,
    };
    let current = left_open_records(alloc, last, width, body.open_records.as_slice())?;
    let mut records = KeptRecords { items, current };
    if !beat_tiers::is_record_tier(last, tier, &records) {
        records.items.sealed.clear();
        records.items.unsealed.clear();
        records.current.clear();
    }
    Ok(records)
}

/// Sound tiers of what is left: of each tier the items that are points of beats or records of
/// series, in pages that are in form, or no items where these have not the order of a tier.
pub fn left_tiers(alloc: Global, left: &Left) -> Result<Tiers, AllocError>
    requires spelt { HasSpelling left.now.body }
    ensures sound { IfOk result (λ tiers. AreSound (tiers_held tiers)) }
    ensures last { IfOk result (λ tiers. (tiers_held tiers).last ≡ left.now.body.last) }
{
    let body = &left.body;
    let kept = &left.kept;
    let last = body.last;
    let tiers = body.settings.tiers.as_slice();
    let (minutes, hours) = (tiers[1], tiers[2]);
    let points = left_point_tier(alloc, last, tiers[0], &body.points, kept.points.as_slice())?;
    let of_minutes = left_record_tier(
        alloc,
        last,
        minutes,
        &body.minutes,
        kept.minutes.as_slice(),
    )?;
    let of_hours = left_record_tier(alloc, last, hours, &body.hours, kept.hours.as_slice())?;
    let mut records = KeptRecordsList::new(alloc);
    records.push(of_minutes)?;
    records.push(of_hours)?;
    Tiers::of_parts(alloc, tiers[0], &tiers[1..], last, points, records)
}
