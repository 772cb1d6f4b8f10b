//! What the next body has of a tier of records.
ghost use Rattle.std.specs.Prelude.{◌≡◌, ℕ, ◌*◌, ◌/◌, ◌-◌, ◌<◌, ◌≤◌, ◌^◌, length, map, IfOk};
ghost use Rattle.std.specs.List.{AllByRecursion};
ghost use Rattle.beat_tiers.specs.Room.{records_held};
ghost use Rattle.checkpoint_body.specs.Fields.{FitsOpenRecord};
ghost use Rattle.store_core.specs.disk.Holds.{page_of_records};
ghost use Rattle.store_core.specs.disk.Next.{written_records};
ghost use Rattle.tier_settings.specs.declared.limits.TheConstants.{MOST_EXTENTS};
ghost use Rattle.extent_file.specs.Pages.{items_of};
ghost use Rattle.store_core.specs.pages.Items.{IsRecordItem};
ghost use Rattle.store_core.specs.pages.Pages.{AreRecordPagesOf};
ghost use Rattle.store_core.specs.bodies.Next.{pages_of_records, AreNextRecords, CanBeNamed, CanBePages, IsNew, IsNextRecordTier};
ghost use Rattle.store_core.specs.bodies.Reading.{no_beats_in};
ghost use Rattle.store_core.specs.bodies.Tiers.{open_record_of};

use crate::bodies::next_extents::{extent_of, fitting, last_extents, sealed_after, sealed_count};
use crate::disk::{RecordExtent, RecordExtentList, lowest_free};
use crate::pages::record_pages_of;
use beat_tiers::{RecordTier as KeptTier, Sealed, Segments};
use checkpoint_body::{Extent, ExtentList, OpenRecord, OpenRecordList, RecordPage, RecordTier};
use extent_file::size_of;
use fixed_num::Record;
use std::alloc::{AllocError, Global};

/// How many records pages have together.
fn records_in(pages: &[RecordPage]) -> u64
    requires { items_of (map page_of_records pages.now) < 2 ^ 40 }
    ensures { result ≡ items_of (map page_of_records pages.now) }
{
    let mut count: u64 = 0;
    for page in pages {
        count += page.records.len() as u64;
    }
    count
}

/// The extent of a new segment, which has this number in the tier, and its pages.
fn new_records(
    alloc: Global,
    tier: u32,
    width: u32,
    old: &[Extent],
    number: u64,
    segment: &Sealed<Record>,
) -> Result<(Extent, RecordExtent), AllocError>
    requires tier { 0 < tier }
    requires width { 0 < width }
    requires slots { length old.now ≤ MOST_EXTENTS }
    requires items { CanBePages (IsRecordItem width) segment.now.items }
    ensures { IfOk result (λ made. IsNew tier written_records pages_of_records
        (AreRecordPagesOf tier width) no_beats_in old.now number 0 segment.now made.0 made.1) }
{
    let pages = record_pages_of(alloc, width, segment.items())?;
    let records = records_in(pages.as_slice());
    let size = size_of(tier, pages.len() as u64, records);
    let slot = lowest_free(old);
    let extent = extent_of(slot, number, segment.sealed_at(), size, 0);
    Ok((extent, RecordExtent { slot, pages }))
}

/// The extents of a tier of the next body, where the open one is of a moment and has the old ones.
fn record_extents(
    alloc: Global,
    tier: u32,
    width: u32,
    moment: u32,
    old: &[Extent],
    now: &Segments<Record>,
) -> Result<(ExtentList, RecordExtentList), AllocError>
    requires tier { 0 < tier }
    requires width { 0 < width }
    requires named { CanBeNamed (IsRecordItem width) moment old.now now.now.kept }
    ensures { IfOk result (λ made.
        AreNextRecords tier width moment old.now now.now.kept made.0 made.1) }
{
    let count = sealed_count(now);
    let mut new = RecordExtentList::new(alloc);
    let Some(segment) = sealed_after(now, moment) else {
        let stay = last_extents(alloc, old, count)?;
        return Ok((stay, new));
    };
    let mut extents = last_extents(alloc, old, count.saturating_sub(1))?;
    let number = now.count().saturating_sub(1);
    let (extent, one) = new_records(alloc, tier, width, old, number, segment)?;
    extents.push(extent)?;
    new.push(one)?;
    Ok((extents, new))
}

/// The record of a series in the bucket of the last moment.
fn open_record(last: u32, width: u32, series: u32, value: Record) -> OpenRecord
    requires { 0 < width }
    ensures value { result ≡ open_record_of last width (series, value) }
    ensures fits { FitsOpenRecord result }
{
    OpenRecord {
        series,
        start: width * (last / width),
        value,
    }
}

/// The records of the bucket of the last moment.
fn open_records(
    alloc: Global,
    last: u32,
    width: u32,
    current: &[(u32, Record)],
) -> Result<OpenRecordList, AllocError>
    requires { 0 < width }
    ensures records { IfOk result (λ records.
        records ≡ map (open_record_of last width) current.now) }
    ensures fit { IfOk result (AllByRecursion FitsOpenRecord) }
{
    let mut records = OpenRecordList::new(alloc);
    for one in current {
        records.push(open_record(last, width, one.0, one.1))?;
    }
    Ok(records)
}

/// What the next body has of the tier of records with a number, and the segment that was sealed since
/// the open one, which is of a moment. The last moment is that of the tiers now.
pub(crate) fn next_records(
    alloc: Global,
    number: u32,
    moment: u32,
    last: u32,
    old: &RecordTier,
    now: &KeptTier,
) -> Result<(RecordTier, RecordExtentList), AllocError>
    requires number { 0 < number }
    requires width { 0 < now.now.tier.width }
    requires named { CanBeNamed (IsRecordItem now.now.tier.width) moment old.now.extents
        now.now.segments.kept }
    ensures { IfOk result (λ made. IsNextRecordTier number moment last old.now
        (records_held now.now) made.0 made.1) }
{
    let width = now.tier().width;
    let kept = now.segments();
    let old_extents = old.extents.as_slice();
    let (extents, new) = record_extents(alloc, number, width, moment, old_extents, kept)?;
    let current = now.open_records(alloc)?;
    let open_records = open_records(alloc, last, width, current.as_slice())?;
    let pages = record_pages_of(alloc, width, kept.unsealed())?;
    let (floor, _, sealed) = fitting(kept.floor(), 0, kept.count());
    let tier = RecordTier {
        floor,
        sealed,
        extents,
        open_records,
        pages,
    };
    Ok((tier, new))
}
