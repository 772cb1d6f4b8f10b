ghost use Rattle.std.specs.Prelude.{◌≡◌, ℕ, ◌+◌, ◌*◌, ◌^◌, ◌<◌, ◌≤◌, true, List, length, map, take, drop, slice_get, Some, IfOk, IfErr, IsErrOf};
ghost use Rattle.std.specs.List.{AllByRecursion};
ghost use Rattle.host_model.specs.Images.{contents};
ghost use Rattle.host_model.specs.Past.{file_number, of};
ghost use Rattle.host_model.specs.Disks.{reads_as};
ghost use Rattle.host_model.specs.Cause.{HasCause};
ghost use Rattle.extent_file.specs.declared.entry.Entry.{Entry as AnEntry};
ghost use Rattle.extent_file.specs.Directory.{bytes_of, extent_form};
ghost use Rattle.extent_file.specs.Form.{Says};
ghost use Rattle.extent_file.specs.Slot.{IsTierFile, slot_size, slot_start, tier_of};
ghost use Rattle.checkpoint_body.specs.declared.page.RecordPage.{RecordPage as ARecordPage};
ghost use Rattle.checkpoint_body.specs.declared.page.SlotPage.{SlotPage as ASlotPage};
ghost use Rattle.checkpoint_body.specs.Body.{HasSpelling};
ghost use Rattle.tier_settings.specs.declared.limits.TheConstants.{MOST_ITEMS};
ghost use Rattle.store_core.specs.disk.Contents.{KeptPages};
ghost use Rattle.store_core.specs.disk.Holds.{page_of_records, page_of_slots, AreKept, LiesAs, Lie};
ghost use Rattle.store_core.specs.disk.Kept.{pages_of, HasPagesOfEach};
ghost use Rattle.store_core.specs.disk.Reading.{AreNamed, HasSlot, IsExtentFault, IsNamed};
ghost use Rattle.store_core.specs.disk.Slots.{has_own_slots};

use crate::disk::fault::EXTENT_PART;
use crate::disk::items::{records_in, words_in};
use crate::disk::slots::has_own_slots;
use crate::disk::tier::items_of;
use crate::fault::OpenFault;
use checkpoint_body::{Body, Extent, RecordPage, RecordPageList, SlotPage, SlotPageList};
use extent_file::Extent as OpenExtent;
use fixed_num::ListOf;
use host_model::{File, Host};
use page_buffer::{RecordPage as PageOfRecords, SlotPage as PageOfSlots};
use page_pool::{PagePool, PoolFault, RawPage};
use std::alloc::Global;

/// Opens an extent that a checkpoint names, in the file of its tier.
pub(crate) fn open_extent<H: Host>(
    alloc: Global,
    host: &mut H,
    file: File,
    items: u32,
    extent: &Extent,
) -> Result<OpenExtent, OpenFault>
    requires tier { IsTierFile file }
    requires items { items ≤ MOST_ITEMS }
    requires slot { HasSlot extent.now }
    ensures place { IfOk result (λ opened. (opened.file ≡ file)
        × (opened.start ≡ slot_start (tier_of file) items extent.now.slot)) }
    ensures says { IfOk result (λ opened. H.honest
        → Says (extent_form (tier_of file) (slot_size (tier_of file) items) extent.now.size)
        (drop (slot_start (tier_of file) items extent.now.slot)
        (contents (of file (H.seen host.old).past))) opened.entries) }
    ensures damaged { IsErrOf result (OpenFault.Damaged 3) → H.honest
        → (entries : List AnEntry)
        → ¬ Says (extent_form (tier_of file) (slot_size (tier_of file) items) extent.now.size)
        (drop (slot_start (tier_of file) items extent.now.slot)
        (contents (of file (H.seen host.old).past))) entries }
    ensures faults { IfErr result IsExtentFault }
    ensures past { H.honest → (H.seen host.new).past ≡ (H.seen host.old).past }
    ensures cause { HasCause (H.seen host.old).disk_faults (H.seen host.new).disk_faults
        (IsErrOf result OpenFault.DiskFault) }
    ensures output { (H.seen host.new).tell_faults ≡ (H.seen host.old).tell_faults }
{
    Ok(OpenExtent::open(alloc, host, file, items, extent.slot, extent.size)?)
}

/// A raw page of the pool, which takes memory where it has none.
pub(crate) fn raw_page(pool: &mut PagePool) -> Result<RawPage, PoolFault> {
    pool.reserve(1)?;
    Ok(pool.take().unwrap())
}

/// The bytes of the items of a page of an extent.
fn read_items<H: Host>(
    host: &mut H,
    pool: &mut PagePool,
    extent: &OpenExtent,
    index: u32,
) -> Result<RawPage, OpenFault>
    requires { index < length extent.now.entries }
    ensures items { IfOk result (λ items. H.honest → (entry : AnEntry)
        → slice_get extent.now.entries index ≡ Some entry
        → items ≡ take (bytes_of (tier_of extent.now.file) entry)
        (drop (extent.now.start + entry.place)
        (contents (of extent.now.file (H.seen host.old).past)))) }
    ensures whole { IfOk result (λ _. H.honest → (entry : AnEntry)
        → slice_get extent.now.entries index ≡ Some entry
        → extent.now.start + entry.place + bytes_of (tier_of extent.now.file) entry
        ≤ length (contents (of extent.now.file (H.seen host.old).past))) }

    // The file ends before the items do.
    ensures damaged { IsErrOf result (OpenFault.Damaged 3) → H.honest → (entry : AnEntry)
        → slice_get extent.now.entries index ≡ Some entry
        → length (contents (of extent.now.file (H.seen host.old).past))
        < extent.now.start + entry.place + bytes_of (tier_of extent.now.file) entry }
    ensures faults { IfErr result IsExtentFault }
    ensures past { H.honest → (H.seen host.new).past ≡ (H.seen host.old).past }
    ensures cause { HasCause (H.seen host.old).disk_faults (H.seen host.new).disk_faults
        (IsErrOf result OpenFault.DiskFault) }
    ensures output { (H.seen host.new).tell_faults ≡ (H.seen host.old).tell_faults }
{
    let page = raw_page(pool)?;
    Ok(extent.read_page(host, index, page)?)
}

/// The page of points that an entry of the directory of an extent names.
pub(crate) fn read_slot_page<H: Host>(
    alloc: Global,
    host: &mut H,
    pool: &mut PagePool,
    extent: &OpenExtent,
    index: u32,
) -> Result<SlotPage, OpenFault>
    requires tier { tier_of extent.now.file ≡ 0 }
    requires index { index < length extent.now.entries }
    ensures page { IfOk result (λ page. H.honest → (entry : AnEntry)
        → slice_get extent.now.entries index ≡ Some entry
        → IsNamed (tier_of extent.now.file) (drop extent.now.start
        (contents (of extent.now.file (H.seen host.old).past))) entry (page_of_slots page)) }
    ensures damaged { IsErrOf result (OpenFault.Damaged 3) → H.honest → (entry : AnEntry)
        → slice_get extent.now.entries index ≡ Some entry → (page : ASlotPage)
        → ¬ IsNamed (tier_of extent.now.file) (drop extent.now.start
        (contents (of extent.now.file (H.seen host.old).past))) entry (page_of_slots page) }
    ensures faults { IfErr result IsExtentFault }
    ensures past { H.honest → (H.seen host.new).past ≡ (H.seen host.old).past }
    ensures cause { HasCause (H.seen host.old).disk_faults (H.seen host.new).disk_faults
        (IsErrOf result OpenFault.DiskFault) }
    ensures output { (H.seen host.new).tell_faults ≡ (H.seen host.old).tell_faults }
{
    let (series, first, step, _) = extent.head(index);
    let bytes = read_items(host, pool, extent, index)?;
    let spare = raw_page(pool)?;
    let Ok(page) = PageOfSlots::decode(bytes.as_slice(), spare, series, first, step) else {
        return Err(OpenFault::Damaged(EXTENT_PART));
    };
    let words = words_in(alloc, &page)?;
    pool.give(bytes);
    pool.give(page.into_raw());
    Ok(SlotPage {
        series,
        first,
        step,
        words,
    })
}

/// The page of records that an entry of the directory of an extent names.
pub(crate) fn read_record_page<H: Host>(
    alloc: Global,
    host: &mut H,
    pool: &mut PagePool,
    extent: &OpenExtent,
    index: u32,
) -> Result<RecordPage, OpenFault>
    requires tier { 0 < tier_of extent.now.file }
    requires index { index < length extent.now.entries }
    ensures page { IfOk result (λ page. H.honest → (entry : AnEntry)
        → slice_get extent.now.entries index ≡ Some entry
        → IsNamed (tier_of extent.now.file) (drop extent.now.start
        (contents (of extent.now.file (H.seen host.old).past))) entry (page_of_records page)) }
    ensures damaged { IsErrOf result (OpenFault.Damaged 3) → H.honest → (entry : AnEntry)
        → slice_get extent.now.entries index ≡ Some entry → (page : ARecordPage)
        → ¬ IsNamed (tier_of extent.now.file) (drop extent.now.start
        (contents (of extent.now.file (H.seen host.old).past))) entry (page_of_records page) }
    ensures faults { IfErr result IsExtentFault }
    ensures past { H.honest → (H.seen host.new).past ≡ (H.seen host.old).past }
    ensures cause { HasCause (H.seen host.old).disk_faults (H.seen host.new).disk_faults
        (IsErrOf result OpenFault.DiskFault) }
    ensures output { (H.seen host.new).tell_faults ≡ (H.seen host.old).tell_faults }
{
    let (series, first, step, _) = extent.head(index);
    let bytes = read_items(host, pool, extent, index)?;
    let spare = raw_page(pool)?;
    let Ok(page) = PageOfRecords::decode(bytes.as_slice(), spare, series, first, step) else {
        return Err(OpenFault::Damaged(EXTENT_PART));
    };
    let records = records_in(alloc, &page)?;
    pool.give(bytes);
    pool.give(page.into_raw());
    Ok(RecordPage {
        series,
        first,
        step,
        records,
    })
}

/// The pages of points that the directory of an extent names.
fn read_slot_pages<H: Host>(
    alloc: Global,
    host: &mut H,
    pool: &mut PagePool,
    extent: &OpenExtent,
) -> Result<SlotPageList, OpenFault>
    requires { tier_of extent.now.file ≡ 0 }
    ensures named { IfOk result (λ pages. H.honest
        → AreNamed (tier_of extent.now.file) (drop extent.now.start
        (contents (of extent.now.file (H.seen host.old).past)))
        extent.now.entries (map page_of_slots pages)) }
    ensures damaged { IsErrOf result (OpenFault.Damaged 3) → H.honest
        → (pages : List ASlotPage)
        → ¬ AreNamed (tier_of extent.now.file) (drop extent.now.start
        (contents (of extent.now.file (H.seen host.old).past)))
        extent.now.entries (map page_of_slots pages) }
    ensures faults { IfErr result IsExtentFault }
    ensures past { H.honest → (H.seen host.new).past ≡ (H.seen host.old).past }
    ensures cause { HasCause (H.seen host.old).disk_faults (H.seen host.new).disk_faults
        (IsErrOf result OpenFault.DiskFault) }
    ensures output { (H.seen host.new).tell_faults ≡ (H.seen host.old).tell_faults }
{
    let mut pages = SlotPageList::new(alloc);
    for index in 0..extent.entries() {
        let page = read_slot_page(alloc, host, pool, extent, index)?;
        pages.push(page)?;
    }
    Ok(pages)
}

/// The pages of an extent of points.
fn read_slots<H: Host>(
    alloc: Global,
    host: &mut H,
    pool: &mut PagePool,
    items: u32,
    extent: &Extent,
) -> Result<SlotPageList, OpenFault>
    requires items { items ≤ MOST_ITEMS }
    requires slot { HasSlot extent.now }
    ensures lies { IfOk result (λ pages. H.honest
        → LiesAs 0 items (contents (of File.Tier0 (H.seen host.old).past)) extent.now
        (map page_of_slots pages)) }
    ensures damaged { IsErrOf result (OpenFault.Damaged 3) → H.honest
        → (pages : List ASlotPage)
        → ¬ LiesAs 0 items (contents (of File.Tier0 (H.seen host.old).past)) extent.now
        (map page_of_slots pages) }
    ensures faults { IfErr result IsExtentFault }
    ensures past { H.honest → (H.seen host.new).past ≡ (H.seen host.old).past }
    ensures cause { HasCause (H.seen host.old).disk_faults (H.seen host.new).disk_faults
        (IsErrOf result OpenFault.DiskFault) }
    ensures output { (H.seen host.new).tell_faults ≡ (H.seen host.old).tell_faults }
{
    let opened = open_extent(alloc, host, File::Tier0, items, extent)?;
    read_slot_pages(alloc, host, pool, &opened)
}

/// The pages of records that the directory of an extent names.
fn read_record_pages<H: Host>(
    alloc: Global,
    host: &mut H,
    pool: &mut PagePool,
    extent: &OpenExtent,
) -> Result<RecordPageList, OpenFault>
    requires { 0 < tier_of extent.now.file }
    ensures named { IfOk result (λ pages. H.honest
        → AreNamed (tier_of extent.now.file) (drop extent.now.start
        (contents (of extent.now.file (H.seen host.old).past)))
        extent.now.entries (map page_of_records pages)) }
    ensures damaged { IsErrOf result (OpenFault.Damaged 3) → H.honest
        → (pages : List ARecordPage)
        → ¬ AreNamed (tier_of extent.now.file) (drop extent.now.start
        (contents (of extent.now.file (H.seen host.old).past)))
        extent.now.entries (map page_of_records pages) }
    ensures faults { IfErr result IsExtentFault }
    ensures past { H.honest → (H.seen host.new).past ≡ (H.seen host.old).past }
    ensures cause { HasCause (H.seen host.old).disk_faults (H.seen host.new).disk_faults
        (IsErrOf result OpenFault.DiskFault) }
    ensures output { (H.seen host.new).tell_faults ≡ (H.seen host.old).tell_faults }
{
    let mut pages = RecordPageList::new(alloc);
    for index in 0..extent.entries() {
        let page = read_record_page(alloc, host, pool, extent, index)?;
        pages.push(page)?;
    }
    Ok(pages)
}

/// The pages of an extent of records.
fn read_records<H: Host>(
    alloc: Global,
    host: &mut H,
    pool: &mut PagePool,
    file: File,
    items: u32,
    extent: &Extent,
) -> Result<RecordPageList, OpenFault>
    requires tier { 4 < file_number file }
    requires items { items ≤ MOST_ITEMS }
    requires slot { HasSlot extent.now }
    ensures lies { IfOk result (λ pages. H.honest
        → LiesAs (tier_of file) items (contents (of file (H.seen host.old).past)) extent.now
        (map page_of_records pages)) }
    ensures damaged { IsErrOf result (OpenFault.Damaged 3) → H.honest
        → (pages : List ARecordPage)
        → ¬ LiesAs (tier_of file) items (contents (of file (H.seen host.old).past)) extent.now
        (map page_of_records pages) }
    ensures faults { IfErr result IsExtentFault }
    ensures past { H.honest → (H.seen host.new).past ≡ (H.seen host.old).past }
    ensures cause { HasCause (H.seen host.old).disk_faults (H.seen host.new).disk_faults
        (IsErrOf result OpenFault.DiskFault) }
    ensures output { (H.seen host.new).tell_faults ≡ (H.seen host.old).tell_faults }
{
    let opened = open_extent(alloc, host, file, items, extent)?;
    read_record_pages(alloc, host, pool, &opened)
}

/// The pages of the extents of tier 0.
fn read_points<H: Host>(
    alloc: Global,
    host: &mut H,
    pool: &mut PagePool,
    items: u32,
    extents: &[Extent],
) -> Result<ListOf<SlotPageList>, OpenFault>
    requires items { items ≤ MOST_ITEMS }
    requires slots { AllByRecursion HasSlot extents.now }
    ensures lie { IfOk result (λ kept. H.honest
        → Lie 0 items (contents (of File.Tier0 (H.seen host.old).past)) extents.now
        (map (map page_of_slots) kept)) }
    ensures damaged { IsErrOf result (OpenFault.Damaged 3) → H.honest
        → (kept : List (List ASlotPage))
        → ¬ Lie 0 items (contents (of File.Tier0 (H.seen host.old).past)) extents.now
        (map (map page_of_slots) kept) }
    ensures counted { IfOk result (λ kept. length kept ≡ length extents.now) }
    ensures faults { IfErr result IsExtentFault }
    ensures past { H.honest → (H.seen host.new).past ≡ (H.seen host.old).past }
    ensures cause { HasCause (H.seen host.old).disk_faults (H.seen host.new).disk_faults
        (IsErrOf result OpenFault.DiskFault) }
    ensures output { (H.seen host.new).tell_faults ≡ (H.seen host.old).tell_faults }
{
    let mut kept = ListOf::new(alloc);
    for extent in extents {
        let pages = read_slots(alloc, host, pool, items, extent)?;
        kept.push(pages)?;
    }
    Ok(kept)
}

/// The pages of the extents of another tier.
fn read_tier<H: Host>(
    alloc: Global,
    host: &mut H,
    pool: &mut PagePool,
    file: File,
    items: u32,
    extents: &[Extent],
) -> Result<ListOf<RecordPageList>, OpenFault>
    requires tier { 4 < file_number file }
    requires items { items ≤ MOST_ITEMS }
    requires slots { AllByRecursion HasSlot extents.now }
    ensures lie { IfOk result (λ kept. H.honest
        → Lie (tier_of file) items (contents (of file (H.seen host.old).past)) extents.now
        (map (map page_of_records) kept)) }
    ensures damaged { IsErrOf result (OpenFault.Damaged 3) → H.honest
        → (kept : List (List ARecordPage))
        → ¬ Lie (tier_of file) items (contents (of file (H.seen host.old).past)) extents.now
        (map (map page_of_records) kept) }
    ensures counted { IfOk result (λ kept. length kept ≡ length extents.now) }
    ensures faults { IfErr result IsExtentFault }
    ensures past { H.honest → (H.seen host.new).past ≡ (H.seen host.old).past }
    ensures cause { HasCause (H.seen host.old).disk_faults (H.seen host.new).disk_faults
        (IsErrOf result OpenFault.DiskFault) }
    ensures output { (H.seen host.new).tell_faults ≡ (H.seen host.old).tell_faults }
{
    let mut kept = ListOf::new(alloc);
    for extent in extents {
        let pages = read_records(alloc, host, pool, file, items, extent)?;
        kept.push(pages)?;
    }
    Ok(kept)
}

/// The pages of the kept extents of each tier, in the order in which the body names these.
#[derive(Debug, Drop)]
pub(crate) struct Kept {
    pub(crate) points: ListOf<SlotPageList>,
    pub(crate) minutes: ListOf<RecordPageList>,
    pub(crate) hours: ListOf<RecordPageList>,
}

/// The pages of the extents that a body names.
pub(crate) fn read_kept<H: Host>(
    alloc: Global,
    host: &mut H,
    body: &Body,
) -> Result<Kept, OpenFault>
    requires { HasSpelling body.now }
    ensures kept { IfOk result (λ kept. H.honest
        → AreKept body.now (pages_of kept) (reads_as (H.seen host.old).past)) }
    ensures damaged { IsErrOf result (OpenFault.Damaged 3) → H.honest → (kept : KeptPages)
        → ¬ AreKept body.now kept (reads_as (H.seen host.old).past) }
    ensures counted { IfOk result (λ kept. HasPagesOfEach body.now (pages_of kept)) }
    ensures faults { IfErr result IsExtentFault }
    ensures past { H.honest → (H.seen host.new).past ≡ (H.seen host.old).past }
    ensures cause { HasCause (H.seen host.old).disk_faults (H.seen host.new).disk_faults
        (IsErrOf result OpenFault.DiskFault) }
    ensures output { (H.seen host.new).tell_faults ≡ (H.seen host.old).tell_faults }
{
    if !has_own_slots(body) {
        return Err(OpenFault::Damaged(EXTENT_PART));
    }
    let mut pool = PagePool::new(alloc);
    let points = read_points(
        alloc,
        host,
        &mut pool,
        items_of(body, 0),
        body.points.extents.as_slice(),
    )?;
    let minutes = read_tier(
        alloc,
        host,
        &mut pool,
        File::Tier1,
        items_of(body, 1),
        body.minutes.extents.as_slice(),
    )?;
    let hours = read_tier(
        alloc,
        host,
        &mut pool,
        File::Tier2,
        items_of(body, 2),
        body.hours.extents.as_slice(),
    )?;
    Ok(Kept {
        points,
        minutes,
        hours,
    })
}
