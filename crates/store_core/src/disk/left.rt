//! What is left of a database whose disk is in form, whatever the pages of its extents hold.

ghost use Rattle.std.specs.Prelude.{◌≡◌, ◌⊎◌, ℕ, ◌<◌, ◌≤◌, length, None, IfOk, IfErr, IsErrOf, OnOk};
ghost use Rattle.std.specs.List.{AllByRecursion};
ghost use Rattle.host_model.specs.Images.{contents};
ghost use Rattle.host_model.specs.Past.{file_number, of};
ghost use Rattle.host_model.specs.Disks.{reads_as};
ghost use Rattle.host_model.specs.Cause.{HasCause};
ghost use Rattle.checkpoint.specs.Files.{checkpoint_in};
ghost use Rattle.checkpoint_body.specs.Body.{HasSpelling};
ghost use Rattle.extent_file.specs.Slot.{tier_of};
ghost use Rattle.tier_settings.specs.declared.limits.TheConstants.{MOST_ITEMS};
ghost use Rattle.store_core.specs.Damaged.{IsDamagedIn};
ghost use Rattle.store_core.specs.disk.Files.{IsReady};
ghost use Rattle.store_core.specs.disk.Formed.{AllFormed, AreFormed, HasFiles, IsFormed};
ghost use Rattle.store_core.specs.disk.Holds.{HasCheckpoint};
ghost use Rattle.store_core.specs.disk.Opening.{OnlySyncs};
ghost use Rattle.store_core.specs.Faults.{IsOpenFault};
ghost use Rattle.store_core.specs.disk.Reading.{HasSlot, IsExtentFault, IsPageFault};

use crate::disk::fault::EXTENT_PART;
use crate::disk::files::Files;
use crate::disk::opening::{Loaded, load_checkpoint, open_journal, settle_tiers};
use crate::disk::reading::{Kept, open_extent, read_record_page, read_slot_page};
use crate::disk::slots::has_own_slots;
use crate::disk::tier::items_of;
use crate::fault::OpenFault;
use checkpoint_body::{Body, Extent, RecordPage, RecordPageList, SlotPage, SlotPageList};
use extent_file::Extent as OpenExtent;
use fixed_num::ListOf;
use host_model::{File, Host};
use journal_core::RecordList;
use page_pool::PagePool;
use std::alloc::Global;

/// What is left of a database: its files, the body of its checkpoint, the pages that its extents
/// have, and the records of its journal.
#[derive(Debug, Drop)]
pub struct Left {
    /// The open files.
    pub files: Files,
    /// The body of the checkpoint.
    pub body: Body,
    /// The pages of the kept extents, less those whose bytes are no encoding.
    pub(crate) kept: Kept,
    /// The records of the journal, the earliest first.
    pub records: RecordList,
}

/// The page of points that an entry of a directory names: `None` where its bytes are none.
fn left_slot_page<H: Host>(
    alloc: Global,
    host: &mut H,
    pool: &mut PagePool,
    extent: &OpenExtent,
    index: u32,
) -> Result<Option<SlotPage>, OpenFault>
    requires tier { tier_of extent.now.file ≡ 0 }
    requires index { index < length extent.now.entries }
    ensures faults { IfErr result IsPageFault }
    ensures past { H.honest → (H.seen host.new).past ≡ (H.seen host.old).past }
    ensures cause { HasCause (H.seen host.old).disk_faults (H.seen host.new).disk_faults
        (IsErrOf result OpenFault.DiskFault) }
    ensures output { (H.seen host.new).tell_faults ≡ (H.seen host.old).tell_faults }
{
    match read_slot_page(alloc, host, pool, extent, index) {
        Ok(page) => Ok(Some(page)),
        Err(OpenFault::Damaged(_)) => Ok(None),
        Err(fault) => Err(fault),
    }
}

/// The page of records that an entry of a directory names: `None` where its bytes are none.
fn left_record_page<H: Host>(
    alloc: Global,
    host: &mut H,
    pool: &mut PagePool,
    extent: &OpenExtent,
    index: u32,
) -> Result<Option<RecordPage>, OpenFault>
    requires tier { 0 < tier_of extent.now.file }
    requires index { index < length extent.now.entries }
    ensures faults { IfErr result IsPageFault }
    ensures past { H.honest → (H.seen host.new).past ≡ (H.seen host.old).past }
    ensures cause { HasCause (H.seen host.old).disk_faults (H.seen host.new).disk_faults
        (IsErrOf result OpenFault.DiskFault) }
    ensures output { (H.seen host.new).tell_faults ≡ (H.seen host.old).tell_faults }
{
    match read_record_page(alloc, host, pool, extent, index) {
        Ok(page) => Ok(Some(page)),
        Err(OpenFault::Damaged(_)) => Ok(None),
        Err(fault) => Err(fault),
    }
}

/// The pages of points that an extent has.
fn left_slot_pages<H: Host>(
    alloc: Global,
    host: &mut H,
    pool: &mut PagePool,
    extent: &OpenExtent,
) -> Result<SlotPageList, OpenFault>
    requires { tier_of extent.now.file ≡ 0 }
    ensures faults { IfErr result IsPageFault }
    ensures past { H.honest → (H.seen host.new).past ≡ (H.seen host.old).past }
    ensures cause { HasCause (H.seen host.old).disk_faults (H.seen host.new).disk_faults
        (IsErrOf result OpenFault.DiskFault) }
    ensures output { (H.seen host.new).tell_faults ≡ (H.seen host.old).tell_faults }
{
    let mut pages = SlotPageList::new(alloc);
    for index in 0..extent.entries() {
        if let Some(page) = left_slot_page(alloc, host, pool, extent, index)? {
            pages.push(page)?;
        }
    }
    Ok(pages)
}

/// The pages of records that an extent has.
fn left_record_pages<H: Host>(
    alloc: Global,
    host: &mut H,
    pool: &mut PagePool,
    extent: &OpenExtent,
) -> Result<RecordPageList, OpenFault>
    requires { 0 < tier_of extent.now.file }
    ensures faults { IfErr result IsPageFault }
    ensures past { H.honest → (H.seen host.new).past ≡ (H.seen host.old).past }
    ensures cause { HasCause (H.seen host.old).disk_faults (H.seen host.new).disk_faults
        (IsErrOf result OpenFault.DiskFault) }
    ensures output { (H.seen host.new).tell_faults ≡ (H.seen host.old).tell_faults }
{
    let mut pages = RecordPageList::new(alloc);
    for index in 0..extent.entries() {
        if let Some(page) = left_record_page(alloc, host, pool, extent, index)? {
            pages.push(page)?;
        }
    }
    Ok(pages)
}

/// The pages of points that an extent in a slot of the file of tier 0 has.
fn left_slots<H: Host>(
    alloc: Global,
    host: &mut H,
    pool: &mut PagePool,
    items: u32,
    extent: &Extent,
) -> Result<SlotPageList, OpenFault>
    requires items { items ≤ MOST_ITEMS }
    requires slot { HasSlot extent.now }
    ensures formed { OnOk result (H.honest
        → IsFormed 0 items (contents (of File.Tier0 (H.seen host.old).past)) extent.now) }
    ensures damaged { IsErrOf result (OpenFault.Damaged 3) → H.honest
        → ¬ IsFormed 0 items (contents (of File.Tier0 (H.seen host.old).past)) extent.now }
    ensures faults { IfErr result IsExtentFault }
    ensures past { H.honest → (H.seen host.new).past ≡ (H.seen host.old).past }
    ensures cause { HasCause (H.seen host.old).disk_faults (H.seen host.new).disk_faults
        (IsErrOf result OpenFault.DiskFault) }
    ensures output { (H.seen host.new).tell_faults ≡ (H.seen host.old).tell_faults }
{
    let opened = open_extent(alloc, host, File::Tier0, items, extent)?;
    left_slot_pages(alloc, host, pool, &opened)
}

/// The pages of records that an extent in a slot of the file of another tier has.
fn left_records<H: Host>(
    alloc: Global,
    host: &mut H,
    pool: &mut PagePool,
    file: File,
    items: u32,
    extent: &Extent,
) -> Result<RecordPageList, OpenFault>
    requires tier { 4 < file_number file }
    requires items { items ≤ MOST_ITEMS }
    requires slot { HasSlot extent.now }
    ensures formed { OnOk result (H.honest
        → IsFormed (tier_of file) items (contents (of file (H.seen host.old).past)) extent.now) }
    ensures damaged { IsErrOf result (OpenFault.Damaged 3) → H.honest
        → ¬ IsFormed (tier_of file) items (contents (of file (H.seen host.old).past)) extent.now }
    ensures faults { IfErr result IsExtentFault }
    ensures past { H.honest → (H.seen host.new).past ≡ (H.seen host.old).past }
    ensures cause { HasCause (H.seen host.old).disk_faults (H.seen host.new).disk_faults
        (IsErrOf result OpenFault.DiskFault) }
    ensures output { (H.seen host.new).tell_faults ≡ (H.seen host.old).tell_faults }
{
    let opened = open_extent(alloc, host, file, items, extent)?;
    left_record_pages(alloc, host, pool, &opened)
}

/// The pages that the extents of tier 0 have.
fn left_points<H: Host>(
    alloc: Global,
    host: &mut H,
    pool: &mut PagePool,
    items: u32,
    extents: &[Extent],
) -> Result<ListOf<SlotPageList>, OpenFault>
    requires items { items ≤ MOST_ITEMS }
    requires slots { AllByRecursion HasSlot extents.now }
    ensures formed { OnOk result (H.honest
        → AllFormed 0 items (contents (of File.Tier0 (H.seen host.old).past)) extents.now) }
    ensures damaged { IsErrOf result (OpenFault.Damaged 3) → H.honest
        → ¬ AllFormed 0 items (contents (of File.Tier0 (H.seen host.old).past)) extents.now }
    ensures faults { IfErr result IsExtentFault }
    ensures past { H.honest → (H.seen host.new).past ≡ (H.seen host.old).past }
    ensures cause { HasCause (H.seen host.old).disk_faults (H.seen host.new).disk_faults
        (IsErrOf result OpenFault.DiskFault) }
    ensures output { (H.seen host.new).tell_faults ≡ (H.seen host.old).tell_faults }
{
    let mut kept = ListOf::new(alloc);
    for extent in extents {
        let pages = left_slots(alloc, host, pool, items, extent)?;
        kept.push(pages)?;
    }
    Ok(kept)
}

/// The pages that the extents of another tier have.
fn left_tier<H: Host>(
    alloc: Global,
    host: &mut H,
    pool: &mut PagePool,
    file: File,
    items: u32,
    extents: &[Extent],
) -> Result<ListOf<RecordPageList>, OpenFault>
    requires tier { 4 < file_number file }
    requires items { items ≤ MOST_ITEMS }
    requires slots { AllByRecursion HasSlot extents.now }
    ensures formed { OnOk result (H.honest
        → AllFormed (tier_of file) items (contents (of file (H.seen host.old).past)) extents.now) }
    ensures damaged { IsErrOf result (OpenFault.Damaged 3) → H.honest
        → ¬ AllFormed (tier_of file) items (contents (of file (H.seen host.old).past)) extents.now }
    ensures faults { IfErr result IsExtentFault }
    ensures past { H.honest → (H.seen host.new).past ≡ (H.seen host.old).past }
    ensures cause { HasCause (H.seen host.old).disk_faults (H.seen host.new).disk_faults
        (IsErrOf result OpenFault.DiskFault) }
    ensures output { (H.seen host.new).tell_faults ≡ (H.seen host.old).tell_faults }
{
    let mut kept = ListOf::new(alloc);
    for extent in extents {
        let pages = left_records(alloc, host, pool, file, items, extent)?;
        kept.push(pages)?;
    }
    Ok(kept)
}

/// The pages that the extents of a body have.
fn read_left<H: Host>(alloc: Global, host: &mut H, body: &Body) -> Result<Kept, OpenFault>
    requires { HasSpelling body.now }
    ensures formed { OnOk result (H.honest
        → AreFormed body.now (reads_as (H.seen host.old).past)) }
    ensures damaged { IsErrOf result (OpenFault.Damaged 3) → H.honest
        → ¬ AreFormed body.now (reads_as (H.seen host.old).past) }
    ensures faults { IfErr result IsExtentFault }
    ensures past { H.honest → (H.seen host.new).past ≡ (H.seen host.old).past }
    ensures cause { HasCause (H.seen host.old).disk_faults (H.seen host.new).disk_faults
        (IsErrOf result OpenFault.DiskFault) }
    ensures output { (H.seen host.new).tell_faults ≡ (H.seen host.old).tell_faults }
{
    if !has_own_slots(body) {
        return Err(OpenFault::Damaged(EXTENT_PART));
    }
    let mut pool = PagePool::new(alloc);
    let points = left_points(
        alloc,
        host,
        &mut pool,
        items_of(body, 0),
        body.points.extents.as_slice(),
    )?;
    let minutes = left_tier(
        alloc,
        host,
        &mut pool,
        File::Tier1,
        items_of(body, 1),
        body.minutes.extents.as_slice(),
    )?;
    let hours = left_tier(
        alloc,
        host,
        &mut pool,
        File::Tier2,
        items_of(body, 2),
        body.hours.extents.as_slice(),
    )?;
    Ok(Kept {
        points,
        minutes,
        hours,
    })
}

/// Loads the checkpoint that counts, and reads what is left in the extents that it names.
fn load_left<H: Host>(alloc: Global, host: &mut H) -> Result<Loaded, OpenFault>
    ensures loaded { IfOk result (λ found. H.honest
        → HasCheckpoint found.checkpoint.number found.checkpoint.body
        (reads_as (H.seen host.old).past)) }
    ensures spelt { IfOk result (λ found. HasSpelling found.checkpoint.body) }
    ensures formed { IfOk result (λ found. H.honest
        → AreFormed found.checkpoint.body (reads_as (H.seen host.old).past)) }
    ensures none { IsErrOf result OpenFault.NotADatabase → H.honest
        → checkpoint_in (reads_as (H.seen host.old).past) ≡ None }
    ensures damaged { (part : ℕ) → IsErrOf result (OpenFault.Damaged part) → H.honest
        → IsDamagedIn part (reads_as (H.seen host.old).past) }
    ensures faults { IfErr result IsOpenFault }
    ensures syncs { H.honest → OnlySyncs (H.seen host.old).past (H.seen host.new).past }
    ensures cause { HasCause (H.seen host.old).disk_faults (H.seen host.new).disk_faults
        (IsErrOf result OpenFault.DiskFault) }
    ensures output { (H.seen host.new).tell_faults ≡ (H.seen host.old).tell_faults }
{
    let checkpoint = load_checkpoint(alloc, host)?;
    settle_tiers(host)?;
    let kept = read_left(alloc, host, &checkpoint.body)?;
    Ok(Loaded { checkpoint, kept })
}

/// Opens the files of a database whose disk is in form, and reads what is left in its extents. It
/// syncs its files, and else only reads. `Damaged` has the first part that is not in form.
pub fn open_left<H: Host>(alloc: Global, host: &mut H) -> Result<Left, OpenFault>
    ensures formed { IfOk result (λ left. H.honest → HasFiles left.files.number left.body
        left.records (reads_as (H.seen host.old).past)) }
    ensures spelt { IfOk result (λ left. HasSpelling left.body) }
    ensures ready { IfOk result (λ left. IsReady H.honest (H.seen host.new).past left.files) }
    ensures none { IsErrOf result OpenFault.NotADatabase → H.honest
        → checkpoint_in (reads_as (H.seen host.old).past) ≡ None }
    ensures damaged { (part : ℕ) → IsErrOf result (OpenFault.Damaged part) → H.honest
        → IsDamagedIn part (reads_as (H.seen host.old).past) }
    ensures faults { IfErr result IsOpenFault }
    ensures syncs { H.honest → OnlySyncs (H.seen host.old).past (H.seen host.new).past }
    ensures cause { HasCause (H.seen host.old).disk_faults (H.seen host.new).disk_faults
        (IsErrOf result OpenFault.DiskFault) }
    ensures output { (H.seen host.new).tell_faults ≡ (H.seen host.old).tell_faults }
{
    let loaded = load_left(alloc, host)?;
    let opened = open_journal(alloc, host, loaded.checkpoint.number)?;
    Ok(Left {
        files: Files::new(loaded.checkpoint.number, opened.journal),
        body: loaded.checkpoint.body,
        kept: loaded.kept,
        records: opened.records,
    })
}
