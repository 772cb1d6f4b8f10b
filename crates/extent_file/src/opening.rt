ghost use Rattle.std.specs.Prelude.{◌≡◌, ◌+◌, ◌*◌, ◌-◌, ◌<◌, ◌≤◌, ℕ, List, [], length, take, drop, IsErr, IfOk, IsErrOf};
ghost use Rattle.host_model.specs.Images.{contents};
ghost use Rattle.host_model.specs.Past.{of};
ghost use Rattle.host_model.specs.Cause.{HasCause};
ghost use Rattle.tier_settings.specs.declared.limits.TheConstants.{MOST_EXTENTS, MOST_ITEMS};
ghost use Rattle.extent_file.specs.Form.{Form, Rest, Says, StopsAt, Leads};
ghost use Rattle.extent_file.specs.Slot.{IsTierFile, tier_of, item_size, slot_size, slot_start};
ghost use Rattle.extent_file.specs.Directory.{at_first, directory_form, extent_form, HasHead, IsBadAt, AreInOrder};
ghost use Rattle.extent_file.specs.declared.sizes.TheConstants.{SLOT_LIMIT, START_LIMIT};

use crate::directory::read_directory;
use crate::entry::Entry;
use crate::extent::Extent;
use crate::fault::ExtentFault;
use crate::head::read_head;
use crate::sizes::{ENTRY_SIZE, HEAD_SIZE, slot_size, slot_start, tier_of};
use fixed_num::{ByteList, ListOf};
use host_model::{Failed, File, Host};
use std::alloc::Global;

/// Fills `into` from a place on, as far as the file goes, and says how far.
pub(crate) fn read_prefix<H: Host>(
    host: &mut H,
    file: File,
    at: u64,
    into: &mut [u8],
) -> Result<usize, Failed>
    ensures size { IfOk result (λ n. n ≤ length into.old) }
    ensures prefix { IfOk result (λ n. H.honest → take n into.new
        ≡ take (length into.old) (drop at (contents (of file (H.seen host.old).past)))) }
    ensures past { H.honest → (H.seen host.new).past ≡ (H.seen host.old).past }
    ensures cause { HasCause (H.seen host.old).disk_faults (H.seen host.new).disk_faults
        (IsErr result) }
    ensures output { (H.seen host.new).tell_faults ≡ (H.seen host.old).tell_faults }
{
    host.read(file, at, into)
}

/// Up to so many bytes of a file from a place on.
fn read_bytes<H: Host>(
    alloc: Global,
    host: &mut H,
    file: File,
    at: u64,
    size: usize,
) -> Result<ByteList, ExtentFault>
    ensures prefix { IfOk result (λ read. H.honest
        → read ≡ take size (drop at (contents (of file (H.seen host.old).past)))) }
    ensures not_bad { (place : ℕ) → IsErrOf result (ExtentFault.BadExtent place) → ⊥ }
    ensures past { H.honest → (H.seen host.new).past ≡ (H.seen host.old).past }
    ensures cause { HasCause (H.seen host.old).disk_faults (H.seen host.new).disk_faults
        (IsErrOf result ExtentFault.DiskFault) }
    ensures output { (H.seen host.new).tell_faults ≡ (H.seen host.old).tell_faults }
{
    let Ok(mut seen) = vec![in alloc; 0_u8; size] else {
        return Err(ExtentFault::Memory);
    };
    let Ok(read) = host.read(file, at, &mut seen) else {
        return Err(ExtentFault::DiskFault);
    };
    seen.truncate(read);
    Ok(ByteList::from_vec(seen))
}

/// The number of pages that the head of an extent of this size says.
fn open_head<H: Host>(
    host: &mut H,
    file: File,
    start: u64,
    tier: u32,
    slot: u64,
    size: u64,
) -> Result<u32, ExtentFault>
    requires start { start ≤ START_LIMIT }
    requires slot { slot ≤ SLOT_LIMIT }
    ensures fits { IfOk result (λ pages. (HEAD_SIZE + pages * (ENTRY_SIZE + item_size tier) ≤ size)
        × (size ≤ slot)) }
    ensures leads { IfOk result (λ pages. H.honest → Leads (extent_form tier slot size)
        (drop start (contents (of file (H.seen host.old).past))) HEAD_SIZE
        (directory_form tier size pages (at_first pages) [])) }
    ensures bad { (place : ℕ) → IsErrOf result (ExtentFault.BadExtent place) → H.honest
        → (at : ℕ) × (place ≡ start + at) × StopsAt (extent_form tier slot size)
        (drop start (contents (of file (H.seen host.old).past))) at }
    ensures no_memory { IsErrOf result ExtentFault.Memory → ⊥ }
    ensures past { H.honest → (H.seen host.new).past ≡ (H.seen host.old).past }
    ensures cause { HasCause (H.seen host.old).disk_faults (H.seen host.new).disk_faults
        (IsErrOf result ExtentFault.DiskFault) }
    ensures output { (H.seen host.new).tell_faults ≡ (H.seen host.old).tell_faults }
{
    let mut seen = [0_u8; HEAD_SIZE];
    let Ok(read) = read_prefix(host, file, start, &mut seen) else {
        return Err(ExtentFault::DiskFault);
    };
    match read_head(&seen[..read], tier, slot, size) {
        Ok(pages) => Ok(pages),
        Err(place) => Err(ExtentFault::BadExtent(start + place as u64)),
    }
}

/// The directory of an extent of this size with so many pages.
fn open_directory<H: Host>(
    alloc: Global,
    host: &mut H,
    file: File,
    start: u64,
    tier: u32,
    size: u64,
    pages: u32,
) -> Result<ListOf<Entry>, ExtentFault>
    requires start { start ≤ START_LIMIT }
    requires size { size ≤ SLOT_LIMIT }
    requires fits { HEAD_SIZE + ENTRY_SIZE * pages ≤ size }
    ensures order { IfOk result (λ entries. AreInOrder tier (at_first pages) entries
        × (length entries ≡ pages)) }
    ensures whole { IfOk result (λ entries. H.honest → (form : Form)
        → Leads form (drop start (contents (of file (H.seen host.old).past))) HEAD_SIZE
        (directory_form tier size pages (at_first pages) [])
        → Leads form (drop start (contents (of file (H.seen host.old).past)))
        (HEAD_SIZE + ENTRY_SIZE * pages) (Rest (size - (HEAD_SIZE + ENTRY_SIZE * pages)) entries)) }
    ensures bad { (place : ℕ) → IsErrOf result (ExtentFault.BadExtent place) → H.honest
        → (form : Form)
        → Leads form (drop start (contents (of file (H.seen host.old).past))) HEAD_SIZE
        (directory_form tier size pages (at_first pages) [])
        → (at : ℕ) × (place ≡ start + at)
        × StopsAt form (drop start (contents (of file (H.seen host.old).past))) at }
    ensures past { H.honest → (H.seen host.new).past ≡ (H.seen host.old).past }
    ensures cause { HasCause (H.seen host.old).disk_faults (H.seen host.new).disk_faults
        (IsErrOf result ExtentFault.DiskFault) }
    ensures output { (H.seen host.new).tell_faults ≡ (H.seen host.old).tell_faults }
{
    let seen = read_bytes(
        alloc,
        host,
        file,
        start,
        HEAD_SIZE + ENTRY_SIZE * pages as usize,
    )?;
    if seen.len() < HEAD_SIZE {
        return Err(ExtentFault::BadExtent(start));
    }
    read_directory(alloc, seen.as_slice(), start, tier, size, pages)
}

impl Extent {
    /// Opens the extent of a length in a slot of a tier's file, where the tier's segments are sealed once
    /// they have `items` items, or more. It reads the head and the directory, and only reads. `BadExtent`
    /// exactly where the file has no extent of that length there. It has the first byte of the file at
    /// which the form, read field by field, does not go on, or the file's length where it ends before.
    /// `Memory` comes only behind the head: a head that is not in the form is always told.
    pub fn open<H: Host>(
        alloc: Global,
        host: &mut H,
        file: File,
        items: u32,
        slot: u32,
        bytes: u64,
    ) -> Result<Extent, ExtentFault>
        requires tier { IsTierFile file }
        requires items { items ≤ MOST_ITEMS }
        requires slot { slot ≤ MOST_EXTENTS }
        ensures place { IfOk result (λ extent. (extent.file ≡ file)
            × (extent.start ≡ slot_start (tier_of file) items slot)) }
        ensures opened { IfOk result (λ extent. H.honest
            → Says (extent_form (tier_of file) (slot_size (tier_of file) items) bytes)
            (drop (slot_start (tier_of file) items slot)
            (contents (of file (H.seen host.old).past))) extent.entries) }
        ensures bad { (place : ℕ) → IsErrOf result (ExtentFault.BadExtent place) → H.honest
            → IsBadAt (extent_form (tier_of file) (slot_size (tier_of file) items) bytes)
            (slot_start (tier_of file) items slot)
            (contents (of file (H.seen host.old).past)) place }

        // Memory is lacking only for a directory whose head stands there.
        ensures memory { IsErrOf result ExtentFault.Memory → H.honest
            → HasHead (tier_of file) (slot_size (tier_of file) items) bytes
            (drop (slot_start (tier_of file) items slot)
            (contents (of file (H.seen host.old).past))) }
        ensures past { H.honest → (H.seen host.new).past ≡ (H.seen host.old).past }
        ensures cause { HasCause (H.seen host.old).disk_faults (H.seen host.new).disk_faults
            (IsErrOf result ExtentFault.DiskFault) }
        ensures output { (H.seen host.new).tell_faults ≡ (H.seen host.old).tell_faults }
    {
        let tier = tier_of(file);
        let start = slot_start(tier, items, slot);
        let Ok(len) = host.len(file) else {
            return Err(ExtentFault::DiskFault);
        };
        if len < start {
            return Err(ExtentFault::BadExtent(len));
        }
        let pages = open_head(host, file, start, tier, slot_size(tier, items), bytes)?;
        let entries = open_directory(alloc, host, file, start, tier, bytes, pages)?;
        if len - start < bytes {
            return Err(ExtentFault::BadExtent(len));
        }
        Ok(Extent::of(file, start, entries))
    }
}
