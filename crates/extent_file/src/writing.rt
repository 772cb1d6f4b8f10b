ghost use Rattle.std.specs.Prelude.{◌≡◌, ◌≢◌, ◌⊎◌, ℕ, ◌+◌, ◌≤◌, ◌<◌, ◌^◌, List, ◌++◌, length, take, drop, IsErr, IfOk, IsErrOf, OnOk};
ghost use Rattle.host_model.specs.Images.{contents, written, greatest, IsSynced};
ghost use Rattle.host_model.specs.Past.{of};
ghost use Rattle.host_model.specs.Cause.{HasCause};
ghost use Rattle.host_model.specs.Moments.{Throughout, EveryImage, OnlyOn};
ghost use Rattle.tier_settings.specs.declared.limits.TheConstants.{MOST_EXTENTS, MOST_ITEMS};
ghost use Rattle.extent_file.specs.Slot.{IsTierFile, tier_of, slot_size, slot_start};
ghost use Rattle.extent_file.specs.Directory.{at_first};
ghost use Rattle.extent_file.specs.Pages.{ArePages, IsExtentOf, extent_size};
ghost use Rattle.extent_file.specs.Writing.{LiesAt, KeepsAll, KeepsBeside, filled_to};

use crate::encoding::encode;
use crate::fault::WriteFault;
use crate::page::PageList;
use crate::sizes::{slot_size, slot_start, tier_of};
use host_model::{Failed, File, Host};
use std::alloc::Global;

/// How many zeros are written at once, at most.
const CHUNK: usize = 4_096;

/// Writes zeros at the end of a file until it has so many bytes.
fn write_zeros<H: Host>(host: &mut H, file: File, len: u64, end: u64) -> Result<(), Failed>
    requires stable { H.honest → IsSynced (of file (H.seen host.old).past) }
    requires len { H.honest → len ≡ length (contents (of file (H.seen host.old).past)) }
    ensures zeros { OnOk result (H.honest → contents (of file (H.seen host.new).past)
        ≡ filled_to end (contents (of file (H.seen host.old).past))) }
    ensures any_moment { H.honest
        → Throughout (EveryImage file (KeepsAll (contents (of file (H.seen host.old).past))))
        (H.seen host.old).past (H.seen host.new).past }
    ensures bound { (size : ℕ) → end ≤ size → H.honest
        → greatest (of file (H.seen host.old).past) ≤ size
        → Throughout (λ past. greatest (of file past) ≤ size) (H.seen host.old).past
        (H.seen host.new).past }
    ensures only_here { H.honest → OnlyOn file (H.seen host.old).past (H.seen host.new).past }
    ensures cause { HasCause (H.seen host.old).disk_faults (H.seen host.new).disk_faults
        (IsErr result) }
    ensures output { (H.seen host.new).tell_faults ≡ (H.seen host.old).tell_faults }
{
    let zeros = [0_u8; CHUNK];
    let mut at = len;
    while at < end {
        let size = (end - at).min(CHUNK as u64);
        host.write_at(file, at, &zeros[..size as usize])?;
        at += size;
    }
    Ok(())
}

/// Sees that a file has so many bytes, by zeros at its end, and syncs it. At every moment all that stood in
/// the file stays.
fn fill_to<H: Host>(host: &mut H, file: File, end: u64) -> Result<(), Failed>
    ensures zeros { OnOk result (H.honest → contents (of file (H.seen host.new).past)
        ≡ filled_to end (contents (of file (H.seen host.old).past))) }
    ensures synced { OnOk result (H.honest → IsSynced (of file (H.seen host.new).past)) }
    ensures any_moment { (place : ℕ) (lies : List ℕ) → H.honest
        → EveryImage file (LiesAt place lies) (H.seen host.old).past
        → Throughout (EveryImage file (LiesAt place lies)) (H.seen host.old).past
        (H.seen host.new).past }
    ensures bound { (size : ℕ) → end ≤ size → H.honest
        → greatest (of file (H.seen host.old).past) ≤ size
        → Throughout (λ past. greatest (of file past) ≤ size) (H.seen host.old).past
        (H.seen host.new).past }
    ensures only_here { H.honest → OnlyOn file (H.seen host.old).past (H.seen host.new).past }
    ensures cause { HasCause (H.seen host.old).disk_faults (H.seen host.new).disk_faults
        (IsErr result) }
    ensures output { (H.seen host.new).tell_faults ≡ (H.seen host.old).tell_faults }
{
    host.sync(file)?;
    let len = host.len(file)?;
    write_zeros(host, file, len, end)?;
    host.sync(file)
}

/// Writes bytes at a place of a synced file, and syncs it.
fn write_over<H: Host>(host: &mut H, file: File, at: u64, bytes: &[u8]) -> Result<(), Failed>
    requires stable { H.honest → IsSynced (of file (H.seen host.old).past) }
    requires inside { H.honest → at ≤ length (contents (of file (H.seen host.old).past)) }
    ensures whole { OnOk result (H.honest → contents (of file (H.seen host.new).past)
        ≡ written (contents (of file (H.seen host.old).past)) at bytes.now) }
    ensures synced { OnOk result (H.honest → IsSynced (of file (H.seen host.new).past)) }
    ensures any_moment { H.honest → Throughout
        (EveryImage file (KeepsBeside at (at + length bytes.now)
        (contents (of file (H.seen host.old).past))))
        (H.seen host.old).past (H.seen host.new).past }
    ensures bound { (size : ℕ) → at + length bytes.now ≤ size → H.honest
        → greatest (of file (H.seen host.old).past) ≤ size
        → Throughout (λ past. greatest (of file past) ≤ size) (H.seen host.old).past
        (H.seen host.new).past }
    ensures only_here { H.honest → OnlyOn file (H.seen host.old).past (H.seen host.new).past }
    ensures cause { HasCause (H.seen host.old).disk_faults (H.seen host.new).disk_faults
        (IsErr result) }
    ensures output { (H.seen host.new).tell_faults ≡ (H.seen host.old).tell_faults }
{
    host.write_at(file, at, bytes)?;
    host.sync(file)
}

/// Writes bytes at a place of a file, where it may end before that, and syncs it. At every moment all that
/// stood in the file beside those places stays.
fn put<H: Host>(host: &mut H, file: File, at: u64, bytes: &[u8]) -> Result<(), Failed>
    ensures whole { OnOk result (H.honest → (rest : List ℕ)
        × (drop at (contents (of file (H.seen host.new).past)) ≡ bytes.now ++ rest)) }
    ensures zeros { OnOk result (H.honest → take at (contents (of file (H.seen host.new).past))
        ≡ take at (filled_to at (contents (of file (H.seen host.old).past)))) }
    ensures synced { OnOk result (H.honest → IsSynced (of file (H.seen host.new).past)) }
    ensures any_moment { (place : ℕ) (lies : List ℕ)
        → ((place + length lies ≤ at) ⊎ (at + length bytes.now ≤ place)) → H.honest
        → EveryImage file (LiesAt place lies) (H.seen host.old).past
        → Throughout (EveryImage file (LiesAt place lies)) (H.seen host.old).past
        (H.seen host.new).past }
    ensures bound { (size : ℕ) → at + length bytes.now ≤ size → H.honest
        → greatest (of file (H.seen host.old).past) ≤ size
        → Throughout (λ past. greatest (of file past) ≤ size) (H.seen host.old).past
        (H.seen host.new).past }
    ensures only_here { H.honest → OnlyOn file (H.seen host.old).past (H.seen host.new).past }
    ensures cause { HasCause (H.seen host.old).disk_faults (H.seen host.new).disk_faults
        (IsErr result) }
    ensures output { (H.seen host.new).tell_faults ≡ (H.seen host.old).tell_faults }
{
    fill_to(host, file, at)?;
    write_over(host, file, at, bytes)
}

/// Writes the extent of pages into a slot of a tier's file, where the tier's segments are sealed once they
/// have `items` items, or more, and gives its length. The pages are in order, and the extent fits its slot.
/// Where the file ends before the slot, zeros are written up to it. At `Ok` it is synced. At every moment
/// the extents in the other slots stay. After `DiskFault` anything may stand in the slot; after `Memory`
/// nothing happened.
pub fn write_extent<H: Host>(
    alloc: Global,
    host: &mut H,
    file: File,
    items: u32,
    slot: u32,
    pages: &PageList,
) -> Result<u64, WriteFault>
    requires tier { IsTierFile file }
    requires items { items ≤ MOST_ITEMS }
    requires slot { slot ≤ MOST_EXTENTS }
    requires pages { ArePages (tier_of file) (at_first (length pages.now)) pages.now }
    requires fits { extent_size (tier_of file) pages.now ≤ slot_size (tier_of file) items }
    ensures size { IfOk result (λ size. size ≡ extent_size (tier_of file) pages.now) }

    // Each crash leaves the extent of the pages in the slot.
    ensures held { OnOk result (H.honest → EveryImage file
        (λ bytes. IsExtentOf (tier_of file) (slot_size (tier_of file) items) pages.now
        (drop (slot_start (tier_of file) items slot) bytes)) (H.seen host.new).past) }
    ensures synced { OnOk result (H.honest → IsSynced (of file (H.seen host.new).past)) }

    // Up to the slot the file reads as it did, with zeros where it ended before.
    ensures zeros { OnOk result (H.honest
        → take (slot_start (tier_of file) items slot) (contents (of file (H.seen host.new).past))
        ≡ take (slot_start (tier_of file) items slot)
        (filled_to (slot_start (tier_of file) items slot)
        (contents (of file (H.seen host.old).past)))) }

    // At every moment each crash leaves what stood in another slot.
    ensures others { (other : ℕ) (lies : List ℕ) → other ≢ slot
        → length lies ≤ slot_size (tier_of file) items → H.honest
        → EveryImage file (LiesAt (slot_start (tier_of file) items other) lies)
        (H.seen host.old).past
        → Throughout (EveryImage file (LiesAt (slot_start (tier_of file) items other) lies))
        (H.seen host.old).past (H.seen host.new).past }

    // No crash leaves a file that is longer than it could be before, or than the slot's end.
    ensures bound { (size : ℕ)
        → slot_start (tier_of file) items slot + slot_size (tier_of file) items ≤ size → H.honest
        → greatest (of file (H.seen host.old).past) ≤ size
        → Throughout (λ past. greatest (of file past) ≤ size) (H.seen host.old).past
        (H.seen host.new).past }

    // The images of all other files and the output stay.
    ensures only_here { H.honest → OnlyOn file (H.seen host.old).past (H.seen host.new).past }
    ensures memory { IsErrOf result WriteFault.Memory → H.honest
        → (H.seen host.new).past ≡ (H.seen host.old).past }
    ensures cause { HasCause (H.seen host.old).disk_faults (H.seen host.new).disk_faults
        (IsErrOf result WriteFault.DiskFault) }
    ensures output { (H.seen host.new).tell_faults ≡ (H.seen host.old).tell_faults }
{
    let tier = tier_of(file);
    let bytes = encode(alloc, tier, slot_size(tier, items), pages.as_slice())?;
    let start = slot_start(tier, items, slot);
    if put(host, file, start, bytes.as_slice()).is_err() {
        return Err(WriteFault::DiskFault);
    }
    Ok(bytes.len() as u64)
}
