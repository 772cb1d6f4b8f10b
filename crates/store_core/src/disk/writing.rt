//! Sealed segments are written into slots of their tier's file.

ghost use Rattle.std.specs.Prelude.{◌≡◌, ◌≢◌, ◌⊎◌, ℕ, ◌+◌, ◌≤◌, All, List, map, IfErr, IsErrOf, OnOk};
ghost use Rattle.host_model.specs.Images.{contents, greatest, IsSynced};
ghost use Rattle.host_model.specs.Past.{of};
ghost use Rattle.host_model.specs.Cause.{HasCause};
ghost use Rattle.host_model.specs.Moments.{Throughout, EveryImage, OnlyOn};
ghost use Rattle.extent_file.specs.Slot.{IsTierFile, slot_size, slot_start, tier_of};
ghost use Rattle.tier_settings.specs.declared.limits.TheConstants.{MOST_ITEMS};
ghost use Rattle.store_core.specs.disk.Next.{AreApart, IsWritable, Written};
ghost use Rattle.store_core.specs.disk.Shares.{EndWithin};
ghost use Rattle.store_core.specs.disk.Standing.{AllStand, AreBeside, StandsIn};

use crate::disk::fault::FilesFault;
use crate::disk::segment::Segment;
use extent_file::write_extent;
use host_model::{File, Host};
use std::alloc::Global;

/// Writes a segment into its slot of a synced file.
fn write_segment<H: Host, S: Segment>(
    alloc: Global,
    host: &mut H,
    file: File,
    items: u32,
    segment: &S,
) -> Result<(), FilesFault>
    requires tier { IsTierFile file }
    requires items { items ≤ MOST_ITEMS }
    requires writable { IsWritable (tier_of file) items (S.written segment.now) }
    requires stable { H.honest → IsSynced (of file (H.seen host.old).past) }
    ensures stays { H.honest → (others : List Written)
        → All (λ other. other.slot ≢ (S.written segment.now).slot) others
        → AllStand (tier_of file) items others (contents (of file (H.seen host.old).past))
        → Throughout (EveryImage file (AllStand (tier_of file) items others))
        (H.seen host.old).past (H.seen host.new).past }
    ensures held { OnOk result (H.honest → StandsIn (tier_of file) items
        (contents (of file (H.seen host.new).past)) (S.written segment.now)) }
    ensures synced { OnOk result (H.honest → IsSynced (of file (H.seen host.new).past)) }
    ensures bound { (size : ℕ) → slot_start (tier_of file) items (S.written segment.now).slot
        + slot_size (tier_of file) items ≤ size → H.honest
        → greatest (of file (H.seen host.old).past) ≤ size
        → Throughout (λ past. greatest (of file past) ≤ size) (H.seen host.old).past
        (H.seen host.new).past }
    ensures only_here { H.honest → OnlyOn file (H.seen host.old).past (H.seen host.new).past }
    ensures cause { HasCause (H.seen host.old).disk_faults (H.seen host.new).disk_faults
        (IsErrOf result FilesFault.DiskFault) }
    ensures output { (H.seen host.new).tell_faults ≡ (H.seen host.old).tell_faults }
{
    let pages = segment.pages(alloc)?;
    write_extent(alloc, host, file, items, segment.slot(), &pages)?;
    Ok(())
}

/// Writes segments into their slots of a tier's file, and syncs it. At every moment what stands in
/// other slots stays.
pub(crate) fn write_segments<H: Host, S: Segment>(
    alloc: Global,
    host: &mut H,
    file: File,
    items: u32,
    segments: &[S],
) -> Result<(), FilesFault>
    requires tier { IsTierFile file }
    requires items { items ≤ MOST_ITEMS }
    requires writable { All (IsWritable (tier_of file) items) (map S.written segments.now) }
    requires apart { AreApart (map S.written segments.now) }
    ensures stays { H.honest → (others : List Written)
        → AreBeside others (map S.written segments.now)
        → EveryImage file (AllStand (tier_of file) items others) (H.seen host.old).past
        → Throughout (EveryImage file (AllStand (tier_of file) items others))
        (H.seen host.old).past (H.seen host.new).past }
    ensures held { OnOk result (H.honest → EveryImage file
        (AllStand (tier_of file) items (map S.written segments.now)) (H.seen host.new).past) }
    ensures bound { (size : ℕ)
        → EndWithin (tier_of file) items size (map S.written segments.now) → H.honest
        → greatest (of file (H.seen host.old).past) ≤ size
        → Throughout (λ past. greatest (of file past) ≤ size) (H.seen host.old).past
        (H.seen host.new).past }
    ensures only_here { H.honest → OnlyOn file (H.seen host.old).past (H.seen host.new).past }
    ensures cause { HasCause (H.seen host.old).disk_faults (H.seen host.new).disk_faults
        (IsErrOf result FilesFault.DiskFault) }
    ensures output { (H.seen host.new).tell_faults ≡ (H.seen host.old).tell_faults }
{
    host.sync(file)?;
    for segment in segments {
        write_segment(alloc, host, file, items, segment)?;
    }
    Ok(())
}
