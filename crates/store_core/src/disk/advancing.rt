//! The segments that the next checkpoint is to name are written, tier by tier.

ghost use Rattle.std.specs.Prelude.{◌≡◌, ◌⊎◌, ℕ, IfErr, IsErrOf, OnOk};
ghost use Rattle.host_model.specs.declared.file.File.{File as AFile};
ghost use Rattle.host_model.specs.Disks.{EveryDisk};
ghost use Rattle.host_model.specs.Cause.{HasCause};
ghost use Rattle.host_model.specs.Moments.{Throughout};
ghost use Rattle.checkpoint_body.specs.Body.{HasSpelling};
ghost use Rattle.store_core.specs.disk.Advancing.{OnlyTiers};
ghost use Rattle.store_core.specs.disk.Contents.{Contents, KeptPages};
ghost use Rattle.store_core.specs.disk.Holds.{AreKept, Holds};
ghost use Rattle.store_core.specs.disk.Next.{AreWritable, IsNext};
ghost use Rattle.store_core.specs.disk.Shares.{HasSlotRoom, IsWithin};

use crate::disk::fault::FilesFault;
use crate::disk::sealed::Sealed;
use crate::disk::tier::items_of;
use crate::disk::writing::write_segments;
use checkpoint_body::Body;
use host_model::{File, Host};
use std::alloc::Global;

/// Writes the segments that were sealed into their slots. At every moment what the open checkpoint
/// holds stays.
pub(crate) fn write_sealed<H: Host>(
    alloc: Global,
    host: &mut H,
    body: &Body,
    sealed: &Sealed,
) -> Result<(), FilesFault>
    requires spelt { HasSpelling body.now }
    requires writable { AreWritable body.now sealed.now }
    ensures any_moment { H.honest → (contents : Contents) (kept : KeptPages)
        → EveryDisk (Holds contents) (H.seen host.old).past
        → IsNext contents sealed.now body.now kept
        → Throughout (EveryDisk (Holds contents)) (H.seen host.old).past (H.seen host.new).past }
    ensures written { OnOk result (H.honest → (contents : Contents) (kept : KeptPages)
        → EveryDisk (Holds contents) (H.seen host.old).past
        → IsNext contents sealed.now body.now kept
        → EveryDisk (AreKept body.now kept) (H.seen host.new).past) }
    ensures bound { (shares : AFile → ℕ) → HasSlotRoom shares body.now sealed.now
        → H.honest → IsWithin shares (H.seen host.old).past
        → Throughout (IsWithin shares) (H.seen host.old).past (H.seen host.new).past }
    ensures only_here { H.honest → OnlyTiers (H.seen host.old).past (H.seen host.new).past }
    ensures cause { HasCause (H.seen host.old).disk_faults (H.seen host.new).disk_faults
        (IsErrOf result FilesFault.DiskFault) }
    ensures output { (H.seen host.new).tell_faults ≡ (H.seen host.old).tell_faults }
{
    let points = items_of(body, 0);
    let minutes = items_of(body, 1);
    let hours = items_of(body, 2);
    write_segments(alloc, host, File::Tier0, points, sealed.points.as_slice())?;
    write_segments(alloc, host, File::Tier1, minutes, sealed.minutes.as_slice())?;
    write_segments(alloc, host, File::Tier2, hours, sealed.hours.as_slice())?;
    Ok(())
}
