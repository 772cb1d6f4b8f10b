ghost use Rattle.std.specs.Prelude.{◌≡◌, ℕ, ◌+◌, ◌<◌, ◌≤◌, ◌++◌, length, take, IsErr, OnOk};
ghost use Rattle.host_model.specs.Images.{contents, greatest, IsSynced};
ghost use Rattle.host_model.specs.Past.{of};
ghost use Rattle.host_model.specs.Cause.{HasCause};
ghost use Rattle.host_model.specs.Moments.{Throughout, EveryImage, OnlyOn};
ghost use Rattle.checkpoint.specs.Switching.{KeepsGate};

use crate::head::HEAD;
use host_model::{Failed, File, Host};

/// Writes the head and the body behind a gate, cuts the file to its end, and syncs it.
pub(crate) fn write_rest<H: Host>(
    host: &mut H,
    file: File,
    head: [u8; 16],
    body: &[u8],
) -> Result<(), Failed>
    requires stable { H.honest → IsSynced (of file (H.seen host.old).past) }
    requires inside { H.honest → 0 < length (contents (of file (H.seen host.old).past)) }
    ensures whole { OnOk result (H.honest → contents (of file (H.seen host.new).past)
        ≡ take 1 (contents (of file (H.seen host.old).past)) ++ (head ++ body.now)) }
    ensures synced { OnOk result (H.honest → IsSynced (of file (H.seen host.new).past)) }
    ensures any_moment { H.honest
        → Throughout (EveryImage file (KeepsGate (contents (of file (H.seen host.old).past))))
        (H.seen host.old).past (H.seen host.new).past }
    ensures bound { (size : ℕ) → HEAD + length body.now ≤ size → H.honest
        → greatest (of file (H.seen host.old).past) ≤ size
        → Throughout (λ past. greatest (of file past) ≤ size) (H.seen host.old).past
        (H.seen host.new).past }
    ensures only_here { H.honest → OnlyOn file (H.seen host.old).past (H.seen host.new).past }
    ensures cause { HasCause (H.seen host.old).disk_faults (H.seen host.new).disk_faults
        (IsErr result) }
    ensures output { (H.seen host.new).tell_faults ≡ (H.seen host.old).tell_faults }
    ensures reads { (H.seen host.new).reads ≡ (H.seen host.old).reads }
{
    host.write_at(file, 1, &head)?;
    host.write_at(file, HEAD as u64, body)?;
    host.cut(file, HEAD as u64 + body.len() as u64)?;
    host.sync(file)
}
