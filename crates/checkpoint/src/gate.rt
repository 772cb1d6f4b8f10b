ghost use Rattle.std.specs.Prelude.{◌≡◌, ℕ, ◌<◌, ◌≤◌, [], ◌∷◌, length, IsErr, OnOk};
ghost use Rattle.host_model.specs.Images.{contents, written, greatest, IsSynced};
ghost use Rattle.host_model.specs.Past.{of};
ghost use Rattle.host_model.specs.Cause.{HasCause};
ghost use Rattle.host_model.specs.Moments.{Throughout, EveryImage, OnlyOn};
ghost use Rattle.checkpoint.specs.Switching.{KeepsBehindGate};

use host_model::{Failed, File, Host};

/// Writes a gate, and syncs it.
pub(crate) fn set_gate<H: Host>(host: &mut H, file: File, gate: u8) -> Result<(), Failed>
    requires stable { H.honest → IsSynced (of file (H.seen host.old).past) }
    requires inside { H.honest → 0 < length (contents (of file (H.seen host.old).past)) }
    ensures set { OnOk result (H.honest → contents (of file (H.seen host.new).past)
        ≡ written (contents (of file (H.seen host.old).past)) 0 (gate ∷ [])) }
    ensures synced { OnOk result (H.honest → IsSynced (of file (H.seen host.new).past)) }
    ensures any_moment { H.honest
        → Throughout (EveryImage file (KeepsBehindGate (contents (of file (H.seen host.old).past))))
        (H.seen host.old).past (H.seen host.new).past }
    ensures bound { (size : ℕ) → 1 ≤ size → H.honest
        → greatest (of file (H.seen host.old).past) ≤ size
        → Throughout (λ past. greatest (of file past) ≤ size) (H.seen host.old).past
        (H.seen host.new).past }
    ensures only_here { H.honest → OnlyOn file (H.seen host.old).past (H.seen host.new).past }
    ensures cause { HasCause (H.seen host.old).disk_faults (H.seen host.new).disk_faults
        (IsErr result) }
    ensures output { (H.seen host.new).tell_faults ≡ (H.seen host.old).tell_faults }
    ensures reads { (H.seen host.new).reads ≡ (H.seen host.old).reads }
{
    host.write_at(file, 0, &[gate])?;
    host.sync(file)
}
