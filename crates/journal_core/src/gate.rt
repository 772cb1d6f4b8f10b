ghost use Rattle.std.specs.Prelude.{◌≡◌, ℕ, ◌<◌, ◌≤◌, [], ◌∷◌, length, IsErr, OnOk};
ghost use Rattle.host_model.specs.Images.{contents, greatest, written, IsSynced};
ghost use Rattle.host_model.specs.Past.{of};
ghost use Rattle.host_model.specs.Cause.{HasCause};
ghost use Rattle.host_model.specs.Moments.{Throughout, EveryImage, OnlyOn};
ghost use Rattle.journal_core.specs.Store.{KeepsBeside};

use host_model::{Failed, File, Host};

/// Opens a gate, and syncs it.
pub(crate) fn open_gate<H: Host>(host: &mut H, file: File, gate: u64) -> Result<(), Failed>
    requires stable { H.honest → IsSynced (of file (H.seen host.old).past) }
    requires inside { H.honest → gate < length (contents (of file (H.seen host.old).past)) }
    ensures opened { OnOk result (H.honest → contents (of file (H.seen host.new).past)
        ≡ written (contents (of file (H.seen host.old).past)) gate (1 ∷ [])) }
    ensures synced { OnOk result (H.honest → IsSynced (of file (H.seen host.new).past)) }
    ensures any_moment { H.honest
        → Throughout (EveryImage file
        (KeepsBeside gate (contents (of file (H.seen host.old).past))))
        (H.seen host.old).past (H.seen host.new).past }
    ensures bound { (size : ℕ) → gate < size → H.honest
        → greatest (of file (H.seen host.old).past) ≤ size
        → Throughout (λ past. greatest (of file past) ≤ size) (H.seen host.old).past
        (H.seen host.new).past }
    ensures only_here { H.honest → OnlyOn file (H.seen host.old).past (H.seen host.new).past }
    ensures cause { HasCause (H.seen host.old).disk_faults (H.seen host.new).disk_faults
        (IsErr result) }
    ensures output { (H.seen host.new).tell_faults ≡ (H.seen host.old).tell_faults }
    ensures reads { (H.seen host.new).reads ≡ (H.seen host.old).reads }
{
    host.write_at(file, gate, &[1])?;
    host.sync(file)
}
