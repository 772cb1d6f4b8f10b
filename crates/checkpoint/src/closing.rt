ghost use Rattle.std.specs.Prelude.{◌≡◌, ◌≢◌, ℕ, ◌<◌, ◌≤◌, ◌↔◌, length, slice_index, IsTrue, IfOk, IsErr, OnOk};
ghost use Rattle.host_model.specs.Images.{contents, greatest, IsSynced};
ghost use Rattle.host_model.specs.Past.{of};
ghost use Rattle.host_model.specs.Cause.{HasCause};
ghost use Rattle.host_model.specs.Moments.{Throughout, EveryImage, OnlyOn};
ghost use Rattle.checkpoint.specs.Switching.{IsSameOrShut};

use crate::gate::set_gate;
use crate::head::HEAD;
use host_model::{Failed, File, Host};

/// Cuts a file to nothing and leaves one closed gate in it. Its caller's file is too short for a head.
fn begin<H: Host>(host: &mut H, file: File) -> Result<(), Failed>
    ensures closed { OnOk result
        (H.honest → (length (contents (of file (H.seen host.new).past)) ≡ 1)
        × (slice_index (contents (of file (H.seen host.new).past)) 0 ≡ 0)) }
    ensures synced { OnOk result (H.honest → IsSynced (of file (H.seen host.new).past)) }
    ensures bound { (size : ℕ) → 1 ≤ size → H.honest
        → greatest (of file (H.seen host.old).past) ≤ size
        → Throughout (λ past. greatest (of file past) ≤ size) (H.seen host.old).past
        (H.seen host.new).past }
    ensures only_here { H.honest → OnlyOn file (H.seen host.old).past (H.seen host.new).past }
    ensures cause { HasCause (H.seen host.old).disk_faults (H.seen host.new).disk_faults
        (IsErr result) }
    ensures output { (H.seen host.new).tell_faults ≡ (H.seen host.old).tell_faults }
    ensures reads { (H.seen host.new).reads ≡ (H.seen host.old).reads }
{
    host.cut(file, 0)?;
    host.write_at(file, 0, &[0])?;
    host.sync(file)
}

/// Whether the first byte of a file is 1.
fn is_gate_open<H: Host>(host: &mut H, file: File) -> Result<bool, Failed>
    requires { H.honest → 0 < length (contents (of file (H.seen host.old).past)) }
    ensures value { IfOk result (λ said. H.honest
        → (IsTrue said ↔ (slice_index (contents (of file (H.seen host.old).past)) 0 ≡ 1))) }
    ensures past { H.honest → (H.seen host.new).past ≡ (H.seen host.old).past }
    ensures cause { HasCause (H.seen host.old).disk_faults (H.seen host.new).disk_faults
        (IsErr result) }
    ensures output { (H.seen host.new).tell_faults ≡ (H.seen host.old).tell_faults }
{
    let mut gate = [0];
    host.read(file, 0, &mut gate)?;
    Ok(gate[0] == 1)
}

/// Closes the gate of a synced file that has all that belongs to a head.
fn close_open<H: Host>(host: &mut H, file: File) -> Result<(), Failed>
    requires stable { H.honest → IsSynced (of file (H.seen host.old).past) }
    requires inside { H.honest → HEAD ≤ length (contents (of file (H.seen host.old).past)) }
    ensures closed { OnOk result
        (H.honest → slice_index (contents (of file (H.seen host.new).past)) 0 ≢ 1) }
    ensures reaches { OnOk result
        (H.honest → 0 < length (contents (of file (H.seen host.new).past))) }
    ensures synced { OnOk result (H.honest → IsSynced (of file (H.seen host.new).past)) }
    ensures any_moment { H.honest
        → Throughout (EveryImage file (IsSameOrShut (of file (H.seen host.old).past)))
        (H.seen host.old).past (H.seen host.new).past }
    ensures bound { (size : ℕ) → 1 ≤ size → H.honest
        → greatest (of file (H.seen host.old).past) ≤ size
        → Throughout (λ past. greatest (of file past) ≤ size) (H.seen host.old).past
        (H.seen host.new).past }
    ensures only_here { H.honest → OnlyOn file (H.seen host.old).past (H.seen host.new).past }
    ensures cause { HasCause (H.seen host.old).disk_faults (H.seen host.new).disk_faults
        (IsErr result) }
    ensures output { (H.seen host.new).tell_faults ≡ (H.seen host.old).tell_faults }
{
    let is_open = is_gate_open(host, file)?;
    if is_open {
        return set_gate(host, file, 0);
    }
    Ok(())
}

/// Closes the gate of a file, whatever it holds: it then has a gate, and that is closed.
pub(crate) fn close_gate<H: Host>(host: &mut H, file: File) -> Result<(), Failed>
    ensures closed { OnOk result
        (H.honest → slice_index (contents (of file (H.seen host.new).past)) 0 ≢ 1) }
    ensures reaches { OnOk result
        (H.honest → 0 < length (contents (of file (H.seen host.new).past))) }
    ensures synced { OnOk result (H.honest → IsSynced (of file (H.seen host.new).past)) }
    ensures any_moment { H.honest
        → Throughout (EveryImage file (IsSameOrShut (of file (H.seen host.old).past)))
        (H.seen host.old).past (H.seen host.new).past }
    ensures bound { (size : ℕ) → 1 ≤ size → H.honest
        → greatest (of file (H.seen host.old).past) ≤ size
        → Throughout (λ past. greatest (of file past) ≤ size) (H.seen host.old).past
        (H.seen host.new).past }
    ensures only_here { H.honest → OnlyOn file (H.seen host.old).past (H.seen host.new).past }
    ensures cause { HasCause (H.seen host.old).disk_faults (H.seen host.new).disk_faults
        (IsErr result) }
    ensures output { (H.seen host.new).tell_faults ≡ (H.seen host.old).tell_faults }
{
    host.sync(file)?;
    let len = host.len(file)?;
    if len < HEAD as u64 {
        return begin(host, file);
    }
    close_open(host, file)
}
