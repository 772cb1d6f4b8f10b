ghost use Rattle.std.specs.Prelude.{◌≡◌, ℕ, ◌+◌, ◌≤◌, ◌∷◌, ◌++◌, length, Option, IsErr, OnOk};
ghost use Rattle.host_model.specs.Images.{contents, greatest, IsSynced};
ghost use Rattle.host_model.specs.Past.{of};
ghost use Rattle.host_model.specs.Disks.{EveryDisk};
ghost use Rattle.host_model.specs.Cause.{HasCause};
ghost use Rattle.host_model.specs.Moments.{Throughout, EveryImage, OnlyOn};
ghost use Rattle.checkpoint.specs.declared.head.TheConstants.{HEAD};
ghost use Rattle.checkpoint.specs.Form.{slot_bytes};
ghost use Rattle.checkpoint.specs.Files.{Slot, new_slot, slot_file, checkpoint_in, IsNext, HasOldOrNew};
ghost use Rattle.checkpoint.specs.Switching.{IsReplacing};

use crate::closing::close_gate;
use crate::gate::set_gate;
use crate::head::{head_bytes, slot_file_of};
use crate::rest::write_rest;
use host_model::{Failed, File, Host};

/// Makes a body the checkpoint of this number, which is one above that of the checkpoint that is there,
/// or 0 where there is none. At `Ok` it is stored and synced. After an `Err` each crash leaves the old
/// checkpoint or the new one, as at every moment of the call, and the checkpoint must be loaded before
/// the next switch.
pub fn switch<H: Host>(host: &mut H, number: u64, body: &[u8]) -> Result<(), Failed>
    ensures switched { OnOk result
        (H.honest → (old : Option Slot)
        → EveryDisk (λ disk. checkpoint_in disk ≡ old) (H.seen host.old).past
        → IsNext old number → EveryDisk (λ disk. checkpoint_in disk ≡ new_slot number body.now)
        (H.seen host.new).past) }
    ensures any_moment { H.honest → (old : Option Slot)
        → EveryDisk (λ disk. checkpoint_in disk ≡ old) (H.seen host.old).past
        → IsNext old number → Throughout (EveryDisk (HasOldOrNew old number body.now))
        (H.seen host.old).past (H.seen host.new).past }
    ensures whole { OnOk result
        (H.honest → contents (of (slot_file number) (H.seen host.new).past)
        ≡ slot_bytes 1 number body.now) }
    ensures synced { OnOk result
        (H.honest → IsSynced (of (slot_file number) (H.seen host.new).past)) }

    // No crash leaves a file that is longer than it could be before, or than the new checkpoint is.
    ensures bound { (size : ℕ) → HEAD + length body.now ≤ size → H.honest
        → greatest (of (slot_file number) (H.seen host.old).past) ≤ size
        → Throughout (λ past. greatest (of (slot_file number) past) ≤ size) (H.seen host.old).past
        (H.seen host.new).past }

    // The images of all other files and the output stay.
    ensures only_here { H.honest
        → OnlyOn (slot_file number) (H.seen host.old).past (H.seen host.new).past }
    ensures cause { HasCause (H.seen host.old).disk_faults (H.seen host.new).disk_faults
        (IsErr result) }
    ensures output { (H.seen host.new).tell_faults ≡ (H.seen host.old).tell_faults }
{
    let head = head_bytes(number, body.len() as u64);
    replace(host, slot_file_of(number), head, body)?;
    Ok(())
}

/// Leaves an open gate, a head and a body in a file, whatever it held. At every moment a crash leaves
/// what was there, or a file that is not open, or the new bytes whole.
fn replace<H: Host>(host: &mut H, file: File, head: [u8; 16], body: &[u8]) -> Result<(), Failed>
    ensures whole { OnOk result
        (H.honest → contents (of file (H.seen host.new).past) ≡ 1 ∷ (head ++ body.now)) }
    ensures synced { OnOk result (H.honest → IsSynced (of file (H.seen host.new).past)) }
    ensures any_moment { H.honest
        → Throughout (EveryImage file
        (IsReplacing (of file (H.seen host.old).past) (1 ∷ (head ++ body.now))))
        (H.seen host.old).past (H.seen host.new).past }
    ensures bound { (size : ℕ) → HEAD + length body.now ≤ size → H.honest
        → greatest (of file (H.seen host.old).past) ≤ size
        → Throughout (λ past. greatest (of file past) ≤ size) (H.seen host.old).past
        (H.seen host.new).past }
    ensures only_here { H.honest → OnlyOn file (H.seen host.old).past (H.seen host.new).past }
    ensures cause { HasCause (H.seen host.old).disk_faults (H.seen host.new).disk_faults
        (IsErr result) }
    ensures output { (H.seen host.new).tell_faults ≡ (H.seen host.old).tell_faults }
{
    close_gate(host, file)?;
    write_rest(host, file, head, body)?;
    set_gate(host, file, 1)
}
