ghost use Rattle.std.specs.Prelude.{◌≡◌, ℕ, ◌≤◌, [], ◌∷◌, ◌++◌, length, IsErr, OnOk};
ghost use Rattle.host_model.specs.Images.{contents, greatest, IsSynced};
ghost use Rattle.host_model.specs.Past.{of};
ghost use Rattle.host_model.specs.Cause.{HasCause};
ghost use Rattle.host_model.specs.Moments.{Throughout, EveryImage, OnlyOn};
ghost use Rattle.journal_core.specs.Form.{header, StandsFor};
ghost use Rattle.journal_core.specs.declared.journal.TheConstants.{EMPTY_SIZE};

use crate::form::header_of;
use host_model::{Failed, File, Host};

/// Makes a file an empty journal of this generation, whatever it held, and syncs it.
pub fn prepare<H: Host>(host: &mut H, file: File, generation: u64) -> Result<(), Failed>
    ensures empty { OnOk result
        (H.honest → StandsFor generation (contents (of file (H.seen host.new).past)) []) }
    ensures whole { OnOk result
        (H.honest → contents (of file (H.seen host.new).past) ≡ header generation ++ 0 ∷ []) }
    ensures synced { OnOk result (H.honest → IsSynced (of file (H.seen host.new).past)) }

    // At every moment nothing has happened to any other file, and nothing was told.
    ensures any_moment { H.honest
        → Throughout (OnlyOn file (H.seen host.old).past) (H.seen host.old).past
        (H.seen host.new).past }

    // Where the file was synced with at most the bytes of an empty journal, no crash leaves more.
    ensures short { H.honest → IsSynced (of file (H.seen host.old).past)
        → length (contents (of file (H.seen host.old).past)) ≤ EMPTY_SIZE
        → Throughout (EveryImage file (λ bytes. length bytes ≤ EMPTY_SIZE)) (H.seen host.old).past
        (H.seen host.new).past }

    // No crash leaves a file that is longer than it could be before, or than an empty journal.
    ensures bound { (size : ℕ) → EMPTY_SIZE ≤ size → H.honest
        → greatest (of file (H.seen host.old).past) ≤ size
        → Throughout (λ past. greatest (of file past) ≤ size) (H.seen host.old).past
        (H.seen host.new).past }
    ensures cause { HasCause (H.seen host.old).disk_faults (H.seen host.new).disk_faults
        (IsErr result) }
    ensures output { (H.seen host.new).tell_faults ≡ (H.seen host.old).tell_faults }
    ensures reads { (H.seen host.new).reads ≡ (H.seen host.old).reads }
{
    put_down(host, file, header_of(generation))
}

/// Leaves a header and a closed gate in a file, and nothing else, and syncs it.
fn put_down<H: Host>(host: &mut H, file: File, head: [u8; 16]) -> Result<(), Failed>
    ensures whole { OnOk result
        (H.honest → contents (of file (H.seen host.new).past) ≡ head ++ 0 ∷ []) }
    ensures synced { OnOk result (H.honest → IsSynced (of file (H.seen host.new).past)) }
    ensures any_moment { H.honest
        → Throughout (OnlyOn file (H.seen host.old).past) (H.seen host.old).past
        (H.seen host.new).past }
    ensures bound { (size : ℕ) → EMPTY_SIZE ≤ size → H.honest
        → greatest (of file (H.seen host.old).past) ≤ size
        → Throughout (λ past. greatest (of file past) ≤ size) (H.seen host.old).past
        (H.seen host.new).past }
    ensures cause { HasCause (H.seen host.old).disk_faults (H.seen host.new).disk_faults
        (IsErr result) }
    ensures output { (H.seen host.new).tell_faults ≡ (H.seen host.old).tell_faults }
    ensures reads { (H.seen host.new).reads ≡ (H.seen host.old).reads }
{
    host.cut(file, 0)?;
    host.write_at(file, 0, &head)?;
    host.write_at(file, 16, &[0])?;
    host.sync(file)
}
