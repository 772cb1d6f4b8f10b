ghost use Rattle.std.specs.Prelude.{◌≡◌, ℕ, ◌+◌, ◌<◌, ◌≤◌, List, [], ◌∷◌, ◌++◌, length, IsErr, OnOk};
ghost use Rattle.host_model.specs.Images.{contents, greatest, IsSynced};
ghost use Rattle.host_model.specs.Past.{of};
ghost use Rattle.host_model.specs.Cause.{HasCause};
ghost use Rattle.host_model.specs.Moments.{Throughout, EveryImage, OnlyOn};
ghost use Rattle.journal_core.specs.Form.{opened, record_size, StandsFor};
ghost use Rattle.journal_core.specs.Journal.{StandsForEither};
ghost use Rattle.journal_core.specs.Store.{KeepsThrough, Stages};
ghost use Rattle.journal_core.specs.declared.journal.TheConstants.{JOURNAL_LIMIT, RECORD_LIMIT};

use crate::form::length_bytes;
use crate::gate::open_gate;
use host_model::{Failed, File, Host};

/// Adds a record to the journal in a file, whose closed gate is at this place. At every moment a crash
/// leaves the journal with the record or without it.
pub(crate) fn store<H: Host>(host: &mut H, file: File, gate: u64, body: &[u8]) -> Result<(), Failed>
    requires room { gate ≤ JOURNAL_LIMIT }
    requires size { length body.now ≤ RECORD_LIMIT }
    requires stable { H.honest → IsSynced (of file (H.seen host.old).past) }
    requires inside { H.honest → gate < length (contents (of file (H.seen host.old).past)) }
    ensures stored { OnOk result (H.honest → (generation : ℕ) (records : List (List ℕ))
        → StandsFor generation (contents (of file (H.seen host.old).past)) records
        → gate ≡ 16 + length (opened records)
        → StandsFor generation (contents (of file (H.seen host.new).past))
        (records ++ body.now ∷ [])) }
    ensures synced { OnOk result (H.honest → IsSynced (of file (H.seen host.new).past)) }
    ensures any_moment { H.honest → (generation : ℕ) (records : List (List ℕ))
        → StandsFor generation (contents (of file (H.seen host.old).past)) records
        → gate ≡ 16 + length (opened records)
        → Throughout (EveryImage file (StandsForEither generation records body.now))
        (H.seen host.old).past (H.seen host.new).past }
    ensures bound { (size : ℕ) → gate + 1 + record_size body.now ≤ size → H.honest
        → greatest (of file (H.seen host.old).past) ≤ size
        → Throughout (λ past. greatest (of file past) ≤ size) (H.seen host.old).past
        (H.seen host.new).past }
    ensures only_here { H.honest → OnlyOn file (H.seen host.old).past (H.seen host.new).past }
    ensures cause { HasCause (H.seen host.old).disk_faults (H.seen host.new).disk_faults
        (IsErr result) }
    ensures output { (H.seen host.new).tell_faults ≡ (H.seen host.old).tell_faults }
    ensures reads { (H.seen host.new).reads ≡ (H.seen host.old).reads }
{
    stage(host, file, gate, body)?;
    open_gate(host, file, gate)
}

/// Writes a record behind a closed gate, with a closed gate behind it, and syncs them.
fn stage<H: Host>(host: &mut H, file: File, gate: u64, body: &[u8]) -> Result<(), Failed>
    requires room { gate ≤ JOURNAL_LIMIT }
    requires size { length body.now ≤ RECORD_LIMIT }
    requires stable { H.honest → IsSynced (of file (H.seen host.old).past) }
    requires inside { H.honest → gate < length (contents (of file (H.seen host.old).past)) }
    ensures staged { OnOk result (H.honest → Stages gate body.now
        (contents (of file (H.seen host.old).past)) (contents (of file (H.seen host.new).past))) }
    ensures synced { OnOk result (H.honest → IsSynced (of file (H.seen host.new).past)) }
    ensures any_moment { H.honest
        → Throughout (EveryImage file
        (KeepsThrough gate (contents (of file (H.seen host.old).past))))
        (H.seen host.old).past (H.seen host.new).past }
    ensures bound { (size : ℕ) → gate + 1 + record_size body.now ≤ size → H.honest
        → greatest (of file (H.seen host.old).past) ≤ size
        → Throughout (λ past. greatest (of file past) ≤ size) (H.seen host.old).past
        (H.seen host.new).past }
    ensures only_here { H.honest → OnlyOn file (H.seen host.old).past (H.seen host.new).past }
    ensures cause { HasCause (H.seen host.old).disk_faults (H.seen host.new).disk_faults
        (IsErr result) }
    ensures output { (H.seen host.new).tell_faults ≡ (H.seen host.old).tell_faults }
    ensures reads { (H.seen host.new).reads ≡ (H.seen host.old).reads }
{
    let size = body.len();
    host.write_at(file, gate + 1, &length_bytes(size as u32))?;
    host.write_at(file, gate + 5, body)?;
    host.write_at(file, gate + 5 + size as u64, &[0])?;
    host.sync(file)
}
