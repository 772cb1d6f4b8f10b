//! A generation begins: its journal is made empty, and then its checkpoint is the one that counts.

ghost use Rattle.std.specs.Prelude.{◌≡◌, ◌⊎◌, ℕ, [], Option, IfErr, IsErrOf, OnOk};
ghost use Rattle.host_model.specs.declared.file.File.{File as AFile};
ghost use Rattle.host_model.specs.Past.{of};
ghost use Rattle.host_model.specs.Disks.{EveryDisk};
ghost use Rattle.host_model.specs.Cause.{HasCause};
ghost use Rattle.host_model.specs.Moments.{Throughout};
ghost use Rattle.journal_core.specs.Journal.{IsOpen};
ghost use Rattle.checkpoint.specs.Files.{checkpoint_in, slot_file, IsNext, Slot};
ghost use Rattle.store_core.specs.disk.Beginning.{empty_journal, Begins, OnlyBoth};
ghost use Rattle.store_core.specs.disk.Holds.{journal_file};
ghost use Rattle.store_core.specs.disk.Shares.{HasRoom, IsWithin};

use crate::disk::fault::FilesFault;
use checkpoint::switch;
use host_model::{File, Host};
use journal_core::{Journal, prepare};

/// The file in which the journal of a generation lies.
pub(crate) fn journal_file_of(generation: u64) -> File
    ensures { result ≡ journal_file generation }
{
    if generation % 2 == 0 {
        File::JournalA
    } else {
        File::JournalB
    }
}

/// The journal of a generation that was just begun.
pub(crate) fn begun_journal(generation: u64) -> Journal
    ensures { result ≡ empty_journal generation }
{
    Journal::empty(journal_file_of(generation), generation)
}

/// Makes the journal of this generation empty, and then a body the checkpoint of this number, which
/// is one above that of the checkpoint that is there, or 0 where there is none. At every moment a
/// crash leaves the old checkpoint, or the new one with its journal.
pub(crate) fn begin<H: Host>(host: &mut H, number: u64, body: &[u8]) -> Result<(), FilesFault>
    ensures any_moment { H.honest → (old : Option Slot)
        → EveryDisk (λ disk. checkpoint_in disk ≡ old) (H.seen host.old).past → IsNext old number
        → Throughout (EveryDisk
        (λ disk. (checkpoint_in disk ≡ old) ⊎ Begins number body.now disk)) (H.seen host.old).past
        (H.seen host.new).past }
    ensures begun { OnOk result (H.honest → (old : Option Slot)
        → EveryDisk (λ disk. checkpoint_in disk ≡ old) (H.seen host.old).past → IsNext old number
        → EveryDisk (Begins number body.now) (H.seen host.new).past) }
    ensures journal { OnOk result (H.honest
        → IsOpen (of (journal_file number) (H.seen host.new).past) (empty_journal number) []) }
    ensures bound { (shares : AFile → ℕ) → HasRoom shares number body.now
        → H.honest → IsWithin shares (H.seen host.old).past
        → Throughout (IsWithin shares) (H.seen host.old).past (H.seen host.new).past }

    // At every moment nothing has happened to any other file, and nothing was told.
    ensures only_here { H.honest
        → Throughout (OnlyBoth (journal_file number) (slot_file number) (H.seen host.old).past)
        (H.seen host.old).past (H.seen host.new).past }
    ensures faults { IfErr result (λ fault. fault ≡ FilesFault.DiskFault) }
    ensures cause { HasCause (H.seen host.old).disk_faults (H.seen host.new).disk_faults
        (IsErrOf result FilesFault.DiskFault) }
    ensures output { (H.seen host.new).tell_faults ≡ (H.seen host.old).tell_faults }
{
    prepare(host, journal_file_of(number), number)?;
    switch(host, number, body)?;
    Ok(())
}
