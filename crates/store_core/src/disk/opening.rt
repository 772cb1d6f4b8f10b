ghost use Rattle.std.specs.Prelude.{◌≡◌, ◌≢◌, ◌⊎◌, ◌≤◌, ◌<◌, ℕ, List, None, IsSome, IfOk, IfErr, IsErrOf, OnOk};
ghost use Rattle.host_model.specs.Images.{IsSynced};
ghost use Rattle.host_model.specs.Past.{file_number, of, IsDisk};
ghost use Rattle.host_model.specs.Disks.{reads_as, EveryDisk};
ghost use Rattle.host_model.specs.Cause.{HasCause};
ghost use Rattle.host_model.specs.Moments.{Throughout};
ghost use Rattle.journal_core.specs.Form.{StandsFor};
ghost use Rattle.journal_core.specs.Journal.{IsOpen};
ghost use Rattle.checkpoint.specs.Files.{checkpoint_in};
ghost use Rattle.checkpoint_body.specs.Body.{HasSpelling};
ghost use Rattle.store_core.specs.disk.Contents.{Contents};
ghost use Rattle.store_core.specs.disk.Damaged.{IsDamagedAt};
ghost use Rattle.store_core.specs.disk.Files.{IsOpenOf, IsReady};
ghost use Rattle.store_core.specs.disk.Holds.{journal_file, AreKept, HasCheckpoint, Holds, OnlyOwn};
ghost use Rattle.store_core.specs.disk.Kept.{pages_of, HasPagesOfEach};
ghost use Rattle.store_core.specs.disk.Opened.{contents_of};
ghost use Rattle.store_core.specs.disk.Opening.{AreFixed, OnlySyncs, StaySynced};
ghost use Rattle.store_core.specs.Faults.{IsOpenFault};

use crate::disk::beginning::journal_file_of;
use crate::disk::files::Files;
use crate::disk::reading::{Kept, read_kept};
use crate::fault::OpenFault;
use checkpoint::load;
use checkpoint_body::{Body, RecordPageList, SlotPageList, read_body};
use fixed_num::ListOf;
use host_model::{File, Host};
use journal_core::{Journal, RecordList};
use std::alloc::Global;

/// A database that was opened: its files, and what they hold.
#[derive(Debug, Drop)]
pub struct Opened {
    /// The open files.
    pub files: Files,
    /// The body of the checkpoint.
    pub body: Body,
    /// The pages of the kept extents of tier 0, in the order in which the body names these.
    pub points: ListOf<SlotPageList>,
    /// The pages of the kept extents of tier 1, in the order in which the body names these.
    pub minutes: ListOf<RecordPageList>,
    /// The pages of the kept extents of tier 2, in the order in which the body names these.
    pub hours: ListOf<RecordPageList>,
    /// The records of the journal, the earliest first.
    pub records: RecordList,
}

/// A checkpoint that was loaded.
#[derive(Drop)]
pub(crate) struct Checkpoint {
    pub(crate) number: u64,
    pub(crate) body: Body,
}

/// Loads the checkpoint that counts.
pub(crate) fn load_checkpoint<H: Host>(alloc: Global, host: &mut H) -> Result<Checkpoint, OpenFault>
    ensures loaded { IfOk result (λ found. H.honest
        → HasCheckpoint found.number found.body (reads_as (H.seen host.old).past)) }
    ensures spelt { IfOk result (λ found. HasSpelling found.body) }
    ensures synced { IfOk result (λ _. H.honest → IsSynced (of File.CheckA (H.seen host.new).past)
        × IsSynced (of File.CheckB (H.seen host.new).past)) }
    ensures none { IsErrOf result OpenFault.NotADatabase → H.honest
        → checkpoint_in (reads_as (H.seen host.old).past) ≡ None }
    ensures damaged { (part : ℕ) → IsErrOf result (OpenFault.Damaged part) → H.honest
        → IsDamagedAt part (reads_as (H.seen host.old).past) }
    ensures early { (part : ℕ) → IsErrOf result (OpenFault.Damaged part) → part ≤ 2 }
    ensures faults { IfErr result IsOpenFault }
    ensures syncs { H.honest → OnlySyncs (H.seen host.old).past (H.seen host.new).past }
    ensures cause { HasCause (H.seen host.old).disk_faults (H.seen host.new).disk_faults
        (IsErrOf result OpenFault.DiskFault) }
    ensures output { (H.seen host.new).tell_faults ≡ (H.seen host.old).tell_faults }
{
    let (number, bytes) = load(alloc, host)?;
    let body = read_body(alloc, bytes.as_slice())?;
    Ok(Checkpoint { number, body })
}

/// Makes a file of the database hold what it reads as.
fn settle<H: Host>(host: &mut H, file: File) -> Result<(), OpenFault>
    requires { file_number file < 7 }
    ensures synced { OnOk result (H.honest → IsSynced (of file (H.seen host.new).past)) }
    ensures stays { OnOk result (H.honest
        → StaySynced (H.seen host.old).past (H.seen host.new).past) }
    ensures syncs { H.honest → OnlySyncs (H.seen host.old).past (H.seen host.new).past }
    ensures faults { IfErr result (λ fault. fault ≡ OpenFault.DiskFault) }
    ensures cause { HasCause (H.seen host.old).disk_faults (H.seen host.new).disk_faults
        (IsErrOf result OpenFault.DiskFault) }
    ensures output { (H.seen host.new).tell_faults ≡ (H.seen host.old).tell_faults }
{
    host.sync(file)?;
    Ok(())
}

/// Makes the files of the tiers hold what they read as.
pub(crate) fn settle_tiers<H: Host>(host: &mut H) -> Result<(), OpenFault>
    ensures synced { OnOk result (H.honest → IsSynced (of File.Tier0 (H.seen host.new).past)
        × IsSynced (of File.Tier1 (H.seen host.new).past)
        × IsSynced (of File.Tier2 (H.seen host.new).past)) }
    ensures stays { OnOk result (H.honest
        → StaySynced (H.seen host.old).past (H.seen host.new).past) }
    ensures syncs { H.honest → OnlySyncs (H.seen host.old).past (H.seen host.new).past }
    ensures faults { IfErr result (λ fault. fault ≡ OpenFault.DiskFault) }
    ensures cause { HasCause (H.seen host.old).disk_faults (H.seen host.new).disk_faults
        (IsErrOf result OpenFault.DiskFault) }
    ensures output { (H.seen host.new).tell_faults ≡ (H.seen host.old).tell_faults }
{
    settle(host, File::Tier0)?;
    settle(host, File::Tier1)?;
    settle(host, File::Tier2)?;
    Ok(())
}

/// The journal of a generation, and its records.
#[derive(Drop)]
pub(crate) struct OpenJournal {
    pub(crate) journal: Journal,
    pub(crate) records: RecordList,
}

/// Opens the journal of a checkpoint.
pub(crate) fn open_journal<H: Host>(
    alloc: Global,
    host: &mut H,
    number: u64,
) -> Result<OpenJournal, OpenFault>
    ensures opened { IfOk result (λ found. H.honest
        → IsOpen (of (journal_file number) (H.seen host.new).past) found.journal found.records) }
    ensures place { IfOk result (λ found. (found.journal.file ≡ journal_file number)
        × (found.journal.generation ≡ number)) }
    ensures damaged { (part : ℕ) → IsErrOf result (OpenFault.Damaged part) → part ≡ 4 }
    ensures broken { IsErrOf result (OpenFault.Damaged 4) → H.honest → (records : List (List ℕ))
        → ¬ StandsFor number (reads_as (H.seen host.old).past (journal_file number)) records }
    ensures faults { IfErr result IsOpenFault }
    ensures not_none { IsErrOf result OpenFault.NotADatabase → ⊥ }
    ensures stays { OnOk result (H.honest
        → StaySynced (H.seen host.old).past (H.seen host.new).past) }
    ensures syncs { H.honest → OnlySyncs (H.seen host.old).past (H.seen host.new).past }
    ensures cause { HasCause (H.seen host.old).disk_faults (H.seen host.new).disk_faults
        (IsErrOf result OpenFault.DiskFault) }
    ensures output { (H.seen host.new).tell_faults ≡ (H.seen host.old).tell_faults }
{
    let file = journal_file_of(number);
    settle(host, file)?;
    let (journal, records) = Journal::open(alloc, host, file, number)?;
    Ok(OpenJournal { journal, records })
}

/// What was read of a checkpoint and of the extents that it names.
#[derive(Drop)]
pub(crate) struct Loaded {
    pub(crate) checkpoint: Checkpoint,
    pub(crate) kept: Kept,
}

/// Loads the checkpoint that counts, and reads the extents that it names.
fn load_kept<H: Host>(alloc: Global, host: &mut H) -> Result<Loaded, OpenFault>
    ensures loaded { IfOk result (λ found. H.honest
        → HasCheckpoint found.checkpoint.number found.checkpoint.body
        (reads_as (H.seen host.old).past)) }
    ensures spelt { IfOk result (λ found. HasSpelling found.checkpoint.body) }
    ensures counted { IfOk result
        (λ found. HasPagesOfEach found.checkpoint.body (pages_of found.kept)) }
    ensures kept { IfOk result (λ found. H.honest
        → AreKept found.checkpoint.body (pages_of found.kept) (reads_as (H.seen host.old).past)) }
    ensures synced { IfOk result (λ _. H.honest → AreFixed (H.seen host.new).past) }
    ensures none { IsErrOf result OpenFault.NotADatabase → H.honest
        → checkpoint_in (reads_as (H.seen host.old).past) ≡ None }
    ensures damaged { (part : ℕ) → IsErrOf result (OpenFault.Damaged part) → H.honest
        → IsDamagedAt part (reads_as (H.seen host.old).past) }
    ensures faults { IfErr result IsOpenFault }
    ensures syncs { H.honest → OnlySyncs (H.seen host.old).past (H.seen host.new).past }
    ensures cause { HasCause (H.seen host.old).disk_faults (H.seen host.new).disk_faults
        (IsErrOf result OpenFault.DiskFault) }
    ensures output { (H.seen host.new).tell_faults ≡ (H.seen host.old).tell_faults }
{
    let checkpoint = load_checkpoint(alloc, host)?;
    settle_tiers(host)?;
    let kept = read_kept(alloc, host, &checkpoint.body)?;
    Ok(Loaded { checkpoint, kept })
}

/// Opens the database on the disk: its checkpoint, the extents that it names, and the journal
/// since. It syncs these files, and else only reads. `NotADatabase` where there is no checkpoint,
/// `Damaged` where a part is damaged, the first in their order, `Memory` where memory ran out, and
/// `DiskFault` where a call on the disk failed. It can be called again after each.
pub fn open<H: Host>(alloc: Global, host: &mut H) -> Result<Opened, OpenFault>
    ensures holds { IfOk result (λ opened. H.honest
        → Holds (contents_of opened) (reads_as (H.seen host.old).past)) }
    ensures opened { IfOk result (λ opened. H.honest
        → IsOpenOf (H.seen host.new).past opened.files (contents_of opened)) }
    ensures spelt { IfOk result (λ opened. HasSpelling opened.body) }
    ensures counted { IfOk result
        (λ opened. HasPagesOfEach opened.body (contents_of opened).kept) }
    ensures ready { IfOk result (λ opened. IsReady H.honest (H.seen host.new).past opened.files) }
    ensures none { IsErrOf result OpenFault.NotADatabase → H.honest
        → checkpoint_in (reads_as (H.seen host.old).past) ≡ None }
    ensures some { IfOk result (λ _. H.honest
        → IsSome (checkpoint_in (reads_as (H.seen host.old).past))) }
    ensures damaged { (part : ℕ) → IsErrOf result (OpenFault.Damaged part) → H.honest
        → IsDamagedAt part (reads_as (H.seen host.old).past) }

    // A database that is whole is opened, but for the disk and memory.
    ensures complete { H.honest → (contents : Contents)
        → Holds contents (reads_as (H.seen host.old).past)
        → IfErr result (λ fault. (fault ≡ OpenFault.DiskFault) ⊎ (fault ≡ OpenFault.Memory)) }
    ensures faults { IfErr result IsOpenFault }

    // Each file reads as it did, and at every moment a crash leaves what it might have left before.
    ensures same { H.honest → (file : File)
        → reads_as (H.seen host.new).past file ≡ reads_as (H.seen host.old).past file }
    ensures any_moment { H.honest
        → Throughout (EveryDisk (IsDisk (H.seen host.old).past)) (H.seen host.old).past
        (H.seen host.new).past }
    ensures only_here { H.honest → OnlyOwn (H.seen host.old).past (H.seen host.new).past }
    ensures cause { HasCause (H.seen host.old).disk_faults (H.seen host.new).disk_faults
        (IsErrOf result OpenFault.DiskFault) }
    ensures output { (H.seen host.new).tell_faults ≡ (H.seen host.old).tell_faults }
{
    let loaded = load_kept(alloc, host)?;
    let opened = open_journal(alloc, host, loaded.checkpoint.number)?;
    Ok(Opened {
        files: Files::new(loaded.checkpoint.number, opened.journal),
        body: loaded.checkpoint.body,
        points: loaded.kept.points,
        minutes: loaded.kept.minutes,
        hours: loaded.kept.hours,
        records: opened.records,
    })
}
