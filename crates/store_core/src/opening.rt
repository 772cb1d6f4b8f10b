//! A database is opened.

ghost use Rattle.std.specs.Prelude.{◌≡◌, ◌⊎◌, ◌↔◌, ◌<◌, ℕ, true, false, Some, IsTrue, IfErr, IfOk, IsErrOf, OnOk};
ghost use Rattle.std.specs.List.{AllByRecursion};
ghost use Rattle.field_codec.specs.Field.{IsBytes};
ghost use Rattle.host_model.specs.declared.file.File.{File as AFile};
ghost use Rattle.host_model.specs.Cause.{HasCause};
ghost use Rattle.host_model.specs.Disks.{reads_as, EveryDisk};
ghost use Rattle.host_model.specs.Moments.{Throughout};
ghost use Rattle.host_model.specs.Past.{IsDisk};
ghost use Rattle.beat_tiers.specs.Room.{tiers_held};
ghost use Rattle.checkpoint_body.specs.Body.{HasSpelling};
ghost use Rattle.store_core.specs.disk.Contents.{Contents};
ghost use Rattle.store_core.specs.disk.Files.{IsOpenOf, IsPlaced};
ghost use Rattle.store_core.specs.disk.Files.{IsReady as FilesAreReady};
ghost use Rattle.store_core.specs.disk.Formed.{HasFiles};
ghost use Rattle.store_core.specs.disk.Holds.{Holds, OnlyOwn};
ghost use Rattle.store_core.specs.disk.Kept.{HasPagesOfEach};
ghost use Rattle.store_core.specs.disk.Opened.{contents_of};
ghost use Rattle.store_core.specs.disk.Opening.{OnlySyncs};
ghost use Rattle.store_core.specs.disk.Shares.{IsWithin};
ghost use Rattle.store_core.specs.beats.Records.{beats_from};
ghost use Rattle.store_core.specs.bodies.Tiers.{AreTiersOfBody};
ghost use Rattle.store_core.specs.bodies.Next.{HasCounted};
ghost use Rattle.store_core.specs.Damaged.{HasForm, IsDamagedIn};
ghost use Rattle.store_core.specs.Faults.{IsOpenFault, IsReadFault};
ghost use Rattle.store_core.specs.Stands.{is_made, HasStored, Stands};
ghost use Rattle.store_core.specs.Store.{IsReady, OpensAt};
ghost use Rattle.store_core.specs.Stored.{Stored as AStored};

use crate::beats::{Waiting, read_beats};
use crate::bodies::{left_tiers, tiers_of};
use crate::disk::fault::{BODY_PART, EXTENT_PART, JOURNAL_PART};
use crate::disk::{self, Opened};
use crate::fault::OpenFault;
use crate::store::Store;
use beat_tiers::Tiers;
use checkpoint_body::Body;
use fixed_num::ByteList;
use host_model::Host;
use std::alloc::Global;

/// Whether each tier has sealed as many segments as it keeps, at least.
fn has_counted(body: &Body) -> bool
    ensures { IsTrue result ↔ HasCounted body.now }
{
    body.points.extents.len() as u64 <= body.points.sealed
        && body.minutes.extents.len() as u64 <= body.minutes.sealed
        && body.hours.extents.len() as u64 <= body.hours.sealed
}

/// The tiers of an opened database at its checkpoint.
fn read_tiers(alloc: Global, opened: &Opened) -> Result<Tiers, OpenFault>
    requires spelt { HasSpelling opened.now.body }
    requires paged { HasPagesOfEach opened.now.body (contents_of opened.now).kept }
    ensures counted { OnOk result (HasCounted opened.now.body) }
    ensures tiers { IfOk result (λ tiers. AreTiersOfBody opened.now.body
        (contents_of opened.now).kept (tiers_held tiers)) }
    ensures broken { (part : ℕ) → IsErrOf result (OpenFault.Damaged part) → (stored : AStored)
        → HasStored (contents_of opened.now) stored → ⊥ }
    ensures faults { IfErr result IsReadFault }
{
    if !has_counted(&opened.body) {
        return Err(OpenFault::Damaged(BODY_PART));
    }
    match tiers_of(alloc, opened)? {
        Some(tiers) => Ok(tiers),
        None => Err(OpenFault::Damaged(EXTENT_PART)),
    }
}

/// The beats of the records of a journal, behind a checkpoint with this last moment.
fn read_waiting(alloc: Global, last: u32, records: &[ByteList]) -> Result<Waiting, OpenFault>
    ensures beats { IfOk result (λ found. beats_from last records.now ≡ Some found) }
    ensures bytes { OnOk result (AllByRecursion IsBytes records.now) }
    ensures damaged { (part : ℕ) → IsErrOf result (OpenFault.Damaged part)
        → (part ≡ 4) × (beats_from last records.now ≡ None) }
    ensures faults { IfErr result IsReadFault }
{
    match read_beats(alloc, last, records)? {
        Some(waiting) => Ok(waiting),
        None => Err(OpenFault::Damaged(JOURNAL_PART)),
    }
}

/// The tiers of an opened database at its checkpoint, and the beats since.
fn read_all(alloc: Global, opened: &Opened) -> Result<(Tiers, Waiting), OpenFault>
    requires spelt { HasSpelling opened.now.body }
    requires paged { HasPagesOfEach opened.now.body (contents_of opened.now).kept }
    ensures counted { OnOk result (HasCounted opened.now.body) }
    ensures tiers { IfOk result (λ found. AreTiersOfBody opened.now.body
        (contents_of opened.now).kept (tiers_held found.0)) }
    ensures beats { IfOk result (λ found.
        beats_from opened.now.body.last opened.now.records ≡ Some found.1) }
    ensures bytes { OnOk result (AllByRecursion IsBytes opened.now.records) }
    ensures broken { (part : ℕ) → IsErrOf result (OpenFault.Damaged part) → (stored : AStored)
        → HasStored (contents_of opened.now) stored → ⊥ }
    ensures faults { IfErr result IsReadFault }
{
    let tiers = read_tiers(alloc, opened)?;
    let waiting = read_waiting(alloc, opened.body.last, opened.records.as_slice())?;
    Ok((tiers, waiting))
}

/// Opens a database whose disk holds what beats leave. It is refused as damaged where the disk
/// does not.
fn open_whole<H: Host>(alloc: Global, host: &mut H) -> Result<Store, OpenFault>
    ensures opened { IfOk result (λ store. H.honest → (stored : AStored)
        → Stands stored (reads_as (H.seen host.old).past)
        → OpensAt (H.seen host.new).past store stored) }
    ensures ready { IfOk result (IsReady H.honest (H.seen host.new).past) }
    ensures going { IfOk result (λ store. store.fault ≡ None) }
    ensures count { IfOk result (λ store. store.count ≡ store.body.count) }
    ensures last { IfOk result (λ store. store.tiers.last ≡ store.body.last) }
    ensures form { IfOk result (λ store. H.honest
        → HasForm store.body store.waiting (reads_as (H.seen host.old).past)) }
    ensures none { IsErrOf result OpenFault.NotADatabase → H.honest
        → is_made (reads_as (H.seen host.old).past) ≡ false }
    ensures complete { H.honest → (stored : AStored)
        → Stands stored (reads_as (H.seen host.old).past)
        → IfErr result (λ fault. (fault ≡ OpenFault.DiskFault)
        ⊎ (fault ≡ OpenFault.Memory)) }
    ensures faults { IfErr result IsOpenFault }
    ensures syncs { H.honest → OnlySyncs (H.seen host.old).past (H.seen host.new).past }
    ensures cause { HasCause (H.seen host.old).disk_faults (H.seen host.new).disk_faults
        (IsErrOf result OpenFault.DiskFault) }
    ensures output { (H.seen host.new).tell_faults ≡ (H.seen host.old).tell_faults }
{
    let opened = disk::open(alloc, host)?;
    let (tiers, waiting) = read_all(alloc, &opened)?;
    Ok(Store {
        alloc,
        files: opened.files,
        count: opened.body.count,
        body: opened.body,
        fault: None,
        whole: true,
        waiting,
        tiers,
    })
}

/// Opens a database whatever the pages of its extents hold. No later checkpoint of it is made.
fn open_left<H: Host>(alloc: Global, host: &mut H) -> Result<Store, OpenFault>
    ensures ready { IfOk result (IsReady H.honest (H.seen host.new).past) }
    ensures going { IfOk result (λ store. store.fault ≡ None) }
    ensures count { IfOk result (λ store. store.count ≡ store.body.count) }
    ensures last { IfOk result (λ store. store.tiers.last ≡ store.body.last) }
    ensures form { IfOk result (λ store. H.honest
        → HasForm store.body store.waiting (reads_as (H.seen host.old).past)) }
    ensures none { IsErrOf result OpenFault.NotADatabase → H.honest
        → is_made (reads_as (H.seen host.old).past) ≡ false }
    ensures damaged { (part : ℕ) → IsErrOf result (OpenFault.Damaged part) → H.honest
        → IsDamagedIn part (reads_as (H.seen host.old).past) }
    ensures faults { IfErr result IsOpenFault }
    ensures syncs { H.honest → OnlySyncs (H.seen host.old).past (H.seen host.new).past }
    ensures cause { HasCause (H.seen host.old).disk_faults (H.seen host.new).disk_faults
        (IsErrOf result OpenFault.DiskFault) }
    ensures output { (H.seen host.new).tell_faults ≡ (H.seen host.old).tell_faults }
{
    let left = disk::open_left(alloc, host)?;
    let waiting = read_waiting(alloc, left.body.last, left.records.as_slice())?;
    let tiers = left_tiers(alloc, &left)?;
    Ok(Store {
        alloc,
        files: left.files,
        count: left.body.count,
        body: left.body,
        fault: None,
        whole: false,
        waiting,
        tiers,
    })
}

impl Store {
    /// Opens the database. The store stands at its checkpoint, and none of the beats since is
    /// applied yet. The disk is only read and synced, and whatever a crash leaves from then on
    /// holds what was stored.
    ///
    /// `NotADatabase` where there is no checkpoint, and `Damaged` with the first part that is not in
    /// its form: 1 the checkpoint's file, 2 its body, 3 an extent's slot, length, head or directory,
    /// 4 the journal. A disk that is in form and holds what no beats leave is opened too: what its
    /// pages do not say is left out, and no later checkpoint of it is made.
    pub fn open<H: Host>(alloc: Global, host: &mut H) -> Result<Store, OpenFault>
        ensures opened { IfOk result (λ store. H.honest → (stored : AStored)
            → Stands stored (reads_as (H.seen host.old).past)
            → OpensAt (H.seen host.new).past store stored) }
        ensures ready { IfOk result (IsReady H.honest (H.seen host.new).past) }
        ensures going { IfOk result (λ store. store.fault ≡ None) }
        ensures count { IfOk result (λ store. store.count ≡ store.body.count) }
        ensures last { IfOk result (λ store. store.tiers.last ≡ store.body.last) }

        // Every image at every moment is one from before, and what the files read as stays.
        ensures any_moment { H.honest
            → Throughout (EveryDisk (IsDisk (H.seen host.old).past)) (H.seen host.old).past
            (H.seen host.new).past }
        ensures same { H.honest → (file : AFile)
            → reads_as (H.seen host.new).past file ≡ reads_as (H.seen host.old).past file }
        ensures bound { (shares : AFile → ℕ) → H.honest → IsWithin shares (H.seen host.old).past
            → Throughout (IsWithin shares) (H.seen host.old).past (H.seen host.new).past }
        ensures only_here { H.honest → OnlyOwn (H.seen host.old).past (H.seen host.new).past }

        // It is opened exactly where the disk is in the form of a database, but for the disk and
        // memory.
        ensures none { IsErrOf result OpenFault.NotADatabase → H.honest
            → is_made (reads_as (H.seen host.old).past) ≡ false }
        ensures some { OnOk result (H.honest → is_made (reads_as (H.seen host.old).past) ≡ true) }
        ensures form { IfOk result (λ store. H.honest
            → HasForm store.body store.waiting (reads_as (H.seen host.old).past)) }
        ensures damaged { (part : ℕ) → IsErrOf result (OpenFault.Damaged part) → H.honest
            → IsDamagedIn part (reads_as (H.seen host.old).past) }
        ensures whole { OnOk result (H.honest → (part : ℕ)
            → IsDamagedIn part (reads_as (H.seen host.old).past) → ⊥) }

        // A database of beats is opened, but for the disk and memory.
        ensures images { OnOk result (H.honest → (stored : AStored)
            → Stands stored (reads_as (H.seen host.old).past)
            → EveryDisk (Stands stored) (H.seen host.new).past) }
        ensures complete { H.honest → (stored : AStored)
            → Stands stored (reads_as (H.seen host.old).past)
            → IfErr result (λ fault. (fault ≡ OpenFault.DiskFault)
            ⊎ (fault ≡ OpenFault.Memory)) }
        ensures faults { IfErr result IsOpenFault }
        ensures cause { HasCause (H.seen host.old).disk_faults (H.seen host.new).disk_faults
            (IsErrOf result OpenFault.DiskFault) }
        ensures output { (H.seen host.new).tell_faults ≡ (H.seen host.old).tell_faults }
    {
        match open_whole(alloc, host) {
            Ok(store) => Ok(store),
            Err(OpenFault::Damaged(_)) => open_left(alloc, host),
            Err(fault) => Err(fault),
        }
    }
}
