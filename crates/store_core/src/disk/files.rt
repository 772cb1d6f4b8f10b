ghost use Rattle.std.specs.Prelude.{◌≡◌, ◌⊎◌, ℕ, ◌+◌, ◌-◌, ◌<◌, ◌≤◌, ◌^◌, length, IfErr, IsErrOf, OnErr, OnOk};
ghost use Rattle.host_model.specs.declared.file.File.{File};
ghost use Rattle.host_model.specs.Disks.{EveryDisk};
ghost use Rattle.host_model.specs.Cause.{HasCause};
ghost use Rattle.host_model.specs.Moments.{Throughout, OnlyOn};
ghost use Rattle.journal_core.specs.Form.{record_size};
ghost use Rattle.journal_core.specs.declared.journal.TheConstants.{JOURNAL_LIMIT, RECORD_LIMIT};
ghost use Rattle.checkpoint_body.specs.Body.{body_bytes, HasSpelling};
ghost use Rattle.store_core.specs.disk.Beginning.{empty_journal};
ghost use Rattle.store_core.specs.disk.Contents.{next_contents, with_record, Contents, KeptPages};
ghost use Rattle.store_core.specs.disk.Holds.{journal_file, HoldsAround, HoldsEither, OnlyOwn};
ghost use Rattle.store_core.specs.disk.Next.{AreWritable, IsNext};
ghost use Rattle.store_core.specs.disk.Shares.{HasRoom, HasSlotRoom, IsWithin};

use crate::disk::advancing::write_sealed;
use crate::disk::beginning::{begin, begun_journal};
use crate::disk::fault::FilesFault;
use crate::disk::sealed::Sealed;
use checkpoint_body::{Body, write_body};
use host_model::Host;
use journal_core::Journal;
use std::alloc::Global;
use std::marker::Model;

/// The most bytes of a journal's file, while there can be a later checkpoint.
pub const JOURNAL_SHARE: u64 = 1 << 27;

/// The open files of a database: the number of its checkpoint, and the journal since.
#[derive(Debug, Drop)]
pub struct Files {
    number: u64,
    journal: Journal,
}

impl Model for Files {
    ghost use Rattle.store_core.specs.disk.Files.{FilesState};

    ghost Value = { FilesState };

    ghost view = { λ files. record { number = files.number; journal = files.journal } };
}

impl Files {
    ghost use Rattle.store_core.specs.disk.Files.{IsOpenOf, IsReady};

    /// The files of this checkpoint, with the journal of its generation.
    pub(crate) fn new(number: u64, journal: Journal) -> Files
        ensures { result ≡ record { number = number; journal = journal } }
    {
        Files { number, journal }
    }

    /// Adds a record to the journal. At `Ok` it is stored and synced. After `DiskFault` each crash
    /// leaves the contents with the record or without it, as at every moment of the call, and the
    /// database must be opened again.
    pub fn append<H: Host>(&mut self, host: &mut H, bytes: &[u8]) -> Result<(), FilesFault>
        requires room { self.old.journal.bytes ≤ JOURNAL_LIMIT }
        requires short { length bytes.now ≤ RECORD_LIMIT }
        requires ready { IsReady H.honest (H.seen host.old).past self.old }
        ensures any_moment { H.honest → (contents : Contents)
            → IsOpenOf (H.seen host.old).past self.old contents
            → Throughout (EveryDisk (HoldsAround contents bytes.now)) (H.seen host.old).past
            (H.seen host.new).past }
        ensures stored { OnOk result (H.honest → (contents : Contents)
            → IsOpenOf (H.seen host.old).past self.old contents
            → IsOpenOf (H.seen host.new).past self.new (with_record contents bytes.now)) }
        ensures files { OnOk result (self.new ≡ record self.old {
          journal = record self.old.journal {
            bytes = self.old.journal.bytes + 5 + length bytes.now;
          };
        }) }
        ensures ready { OnOk result (IsReady H.honest (H.seen host.new).past self.new) }
        ensures files_stay { OnErr result (self.new ≡ self.old) }

        // No file has more than its share at any moment, where the record fits that of the journal.
        ensures bound { (shares : File → ℕ) → self.old.journal.bytes + record_size bytes.now
            ≤ shares (journal_file self.old.number)
            → H.honest → IsWithin shares (H.seen host.old).past
            → Throughout (IsWithin shares) (H.seen host.old).past (H.seen host.new).past }

        // Nothing happens to another file than the journal's.
        ensures only_here { H.honest → OnlyOn (journal_file self.old.number)
            (H.seen host.old).past (H.seen host.new).past }
        ensures faults { IfErr result (λ fault. fault ≡ FilesFault.DiskFault) }
        ensures cause { HasCause (H.seen host.old).disk_faults (H.seen host.new).disk_faults
            (IsErrOf result FilesFault.DiskFault) }
        ensures output { (H.seen host.new).tell_faults ≡ (H.seen host.old).tell_faults }
        ensures reads { (H.seen host.new).reads ≡ (H.seen host.old).reads }
    {
        if self.journal.append(host, bytes).is_err() {
            return Err(FilesFault::DiskFault);
        }
        Ok(())
    }

    /// Makes the next checkpoint, with this body: writes the segments that were sealed, begins the
    /// next journal, and then switches. At `Ok` the new contents are stored and synced, and the
    /// journal has no record. After `DiskFault` each crash leaves the old contents or the new ones,
    /// as at every moment of the call, and the database must be opened again. After `Memory` the
    /// files are open as before.
    pub fn checkpoint<H: Host>(
        &mut self,
        alloc: Global,
        host: &mut H,
        body: &Body,
        sealed: &Sealed,
    ) -> Result<(), FilesFault>
        requires number { self.old.number < 2 ^ 64 - 1 }
        requires spelt { HasSpelling body.now }
        requires writable { AreWritable body.now sealed.now }
        ensures any_moment { H.honest → (contents : Contents) (kept : KeptPages)
            → IsOpenOf (H.seen host.old).past self.old contents
            → IsNext contents sealed.now body.now kept
            → Throughout
            (EveryDisk (HoldsEither contents (next_contents contents body.now kept)))
            (H.seen host.old).past (H.seen host.new).past }
        ensures done { OnOk result (H.honest → (contents : Contents) (kept : KeptPages)
            → IsOpenOf (H.seen host.old).past self.old contents
            → IsNext contents sealed.now body.now kept
            → IsOpenOf (H.seen host.new).past self.new (next_contents contents body.now kept)) }
        ensures files { OnOk result (self.new ≡ record {
          number = self.old.number + 1;
          journal = empty_journal (self.old.number + 1);
        }) }
        ensures ready { OnOk result ((H.honest → (contents : Contents) × (kept : KeptPages)
            × IsOpenOf (H.seen host.old).past self.old contents
            × IsNext contents sealed.now body.now kept)
            → IsReady H.honest (H.seen host.new).past self.new) }
        ensures memory { IsErrOf result FilesFault.Memory → H.honest → (contents : Contents)
            (kept : KeptPages) → IsOpenOf (H.seen host.old).past self.old contents
            → IsNext contents sealed.now body.now kept
            → IsOpenOf (H.seen host.new).past self.new contents }
        ensures files_stay { OnErr result (self.new ≡ self.old) }

        // No file has more than its share at any moment, where what is written fits them.
        ensures bound { (shares : File → ℕ)
            → HasRoom shares (self.old.number + 1) (body_bytes body.now)
            → HasSlotRoom shares body.now sealed.now
            → H.honest → IsWithin shares (H.seen host.old).past
            → Throughout (IsWithin shares) (H.seen host.old).past (H.seen host.new).past }
        ensures only_here { H.honest → OnlyOwn (H.seen host.old).past (H.seen host.new).past }
        ensures cause { HasCause (H.seen host.old).disk_faults (H.seen host.new).disk_faults
            (IsErrOf result FilesFault.DiskFault) }
        ensures output { (H.seen host.new).tell_faults ≡ (H.seen host.old).tell_faults }
    {
        let bytes = write_body(alloc, body)?;
        write_sealed(alloc, host, body, sealed)?;
        let next = self.number + 1;
        begin(host, next, bytes.as_slice())?;
        self.number = next;
        self.journal = begun_journal(next);
        Ok(())
    }

    /// The number of the checkpoint.
    pub fn number(&self) -> u64
        ensures { result ≡ self.now.number }
    {
        self.number
    }

    /// The length of the journal in bytes.
    pub fn journal_bytes(&self) -> u64
        ensures { result ≡ self.now.journal.bytes }
    {
        self.journal.bytes()
    }
}
