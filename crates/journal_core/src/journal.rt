ghost use Rattle.std.specs.Prelude.{◌≡◌, ℕ, ◌+◌, ◌<◌, ◌≤◌, ◌↔◌, ◌⊎◌, List, [], ◌∷◌, ◌++◌, length, IfOk, IfErr, IsErrOf, OnOk, OnErr};
ghost use Rattle.host_model.specs.Images.{Synced, contents, greatest, IsImage};
ghost use Rattle.host_model.specs.Past.{On, of};
ghost use Rattle.host_model.specs.Cause.{HasCause};
ghost use Rattle.host_model.specs.Moments.{Throughout, EveryImage, OnlyOn};
ghost use Rattle.journal_core.specs.Form.{record_size, FailsAt};
ghost use Rattle.journal_core.specs.declared.journal.TheConstants.{EMPTY_SIZE, JOURNAL_LIMIT, RECORD_LIMIT};

use crate::fault::{AppendFault, JournalFault};
use crate::reading::{RecordList, read_journal};
use crate::store::store;
use host_model::{File, Host};
use std::alloc::Global;
use std::marker::Model;

/// How many bytes a journal with no record has: the header and the closed gate.
pub const EMPTY_SIZE: u64 = 17;

/// The most bytes that a record may have.
pub const RECORD_LIMIT: usize = 1 << 26;

/// The most bytes that a journal may have before a record is added.
pub const JOURNAL_LIMIT: u64 = 1 << 60;

/// A journal in a file of a host, whose records have been read. It holds where the journal ends, and
/// no record.
#[derive(Debug, Drop)]
pub struct Journal {
    file: File,
    generation: u64,
    /// The length of the journal, up to and with its last gate.
    bytes: u64,
}

impl Model for Journal {
    ghost use Rattle.std.specs.Prelude.{◌≤◌};
    ghost use Rattle.journal_core.specs.Journal.{JournalState};
    ghost use Rattle.journal_core.specs.declared.journal.TheConstants.{EMPTY_SIZE};

    ghost Value = { JournalState };

    ghost view = { λ journal.
        record { file = journal.file; generation = journal.generation; bytes = journal.bytes } };

    ghost invariant = { λ journal. EMPTY_SIZE ≤ journal.bytes };
}

impl Journal {
    ghost use Rattle.journal_core.specs.Journal.{IsOpen, StandsForEither};

    /// The journal that `prepare` leaves in a file: it has no record.
    pub fn empty(file: File, generation: u64) -> Journal
        ensures { result ≡ record { file = file; generation = generation; bytes = EMPTY_SIZE } }
    {
        Journal {
            file,
            generation,
            bytes: EMPTY_SIZE,
        }
    }

    /// Opens the journal of this generation in a file, and gives its records. It syncs the file first
    /// and then only reads.
    pub fn open<H: Host>(
        alloc: Global,
        host: &mut H,
        file: File,
        generation: u64,
    ) -> Result<(Journal, RecordList), JournalFault>
        ensures opened { IfOk result
            (λ found. H.honest → IsOpen (of file (H.seen host.new).past) found.0 found.1) }
        ensures journal { IfOk result
            (λ found. (found.0.file ≡ file) × (found.0.generation ≡ generation)) }

        // The bytes are no journal of this generation, and that is the first place at which none goes on.
        ensures not_a_journal { (place : ℕ) → IsErrOf result (JournalFault.NotAJournal place)
            → H.honest
            → FailsAt generation (contents (of file (H.seen host.new).past)) place }

        // It begins with a sync, and nothing else happens to the disk.
        ensures begins { H.honest → IsErrOf result JournalFault.DiskFault
            ⊎ ((H.seen host.new).past ≡ On file Synced ∷ (H.seen host.old).past) }
        ensures same_bytes { H.honest
            → contents (of file (H.seen host.new).past)
            ≡ contents (of file (H.seen host.old).past) }
        ensures any_moment { H.honest
            → Throughout (EveryImage file (IsImage (of file (H.seen host.old).past)))
            (H.seen host.old).past (H.seen host.new).past }
        ensures only_here { H.honest → OnlyOn file (H.seen host.old).past (H.seen host.new).past }
        ensures cause { HasCause (H.seen host.old).disk_faults (H.seen host.new).disk_faults
            (IsErrOf result JournalFault.DiskFault) }
        ensures output { (H.seen host.new).tell_faults ≡ (H.seen host.old).tell_faults }
    {
        if host.sync(file).is_err() {
            return Err(JournalFault::DiskFault);
        }
        let (gate, records) = read_journal(alloc, host, file, generation)?;
        let journal = Journal {
            file,
            generation,
            bytes: gate + 1,
        };
        Ok((journal, records))
    }

    /// Adds a record. At `Ok` it is stored and synced, so that it is there after every later crash. After
    /// `DiskFault` each crash leaves the records with the new one or without it, as at every moment of
    /// the call, and the journal must be opened again.
    pub fn append<H: Host>(&mut self, host: &mut H, body: &[u8]) -> Result<(), AppendFault>
        requires room { self.old.bytes ≤ JOURNAL_LIMIT }
        requires open { H.honest → (records : List (List ℕ))
            × IsOpen (of self.old.file (H.seen host.old).past) self.old records }
        ensures stored { OnOk result
            (H.honest → (records : List (List ℕ))
            → IsOpen (of self.old.file (H.seen host.old).past) self.old records
            → IsOpen (of self.old.file (H.seen host.new).past) self.new
            (records ++ body.now ∷ [])) }
        ensures any_moment { H.honest → (records : List (List ℕ))
            → IsOpen (of self.old.file (H.seen host.old).past) self.old records
            → Throughout (EveryImage self.old.file
            (StandsForEither self.old.generation records body.now)) (H.seen host.old).past
            (H.seen host.new).past }

        // No crash leaves a file that is longer than it could be before, or than the record's end.
        ensures bound { (size : ℕ) → self.old.bytes + record_size body.now ≤ size → H.honest
            → greatest (of self.old.file (H.seen host.old).past) ≤ size
            → Throughout (λ past. greatest (of self.old.file past) ≤ size) (H.seen host.old).past
            (H.seen host.new).past }

        // The images of all other files and the output stay.
        ensures only_here { H.honest
            → OnlyOn self.old.file (H.seen host.old).past (H.seen host.new).past }
        ensures journal { OnOk result
            (self.new ≡ record self.old { bytes = self.old.bytes + 5 + length body.now }) }
        ensures journal_stays { OnErr result (self.new ≡ self.old) }

        // A record that is too long is refused before the host is asked for anything.
        ensures too_long { IsErrOf result AppendFault.TooLong ↔ (RECORD_LIMIT < length body.now) }
        ensures untouched { IsErrOf result AppendFault.TooLong → host.new ≡ host.old }
        ensures cause { HasCause (H.seen host.old).disk_faults (H.seen host.new).disk_faults
            (IsErrOf result AppendFault.DiskFault) }
        ensures output { (H.seen host.new).tell_faults ≡ (H.seen host.old).tell_faults }
        ensures reads { (H.seen host.new).reads ≡ (H.seen host.old).reads }
    {
        if body.len() > RECORD_LIMIT {
            return Err(AppendFault::TooLong);
        }
        if store(host, self.file, self.bytes - 1, body).is_err() {
            return Err(AppendFault::DiskFault);
        }
        self.bytes += 5 + body.len() as u64;
        Ok(())
    }

    /// The length of the journal in bytes, up to and with its last gate. Bytes behind it have no
    /// meaning.
    pub fn bytes(&self) -> u64
        ensures { result ≡ self.now.bytes }
    {
        self.bytes
    }
}
