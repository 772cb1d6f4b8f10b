ghost use Rattle.std.specs.Prelude.{◌≡◌, ℕ, ◌+◌, ◌-◌, ◌≤◌, ◌↔◌, List, length, min, take, drop, IsTrue, IfErr, IsErrOf, OnOk};
ghost use Rattle.host_model.specs.Images.{contents};
ghost use Rattle.host_model.specs.Past.{of};
ghost use Rattle.host_model.specs.Cause.{HasCause};
ghost use Rattle.journal_core.specs.declared.piece.TheConstants.{AHEAD};

use crate::fault::JournalFault;
use host_model::{File, Host};

/// The most bytes that are read ahead.
pub(crate) const AHEAD: usize = 4096;

/// A piece of a file that was read ahead: so many bytes from a place on.
#[derive(Debug, Drop)]
pub(crate) struct Piece {
    pub(crate) bytes: [u8; AHEAD],
    pub(crate) place: u64,
    pub(crate) count: usize,
    ghost within: { count ≤ AHEAD },
}

impl Piece {
    ghost use Rattle.journal_core.specs.Piece.{ReadsAhead};

    /// Nothing was read.
    pub(crate) fn new() -> Piece
        ensures { (bytes : List ℕ) → ReadsAhead bytes result }
    {
        Piece {
            bytes: [0; AHEAD],
            place: 0,
            count: 0,
        }
    }

    /// Whether the piece has so many bytes from a place on.
    pub(crate) fn covers(&self, place: u64, want: usize) -> bool
        ensures { IsTrue result → (self.now.place ≤ place)
            × (place - self.now.place + want ≤ self.now.count) }
    {
        if place < self.place {
            return false;
        }
        let skip = place - self.place;
        skip <= self.count as u64 && want <= self.count - skip as usize
    }

    /// Reads ahead from a place on.
    pub(crate) fn read<H: Host>(
        &mut self,
        host: &mut H,
        file: File,
        place: u64,
    ) -> Result<(), JournalFault>
        ensures ahead { OnOk result
            (H.honest → ReadsAhead (contents (of file (H.seen host.old).past)) self.new) }
        ensures place { OnOk result (self.new.place ≡ place) }
        ensures count { OnOk result
            (H.honest → self.new.count
            ≡ min AHEAD (length (contents (of file (H.seen host.old).past)) - place)) }
        ensures past { H.honest → (H.seen host.new).past ≡ (H.seen host.old).past }
        ensures faults { IfErr result (λ fault. fault ≡ JournalFault.DiskFault) }
        ensures cause { HasCause (H.seen host.old).disk_faults (H.seen host.new).disk_faults
            (IsErrOf result JournalFault.DiskFault) }
        ensures output { (H.seen host.new).tell_faults ≡ (H.seen host.old).tell_faults }
    {
        let Ok(count) = host.read(file, place, &mut self.bytes) else {
            return Err(JournalFault::DiskFault);
        };
        self.place = place;
        self.count = count;
        Ok(())
    }

    /// Copies bytes from a place on, as many as are wanted and the piece has.
    pub(crate) fn copy(&self, place: u64, want: usize, into: &mut [u8]) -> usize
        requires behind { self.now.place ≤ place }
        requires fits { want ≤ length into.old }
        ensures count { result ≡ min want (self.now.count - (place - self.now.place)) }
        ensures bytes { take result into.new
            ≡ take result (drop (place - self.now.place) self.now.bytes) }
    {
        let skip = place - self.place;
        if skip > self.count as u64 {
            return 0;
        }
        let start = skip as usize;
        let count = want.min(self.count - start);
        into[..count].copy_from_slice(&self.bytes[start..start + count]);
        count
    }
}
