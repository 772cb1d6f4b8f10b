ghost use Rattle.std.specs.Prelude.{◌≡◌, ℕ, ◌+◌, ◌≤◌, List, [], ◌∷◌, length, min, take, IfOk, OnOk};
ghost use Rattle.host_model.specs.declared.file.File.{File as AFile};
ghost use Rattle.host_model.specs.Images.{Change, Wrote, Cut, Synced, contents, written};
ghost use Rattle.host_model.specs.Past.{Event, of};
ghost use Rattle.host_model.specs.Entry.{event_of, past_of};
ghost use Rattle.host_model.specs.Replay.{Touches, IsLeft, Replays};

use crate::contents::Contents;
use crate::entry::Entry;
use crate::file::File;
use std::alloc::{AllocError, Global};

/// What a file read as after some of its changes, and what a crash would have left of it then: what
/// was synced, or that filled with a byte where it was touched since.
#[derive(Drop)]
pub(crate) struct Replay {
    pub(crate) now: Contents,
    pub(crate) left: Contents,
}

/// Fills the places from `at` up to `end`, if there is a byte to fill them with.
fn touch(left: &mut Contents, fill: Option<u8>, at: usize, end: usize) -> Result<(), AllocError>
    requires { at ≤ end }
    ensures { OnOk result (Touches fill at end left.old left.new) }
{
    match fill {
        None => Ok(()),
        Some(byte) => left.fill(at, end, byte),
    }
}

impl Replay {
    /// Before any change.
    pub(crate) fn new(alloc: Global) -> Replay
        ensures now { result.now ≡ [] }
        ensures left { result.left ≡ [] }
    {
        Replay {
            now: Contents::new(alloc),
            left: Contents::new(alloc),
        }
    }

    /// After a write of `bytes` from the place `at` on.
    fn write(&mut self, at: usize, bytes: &[u8], fill: Option<u8>) -> Result<(), AllocError>
        ensures now { OnOk result (self.new.now ≡ written self.old.now at bytes.now) }
        ensures left { OnOk result
            (Touches fill at (at + length bytes.now) self.old.left self.new.left) }
    {
        self.now.write(at, bytes)?;
        self.fail_write(at, bytes.len(), fill)
    }

    /// After a write of `size` bytes from the place `at` on that failed.
    fn fail_write(&mut self, at: usize, size: usize, fill: Option<u8>) -> Result<(), AllocError>
        ensures now { self.new.now ≡ self.old.now }
        ensures left { OnOk result (Touches fill at (at + size) self.old.left self.new.left) }
    {
        let Some(end) = at.checked_add(size) else {
            return Err(AllocError);
        };
        touch(&mut self.left, fill, at, end)
    }

    /// After a cut to `len` bytes.
    fn cut(&mut self, len: usize, fill: Option<u8>) -> Result<(), AllocError>
        ensures now { self.new.now ≡ take len self.old.now }
        ensures left { OnOk result (Touches fill (min len (length self.old.left))
            (length self.old.left) self.old.left self.new.left) }
    {
        self.now.cut(len);
        self.fail_cut(len, fill)
    }

    /// After a cut to `len` bytes that failed.
    fn fail_cut(&mut self, len: usize, fill: Option<u8>) -> Result<(), AllocError>
        ensures now { self.new.now ≡ self.old.now }
        ensures left { OnOk result (Touches fill (min len (length self.old.left))
            (length self.old.left) self.old.left self.new.left) }
    {
        let end = self.left.len();
        touch(&mut self.left, fill, len.min(end), end)
    }

    /// After a sync.
    fn sync(&mut self, alloc: Global) -> Result<(), AllocError>
        ensures now { self.new.now ≡ self.old.now }
        ensures left { OnOk result (self.new.left ≡ self.old.now) }
    {
        self.left = Contents::from_slice(alloc, self.now.as_slice())?;
        Ok(())
    }

    /// After one more call, where it changed this file.
    pub(crate) fn step(
        &mut self,
        alloc: Global,
        entry: &Entry,
        file: File,
        fill: Option<u8>,
    ) -> Result<(), AllocError>
        ensures { (past : List Event) → Replays fill file past self.old.now self.old.left
            → OnOk result (Replays fill file (event_of past entry.now
            ∷ past) self.new.now self.new.left) }
    {
        match entry {
            Entry::Write(other, at, bytes) => {
                if !file.is(*other) {
                    return Ok(());
                }
                self.write(*at as usize, bytes.as_slice(), fill)
            }
            Entry::FailedWrite(other, at, size) => {
                if !file.is(*other) {
                    return Ok(());
                }
                self.fail_write(*at as usize, *size as usize, fill)
            }
            Entry::CutTo(other, len) => {
                if !file.is(*other) {
                    return Ok(());
                }
                self.cut(*len as usize, fill)
            }
            Entry::FailedCutTo(other, len) => {
                if !file.is(*other) {
                    return Ok(());
                }
                self.fail_cut(*len as usize, fill)
            }
            Entry::Sync(other) => {
                if file.is(*other) {
                    self.sync(alloc)
                } else {
                    Ok(())
                }
            }
            Entry::Tell(_) => Ok(()),
        }
    }
}

/// What a crash leaves of a file after these calls: what was synced, or that filled with a byte where
/// it was touched since.
pub(crate) fn replayed(
    alloc: Global,
    entries: &[Entry],
    file: File,
    fill: Option<u8>,
) -> Result<Contents, AllocError>
    ensures { IfOk result (λ left. IsLeft fill (of file (past_of entries.now)) left) }
{
    let mut replay = Replay::new(alloc);
    for entry in entries {
        replay.step(alloc, entry, file, fill)?;
    }
    let Replay { now: _, left } = replay;
    Ok(left)
}
