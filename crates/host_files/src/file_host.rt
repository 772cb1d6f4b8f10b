ghost use Rattle.std.specs.Prelude.{◌≡◌, ◌^◌, ◌-◌, ◌<◌, ◌≤◌, ◌↔◌, [], IfOk, IsSome};
ghost use Rattle.host_model.specs.Calls.{raised};

use crate::disk::Disk;
use crate::disk_error::DiskError;
use crate::faults::Faults;
use crate::folder_lock::LockKind;
use host_model::{Failed, File, Host};
use std::alloc::{AllocError, Global};
use std::fs::Files;
use std::io::Write;
use std::{fs, io};

/// The files of one folder and a writer, which is standard output in the program. It tells nothing.
#[derive(Drop)]
pub struct FileHost<R: Files<File = fs::File> + Drop, W: Write + Drop> {
    disk: Disk<R>,
    output: W,
    disk_faults: Faults<DiskError>,
    tell_faults: Faults<io::Error>,
    reads: u64,
}

impl<R: Files<File = fs::File> + Drop, W: Write + Drop> FileHost<R, W> {
    /// The files of the current folder, whose lock the first call on the disk takes. No call has
    /// failed.
    pub fn new(
        alloc: Global,
        system: R,
        lock: LockKind,
        output: W,
    ) -> Result<FileHost<R, W>, AllocError>
        ensures disk { IfOk result
            (λ host. (⟦<FileHost<R, W> as Host>⟧.seen host).disk_faults ≡ 0) }
        ensures output { IfOk result
            (λ host. (⟦<FileHost<R, W> as Host>⟧.seen host).tell_faults ≡ 0) }
        ensures reads { IfOk result (λ host. (⟦<FileHost<R, W> as Host>⟧.seen host).reads ≡ 0) }
    {
        FileHost::in_folder(alloc, system, ".", lock, output)
    }

    /// The files of `folder`, whose lock the first call on the disk takes. No call has failed.
    pub fn in_folder(
        alloc: Global,
        system: R,
        folder: &str,
        lock: LockKind,
        output: W,
    ) -> Result<FileHost<R, W>, AllocError>
        ensures disk { IfOk result
            (λ host. (⟦<FileHost<R, W> as Host>⟧.seen host).disk_faults ≡ 0) }
        ensures output { IfOk result
            (λ host. (⟦<FileHost<R, W> as Host>⟧.seen host).tell_faults ≡ 0) }
        ensures reads { IfOk result (λ host. (⟦<FileHost<R, W> as Host>⟧.seen host).reads ≡ 0) }
    {
        Ok(FileHost {
            disk: Disk::new(alloc, system, folder, lock)?,
            output,
            disk_faults: Faults::new(),
            tell_faults: Faults::new(),
            reads: 0,
        })
    }

    /// Why the first call on the disk that failed did.
    pub fn disk_error(&self) -> Option<DiskError>
        ensures { IsSome result ↔ (0 < (⟦<FileHost<R, W> as Host>⟧.seen self.now).disk_faults) }
    {
        self.disk_faults.first()
    }

    /// Why the first call of `tell` that failed did.
    pub fn tell_error(&self) -> Option<io::Error>
        ensures { IsSome result ↔ (0 < (⟦<FileHost<R, W> as Host>⟧.seen self.now).tell_faults) }
    {
        self.tell_faults.first()
    }

    /// Counts a failed call on the disk.
    fn fail_disk(&mut self, reason: DiskError) -> Failed
        ensures count { self.new.disk_faults.count ≡ raised self.old.disk_faults.count }
        ensures range { self.old.disk_faults.count ≤ 2 ^ 64 - 1 }
        ensures output { self.new.tell_faults ≡ self.old.tell_faults }
        ensures reads { self.new.reads ≡ self.old.reads }
    {
        self.disk_faults.add(reason);
        Failed
    }
}

/// Sends all of `bytes`, and keeps none back.
fn send<W: Write>(output: &mut W, bytes: &[u8]) -> io::Result<()> {
    output.write_all(bytes)?;
    output.flush()
}

impl<R: Files<File = fs::File> + Drop, W: Write + Drop> Host for FileHost<R, W> {
    ghost honest = { ⊥ };

    ghost seen = { λ host. record {
      past = [];
      disk_faults = host.disk_faults.count;
      tell_faults = host.tell_faults.count;
      reads = host.reads;
    } };

    fn len(&mut self, file: File) -> Result<u64, Failed> {
        match self.disk.len(file) {
            Ok(len) => Ok(len),
            Err(reason) => Err(self.fail_disk(reason)),
        }
    }

    fn read(&mut self, file: File, at: u64, into: &mut [u8]) -> Result<usize, Failed> {
        self.reads = self.reads.saturating_add(1);
        match self.disk.read(file, at, into) {
            Ok(size) => Ok(size),
            Err(reason) => Err(self.fail_disk(reason)),
        }
    }

    fn write_at(&mut self, file: File, at: u64, bytes: &[u8]) -> Result<(), Failed> {
        match self.disk.write_at(file, at, bytes) {
            Ok(()) => Ok(()),
            Err(reason) => Err(self.fail_disk(reason)),
        }
    }

    fn cut(&mut self, file: File, len: u64) -> Result<(), Failed> {
        match self.disk.cut(file, len) {
            Ok(()) => Ok(()),
            Err(reason) => Err(self.fail_disk(reason)),
        }
    }

    fn sync(&mut self, file: File) -> Result<(), Failed> {
        match self.disk.sync(file) {
            Ok(()) => Ok(()),
            Err(reason) => Err(self.fail_disk(reason)),
        }
    }

    fn tell(&mut self, bytes: &[u8]) -> Result<(), Failed> {
        let sent = match self.tell_faults.first() {
            // A tell has failed: what was sent stays a prefix of what was to be told.
            Some(reason) => Err(reason),
            None => send(&mut self.output, bytes),
        };
        match sent {
            Ok(()) => Ok(()),
            Err(reason) => {
                self.tell_faults.add(reason);
                Err(Failed)
            }
        }
    }

    ghost reads_an_image = { λ host file honest. absurd honest };
}

#[cfg(test)]
mod tests;
