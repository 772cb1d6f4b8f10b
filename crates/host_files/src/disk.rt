//! The folder of a database, under its lock.
ghost use Rattle.std.specs.Prelude.{◌≤◌, length, IfOk};

use crate::disk_error::DiskError;
use crate::folder_lock::{LockKind, take_lock, use_under};
use crate::handles::Handles;
use host_model::File;
use std::alloc::{AllocError, Global};
use std::fs;
use std::fs::Files;
use std::io::Error;

/// The files of one folder, whose lock is taken before the first of them is looked at.
#[derive(Drop)]
pub(crate) struct Disk<R: Files<File = fs::File> + Drop> {
    files: Handles<R>,
    kind: LockKind,
    /// The lock, once it is held.
    lock: Option<fs::File>,
}

impl<R: Files<File = fs::File> + Drop> Disk<R> {
    pub(crate) fn new(
        alloc: Global,
        system: R,
        folder: &str,
        kind: LockKind,
    ) -> Result<Disk<R>, AllocError> {
        Ok(Disk {
            files: Handles::new(alloc, system, folder, use_under(kind))?,
            kind,
            lock: None,
        })
    }

    /// Takes the lock, where it is not held yet.
    fn enter(&mut self) -> Result<(), DiskError> {
        if self.lock.is_some() {
            return Ok(());
        }
        match self.files.path_of("nda.lock") {
            Ok(path) => {
                self.lock = Some(take_lock(&self.files.system, path.as_str(), self.kind)?);
                Ok(())
            }
            Err(error) => Err(DiskError::Lock(Error::from(error))),
        }
    }

    pub(crate) fn len(&mut self, file: File) -> Result<u64, DiskError> {
        self.enter()?;
        self.files
            .len(file)
            .map_err(|error| DiskError::File(file.number(), error))
    }

    /// Reads as many bytes as fit, and fewer only at the file's end.
    pub(crate) fn read(&mut self, file: File, at: u64, into: &mut [u8]) -> Result<usize, DiskError>
        ensures { IfOk result (λ n. n ≤ length into.new) }
    {
        self.enter()?;
        match self.files.read(file, at, into) {
            Ok(size) => Ok(size),
            Err(error) => Err(DiskError::File(file.number(), error)),
        }
    }

    pub(crate) fn write_at(&mut self, file: File, at: u64, bytes: &[u8]) -> Result<(), DiskError> {
        self.enter()?;
        self.files
            .write_at(file, at, bytes)
            .map_err(|error| DiskError::File(file.number(), error))
    }

    pub(crate) fn cut(&mut self, file: File, len: u64) -> Result<(), DiskError> {
        self.enter()?;
        self.files
            .cut(file, len)
            .map_err(|error| DiskError::File(file.number(), error))
    }

    /// Makes a file hold what it reads as, and its name too.
    pub(crate) fn sync(&mut self, file: File) -> Result<(), DiskError> {
        self.enter()?;
        self.files
            .sync(file)
            .map_err(|error| DiskError::Sync(file.number(), error))?;
        self.files
            .sync_names()
            .map_err(|error| DiskError::Folder(error))
    }
}
