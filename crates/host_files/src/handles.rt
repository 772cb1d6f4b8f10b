//! The files of a database, each opened where it is first used.
ghost use Rattle.std.specs.Prelude.{◌≡◌, ◌≤◌, ◌↔◌, length, vec_len, All, IsTrue, IfOk};

use crate::regular::{Use, make_regular, open_regular};
use host_model::File;
use std::alloc::{AllocError, Global};
use std::fs::Files;
use std::io::{Error, ErrorKind};
use std::os::unix::fs::FileExt;
use std::{fs, io};

/// How many files there are.
const FILES: usize = 9;

/// What is known of one file.
#[derive(Drop)]
enum Handle {
    /// It was not used yet, or is not there.
    Closed,
    Open(fs::File),
    /// A sync of it failed. The system may have let go of what was written and yet answer the next
    /// sync with success, so no later call is trusted.
    Lost,
}

/// What is known of the names in the folder.
#[derive(Clone, Copy, Debug, PartialEq, Eq)]
enum Names {
    /// They were synced since the last file was made.
    Synced,
    /// A file was made since, by this program or by one before it that crashed.
    Changed,
    /// A sync of them failed.
    Lost,
}

/// The files `nda.0` to `nda.8` of one folder, in the order of `File`. A file that is not there reads
/// as one of no bytes, and the first write makes it.
#[derive(Drop)]
pub(crate) struct Handles<R: Files<File = fs::File> + Drop> {
    alloc: Global,
    pub(crate) system: R,
    folder: String,
    /// What the files are opened for.
    opened_for: Use,
    /// In the order of the files' numbers.
    handles: Vec<Handle>,
    names: Names,
    ghost all: { vec_len handles ≡ 9 },
}

impl<R: Files<File = fs::File> + Drop> Handles<R> {
    pub(crate) fn new(
        alloc: Global,
        system: R,
        folder: &str,
        opened_for: Use,
    ) -> Result<Handles<R>, AllocError> {
        let mut handles = Vec::with_capacity(alloc, FILES)?;
        for _ in 0..FILES {
            handles.push(Handle::Closed)?;
        }
        Ok(Handles {
            alloc,
            system,
            folder: String::from_str(alloc, folder)?,
            opened_for,
            handles,
            names: Names::Changed,
        })
    }

    /// The path of what has this name in the folder.
    pub(crate) fn path_of(&self, name: &str) -> Result<String, AllocError> {
        let folder = self.folder.as_str();
        format!(in self.alloc; "{folder}/{name}")
    }

    fn path(&self, file: File) -> Result<String, AllocError> {
        let folder = self.folder.as_str();
        let number = file.number();
        format!(in self.alloc; "{folder}/nda.{number}")
    }

    /// Opens a file, if it is there.
    fn find(&mut self, file: File) -> io::Result<()> {
        match &self.handles[file.number()] {
            Handle::Open(_) => return Ok(()),
            Handle::Lost => return Err(lost()),
            Handle::Closed => {}
        }
        let path = self.path(file)?;
        if let Some(opened) = open_regular(&self.system, path.as_str(), self.opened_for)? {
            self.handles[file.number()] = Handle::Open(opened);
        }
        Ok(())
    }

    /// The file, where it is open.
    fn opened(&self, file: File) -> Option<&fs::File> {
        match &self.handles[file.number()] {
            Handle::Open(opened) => Some(opened),
            Handle::Closed | Handle::Lost => None,
        }
    }

    /// The file, which is made where it is not there.
    fn find_or_make(&mut self, file: File) -> io::Result<&fs::File> {
        self.find(file)?;
        if let Handle::Closed = &self.handles[file.number()] {
            self.make(file)?;
        }
        self.opened(file)
            .ok_or(io::Error::from(ErrorKind::NotFound))
    }

    fn make(&mut self, file: File) -> io::Result<()> {
        if self.opened_for == Use::Read {
            return Err(io::Error::from(ErrorKind::PermissionDenied));
        }
        let path = self.path(file)?;
        let made = make_regular(&self.system, path.as_str())?;
        self.handles[file.number()] = Handle::Open(made);
        if self.names == Names::Synced {
            self.names = Names::Changed;
        }
        Ok(())
    }

    pub(crate) fn len(&mut self, file: File) -> io::Result<u64> {
        self.find(file)?;
        match self.opened(file) {
            Some(opened) => Ok(opened.metadata()?.len()),
            None => Ok(0),
        }
    }

    /// Reads as many bytes as fit, and fewer only at the file's end.
    pub(crate) fn read(&mut self, file: File, at: u64, into: &mut [u8]) -> io::Result<usize>
        ensures { IfOk result (λ n. n ≤ length into.new) }
    {
        self.find(file)?;
        match self.opened(file) {
            Some(opened) => read_all_at(opened, at, into),
            None => Ok(0),
        }
    }

    /// Writes bytes from the place `at` on. Zeros that begin at the file's end are not written: the file
    /// is made longer, and has a hole there, which reads as zeros and takes no room.
    pub(crate) fn write_at(&mut self, file: File, at: u64, bytes: &[u8]) -> io::Result<()> {
        let opened = self.find_or_make(file)?;
        if is_zeros(bytes) && opened.metadata()?.len() == at {
            return opened.set_len(at.saturating_add(bytes.len() as u64));
        }
        opened.write_all_at(bytes, at)
    }

    pub(crate) fn cut(&mut self, file: File, len: u64) -> io::Result<()> {
        self.find_or_make(file)?.set_len(len)
    }

    /// Makes a file hold what it reads as. After a sync that failed the file is lost.
    pub(crate) fn sync(&mut self, file: File) -> io::Result<()> {
        self.find(file)?;
        let synced = match self.opened(file) {
            Some(opened) => opened.sync_data(),
            None => Ok(()),
        };
        if synced.is_err() {
            self.handles[file.number()] = Handle::Lost;
        }
        synced
    }

    /// Makes the folder hold the names that it has. After an `Err` they are lost.
    pub(crate) fn sync_names(&mut self) -> io::Result<()> {
        match self.names {
            Names::Synced => Ok(()),
            Names::Lost => Err(lost()),
            Names::Changed => {
                let synced = sync_folder(&self.system, self.folder.as_str());
                self.names = if synced.is_ok() {
                    Names::Synced
                } else {
                    Names::Lost
                };
                synced
            }
        }
    }
}

/// What each call answers where a sync has failed.
fn lost() -> Error {
    Error::other("a sync of it failed before")
}

fn sync_folder<R: Files<File = fs::File>>(system: &R, folder: &str) -> io::Result<()> {
    fs::File::open(system, folder)?.sync_all()
}

/// Whether no byte is other than 0.
fn is_zeros(bytes: &[u8]) -> bool
    ensures { IsTrue result ↔ All (λ byte. byte ≡ 0) bytes.now }
{
    bytes.iter().all(|byte| *byte == 0)
}

/// Reads from the place `at` on until `into` is full or the file ends.
fn read_all_at<F: FileExt>(file: &F, at: u64, into: &mut [u8]) -> io::Result<usize>
    ensures { IfOk result (λ n. n ≤ length into.new) }
{
    let mut filled = 0;
    for _ in 0..u64::MAX {
        if filled >= into.len() {
            return Ok(filled);
        }
        match file.read_at(&mut into[filled..], at.saturating_add(filled as u64)) {
            Ok(0) => return Ok(filled),
            Ok(more) => filled += more,
            Err(error) if error.kind() == ErrorKind::Interrupted => {}
            Err(error) => return Err(error),
        }
    }
    Err(io::Error::from(ErrorKind::Interrupted))
}

#[cfg(test)]
mod tests;
