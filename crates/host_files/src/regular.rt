//! Regular files, under descriptors that are no standard stream's.
use crate::standard::is_standard;
use std::fs::{File, Files, Metadata, OpenOptions};
use std::io::{Error, ErrorKind};
use std::os::fd::AsRawFd;
use std::{fs, io};

/// What a file is opened for.
#[derive(Clone, Copy, Debug, PartialEq, Eq)]
pub(crate) enum Use {
    Read,
    ReadAndWrite,
}

/// Opens the regular file with this path, or none where nothing has the path. Anything else, as a
/// folder or a pipe, is not opened; and neither is a link that leads nowhere taken for no file.
pub(crate) fn open_regular<R: Files<File = File>>(
    system: &R,
    path: &str,
    for_: Use,
) -> io::Result<Option<File>> {
    if !has_name(system, path)? {
        return Ok(None);
    }
    require_regular(&fs::metadata(system, path)?)?;
    let opened = OpenOptions::new()
        .read(true)
        .write(for_ == Use::ReadAndWrite)
        .open(system, path)?;
    // Something else may have come to stand there in between.
    require_regular(&opened.metadata()?)?;
    kept(opened).map(Some)
}

/// Makes an empty file with this path, which nothing has.
pub(crate) fn make_regular<R: Files<File = File>>(system: &R, path: &str) -> io::Result<File> {
    let made = OpenOptions::new()
        .read(true)
        .write(true)
        .create_new(true)
        .open(system, path)?;
    kept(made)
}

/// Whether anything has this path, be it a link that leads nowhere.
fn has_name<R: Files>(system: &R, path: &str) -> io::Result<bool> {
    match fs::symlink_metadata(system, path) {
        Ok(_) => Ok(true),
        Err(error) if error.kind() == ErrorKind::NotFound => Ok(false),
        Err(error) => Err(error),
    }
}

fn require_regular(found: &Metadata) -> io::Result<()> {
    if found.is_file() {
        Ok(())
    } else {
        Err(Error::new(ErrorKind::InvalidInput, "it is no regular file"))
    }
}

/// What was opened, unless it came to stand in the place of a standard stream: then it is closed.
pub(crate) fn kept<T: AsRawFd + Drop>(opened: T) -> io::Result<T> {
    if is_standard(opened.as_raw_fd()) {
        Err(Error::other("a standard stream is closed, and nothing could stand in for it"))
    } else {
        Ok(opened)
    }
}
