use crate::disk_error::DiskError;
use crate::regular::{Use, make_regular, open_regular};
use std::fs::{File, Files, TryLockError};
use std::io;
use std::io::{Error, ErrorKind};

/// Beside whom a command may use the files of its folder.
#[derive(Clone, Copy, Debug, PartialEq, Eq)]
pub enum LockKind {
    /// It uses none of them: each call on the disk fails.
    None,
    /// Beside others that only read them, as it does itself: each write and each cut fails.
    Shared,
    /// Beside nobody.
    Alone,
}

/// Takes the advisory lock on the file with this path, which is made where it is not there. The lock
/// is held until the file that comes back is closed, as it is when the process ends, however it ends.
pub(crate) fn take_lock<R: Files<File = File>>(
    system: &R,
    path: &str,
    kind: LockKind,
) -> Result<File, DiskError> {
    if kind == LockKind::None {
        let reason = Error::other("this command is to use no file");
        return Err(DiskError::Lock(reason));
    }
    let opened = open_or_make(system, path, kind).map_err(|error| DiskError::Lock(error))?;
    let taken = if kind == LockKind::Alone {
        opened.try_lock()
    } else {
        opened.try_lock_shared()
    };
    match taken {
        Ok(()) => Ok(opened),
        Err(TryLockError::WouldBlock) => Err(DiskError::Taken),
        Err(TryLockError::Error(error)) => Err(DiskError::Lock(error)),
    }
}

/// What a file is opened for under this lock.
pub(crate) fn use_under(kind: LockKind) -> Use {
    if kind == LockKind::Alone {
        Use::ReadAndWrite
    } else {
        Use::Read
    }
}

fn open_or_make<R: Files<File = File>>(system: &R, path: &str, kind: LockKind) -> io::Result<File> {
    if let Some(opened) = open_regular(system, path, use_under(kind))? {
        return Ok(opened);
    }
    match make_regular(system, path) {
        // Another program made it in between.
        Err(error) if error.kind() == ErrorKind::AlreadyExists => {
            open_regular(system, path, use_under(kind))?.ok_or(error)
        }
        outcome => outcome,
    }
}
