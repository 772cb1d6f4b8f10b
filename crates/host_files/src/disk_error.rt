use std::io;
use thiserror::Error;

/// Why a call on the disk failed.
#[derive(Clone, Copy, Debug, Error)]
pub enum DiskError {
    /// Another program holds the lock of this folder.
    #[error("another program is at work in this folder and holds nda.lock")]
    Taken,
    /// The lock of the folder could not be taken.
    #[error("nda.lock: {0}")]
    Lock(io::Error),
    /// A call on the file with this number.
    #[error("nda.{0}: {1}")]
    File(usize, io::Error),
    /// What was written to the file with this number could not be synced.
    #[error("nda.{0} could not be synced: {1}")]
    Sync(usize, io::Error),
    /// The names of the folder's files could not be synced.
    #[error("the folder could not be synced: {0}")]
    Folder(io::Error),
}
