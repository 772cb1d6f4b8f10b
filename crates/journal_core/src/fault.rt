use crate::journal::RECORD_LIMIT;
use thiserror::Error;

/// Why a journal was not opened.
#[derive(Clone, Copy, Debug, PartialEq, Eq, Error)]
pub enum JournalFault {
    /// A call on the disk failed.
    #[error("the disk failed")]
    DiskFault,
    /// The file is no journal of the generation that was asked for: no journal goes on at this place.
    #[error("no journal goes on at byte {0}")]
    NotAJournal(u64),
    /// There was no memory.
    #[error("out of memory")]
    Memory,
}

/// Why a record was not added to a journal.
#[derive(Clone, Copy, Debug, PartialEq, Eq, Error)]
pub enum AppendFault {
    /// A call on the disk failed.
    #[error("the disk failed")]
    DiskFault,
    /// A record of more than `RECORD_LIMIT` bytes.
    #[error("a record has more than {most} bytes", most = RECORD_LIMIT)]
    TooLong,
}
