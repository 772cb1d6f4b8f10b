use thiserror::Error;

/// Why no checkpoint was loaded.
#[derive(Clone, Copy, Debug, PartialEq, Eq, Error)]
pub enum CheckFault {
    /// A call on the disk failed.
    #[error("the disk failed")]
    DiskFault,
    /// Neither file is open.
    #[error("no checkpoint is open")]
    NoneOpen,
    /// The open file that counts is shorter than it says: it ends at this byte.
    #[error("the checkpoint ends too early, at byte {0}")]
    BadSlot(u64),
    /// There was no memory.
    #[error("out of memory")]
    Memory,
}
