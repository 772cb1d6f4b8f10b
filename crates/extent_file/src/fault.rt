ghost use Rattle.std.specs.Prelude.{◌≡◌};
ghost use Rattle.extent_file.specs.declared.fault.WriteFault.TheVariants.{Memory};

use std::alloc::AllocError;
use thiserror::Error;

/// Why an extent was not opened, or a page of it not read.
#[derive(Clone, Copy, Debug, PartialEq, Eq, Error)]
pub enum ExtentFault {
    /// A call on the disk failed.
    #[error("the disk failed")]
    DiskFault,
    /// The bytes are no extent: at this place of the file the form does not go on.
    #[error("the bytes are no extent, at byte {0}")]
    BadExtent(u64),
    /// There was no memory.
    #[error("out of memory")]
    Memory,
}

/// Why an extent was not written.
#[derive(Clone, Copy, Debug, PartialEq, Eq, Error)]
pub enum WriteFault {
    /// A call on the disk failed.
    #[error("the disk failed")]
    DiskFault,
    /// There was no memory.
    #[error("out of memory")]
    Memory,
}

impl From<AllocError> for WriteFault {
    ghost from_gives = { λ _ fault. fault ≡ Memory };

    fn from(_error: AllocError) -> WriteFault {
        WriteFault::Memory
    }
}
