ghost use Rattle.std.specs.Prelude.{◌≡◌};
ghost use Rattle.replication.specs.declared.fault.CopyFault.TheVariants.{Memory};

use std::alloc::{AllocError, AllocFailed};
use thiserror::Error;

/// Why a call on copies did not do what it was asked to do.
#[derive(Clone, Copy, Debug, PartialEq, Eq, Error)]
pub enum CopyFault {
    /// There was no memory.
    #[error("out of memory")]
    Memory,
}

impl From<AllocError> for CopyFault {
    ghost from_gives = { λ _ fault. fault ≡ Memory };

    fn from(_error: AllocError) -> CopyFault {
        CopyFault::Memory
    }
}

impl<T: Drop> From<AllocFailed<T>> for CopyFault {
    ghost from_gives = { λ _ fault. fault ≡ Memory };

    fn from(_error: AllocFailed<T>) -> CopyFault {
        CopyFault::Memory
    }
}
