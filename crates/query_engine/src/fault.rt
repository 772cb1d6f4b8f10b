ghost use Rattle.std.specs.Prelude.{◌≡◌};
ghost use Rattle.query_engine.specs.declared.fault.PointFault.TheVariants.{Memory};

use std::alloc::{AllocError, AllocFailed};
use thiserror::Error;

/// Why points were not given.
#[derive(Clone, Copy, Debug, PartialEq, Eq, Error)]
pub enum PointFault {
    /// The points could not be read. Who has them counted it.
    #[error("the points could not be read")]
    Disk,
    /// There was no memory.
    #[error("out of memory")]
    Memory,
}

impl From<AllocError> for PointFault {
    ghost from_gives = { λ _ fault. fault ≡ Memory };

    fn from(_error: AllocError) -> PointFault {
        PointFault::Memory
    }
}

impl<T: Drop> From<AllocFailed<T>> for PointFault {
    ghost from_gives = { λ _ fault. fault ≡ Memory };

    fn from(_error: AllocFailed<T>) -> PointFault {
        PointFault::Memory
    }
}
