ghost use Rattle.std.specs.Prelude.{◌≡◌};
ghost use Rattle.algorithms.specs.declared.fault.AlgoFault.TheVariants.{Memory};

use std::alloc::{AllocError, AllocFailed};
use thiserror::Error;

/// Why a row gave no points.
#[derive(Clone, Copy, Debug, PartialEq, Eq, Error)]
pub enum AlgoFault {
    /// There was no memory.
    #[error("out of memory")]
    Memory,
}

impl From<AllocError> for AlgoFault {
    ghost from_gives = { λ _ fault. fault ≡ Memory };

    fn from(_error: AllocError) -> AlgoFault {
        AlgoFault::Memory
    }
}

impl<T: Drop> From<AllocFailed<T>> for AlgoFault {
    ghost from_gives = { λ _ fault. fault ≡ Memory };

    fn from(_error: AllocFailed<T>) -> AlgoFault {
        AlgoFault::Memory
    }
}
