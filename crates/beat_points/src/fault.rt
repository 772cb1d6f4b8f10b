ghost use Rattle.std.specs.Prelude.{◌≡◌};
ghost use Rattle.beat_points.specs.declared.fault.PointFault.TheVariants.{Memory};

use algorithms::AlgoFault;
use std::alloc::{AllocError, AllocFailed};
use thiserror::Error;

/// Why a beat gave no points, or was not taken.
#[derive(Clone, Copy, Debug, PartialEq, Eq, Error)]
pub enum PointFault {
    /// There was no memory.
    #[error("out of memory")]
    Memory,
}

impl From<AllocError> for PointFault {
    ghost from_gives = { λ _ fault. fault ≡ Memory };

    fn from(_error: AllocError) -> PointFault {
        PointFault::Memory
    }
}

impl<T: Drop> From<AllocFailed<T>> for PointFault {
    ghost from_gives = { λ _ fault. fault ≡ Memory };

    fn from(_error: AllocFailed<T>) -> PointFault {
        PointFault::Memory
    }
}

impl From<AlgoFault> for PointFault {
    ghost from_gives = { λ _ fault. fault ≡ Memory };

    fn from(_error: AlgoFault) -> PointFault {
        PointFault::Memory
    }
}
