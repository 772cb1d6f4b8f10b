ghost use Rattle.std.specs.Prelude.{◌≡◌};
ghost use Rattle.alarm_events.specs.declared.fault.AlarmFault.TheVariants.{Memory};

use std::alloc::{AllocError, AllocFailed};
use thiserror::Error;

/// Why a call on alarms gave no answer.
#[derive(Clone, Copy, Debug, PartialEq, Eq, Error)]
pub enum AlarmFault {
    /// There was no memory.
    #[error("out of memory")]
    Memory,
}

impl From<AllocError> for AlarmFault {
    ghost from_gives = { λ _ fault. fault ≡ Memory };

    fn from(_error: AllocError) -> AlarmFault {
        AlarmFault::Memory
    }
}

impl<T: Drop> From<AllocFailed<T>> for AlarmFault {
    ghost from_gives = { λ _ fault. fault ≡ Memory };

    fn from(_error: AllocFailed<T>) -> AlarmFault {
        AlarmFault::Memory
    }
}
