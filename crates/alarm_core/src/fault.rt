ghost use Rattle.std.specs.Prelude.{◌≡◌};
ghost use Rattle.alarm_core.specs.Faults.{fault_of};
ghost use Rattle.alarm_core.specs.declared.fault.AlarmFault.{AlarmFault};
ghost use Rattle.alarm_core.specs.declared.fault.RestoreFault.{RestoreFault};

use query_engine::PointFault;
use std::alloc::AllocError;
use thiserror::Error;

/// Why a call on alarms gave no answer.
#[derive(Clone, Copy, Debug, PartialEq, Eq, Error)]
pub enum AlarmFault {
    /// The points could not be read. Who has them counted it.
    #[error("the points could not be read")]
    Disk,
    /// There was no memory.
    #[error("out of memory")]
    Memory,
}

/// Why kept alarms are not taken again.
#[derive(Clone, Copy, Debug, PartialEq, Eq, Error)]
pub enum RestoreFault {
    /// Their health text is refused, or a state is of a chart that is not there.
    #[error("what was kept is no alarms of this history")]
    BadKept,
    /// There was no memory.
    #[error("out of memory")]
    Memory,
}

impl From<AllocError> for AlarmFault {
    ghost from_gives = { λ _ fault. fault ≡ AlarmFault.Memory };

    fn from(_error: AllocError) -> AlarmFault {
        AlarmFault::Memory
    }
}

impl From<alarm_events::AlarmFault> for AlarmFault {
    ghost from_gives = { λ _ fault. fault ≡ AlarmFault.Memory };

    fn from(_error: alarm_events::AlarmFault) -> AlarmFault {
        AlarmFault::Memory
    }
}

impl From<PointFault> for AlarmFault {
    ghost from_gives = { λ error fault. fault ≡ fault_of error };

    fn from(error: PointFault) -> AlarmFault {
        match error {
            PointFault::Disk => AlarmFault::Disk,
            PointFault::Memory => AlarmFault::Memory,
        }
    }
}

impl From<AllocError> for RestoreFault {
    ghost from_gives = { λ _ fault. fault ≡ RestoreFault.Memory };

    fn from(_error: AllocError) -> RestoreFault {
        RestoreFault::Memory
    }
}

impl From<alarm_events::AlarmFault> for RestoreFault {
    ghost from_gives = { λ _ fault. fault ≡ RestoreFault.Memory };

    fn from(_error: alarm_events::AlarmFault) -> RestoreFault {
        RestoreFault::Memory
    }
}
