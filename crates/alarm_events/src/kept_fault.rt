ghost use Rattle.std.specs.Prelude.{◌≡◌};
ghost use Rattle.alarm_events.specs.Alarms.{kept_fault};

use field_codec::FieldFault;
use thiserror::Error;

/// Why bytes gave no alarms.
#[derive(Clone, Copy, Debug, PartialEq, Eq, Error)]
pub enum KeptFault {
    /// The bytes are in no form of alarms.
    #[error("the bytes are in no form of alarms")]
    BadBytes,
    /// There was no memory.
    #[error("out of memory")]
    Memory,
}

impl From<FieldFault> for KeptFault {
    ghost from_gives = { λ field fault. fault ≡ kept_fault field };

    fn from(fault: FieldFault) -> KeptFault {
        match fault {
            FieldFault::Memory => KeptFault::Memory,
            FieldFault::Short | FieldFault::Range | FieldFault::NotText => KeptFault::BadBytes,
        }
    }
}
