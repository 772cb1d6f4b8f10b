ghost use Rattle.std.specs.Prelude.{◌≡◌};
ghost use Rattle.side_codec.specs.Sides.{side_fault};

use field_codec::FieldFault;
use thiserror::Error;

/// Why bytes gave no side.
#[derive(Clone, Copy, Debug, PartialEq, Eq, Error)]
pub enum SideFault {
    /// The bytes are in no form of a side.
    #[error("the bytes are in no form of a side")]
    BadBytes,
    /// There was no memory.
    #[error("out of memory")]
    Memory,
}

impl From<FieldFault> for SideFault {
    ghost from_gives = { λ field fault. fault ≡ side_fault field };

    fn from(fault: FieldFault) -> SideFault {
        match fault {
            FieldFault::Memory => SideFault::Memory,
            FieldFault::Short | FieldFault::Range | FieldFault::NotText => SideFault::BadBytes,
        }
    }
}
