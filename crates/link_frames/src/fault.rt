use field_codec::FieldFault;
use std::alloc::{AllocError, AllocFailed};
use thiserror::Error;

/// Why bytes are no frame, or a frame has no bytes.
#[derive(Clone, Copy, Debug, PartialEq, Eq, Error)]
pub enum FrameFault {
    /// The body of a frame has more than 2^24 bytes.
    #[error("a frame is too long")]
    FrameTooLong,
    /// The body is in the form of no frame.
    #[error("a frame is in no form")]
    BadFrame,
    /// There was no memory.
    #[error("out of memory")]
    Memory,
}

impl From<AllocError> for FrameFault {
    ghost use Rattle.std.specs.Prelude.{◌≡◌};
    ghost use Rattle.link_frames.specs.declared.fault.FrameFault.TheVariants.{Memory};

    ghost from_gives = { λ _ fault. fault ≡ Memory };

    fn from(_error: AllocError) -> FrameFault {
        FrameFault::Memory
    }
}

impl<T: Drop> From<AllocFailed<T>> for FrameFault {
    ghost use Rattle.std.specs.Prelude.{◌≡◌};
    ghost use Rattle.link_frames.specs.declared.fault.FrameFault.TheVariants.{Memory};

    ghost from_gives = { λ _ fault. fault ≡ Memory };

    fn from(_error: AllocFailed<T>) -> FrameFault {
        FrameFault::Memory
    }
}

impl From<FieldFault> for FrameFault {
    ghost use Rattle.std.specs.Prelude.{◌≡◌};
    ghost use Rattle.link_frames.specs.Fault.{frame_fault};

    ghost from_gives = { λ field fault. fault ≡ frame_fault field };

    fn from(fault: FieldFault) -> FrameFault {
        match fault {
            FieldFault::Short | FieldFault::Range | FieldFault::NotText => FrameFault::BadFrame,
            FieldFault::Memory => FrameFault::Memory,
        }
    }
}
