ghost use Rattle.std.specs.Prelude.{◌≡◌};
ghost use Rattle.field_codec.specs.declared.fault.FieldFault.TheVariants.{Memory};

use std::alloc::AllocError;
use thiserror::Error;

/// Why a field was not taken, or not put.
#[derive(Clone, Copy, Debug, PartialEq, Eq, Error)]
pub enum FieldFault {
    /// Fewer bytes are left than the field has.
    #[error("the bytes end inside a field")]
    Short,
    /// A flag is neither 0 nor 1, or a count is above its maximum.
    #[error("a flag or a count is out of range")]
    Range,
    /// A text is not UTF-8.
    #[error("a text is not UTF-8")]
    NotText,
    /// There was no memory to put a field.
    #[error("out of memory")]
    Memory,
}

impl From<AllocError> for FieldFault {
    ghost from_gives = { λ _ fault. fault ≡ Memory };

    fn from(_error: AllocError) -> FieldFault {
        FieldFault::Memory
    }
}
