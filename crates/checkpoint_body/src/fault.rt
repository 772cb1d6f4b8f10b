use field_codec::FieldFault;
use thiserror::Error;

/// Why no body was read.
#[derive(Clone, Copy, Debug, PartialEq, Eq, Error)]
pub enum BodyFault {
    /// The bytes are the spelling of no body.
    #[error("not the body of a checkpoint")]
    BadBody,
    /// There was no memory.
    #[error("out of memory")]
    Memory,
}

impl From<FieldFault> for BodyFault {
    ghost use Rattle.std.specs.Prelude.{◌≡◌};
    ghost use Rattle.checkpoint_body.specs.Body.{body_fault};

    ghost from_gives = { λ field fault. fault ≡ body_fault field };

    fn from(fault: FieldFault) -> BodyFault {
        match fault {
            FieldFault::Memory => BodyFault::Memory,
            FieldFault::Short | FieldFault::Range | FieldFault::NotText => BodyFault::BadBody,
        }
    }
}
