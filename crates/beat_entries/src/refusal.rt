ghost use Rattle.std.specs.Prelude.{◌≡◌};
ghost use Rattle.beat_entries.specs.declared.refusal.EntryRefusal.TheVariants.{Memory};

use std::alloc::{AllocError, AllocFailed};
use thiserror::Error;

/// Why a beat was not defined.
#[derive(Clone, Copy, Debug, PartialEq, Eq, Error)]
pub enum EntryRefusal {
    /// It does not go on from what the registry has.
    #[error("the entry does not go on from the one before it")]
    NotNext,
    /// There was no memory.
    #[error("out of memory")]
    Memory,
}

impl From<AllocError> for EntryRefusal {
    ghost from_gives = { λ _ refusal. refusal ≡ Memory };

    fn from(_error: AllocError) -> EntryRefusal {
        EntryRefusal::Memory
    }
}

impl<T: Drop> From<AllocFailed<T>> for EntryRefusal {
    ghost from_gives = { λ _ refusal. refusal ≡ Memory };

    fn from(_error: AllocFailed<T>) -> EntryRefusal {
        EntryRefusal::Memory
    }
}
