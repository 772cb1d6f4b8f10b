ghost use Rattle.std.specs.Prelude.{◌≡◌};
ghost use Rattle.beat_entries.specs.declared.beat_fault.BeatFault.TheVariants.{Memory};

use history::BlockFault;
use std::alloc::AllocError;
use thiserror::Error;

/// Why a history did not take a beat.
#[derive(Clone, Copy, Debug, PartialEq, Eq, Error)]
pub enum BeatFault {
    /// The beat may not follow the history.
    #[error("{0}")]
    Refused(BlockFault),
    /// There was no memory.
    #[error("out of memory")]
    Memory,
}

impl From<AllocError> for BeatFault {
    ghost from_gives = { λ _ fault. fault ≡ Memory };

    fn from(_error: AllocError) -> BeatFault {
        BeatFault::Memory
    }
}
