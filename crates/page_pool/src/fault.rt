ghost use Rattle.std.specs.Prelude.{◌≡◌};
ghost use Rattle.page_pool.specs.declared.fault.PoolFault.TheVariants.{Memory};

use std::alloc::AllocError;
use thiserror::Error;

/// Why a pool did not get the pages that it was asked to hold.
#[derive(Clone, Copy, Debug, PartialEq, Eq, Error)]
pub enum PoolFault {
    /// There was no memory for a further page.
    #[error("out of memory")]
    Memory,
}

impl From<AllocError> for PoolFault {
    ghost from_gives = { λ _ fault. fault ≡ Memory };

    fn from(_error: AllocError) -> PoolFault {
        PoolFault::Memory
    }
}
