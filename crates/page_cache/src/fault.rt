ghost use Rattle.std.specs.Prelude.{◌≡◌};
ghost use Rattle.page_cache.specs.declared.fault.CacheFault.TheVariants.{FetchFault, Memory};

use host_model::Failed;
use page_pool::PoolFault;
use std::alloc::AllocError;
use thiserror::Error;

/// Why a page was not given.
#[derive(Clone, Copy, Debug, PartialEq, Eq, Error)]
pub enum CacheFault {
    /// The page was not there, and its fetch failed.
    #[error("a page was not fetched")]
    FetchFault,
    /// There was no memory for the page.
    #[error("out of memory")]
    Memory,
}

impl From<AllocError> for CacheFault {
    ghost from_gives = { λ _ fault. fault ≡ Memory };

    fn from(_error: AllocError) -> CacheFault {
        CacheFault::Memory
    }
}

impl From<PoolFault> for CacheFault {
    ghost from_gives = { λ _ fault. fault ≡ Memory };

    fn from(_fault: PoolFault) -> CacheFault {
        CacheFault::Memory
    }
}

impl From<Failed> for CacheFault {
    ghost from_gives = { λ _ fault. fault ≡ FetchFault };

    fn from(_failed: Failed) -> CacheFault {
        CacheFault::FetchFault
    }
}
