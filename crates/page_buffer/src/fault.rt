ghost use Rattle.std.specs.Prelude.{◌≡◌};
ghost use Rattle.page_buffer.specs.declared.fault.PageFault.TheVariants.{Memory};

use std::alloc::AllocError;
use thiserror::Error;

/// Why an item was not put into a page, or a page not written or read.
#[derive(Clone, Copy, Debug, PartialEq, Eq, Error)]
pub enum PageFault {
    /// The page has as many items as it may, or would have more.
    #[error("the page is full")]
    PageFull,
    /// The page is not full, and the moment is none that may follow in it.
    #[error("the moment is none that may follow in the page")]
    TooFar,
    /// The bytes are no page's.
    #[error("the bytes are no page")]
    BadPage,
    /// There was no memory to write a page.
    #[error("out of memory")]
    Memory,
}

impl From<AllocError> for PageFault {
    ghost from_gives = { λ _ fault. fault ≡ Memory };

    fn from(_error: AllocError) -> PageFault {
        PageFault::Memory
    }
}
