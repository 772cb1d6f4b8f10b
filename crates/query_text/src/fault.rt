ghost use Rattle.std.specs.Prelude.{◌≡◌};
ghost use Rattle.query_text.specs.Fault.{fault_number};
ghost use Rattle.query_text.specs.declared.fault.QueryFault.TheVariants.{BadWord, Memory};

use std::alloc::{AllocError, AllocFailed};
use thiserror::Error;
use words::OpenQuote;

/// Why the text of a query is refused, or not answered.
///
/// Of the refusals of one text the first in this order is told.
#[derive(Clone, Copy, Debug, PartialEq, Eq, Error)]
pub enum QueryFault {
    /// The text has fewer than five words, a quote that is not closed, or a pattern of more than 256
    /// words.
    #[error("a query needs five words, whole quotes and at most 256 words of a pattern")]
    BadWord,
    /// A word in the place of a number is no whole number, or is out of its limits.
    #[error("a number is bad")]
    BadNumber,
    /// There is no chart with this id.
    #[error("there is no such chart")]
    NoChart,
    /// The word in the place of a group names none.
    #[error("there is no such group")]
    BadGroup,
    /// There are more than 10,000 windows.
    #[error("there are too many windows")]
    TooManyRows,
    /// There was no memory.
    #[error("out of memory")]
    Memory,
}

impl QueryFault {
    /// The number that a refusal is told by. Out of memory is no refusal and has none.
    pub fn number(self) -> Option<u32>
        ensures { result ≡ fault_number self }
    {
        match self {
            QueryFault::BadWord => Some(1),
            QueryFault::BadNumber => Some(2),
            QueryFault::NoChart => Some(3),
            QueryFault::BadGroup => Some(4),
            QueryFault::TooManyRows => Some(5),
            QueryFault::Memory => None,
        }
    }
}

impl From<AllocError> for QueryFault {
    ghost from_gives = { λ _ fault. fault ≡ Memory };

    fn from(_error: AllocError) -> QueryFault {
        QueryFault::Memory
    }
}

impl<T: Drop> From<AllocFailed<T>> for QueryFault {
    ghost from_gives = { λ _ fault. fault ≡ Memory };

    fn from(_error: AllocFailed<T>) -> QueryFault {
        QueryFault::Memory
    }
}

impl From<OpenQuote> for QueryFault {
    ghost from_gives = { λ _ fault. fault ≡ BadWord };

    fn from(_error: OpenQuote) -> QueryFault {
        QueryFault::BadWord
    }
}
