ghost use Rattle.std.specs.Prelude.{◌≡◌};
ghost use Rattle.plugin_text.specs.Fault.{fault_number};
ghost use Rattle.plugin_text.specs.declared.fault.LineFault.TheVariants.{Memory, NotText, OpenQuote};

use std::alloc::{AllocError, AllocFailed};
use std::str::Utf8Error;
use thiserror::Error;
use words::OpenQuote;

/// Why a line is refused, or no more lines are handed out.
///
/// Of the refusals of one line the first in this order is told: `LineTooLong`, `NotText`, `OpenQuote`,
/// `MissingWord`, `LongId`, `BadNumber`.
#[derive(Clone, Copy, Debug, PartialEq, Eq, Error)]
pub enum LineFault {
    /// A line, or what has come of it, has more than 8,192 bytes.
    #[error("a line is too long")]
    LineTooLong,
    /// The line is not UTF-8.
    #[error("a line is not UTF-8")]
    NotText,
    /// A quote that began a word is not closed.
    #[error("a quote is not closed")]
    OpenQuote,
    /// A word that the line needs is missing or empty, or a chart's id lacks a part.
    #[error("a word is missing")]
    MissingWord,
    /// An id has more than 200 bytes.
    #[error("an id is too long")]
    LongId,
    /// A word in the place of a number is no whole number, or is out of its limits.
    #[error("a number is bad")]
    BadNumber,
    /// There was no memory.
    #[error("out of memory")]
    Memory,
}

impl LineFault {
    /// The number that a refusal is told by. Out of memory is no refusal and has none.
    pub fn number(self) -> Option<u32>
        ensures { result ≡ fault_number self }
    {
        match self {
            LineFault::LineTooLong => Some(11),
            LineFault::NotText => Some(12),
            LineFault::OpenQuote => Some(13),
            LineFault::MissingWord => Some(14),
            LineFault::BadNumber => Some(15),
            LineFault::LongId => Some(16),
            LineFault::Memory => None,
        }
    }
}

impl From<AllocError> for LineFault {
    ghost from_gives = { λ _ fault. fault ≡ Memory };

    fn from(_error: AllocError) -> LineFault {
        LineFault::Memory
    }
}

impl<T: Drop> From<AllocFailed<T>> for LineFault {
    ghost from_gives = { λ _ fault. fault ≡ Memory };

    fn from(_error: AllocFailed<T>) -> LineFault {
        LineFault::Memory
    }
}

impl From<Utf8Error> for LineFault {
    ghost from_gives = { λ _ fault. fault ≡ NotText };

    fn from(_error: Utf8Error) -> LineFault {
        LineFault::NotText
    }
}

impl From<OpenQuote> for LineFault {
    ghost from_gives = { λ _ fault. fault ≡ OpenQuote };

    fn from(_error: OpenQuote) -> LineFault {
        LineFault::OpenQuote
    }
}
