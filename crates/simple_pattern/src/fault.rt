use thiserror::Error;

/// Why a text was not read as a pattern.
#[derive(Clone, Copy, Debug, PartialEq, Eq, Error)]
pub enum PatternFault {
    /// The text has more than 256 words.
    #[error("a pattern has too many words")]
    TooManyWords,
    /// There was no memory.
    #[error("out of memory")]
    Memory,
}
