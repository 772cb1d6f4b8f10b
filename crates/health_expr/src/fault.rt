use thiserror::Error;

/// Why a text was not read as an expression.
#[derive(Clone, Copy, Debug, PartialEq, Eq, Error)]
pub enum ExprFault {
    /// The byte at which the first word that does not fit begins, or the text's length.
    #[error("a word that does not fit at byte {0}")]
    Syntax(usize),
    /// More than 64 levels are open at one place.
    #[error("an expression of more than 64 levels")]
    TooDeep,
    /// A number has more than seven decimals, or is above the limit.
    #[error("a number with more than seven decimals, or beyond the limit")]
    NumberTooWide,
    /// There was no memory.
    #[error("out of memory")]
    Memory,
}
