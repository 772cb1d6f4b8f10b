use fixed_num::ListOf;

/// Gaps, the oldest first.
pub type GapList = ListOf<Gap>;

/// A span of moments that a copy lacks: those above `from`, up to and with `to`.
#[derive(Clone, Copy, Debug, PartialEq, Eq)]
pub struct Gap {
    /// The moment above which it begins, in seconds, 0 for the very first.
    pub from: u32,
    /// Its last moment, in seconds.
    pub to: u32,
}
