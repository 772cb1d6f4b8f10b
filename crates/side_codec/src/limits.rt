//! The limits of what a side has besides the definitions.

/// The most gaps of a side.
pub(crate) const MOST_GAPS: usize = u32::MAX as usize;
