use crate::charts::CopiedChartList;
use crate::dimensions::CopiedDimensionList;
use crate::words::CopiedWordList;
use field_codec::ByteList;
use history::NumberedBeat;

/// The most bytes of the entry of a numbered beat that keeps to the limits of a registry.
pub const COLLECTED_LIMIT: usize = 33_579_025;

/// The most bytes of the state of alarms in an entry.
pub(crate) const HEALTH_LIMIT: usize = u32::MAX as usize;

/// A beat that was copied from a child.
#[derive(Debug, Drop)]
pub struct Copied {
    pub child: u64,
    pub moment: u32,
    pub charts: CopiedChartList,
    pub dimensions: CopiedDimensionList,
    pub words: CopiedWordList,
}

/// A span of a child that was not copied: the moments above `from`, up to `to`.
#[derive(Clone, Copy, Debug, PartialEq, Eq)]
pub struct Gap {
    pub child: u64,
    pub from: u32,
    pub to: u32,
}

/// What a journal keeps, one after the other.
#[derive(Debug, Drop)]
pub enum Entry {
    /// A beat that collectors told.
    Collected(NumberedBeat),
    Copied(Copied),
    /// The state of alarms, as its own bytes.
    Health(ByteList),
    Gap(Gap),
}
