use checkpoint_body::{RecordPageList, SlotPageList};
use fixed_num::ListOf;

/// The pages of a segment of points, and the slot in which they are to lie.
#[derive(Debug, Drop)]
pub struct SlotExtent {
    /// The number of the slot in the tier's file.
    pub slot: u32,
    /// The pages by series, each series' by their first moments.
    pub pages: SlotPageList,
}

/// Segments of points.
pub type SlotExtentList = ListOf<SlotExtent>;

/// The pages of a segment of records, and the slot in which they are to lie.
#[derive(Debug, Drop)]
pub struct RecordExtent {
    /// The number of the slot in the tier's file.
    pub slot: u32,
    /// The pages by series, each series' by their first moments.
    pub pages: RecordPageList,
}

/// Segments of records.
pub type RecordExtentList = ListOf<RecordExtent>;

/// The segments that were sealed since the last checkpoint, by tier.
#[derive(Debug, Drop)]
pub struct Sealed {
    pub points: SlotExtentList,
    pub minutes: RecordExtentList,
    pub hours: RecordExtentList,
}
