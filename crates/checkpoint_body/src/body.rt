use crate::page::{RecordPageList, SlotPageList};
use fixed_num::{ByteList, ListOf, Record};
use tier_settings::Settings;

/// A kept extent: where a sealed segment stands in the file of extents of its tier.
#[derive(Clone, Copy, Debug, PartialEq, Eq)]
pub struct Extent {
    /// The slot of the file of its tier. Whether that has it, and no other extent stands in it, is not said here.
    pub slot: u32,
    pub serial: u64,
    /// The moment of the beat that sealed the segment, in seconds.
    pub sealed_at: u32,
    /// In bytes.
    pub size: u64,
    /// In the tier of points, how many beats had points up to the sealing, and else 0.
    pub beats: u64,
}

/// The extents of a tier, the oldest first.
pub type ExtentList = ListOf<Extent>;

/// The record of a bucket that is not over.
#[derive(Clone, Copy, Debug, PartialEq, Eq)]
pub struct OpenRecord {
    /// The number of the series, below `MOST_SERIES`.
    pub series: u32,
    /// The moment at which the bucket begins, in seconds.
    pub start: u32,
    pub value: Record,
}

/// Open records by their series, each series once.
pub type OpenRecordList = ListOf<OpenRecord>;

/// What is kept of tier 0.
#[derive(Debug, Drop)]
pub struct PointTier {
    /// The moment below which nothing is kept, in seconds.
    pub floor: u32,
    /// How many beats had points below the floor.
    pub before: u64,
    /// How many segments have been sealed.
    pub sealed: u64,
    pub extents: ExtentList,
    /// The points of the segment that is not full.
    pub pages: SlotPageList,
}

/// What is kept of another tier.
#[derive(Debug, Drop)]
pub struct RecordTier {
    /// The moment below which nothing is kept, in seconds.
    pub floor: u32,
    /// How many segments have been sealed.
    pub sealed: u64,
    pub extents: ExtentList,
    /// The records of buckets that are not over.
    pub open_records: OpenRecordList,
    /// The records of the segment that is not full.
    pub pages: RecordPageList,
}

/// What a checkpoint says of a database.
#[derive(Debug, Drop)]
pub struct Body {
    pub settings: Settings,
    /// How many beats the database has taken.
    pub count: u64,
    /// The moment of the last beat, in seconds.
    pub last: u32,
    pub points: PointTier,
    pub minutes: RecordTier,
    pub hours: RecordTier,
    /// What is kept beside the tiers, in bytes of the caller's own.
    pub side: ByteList,
}
