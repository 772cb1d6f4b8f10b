use crate::item::Item;
use fixed_num::{ListOf, Record};

/// Items that were cut off together.
#[derive(Debug, Drop)]
pub struct Segment<T> {
    /// The moment of the beat at which they were cut off, in seconds.
    pub sealed_at: u32,
    pub items: ListOf<Item<T>>,
}

/// Segments, the earliest first.
pub type SegmentList<T> = ListOf<Segment<T>>;

/// What is kept of the items of a tier.
#[derive(Debug, Drop)]
pub struct KeptItems<T> {
    /// The first moment of which the tier has what it was given, in seconds, or 0 where nothing has expired.
    pub floor: u32,
    /// How many beats gave points that have expired, and 0 in a tier of records. The count stands still at 2^64 - 1.
    pub before: u64,
    /// How many segments were ever sealed. The count stands still there too.
    pub count: u64,
    /// The segments that are sealed and kept.
    pub sealed: SegmentList<T>,
    /// The items since the last cut.
    pub unsealed: ListOf<Item<T>>,
}

/// The records of a bucket that is not over, each with the number of its series, in the order of these numbers.
pub type OpenRecordList = ListOf<(u32, Record)>;

/// What is kept of a tier of records.
#[derive(Debug, Drop)]
pub struct KeptRecords {
    /// The records of buckets that are over.
    pub items: KeptItems<Record>,
    /// The records of the bucket of the last moment.
    pub current: OpenRecordList,
}

/// What is kept of each tier of records, the first of which is tier 1.
pub type KeptRecordsList = ListOf<KeptRecords>;
