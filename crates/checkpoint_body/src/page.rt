use fixed_num::{ListOf, Record};

/// Words of slots, of which 0 is an empty one.
pub type WordList = ListOf<u32>;

/// Points of a series whose moments are steps apart.
#[derive(Debug, Drop)]
pub struct SlotPage {
    /// The number of the series.
    pub series: u32,
    /// The moment of the first slot, in seconds.
    pub first: u32,
    /// The seconds from a slot to the next.
    pub step: u32,
    /// 1 to `MOST_SLOTS` slots, the first and the last not empty, and at most `MOST_EMPTY` empty ones in a
    /// row.
    pub words: WordList,
}

/// Pages by their series, each series' by their first moments.
pub type SlotPageList = ListOf<SlotPage>;

/// Records, each of the bucket after that of the one before.
pub type RecordList = ListOf<Record>;

/// Records of a series, each of the bucket after that of the one before.
#[derive(Debug, Drop)]
pub struct RecordPage {
    /// The number of the series.
    pub series: u32,
    /// The moment at which the first bucket begins, in seconds.
    pub first: u32,
    /// The seconds of a bucket.
    pub step: u32,
    /// 1 to `MOST_RECORDS` records.
    pub records: RecordList,
}

/// Pages by their series, each series' by their first moments.
pub type RecordPageList = ListOf<RecordPage>;
