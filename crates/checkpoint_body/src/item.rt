use fixed_num::{ListOf, Record};

/// A point of a series: what a segment of tier 0 has.
#[derive(Clone, Copy, Debug, PartialEq, Eq)]
pub struct Point {
    /// The number of the series.
    pub series: u32,
    /// In seconds.
    pub moment: u32,
    /// The seconds for which the point stands.
    pub step: u32,
    /// The value, as a storage number, which is not 0.
    pub word: u32,
}

/// Points in the order of their series, then moments.
pub type PointList = ListOf<Point>;

/// The record of a bucket of a series: what a segment of another tier has.
#[derive(Clone, Copy, Debug, PartialEq, Eq)]
pub struct BucketRecord {
    /// The number of the series.
    pub series: u32,
    /// The number of the bucket, which begins at this many widths of its tier.
    pub bucket: u32,
    pub value: Record,
}

/// Records in the order of their series, then buckets.
pub type BucketRecordList = ListOf<BucketRecord>;
