use fixed_num::ListOf;

/// The points of a beat, by their series, each series once.
pub type BeatPointList = ListOf<BeatPoint>;

/// The point of a series in a beat.
#[derive(Clone, Copy, Debug, PartialEq, Eq)]
pub struct BeatPoint {
    /// The number of the series, below 65,536.
    pub series: u32,
    /// The seconds for which the point stands, from 1 to 86,400.
    pub step: u32,
    /// The value, as a storage number.
    pub word: u32,
}

/// The word of a point, and the seconds for which it stands.
#[derive(Clone, Copy, Debug, PartialEq, Eq)]
pub struct Stepped {
    pub step: u32,
    pub word: u32,
}

/// What a tier keeps of a series: a point, or the record of a bucket.
#[derive(Clone, Copy, Debug, PartialEq, Eq)]
pub struct Item<T> {
    /// In tier 0 the moment, in seconds, and in other tiers the number of the bucket.
    pub place: u32,
    /// The number of the series.
    pub series: u32,
    pub value: T,
}
