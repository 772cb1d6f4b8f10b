use fixed_num::ListOf;

/// A value of a series: when it was taken, and its storage number.
#[derive(Clone, Copy, Debug, PartialEq, Eq)]
pub struct Point {
    /// In seconds.
    pub moment: u32,
    /// A word that is no storage number counts as no value.
    pub word: u32,
}

/// Points, the earliest first.
pub type PointList = ListOf<Point>;
