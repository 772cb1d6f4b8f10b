use fixed_num::ListOf;
pub use tier_rollup::{Point, PointList};

/// The points of each series, that of series 0 first.
pub type SeriesPointsList = ListOf<PointList>;

/// Moments or spans of time, in seconds.
pub type MomentList = ListOf<u32>;
