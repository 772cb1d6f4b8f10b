//! What was last seen of each chart and series.
use fixed_num::ListOf;
use query_engine::{MomentList, Point};

/// The last point of each series, where it has one.
pub type SeriesPointList = ListOf<Option<Point>>;

/// The last collected value of each series, where it has one.
pub type SeriesValueList = ListOf<Option<i64>>;

/// What a history has at its end. All but `before` is that of the history which ends with the beat
/// that is stepped.
#[derive(Debug, Drop)]
pub struct Latest {
    /// The last moment of the history without this beat, and 0 where it has none.
    pub before: u32,
    /// The last moment with a row or a copied point of each chart, and 0 where it has none.
    pub charts: MomentList,
    /// The last point of each series, in the order of the series.
    pub points: SeriesPointList,
    /// The last collected value of each series, in the order of the series.
    pub raws: SeriesValueList,
}
