use fixed_num::ListOf;

/// Series, by their numbers.
pub type SeriesList = ListOf<u32>;

/// What the points of a window come to.
#[derive(Clone, Copy, Debug, PartialEq, Eq)]
pub enum Group {
    /// The sum over the count, to the nearest ten-millionth, ties to even.
    Average,
    Min,
    Max,
    Sum,
    Count,
    /// The anomalous points in percent, to the nearest ten-millionth, ties to even.
    AnomalyRate,
}

/// A question about windows: window i has the moments from `after + i * window` to before
/// `after + (i + 1) * window`.
#[derive(Debug, Drop)]
pub struct Request {
    pub series: SeriesList,
    /// Where the first window starts, in seconds.
    pub after: u32,
    /// The length of a window in seconds, 1 or more.
    pub window: u32,
    /// How many windows, at most 10,000.
    pub rows: u32,
    pub group: Group,
}
