use fixed_num::ListOf;

/// The storage numbers of the points of one beat.
pub type SeriesWordList = ListOf<SeriesWord>;

/// Beats, the oldest first.
pub type BeatList = ListOf<Beat>;

/// The storage number of a series.
#[derive(Clone, Copy, Debug, PartialEq, Eq)]
pub struct SeriesWord {
    /// The number of the series, or in a `Data` the place of its dimension.
    pub series: u32,
    /// The point's storage number.
    pub word: u32,
}

/// The points of one moment, each by the number of its series.
#[derive(Debug, Drop)]
pub struct Beat {
    /// The moment in seconds, above 0.
    pub moment: u32,
    /// A storage number for each series that has a point at the moment.
    pub words: SeriesWordList,
}
