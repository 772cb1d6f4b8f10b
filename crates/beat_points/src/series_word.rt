use fixed_num::ListOf;

/// The storage number of a series at a beat.
#[derive(Clone, Copy, Debug, PartialEq, Eq)]
pub struct SeriesWord {
    pub series: u32,
    pub word: u32,
}

/// Storage numbers of several series.
pub type SeriesWordList = ListOf<SeriesWord>;
