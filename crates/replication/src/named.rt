use fixed_num::{ListOf, Text};

/// Points of one beat by name.
pub type NamedPointList = ListOf<NamedPoint>;

/// Beats by name, the oldest first.
pub type NamedBeatList = ListOf<NamedBeat>;

/// The storage number of a dimension, by the ids of its chart and its own.
#[derive(Debug, Drop)]
pub struct NamedPoint {
    /// The id of the chart.
    pub chart: Text,
    /// The id of the dimension.
    pub dimension: Text,
    /// The point's storage number.
    pub word: u32,
}

/// The points of one moment by name.
#[derive(Debug, Drop)]
pub struct NamedBeat {
    /// The moment in seconds, above 0.
    pub moment: u32,
    /// The points at the moment.
    pub points: NamedPointList,
}
