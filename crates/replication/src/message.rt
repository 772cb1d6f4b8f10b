use crate::beats::BeatList;
use crate::names::Names;

/// What a child answers to an `Ask`: its next beats, with the names of their series.
#[derive(Debug, Drop)]
pub struct Data {
    /// The id of the child that answers.
    pub child: u64,
    /// The last moment of the `Ask` that this answers, in seconds.
    pub prev: u32,
    /// The moment in seconds above which nothing is missing: `prev`, or where the child has lost what came
    /// next, the last moment below its floor.
    pub from: u32,
    /// The moment of the last beat, in seconds.
    pub upto: u32,
    /// The child's floor in seconds: it has nothing below this moment. 0 where it lost nothing.
    pub floor: u32,
    /// The names of the series in the beats, each once.
    pub names: Names,
    /// The beats, by the places of their dimensions in `names`.
    pub beats: BeatList,
}
