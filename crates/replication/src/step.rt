use crate::ask::Ask;
use crate::gap::GapList;
use crate::message::Data;
use crate::named::{NamedBeatList, NamedPointList};
use fixed_num::ListOf;

/// Floors that steps set, the oldest first.
pub type FloorList = ListOf<u32>;

/// Asks, the oldest first.
pub type AskList = ListOf<Ask>;

/// Messages of a child, the oldest first.
pub type DataList = ListOf<Data>;

/// Steps, the first first.
pub type StepList = ListOf<Step>;

/// One thing that may happen to a child, a parent and the messages between them. The child's id is 1.
#[derive(Debug, Drop)]
pub enum Step {
    /// The child gets a beat with these points, and has this floor from then on. Nothing changes where the
    /// moment is not above the last, there is no point, the floor falls, or it is above the moment plus 1.
    ChildBeat {
        /// The moment in seconds.
        moment: u32,
        /// The floor in seconds: the child has nothing below it then.
        floor: u32,
        /// The points of the beat.
        points: NamedPointList,
        /// Whether the beat is kept: a crash loses it where this is false.
        kept: bool,
    },
    /// The parent asks for what comes after its last moment.
    Ask,
    /// The child answers the ask at this place, from 0, among all that were ever sent.
    Answer {
        /// The place of the ask, from 0.
        ask: u64,
    },
    /// The message at this place, from 0, among all that were ever sent, comes to the parent.
    Deliver {
        /// The place of the message, from 0.
        message: u64,
        /// None where nothing crashes. Else the number of stored things, the gap first and then the beats,
        /// that outlive a crash.
        keep: Option<u64>,
    },
}

/// A child and a parent after some steps, and all that they ever sent.
#[derive(Debug, Drop)]
pub struct World {
    /// The child's beats, each with its points in the order of the bytes of their names, the chart's first.
    pub beats: NamedBeatList,
    /// The child's floors, in seconds, the oldest first.
    pub floors: FloorList,
    /// The parent's beats.
    pub held: NamedBeatList,
    /// The parent's gaps.
    pub gaps: GapList,
    /// The parent's last moment in seconds, where a gap counts with its end; 0 for none.
    pub last: u32,
    /// All asks that the parent ever sent.
    pub asks: AskList,
    /// All messages that the child ever sent.
    pub messages: DataList,
}
