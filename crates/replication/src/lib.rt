//! Copies of a history, over every schedule: what a parent asks, what its child answers, and what the parent
//! keeps of it.
//!
//! A `Child` answers an `Ask` with a `Data`: the first of its beats above what was asked for, with the names
//! of their series: at most 64 beats and 2^20 bytes of a body, but at least one beat. A `Parent` stores a
//! `Data` that begins where its copy ends, and leaves any other. What the child has thrown away by then becomes
//! a gap. Nothing here knows a network, a file or a clock: a message that is lost is one that never comes.
//!
//! `laws::schedule` is proved over any list of steps of fewer than 2^32 points, with losses, repeats, other
//! orders and crashes at either end. The parent is a copy of the child: it holds exactly the child's beats up to
//! its own end but those in its gaps. Each gap ends one below a floor that the child had. Each message that was
//! ever sent is true of the child. The definitions are over beats of any kind that have a moment, so that they
//! can serve whole histories. It stands on `field_codec`, by which the length of a body is counted, and on the
//! lists of `fixed_num`.
#![tactic(auto)]

mod above;
mod answer;
mod ask;
mod beats;
mod child;
mod fault;
mod gap;
mod latest;
pub mod laws;
mod marks;
mod meaning;
mod message;
mod named;
mod names;
mod parent;
mod points;
mod prefix;
mod schedule;
mod step;
mod verdict;

pub use answer::{BEAT_LIMIT, DATA_LIMIT};
pub use ask::Ask;
pub use beats::{Beat, BeatList, SeriesWord, SeriesWordList};
pub use child::Child;
pub use fault::CopyFault;
pub use gap::{Gap, GapList};
pub use message::Data;
pub use named::{NamedBeat, NamedBeatList, NamedPoint, NamedPointList};
pub use names::{ChartName, ChartNameList, DimName, DimNameList, Names};
pub use parent::Parent;
pub use step::{AskList, DataList, FloorList, Step, StepList, World};
pub use verdict::Verdict;
