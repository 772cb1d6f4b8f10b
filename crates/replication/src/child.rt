ghost use Rattle.std.specs.Prelude.{◌≡◌, ◌≤◌, length, take, IfOk};
ghost use Rattle.replication.specs.Answer.{AreNames, AreBeatsOf, HaveWords, data_of};
ghost use Rattle.replication.specs.Copies.{RisesFrom};
ghost use Rattle.replication.specs.Names.{beat_moment};

use crate::above::beats_above;
use crate::answer::{data_with, from_of};
use crate::ask::Ask;
use crate::beats::{Beat, BeatList};
use crate::fault::CopyFault;
use crate::message::Data;
use crate::names::Names;
use crate::prefix::fitting_len;
use std::alloc::Global;

/// The first `count` beats.
fn first_of(beats: &[Beat], count: usize) -> &[Beat]
    requires { count ≤ length beats.now }
    ensures { result.now ≡ take count beats.now }
{
    beats.split_at(count).0
}

/// The end of a copy that has the beats. It keeps nothing between two answers.
#[derive(Clone, Copy, Debug, PartialEq, Eq)]
pub struct Child;

impl Child {
    /// What a child answers to an `Ask`, from its floor in seconds, the names of its series and its beats, each
    /// with points: the first beats above what was asked for that it has not lost. They are the longest list of
    /// such beats that has at most 64 beats and a frame's body of at most 2^20 bytes, but at least one. None
    /// where it has no such beat, and where the `Ask` names another child. `Memory` where none is left.
    pub fn answer(
        alloc: Global,
        child: u64,
        floor: u32,
        names: &Names,
        beats: &BeatList,
        ask: &Ask,
    ) -> Result<Option<Data>, CopyFault>
        requires names { AreNames names.now }
        requires rises { RisesFrom beat_moment 0 beats.now }
        requires series { AreBeatsOf (length names.now.dimensions) beats.now }
        requires words { HaveWords beats.now }
        ensures { IfOk result (λ answer.
            answer ≡ data_of child floor names.now beats.now ask.now) }
    {
        if ask.child != child {
            return Ok(None);
        }
        let kept = beats.as_slice();
        let later = beats_above(kept, from_of(floor, ask.last));
        if later.is_empty() {
            return Ok(None);
        }
        let count = fitting_len(alloc, names, later)?;
        let prefix = first_of(later, count);
        let message = data_with(alloc, child, floor, ask.last, names, prefix)?;
        Ok(Some(message))
    }
}
