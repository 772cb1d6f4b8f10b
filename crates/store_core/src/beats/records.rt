//! The beats that the records of a journal are.

ghost use Rattle.std.specs.Prelude.{◌≡◌, IfOk, IsSome};
ghost use Rattle.std.specs.List.{AllByRecursion};
ghost use Rattle.field_codec.specs.Field.{IsBytes};
ghost use Rattle.store_core.specs.beats.Records.{beats_from, is_later, last_after, next_beat};

use crate::beats::beat::Beat;
use crate::beats::reading::read_beat;
use crate::beats::waiting::Waiting;
use fixed_num::ByteList;
use std::alloc::{AllocError, Global};

/// The last moment after one more beat.
pub fn last_after(last: u32, moment: Option<u32>) -> u32
    ensures { result ≡ last_after last moment }
{
    match moment {
        None => last,
        Some(moment) => moment,
    }
}

/// Whether a moment may follow the last one.
pub fn is_later(last: u32, moment: Option<u32>) -> bool
    ensures { result ≡ is_later last moment }
{
    match moment {
        None => true,
        Some(moment) => last < moment,
    }
}

/// The beat that a record is after the last moment, if it is one.
pub fn next_beat(alloc: Global, last: u32, body: &[u8]) -> Result<Option<Beat>, AllocError>
    ensures value { IfOk result (λ found. found ≡ next_beat last body.now) }
    ensures bytes { IsBytes body.now }
{
    match read_beat(alloc, body)? {
        None => Ok(None),
        Some(beat) => {
            if is_later(last, beat.moment) {
                Ok(Some(beat))
            } else {
                Ok(None)
            }
        }
    }
}

/// The beats that these records are behind the last moment, if all of them are beats.
pub fn read_beats(
    alloc: Global,
    last: u32,
    records: &[ByteList],
) -> Result<Option<Waiting>, AllocError>
    ensures value { IfOk result (λ found. found ≡ beats_from last records.now) }
    ensures bytes { IfOk result (λ found. IsSome found → AllByRecursion IsBytes records.now) }
{
    let mut waiting = Waiting::new(alloc);
    let mut last = last;
    for record in records {
        let Some(beat) = next_beat(alloc, last, record.as_slice())? else {
            return Ok(None);
        };
        last = last_after(last, beat.moment);
        waiting.add(beat)?;
    }
    Ok(Some(waiting))
}
