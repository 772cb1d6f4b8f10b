//! Each call of a command refused in turn, and crashes behind it.

use crate::files::Refused;
use crate::places::Place;
use host_model::Keep;
use std::alloc::Global;
use std::test::Fail;

/// A command makes fewer calls than twice this.
const HALF: u64 = 1024;

/// How often that is halved.
const HALVES: u32 = 11;

/// A part of a command's calls: from the first of these numbers on, and below the second.
pub type Part = (u64, u64);

/// All calls that a command makes.
pub const WHOLE: Part = (0, u64::MAX);

/// What was seen of crashes: how many were tried, and the first that is not sound, by its number.
pub type Seen = (u64, Option<u64>);

/// Whether the command ends as it should where this call is refused, and whether a crash leaves what it may.
fn seen_at(alloc: Global, place: &Place, call: u64, keep: Keep) -> Result<(bool, bool), Fail> {
    let mut host = place.files.host_with(alloc, Refused::Once(call))?;
    let end = place.run(alloc, &mut host)?;
    let is_sound = place.is_sound(alloc, &end, host, keep)?;
    Ok((place.is_done(&end), is_sound))
}

/// Whether the command ends as it should where it may make so many calls.
fn is_done_by(alloc: Global, place: &Place, calls: u64) -> Result<bool, Fail> {
    let mut host = place.files.host_with(alloc, Refused::From(calls))?;
    let end = place.run(alloc, &mut host)?;
    Ok(place.is_done(&end))
}

/// How many calls the command makes: it does not end as it should where it may make fewer.
pub fn calls_of(alloc: Global, place: &Place) -> Result<u64, Fail> {
    let mut calls = 0u64;
    for halves in 0..HALVES {
        let half = HALF >> halves;
        let more = calls.saturating_add(half);
        if !is_done_by(alloc, place, more.saturating_sub(1))? {
            calls = more;
        }
    }
    Ok(calls)
}

/// The crashes where each call of this part is refused in turn. Past the last call of the command none is, and it ends
/// as it should.
fn sweep_with(
    alloc: Global,
    place: &Place,
    calls: u64,
    keep: Keep,
    part: Part,
) -> Result<Seen, Fail> {
    let (start, end) = part;
    let end = end.min(calls.saturating_add(1));
    let mut crashes = 0u64;
    for call in start..end {
        if seen_at(alloc, place, call, keep)? != (call == calls, true) {
            return Ok((crashes, Some(call)));
        }
        crashes = crashes.saturating_add(1);
    }
    Ok((crashes, None))
}

/// The crashes of this part of a command with this kept.
pub fn sweep(alloc: Global, place: &Place, keep: Keep, part: Part) -> Result<Seen, Fail> {
    sweep_with(alloc, place, calls_of(alloc, place)?, keep, part)
}
