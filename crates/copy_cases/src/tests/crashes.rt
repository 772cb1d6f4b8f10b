//! A parent whose calls on the host are refused in turn in the midst of a session, and which then
//! crashes. What is there is a copy. Run again it has all that the child has by then.

use super::ends::{Ending, RECEIVE, found, speak, talk, talk_over};
use super::row::{child_at, parent_at_three, reply, reply_of, second_session};
use super::wire::{HELLO, Says, bytes_of};
use host_model::{Keep, MemoryHost, Status};
use std::alloc::{AllocError, Global};
use std::test::Fail;

/// More calls on the host than a parent makes up to the end of the session.
const CALLS: u64 = 200;

/// The moments of the child's first twelve beats that a parent may have.
static MOMENTS: [u32; 7] = [1, 2, 3, 9, 10, 11, 12];

/// How far a parent may have come.
#[derive(Clone, Copy)]
struct Left {
    last: u32,
    /// How many of the beats it has.
    beats: usize,
    /// How many beats its history has, with the gaps, once it has the child's next four, of which
    /// the first is at the child's floor.
    count: u64,
}

/// Nothing of the message, the gap alone, the gap and each count of beats.
static LEFTS: [Left; 6] = [
    Left {
        last: 3,
        beats: 3,
        count: 8,
    },
    Left {
        last: 8,
        beats: 3,
        count: 9,
    },
    Left {
        last: 9,
        beats: 4,
        count: 10,
    },
    Left {
        last: 10,
        beats: 5,
        count: 11,
    },
    Left {
        last: 11,
        beats: 6,
        count: 12,
    },
    Left {
        last: 12,
        beats: 7,
        count: 12,
    },
];

/// How far the parent says that it has come.
fn left_of(alloc: Global, parent: &mut MemoryHost) -> Result<Option<Left>, Fail> {
    let asked = talk(alloc, parent, RECEIVE, HELLO)?;
    for left in &LEFTS {
        let ask = bytes_of(alloc, &[Says::Ask(7, left.last)])?;
        if asked.sent.as_slice() == ask.as_slice() {
            return Ok(Some(*left));
        }
    }
    Ok(None)
}

/// The moments that the parent has, once it has the next ones as well.
fn moments_of(alloc: Global, left: Left, next: &[u32]) -> Result<Vec<u32>, AllocError> {
    let mut moments = Vec::new(alloc);
    for moment in MOMENTS.iter().take(left.beats) {
        moments.push(*moment)?;
    }
    moments.extend_from_slice(next)?;
    Ok(moments)
}

/// Whether the parent answers so.
fn answers(alloc: Global, parent: &mut MemoryHost, left: Left, next: &[u32]) -> Result<bool, Fail> {
    let moments = moments_of(alloc, left, next)?;
    let want = reply_of(alloc, 17, moments.as_slice())?;
    let reply = reply(alloc, parent, 17)?;
    Ok(reply.as_str() == want.as_str())
}

/// Whether the parent, run again, has all that the child has at the moment 16, and tells how many
/// beats its history has.
fn catches_up(alloc: Global, parent: &mut MemoryHost, left: Left) -> Result<bool, Fail> {
    let mut child = found(child_at(alloc, &[], 16)?)?;
    let before = parent.told().len();
    let has_all = speak(alloc, &mut child, parent)?;
    let told = parent.told().get(before..).unwrap_or(&[]);
    let want = format!(in alloc; "STORED {}\n", left.count)?;
    if !has_all || told != want.as_bytes() {
        return Ok(false);
    }
    answers(alloc, parent, left, &[13, 14, 15, 16])
}

/// Whether a parent that told and said this may have come so far only.
fn is_far_enough(left: Left, told: &str, said: usize) -> bool {
    left.last == 12 || (told.is_empty() && said <= ASK_SIZE)
}

/// How many bytes an Ask has.
const ASK_SIZE: usize = 17;

/// What is wrong with what a session and a crash left.
fn first_wrong(
    alloc: Global,
    parent: &mut MemoryHost,
    end: &Ending,
) -> Result<Option<&'static str>, Fail> {
    let Some(left) = left_of(alloc, parent)? else {
        return Ok(Some("moment"));
    };
    if !is_far_enough(left, end.told.as_str(), end.sent.len()) {
        return Ok(Some("said too early"));
    }
    if !answers(alloc, parent, left, &[])? {
        return Ok(Some("answer"));
    }
    if !catches_up(alloc, parent, left)? {
        return Ok(Some("end"));
    }
    Ok(None)
}

/// What is wrong where this call on the host is refused in the session. None too where it is one
/// of an earlier command.
fn wrong_at(alloc: Global, fails: u64, keep: Keep) -> Result<Option<&'static str>, Fail> {
    let Some(mut parent) = parent_at_three(alloc, &[fails])? else {
        return Ok(None);
    };
    let session = second_session(alloc)?;
    let end = talk(alloc, &mut parent, RECEIVE, session.as_slice())?;
    if !matches!(
        end.status,
        Status::Ok | Status::DiskFault | Status::TellFault
    ) {
        return Ok(Some("status"));
    }
    let mut parent = parent.stop(keep)?;
    first_wrong(alloc, &mut parent, &end)
}

/// The first of the calls whose refusal and a crash leave what they may not.
fn first_unsound(alloc: Global, keep: Keep) -> Result<Option<(u64, &'static str)>, Fail> {
    for fails in 0..CALLS {
        if let Some(wrong) = wrong_at(alloc, fails, keep)? {
            return Ok(Some((fails, wrong)));
        }
    }
    Ok(None)
}

#[test]
fn a_parent_after_a_crash(rt: HostRuntime) -> Result<(), Fail> {
    for keep in [Keep::All, Keep::None, Keep::Fill(255)] {
        let unsound = first_unsound(rt.alloc(), keep)?;
        assert_eq!(rt; unsound, None, "with {keep:?}");
    }
    Ok(())
}

/// How the session ends where this call on the host is refused. None where it is one of an earlier
/// command.
fn status_at(alloc: Global, fails: u64) -> Result<Option<Status>, Fail> {
    let Some(mut parent) = parent_at_three(alloc, &[fails])? else {
        return Ok(None);
    };
    let session = second_session(alloc)?;
    let end = talk(alloc, &mut parent, RECEIVE, session.as_slice())?;
    Ok(Some(end.status))
}

/// How many calls of the session fail for the disk where they are refused.
fn failing_calls(alloc: Global) -> Result<u64, Fail> {
    let mut count = 0u64;
    for fails in 0..CALLS {
        if status_at(alloc, fails)? == Some(Status::DiskFault) {
            count = count.saturating_add(1);
        }
    }
    Ok(count)
}

#[test]
fn the_calls_of_a_session_are_refused(rt: HostRuntime) -> Result<(), Fail> {
    let failing = failing_calls(rt.alloc())?;
    assert!(rt; failing >= 12, "{failing} calls");
    assert_eq!(rt; status_at(rt.alloc(), CALLS - 1)?, Some(Status::Ok));
    Ok(())
}

/// How the session ends where this call on the link is refused, and what is wrong with what that
/// leaves.
fn link_ending_at(alloc: Global, fails: u64) -> Result<(Status, Option<&'static str>), Fail> {
    let mut parent = found(parent_at_three(alloc, &[])?)?;
    let session = second_session(alloc)?;
    let end = talk_over(alloc, &mut parent, RECEIVE, session.as_slice(), &[fails])?;
    let wrong = first_wrong(alloc, &mut parent, &end)?;
    Ok((end.status, wrong))
}

/// The session is taken in one piece: it is received, and then an Ask and a Have are sent.
#[test]
fn a_parent_whose_link_fails(rt: HostRuntime) -> Result<(), Fail> {
    for fails in 0..3 {
        let seen = link_ending_at(rt.alloc(), fails)?;
        assert_eq!(rt; seen, (Status::LinkFault, None), "at {fails}");
    }
    Ok(())
}
