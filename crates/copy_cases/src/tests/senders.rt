//! A child whose calls on the host or the link are refused in turn in a session. What it sent is
//! heard, it is opened and run again, and in the end its parent is a copy.

use super::ends::{Ending, RECEIVE, SEND, found, speak, talk, talk_over};
use super::gaps::{Gap, gaps_of};
use super::row::{child_at, parent_at_three, reply, reply_of, second_session};
use super::wire::{Says, bytes_of};
use host_model::{Keep, MemoryHost, Status};
use std::alloc::Global;
use std::test::Fail;

/// How often the calls in question are halved: there are fewer than 4,096 before the session.
const HALVES: u32 = 12;

/// More calls than the session has.
const SESSION: u64 = 60;

/// What a parent with the first three beats loses.
const LOST: Gap = Gap { above: 3, upto: 8 };

/// Whether a session that ended so may have sent these bytes, of those that it is to send.
fn may_send(end: &Ending, whole: &[u8]) -> bool {
    match end.status {
        Status::Ok => end.sent.as_slice() == whole,
        Status::DiskFault | Status::LinkFault => whole.starts_with(end.sent.as_slice()),
        _ => false,
    }
}

/// Whether a parent with the first three beats that hears these bytes, and then the child, which is
/// run again, is a copy: it has what the child keeps, and one gap, which ends one below the child's
/// floor, the moment 9.
fn is_copied(alloc: Global, child: &mut MemoryHost, sent: &[u8]) -> Result<bool, Fail> {
    let mut parent = found(parent_at_three(alloc, &[])?)?;
    talk(alloc, &mut parent, RECEIVE, sent)?;
    let has_all = speak(alloc, child, &mut parent)?;
    let gaps = gaps_of(alloc, &mut parent)?;
    let answer = reply(alloc, &mut parent, 13)?;
    let want = reply_of(alloc, 13, &[1, 2, 3, 9, 10, 11, 12])?;
    Ok(has_all && gaps.as_slice() == [LOST].as_slice() && answer.as_str() == want.as_str())
}

/// What the parent says in the session.
fn asked(alloc: Global) -> Result<Vec<u8>, Fail> {
    Ok(bytes_of(alloc, &[Says::Ask(7, 3), Says::Have(12)])?)
}

/// The session of a child whose calls on the link are refused here, and whether it sent what it may.
fn session_of(
    alloc: Global,
    child: &mut MemoryHost,
    fails: &[u64],
) -> Result<(Ending, bool), Fail> {
    let asked = asked(alloc)?;
    let end = talk_over(alloc, child, SEND, asked.as_slice(), fails)?;
    let whole = second_session(alloc)?;
    let is_prefix = may_send(&end, whole.as_slice());
    Ok((end, is_prefix))
}

/// The first call on the host that the session makes: each earlier one is of a command that is
/// refused with it.
fn first_call(alloc: Global) -> Result<u64, Fail> {
    let mut earlier = 0u64;
    for halves in 0..HALVES {
        let half = 2048u64 >> halves;
        let fails = earlier.saturating_add(half).saturating_sub(1);
        if child_at(alloc, &[fails], 12)?.is_none() {
            earlier = earlier.saturating_add(half);
        }
    }
    Ok(earlier)
}

/// How the session ends where this call on the host is refused, and whether the parent is a copy
/// once the child has crashed and was run again.
fn ending_at(alloc: Global, fails: u64, keep: Keep) -> Result<(Status, bool), Fail> {
    let mut child = found(child_at(alloc, &[fails], 12)?)?;
    let (end, is_prefix) = session_of(alloc, &mut child, &[])?;
    let mut child = child.stop(keep)?;
    let is_copy = is_copied(alloc, &mut child, end.sent.as_slice())?;
    Ok((end.status, is_prefix && is_copy))
}

/// How many of the calls end the session as a failure of the disk, and the first call with which
/// something is wrong.
fn disk_faults(alloc: Global, first: u64, keep: Keep) -> Result<(u64, Option<u64>), Fail> {
    let mut faults = 0u64;
    for fails in first..first.saturating_add(SESSION) {
        match ending_at(alloc, fails, keep)? {
            (Status::DiskFault, true) => faults = faults.saturating_add(1),
            (Status::Ok, true) => return Ok((faults, None)),
            _ => return Ok((faults, Some(fails))),
        }
    }
    Ok((faults, Some(first)))
}

#[test]
fn a_child_whose_host_fails(rt: HostRuntime) -> Result<(), Fail> {
    let first = first_call(rt.alloc())?;
    for keep in [Keep::All, Keep::None, Keep::Fill(255)] {
        let (faults, wrong) = disk_faults(rt.alloc(), first, keep)?;
        assert_eq!(rt; wrong, None, "with {keep:?}");
        assert!(rt; faults >= 10, "{faults} with {keep:?}");
    }
    Ok(())
}

/// How the session ends where this call on the link is refused, and whether the parent is a copy
/// once the child was run again.
fn link_ending_at(alloc: Global, fails: u64) -> Result<(Status, bool), Fail> {
    let mut child = found(child_at(alloc, &[], 12)?)?;
    let (end, is_prefix) = session_of(alloc, &mut child, &[fails])?;
    let is_copy = is_copied(alloc, &mut child, end.sent.as_slice())?;
    Ok((end.status, is_prefix && is_copy))
}

/// Hello is sent, all is received in one piece, and then a Data and a Bye are sent.
#[test]
fn a_child_whose_link_fails(rt: HostRuntime) -> Result<(), Fail> {
    for fails in 0..6 {
        let status = if fails < 4 {
            Status::LinkFault
        } else {
            Status::Ok
        };
        let seen = link_ending_at(rt.alloc(), fails)?;
        assert_eq!(rt; seen, (status, true), "at {fails}");
    }
    Ok(())
}
