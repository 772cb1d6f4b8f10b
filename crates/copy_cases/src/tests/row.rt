//! A child whose floor has risen, and a parent that has the first three of its beats.

use super::ends::{Ending, NEW_CHILD, RECEIVE, SEND, found, host_with, talk, told};
use super::wire::{Message, Says, VALUE, WORD, bytes_of};
use host_model::{File, Host, MemoryHost, Status};
use std::alloc::{AllocError, Global};
use std::fmt::Write;
use std::test::Fail;

/// The beats at these moments, of one chart and dimension.
pub fn beats_text(alloc: Global, first: u32, last: u32) -> Result<String, AllocError> {
    let mut text = String::from_str(alloc, "CHART test.one '' 'One' 'units'\nDIMENSION a\n")?;
    for moment in first..last.saturating_add(1) {
        let value = VALUE.saturating_add(moment);
        writeln!(
            text,
            "BEGIN test.one\nSET a = {value}\nEND\nMOMENT {moment}"
        )?;
    }
    Ok(text)
}

/// What a question for the moments from 1 up to `last` is answered with, where there are beats at
/// these moments alone.
pub fn reply_of(alloc: Global, last: u32, moments: &[u32]) -> Result<String, AllocError> {
    let mut reply = String::new(alloc);
    writeln!(reply, "ROWS {last} a")?;
    for moment in 1..last.saturating_add(1) {
        if moments.contains(&moment) {
            writeln!(reply, "{moment} {}", VALUE.saturating_add(moment))?;
        } else {
            writeln!(reply, "{moment} null")?;
        }
    }
    Ok(reply)
}

/// What that question is answered with.
pub fn reply(alloc: Global, host: &mut MemoryHost, last: u32) -> Result<String, Fail> {
    let before = format!(in alloc; "{}", last.saturating_add(1))?;
    let words = &["query", "test.one", "1", before.as_str(), "1", "sum"];
    told(alloc, host, words, "")
}

/// What the child says while it has three beats.
pub const FIRST: Message = Message {
    child: 7,
    prev: 0,
    from: 0,
    upto: 3,
    floor: 0,
    update_every: 1,
    beats: &[(1, WORD + 1), (2, WORD + 2), (3, WORD + 3)],
};

/// What it says behind them once it has twelve, of which it keeps four.
pub const SECOND: Message = Message {
    child: 7,
    prev: 3,
    from: 8,
    upto: 12,
    floor: 9,
    update_every: 1,
    beats: &[
        (9, WORD + 9),
        (10, WORD + 10),
        (11, WORD + 11),
        (12, WORD + 12),
    ],
};

/// The child, once it has the beats from 1 up to this moment.
pub fn child_at(alloc: Global, fails: &[u64], last: u32) -> Result<Option<MemoryHost>, Fail> {
    let text = beats_text(alloc, 1, last)?;
    host_with(alloc, fails, NEW_CHILD, text.as_str())
}

/// A parent with four points in a segment: it makes a checkpoint within the second session.
const PARENT: &[&str] = &["new", "8", "4", "2", "100", "1", "100", "1"];

/// A parent that has heard the first message. None where that did not come about.
pub fn parent_at_three(alloc: Global, fails: &[u64]) -> Result<Option<MemoryHost>, Fail> {
    let Some(mut host) = host_with(alloc, fails, PARENT, "")? else {
        return Ok(None);
    };
    let heard = bytes_of(alloc, &[Says::Hello(7), Says::Data(FIRST), Says::Bye(0)])?;
    let end = talk(alloc, &mut host, RECEIVE, heard.as_slice())?;
    if end.status != Status::Ok || end.told.as_str() != "STORED 3\n" {
        return Ok(None);
    }
    Ok(Some(host))
}

/// What the child says to a parent that asks from 3 on and then has all.
pub fn second_session(alloc: Global) -> Result<Vec<u8>, AllocError> {
    bytes_of(alloc, &[Says::Hello(7), Says::Data(SECOND), Says::Bye(0)])
}

/// The child with twelve beats says what the format's page has of it.
fn sent_at_twelve(alloc: Global) -> Result<(Status, bool), Fail> {
    let mut child = found(child_at(alloc, &[], 12)?)?;
    let heard = bytes_of(alloc, &[Says::Ask(7, 3), Says::Have(12)])?;
    let end = talk(alloc, &mut child, SEND, heard.as_slice())?;
    let session = second_session(alloc)?;
    Ok((end.status, end.sent.as_slice() == session.as_slice()))
}

#[test]
fn a_child_says_where_its_loss_ends(rt: HostRuntime) -> Result<(), Fail> {
    assert_eq!(rt; sent_at_twelve(rt.alloc())?, (Status::Ok, true));
    Ok(())
}

/// How the parent's session ends.
fn heard_at_three(alloc: Global, parent: &mut MemoryHost) -> Result<Ending, Fail> {
    let session = second_session(alloc)?;
    talk(alloc, parent, RECEIVE, session.as_slice())
}

#[test]
fn a_parent_keeps_the_loss_as_a_gap(rt: HostRuntime) -> Result<(), Fail> {
    let alloc = rt.alloc();
    let mut parent = found(parent_at_three(alloc, &[])?)?;
    let end = heard_at_three(alloc, &mut parent)?;
    assert_eq!(rt; end.status, Status::Ok);
    // Three beats, the gap and four more.
    assert_eq!(rt; end.told.as_str(), "STORED 8\n");
    let want = bytes_of(alloc, &[Says::Ask(7, 3), Says::Have(12)])?;
    assert_eq!(rt; end.sent.as_slice(), want.as_slice());
    let answer = reply(alloc, &mut parent, 13)?;
    let want = reply_of(alloc, 13, &[1, 2, 3, 9, 10, 11, 12])?;
    assert_eq!(rt; answer.as_str(), want.as_str());
    Ok(())
}

#[test]
fn a_checkpoint_keeps_whom_a_parent_copies(rt: HostRuntime) -> Result<(), Fail> {
    let alloc = rt.alloc();
    let mut parent = found(parent_at_three(alloc, &[])?)?;
    heard_at_three(alloc, &mut parent)?;
    assert!(rt; parent.len(File::JournalB)? > 17);
    let heard = bytes_of(alloc, &[Says::Hello(7), Says::Bye(0)])?;
    let end = talk(alloc, &mut parent, RECEIVE, heard.as_slice())?;
    let want = bytes_of(alloc, &[Says::Ask(7, 12)])?;
    assert_eq!(rt; end.sent.as_slice(), want.as_slice());
    let answer = reply(alloc, &mut parent, 13)?;
    let want = reply_of(alloc, 13, &[1, 2, 3, 9, 10, 11, 12])?;
    assert_eq!(rt; answer.as_str(), want.as_str());
    Ok(())
}
