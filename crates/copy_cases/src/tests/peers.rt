//! What peers may say, and how each end answers and ends.

use super::ends::{Ending, NEW_PARENT, RECEIVE, SEND, found, host_with, talk_over};
use super::row::{FIRST, child_at};
use super::wire::{Message, Says, WORD, bytes_of};
use host_model::{MemoryHost, Status};
use std::alloc::Global;
use std::test::Fail;

/// What is heard, what is said and told, and how the session ends.
type Row = (&'static [Says], &'static [Says], &'static str, Status);

const BAD: Status = Status::PeerRefused(2);

/// Three messages of a child, each of which begins where the one before ended.
const A: Message = Message {
    child: 7,
    prev: 0,
    from: 0,
    upto: 2,
    floor: 0,
    update_every: 1,
    beats: &[(1, WORD + 1), (2, WORD + 2)],
};

const B: Message = Message {
    child: 7,
    prev: 2,
    from: 2,
    upto: 4,
    floor: 0,
    update_every: 1,
    beats: &[(3, WORD + 3), (4, WORD + 4)],
};

const C: Message = Message {
    child: 7,
    prev: 4,
    from: 4,
    upto: 6,
    floor: 0,
    update_every: 1,
    beats: &[(5, WORD + 5), (6, WORD + 6)],
};

/// The second of them, as another child would say it.
const OTHER: Message = Message {
    child: 8,
    prev: 2,
    from: 2,
    upto: 4,
    floor: 0,
    update_every: 1,
    beats: &[(3, WORD + 3), (4, WORD + 4)],
};

/// The last two beats of the first message of a child that was asked for what is above the first.
const REST: Message = Message {
    child: 7,
    prev: 1,
    from: 1,
    upto: 3,
    floor: 0,
    update_every: 1,
    beats: &[(2, WORD + 2), (3, WORD + 3)],
};

/// What a parent with a new database hears.
static TO_PARENT: [Row; 10] = [
    // A body of a kind that there is not, and a length of 2^24 + 1.
    (&[Says::Bytes(b"\x01\0\0\0\x09")], &[Says::Bye(2)], "", BAD),
    (
        &[Says::Bytes(b"\x01\0\0\x01")],
        &[Says::Bye(2)],
        "",
        Status::PeerRefused(3),
    ),
    // Another frame in place of Hello.
    (&[Says::Data(A)], &[Says::Bye(2)], "", BAD),
    // A session, by the bytes of its frames.
    (
        &[
            Says::Bytes(b"\x09\0\0\0\x01\x07\0\0\0\0\0\0\0"),
            Says::Bytes(b"\x02\0\0\0\x05\0"),
        ],
        &[Says::Bytes(b"\x0d\0\0\0\x02\x07\0\0\0\0\0\0\0\0\0\0\0")],
        "",
        Status::Ok,
    ),
    // A frame behind Hello that a child does not say.
    (
        &[Says::Hello(7), Says::Have(0)],
        &[Says::Ask(7, 0), Says::Bye(2)],
        "",
        BAD,
    ),
    // Messages that come twice, too early and then in their turn.
    (
        &[
            Says::Hello(7),
            Says::Data(A),
            Says::Data(A),
            Says::Data(C),
            Says::Data(B),
        ],
        &[
            Says::Ask(7, 0),
            Says::Have(2),
            Says::Ask(7, 2),
            Says::Have(4),
        ],
        "STORED 2\nSTORED 4\n",
        Status::LinkEnded,
    ),
    // One of another child than the parent keeps.
    (
        &[Says::Hello(7), Says::Data(A), Says::Data(OTHER)],
        &[Says::Ask(7, 0), Says::Have(2), Says::Bye(1)],
        "STORED 2\n",
        Status::PeerRefused(1),
    ),
    // What comes behind the end is not looked at.
    (
        &[Says::Hello(7), Says::Bye(0), Says::Data(A)],
        &[Says::Ask(7, 0)],
        "",
        Status::Ok,
    ),
    // Messages before a bad frame stay.
    (
        &[Says::Hello(7), Says::Data(A), Says::Bytes(b"\0\0\0\0")],
        &[Says::Ask(7, 0), Says::Have(2), Says::Bye(2)],
        "STORED 2\n",
        BAD,
    ),
    // A frame that is cut.
    (&[Says::Bytes(b"\x09\0\0\0")], &[], "", Status::LinkEnded),
];

/// What a child with three beats hears.
static TO_CHILD: [Row; 8] = [
    (
        &[Says::Ask(7, 0), Says::Have(3)],
        &[Says::Hello(7), Says::Data(FIRST), Says::Bye(0)],
        "",
        Status::Ok,
    ),
    (
        &[Says::Ask(7, 3)],
        &[Says::Hello(7), Says::Bye(0)],
        "",
        Status::Ok,
    ),
    // An Ask of another child, and a Have before any Data.
    (&[Says::Ask(8, 0)], &[Says::Hello(7), Says::Bye(2)], "", BAD),
    (&[Says::Have(0)], &[Says::Hello(7), Says::Bye(2)], "", BAD),
    // A greater Have, and smaller ones.
    (
        &[Says::Ask(7, 0), Says::Have(4)],
        &[Says::Hello(7), Says::Data(FIRST), Says::Bye(2)],
        "",
        BAD,
    ),
    (
        &[Says::Ask(7, 0), Says::Have(2), Says::Have(0), Says::Have(3)],
        &[Says::Hello(7), Says::Data(FIRST), Says::Bye(0)],
        "",
        Status::Ok,
    ),
    // An Ask behind a Data, and one for what was sent already.
    (
        &[Says::Ask(7, 0), Says::Ask(7, 1), Says::Ask(7, 0)],
        &[
            Says::Hello(7),
            Says::Data(FIRST),
            Says::Data(REST),
            Says::Data(FIRST),
        ],
        "",
        Status::LinkEnded,
    ),
    (
        &[Says::Ask(7, 0), Says::Bye(1)],
        &[Says::Hello(7), Says::Data(FIRST)],
        "",
        Status::PeerRefused(1),
    ),
];

/// Whether the session ends as the row says.
fn is_right(alloc: Global, end: &Ending, row: &Row) -> Result<bool, Fail> {
    let (_, sent, told, status) = row;
    let sent = bytes_of(alloc, sent)?;
    Ok(
        end.status == *status
            && end.told.as_str() == *told
            && end.sent.as_slice() == sent.as_slice(),
    )
}

fn is_answered(
    alloc: Global,
    host: &mut MemoryHost,
    words: &[&str],
    row: &Row,
) -> Result<bool, Fail> {
    let heard = bytes_of(alloc, row.0)?;
    let end = talk_over(alloc, host, words, heard.as_slice(), &[])?;
    is_right(alloc, &end, row)
}

/// Each row over a new database.
#[test]
fn a_parent_answers_each_peer(rt: HostRuntime) -> Result<(), Fail> {
    let alloc = rt.alloc();
    for (index, row) in TO_PARENT.iter().enumerate() {
        let mut host = found(host_with(alloc, &[], NEW_PARENT, "")?)?;
        assert!(rt;
            is_answered(alloc, &mut host, RECEIVE, row)?,
            "in row {index}"
        );
    }
    Ok(())
}

/// The rows one after the other over one database, in which nothing changes.
#[test]
fn a_child_answers_each_peer(rt: HostRuntime) -> Result<(), Fail> {
    let alloc = rt.alloc();
    let mut host = found(child_at(alloc, &[], 3)?)?;
    for (index, row) in TO_CHILD.iter().enumerate() {
        assert!(rt; is_answered(alloc, &mut host, SEND, row)?, "in row {index}");
    }
    Ok(())
}
