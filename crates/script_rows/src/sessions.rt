//! The session at the end of the script, at both of its ends.

use crate::commands::command;
use crate::files::{Files, host_before};
use crate::found::{Found, text_at};
use crate::lefts::{Left, first_beats, lefts_of};
use crate::places::Place;
use crate::runs::{Session, Step, host_of, run_over, talk_over};
use host_model::Status;
use std::alloc::Global;
use std::test::Fail;

const SEND: &[&str] = &["send", "x"];

/// It tells nothing.
const SESSION: Step = (SEND, "", "", Status::Ok);

const RECEIVE: &[&str] = &["receive", "x"];

/// A parent asks for what is above 7205, and has it then.
const HEARD: &[u8] = b"\x0d\0\0\0\x02\x07\0\0\0\0\0\0\0\x25\x1c\0\0\x05\0\0\0\x04\x67\x1c\0\0";

/// What the sixtieth command says to it: who it is, two beats of three points, and that this was all.
const SENT: &[u8] = b"\x09\0\0\0\x01\x07\0\0\0\0\0\0\0\
    \x99\0\0\0\x03\x07\0\0\0\0\0\0\0\x25\x1c\0\0\x25\x1c\0\0\x67\x1c\0\0\x0b\x0f\0\0\
    \x02\0\0\0\x03\0t.c\x03\0t.c\x01\0\0\0\x03\0t.d\x03\0t.d\x01\0\0\0\
    \x03\0\0\0\0\0\0\0\x01\0a\0\0\0\0\0\x01\0b\0\x01\0\0\0\x01\0c\0\
    \x02\0\0\0\x2a\x1c\0\0\x03\0\0\0\0\0\0\0@w\x1b)\x01\0\0\0\xe0\xfd\x1c)\x02\0\0\0\x80\x84\x1e)\
    \x67\x1c\0\0\x03\0\0\0\0\0\0\0@w\x1b)\x01\0\0\0\xe0\xfd\x1c)\x02\0\0\0\x90\xbd\x98!\
    \x02\0\0\0\x05\0";

/// A child is asked for all that it has, and its parent has all up to 7210 then.
const FROM_START: &[u8] = b"\x0d\0\0\0\x02\x07\0\0\0\0\0\0\0\0\0\0\0\x05\0\0\0\x04\x2a\x1c\0\0";

/// A parent asks for what is above 7210, and has it then.
const LAST_BEAT: &[u8] = b"\x0d\0\0\0\x02\x07\0\0\0\0\0\0\0\x2a\x1c\0\0\x05\0\0\0\x04\x67\x1c\0\0";

/// A database of small quotas that is to be a copy.
const PARENT: &[&str] = &["new", "8", "9", "1", "12", "1", "3", "1"];

/// The child behind the script. Its session leaves all as it was.
pub fn child(alloc: Global) -> Result<Place, Fail> {
    let mut host = host_before(alloc, 59)?;
    let files = Files::of(alloc, &mut host)?;
    let text = text_at(alloc, 7275)?;
    let lefts = lefts_of(alloc, &files, &SESSION, 0, text.as_str())?;
    let wanted = Session {
        status: Status::Ok,
        told: String::new(alloc),
        sent: SENT.to_vec(alloc)?,
    };
    Ok(Place {
        words: SEND,
        input: "",
        heard: HEARD.to_vec(alloc)?,
        wanted,
        files,
        text,
        lefts,
    })
}

/// What the child says that hears this once it has the beats up to 7210.
fn said_earlier(alloc: Global, heard: &[u8]) -> Result<Vec<u8>, Fail> {
    let mut host = host_before(alloc, 52)?;
    let (words, input, _, _) = command(52)?;
    let input = first_beats(alloc, input, 1)?;
    run_over(alloc, &mut host, words, input.as_bytes())?;
    Ok(talk_over(alloc, &mut host, SEND, b"", heard)?.sent)
}

/// What it says that hears this behind the script.
fn said_at_last(alloc: Global, heard: &[u8]) -> Result<Vec<u8>, Fail> {
    let mut host = host_before(alloc, 59)?;
    Ok(talk_over(alloc, &mut host, SEND, b"", heard)?.sent)
}

/// A parent that has the script's alarms, and what the child keeps up to 7210.
fn parent_files(alloc: Global) -> Result<Files, Fail> {
    let mut host = host_of(alloc, &[])?;
    run_over(alloc, &mut host, PARENT, b"")?;
    let (words, alarms, _, _) = command(31)?;
    run_over(alloc, &mut host, words, alarms.as_bytes())?;
    let heard = said_earlier(alloc, FROM_START)?;
    talk_over(alloc, &mut host, RECEIVE, b"", heard.as_slice())?;
    Files::of(alloc, &mut host)
}

/// What a parent that hears this leaves.
fn left_by(alloc: Global, files: &Files, heard: &[u8], text: &str) -> Result<Left, Fail> {
    let mut host = files.host(alloc)?;
    let told = talk_over(alloc, &mut host, RECEIVE, b"", heard)?.told;
    let found = Found::by(alloc, &mut host, text)?;
    Ok(Left { told, found })
}

/// A parent that hears of the child's last beat.
pub fn parent(alloc: Global) -> Result<Place, Fail> {
    let files = parent_files(alloc)?;
    let text = text_at(alloc, 7275)?;
    let heard = said_at_last(alloc, LAST_BEAT)?;
    let none = left_by(alloc, &files, b"", text.as_str())?;
    let all = left_by(alloc, &files, heard.as_slice(), text.as_str())?;
    let told = String::from_str(alloc, all.told.as_str())?;
    let mut lefts = Vec::new(alloc);
    lefts.push(none)?;
    lefts.push(all)?;
    let wanted = Session {
        status: Status::Ok,
        told,
        sent: LAST_BEAT.to_vec(alloc)?,
    };
    Ok(Place {
        words: RECEIVE,
        input: "",
        heard,
        wanted,
        files,
        text,
        lefts,
    })
}
