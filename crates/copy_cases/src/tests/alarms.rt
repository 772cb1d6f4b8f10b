//! Alarms of a parent, which are stepped by what it stores.

use super::ends::{
    Ending, NEW_PARENT, RECEIVE, SEND, enter, found, host_of, host_with, talk, told,
};
use super::wire::HELLO;
use host_model::{MemoryHost, Status};
use std::alloc::Global;
use std::test::Fail;

/// An alarm that is raised above 85 and cleared at 75 or below.
const HIGH: &str = "alarm: high\non: test.one\ncalc: $a\nevery: 1s\n\
    warn: $this > (($status >= $WARNING) ? (75) : (85))\n";

const BEATS: &str = "CHART test.one '' 'One' 'units'\nDIMENSION a\n\
    BEGIN test.one\nSET a = 80\nEND\nMOMENT 1\n\
    BEGIN test.one\nSET a = 86\nEND\nMOMENT 2\n\
    BEGIN test.one\nSET a = 80\nEND\nMOMENT 3\n\
    BEGIN test.one\nSET a = 74\nEND\nMOMENT 4\n";

const EVENTS: &str = "EVENT 1 1 test.one high UNINITIALIZED CLEAR 80 -\n\
    EVENT 2 2 test.one high CLEAR WARNING 86 2\n\
    EVENT 3 4 test.one high WARNING CLEAR 74 4\n";

/// A parent whose alarm is configured.
fn parent_of(alloc: Global) -> Result<MemoryHost, Fail> {
    let mut host = host_of(alloc, &[])?;
    enter(alloc, &mut host, NEW_PARENT, "")?;
    enter(alloc, &mut host, &["health"], HIGH)?;
    Ok(host)
}

/// What the parent makes of all that a child has.
fn heard_all(alloc: Global, parent: &mut MemoryHost) -> Result<Ending, Fail> {
    let mut child = found(host_with(alloc, &[], &["new", "7"], BEATS)?)?;
    let asked = talk(alloc, parent, RECEIVE, HELLO)?;
    let said = talk(alloc, &mut child, SEND, asked.sent.as_slice())?;
    talk(alloc, parent, RECEIVE, said.sent.as_slice())
}

/// The configuration is the first beat, the child's are the four behind it.
#[test]
fn events_are_told_behind_the_beats_that_make_them(rt: HostRuntime) -> Result<(), Fail> {
    let alloc = rt.alloc();
    let mut parent = parent_of(alloc)?;
    let end = heard_all(alloc, &mut parent)?;
    assert_eq!(rt; end.status, Status::LinkEnded);
    let want = format!(in alloc; "STORED 5\n{EVENTS}")?;
    assert_eq!(rt; end.told.as_str(), want.as_str());
    let log = told(alloc, &mut parent, &["log", "text"], "")?;
    let want = format!(in alloc; "DROPPED 0\n{EVENTS}")?;
    assert_eq!(rt; log.as_str(), want.as_str());
    Ok(())
}
