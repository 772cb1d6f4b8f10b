//! A session over a connection of the system, both ends of which speak at once.

use super::ends::{NEW_PARENT, RECEIVE, SEND, found, host_with, talk, told, words_of};
use super::row::{beats_text, reply};
use super::tap::Tap;
use super::wire::{Says, bytes_of};
use agent_app::agent_main;
use fixed_num::WordsList;
use host_files::TcpLink;
use host_model::{CallList, MemoryClock, MemoryHost, MemorySource, MemorySpawner, Status};
use std::alloc::Global;
use std::net::TcpListener;
use std::test::Fail;
use std::thread;

/// The moment of the last beat: the child says three messages.
const LAST: u32 = 150;

/// What the parent says of them.
const ASKS: [Says; 4] = [
    Says::Ask(7, 0),
    Says::Have(64),
    Says::Have(128),
    Says::Have(150),
];

/// What the parent tells.
const TOLD: &str = "STORED 64\nSTORED 128\nSTORED 150\n";

fn new_child(alloc: Global) -> Result<MemoryHost, Fail> {
    let text = beats_text(alloc, 1, LAST)?;
    found(host_with(alloc, &[], &["new", "7"], text.as_str())?)
}

fn new_parent(alloc: Global) -> Result<MemoryHost, Fail> {
    found(host_with(alloc, &[], NEW_PARENT, "")?)
}

/// What each end of a session says: the child and the parent.
#[derive(Drop)]
struct Said {
    child: Vec<u8>,
    parent: Vec<u8>,
}

/// The session, as it is over links in memory.
fn recorded(alloc: Global, child: &mut MemoryHost) -> Result<Said, Fail> {
    let asks = bytes_of(alloc, &ASKS)?;
    let said = talk(alloc, child, SEND, asks.as_slice())?;
    let end = talk(
        alloc,
        &mut new_parent(alloc)?,
        RECEIVE,
        said.sent.as_slice(),
    )?;
    if said.status != Status::Ok || end.status != Status::Ok || end.told.as_str() != TOLD {
        return Err(Fail::new("the session in memory"));
    }
    Ok(Said {
        child: said.sent,
        parent: end.sent,
    })
}

/// An address of this machine at which nobody listens. Its port was free a moment ago.
fn free_address(rt: &HostRuntime) -> Result<String, Fail> {
    let listener = TcpListener::bind(rt, "127.0.0.1:0")?;
    let address = listener.local_addr()?;
    Ok(format!(in rt.alloc(); "{address}")?)
}

/// Runs the top call. The caller looks at what it left.
fn hand_over(
    alloc: Global,
    words: &WordsList,
    source: &mut MemorySource,
    host: &mut MemoryHost,
    link: &mut Tap,
    spawner: &mut MemorySpawner,
    clock: &mut MemoryClock,
) -> Status {
    agent_main(alloc, words, source, host, link, spawner, clock)
}

/// The same with nothing to read. None where there is no memory.
fn call_over(
    alloc: Global,
    words: &WordsList,
    host: &mut MemoryHost,
    link: &mut Tap,
) -> Option<Status> {
    let mut source = MemorySource::new(alloc, b"", CallList::new(alloc)).ok()?;
    let mut spawner = MemorySpawner::new(alloc, CallList::new(alloc));
    let mut clock = MemoryClock::new(alloc, &[]).ok()?;
    Some(hand_over(
        alloc,
        words,
        &mut source,
        host,
        link,
        &mut spawner,
        &mut clock,
    ))
}

/// Runs a command over a connection, which is closed then. How it ended, and what was sent.
fn speak_over(
    alloc: Global,
    words: &WordsList,
    host: &mut MemoryHost,
    link: TcpLink<HostRuntime>,
) -> (Option<Status>, Vec<u8>) {
    let mut tap = Tap::new(alloc, link);
    let status = call_over(alloc, words, host, &mut tap);
    (status, tap.close())
}

#[test]
fn a_connection_carries_what_memory_does(rt: HostRuntime) -> Result<(), Fail> {
    let alloc = rt.alloc();
    let mut child = new_child(alloc)?;
    let mut parent = new_parent(alloc)?;
    let want = recorded(alloc, &mut child)?;
    let (send, receive) = (words_of(alloc, SEND)?, words_of(alloc, RECEIVE)?);
    let address = free_address(&rt)?;
    let here = TcpLink::listening(rt, address.as_str());
    let there = TcpLink::connecting(alloc, rt, address.as_str())?;
    let (first, second) = thread::join(
        &rt,
        || speak_over(alloc, &send, &mut child, there),
        || speak_over(alloc, &receive, &mut parent, here),
    );
    assert_eq!(rt; (first.0, second.0), (Some(Status::Ok), Some(Status::Ok)));
    assert_eq!(rt; first.1.as_slice(), want.child.as_slice());
    assert_eq!(rt; second.1.as_slice(), want.parent.as_slice());
    assert_eq!(rt; parent.told(), TOLD.as_bytes());
    let answer = reply(alloc, &mut parent, LAST)?;
    let kept = reply(alloc, &mut child, LAST)?;
    assert_eq!(rt; answer.as_str(), kept.as_str());
    Ok(())
}
