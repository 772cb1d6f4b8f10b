//! The commands, over an outside in memory.

use super::wire::HELLO;
use agent_app::agent_main;
use fixed_num::{Text, WordsList};
use host_model::{
    CallList, MemoryClock, MemoryHost, MemoryLink, MemorySource, MemorySpawner, Status,
};
use std::alloc::{AllocError, Global};
use std::test::Fail;

/// The words of a child and of a parent.
pub const SEND: &[&str] = &["send", "x"];

pub const RECEIVE: &[&str] = &["receive", "x"];

/// The database of the parent.
pub const NEW_PARENT: &[&str] = &["new", "8"];

/// The database of a child that keeps its newest points only.
pub const NEW_CHILD: &[&str] = &["new", "7", "4", "1", "100", "1", "100", "1"];

/// How a command ended, what it told and what it sent.
#[derive(Debug, Drop)]
pub struct Ending {
    pub status: Status,
    pub told: String,
    pub sent: Vec<u8>,
}

/// The words of a command line.
pub fn words_of(alloc: Global, words: &[&str]) -> Result<WordsList, AllocError> {
    let mut list = WordsList::new(alloc);
    for word in words {
        list.push(Text::from_str(alloc, word)?)?;
    }
    Ok(list)
}

fn calls(alloc: Global, numbers: &[u64]) -> Result<CallList, AllocError> {
    Ok(CallList::from_vec(numbers.to_vec(alloc)?))
}

/// A host of which these calls fail.
pub fn host_of(alloc: Global, fails: &[u64]) -> Result<MemoryHost, Fail> {
    Ok(MemoryHost::new(alloc, calls(alloc, fails)?)?)
}

/// Runs the top call. The caller looks at what it left.
fn hand_over(
    alloc: Global,
    words: &WordsList,
    source: &mut MemorySource,
    host: &mut MemoryHost,
    link: &mut MemoryLink,
    spawner: &mut MemorySpawner,
    clock: &mut MemoryClock,
) -> Status {
    agent_main(alloc, words, source, host, link, spawner, clock)
}

fn call_main(
    alloc: Global,
    words: &[&str],
    input: &[u8],
    host: &mut MemoryHost,
    link: &mut MemoryLink,
) -> Result<Status, Fail> {
    let words = words_of(alloc, words)?;
    let mut source = MemorySource::new(alloc, input, CallList::new(alloc))?;
    let mut spawner = MemorySpawner::new(alloc, CallList::new(alloc));
    let mut clock = MemoryClock::new(alloc, &[])?;
    Ok(hand_over(
        alloc,
        &words,
        &mut source,
        host,
        link,
        &mut spawner,
        &mut clock,
    ))
}

/// What was told past the first `count` bytes.
fn told_since(alloc: Global, host: &MemoryHost, count: usize) -> Result<String, Fail> {
    let told = host.told().get(count..).unwrap_or(&[]);
    Ok(String::from_utf8(told.to_vec(alloc)?)?)
}

/// Runs a command over a link that gives these bytes and then no more, and of which these calls
/// fail.
pub fn talk_over(
    alloc: Global,
    host: &mut MemoryHost,
    words: &[&str],
    heard: &[u8],
    fails: &[u64],
) -> Result<Ending, Fail> {
    let before = host.told().len();
    let mut link = MemoryLink::new(alloc, heard, calls(alloc, fails)?)?;
    let status = call_main(alloc, words, b"", host, &mut link)?;
    Ok(Ending {
        status,
        told: told_since(alloc, host, before)?,
        sent: link.sent().to_vec(alloc)?,
    })
}

/// The same over a link that does not fail.
pub fn talk(
    alloc: Global,
    host: &mut MemoryHost,
    words: &[&str],
    heard: &[u8],
) -> Result<Ending, Fail> {
    talk_over(alloc, host, words, heard, &[])
}

/// Runs a command that reads this text, and says how it ended.
pub fn enter(
    alloc: Global,
    host: &mut MemoryHost,
    words: &[&str],
    text: &str,
) -> Result<Status, Fail> {
    let mut link = MemoryLink::new(alloc, b"", CallList::new(alloc))?;
    call_main(alloc, words, text.as_bytes(), host, &mut link)
}

/// What a command tells that reads this text.
pub fn told(
    alloc: Global,
    host: &mut MemoryHost,
    words: &[&str],
    text: &str,
) -> Result<String, Fail> {
    let before = host.told().len();
    enter(alloc, host, words, text)?;
    told_since(alloc, host, before)
}

/// A host whose database was made by these words and has run this text. None where one of the two
/// failed.
pub fn host_with(
    alloc: Global,
    fails: &[u64],
    new: &[&str],
    text: &str,
) -> Result<Option<MemoryHost>, Fail> {
    let mut host = host_of(alloc, fails)?;
    if enter(alloc, &mut host, new, "")? != Status::Ok
        || enter(alloc, &mut host, &["run"], text)? != Status::Ok
    {
        return Ok(None);
    }
    Ok(Some(host))
}

/// A host that is there.
pub fn found(host: Option<MemoryHost>) -> Result<MemoryHost, Fail> {
    match host {
        Some(host) => Ok(host),
        None => Err(Fail::new("a command before the session failed")),
    }
}

/// Lets a child and a parent speak in turn until the child has no more to send and the parent knows
/// it: each is handed what the other one sent, from its session's beginning on.
pub fn speak(alloc: Global, child: &mut MemoryHost, parent: &mut MemoryHost) -> Result<bool, Fail> {
    let mut asked = talk(alloc, parent, RECEIVE, HELLO)?;
    for _ in 0..50 {
        let said = talk(alloc, child, SEND, asked.sent.as_slice())?;
        asked = talk(alloc, parent, RECEIVE, said.sent.as_slice())?;
        if said.status == Status::Ok && asked.status == Status::Ok {
            return Ok(true);
        }
    }
    Ok(false)
}
