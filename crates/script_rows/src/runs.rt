//! Runs of the top call over a host in memory.

use agent_app::agent_main;
use fixed_num::{Text, WordsList};
use host_model::{
    CallList, MemoryClock, MemoryHost, MemoryLink, MemorySource, MemorySpawner, Status,
};
use std::alloc::Global;
use std::test::Fail;

/// A command: its words, the input, what is told, and how it ends.
pub type Step = (&'static [&'static str], &'static str, &'static str, Status);

/// Stores a text.
pub const RUN: &[&str] = &["run"];

/// How a command ended.
#[derive(Debug, Drop)]
pub struct Session {
    /// What it answered.
    pub status: Status,
    /// All that was told.
    pub told: String,
    /// All that was sent.
    pub sent: Vec<u8>,
}

fn words_list(alloc: Global, words: &[&str]) -> Result<WordsList, Fail> {
    let mut list = WordsList::new(alloc);
    for word in words {
        list.push(Text::from_str(alloc, word)?)?;
    }
    Ok(list)
}

/// A host of which these calls fail.
pub fn host_of(alloc: Global, fails: &[u64]) -> Result<MemoryHost, Fail> {
    let calls = CallList::from_vec(fails.to_vec(alloc)?);
    Ok(MemoryHost::new(alloc, calls)?)
}

/// What was told past the first `count` bytes.
fn told_since(host: &MemoryHost, count: usize) -> &[u8] {
    host.told().get(count..).unwrap_or(&[])
}

/// Runs the top call. The caller looks at what it left.
fn hand_over(
    alloc: Global,
    words: &WordsList,
    source: &mut MemorySource,
    host: &mut MemoryHost,
    link: &mut MemoryLink,
    spawner: &mut MemorySpawner,
    clock: &mut MemoryClock,
) -> Status {
    agent_main(alloc, words, source, host, link, spawner, clock)
}

/// Runs the top call over this input and a link on which these bytes come, and looks at what it left. The told is that
/// of this call alone.
pub fn talk_over(
    alloc: Global,
    host: &mut MemoryHost,
    words: &[&str],
    input: &[u8],
    heard: &[u8],
) -> Result<Session, Fail> {
    let before = host.told().len();
    let words = words_list(alloc, words)?;
    let mut source = MemorySource::new(alloc, input, CallList::new(alloc))?;
    let mut link = MemoryLink::new(alloc, heard, CallList::new(alloc))?;
    let mut spawner = MemorySpawner::new(alloc, CallList::new(alloc));
    let mut clock = MemoryClock::new(alloc, &[100])?;
    let status = hand_over(
        alloc,
        &words,
        &mut source,
        host,
        &mut link,
        &mut spawner,
        &mut clock,
    );
    Ok(Session {
        status,
        told: String::from_utf8(told_since(host, before).to_vec(alloc)?)?,
        sent: link.sent().to_vec(alloc)?,
    })
}

/// The same where nothing comes on the link.
pub fn run_over(
    alloc: Global,
    host: &mut MemoryHost,
    words: &[&str],
    input: &[u8],
) -> Result<Session, Fail> {
    talk_over(alloc, host, words, input, b"")
}

/// Whether a command ends as it should.
pub fn is_right(alloc: Global, host: &mut MemoryHost, step: &Step) -> Result<bool, Fail> {
    let (words, input, told, status) = step;
    let end = run_over(alloc, host, words, input.as_bytes())?;
    Ok(end.status == *status && end.told.as_str() == *told)
}
