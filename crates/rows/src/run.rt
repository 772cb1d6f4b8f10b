//! Runs of the top call over an outside in memory.

use agent_app::agent_main;
use fixed_num::{Text, WordsList};
use host_model::{
    CallList, MemoryClock, MemoryHost, MemoryLink, MemorySource, MemorySpawner, Source, Status,
};
use std::alloc::Global;
use std::test::Fail;

/// A text that is converted to one point.
pub const ONE_POINT: &str =
    "CHART test.one '' 'One' 'units'\nDIMENSION a\nBEGIN test.one\nSET a = 42\nEND\nMOMENT 60\n";

/// What is told of `ONE_POINT`.
pub const POINT: &str = "60 test.one a 42\n";

/// How a run ended.
#[derive(Debug, Drop)]
pub struct Ending {
    pub status: Status,
    /// All that was told.
    pub told: String,
    /// Whether bytes of the input were taken.
    pub has_taken: bool,
}

/// The outside of a run: the input, and the numbers of the calls that fail.
#[derive(Clone, Copy)]
pub struct Outside<'a> {
    pub input: &'a [u8],
    pub pull_fails: &'a [u64],
    pub tell_fails: &'a [u64],
}

impl<'a> Outside<'a> {
    /// An outside that does not fail.
    pub fn sound(input: &'a [u8]) -> Outside<'a> {
        Outside {
            input,
            pull_fails: &[],
            tell_fails: &[],
        }
    }
}

fn words_list(alloc: Global, words: &[&str]) -> Result<WordsList, Fail> {
    let mut list = WordsList::new(alloc);
    for word in words {
        list.push(Text::from_str(alloc, word)?)?;
    }
    Ok(list)
}

/// The list of these calls.
pub fn calls(alloc: Global, numbers: &[u64]) -> Result<CallList, Fail> {
    Ok(CallList::from_vec(numbers.to_vec(alloc)?))
}

/// A host of which these calls fail.
pub fn host_of(alloc: Global, fails: &[u64]) -> Result<MemoryHost, Fail> {
    Ok(MemoryHost::new(alloc, calls(alloc, fails)?)?)
}

/// What was told past the first `count` bytes.
pub fn told_since(host: &MemoryHost, count: usize) -> &[u8] {
    host.told().get(count..).unwrap_or(&[])
}

/// Runs the top call. The caller looks at what it left.
fn hand_over(
    alloc: Global,
    words: &WordsList,
    source: &mut MemorySource,
    host: &mut MemoryHost,
    link: &mut MemoryLink,
    spawner: &mut MemorySpawner,
    clock: &mut MemoryClock,
) -> Status {
    agent_main(alloc, words, source, host, link, spawner, clock)
}

/// Runs the top call, over a link on which nothing comes and a clock that always reads 100.
pub fn call_main(
    alloc: Global,
    words: &[&str],
    source: &mut MemorySource,
    host: &mut MemoryHost,
    spawner: &mut MemorySpawner,
) -> Result<Status, Fail> {
    let words = words_list(alloc, words)?;
    let mut link = MemoryLink::new(alloc, b"", CallList::new(alloc))?;
    let mut clock = MemoryClock::new(alloc, &[100])?;
    Ok(hand_over(alloc, &words, source, host, &mut link, spawner, &mut clock))
}

/// Whether a source of so many bytes was asked for any.
fn has_taken(alloc: Global, source: &mut MemorySource, count: usize) -> Result<bool, Fail> {
    let mut left = vec![in alloc; 0; count]?;
    Ok(source.pull(&mut left).unwrap_or(0) < count)
}

/// Runs the top call over a host that may have been through others, and looks at what it left. The told is that of
/// this call alone. No program can be started.
pub fn run_over(
    alloc: Global,
    host: &mut MemoryHost,
    words: &[&str],
    input: &[u8],
    pull_fails: &[u64],
) -> Result<Ending, Fail> {
    let before = host.told().len();
    let mut source = MemorySource::new(alloc, input, calls(alloc, pull_fails)?)?;
    let mut spawner = MemorySpawner::new(alloc, CallList::new(alloc));
    let status = call_main(alloc, words, &mut source, host, &mut spawner)?;
    Ok(Ending {
        status,
        told: String::from_utf8(told_since(host, before).to_vec(alloc)?)?,
        has_taken: has_taken(alloc, &mut source, input.len())?,
    })
}

/// Runs the top call over a new host, and looks at what it left.
pub fn run(alloc: Global, words: &[&str], outside: Outside) -> Result<Ending, Fail> {
    let mut host = host_of(alloc, outside.tell_fails)?;
    run_over(alloc, &mut host, words, outside.input, outside.pull_fails)
}
