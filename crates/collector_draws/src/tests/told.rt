//! What `collect` tells, beside what `run` tells of the text that the rules of collectors give.

use super::cut::Cut;
use super::plain::Plain;
use super::{new_cut, words_of};
use agent_app::agent_main;
use fixed_num::WordsList;
use host_model::{CallList, MemoryClock, MemoryHost, MemoryLink, MemorySource, Status};
use plugin_runner::{RunFault, Turn};
use std::alloc::Global;
use std::test::Fail;

/// How a command ended, and what it told.
#[derive(Drop)]
struct Ending {
    status: Status,
    told: Vec<u8>,
}

/// Runs the top call. The caller looks at what it left.
fn hand_over(
    alloc: Global,
    words: &WordsList,
    source: &mut MemorySource,
    host: &mut MemoryHost,
    link: &mut MemoryLink,
    spawner: &mut Cut,
    clock: &mut MemoryClock,
) -> Status {
    agent_main(alloc, words, source, host, link, spawner, clock)
}

/// Runs the top call over an input, a link on which nothing comes, and these readings of the clock.
fn call_main(
    alloc: Global,
    words: &WordsList,
    input: &[u8],
    host: &mut MemoryHost,
    spawner: &mut Cut,
    readings: &[u64],
) -> Result<Status, Fail> {
    let mut source = MemorySource::new(alloc, input, CallList::new(alloc))?;
    let mut link = MemoryLink::new(alloc, b"", CallList::new(alloc))?;
    let mut clock = MemoryClock::new(alloc, readings)?;
    Ok(hand_over(
        alloc,
        words,
        &mut source,
        host,
        &mut link,
        spawner,
        &mut clock,
    ))
}

/// Runs a command that starts no program.
fn command(
    alloc: Global,
    words: &[&str],
    input: &[u8],
    host: &mut MemoryHost,
) -> Result<Status, Fail> {
    let words = words_of(alloc, words)?;
    call_main(alloc, &words, input, host, &mut new_cut(alloc, 0), &[])
}

/// A host whose database has one beat, at this moment.
fn host_at(alloc: Global, last: u64) -> Result<MemoryHost, Fail> {
    let mut host = MemoryHost::new(alloc, CallList::new(alloc))?;
    command(alloc, &["new", "7"], b"", &mut host)?;
    let text = format!(in alloc; "MOMENT {last}\n")?;
    command(alloc, &["run"], text.as_bytes(), &mut host)?;
    Ok(host)
}

/// How `collect` ends behind such a beat.
fn collected(plain: &Plain, last: u64, spawner: &mut Cut) -> Result<Ending, Fail> {
    let alloc = plain.alloc;
    let mut host = host_at(alloc, last)?;
    let every = format!(in alloc; "{}", plain.every)?;
    let starts = format!(in alloc; "{}", plain.starts)?;
    let words = words_of(
        alloc,
        &["collect", every.as_str(), starts.as_str(), "p", "x"],
    )?;
    let readings = plain.readings.as_slice();
    let status = call_main(alloc, &words, b"", &mut host, spawner, readings)?;
    Ok(Ending {
        status,
        told: host.told().to_vec(alloc)?,
    })
}

/// How `run` ends over the text behind such a beat.
fn run_over(plain: &Plain, last: u64) -> Result<Ending, Fail> {
    let alloc = plain.alloc;
    let mut host = host_at(alloc, last)?;
    let status = command(alloc, &["run"], plain.text.as_slice(), &mut host)?;
    Ok(Ending {
        status,
        told: host.told().to_vec(alloc)?,
    })
}

/// The status of a collector whose text is not refused.
fn status_of(answer: Result<Turn, RunFault>) -> Status {
    match answer {
        Ok(_) => Status::Ok,
        Err(RunFault::Disabled(_)) => Status::Disabled,
        Err(RunFault::SpawnFault | RunFault::PipeFault) => Status::SpawnFault,
        Err(RunFault::Memory) => Status::Memory,
    }
}

/// What is told where a text ends in an open beat.
fn unfinished(alloc: Global, line: u64) -> Result<String, Fail> {
    Ok(format!(in alloc; "REFUSED {line} 28\n")?)
}

/// How `collect` is to end. Where the runner failed or was disabled it does not ask whether a beat
/// is open at the end of the text.
fn wanted(plain: &Plain, run: Ending) -> Result<Ending, Fail> {
    let answer = plain.answer();
    match run.status {
        Status::Ok => Ok(Ending {
            status: status_of(answer),
            told: run.told,
        }),
        Status::Refused(line, 28) if answer.is_err() => {
            let rest = unfinished(plain.alloc, line)?;
            let told = run.told.as_slice();
            let prefix = told.strip_suffix(rest.as_bytes()).unwrap_or(told);
            Ok(Ending {
                status: status_of(answer),
                told: prefix.to_vec(plain.alloc)?,
            })
        }
        _ => Ok(run),
    }
}

/// What `collect` does otherwise than `run` and the rules say.
pub fn first_untold(
    plain: &Plain,
    last: u64,
    spawner: &mut Cut,
) -> Result<Option<&'static str>, Fail> {
    let want = wanted(plain, run_over(plain, last)?)?;
    let got = collected(plain, last, spawner)?;
    if got.status != want.status {
        return Ok(Some("status"));
    }
    if got.told.as_slice() != want.told.as_slice() {
        return Ok(Some("told"));
    }
    Ok(None)
}
