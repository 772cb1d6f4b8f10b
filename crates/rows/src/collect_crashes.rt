//! A collector each of whose calls on the host, and on the spawner, is refused in turn.

use crate::run::{Ending, call_main, calls, host_of, run_over, told_since};
use host_model::{CallList, MemoryHost, MemorySource, MemorySpawner, Status};
use std::alloc::{AllocError, Global};
use std::fmt::Write;
use std::test::Fail;

/// What each child writes.
const TEXT: &str =
    "CHART test.one '' 'One' 'units'\nDIMENSION a\nBEGIN test.one\nSET a = 42\nEND\n";

/// More calls on the host than the commands before the crash make.
const CALLS: u64 = 64;

/// More calls on the spawner than three children take.
const SPAWNER_CALLS: u64 = 16;

/// How many children there are, and so how many beats: at the moments 100, 101 and 102.
const CHILDREN: usize = 3;

/// Runs so many children as collectors, where these calls of the spawner fail.
fn collect(
    alloc: Global,
    host: &mut MemoryHost,
    children: usize,
    fails: &[u64],
) -> Result<Ending, Fail> {
    let before = host.told().len();
    let mut source = MemorySource::new(alloc, b"", CallList::new(alloc))?;
    let mut spawner = MemorySpawner::new(alloc, calls(alloc, fails)?);
    for _ in 0..children {
        spawner.add(TEXT.as_bytes(), 0)?;
    }
    let starts = if children == CHILDREN { "3" } else { "1" };
    let words = ["collect", "1", starts, "p"];
    let status = call_main(alloc, &words, &mut source, host, &mut spawner)?;
    Ok(Ending {
        status,
        told: String::from_utf8(told_since(host, before).to_vec(alloc)?)?,
        has_taken: false,
    })
}

/// What is told where beats are stored behind the first `skipped`, up to the `last`.
fn stored(alloc: Global, skipped: usize, last: usize) -> Result<String, AllocError> {
    let mut told = String::new(alloc);
    for number in skipped..last {
        let number = number.saturating_add(1);
        writeln!(told, "STORED {number}")?;
    }
    Ok(told)
}

/// What is told of the points of four moments, where so many beats are there.
fn points(alloc: Global, beats: usize) -> Result<String, AllocError> {
    if beats == 0 {
        return String::from_str(alloc, "ERROR 3\n");
    }
    let mut told = String::from_str(alloc, "ROWS 4 a\n")?;
    for index in 0..4usize {
        let moment = index.saturating_add(100);
        let value = if index < beats { "42" } else { "null" };
        writeln!(told, "{moment} {value}")?;
    }
    Ok(told)
}

/// How many beats are there, where the points are those of just so many.
fn beats_there(alloc: Global, host: &mut MemoryHost) -> Result<Option<usize>, Fail> {
    let words: &[&str] = &["query", "test.one", "100", "104", "1", "sum"];
    let told = run_over(alloc, host, words, b"", &[])?.told;
    for beats in 0..4usize {
        if points(alloc, beats)?.as_str() == told.as_str() {
            return Ok(Some(beats));
        }
    }
    Ok(None)
}

/// How a collector of a new database ends where this call on the host is refused, and whether it tells of each beat.
fn host_fails_at(alloc: Global, fails: u64) -> Result<(Status, bool), Fail> {
    let mut host = host_of(alloc, &[fails])?;
    run_over(alloc, &mut host, &["new", "7"], b"", &[])?;
    let end = collect(alloc, &mut host, CHILDREN, &[])?;
    let told = stored(alloc, 0, CHILDREN)?;
    Ok((end.status, end.told.as_str() == told.as_str()))
}

/// At how many of the calls the telling of a beat and the storing of the beats fail.
fn fault_counts(alloc: Global) -> Result<(u64, u64), Fail> {
    let (mut told, mut disk) = (0u64, 0u64);
    for fails in 0..CALLS {
        match host_fails_at(alloc, fails)? {
            (Status::TellFault, false) => told = told.saturating_add(1),
            (Status::DiskFault, false) => disk = disk.saturating_add(1),
            _ => {}
        }
    }
    Ok((told, disk))
}

/// Each of the three tellings fails once. Each beat wants a write and a sync at least.
#[test]
fn each_fault_of_a_collector_is_met(rt: HostRuntime) -> Result<(), Fail> {
    let (told, disk) = fault_counts(rt.alloc())?;
    assert_eq!(rt; told, 3);
    assert!(rt; disk >= 6, "{disk} calls");
    assert_eq!(rt; host_fails_at(rt.alloc(), CALLS - 1)?, (Status::Ok, true));
    Ok(())
}

/// How a collector of a new database ends where this call of the spawner fails, and whether it left what it told of.
fn spawner_fails_at(alloc: Global, fails: u64) -> Result<(Status, bool), Fail> {
    let mut host = host_of(alloc, &[])?;
    run_over(alloc, &mut host, &["new", "7"], b"", &[])?;
    let end = collect(alloc, &mut host, CHILDREN, &[fails])?;
    let beats = beats_there(alloc, &mut host)?.unwrap_or(9);
    let told = stored(alloc, 0, beats)?;
    Ok((end.status, end.told.as_str() == told.as_str()))
}

/// A start, two pulls and a wait are made for each child.
#[test]
fn a_spawner_that_fails_loses_no_beat(rt: HostRuntime) -> Result<(), Fail> {
    for fails in 0..SPAWNER_CALLS {
        let status = if fails < 12 {
            Status::SpawnFault
        } else {
            Status::Ok
        };
        assert_eq!(rt;
            spawner_fails_at(rt.alloc(), fails)?,
            (status, true),
            "call {fails}"
        );
    }
    Ok(())
}
