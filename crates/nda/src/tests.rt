//! Programs of the system that the top call runs as collectors, over a disk in memory and a clock
//! that always reads 100.

use super::*;
use fixed_num::Text;
use host_model::{CallList, MemoryClock, MemoryHost, MemoryLink, MemorySource};
use std::fs;
use std::test::Fail;

/// What `cat 1` writes.
const TEXT: &str =
    "CHART test.one '' 'One' 'units'\nDIMENSION a\nBEGIN test.one\nSET a = 42\nEND\n";

/// What is told: the beat of one start, those of two more, and the reply.
const TOLD: &str = "STORED 1\nSTORED 2\nSTORED 3\nROWS 3 a\n100 42\n101 42\n102 42\n";

/// The words of a command line, and how it ends.
type Row = (&'static [&'static str], Status);

/// The file `2` is not there.
static CATS: [Row; 6] = [
    (&["new", "7"], Status::Ok),
    (&["collect", "1", "1", "cat"], Status::Ok),
    (&["collect", "2", "1", "cat"], Status::Disabled),
    (&["collect", "1", "2", "cat"], Status::Ok),
    (
        &["collect", "1", "1", "no.such.program"],
        Status::SpawnFault,
    ),
    (&["query", "test.one", "100", "103", "1", "sum"], Status::Ok),
];

/// Scripts that go on where nothing that they write would count.
static SCRIPTS: [(&str, &str, Status); 3] = [
    ("3", "echo DISABLE; exec sleep 100\n", Status::Disabled),
    (
        "4",
        "echo BEGIN no.chart; exec sleep 100\n",
        Status::Refused(1, 21),
    ),
    ("5", "echo MOMENT 7; exit 3\n", Status::Disabled),
];

fn words_of(rt: &HostRuntime, words: &[&str]) -> Result<WordsList, Fail> {
    let mut list = WordsList::new(rt.alloc());
    for word in words {
        list.push(Text::from_str(rt.alloc(), word)?)?;
    }
    Ok(list)
}

/// Runs the top call.
fn call_main(rt: &HostRuntime, host: &mut MemoryHost, words: &[&str]) -> Result<Status, Fail> {
    let alloc = rt.alloc();
    let words = words_of(rt, words)?;
    let mut source = MemorySource::new(alloc, b"", CallList::new(alloc))?;
    let mut link = MemoryLink::new(alloc, b"", CallList::new(alloc))?;
    let mut spawner = ChildSpawner::new(alloc, rt);
    let mut clock = MemoryClock::new(alloc, &[100])?;
    Ok(agent_main(
        alloc,
        &words,
        &mut source,
        host,
        &mut link,
        &mut spawner,
        &mut clock,
    ))
}

/// The first of the commands that does not end as it should.
fn first_wrong(
    rt: &HostRuntime,
    host: &mut MemoryHost,
    rows: &[Row],
) -> Result<Option<usize>, Fail> {
    for (index, (words, status)) in rows.iter().enumerate() {
        if call_main(rt, host, words)? != *status {
            return Ok(Some(index));
        }
    }
    Ok(None)
}

#[test]
fn cat_is_run_as_a_collector(rt: HostRuntime) -> Result<(), Fail> {
    fs::write(&rt, "1", TEXT)?;
    let mut host = MemoryHost::new(rt.alloc(), CallList::new(rt.alloc()))?;
    assert_eq!(rt; first_wrong(&rt, &mut host, &CATS)?, None);
    assert_eq!(rt; host.told(), TOLD.as_bytes());
    Ok(())
}

/// `sh EVERY` runs the script of that name.
#[test]
fn a_collector_is_not_waited_for_where_it_does_not_count(rt: HostRuntime) -> Result<(), Fail> {
    let mut host = MemoryHost::new(rt.alloc(), CallList::new(rt.alloc()))?;
    assert_eq!(rt; call_main(&rt, &mut host, &["new", "7"])?, Status::Ok);
    for (every, script, status) in &SCRIPTS {
        fs::write(&rt, *every, *script)?;
        let words = ["collect", every, "1", "sh"];
        assert_eq!(rt; call_main(&rt, &mut host, &words)?, *status, "{script}");
    }
    assert_eq!(rt; host.told(), b"REFUSED 1 21\nSTORED 1\n".as_slice());
    Ok(())
}
