//! Programs that are run as collectors, over children in memory and a clock that always reads 100.

use crate::run::{call_main, calls, host_of, run_over, told_since};
use host_model::{CallList, MemoryHost, MemorySource, MemorySpawner, Status};
use std::alloc::Global;
use std::test::Fail;

/// What a child writes, and the status that it ends with.
type Child = (&'static str, i32);

/// A run of a collector over a new database.
struct Row {
    title: &'static str,
    words: &'static [&'static str],
    children: &'static [Child],
    /// The calls of the spawner that fail.
    fails: &'static [u64],
    told: &'static str,
    status: Status,
    /// The answer to a question about the moments 100 and 101.
    points: &'static str,
}

const ONCE: &[&str] = &["collect", "1", "1", "p"];

const TWICE: &[&str] = &["collect", "1", "2", "p"];

const TO_BEGIN: &str = "CHART test.one '' 'One' 'units'\nDIMENSION a\nBEGIN test.one\n";

const TO_END: &str =
    "CHART test.one '' 'One' 'units'\nDIMENSION a\nBEGIN test.one\nSET a = 42\nEND\n";

const TO_DISABLE: &str =
    "CHART test.one '' 'One' 'units'\nDIMENSION a\nBEGIN test.one\nSET a = 42\nEND\nDISABLE\n";

const TO_SECOND_BEGIN: &str =
    "CHART test.one '' 'One' 'units'\nDIMENSION a\nBEGIN test.one\nSET a = 42\nEND\nBEGIN test.one\n";

/// The last line has no end.
const TO_HALF_A_LINE: &str =
    "CHART test.one '' 'One' 'units'\nDIMENSION a\nBEGIN test.one\nSET a = 42\nEND\nBEG";

/// A chart with a beat each two seconds.
const EACH_TWO: &str =
    "CHART test.one '' 'One' 'units' f c line 1 2\nDIMENSION a\nBEGIN test.one\nSET a = 42\nEND\n";

/// The database has no such chart.
const NO_CHART: &str = "ERROR 3\n";

const ONE_POINT: &str = "ROWS 2 a\n100 42\n101 null\n";

static ROWS: [Row; 11] = [
    Row {
        title: "a program that cannot be started",
        words: TWICE,
        children: &[(TO_END, 0), (TO_END, 0)],
        fails: &[0],
        told: "",
        status: Status::SpawnFault,
        points: NO_CHART,
    },
    Row {
        title: "a pipe that cannot be read",
        words: TWICE,
        children: &[(TO_END, 0), (TO_END, 0)],
        fails: &[2],
        told: "",
        status: Status::SpawnFault,
        points: NO_CHART,
    },
    Row {
        title: "a beat of each child",
        words: TWICE,
        children: &[(TO_END, 0), (TO_END, 0)],
        fails: &[],
        told: "STORED 1\nSTORED 2\n",
        status: Status::Ok,
        points: "ROWS 2 a\n100 42\n101 42\n",
    },
    Row {
        title: "definitions behind the last beat",
        words: TWICE,
        children: &[(TO_BEGIN, 0), (TO_BEGIN, 0)],
        fails: &[],
        told: "REFUSED 8 28\n",
        status: Status::Refused(8, 28),
        points: NO_CHART,
    },
    Row {
        title: "a collector that is not to be started again",
        words: TWICE,
        children: &[(TO_DISABLE, 0), (TO_END, 0)],
        fails: &[],
        told: "",
        status: Status::Disabled,
        points: NO_CHART,
    },
    Row {
        title: "collectors that write nothing",
        words: TWICE,
        children: &[("", 0), ("", 0)],
        fails: &[],
        told: "",
        status: Status::Ok,
        points: NO_CHART,
    },
    Row {
        title: "a beat before a collector that fails",
        words: ONCE,
        children: &[(TO_SECOND_BEGIN, 3)],
        fails: &[],
        told: "STORED 1\n",
        status: Status::Disabled,
        points: ONE_POINT,
    },
    Row {
        title: "a line that has no end",
        words: ONCE,
        children: &[(TO_HALF_A_LINE, 3)],
        fails: &[],
        told: "STORED 1\n",
        status: Status::Disabled,
        points: ONE_POINT,
    },
    Row {
        title: "a refusal before the end of the collector",
        words: ONCE,
        children: &[("BEGIN test.two\n", 3)],
        fails: &[],
        told: "REFUSED 1 21\n",
        status: Status::Refused(1, 21),
        points: NO_CHART,
    },
    Row {
        title: "a chart off the grid",
        words: &["collect", "3", "1", "p"],
        children: &[(EACH_TWO, 0)],
        fails: &[],
        told: "REFUSED 6 26\n",
        status: Status::Refused(6, 26),
        points: NO_CHART,
    },
    Row {
        title: "a chart on the grid",
        words: &["collect", "4", "1", "p"],
        children: &[(EACH_TWO, 0)],
        fails: &[],
        told: "STORED 1\n",
        status: Status::Ok,
        points: ONE_POINT,
    },
];

/// A spawner of these children, of which these calls fail.
fn spawner_of(alloc: Global, children: &[Child], fails: &[u64]) -> Result<MemorySpawner, Fail> {
    let mut spawner = MemorySpawner::new(alloc, calls(alloc, fails)?);
    for (text, status) in children {
        spawner.add(text.as_bytes(), *status)?;
    }
    Ok(spawner)
}

/// How a collector of these words ends, and whether it tells what is wanted.
fn ends(
    alloc: Global,
    host: &mut MemoryHost,
    words: &[&str],
    spawner: &mut MemorySpawner,
    told: &str,
) -> Result<(Status, bool), Fail> {
    let before = host.told().len();
    let mut source = MemorySource::new(alloc, b"MOMENT 7\n", CallList::new(alloc))?;
    let status = call_main(alloc, words, &mut source, host, spawner)?;
    Ok((status, told_since(host, before) == told.as_bytes()))
}

/// A host with a new database.
fn new_database(alloc: Global) -> Result<MemoryHost, Fail> {
    let mut host = host_of(alloc, &[])?;
    run_over(alloc, &mut host, &["new", "7"], b"", &[])?;
    Ok(host)
}

/// How the row ends, and whether it tells what is wanted and leaves these points.
fn step(alloc: Global, row: &Row) -> Result<(Status, bool, bool), Fail> {
    let mut host = new_database(alloc)?;
    let mut spawner = spawner_of(alloc, row.children, row.fails)?;
    let (status, is_told) = ends(alloc, &mut host, row.words, &mut spawner, row.told)?;
    let question: &[&str] = &["query", "test.one", "100", "102", "1", "sum"];
    let answer = run_over(alloc, &mut host, question, b"", &[])?;
    Ok((status, is_told, answer.told.as_str() == row.points))
}

#[test]
fn collectors_end_as_they_should(rt: HostRuntime) -> Result<(), Fail> {
    for row in &ROWS {
        assert_eq!(rt;
            step(rt.alloc(), row)?,
            (row.status, true, true),
            "{}",
            row.title
        );
    }
    Ok(())
}

/// A chart whose line leaves its update_every open has that of the run that defined it.
#[test]
fn a_chart_keeps_the_seconds_of_its_first_run(rt: HostRuntime) -> Result<(), Fail> {
    let alloc = rt.alloc();
    let mut host = new_database(alloc)?;
    for (every, told, status) in [
        ("5", "STORED 1\n", Status::Ok),
        ("10", "REFUSED 1 31\n", Status::Refused(1, 31)),
        ("5", "STORED 2\n", Status::Ok),
    ] {
        let mut spawner = spawner_of(alloc, &[(TO_END, 0)], &[])?;
        let words = ["collect", every, "1", "p"];
        let end = ends(alloc, &mut host, &words, &mut spawner, told)?;
        assert_eq!(rt; end, (status, true), "at {every}");
    }
    Ok(())
}

#[test]
fn a_program_is_given_the_seconds_and_its_words(rt: HostRuntime) -> Result<(), Fail> {
    let alloc = rt.alloc();
    let mut host = new_database(alloc)?;
    let mut spawner = spawner_of(alloc, &[("", 0)], &[])?;
    let words = ["collect", "7", "1", "p", "a", "b c"];
    let end = ends(alloc, &mut host, &words, &mut spawner, "")?;
    assert_eq!(rt; end, (Status::Ok, true));
    let mut given = Vec::new(alloc);
    for start in spawner.starts() {
        for word in start.as_slice() {
            given.push(word.as_str())?;
        }
    }
    assert_eq!(rt; given.as_slice(), ["p", "7", "a", "b c"].as_slice());
    Ok(())
}
