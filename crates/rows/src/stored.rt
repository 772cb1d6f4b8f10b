//! What `new` and `run` leave of a database, over hosts that live through several commands.

use crate::run::{Ending, ONE_POINT, POINT, host_of, run_over};
use crate::steps::{MAKE, NEW, RUN, STORE, Step, first_wrong, step};
use host_model::{Keep, MemoryHost, Status};
use std::alloc::{AllocError, Global};
use std::fmt::Write;
use std::test::Fail;

/// A text that another beat may follow.
const NEXT_POINT: &str =
    "CHART test.one '' 'One' 'units'\nDIMENSION a\nBEGIN test.one\nSET a = 43\nEND\nMOMENT 61\n";

const OFF_GRID: &str =
    "CHART t.c '' T u f c line 1000 5\nDIMENSION a\nBEGIN t.c\nSET a = 1\nEND\nMOMENT 5\nBEGIN t.c\nSET a = 2\nEND\nMOMENT 7\n";

const UNFINISHED: &str =
    "CHART test.one '' 'One' 'units'\nDIMENSION a\nBEGIN test.one\nSET a = 42\nEND\n";

const DISABLED: &str =
    "CHART t.c n t u\nDIMENSION a\nBEGIN t.c\nSET a = 1\nEND\nMOMENT 60\nBEGIN t.c\nDISABLE\nMOMENT 1\n";

/// Commands over one host each.
static SEQUENCES: [(&str, &[Step]); 8] = [
    (
        "no database",
        &[
            (RUN, ONE_POINT, "", Status::NotADatabase),
            (&["convert"], ONE_POINT, POINT, Status::Ok),
            (RUN, "", "", Status::NotADatabase),
        ],
    ),
    (
        "a database is made once",
        &[
            MAKE,
            (NEW, "", "", Status::Exists),
            (&["new", "8"], "", "", Status::Exists),
            (RUN, "", "", Status::Ok),
        ],
    ),
    (
        "a beat is stored once",
        &[
            MAKE,
            STORE,
            (RUN, ONE_POINT, "REFUSED 6 27 60\n", Status::Refused(6, 27)),
            (NEW, "", "", Status::Exists),
        ],
    ),
    (
        "beats are numbered on",
        &[MAKE, STORE, (RUN, NEXT_POINT, "STORED 2\n", Status::Ok)],
    ),
    (
        "a moment off the grid",
        &[
            MAKE,
            (
                RUN,
                OFF_GRID,
                "STORED 1\nREFUSED 10 26\n",
                Status::Refused(10, 26),
            ),
        ],
    ),
    (
        "a text that has not ended",
        &[
            MAKE,
            (RUN, UNFINISHED, "REFUSED 5 28\n", Status::Refused(5, 28)),
            STORE,
        ],
    ),
    (
        "a text that a DISABLE ends",
        &[
            MAKE,
            (RUN, DISABLED, "STORED 1\n", Status::Ok),
            (RUN, NEXT_POINT, "STORED 2\n", Status::Ok),
        ],
    ),
    (
        "the greatest settings",
        &[
            (
                &[
                    "new",
                    "18446744073709551615",
                    "262144",
                    "1024",
                    "1",
                    "1",
                    "1",
                    "1",
                ],
                "",
                "",
                Status::Ok,
            ),
            STORE,
        ],
    ),
];

#[test]
fn each_command_ends_as_it_should(rt: HostRuntime) -> Result<(), Fail> {
    for (title, steps) in &SEQUENCES {
        assert_eq!(rt; first_wrong(rt.alloc(), steps)?, None, "{title}");
    }
    Ok(())
}

/// Words of a command line that are in no form.
static NO_FORMS: [&[&str]; 12] = [
    &["run", "extra"],
    &["run", ""],
    &["new"],
    &["new", "x"],
    &["new", ""],
    &["new", "07"],
    &["new", "+7"],
    &["new", "18446744073709551616"],
    &["new", "7", "0", "1", "1", "1", "1", "1"],
    &["new", "7", "262145", "1", "1", "1", "1", "1"],
    &["new", "7", "1", "1025", "1", "1", "1", "1"],
    &["new", "7", "1", "1", "1", "1", "1"],
];

/// How the words end, whether bytes of the input were taken or something was told, and how `new` ends after them
/// where the host's first call fails.
fn before_new(alloc: Global, words: &[&str]) -> Result<(Status, bool, Status), Fail> {
    let mut host = host_of(alloc, &[0])?;
    let end = run_over(alloc, &mut host, words, ONE_POINT.as_bytes(), &[])?;
    let (new, _) = step(alloc, &mut host, &MAKE)?;
    Ok((end.status, end.has_taken || !end.told.is_empty(), new))
}

#[test]
fn words_in_no_form_make_no_call(rt: HostRuntime) -> Result<(), Fail> {
    for words in &NO_FORMS {
        let seen = before_new(rt.alloc(), words)?;
        assert_eq!(rt;
            seen,
            (Status::Usage, false, Status::DiskFault),
            "at {words:?}"
        );
    }
    Ok(())
}

/// How a run ends whose source fails at its second call, and whether it tells of its beat.
fn torn_run(alloc: Global, host: &mut MemoryHost) -> Result<(Status, bool), Fail> {
    let end = run_over(alloc, host, RUN, ONE_POINT.as_bytes(), &[1])?;
    Ok((end.status, end.told.as_str() == "STORED 1\n"))
}

#[test]
fn a_source_that_fails_behind_a_beat(rt: HostRuntime) -> Result<(), Fail> {
    let mut host = host_of(rt.alloc(), &[])?;
    assert_eq!(rt; step(rt.alloc(), &mut host, &MAKE)?, (Status::Ok, true));
    assert_eq!(rt; torn_run(rt.alloc(), &mut host)?, (Status::ReadFault, true));
    let next = (RUN, NEXT_POINT, "STORED 2\n", Status::Ok);
    assert_eq!(rt; step(rt.alloc(), &mut host, &next)?, (Status::Ok, true));
    Ok(())
}

/// A database whose segments have two points, or one record: the beat behind the moment 60 makes a checkpoint first, with
/// an extent of points and one of minutes.
const MAKE_SMALL: Step = (
    &["new", "7", "2", "1", "1", "1", "1", "1"],
    "",
    "",
    Status::Ok,
);

/// More calls than the commands make of their host.
const CALLS: u64 = 200;

/// The text of four beats.
const FOUR: &str =
    "CHART t.c n t u\nDIMENSION a\nBEGIN t.c\nSET a = 1\nEND\nMOMENT 30\nBEGIN t.c\nSET a = 2\nEND\nMOMENT 60\nBEGIN t.c\nSET a = 3\nEND\nMOMENT 61\nBEGIN t.c\nSET a = 4\nEND\nMOMENT 62\n";

/// The same beats, each as a text of its own, and one more.
static BEATS: [Step; 5] = [
    (
        RUN,
        "CHART t.c n t u\nDIMENSION a\nBEGIN t.c\nSET a = 1\nEND\nMOMENT 30\n",
        "STORED 1\n",
        Status::Ok,
    ),
    (
        RUN,
        "CHART t.c n t u\nDIMENSION a\nBEGIN t.c\nSET a = 2\nEND\nMOMENT 60\n",
        "STORED 2\n",
        Status::Ok,
    ),
    (
        RUN,
        "CHART t.c n t u\nDIMENSION a\nBEGIN t.c\nSET a = 3\nEND\nMOMENT 61\n",
        "STORED 3\n",
        Status::Ok,
    ),
    (
        RUN,
        "CHART t.c n t u\nDIMENSION a\nBEGIN t.c\nSET a = 4\nEND\nMOMENT 62\n",
        "STORED 4\n",
        Status::Ok,
    ),
    (
        RUN,
        "CHART t.c n t u\nDIMENSION a\nBEGIN t.c\nSET a = 5\nEND\nMOMENT 63\n",
        "STORED 5\n",
        Status::Ok,
    ),
];

/// How many beats this tells of as stored.
fn stored_count(told: &str) -> Option<u64> {
    match told {
        "" => Some(0),
        "STORED 1\n" => Some(1),
        "STORED 1\nSTORED 2\n" => Some(2),
        "STORED 1\nSTORED 2\nSTORED 3\n" => Some(3),
        "STORED 1\nSTORED 2\nSTORED 3\nSTORED 4\n" => Some(4),
        _ => None,
    }
}

/// Stores the four beats, and says how it ended and how many it told of.
fn store_four(alloc: Global, host: &mut MemoryHost) -> Result<(Status, Option<u64>), Fail> {
    let end = run_over(alloc, host, RUN, FOUR.as_bytes(), &[])?;
    Ok((end.status, stored_count(end.told.as_str())))
}

/// Stores those of the five beats that are not there, each behind those before it, and says how many were there.
fn store_rest(alloc: Global, host: &mut MemoryHost) -> Result<Option<u64>, Fail> {
    let mut count = 0u64;
    for beat in &BEATS {
        match step(alloc, host, beat)? {
            (Status::Refused(6, 27), _) => count = count.saturating_add(1),
            (Status::Ok, true) => {}
            _ => return Ok(None),
        }
    }
    Ok(Some(count))
}

/// What was found after a call was refused and the host crashed.
#[derive(Clone, Copy, Debug, PartialEq, Eq)]
struct Found {
    /// How `new` and the run of the four beats ended, and how many beats were told of.
    new: Status,
    run: Status,
    told: Option<u64>,
    /// How a run without beats ended after the crash, and how many beats were there.
    opened: Status,
    count: Option<u64>,
}

/// Makes the database and stores the four beats. What is found after a crash is left open.
fn before_crash(alloc: Global, host: &mut MemoryHost) -> Result<Found, Fail> {
    let (new, _) = step(alloc, host, &MAKE_SMALL)?;
    let (run, told) = store_four(alloc, host)?;
    Ok(Found {
        new,
        run,
        told,
        opened: Status::Ok,
        count: None,
    })
}

/// Adds what is found after a crash.
fn after_crash(alloc: Global, host: &mut MemoryHost, found: Found) -> Result<Found, Fail> {
    let (opened, _) = step(alloc, host, &(RUN, "", "", Status::Ok))?;
    let count = store_rest(alloc, host)?;
    Ok(Found {
        opened,
        count,
        ..found
    })
}

fn found_after(alloc: Global, fails: u64, keep: Keep) -> Result<Found, Fail> {
    let mut host = host_of(alloc, &[fails])?;
    let found = before_crash(alloc, &mut host)?;
    let mut host = host.stop(keep)?;
    after_crash(alloc, &mut host, found)
}

/// Whether the commands before the crash ended as they may.
fn is_ending(new: Status, run: Status) -> bool {
    match (new, run) {
        (Status::Ok, Status::Ok | Status::DiskFault | Status::TellFault) => true,
        (Status::DiskFault, Status::Ok | Status::NotADatabase) => true,
        _ => false,
    }
}

impl Found {
    /// No beat that was told of is missing, and at most one is there that was not.
    fn is_sound(&self) -> bool {
        if !is_ending(self.new, self.run) {
            return false;
        }
        match (self.opened, self.told, self.count) {
            (Status::Ok, Some(told), Some(count)) => count >= told && count - told <= 1,
            (Status::NotADatabase, Some(0), None) => self.new == Status::DiskFault,
            _ => false,
        }
    }
}

/// The first of the calls whose refusal and a crash lose a beat, and what was found.
fn first_unsound(alloc: Global, keep: Keep) -> Result<Option<(u64, Found)>, Fail> {
    for fails in 0..CALLS {
        let found = found_after(alloc, fails, keep)?;
        if !found.is_sound() {
            return Ok(Some((fails, found)));
        }
    }
    Ok(None)
}

#[test]
fn a_crash_that_keeps_all(rt: HostRuntime) -> Result<(), Fail> {
    assert_eq!(rt; first_unsound(rt.alloc(), Keep::All)?, None);
    Ok(())
}

#[test]
fn a_crash_that_keeps_none(rt: HostRuntime) -> Result<(), Fail> {
    assert_eq!(rt; first_unsound(rt.alloc(), Keep::None)?, None);
    Ok(())
}

#[test]
fn a_crash_that_fills(rt: HostRuntime) -> Result<(), Fail> {
    assert_eq!(rt; first_unsound(rt.alloc(), Keep::Fill(255))?, None);
    Ok(())
}

/// How `new` and the run of the four beats end where this call is refused.
fn ending_at(alloc: Global, fails: u64) -> Result<(Status, Status), Fail> {
    let mut host = host_of(alloc, &[fails])?;
    let found = before_crash(alloc, &mut host)?;
    Ok((found.new, found.run))
}

/// At how many of the calls a telling, the storing and the making of the database fail.
fn fault_counts(alloc: Global) -> Result<(u64, u64, u64), Fail> {
    let (mut told, mut stored, mut made) = (0u64, 0u64, 0u64);
    for fails in 0..CALLS {
        match ending_at(alloc, fails)? {
            (Status::Ok, Status::TellFault) => told = told.saturating_add(1),
            (Status::Ok, Status::DiskFault) => stored = stored.saturating_add(1),
            (Status::DiskFault, _) => made = made.saturating_add(1),
            _ => {}
        }
    }
    Ok((told, stored, made))
}

/// Each of the four tellings fails once. A database and each beat want a write and a sync at least.
#[test]
fn each_kind_of_fault_is_met(rt: HostRuntime) -> Result<(), Fail> {
    let (told, stored, made) = fault_counts(rt.alloc())?;
    assert_eq!(rt; told, 4);
    assert!(rt; stored >= 8, "{stored} calls");
    assert!(rt; made >= 2, "{made} calls");
    Ok(())
}

#[test]
fn so_many_calls_are_not_made(rt: HostRuntime) -> Result<(), Fail> {
    let whole = Found {
        new: Status::Ok,
        run: Status::Ok,
        told: Some(4),
        opened: Status::Ok,
        count: Some(4),
    };
    assert_eq!(rt; found_after(rt.alloc(), CALLS - 1, Keep::None)?, whole);
    Ok(())
}

/// The next of a row of numbers without order.
fn next_number(number: u64) -> u64 {
    number
        .wrapping_mul(6_364_136_223_846_793_005)
        .wrapping_add(1_442_695_040_888_963_407)
}

/// Lines that are refused where no block is open, and the numbers of their refusals.
static REFUSED: [(&str, u32); 3] = [
    ("BEGIN t.none\n", 21),
    ("SET a = 1\n", 23),
    ("QUERY 't.c\n", 13),
];

/// The text of 2,000 beats, of which so many stand in front of a line.
fn long_text(alloc: Global, count: u64, line: &str) -> Result<String, AllocError> {
    let mut text = String::from_str(alloc, "CHART t.c n t u\nDIMENSION a\n")?;
    let mut number = count;
    let mut moment = 0u64;
    for beat in 0..2_000u64 {
        if beat == count {
            text.push_str(line)?;
        }
        number = next_number(number);
        moment = moment.saturating_add((number >> 33) % 5).saturating_add(1);
        let value = number >> 40;
        writeln!(text, "BEGIN t.c\nSET a = {value}\nEND\nMOMENT {moment}")?;
    }
    Ok(text)
}

/// What is told of it.
fn long_told(alloc: Global, count: u64, refusal: u32) -> Result<String, AllocError> {
    let mut told = String::new(alloc);
    for beat in 0..count {
        let number = beat.saturating_add(1);
        writeln!(told, "STORED {number}")?;
    }
    let line = count.saturating_mul(4).saturating_add(3);
    writeln!(told, "REFUSED {line} {refusal}")?;
    Ok(told)
}

/// How the run of such a text ends.
fn long_end(alloc: Global, host: &mut MemoryHost, count: u64, line: &str) -> Result<Ending, Fail> {
    let text = long_text(alloc, count, line)?;
    run_over(alloc, host, RUN, text.as_bytes(), &[])
}

/// How the run of such a text ends, and whether it tells what it should.
fn long_run(
    alloc: Global,
    host: &mut MemoryHost,
    count: u64,
    row: (&str, u32),
) -> Result<(Status, bool), Fail> {
    let end = long_end(alloc, host, count, row.0)?;
    let told = long_told(alloc, count, row.1)?;
    Ok((end.status, end.told.as_str() == told.as_str()))
}

/// The same over a new database.
fn long_case(alloc: Global, count: u64, row: (&str, u32)) -> Result<(Status, bool), Fail> {
    let mut host = host_of(alloc, &[])?;
    step(alloc, &mut host, &MAKE)?;
    long_run(alloc, &mut host, count, row)
}

#[test]
fn the_beats_before_a_refusal_are_stored(rt: HostRuntime) -> Result<(), Fail> {
    let mut number = 7u64;
    for row in &REFUSED {
        number = next_number(number);
        let count = (number >> 33) % 2_000;
        let line = count.saturating_mul(4).saturating_add(3);
        let seen = long_case(rt.alloc(), count, *row)?;
        assert_eq!(rt; seen, (Status::Refused(line, row.1), true), "{count} beats");
    }
    Ok(())
}
