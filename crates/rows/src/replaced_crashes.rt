//! What a crash leaves of a second configuration, which takes an alarm away, with each call on the host refused in
//! turn: the alarm and its log as they were, or the alarm gone and its event in the log.

use crate::run::{Ending, host_of, run_over};
use crate::steps::{MAKE, RUN};
use host_model::{Keep, MemoryHost, Status};
use std::alloc::Global;
use std::test::Fail;

const HEALTH: &[&str] = &["health"];

/// An alarm that is raised above 85.
const HIGH: &str = "alarm: high\non: test.one\ncalc: $a\nevery: 1s\nwarn: $this > 85\n";

const RAISED: &str = "CHART test.one '' 'One' 'units'\nDIMENSION a\n\
    BEGIN test.one\nSET a = 86\nEND\nMOMENT 1\n";

const CLEARED: &str = "CHART test.one '' 'One' 'units'\nDIMENSION a\n\
    BEGIN test.one\nSET a = 80\nEND\nMOMENT 2\n";

/// What the second configuration tells.
const TOLD: &str = "STORED 3\nEVENT 2 1 test.one high WARNING REMOVED nan -\n";

/// The log and what the beat at 2 tells, where the alarm is there still.
const STAYED: (&str, &str) = (
    "DROPPED 0\nEVENT 1 1 test.one high UNINITIALIZED WARNING 86 1\n",
    "STORED 3\nEVENT 2 2 test.one high WARNING CLEAR 80 2\n",
);

/// The same where it is gone.
const GONE: (&str, &str) = (
    "DROPPED 0\nEVENT 1 1 test.one high UNINITIALIZED WARNING 86 1\n\
    EVENT 2 1 test.one high WARNING REMOVED nan -\n",
    "STORED 4\n",
);

/// More calls on the host than both configurations and the beat between them make.
const CALLS: u64 = 90;

/// What the second configuration told, if no call of a command before it was refused.
fn replaced(alloc: Global, host: &mut MemoryHost) -> Result<Option<Ending>, Fail> {
    let new = run_over(alloc, host, MAKE.0, b"", &[])?;
    let health = run_over(alloc, host, HEALTH, HIGH.as_bytes(), &[])?;
    let run = run_over(alloc, host, RUN, RAISED.as_bytes(), &[])?;
    if (new.status, health.status, run.status) != (Status::Ok, Status::Ok, Status::Ok) {
        return Ok(None);
    }
    Ok(Some(run_over(alloc, host, HEALTH, b"", &[])?))
}

/// Whether the log and the next beat are those of an alarm that stayed, and of one that is gone.
fn left(alloc: Global, host: &mut MemoryHost) -> Result<(bool, bool), Fail> {
    let log = run_over(alloc, host, &["log", "text"], b"", &[])?;
    let run = run_over(alloc, host, RUN, CLEARED.as_bytes(), &[])?;
    let seen = (log.told.as_str(), run.told.as_str());
    Ok((seen == STAYED, seen == GONE))
}

/// How the second configuration ended, and whether what a crash left fits to what it told.
fn seen_at(alloc: Global, fails: u64, keep: Keep) -> Result<Option<(Status, bool)>, Fail> {
    let mut host = host_of(alloc, &[fails])?;
    let Some(health) = replaced(alloc, &mut host)? else {
        return Ok(None);
    };
    let mut host = host.stop(keep)?;
    let (stayed, is_gone) = left(alloc, &mut host)?;
    let is_sound = match health.told.as_str() {
        "" => health.status != Status::Ok && (stayed || is_gone),
        told => told == TOLD && health.status == Status::Ok && is_gone,
    };
    Ok(Some((health.status, is_sound)))
}

/// At how many calls the second configuration ends well, with a fault of the disk and with one of the telling. None
/// where a crash leaves what it may not.
fn ends(alloc: Global, keep: Keep) -> Result<Option<(u64, u64, u64)>, Fail> {
    let (mut well, mut disk, mut told) = (0u64, 0u64, 0u64);
    for fails in 0..CALLS {
        match seen_at(alloc, fails, keep)? {
            None => {}
            Some((Status::Ok, true)) => well = well.saturating_add(1),
            Some((Status::DiskFault, true)) => disk = disk.saturating_add(1),
            Some((Status::TellFault, true)) => told = told.saturating_add(1),
            Some(_) => return Ok(None),
        }
    }
    Ok(Some((well, disk, told)))
}

/// Its one telling fails once, and it wants a write and a sync at least.
#[test]
fn an_alarm_is_there_or_gone(rt: HostRuntime) -> Result<(), Fail> {
    for keep in [Keep::All, Keep::None, Keep::Fill(255)] {
        let seen = ends(rt.alloc(), keep)?;
        assert!(rt; matches!(seen, Some((1.., 2.., 1))), "{keep:?}: {seen:?}");
    }
    Ok(())
}
