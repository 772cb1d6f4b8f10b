//! The tests of `alarm_events`: events, statuses and the log.

use alarm_events::{Event, EventLog, Status, read_alarms, write_event};
use fixed_num::Text;
use health_expr::Value;
use std::alloc::{AllocError, Global};
use std::test::Fail;

fn event(
    alloc: Global,
    statuses: (Status, Status),
    value: Value,
    due: Option<u32>,
) -> Result<Event, AllocError> {
    Ok(Event {
        id: 7,
        moment: 60,
        chart: Text::from_str(alloc, "test.one")?,
        alarm: Text::from_str(alloc, "high")?,
        old: statuses.0,
        new: statuses.1,
        value,
        due,
    })
}

/// Two statuses, a value, when the event is due, and its line.
type Row = (Status, Status, Value, Option<u32>, &'static str);

static LINES: [Row; 5] = [
    (
        Status::Uninitialized,
        Status::Clear,
        Value::Fixed(800_000_000),
        None,
        "EVENT 7 60 test.one high UNINITIALIZED CLEAR 80 -\n",
    ),
    (
        Status::Clear,
        Status::Warning,
        Value::Fixed(-5_000_000),
        Some(120),
        "EVENT 7 60 test.one high CLEAR WARNING -0.5 120\n",
    ),
    (
        Status::Warning,
        Status::Critical,
        Value::Inf(true),
        Some(4_294_967_295),
        "EVENT 7 60 test.one high WARNING CRITICAL -inf 4294967295\n",
    ),
    (
        Status::Critical,
        Status::Undefined,
        Value::Inf(false),
        None,
        "EVENT 7 60 test.one high CRITICAL UNDEFINED inf -\n",
    ),
    (
        Status::Undefined,
        Status::Removed,
        Value::Nan,
        None,
        "EVENT 7 60 test.one high UNDEFINED REMOVED nan -\n",
    ),
];

#[test]
fn events_are_lines(rt: HostRuntime) -> Result<(), Fail> {
    let alloc = rt.alloc();
    for (old, new, value, due, line) in &LINES {
        let event = event(alloc, (*old, *new), *value, *due)?;
        assert_eq!(rt; write_event(alloc, &event)?.as_str(), *line);
    }
    Ok(())
}

static NUMBERS: [(Status, u8); 6] = [
    (Status::Removed, 0),
    (Status::Undefined, 1),
    (Status::Uninitialized, 2),
    (Status::Clear, 3),
    (Status::Warning, 5),
    (Status::Critical, 6),
];

#[test]
fn statuses_have_numbers(rt: HostRuntime) {
    for (status, number) in &NUMBERS {
        assert_eq!(rt; status.number(), *number);
        assert_eq!(rt; Status::of(*number), Some(*status));
        assert_eq!(rt; status.is_raised(), *number > 3);
    }
    for number in 0..=255u8 {
        if !NUMBERS.iter().any(|row| row.1 == number) {
            assert_eq!(rt; Status::of(number), None, "{number}");
        }
    }
}

#[test]
fn the_log_shows_the_last_events(rt: HostRuntime) -> Result<(), Fail> {
    let alloc = rt.alloc();
    let mut log = EventLog::new(alloc)?;
    for n in 1..=1_003u32 {
        assert_eq!(rt; log.next_id(), u64::from(n));
        let next = event(alloc, (Status::Clear, Status::Warning), Value::Nan, None)?;
        log.note(next);
    }
    let shown = log.log()?;
    assert_eq!(rt; shown.dropped, 3);
    assert_eq!(rt; shown.events.len(), 1_000);
    let events = shown.events.as_slice();
    assert_eq!(rt; events.first().map(|event| event.id), Some(4));
    assert_eq!(rt; events.last().map(|event| event.id), Some(1_003));
    assert_eq!(rt; log.next_id(), 1_004);
    Ok(())
}

#[test]
fn no_alarms_have_twenty_bytes(rt: HostRuntime) -> Result<(), Fail> {
    let found = read_alarms(rt.alloc(), &[0; 20])?;
    assert_eq!(rt; found.states.len(), 0);
    assert_eq!(rt; found.events.len(), 0);
    Ok(())
}
