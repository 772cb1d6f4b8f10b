//! Configurations, the beats behind them, and what these tell.

use crate::charts::two_charts;
use crate::points::{latest, source};
use alarm_core::{Alarms, Event, EventList, Latest, MOST_PAIRS, write_event};
use chart_registry::Registry;
use health_config::Config;
use query_engine::ListPoints;
use std::alloc::Global;
use std::test::Fail;

/// The moment of a beat, and the values of the first series.
type Beat = (u32, &'static [i32]);

/// A configuration, beats, and the events of all of them.
type Script = (&'static str, &'static [Beat], &'static str);

/// An alarm that is raised above 85 and cleared at 75 or below.
const HIGH: &str =
    "alarm: high\non: test.one\ncalc: $a\nevery: 1s\nwarn: $this > (($status >= $WARNING) ? (75) : (85))\n";

const HIGH_TOLD: &str = "EVENT 1 1 test.one high UNINITIALIZED CLEAR 80 -\n\
    EVENT 2 2 test.one high CLEAR WARNING 86 2\nEVENT 3 4 test.one high WARNING CLEAR 74 4\n";

/// An alarm whose value divides by zero.
const QUOTIENT: &str = "alarm: q\non: test.one\ncalc: $a / $b\nevery: 1s\n";

const QUOTIENT_TOLD: &str = "EVENT 1 1 test.one q UNINITIALIZED UNDEFINED inf -\n";

/// A template that is stepped once a minute.
const DISK: &str = "template: disk_space_usage\non: disk.space\nclass: Utilization\ntype: System\n\
    component: Disk\ncalc: $used * 100 / ($avail + $used)\nunits: %\nevery: 1m\n\
    warn: $this > (($status >= $WARNING ) ? (80) : (90))\n\
    crit: ($this > (($status == $CRITICAL) ? (90) : (98))) && $avail < 5\n\
    delay: up 1m down 15m multiplier 1.5 max 1h\nto: sysadmin\n";

const DISK_TOLD: &str = "EVENT 1 60 test.one disk_space_usage UNINITIALIZED WARNING 95 120\n\
    EVENT 2 120 test.one disk_space_usage WARNING CRITICAL 99 210\n\
    EVENT 3 180 test.one disk_space_usage CRITICAL WARNING 85 2205\n";

/// An alarm whose changes wait, the same which tells no change to clear, and one whose changes do not wait.
const DELAYED: &str = "alarm: d\non: test.one\ncalc: $a\nevery: 1s\nwarn: $this > 0\n\
    delay: up 10s down 60s multiplier 1.5 max 5m\n\
    alarm: s\non: test.one\ncalc: $a\nevery: 1s\nwarn: $this > 0\n\
    delay: up 10s down 60s multiplier 1.5 max 5m\noptions: no-clear-notification\n\
    alarm: z\non: test.one\ncalc: $a\nevery: 1s\nwarn: $this > 0\n";

const DELAYED_TOLD: &str = "EVENT 1 99 test.one d UNINITIALIZED CLEAR 0 -\n\
    EVENT 2 99 test.one s UNINITIALIZED CLEAR 0 -\nEVENT 3 99 test.one z UNINITIALIZED CLEAR 0 -\n\
    EVENT 4 100 test.one d CLEAR WARNING 1 110\nEVENT 5 100 test.one s CLEAR WARNING 1 110\n\
    EVENT 6 100 test.one z CLEAR WARNING 1 100\nEVENT 7 105 test.one d WARNING CLEAR 0 195\n\
    EVENT 8 105 test.one s WARNING CLEAR 0 -\nEVENT 9 105 test.one z WARNING CLEAR 0 105\n\
    EVENT 10 110 test.one d CLEAR WARNING 1 132\nEVENT 11 110 test.one s CLEAR WARNING 1 125\n\
    EVENT 12 110 test.one z CLEAR WARNING 1 110\n";

/// What names are worth: of statuses in five digits.
const NAMES: &str = "alarm: n1\non: test.one\nevery: 1s\n\
    calc: $CRITICAL * 10000 + $WARNING * 1000 + $CLEAR * 100 + $UNDEFINED * 10 + $REMOVED\n\
    alarm: n2\non: test.one\nevery: 1s\ncalc: $now + $update_every\n\
    alarm: n3\non: test.one\nevery: 1s\ncalc: $last_collected_t\n\
    alarm: n4\non: test.one\nevery: 1s\ngreen: 1.5\ncalc: $green\n\
    alarm: n5\non: test.one\nevery: 1s\ncalc: $red\n\
    alarm: n6\non: test.one\nevery: 1s\ncalc: $used + ${avail_raw}\n\
    alarm: n7\non: test.one\nevery: 1s\ncalc: $c\n";

const NAMES_TOLD: &str = "EVENT 1 60 test.one n1 UNINITIALIZED UNDEFINED 43088 -\n\
    EVENT 2 60 test.one n2 UNINITIALIZED UNDEFINED 65 -\n\
    EVENT 3 60 test.one n3 UNINITIALIZED UNDEFINED 60 -\n\
    EVENT 4 60 test.one n4 UNINITIALIZED UNDEFINED 1.5 -\n\
    EVENT 5 60 test.one n5 UNINITIALIZED UNDEFINED nan -\n\
    EVENT 6 60 test.one n6 UNINITIALIZED UNDEFINED 32 -\n\
    EVENT 7 60 test.one n7 UNINITIALIZED UNDEFINED nan -\n";

const LOOKUPS: &str = "alarm: l1\non: test.one\nlookup: average 5s of a\n\
    alarm: l2\non: test.one\nlookup: min 5s of a\nalarm: l3\non: test.one\nlookup: max 5s of a\n\
    alarm: l4\non: test.one\nlookup: sum 2s at 2s of a\n\
    alarm: l5\non: test.one\nlookup: count 5s of a\n\
    alarm: l6\non: test.one\nlookup: anomaly-rate 5s of a\n\
    alarm: l7\non: test.one\nlookup: sum 5s absolute of a\n\
    alarm: l8\non: test.one\nlookup: sum 5s\nalarm: l9\non: test.one\nlookup: sum 5s of *\n\
    alarm: l10\non: test.one\nlookup: sum 5s of !a,!used,*\n\
    alarm: l11\non: test.one\nlookup: max 5s min2max\n\
    alarm: l12\non: test.one\nlookup: average 5s percentage of all\n\
    alarm: l13\non: test.one\nlookup: sum 1s at 1s of a\n\
    alarm: l14\non: test.one\nlookup: sum 6s every 1s of a\n\
    alarm: l15\non: test.one\nlookup: sum 2s at 2s of a\ncalc: $this * 3\nwarn: $this > 29\n";

const LOOKUPS_TOLD: &str = "EVENT 1 5 test.one l1 UNINITIALIZED UNDEFINED 6 -\n\
    EVENT 2 5 test.one l2 UNINITIALIZED UNDEFINED -20 -\n\
    EVENT 3 5 test.one l3 UNINITIALIZED UNDEFINED 30 -\n\
    EVENT 4 5 test.one l4 UNINITIALIZED UNDEFINED 10 -\n\
    EVENT 5 5 test.one l5 UNINITIALIZED UNDEFINED 4 -\n\
    EVENT 6 5 test.one l6 UNINITIALIZED UNDEFINED 25 -\n\
    EVENT 7 5 test.one l7 UNINITIALIZED UNDEFINED 64 -\n\
    EVENT 8 5 test.one l8 UNINITIALIZED UNDEFINED 36 -\n\
    EVENT 9 5 test.one l9 UNINITIALIZED UNDEFINED 48 -\n\
    EVENT 10 5 test.one l10 UNINITIALIZED UNDEFINED 24 -\n\
    EVENT 11 5 test.one l11 UNINITIALIZED UNDEFINED 23 -\n\
    EVENT 12 5 test.one l12 UNINITIALIZED UNDEFINED 33.3333333 -\n\
    EVENT 13 5 test.one l13 UNINITIALIZED UNDEFINED nan -\n\
    EVENT 14 5 test.one l14 UNINITIALIZED UNDEFINED nan -\n\
    EVENT 15 5 test.one l15 UNINITIALIZED WARNING 30 5\n";

/// On a chart an alarm goes before a template of its name, and the first alarm before others.
const SHARED: &str = "template: load\non: sys.load\nevery: 1s\ncalc: 1\n\
    alarm: load\non: test.nice\nevery: 1s\ncalc: 2\nalarm: load\non: test.two\nevery: 1s\ncalc: 3\n\
    template: load\non: disk.space\nevery: 1s\ncalc: 4\n\
    template: other\non: sys.load\nevery: 1s\ncalc: 5\n";

const SHARED_TOLD: &str = "EVENT 1 1 test.two load UNINITIALIZED UNDEFINED 2 -\n\
    EVENT 2 1 test.one load UNINITIALIZED UNDEFINED 4 -\n\
    EVENT 3 1 test.two other UNINITIALIZED UNDEFINED 5 -\n";

static SCRIPTS: [Script; 7] = [
    (
        HIGH,
        &[(1, &[80]), (2, &[86]), (3, &[80]), (4, &[74])],
        HIGH_TOLD,
    ),
    (QUOTIENT, &[(1, &[5, 0]), (2, &[5, 0])], QUOTIENT_TOLD),
    (
        DISK,
        &[
            (60, &[95, 5]),
            (119, &[99, 1]),
            (120, &[99, 1]),
            (180, &[85, 15]),
        ],
        DISK_TOLD,
    ),
    (
        DELAYED,
        &[(99, &[0]), (100, &[1]), (105, &[0]), (110, &[1])],
        DELAYED_TOLD,
    ),
    (NAMES, &[(60, &[11, 22])], NAMES_TOLD),
    (LOOKUPS, &[(5, &[])], LOOKUPS_TOLD),
    (SHARED, &[(1, &[])], SHARED_TOLD),
];

/// Alarms of a configuration.
fn configured(alloc: Global, text: &str, registry: &Registry) -> Result<Alarms, Fail> {
    let mut alarms = Alarms::new(alloc)?;
    let config = Config::read(alloc, text.as_bytes())?;
    alarms.configure(config, registry, 0)?;
    Ok(alarms)
}

// Each call stands in a function of its own that promises nothing, so that a test's proof carries little.

fn stepped(
    alarms: &mut Alarms,
    moment: u32,
    registry: &Registry,
    latest: &Latest,
    points: &mut ListPoints,
) -> Result<EventList, Fail> {
    Ok(alarms.step(moment, registry, latest, points)?)
}

/// The alarms of what is kept of others.
fn again(alloc: Global, alarms: &Alarms, registry: &Registry) -> Result<Alarms, Fail> {
    let kept = alarms.keep()?;
    if kept.events.len() > 1_000 {
        return Err(Fail::from("more events are kept than a log shows"));
    }
    Ok(Alarms::from_kept(alloc, &kept, registry)?)
}

/// The lines of events.
fn lines(alloc: Global, events: &[Event]) -> Result<String, Fail> {
    let mut text = String::new(alloc);
    for event in events {
        text.push_str(write_event(alloc, event)?.as_str())?;
    }
    Ok(text)
}

/// Takes a beat behind one at a moment: the lines that it tells.
fn beaten(
    alloc: Global,
    alarms: &mut Alarms,
    registry: &Registry,
    before: u32,
    beat: &Beat,
) -> Result<String, Fail> {
    let (moment, values) = *beat;
    let latest = latest(alloc, before, moment, values)?;
    let mut points = source(alloc)?;
    let events = stepped(alarms, moment, registry, &latest, &mut points)?;
    lines(alloc, events.as_slice())
}

/// The lines of the log.
fn logged(alloc: Global, alarms: &Alarms) -> Result<String, Fail> {
    let log = alarms.log()?;
    lines(alloc, log.events.as_slice())
}

/// What beats tell, after each of which the alarms are those of what is kept of them; and the log behind them.
fn run(alloc: Global, text: &str, beats: &[Beat]) -> Result<(String, String), Fail> {
    let registry = two_charts(alloc)?;
    let mut alarms = configured(alloc, text, &registry)?;
    let mut told = String::new(alloc);
    let mut before = 0;
    for beat in beats {
        told.push_str(beaten(alloc, &mut alarms, &registry, before, beat)?.as_str())?;
        alarms = again(alloc, &alarms, &registry)?;
        before = beat.0;
    }
    let log = logged(alloc, &alarms)?;
    Ok((told, log))
}

#[test]
fn beats_tell_events_and_the_log_shows_them(rt: HostRuntime) -> Result<(), Fail> {
    for (text, beats, want) in &SCRIPTS {
        let (told, log) = run(rt.alloc(), text, beats)?;
        assert_eq!(rt; told.as_str(), *want);
        assert_eq!(rt; log.as_str(), *want);
    }
    Ok(())
}

/// The definitions name the constant: this says which number it is.
#[test]
fn so_many_alarms_are_computed(rt: HostRuntime) {
    assert_eq!(rt; MOST_PAIRS, 65_536);
}
