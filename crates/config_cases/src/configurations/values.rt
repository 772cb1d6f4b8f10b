use super::shown;
use fixed_num::Text;
use std::test::Fail;

/// A line of an entity, and what it makes of an alarm that is on x and is computed each minute.
const LINES: [(&str, &str); 58] = [
    // Texts.
    ("on: y z", "a on y z every 60; 0"),
    ("on:", "a every 60; 0"),
    ("units: %", "a on x every 60 units %; 0"),
    ("info:\ta: b ", "a on x every 60 info a: b; 0"),
    ("to: sysadmin", "a on x every 60 to sysadmin; 0"),
    ("class: Load", "a on x every 60; 1"),
    ("repeat: warning 10s", "a on x every 60; 1"),
    ("On: y", "a on x every 60; 1"),
    (": y", "a on x every 60; 1"),
    ("units", "refused 4 41"),
    ("# units", "a on x every 60; 0"),
    // Durations.
    ("every: 5", "a on x every 5; 0"),
    ("every: -5s", "a on x every 5; 0"),
    ("every: +2m", "a on x every 120; 0"),
    ("every: 24h", "a on x every 86400; 0"),
    ("every: 1d", "a on x every 86400; 0"),
    ("every: 86401", "refused 4 44"),
    ("every: 0", "refused 4 44"),
    ("every: 1.5m", "refused 4 44"),
    ("every: m", "refused 4 44"),
    ("every: 1 m", "refused 4 44"),
    ("every: --1", "refused 4 44"),
    ("every: 1M", "refused 4 44"),
    ("every: 99999999999999999999d", "refused 4 44"),
    ("every:", "refused 4 44"),
    // Numbers.
    ("green: -2.5", "a on x every 60 green -25000000; 0"),
    ("red: +7", "a on x every 60 red 70000000; 0"),
    ("green: 5.", "refused 4 41"),
    ("red: 0.12345678", "refused 4 41"),
    // Expressions.
    ("calc: $used * 2", "a on x every 60 calc; 0"),
    ("warn: $this > 1", "a on x every 60 warn; 0"),
    ("crit: nan", "a on x every 60 crit; 0"),
    ("calc:", "refused 4 41"),
    ("crit: 1 +", "refused 4 41"),
    // Delays.
    (
        "delay: down 15m up 1m max 1h multiplier 1.5",
        "a on x every 60 up 60 down 900 by 15000000 max 3600; 0",
    ),
    ("delay:", "a on x every 60; 0"),
    (
        "delay: up 30d",
        "a on x every 60 up 2592000 down 0 by 10000000; 0",
    ),
    ("delay: up 2592001", "refused 4 44"),
    ("delay: max down 1", "refused 4 44"),
    ("delay: up", "refused 4 41"),
    ("delay: up 1m up 2m", "refused 4 41"),
    (
        "delay: multiplier 1000",
        "a on x every 60 up 0 down 0 by 10000000000; 0",
    ),
    ("delay: multiplier 1000.1", "refused 4 41"),
    ("delay: multiplier 0.9999999", "refused 4 41"),
    ("delay: later 1m", "refused 4 41"),
    // Lookups.
    (
        "lookup: average -10m unaligned of user,system|!*",
        "a on x every 60 average 600 0 of user system !*; 0",
    ),
    (
        "lookup: sum 1h at -5m every 20 percentage absolute",
        "a on x every 60 sum 3600 300 absolute percentage; 0",
    ),
    (
        "lookup: min -1 min2max at 5 of",
        "a on x every 60 min 1 0 min2max of; 0",
    ),
    (
        "lookup: max 3 every 2 at 1 of at",
        "a on x every 60 max 3 0 of at; 0",
    ),
    (
        "lookup: count 3 of of absolute",
        "a on x every 60 count 3 0 of of absolute; 0",
    ),
    (
        "lookup: anomaly-rate 30d",
        "a on x every 60 anomaly-rate 2592000 0; 0",
    ),
    ("lookup: median 1m", "refused 4 41"),
    ("lookup: sum", "refused 4 44"),
    ("lookup: sum 0", "refused 4 44"),
    ("lookup: sum 1m at", "refused 4 44"),
    ("lookup: sum 1m every 0", "refused 4 44"),
    ("lookup: sum 1m unaligned foreach a", "refused 4 41"),
    (
        "options: quiet no-clear-notification",
        "a on x every 60 no-clear; 0",
    ),
];

#[test]
fn a_line_sets_what_its_key_says(rt: HostRuntime) -> Result<(), Fail> {
    for (line, want) in LINES {
        let mut text = Text::from_str(rt.alloc(), "alarm: a\non: x\nevery: 1m\n")?;
        text.push_str(line)?;
        let got = shown(rt.alloc(), text.as_bytes())?;
        assert_eq!(rt; got.as_str(), want, "{line}");
    }
    Ok(())
}
