use super::shown;
use fixed_num::{ByteList, Text};
use health_config::Config;
use std::alloc::{AllocError, Global};
use std::test::Fail;

/// A text, and what it says.
const TEXTS: [(&[u8], &str); 34] = [
    // Rows.
    (b"warn: 1", "1"),
    (b"alarm:", "refused 1 42"),
    (b"alarm: x", "refused 1 43"),
    (b"alarm: x\non: a.b\nwarn: 1 +", "refused 3 41"),
    (b"alarm: x\non: a.b\ndelay: up 1m up 2m\n", "refused 3 41"),
    // Lines.
    (b"", "0"),
    (b"\n \t\r\n  # said\n", "0"),
    (b"units: a\nclass: b\n: c\n", "3"),
    (b"units: a\nclass\n", "refused 2 41"),
    (
        b"calc: 1 +\nalarm: a\non: x\nevery: 1\n",
        "a on x every 1; 1",
    ),
    (
        b"alarm: a\non: \\\nx\\\n y\nevery: 1\n\nwarn: (\n",
        "refused 7 41",
    ),
    (
        b"alarm: a\non: \\\nx\\\n y\nevery: 1",
        "a on x  y every 1; 0",
    ),
    (b"alarm: a\non: x\\", "0"),
    (
        b"alarm: a\non: x\nevery: 1\nunits: b\\\\\nc\n",
        "a on x every 1 units b\\ c; 0",
    ),
    (b"# a \\\nalarm:\n", "0"),
    (b"alarm: a\n# \xff\non: x\n", "refused 2 41"),
    (b"class: \\\n\xff\n", "refused 1 41"),
    (b"alarm: a\r\non: x\r\nevery: 1\r\n", "a on x every 1; 0"),
    // Names.
    (b"alarm: a b\n", "refused 1 41"),
    (b"template:\x0b\x0c\n", "refused 1 42"),
    (
        b"template: t\non: x\nevery: 1",
        "t template on x every 1; 0",
    ),
    (b"alarms: t\non: x\nevery: 1", "3"),
    // Repeated keys.
    (
        b"alarm: a\non: x\non: y\nevery: 1\nevery: 2\n",
        "a on y every 2; 0",
    ),
    (
        b"alarm: a\non: x\nevery: 1\ndelay: up 5\ndelay: down 6\n",
        "a on x every 1 up 0 down 6 by 10000000; 0",
    ),
    (
        b"alarm: a\non: x\nevery: 1\noptions: no-clear-notification\noptions:",
        "a on x every 1; 0",
    ),
    (b"alarm: a\non: x\nevery: 0\nevery: 1\n", "refused 3 44"),
    // How often.
    (
        b"alarm: a\non: x\nlookup: max 9 every 7\n",
        "a on x every 7 max 9 0; 0",
    ),
    (
        b"alarm: a\non: x\nlookup: max 9\n",
        "a on x every 9 max 9 0; 0",
    ),
    (
        b"alarm: a\non: x\nlookup: max 9 every 7\nevery: 8",
        "a on x every 8 max 9 0; 0",
    ),
    (
        b"alarm: a\non: x\nwarn: 1\nclass: c\nalarm: b\non: y\nevery: 1\n",
        "b on y every 1; 1",
    ),
    // Where an entity ends.
    (b"alarm: a\nevery: 1\n\nalarm:\n", "refused 1 43"),
    (b"\nalarm: a\nevery: 1\ntemplate: \xff\n", "refused 2 43"),
    (b"alarm: a\nevery: 0\nalarm: b\n", "refused 2 44"),
    (
        b"alarm: a\non: x\nevery: 3\ntemplate: b\non: y\nevery: 4\n",
        "a on x every 3; b template on y every 4; 0",
    ),
];

#[test]
fn a_text_gives_its_alarms_or_its_first_refusal(rt: HostRuntime) -> Result<(), Fail> {
    for (text, want) in TEXTS {
        let got = shown(rt.alloc(), text)?;
        assert_eq!(rt; got.as_str(), want, "{text:?}");
    }
    Ok(())
}

/// An alarm on the space of disks, as it stands in the configurations of operators.
const DISK_SPACE: &[u8] = b"template: disk_space_usage
on: disk.space
class: Utilization
type: System
component: Disk
calc: $used * 100 / ($avail + $used)
units: %
every: 1m
warn: $this > (($status >= $WARNING ) ? (80) : (90))
crit: ($this > (($status == $CRITICAL) ? (90) : (98))) && $avail < 5
delay: up 1m down 15m multiplier 1.5 max 1h
to: sysadmin
";

#[test]
fn the_space_of_disks_is_accepted(rt: HostRuntime) -> Result<(), Fail> {
    let got = shown(rt.alloc(), DISK_SPACE)?;
    assert_eq!(rt;
        got.as_str(),
        "disk_space_usage template on disk.space every 60 calc warn crit units % to sysadmin up 60 down 900 by 15000000 max 3600; 3"
    );
    Ok(())
}

/// A text of 4,096 alarms that have nothing to do, with this behind it so many times.
fn long_text(alloc: Global, back: &[u8], count: u32) -> Result<ByteList, AllocError> {
    let mut text = ByteList::new(alloc);
    for _ in 0..4096 {
        text.extend(b"alarm: a\non: x\n".as_slice())?;
    }
    for _ in 0..count {
        text.extend(back)?;
    }
    Ok(text)
}

/// What a configuration of such a text is.
fn shown_long(alloc: Global, back: &[u8], count: u32) -> Result<Text, Fail> {
    let text = long_text(alloc, back, count)?;
    shown(alloc, text.as_slice())
}

#[test]
fn at_most_4096_entities_and_1048576_bytes_are_read(rt: HostRuntime) -> Result<(), Fail> {
    let text = long_text(rt.alloc(), b"", 0)?;
    assert!(rt;
        Config::read(rt.alloc(), text.as_slice())?
            .alarms()
            .is_empty()
    );
    let more = shown_long(rt.alloc(), b"alarm: a\n", 1)?;
    assert_eq!(rt; more.as_str(), "refused 8193 45");
    let long = shown_long(rt.alloc(), [b' '; 4096].as_slice(), 256)?;
    assert_eq!(rt; long.as_str(), "refused 0 46");
    Ok(())
}
