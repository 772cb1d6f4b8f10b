//! Which alarms a configuration and the charts say, and what is told where these change.

use crate::steps::{MAKE, RUN, Step, first_wrong};
use host_model::Status;
use std::test::Fail;

const HEALTH: &[&str] = &["health"];

const LOG: &[&str] = &["log", "text"];

/// How full the disks are. Three of the keys are skipped.
const SPACE: &str = "template: disk_space_usage\non: disk.space\nclass: Utilization\n\
    type: System\ncomponent: Disk\ncalc: $used * 100 / ($avail + $used)\nunits: %\nevery: 1m\n\
    warn: $this > (($status >= $WARNING ) ? (80) : (90))\n\
    crit: ($this > (($status == $CRITICAL) ? (90) : (98))) && $avail < 5\n\
    delay: up 1m down 15m multiplier 1.5 max 1h\nto: sysadmin\n";

const FULL_DISK: &str = "CHART disk.root '' \"Space\" GiB / disk.space\n\
    DIMENSION used\nDIMENSION avail\n\
    BEGIN disk.root\nSET used = 95\nSET avail = 5\nEND\nMOMENT 60\n";

/// Alarms at 10, at 20 and at 30.
const THREE: &str = "alarm: x\non: test.one\ncalc: $a\nevery: 1s\nwarn: $this > 10\n\
    alarm: y\non: test.one\ncalc: $a\nevery: 1s\nwarn: $this > 20\n\
    alarm: z\non: test.one\ncalc: $a\nevery: 1s\nwarn: $this > 30\n";

/// The first is gone, the second says the same, and the third stands before it and says something else.
const TWO: &str = "alarm: z\non: test.one\ncalc: $a\nevery: 1s\nwarn: $this > 30\ninfo: much\n\
    alarm: y\non: test.one\ncalc: ($a)\nevery: 1\nwarn: $this>20\n";

const AT_15: &str = "CHART test.one '' 'One' 'units'\nDIMENSION a\n\
    BEGIN test.one\nSET a = 15\nEND\nMOMENT 7\n";

const AT_35: &str = "CHART test.one '' 'One' 'units'\nDIMENSION a\n\
    BEGIN test.one\nSET a = 35\nEND\nMOMENT 8\n";

const THREE_TOLD: &str = "STORED 2\nEVENT 1 7 test.one x UNINITIALIZED WARNING 15 7\n\
    EVENT 2 7 test.one y UNINITIALIZED CLEAR 15 -\n\
    EVENT 3 7 test.one z UNINITIALIZED CLEAR 15 -\n";

/// What goes is told in the order that it had, at the last moment.
const TWO_TOLD: &str = "STORED 3\nEVENT 4 7 test.one x WARNING REMOVED nan -\n\
    EVENT 5 7 test.one z CLEAR REMOVED nan -\n";

/// What stays has its status still, and what is new begins.
const AT_35_TOLD: &str = "STORED 4\nEVENT 6 8 test.one z UNINITIALIZED WARNING 35 8\n\
    EVENT 7 8 test.one y CLEAR WARNING 35 8\n";

const THREE_LOG: &str = "DROPPED 0\nEVENT 1 7 test.one x UNINITIALIZED WARNING 15 7\n\
    EVENT 2 7 test.one y UNINITIALIZED CLEAR 15 -\n\
    EVENT 3 7 test.one z UNINITIALIZED CLEAR 15 -\n\
    EVENT 4 7 test.one x WARNING REMOVED nan -\nEVENT 5 7 test.one z CLEAR REMOVED nan -\n\
    EVENT 6 8 test.one z UNINITIALIZED WARNING 35 8\n\
    EVENT 7 8 test.one y CLEAR WARNING 35 8\n";

/// An alarm on a chart by its name, and one on the charts of a context.
const BY_NAME: &str = "alarm: full\non: disk.slash\ncalc: $a\nevery: 1s\nwarn: $this > 90\n\
    template: load\non: disks\ncalc: $a\nevery: 1s\nwarn: $this > 50\n";

/// A chart that loses its name, and then gets it back and loses its context. The last beat is empty.
const RENAMED: &str = "CHART disk.root slash T u f disks\nDIMENSION a\n\
    BEGIN disk.root\nSET a = 60\nEND\nMOMENT 1\n\
    CHART disk.root other T u f disks\nBEGIN disk.root\nSET a = 40\nEND\nMOMENT 2\n\
    CHART disk.root slash T u f none\nBEGIN disk.root\nSET a = 95\nEND\nMOMENT 3\nMOMENT 9\n";

/// A beat tells first of what goes, at its own moment.
const RENAMED_TOLD: &str = "STORED 2\nEVENT 1 1 disk.root full UNINITIALIZED CLEAR 60 -\n\
    EVENT 2 1 disk.root load UNINITIALIZED WARNING 60 1\n\
    STORED 3\nEVENT 3 2 disk.root full CLEAR REMOVED nan -\n\
    EVENT 4 2 disk.root load WARNING CLEAR 40 2\n\
    STORED 4\nEVENT 5 3 disk.root load CLEAR REMOVED nan -\n\
    EVENT 6 3 disk.root full UNINITIALIZED WARNING 95 3\nSTORED 5\n";

/// An alarm for all disks.
const LOAD: &str = "template: load\non: disks\ncalc: $a\nevery: 1s\nwarn: $this > 50\n";

/// The same, and one of its name for a single disk.
const ROOT_LOAD: &str = "template: load\non: disks\ncalc: $a\nevery: 1s\nwarn: $this > 50\n\
    alarm: load\non: disk.root\ncalc: $a\nevery: 1s\nwarn: $this > 90\n";

const TWO_DISKS: &str = "CHART disk.root '' T u f disks\nDIMENSION a\n\
    CHART disk.home '' T u f disks\nDIMENSION a\n\
    BEGIN disk.root\nSET a = 60\nEND\nBEGIN disk.home\nSET a = 70\nEND\nMOMENT 1\n";

const TWO_DISKS_TOLD: &str = "STORED 2\nEVENT 1 1 disk.root load UNINITIALIZED WARNING 60 1\n\
    EVENT 2 1 disk.home load UNINITIALIZED WARNING 70 1\n";

const TWO_DISKS_JSON: &str = "{\"dropped\":0,\"events\":[\
    {\"alarm\":\"load\",\"chart\":\"disk.root\",\"due\":1,\"id\":1,\"moment\":1,\
    \"new\":\"WARNING\",\"old\":\"UNINITIALIZED\",\"value\":\"60\"},\
    {\"alarm\":\"load\",\"chart\":\"disk.home\",\"due\":1,\"id\":2,\"moment\":1,\
    \"new\":\"WARNING\",\"old\":\"UNINITIALIZED\",\"value\":\"70\"},\
    {\"alarm\":\"load\",\"chart\":\"disk.root\",\"due\":null,\"id\":3,\"moment\":1,\
    \"new\":\"REMOVED\",\"old\":\"WARNING\",\"value\":\"nan\"},\
    {\"alarm\":\"load\",\"chart\":\"disk.root\",\"due\":null,\"id\":4,\"moment\":2,\
    \"new\":\"CLEAR\",\"old\":\"UNINITIALIZED\",\"value\":\"60\"}]}\n";

/// Commands over one host each.
static SEQUENCES: [(&str, &[Step]); 5] = [
    (
        "a disk that is nearly full",
        &[
            MAKE,
            (HEALTH, SPACE, "STORED 1\n", Status::Ok),
            (
                RUN,
                FULL_DISK,
                "STORED 2\nEVENT 1 60 disk.root disk_space_usage UNINITIALIZED WARNING 95 120\n",
                Status::Ok,
            ),
        ],
    ),
    (
        "of three alarms one goes, one stays and one begins again",
        &[
            MAKE,
            (HEALTH, THREE, "STORED 1\n", Status::Ok),
            (RUN, AT_15, THREE_TOLD, Status::Ok),
            (HEALTH, TWO, TWO_TOLD, Status::Ok),
            (RUN, AT_35, AT_35_TOLD, Status::Ok),
            (LOG, "", THREE_LOG, Status::Ok),
        ],
    ),
    (
        "a configuration before the first beat takes nothing away",
        &[
            MAKE,
            (HEALTH, THREE, "STORED 1\n", Status::Ok),
            (HEALTH, "", "STORED 2\n", Status::Ok),
            (RUN, AT_15, "STORED 3\n", Status::Ok),
            (LOG, "", "DROPPED 0\n", Status::Ok),
        ],
    ),
    (
        "a chart that is renamed",
        &[
            MAKE,
            (HEALTH, BY_NAME, "STORED 1\n", Status::Ok),
            (RUN, RENAMED, RENAMED_TOLD, Status::Ok),
            (
                HEALTH,
                "",
                "STORED 6\nEVENT 7 9 disk.root full WARNING REMOVED nan -\n",
                Status::Ok,
            ),
        ],
    ),
    (
        "an alarm in the place of a template",
        &[
            MAKE,
            (HEALTH, LOAD, "STORED 1\n", Status::Ok),
            (RUN, TWO_DISKS, TWO_DISKS_TOLD, Status::Ok),
            (
                HEALTH,
                ROOT_LOAD,
                "STORED 3\nEVENT 3 1 disk.root load WARNING REMOVED nan -\n",
                Status::Ok,
            ),
            (
                RUN,
                "MOMENT 2\n",
                "STORED 4\nEVENT 4 2 disk.root load UNINITIALIZED CLEAR 60 -\n",
                Status::Ok,
            ),
            (&["log", "json"], "", TWO_DISKS_JSON, Status::Ok),
        ],
    ),
];

#[test]
fn what_goes_is_told(rt: HostRuntime) -> Result<(), Fail> {
    for (title, steps) in &SEQUENCES {
        assert_eq!(rt; first_wrong(rt.alloc(), steps)?, None, "{title}");
    }
    Ok(())
}
