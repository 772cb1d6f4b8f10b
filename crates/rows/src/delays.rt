//! Until when whoever tells of an alarm is to wait, over hosts that live through several commands.

use crate::steps::{MAKE, RUN, Step, first_wrong};
use host_model::Status;
use std::test::Fail;

const HEALTH: &[&str] = &["health"];

/// An alarm that is raised above 85 and cleared at 75 or below, and whose changes wait.
const HIGH: &str = "alarm: high\non: test.one\ncalc: $a\nevery: 1s\n\
    warn: $this > (($status >= $WARNING) ? (75) : (85))\n\
    delay: up 10s down 60s multiplier 1.5 max 5m\n";

/// Another text, which says the same of it.
const SAME: &str = "# High.\nclass: Load\nalarm: high\nwarn: $this>(($status>=$WARNING)?75:85)\n\
    delay: max 300 multiplier 1.50 down 1m up 10\nevery: 1\ncalc: ($a)\non: test.one\n";

/// The beats of the table in docs/HEALTH.md, in three parts.
const TO_105: &str = "CHART test.one '' 'One' 'units'\nDIMENSION a\n\
    BEGIN test.one\nSET a = 80\nEND\nMOMENT 95\nBEGIN test.one\nSET a = 86\nEND\nMOMENT 100\n\
    BEGIN test.one\nSET a = 80\nEND\nMOMENT 102\nBEGIN test.one\nSET a = 70\nEND\nMOMENT 105\n";

const AT_110: &str = "CHART test.one '' 'One' 'units'\nDIMENSION a\n\
    BEGIN test.one\nSET a = 90\nEND\nMOMENT 110\n";

const AT_140: &str = "CHART test.one '' 'One' 'units'\nDIMENSION a\n\
    BEGIN test.one\nSET a = 60\nEND\nMOMENT 140\n";

/// Raised at 100, cleared at 105 within the wait and raised at 110 within the next one: 10 seconds, then 1.5 times
/// 60, then 1.5 times 15 without its half.
const TOLD_TO_105: &str = "STORED 2\nEVENT 1 95 test.one high UNINITIALIZED CLEAR 80 -\n\
    STORED 3\nEVENT 2 100 test.one high CLEAR WARNING 86 110\nSTORED 4\n\
    STORED 5\nEVENT 3 105 test.one high WARNING CLEAR 70 195\n";

const LOG: &str = "DROPPED 0\nEVENT 1 95 test.one high UNINITIALIZED CLEAR 80 -\n\
    EVENT 2 100 test.one high CLEAR WARNING 86 110\n\
    EVENT 3 105 test.one high WARNING CLEAR 70 195\n\
    EVENT 4 110 test.one high CLEAR WARNING 90 132\n\
    EVENT 5 140 test.one high WARNING CLEAR 60 200\n\
    EVENT 6 140 test.one high CLEAR REMOVED nan -\n";

/// Commands over one host each.
static SEQUENCES: [(&str, &[Step]); 2] = [
    (
        "a delay lives through commands",
        &[
            MAKE,
            (HEALTH, HIGH, "STORED 1\n", Status::Ok),
            (RUN, TO_105, TOLD_TO_105, Status::Ok),
            (
                RUN,
                AT_110,
                "STORED 6\nEVENT 4 110 test.one high CLEAR WARNING 90 132\n",
                Status::Ok,
            ),
            (
                RUN,
                AT_140,
                "STORED 7\nEVENT 5 140 test.one high WARNING CLEAR 60 200\n",
                Status::Ok,
            ),
            (
                HEALTH,
                "",
                "STORED 8\nEVENT 6 140 test.one high CLEAR REMOVED nan -\n",
                Status::Ok,
            ),
            (&["log", "text"], "", LOG, Status::Ok),
        ],
    ),
    (
        "a delay lives through a configuration that says the same",
        &[
            MAKE,
            (HEALTH, HIGH, "STORED 1\n", Status::Ok),
            (RUN, TO_105, TOLD_TO_105, Status::Ok),
            (HEALTH, SAME, "STORED 6\n", Status::Ok),
            (
                RUN,
                AT_110,
                "STORED 7\nEVENT 4 110 test.one high CLEAR WARNING 90 132\n",
                Status::Ok,
            ),
        ],
    ),
];

#[test]
fn changes_wait(rt: HostRuntime) -> Result<(), Fail> {
    for (title, steps) in &SEQUENCES {
        assert_eq!(rt; first_wrong(rt.alloc(), steps)?, None, "{title}");
    }
    Ok(())
}
