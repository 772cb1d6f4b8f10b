//! What `health`, `run` and `log` tell of alarms, over hosts that live through several commands.

use crate::run::{host_of, run_over};
use crate::steps::{MAKE, RUN, Step, first_wrong};
use host_model::Status;
use std::alloc::Global;
use std::test::Fail;

const HEALTH: &[&str] = &["health"];

/// An alarm that is raised above 85 and cleared at 75 or below.
const HIGH: &str =
    "alarm: high\non: test.one\ncalc: $a\nevery: 1s\nwarn: $this > (($status >= $WARNING) ? (75) : (85))\n";

const HIGH_BEATS: &str = "CHART test.one '' 'One' 'units'\nDIMENSION a\n\
    BEGIN test.one\nSET a = 80\nEND\nMOMENT 1\nBEGIN test.one\nSET a = 86\nEND\nMOMENT 2\n\
    BEGIN test.one\nSET a = 80\nEND\nMOMENT 3\nBEGIN test.one\nSET a = 74\nEND\nMOMENT 4\n";

const HIGH_TOLD: &str = "STORED 2\nEVENT 1 1 test.one high UNINITIALIZED CLEAR 80 -\n\
    STORED 3\nEVENT 2 2 test.one high CLEAR WARNING 86 2\nSTORED 4\n\
    STORED 5\nEVENT 3 4 test.one high WARNING CLEAR 74 4\n";

const HIGH_LOG: &str = "DROPPED 0\nEVENT 1 1 test.one high UNINITIALIZED CLEAR 80 -\n\
    EVENT 2 2 test.one high CLEAR WARNING 86 2\nEVENT 3 4 test.one high WARNING CLEAR 74 4\n";

const TWO_BEATS: &str = "CHART test.one '' 'One' 'units'\nDIMENSION a\n\
    BEGIN test.one\nSET a = 80\nEND\nMOMENT 1\nBEGIN test.one\nSET a = 86\nEND\nMOMENT 2\n";

const TWO_TOLD: &str = "STORED 2\nEVENT 1 1 test.one high UNINITIALIZED CLEAR 80 -\n\
    STORED 3\nEVENT 2 2 test.one high CLEAR WARNING 86 2\n";

const TWO_JSON: &str = "{\"dropped\":0,\"events\":[\
    {\"alarm\":\"high\",\"chart\":\"test.one\",\"due\":null,\"id\":1,\"moment\":1,\
    \"new\":\"CLEAR\",\"old\":\"UNINITIALIZED\",\"value\":\"80\"},\
    {\"alarm\":\"high\",\"chart\":\"test.one\",\"due\":2,\"id\":2,\"moment\":2,\
    \"new\":\"WARNING\",\"old\":\"CLEAR\",\"value\":\"86\"}]}\n";

/// An alarm whose value divides by zero.
const QUOTIENT: &str = "alarm: q\non: test.one\ncalc: $a / $b\nevery: 1s\n";

const QUOTIENT_BEATS: &str = "CHART test.one '' 'One' 'units'\nDIMENSION a\nDIMENSION b\n\
    BEGIN test.one\nSET a = 5\nSET b = 0\nEND\nMOMENT 1\n\
    BEGIN test.one\nSET a = 5\nSET b = 0\nEND\nMOMENT 2\n";

const QUOTIENT_TOLD: &str =
    "STORED 2\nEVENT 1 1 test.one q UNINITIALIZED UNDEFINED inf -\nSTORED 3\n";

/// Commands over one host each.
static SEQUENCES: [(&str, &[Step]); 5] = [
    ("no database", &[(HEALTH, HIGH, "", Status::NotADatabase)]),
    (
        "an alarm that is raised and cleared",
        &[
            (
                &["new", "7", "1", "1", "1", "1", "1", "1"],
                "",
                "",
                Status::Ok,
            ),
            (HEALTH, HIGH, "STORED 1\n", Status::Ok),
            (RUN, HIGH_BEATS, HIGH_TOLD, Status::Ok),
            (&["log", "text"], "", HIGH_LOG, Status::Ok),
            (
                HEALTH,
                "",
                "STORED 6\nEVENT 4 4 test.one high CLEAR REMOVED nan -\n",
                Status::Ok,
            ),
        ],
    ),
    (
        "the log as a line of JSON",
        &[
            MAKE,
            (HEALTH, HIGH, "STORED 1\n", Status::Ok),
            (RUN, TWO_BEATS, TWO_TOLD, Status::Ok),
            (&["log", "json"], "", TWO_JSON, Status::Ok),
        ],
    ),
    (
        "a value that is none",
        &[
            MAKE,
            (HEALTH, QUOTIENT, "STORED 1\n", Status::Ok),
            (RUN, QUOTIENT_BEATS, QUOTIENT_TOLD, Status::Ok),
        ],
    ),
    (
        "a text that is refused is not stored",
        &[
            MAKE,
            (
                HEALTH,
                "alarm: x\non: a.b\nwarn: 1 +\n",
                "REFUSED 3 41\n",
                Status::Refused(3, 41),
            ),
            (HEALTH, HIGH, "STORED 1\n", Status::Ok),
        ],
    ),
];

#[test]
fn alarms_are_told(rt: HostRuntime) -> Result<(), Fail> {
    for (title, steps) in &SEQUENCES {
        assert_eq!(rt; first_wrong(rt.alloc(), steps)?, None, "{title}");
    }
    Ok(())
}

/// How `health` ends over so many line feeds, and what it tells.
fn over_blanks(alloc: Global, count: usize) -> Result<(Status, String), Fail> {
    let mut host = host_of(alloc, &[])?;
    run_over(alloc, &mut host, MAKE.0, b"", &[])?;
    let text = vec![in alloc; b'\n'; count]?;
    let end = run_over(alloc, &mut host, HEALTH, &text, &[])?;
    Ok((end.status, end.told))
}

#[test]
fn a_text_has_at_most_so_many_bytes(rt: HostRuntime) -> Result<(), Fail> {
    let (status, told) = over_blanks(rt.alloc(), 1 << 20)?;
    assert_eq!(rt; (status, told.as_str()), (Status::Ok, "STORED 1\n"));
    let (status, told) = over_blanks(rt.alloc(), (1 << 20) + 1)?;
    assert_eq!(rt;
        (status, told.as_str()),
        (Status::Limit(0, 46), "LIMIT 0 46\n")
    );
    Ok(())
}
