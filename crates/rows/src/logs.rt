//! What `log` tells, over hosts that live through several commands.

use crate::steps::{MAKE, STORE, Step, first_wrong};
use host_model::Status;
use std::test::Fail;

const TEXT: &[&str] = &["log", "text"];

const JSON: &[&str] = &["log", "json"];

/// Commands over one host each.
static SEQUENCES: [(&str, &[Step]); 3] = [
    (
        "no database",
        &[
            (TEXT, "", "", Status::NotADatabase),
            (JSON, "", "", Status::NotADatabase),
        ],
    ),
    (
        "a history without alarms",
        &[
            MAKE,
            (TEXT, "", "DROPPED 0\n", Status::Ok),
            (JSON, "", "{\"dropped\":0,\"events\":[]}\n", Status::Ok),
            STORE,
            (TEXT, "", "DROPPED 0\n", Status::Ok),
        ],
    ),
    (
        "words in no form",
        &[
            (&["log"], "", "", Status::Usage),
            (&["log", "xml"], "", "", Status::Usage),
            (&["log", "Text"], "", "", Status::Usage),
            (&["log", "text", "json"], "", "", Status::Usage),
            (&["log", "-text"], "", "", Status::Usage),
        ],
    ),
];

#[test]
fn the_log_is_told(rt: HostRuntime) -> Result<(), Fail> {
    for (title, steps) in &SEQUENCES {
        assert_eq!(rt; first_wrong(rt.alloc(), steps)?, None, "{title}");
    }
    Ok(())
}
