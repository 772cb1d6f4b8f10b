//! What `convert` tells of whole texts, and how it ends.

mod table;

use crate::run::{Outside, run};
use host_model::Status;
use std::test::Fail;
use table::{READ, REFUSED};

#[test]
fn tells_the_points_of_a_text(rt: HostRuntime) -> Result<(), Fail> {
    for (title, text, told) in &READ {
        let end = run(rt.alloc(), &["convert"], Outside::sound(text.as_bytes()))?;
        assert_eq!(rt; end.status, Status::Ok, "{title}");
        assert_eq!(rt; end.told.as_str(), *told, "{title}");
    }
    Ok(())
}

#[test]
fn tells_why_a_text_is_refused(rt: HostRuntime) -> Result<(), Fail> {
    for (title, text, told, status) in &REFUSED {
        let end = run(rt.alloc(), &["convert"], Outside::sound(text.as_bytes()))?;
        assert_eq!(rt; end.status, *status, "{title}");
        assert_eq!(rt; end.told.as_str(), *told, "{title}");
    }
    Ok(())
}

/// A text that has one part many times: what goes before it, the part, how often, and what follows.
#[derive(Clone, Copy)]
struct Long {
    prefix: &'static str,
    part: &'static str,
    times: usize,
    end: &'static str,
    told: &'static str,
    status: Status,
}

/// A text up to its SET line, which has 10 bytes and no end yet.
const SET_LINE: &str = "CHART a.b n t u\nDIMENSION c\nBEGIN a.b\nSET c = 42";

static LONGS: [Long; 15] = [
    // A line may have 8,192 bytes.
    Long {
        prefix: "",
        part: "x",
        times: 8192,
        end: "\n",
        told: "SKIPPED 1\n",
        status: Status::Ok,
    },
    Long {
        prefix: "",
        part: "x",
        times: 8193,
        end: "\n",
        told: "REFUSED 1 11\n",
        status: Status::Refused(1, 11),
    },
    Long {
        prefix: "",
        part: "x",
        times: 8192,
        end: "",
        told: "REFUSED 0 28\n",
        status: Status::Refused(0, 28),
    },
    Long {
        prefix: "",
        part: "x",
        times: 8193,
        end: "",
        told: "REFUSED 1 11\n",
        status: Status::Refused(1, 11),
    },
    Long {
        prefix: "",
        part: "x",
        times: 200_000,
        end: "",
        told: "REFUSED 1 11\n",
        status: Status::Refused(1, 11),
    },
    Long {
        prefix: SET_LINE,
        part: " ",
        times: 8182,
        end: "\nEND\nMOMENT 60\n",
        told: "60 a.b c 42\n",
        status: Status::Ok,
    },
    Long {
        prefix: SET_LINE,
        part: " ",
        times: 8183,
        end: "\nEND\nMOMENT 60\n",
        told: "REFUSED 4 11\n",
        status: Status::Refused(4, 11),
    },
    Long {
        prefix: "MOMENT 1\nEND\n",
        part: "x",
        times: 8193,
        end: "\n",
        told: "REFUSED 2 23\n",
        status: Status::Refused(2, 23),
    },
    // Nothing behind a DISABLE is read.
    Long {
        prefix: "DISABLE\n",
        part: "x",
        times: 200_000,
        end: "\n",
        told: "",
        status: Status::Ok,
    },
    // An id may have 200.
    Long {
        prefix: "CHART a.",
        part: "x",
        times: 198,
        end: " n t u\nMOMENT 1\n",
        told: "",
        status: Status::Ok,
    },
    Long {
        prefix: "CHART a.",
        part: "x",
        times: 199,
        end: " n t u\nMOMENT 1\n",
        told: "REFUSED 1 16\n",
        status: Status::Refused(1, 16),
    },
    Long {
        prefix: "CHART a.b n t u\nDIMENSION ",
        part: "x",
        times: 200,
        end: "\nMOMENT 1\n",
        told: "",
        status: Status::Ok,
    },
    Long {
        prefix: "CHART a.b n t u\nDIMENSION ",
        part: "x",
        times: 201,
        end: "\nMOMENT 1\n",
        told: "REFUSED 2 16\n",
        status: Status::Refused(2, 16),
    },
    // Lines that come in several pieces, cut within lines.
    Long {
        prefix: SET_LINE,
        part: "\nSET c = 7",
        times: 20_000,
        end: "\nEND\nMOMENT 60\n",
        told: "60 a.b c 7\n",
        status: Status::Ok,
    },
    Long {
        prefix: SET_LINE,
        part: "\nSET c = 7",
        times: 20_000,
        end: "\nMOMENT 60\n",
        told: "REFUSED 20005 24\n",
        status: Status::Refused(20_005, 24),
    },
];

#[test]
fn tells_the_points_of_a_long_text(rt: HostRuntime) -> Result<(), Fail> {
    for (index, row) in LONGS.iter().enumerate() {
        let mut text = String::from_str(rt.alloc(), row.prefix)?;
        for _ in 0..row.times {
            text.push_str(row.part)?;
        }
        text.push_str(row.end)?;
        let end = run(rt.alloc(), &["convert"], Outside::sound(text.as_bytes()))?;
        assert_eq!(rt; end.status, row.status, "in row {index}");
        assert_eq!(rt; end.told.as_str(), row.told, "in row {index}");
    }
    Ok(())
}

#[test]
fn refuses_a_line_that_is_no_text(rt: HostRuntime) -> Result<(), Fail> {
    let input = b"CHART a.b n t u\nDIMENSION \xff\nMOMENT 1\n";
    let end = run(rt.alloc(), &["convert"], Outside::sound(input))?;
    assert_eq!(rt; end.status, Status::Refused(2, 12));
    assert_eq!(rt; end.told.as_str(), "REFUSED 2 12\n");
    Ok(())
}
