use crate::run::{ONE_POINT, Outside, POINT, host_of, run, run_over};
use host_model::Status;
use std::alloc::Global;
use std::test::Fail;

/// A text, the calls on the outside that fail, and what is told with which status.
#[derive(Clone, Copy)]
struct Row {
    text: &'static str,
    pull_fails: &'static [u64],
    tell_fails: &'static [u64],
    told: &'static str,
    status: Status,
}

/// A text that tells nothing.
const NO_POINT: &str = "CHART test.one n t u\nDIMENSION a\nMOMENT 60\n";

static ROWS: [Row; 15] = [
    Row {
        text: ONE_POINT,
        pull_fails: &[0],
        tell_fails: &[],
        told: "",
        status: Status::ReadFault,
    },
    Row {
        text: "",
        pull_fails: &[0],
        tell_fails: &[],
        told: "",
        status: Status::ReadFault,
    },
    // The points of whole lines that came are told.
    Row {
        text: ONE_POINT,
        pull_fails: &[1],
        tell_fails: &[],
        told: POINT,
        status: Status::ReadFault,
    },
    // A text that has not ended is not unfinished.
    Row {
        text: "BEGIN",
        pull_fails: &[1],
        tell_fails: &[],
        told: "",
        status: Status::ReadFault,
    },
    // What comes first decides.
    Row {
        text: "BEGIN test.one\n",
        pull_fails: &[1],
        tell_fails: &[],
        told: "REFUSED 1 21\n",
        status: Status::Refused(1, 21),
    },
    Row {
        text: ONE_POINT,
        pull_fails: &[0],
        tell_fails: &[0],
        told: "",
        status: Status::ReadFault,
    },
    Row {
        text: ONE_POINT,
        pull_fails: &[1],
        tell_fails: &[0],
        told: "",
        status: Status::TellFault,
    },
    Row {
        text: ONE_POINT,
        pull_fails: &[],
        tell_fails: &[0],
        told: "",
        status: Status::TellFault,
    },
    // The telling of a refusal fails, at a line and at the end.
    Row {
        text: "BEGIN test.one\n",
        pull_fails: &[],
        tell_fails: &[0],
        told: "",
        status: Status::TellFault,
    },
    Row {
        text: "BEGIN test.one",
        pull_fails: &[],
        tell_fails: &[0],
        told: "",
        status: Status::TellFault,
    },
    // Nothing is told where nothing waits, and nothing is taken past the end.
    Row {
        text: NO_POINT,
        pull_fails: &[],
        tell_fails: &[0],
        told: "",
        status: Status::Ok,
    },
    Row {
        text: "",
        pull_fails: &[1],
        tell_fails: &[0],
        told: "",
        status: Status::Ok,
    },
    Row {
        text: ONE_POINT,
        pull_fails: &[2],
        tell_fails: &[1],
        told: POINT,
        status: Status::Ok,
    },
    // A DISABLE ends the run before the end of the input is asked for; what is skipped is told last.
    Row {
        text: "skipped\nDISABLE\n",
        pull_fails: &[1],
        tell_fails: &[],
        told: "SKIPPED 1\n",
        status: Status::Ok,
    },
    Row {
        text: "skipped\nDISABLE\n",
        pull_fails: &[],
        tell_fails: &[0],
        told: "",
        status: Status::TellFault,
    },
];

#[test]
fn names_the_fault_that_stopped_the_run(rt: HostRuntime) -> Result<(), Fail> {
    for (index, row) in ROWS.iter().enumerate() {
        let outside = Outside {
            input: row.text.as_bytes(),
            pull_fails: row.pull_fails,
            tell_fails: row.tell_fails,
        };
        let end = run(rt.alloc(), &["convert"], outside)?;
        assert_eq!(rt; end.status, row.status, "in row {index}");
        assert_eq!(rt; end.told.as_str(), row.told, "in row {index}");
    }
    Ok(())
}

/// A point is told before the input has come, and then the telling of a refusal fails.
#[test]
fn a_refusal_that_is_not_told(rt: HostRuntime) -> Result<(), Fail> {
    let mut text = String::from_str(rt.alloc(), ONE_POINT)?;
    text.push_str("BEGIN test.one\n")?;
    for _ in 0..20_000u32 {
        text.push_str("SET a = 7\n")?;
    }
    text.push_str("MOMENT 61\n")?;
    for (tell_fails, told, status) in [
        (
            [7u64],
            "60 test.one a 42\nREFUSED 20008 24\n",
            Status::Refused(20_008, 24),
        ),
        ([1], POINT, Status::TellFault),
        ([0], "", Status::TellFault),
    ] {
        let outside = Outside {
            input: text.as_bytes(),
            pull_fails: &[],
            tell_fails: &tell_fails,
        };
        let end = run(rt.alloc(), &["convert"], outside)?;
        assert_eq!(rt; end.status, status);
        assert_eq!(rt; end.told.as_str(), told);
    }
    Ok(())
}

/// How `new`, and then a run over no byte, end where this call of the host fails.
fn ends_at(alloc: Global, fails: u64) -> Result<(Status, Status), Fail> {
    let mut host = host_of(alloc, &[fails])?;
    let made = run_over(alloc, &mut host, &["new", "7"], b"", &[])?.status;
    let ended = run_over(alloc, &mut host, &["run"], b"", &[])?.status;
    Ok((made, ended))
}

/// Such a run asks nothing of the output: no call that fails ends it as a failure of that.
#[test]
fn a_run_over_no_byte_tells_nothing(rt: HostRuntime) -> Result<(), Fail> {
    for fails in 0..40 {
        let ends = ends_at(rt.alloc(), fails)?;
        let is_sound = matches!(
            ends,
            (Status::Ok, Status::Ok | Status::DiskFault)
                | (Status::DiskFault, Status::Ok | Status::NotADatabase)
        );
        assert!(rt; is_sound, "{ends:?} at {fails}");
    }
    Ok(())
}
