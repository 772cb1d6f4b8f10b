//! A beat before which a checkpoint seals a segment of points and one of minutes, each of one item.

use crate::places::Place;
use crate::runs::{RUN, Step, host_of, is_right};
use host_model::{MemoryHost, Status};
use std::alloc::Global;
use std::test::Fail;

/// A database whose segments have one item each, and two beats of it.
static BEFORE: [Step; 3] = [
    (
        &["new", "7", "1", "1", "1", "1", "1", "1"],
        "",
        "",
        Status::Ok,
    ),
    (
        RUN,
        "CHART t.c n t u\nDIMENSION a\nBEGIN t.c\nSET a = 1\nEND\nMOMENT 30\n",
        "STORED 1\n",
        Status::Ok,
    ),
    (
        RUN,
        "BEGIN t.c\nSET a = 2\nEND\nMOMENT 60\n",
        "STORED 2\n",
        Status::Ok,
    ),
];

/// The beat before which the checkpoint is made.
const THIRD: Step = (
    RUN,
    "BEGIN t.c\nSET a = 3\nEND\nMOMENT 61\n",
    "STORED 3\n",
    Status::Ok,
);

/// Questions of each tier.
const QUESTIONS: &str = "QUERY t.c 28 64 1 sum\nQUERY t.c 0 180 60 average\n\
    QUERY t.c 0 7200 3600 sum\nQUERY t.c 0 7200 3600 anomaly-rate\nQUERY t.c 0 7200 3600 count\n";

/// The rows of a beat.
const BEAT: &str = "BEGIN t.c\nSET a = 4\nEND\n";

/// A host behind the two beats.
fn host_behind(alloc: Global) -> Result<MemoryHost, Fail> {
    let mut host = host_of(alloc, &[])?;
    for (number, step) in BEFORE.iter().enumerate() {
        if !is_right(alloc, &mut host, step)? {
            return Err(Fail::new(number));
        }
    }
    Ok(host)
}

/// The place of the third beat.
pub fn third_beat(alloc: Global) -> Result<Place, Fail> {
    let mut host = host_behind(alloc)?;
    let text = format!(in alloc;
        "{QUESTIONS}{BEAT}MOMENT 62\n{QUESTIONS}{BEAT}MOMENT 122\n{QUESTIONS}"
    )?;
    Place::behind(alloc, &mut host, &THIRD, text)
}
