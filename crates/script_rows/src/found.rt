//! What a host has, by what it answers.

use crate::runs::{RUN, run_over};
use host_model::{MemoryHost, Status};
use std::alloc::{AllocError, Global};
use std::test::Fail;

/// Questions of each tier of both charts: of points, of minutes and of hours.
const QUESTIONS: &str = "QUERY t.c 3400 3900 4 sum\nQUERY t.d 3400 3900 4 sum\n\
    QUERY t.c 7200 7300 4 sum\nQUERY t.d 7200 7300 4 sum\nQUERY t.c 3360 3960 60 average\n\
    QUERY t.d 3360 3960 60 average\nQUERY t.c 7200 7320 60 average\n\
    QUERY t.d 7200 7320 60 average\nQUERY t.c 0 10800 3600 sum\nQUERY t.d 0 10800 3600 sum\n\
    QUERY t.c 0 10800 3600 anomaly-rate\nQUERY t.d 0 10800 3600 count\n";

/// Definitions, which change nothing where they are there, and the rows of a beat.
const BEAT: &str = "CHART t.c n t u\nDIMENSION a\nDIMENSION b\nCHART t.d n t u\nDIMENSION c\n\
    BEGIN t.c\nSET a = 45\nSET b = 46\nEND\nBEGIN t.d\nSET c = 47\nEND\n";

/// The questions, a beat at this moment, the questions, and a beat a minute later.
pub fn text_at(alloc: Global, moment: u32) -> Result<String, AllocError> {
    let later = moment.saturating_add(60);
    format!(in alloc; "{QUESTIONS}{BEAT}MOMENT {moment}\n{QUESTIONS}{BEAT}MOMENT {later}\n")
}

/// What a run of the text tells, how it ends, and the log behind it.
#[derive(Drop)]
pub struct Found {
    status: Status,
    told: String,
    log: String,
}

impl Found {
    /// What is found by this text.
    pub fn by(alloc: Global, host: &mut MemoryHost, text: &str) -> Result<Found, Fail> {
        let end = run_over(alloc, host, RUN, text.as_bytes())?;
        let log = run_over(alloc, host, &["log", "text"], b"")?.told;
        Ok(Found {
            status: end.status,
            told: end.told,
            log,
        })
    }

    /// Whether the other is the same.
    pub fn is(&self, other: &Found) -> bool {
        self.status == other.status
            && self.told.as_str() == other.told.as_str()
            && self.log.as_str() == other.log.as_str()
    }
}
