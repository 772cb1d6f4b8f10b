//! Questions: between the beats of a text, and by the command `query`.

use crate::run::{host_of, run_over};
use crate::steps::{MAKE, RUN, STORE, Step, first_wrong};
use host_model::Status;
use std::alloc::Global;
use std::test::Fail;

/// Two beats, and a question over both.
const TWO_BEATS: &str =
    "CHART test.one '' 'One' 'units'\nDIMENSION a\nBEGIN test.one\nSET a = 10\nEND\nMOMENT 59\nBEGIN test.one\nSET a = 20\nEND\nMOMENT 60\nQUERY test.one 0 120 60 sum\n";

/// A database of small quotas.
const MAKE_SMALL: Step = (
    &["new", "7", "4", "1", "100", "1", "100", "1"],
    "",
    "",
    Status::Ok,
);

/// Beats up to the moment 60, and then up to 80, with the same questions behind each.
const EIGHT_BEATS: &str =
    "CHART test.one '' 'One' 'units'\nDIMENSION a\nBEGIN test.one\nSET a = 1\nEND\nMOMENT 10\nBEGIN test.one\nSET a = 2\nEND\nMOMENT 20\nBEGIN test.one\nSET a = 3\nEND\nMOMENT 30\nBEGIN test.one\nSET a = 4\nEND\nMOMENT 40\nBEGIN test.one\nSET a = 5\nEND\nMOMENT 50\nBEGIN test.one\nSET a = 6\nEND\nMOMENT 60\nQUERY test.one 0 60 60 average\nQUERY test.one 0 30 30 average\nBEGIN test.one\nSET a = 7\nEND\nMOMENT 70\nBEGIN test.one\nSET a = 8\nEND\nMOMENT 80\nQUERY test.one 0 60 60 average\nQUERY test.one 0 30 30 average\n";

const EIGHT_TOLD: &str =
    "STORED 1\nSTORED 2\nSTORED 3\nSTORED 4\nSTORED 5\nSTORED 6\nROWS 1 a\n0 3\nROWS 1 a\n0 1.5\nSTORED 7\nSTORED 8\nROWS 1 a\n0 3\nROWS 1 a\n0 null\n";

/// Twelve beats, a second each, with questions about the moments below and at the floor.
const TWELVE_BEATS: &str =
    "CHART test.one '' 'One' 'units'\nDIMENSION a\nBEGIN test.one\nSET a = 1\nEND\nMOMENT 1\nBEGIN test.one\nSET a = 2\nEND\nMOMENT 2\nBEGIN test.one\nSET a = 3\nEND\nMOMENT 3\nBEGIN test.one\nSET a = 4\nEND\nMOMENT 4\nQUERY test.one 1 2 1 sum\nBEGIN test.one\nSET a = 5\nEND\nMOMENT 5\nBEGIN test.one\nSET a = 6\nEND\nMOMENT 6\nBEGIN test.one\nSET a = 7\nEND\nMOMENT 7\nBEGIN test.one\nSET a = 8\nEND\nMOMENT 8\nQUERY test.one 4 6 1 sum\nBEGIN test.one\nSET a = 9\nEND\nMOMENT 9\nBEGIN test.one\nSET a = 10\nEND\nMOMENT 10\nBEGIN test.one\nSET a = 11\nEND\nMOMENT 11\nBEGIN test.one\nSET a = 12\nEND\nMOMENT 12\nQUERY test.one 8 10 1 sum\n";

const TWELVE_TOLD: &str =
    "STORED 1\nSTORED 2\nSTORED 3\nSTORED 4\nROWS 1 a\n1 1\nSTORED 5\nSTORED 6\nSTORED 7\nSTORED 8\nROWS 2 a\n4 null\n5 5\nSTORED 9\nSTORED 10\nSTORED 11\nSTORED 12\nROWS 2 a\n8 null\n9 9\n";

/// A question in front of the beats that it asks for, and one behind them.
const ASKED_TWICE: &str =
    "QUERY test.one 0 60 60 sum\nCHART test.one '' 'One' 'units'\nDIMENSION a\nBEGIN test.one\nSET a = 10\nEND\nMOMENT 59\nBEGIN test.one\nSET a = 20\nEND\nMOMENT 60\nQUERY test.one 0 60 60 sum\n";

const TOLD_TWICE: &str = "ERROR 3\nSTORED 1\nSTORED 2\nROWS 1 a\n0 10\n";

/// Commands over one host each.
static SEQUENCES: [(&str, &[Step]); 6] = [
    (
        "points of two windows",
        &[
            MAKE,
            (
                RUN,
                TWO_BEATS,
                "STORED 1\nSTORED 2\nROWS 2 a\n0 10\n60 20\n",
                Status::Ok,
            ),
            (
                &["query", "test.one", "0", "120", "60", "sum"],
                "",
                "ROWS 2 a\n0 10\n60 20\n",
                Status::Ok,
            ),
            (
                &["query", "test.one", "+059", "060", "1", "max", "a"],
                "",
                "ROWS 1 a\n59 10\n",
                Status::Ok,
            ),
        ],
    ),
    (
        "points below a floor",
        &[MAKE_SMALL, (RUN, EIGHT_BEATS, EIGHT_TOLD, Status::Ok)],
    ),
    (
        "floors that rise",
        &[MAKE_SMALL, (RUN, TWELVE_BEATS, TWELVE_TOLD, Status::Ok)],
    ),
    (
        "a checkpoint is read again",
        &[
            MAKE_SMALL,
            (RUN, TWELVE_BEATS, TWELVE_TOLD, Status::Ok),
            (
                &["query", "test.one", "8", "13", "1", "sum"],
                "",
                "ROWS 5 a\n8 null\n9 9\n10 10\n11 11\n12 12\n",
                Status::Ok,
            ),
        ],
    ),
    (
        "an answer is that of its place",
        &[MAKE, (RUN, ASKED_TWICE, TOLD_TWICE, Status::Ok)],
    ),
    (
        "a quote that is left open",
        &[
            MAKE,
            (
                RUN,
                "QUERY\nQUERY 'test.one 0 1 1 sum\n",
                "ERROR 1\nREFUSED 2 13\n",
                Status::Refused(2, 13),
            ),
        ],
    ),
];

#[test]
fn questions_are_answered(rt: HostRuntime) -> Result<(), Fail> {
    for (title, steps) in &SEQUENCES {
        assert_eq!(rt; first_wrong(rt.alloc(), steps)?, None, "{title}");
    }
    Ok(())
}

/// Questions that are refused, and what is told of each.
static REFUSED: [(&[&str], &str); 10] = [
    (&["query", "", "", "", "", ""], "ERROR 1\n"),
    (&["query", "'test.one", "0", "1", "1", "sum"], "ERROR 1\n"),
    (&["query", "test.one", "x", "1", "1", "sum"], "ERROR 2\n"),
    (&["query", "test.one", "0", "1", "0", "sum"], "ERROR 2\n"),
    (
        &["query", "test.one", "0", "4294967296", "1", "sum"],
        "ERROR 2\n",
    ),
    (&["query", "no.chart", "0", "1", "1", "sum"], "ERROR 3\n"),
    (&["query", "no.chart", "0", "1", "1", "median"], "ERROR 3\n"),
    (&["query", "test.one", "0", "1", "1", "median"], "ERROR 4\n"),
    (
        &["query", "test.one", "0", "10001", "1", "sum"],
        "ERROR 5\n",
    ),
    (
        &["query", "test.one", "x", "10001", "0", "median"],
        "ERROR 2\n",
    ),
];

#[test]
fn a_question_that_is_refused_ends_well(rt: HostRuntime) -> Result<(), Fail> {
    for (words, told) in &REFUSED {
        let steps = [MAKE, STORE, (*words, "", *told, Status::Ok)];
        assert_eq!(rt; first_wrong(rt.alloc(), &steps)?, None, "at {words:?}");
    }
    Ok(())
}

/// Words of a command line that are in no form.
static NO_FORMS: [&[&str]; 8] = [
    &["query"],
    &["query", "test.one", "0", "1", "1"],
    &["query", "-a", "0", "1", "1", "sum"],
    &["query", "test.one", "-60", "0", "1", "sum"],
    &["query", "test.one", "0", "1", "1", "sum", "-x"],
    &["query", "--", "test.one", "0", "1", "1", "sum"],
    &["--help", "query", "0", "1", "1", "sum"],
    &["Query", "test.one", "0", "1", "1", "sum"],
];

/// How the words end over a host whose first call fails, and how they end over one without a database.
fn ends(alloc: Global, words: &[&str]) -> Result<(Status, Status), Fail> {
    let mut failing = host_of(alloc, &[0])?;
    let mut empty = host_of(alloc, &[])?;
    let first = run_over(alloc, &mut failing, words, b"", &[])?;
    let second = run_over(alloc, &mut empty, words, b"", &[])?;
    Ok((first.status, second.status))
}

#[test]
fn five_words_or_more_are_a_question(rt: HostRuntime) -> Result<(), Fail> {
    for words in &NO_FORMS {
        let want = (Status::Usage, Status::Usage);
        assert_eq!(rt; ends(rt.alloc(), words)?, want, "at {words:?}");
    }
    let words: &[&str] = &["query", "test.one", "0", "1", "1", "sum", "a", ""];
    let want = (Status::DiskFault, Status::NotADatabase);
    assert_eq!(rt; ends(rt.alloc(), words)?, want);
    Ok(())
}
