use crate::run::{ONE_POINT, Outside, run};
use host_model::Status;
use std::alloc::Global;
use std::test::Fail;

/// Words of a command line that are in no form.
static NO_FORMS: [&[&str]; 8] = [
    &[],
    &[""],
    &["Convert"],
    &["convert "],
    &["--help"],
    &["--version"],
    &["convert", "x"],
    &["convert", "convert"],
];

#[test]
fn words_in_no_form_touch_nothing(rt: HostRuntime) -> Result<(), Fail> {
    for words in &NO_FORMS {
        let end = run(rt.alloc(), words, Outside::sound(ONE_POINT.as_bytes()))?;
        assert_eq!(rt; end.status, Status::Usage, "at {words:?}");
        assert_eq!(rt; end.told.as_str(), "", "at {words:?}");
        assert!(rt; !end.has_taken, "at {words:?}");
    }
    Ok(())
}

/// The words of a command line, and how they end over a host without a database, where the input is empty.
type Row = (&'static [&'static str], Status);

/// One word, or none.
static ALONE: [Row; 20] = [
    (&[], Status::Usage),
    (&[""], Status::Usage),
    (&["convert"], Status::Ok),
    (&["run"], Status::NotADatabase),
    (&["new"], Status::Usage),
    (&["query"], Status::Usage),
    (&["Convert"], Status::Usage),
    (&["RUN"], Status::Usage),
    (&["convert "], Status::Usage),
    (&[" run"], Status::Usage),
    (&["run\n"], Status::Usage),
    (&["runs"], Status::Usage),
    (&["ru"], Status::Usage),
    (&["help"], Status::Usage),
    (&["-"], Status::Usage),
    (&["--"], Status::Usage),
    (&["-h"], Status::Usage),
    (&["-V"], Status::Usage),
    (&["--help"], Status::Usage),
    (&["--version"], Status::Usage),
];

/// Words too many, and words that begin with `-`.
static TOO_MANY: [Row; 20] = [
    (&["convert", ""], Status::Usage),
    (&["convert", "convert"], Status::Usage),
    (&["convert", "--"], Status::Usage),
    (&["--", "convert"], Status::Usage),
    (&["convert", "help"], Status::Usage),
    (&["run", ""], Status::Usage),
    (&["run", "run"], Status::Usage),
    (&["run", "-"], Status::Usage),
    (&["run", "--help"], Status::Usage),
    (&["help", "run"], Status::Usage),
    (&["-v", "run"], Status::Usage),
    (&["new", "7", "8"], Status::Usage),
    (&["new", "7", "--"], Status::Usage),
    (&["new", "--", "7"], Status::Usage),
    (&["new", "--words", "7"], Status::Usage),
    (&["new", "--words=7"], Status::Usage),
    (&["new", "7", "1", "1", "1", "1", "1"], Status::Usage),
    (&["new", "7", "1", "1", "1", "1", "1", "1"], Status::Ok),
    (
        &["new", "7", "1", "1", "1", "1", "1", "1", "1"],
        Status::Usage,
    ),
    (
        &["new", "7", "1", "1", "1", "1", "1", "1", "--"],
        Status::Usage,
    ),
];

/// The numbers of a database.
static NUMBERS: [Row; 20] = [
    (&["new", "0"], Status::Ok),
    (&["new", "7"], Status::Ok),
    (&["new", "18446744073709551615"], Status::Ok),
    (&["new", "18446744073709551616"], Status::Usage),
    (&["new", "99999999999999999999999999"], Status::Usage),
    (&["new", "00"], Status::Usage),
    (&["new", "07"], Status::Usage),
    (&["new", "+7"], Status::Usage),
    (&["new", "-7"], Status::Usage),
    (&["new", "7 "], Status::Usage),
    (&["new", " 7"], Status::Usage),
    (&["new", ""], Status::Usage),
    (&["new", "7.0"], Status::Usage),
    (&["new", "0x7"], Status::Usage),
    (&["new", "٧"], Status::Usage),
    (
        &[
            "new", "0", "262144", "1024", "262144", "1024", "262144", "1024",
        ],
        Status::Ok,
    ),
    (
        &["new", "0", "262145", "1", "1", "1", "1", "1"],
        Status::Usage,
    ),
    (
        &["new", "0", "1", "1025", "1", "1", "1", "1"],
        Status::Usage,
    ),
    (&["new", "0", "1", "1", "0", "1", "1", "1"], Status::Usage),
    (&["new", "0", "1", "1", "1", "1", "1", "01"], Status::Usage),
];

/// Questions.
static QUESTIONS: [Row; 20] = [
    (&["query", "t.c"], Status::Usage),
    (&["query", "t.c", "0"], Status::Usage),
    (&["query", "t.c", "0", "1"], Status::Usage),
    (&["query", "t.c", "0", "1", "1"], Status::Usage),
    (
        &["query", "t.c", "0", "1", "1", "sum"],
        Status::NotADatabase,
    ),
    (
        &["query", "t.c", "+07", "007", "x", "sum"],
        Status::NotADatabase,
    ),
    (&["query", "", "", "", "", ""], Status::NotADatabase),
    (
        &["query", "t.c", "0", "1", "1", "sum", "a"],
        Status::NotADatabase,
    ),
    (
        &["query", "t.c", "0", "1", "1", "sum", "!a", "*"],
        Status::NotADatabase,
    ),
    (
        &["query", "help", "help", "help", "help", "help"],
        Status::NotADatabase,
    ),
    (
        &["query", "query", "run", "new", "convert", "7"],
        Status::NotADatabase,
    ),
    (&["query", "-a", "0", "1", "1", "sum"], Status::Usage),
    (&["query", "t.c", "-1", "1", "1", "sum"], Status::Usage),
    (&["query", "t.c", "0", "1", "1", "sum", "-"], Status::Usage),
    (&["query", "t.c", "0", "1", "1", "sum", "--"], Status::Usage),
    (&["query", "--", "t.c", "0", "1", "1", "sum"], Status::Usage),
    (&["query", "t.c", "0", "1", "1", "--help"], Status::Usage),
    (
        &["--help", "query", "t.c", "0", "1", "1", "sum"],
        Status::Usage,
    ),
    (&["Query", "t.c", "0", "1", "1", "sum"], Status::Usage),
    (
        &["query", "t.c 0", "1 1", "sum", "a", "b"],
        Status::NotADatabase,
    ),
];

/// Collectors.
static COLLECTORS: [Row; 22] = [
    (&["collect"], Status::Usage),
    (&["collect", "1"], Status::Usage),
    (&["collect", "1", "1"], Status::Usage),
    (&["collect", "1", "1", "p"], Status::NotADatabase),
    (&["collect", "86400", "1000", "p"], Status::NotADatabase),
    (&["collect", "86401", "1", "p"], Status::Usage),
    (&["collect", "1", "1001", "p"], Status::Usage),
    (&["collect", "0", "1", "p"], Status::Usage),
    (&["collect", "1", "0", "p"], Status::Usage),
    (&["collect", "01", "1", "p"], Status::Usage),
    (&["collect", "+1", "1", "p"], Status::Usage),
    (&["collect", "1 ", "1", "p"], Status::Usage),
    (&["collect", "1", "x", "p"], Status::Usage),
    (&["collect", "4294967297", "1", "p"], Status::Usage),
    (&["collect", "1", "1", ""], Status::NotADatabase),
    (&["collect", "1", "1", "p", "", "b c"], Status::NotADatabase),
    (
        &["collect", "1", "1", "collect", "run"],
        Status::NotADatabase,
    ),
    (&["collect", "1", "1", "-p"], Status::Usage),
    (&["collect", "1", "1", "p", "-v"], Status::Usage),
    (&["collect", "1", "1", "p", "--"], Status::Usage),
    (&["collect", "--", "1", "1", "p"], Status::Usage),
    (&["Collect", "1", "1", "p"], Status::Usage),
];

/// Other agents.
static PEERS: [Row; 18] = [
    (&["send"], Status::Usage),
    (&["send", "a:1"], Status::NotADatabase),
    (&["send", ""], Status::NotADatabase),
    (&["send", "receive"], Status::NotADatabase),
    (&["send", "a b"], Status::NotADatabase),
    (&["send", "a", "b"], Status::Usage),
    (&["send", "-a"], Status::Usage),
    (&["send", "--", "a"], Status::Usage),
    (&["Send", "a"], Status::Usage),
    (&["receive"], Status::Usage),
    (&["receive", "a:1"], Status::NotADatabase),
    (&["receive", ""], Status::NotADatabase),
    (&["receive", "send"], Status::NotADatabase),
    (&["receive", "help"], Status::NotADatabase),
    (&["receive", "a", "b"], Status::Usage),
    (&["receive", "-"], Status::Usage),
    (&["receive", "a", "--"], Status::Usage),
    (&["receives", "a"], Status::Usage),
];

/// The first of the rows that does not end as it should, or tells something.
fn first_misread(alloc: Global, rows: &[Row]) -> Result<Option<usize>, Fail> {
    for (index, (words, status)) in rows.iter().enumerate() {
        let end = run(alloc, words, Outside::sound(b""))?;
        if end.status != *status || !end.told.is_empty() {
            return Ok(Some(index));
        }
    }
    Ok(None)
}

#[test]
fn one_word_is_a_command_or_none(rt: HostRuntime) -> Result<(), Fail> {
    assert_eq!(rt; first_misread(rt.alloc(), &ALONE)?, None);
    Ok(())
}

#[test]
fn a_word_too_many_is_in_no_form(rt: HostRuntime) -> Result<(), Fail> {
    assert_eq!(rt; first_misread(rt.alloc(), &TOO_MANY)?, None);
    Ok(())
}

#[test]
fn numbers_have_their_limits(rt: HostRuntime) -> Result<(), Fail> {
    assert_eq!(rt; first_misread(rt.alloc(), &NUMBERS)?, None);
    Ok(())
}

#[test]
fn questions_have_five_words_or_more(rt: HostRuntime) -> Result<(), Fail> {
    assert_eq!(rt; first_misread(rt.alloc(), &QUESTIONS)?, None);
    Ok(())
}

#[test]
fn collectors_have_two_numbers_and_a_program(rt: HostRuntime) -> Result<(), Fail> {
    assert_eq!(rt; first_misread(rt.alloc(), &COLLECTORS)?, None);
    Ok(())
}

#[test]
fn other_agents_have_one_address(rt: HostRuntime) -> Result<(), Fail> {
    assert_eq!(rt; first_misread(rt.alloc(), &PEERS)?, None);
    Ok(())
}
