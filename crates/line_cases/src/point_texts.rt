//! The tests of `point_lines`: what the lines of a text tell.
ghost use Rattle.std.specs.Prelude.{[]};
ghost use Rattle.point_lines.specs.Reader.{IsReaderOf};

use history::BlockFault;
use plugin_text::{LineFault, Refusal};
use point_lines::{Reader, Stop};
use std::alloc::{AllocError, Global};
use std::process::Abort;
use std::test::Fail;

/// The lines of a text, what they tell, and why the last was not read.
struct Row {
    lines: &'static [&'static str],
    told: &'static str,
    stop: Option<Stop>,
}

static ROWS: [Row; 8] = [
    // A counter rises, and falls.
    Row {
        lines: &[
            "CHART test.one '' 'One' 'units'",
            "DIMENSION a a incremental",
            "BEGIN test.one",
            "SET a = 100",
            "END",
            "MOMENT 1",
            "BEGIN test.one",
            "SET a = 160",
            "END",
            "MOMENT 2",
            "BEGIN test.one",
            "SET a = 10",
            "END",
            "MOMENT 3",
        ],
        told: "2 test.one a 60\n3 test.one a 0 R\n",
        stop: None,
    },
    // The shares of a row, in the order of the dimensions.
    Row {
        lines: &[
            "CHART test.one '' 'One' 'units'",
            "DIMENSION a a percentage-of-absolute-row",
            "DIMENSION b b percentage-of-absolute-row",
            "BEGIN test.one",
            "SET b = 2",
            "SET a = 1",
            "END",
            "MOMENT 1",
            "BEGIN test.one",
            "SET a = 0",
            "SET b = 0",
            "END",
            "MOMENT 2",
        ],
        told: "1 test.one a 33.33333\n1 test.one b 66.66667\n2 test.one a 0\n2 test.one b 0\n",
        stop: None,
    },
    // What a plugin writes.
    Row {
        lines: &[
            "CHART netdata.plugin_example '' \"Example plugin's run time\" \"milliseconds\" \"example plugin\" netdata.plugin_example area 110000 1 \"obsolete\" example run",
            "CLABEL \"_collect_plugin\" \"example\" 1",
            "CLABEL_COMMIT",
            "DIMENSION run_time '' absolute 1 1000",
            "BEGIN netdata.plugin_example 1000123",
            "SET run_time = -2500",
            "END",
            "MOMENT 1",
            "CHART netdata.plugin_example '' \"Example plugin's run time\" \"milliseconds\" \"example plugin\" netdata.plugin_example area 110000 1 \"obsolete\" example run",
            "BEGIN netdata.plugin_example",
            "SET run_time=1500.7",
            "END",
            "MOMENT 2",
        ],
        told: "1 netdata.plugin_example run_time -2.5\n2 netdata.plugin_example run_time 1.5\nSKIPPED 2\n",
        stop: None,
    },
    // Two series of two charts, both marks, and a question.
    Row {
        lines: &[
            "CHART a.b",
            "CHART a.b n t u",
            "DIMENSION c c incremental",
            "CHART d.e n t u",
            "DIMENSION f",
            "BEGIN d.e",
            "SET f = 1",
            "END",
            "BEGIN a.b",
            "SET c = 9",
            "END",
            "MOMENT 1",
            "QUERY a.b 0 1 1 sum",
        ],
        told: "",
        stop: Some(Stop::Refused(Refusal::Line(LineFault::MissingWord))),
    },
    Row {
        lines: &[
            "CHART a.b n t u",
            "DIMENSION c c incremental",
            "CHART d.e n t u",
            "DIMENSION f",
            "BEGIN d.e",
            "SET f = 1",
            "END",
            "BEGIN a.b",
            "SET c = 9",
            "END",
            "MOMENT 1",
            "QUERY a.b 0 1 1 sum",
            "BEGIN a.b",
            "SET c = 8 A",
            "END",
            "BEGIN d.e",
            "SET f = 2",
            "END",
            "MOMENT 2",
        ],
        told: "1 d.e f 1\n2 a.b c 0 A R\n2 d.e f 2\nSKIPPED 1\n",
        stop: None,
    },
    // A moment off the grid.
    Row {
        lines: &[
            "CHART t.c '' T u f c line 1000 5",
            "DIMENSION a",
            "BEGIN t.c",
            "SET a = 1",
            "END",
            "MOMENT 5",
            "BEGIN t.c",
            "SET a = 2",
            "END",
            "MOMENT 7",
        ],
        told: "5 t.c a 1\n",
        stop: Some(Stop::Refused(Refusal::Block(BlockFault::OffGrid))),
    },
    // No beat is closed by the end.
    Row {
        lines: &[
            "CHART t.c n t u",
            "DIMENSION a",
            "BEGIN t.c",
            "SET a = 1",
            "END",
            "DISABLE",
        ],
        told: "",
        stop: Some(Stop::Disabled),
    },
    Row {
        lines: &["", "MOMENT x"],
        told: "",
        stop: Some(Stop::Refused(Refusal::Line(LineFault::BadNumber))),
    },
];

/// Reads lines up to the first that is not read.
fn read(rt: &impl Abort, reader: &mut Reader, lines: &[&str], out: &mut String) -> Result<(), Stop>
    requires { IsReaderOf reader.old [] }
{
    for line in lines {
        let bytes = line.as_bytes();
        assert!(rt; !bytes.contains(&b'\n'), "{line}");
        reader.take_line(bytes, out)?;
    }
    Ok(())
}

/// Reads the lines of a text, and its end if all were read.
fn tell(
    rt: &impl Abort,
    reader: &mut Reader,
    lines: &[&str],
    out: &mut String,
) -> Result<Option<Stop>, AllocError>
    requires { IsReaderOf reader.old [] }
{
    if let Err(stop) = read(rt, reader, lines, out) {
        return Ok(Some(stop));
    }
    reader.push_skipped(out)?;
    Ok(None)
}

/// What the lines of a text tell, and why the last was not read.
fn told(
    rt: &impl Abort,
    alloc: Global,
    lines: &[&str],
) -> (String, Result<Option<Stop>, AllocError>) {
    let mut reader = Reader::new(alloc);
    let mut out = String::new(alloc);
    let stop = tell(rt, &mut reader, lines, &mut out);
    (out, stop)
}

#[test]
fn tells_what_the_lines_say(rt: HostRuntime) -> Result<(), Fail> {
    for row in &ROWS {
        let (out, stop) = told(&rt, rt.alloc(), row.lines);
        assert_eq!(rt; out.as_str(), row.told);
        assert_eq!(rt; stop?, row.stop);
    }
    Ok(())
}

/// A text that ends where something is open.
const UNFINISHED: Refusal = Refusal::Block(BlockFault::Unfinished);

#[test]
fn ends_where_nothing_is_open(rt: HostRuntime) {
    let reader = Reader::new(rt.alloc());
    assert_eq!(rt; reader.end(b""), Ok(()));
    assert_eq!(rt; reader.end(b"MOMENT"), Err(UNFINISHED));
    assert_eq!(rt; UNFINISHED.number(), 28);
}

/// Reads a definition, and a line that says nothing: how many lines were read, and how the text ends.
fn defined(rt: &impl Abort, alloc: Global) -> Result<(u64, Result<(), Refusal>), Stop> {
    let mut reader = Reader::new(alloc);
    let mut out = String::new(alloc);
    let lines = ["CHART a.b n t u", "CLABEL_COMMIT"];
    read(rt, &mut reader, &lines, &mut out)?;
    Ok((reader.lines(), reader.end(b"")))
}

#[test]
fn a_definition_without_a_moment_is_unfinished(rt: HostRuntime) {
    assert_eq!(rt; defined(&rt, rt.alloc()), Ok((2, Err(UNFINISHED))));
}

#[test]
fn numbers_each_refusal(rt: HostRuntime) {
    for (refusal, number) in [
        (Refusal::Line(LineFault::LineTooLong), 11),
        (Refusal::Line(LineFault::LongId), 16),
        (Refusal::Block(BlockFault::NoChart), 21),
        (Refusal::Block(BlockFault::MomentOrder(7)), 27),
        (Refusal::Block(BlockFault::MixedRoles), 29),
        (Refusal::Block(BlockFault::GridChanged), 31),
        (Refusal::Block(BlockFault::TooManyDimensions), 33),
    ] {
        assert_eq!(rt; refusal.number(), number);
    }
}
