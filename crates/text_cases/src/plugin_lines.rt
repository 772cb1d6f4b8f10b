//! The tests of `plugin_text`: what each line says.

use plugin_text::{ChartDef, DimDef, Line, LineFault, read_line};
use std::alloc::{AllocError, Global};
use std::process::Abort;
use std::test::Fail;

// A chart's definition, each text in angle brackets.
fn shown_chart(alloc: Global, chart: &ChartDef) -> Result<String, AllocError> {
    let texts = format!(in alloc;
        "<{}> <{}> <{}> <{}> <{}> <{}>",
        chart.id.as_str(),
        chart.name.as_str(),
        chart.title.as_str(),
        chart.units.as_str(),
        chart.family.as_str(),
        chart.context.as_str()
    )?;
    format!(in alloc;
        "CHART {texts} {:?} {} {} {}",
        chart.kind, chart.priority, chart.update_every, chart.store_first
    )
}

fn shown_dimension(alloc: Global, dimension: &DimDef) -> Result<String, AllocError> {
    format!(in alloc;
        "DIMENSION <{}> <{}> {:?} {} {} {} {}",
        dimension.id.as_str(),
        dimension.name.as_str(),
        dimension.algorithm,
        dimension.multiplier,
        dimension.divisor,
        dimension.hidden,
        dimension.noreset
    )
}

fn shown(alloc: Global, line: &Line) -> Result<String, AllocError> {
    match line {
        Line::Chart(chart) => shown_chart(alloc, chart),
        Line::Dimension(dimension) => shown_dimension(alloc, dimension),
        Line::Begin(chart) => format!(in alloc; "BEGIN <{}>", chart.as_str()),
        Line::Set {
            id,
            value,
            anomalous,
        } => format!(in alloc; "SET <{}> {value:?} {anomalous}", id.as_str()),
        Line::End => String::from_str(alloc, "END"),
        Line::Flush => String::from_str(alloc, "FLUSH"),
        Line::Disable => String::from_str(alloc, "DISABLE"),
        Line::Moment(moment) => format!(in alloc; "MOMENT {moment}"),
        Line::Query(text) => format!(in alloc; "QUERY <{}>", text.as_str()),
        Line::Skipped => String::from_str(alloc, "SKIPPED"),
    }
}

// What a line says, or the number of its refusal, or that there was no memory.
fn shown_answer(alloc: Global, bytes: &[u8]) -> Result<String, AllocError> {
    match read_line(alloc, bytes) {
        Ok(line) => shown(alloc, &line),
        Err(fault) => match fault.number() {
            Some(number) => format!(in alloc; "REFUSED {number}"),
            None => String::from_str(alloc, "MEMORY"),
        },
    }
}

// Reads the line of each row of a table, which has its answer behind an arrow, and counts the rows.
fn check_rows(rt: &impl Abort, alloc: Global, table: &str) -> Result<u64, AllocError> {
    let mut rows: u64 = 0;
    for row in table.split('\n') {
        if let Some((line, want)) = row.split_once(" => ") {
            let answer = shown_answer(alloc, line.as_bytes())?;
            assert_eq!(rt; answer.as_str(), want, "at {line}");
            rows = rows.saturating_add(1);
        }
    }
    Ok(rows)
}

const CHARTS: &str = "\
CHART test.one '' 'One' 'units' => CHART <test.one> <one> <One> <units> <one> <test.one> Line 1000 0 false
CHART disk.root disk_root \"Space\" GiB / disk.space => CHART <disk.root> <disk_root> <Space> <GiB> </> <disk.space> Line 1000 0 false
CHART netdata.plugin_example '' \"Example plugin's run time\" \"milliseconds\" \"example plugin\" netdata.plugin_example area 110000 1 \"obsolete\" example run => CHART <netdata.plugin_example> <plugin_example> <Example plugin's run time> <milliseconds> <example plugin> <netdata.plugin_example> Area 110000 1 false
CHART a.b n t u f c stacked -5 86400 store_first => CHART <a.b> <n> <t> <u> <f> <c> Stacked -5 86400 true
CHART a.b n '' '' '' '' '' '' '' '' => CHART <a.b> <n> <> <> <b> <a.b> Line 1000 0 false
CHART a.b.c '' t u => CHART <a.b.c> <b.c> <t> <u> <b.c> <a.b.c> Line 1000 0 false
\tCHART\u{b}a.b='n'\u{c}t==\"u\"\r => CHART <a.b> <n> <t> <u> <b> <a.b> Line 1000 0 false
CHART größe.µs 'Größe=1' '日本' '€' => CHART <größe.µs> <Größe=1> <日本> <€> <µs> <größe.µs> Line 1000 0 false
CHART a.b '' t u f c AREA +7 +1 => CHART <a.b> <b> <t> <u> <f> <c> Line 7 1 false
CHART a.b '' t u f c line 007 0 => CHART <a.b> <b> <t> <u> <f> <c> Line 7 0 false
CHART a.b '' t u f c line 9223372036854775807 86400 => CHART <a.b> <b> <t> <u> <f> <c> Line 9223372036854775807 86400 false
CHART a.b '' t u f c line -9223372036854775808 -0 => CHART <a.b> <b> <t> <u> <f> <c> Line -9223372036854775808 0 false
CHART a.b '' t u f c line 1 1 'hidden,store_first' => CHART <a.b> <b> <t> <u> <f> <c> Line 1 1 true
CHART a.b '' t u f c line 1 1 \"obsolete\tstore_first\" plugin module => CHART <a.b> <b> <t> <u> <f> <c> Line 1 1 true
CHART a.b '' t u f c line 1 1 'store_first_,xstore_first' store_first => CHART <a.b> <b> <t> <u> <f> <c> Line 1 1 false
";

#[test]
fn reads_charts(rt: HostRuntime) -> Result<(), Fail> {
    assert_eq!(rt; check_rows(&rt, rt.alloc(), CHARTS)?, 15);
    Ok(())
}

const REFUSED_CHARTS: &str = "\
CHART => REFUSED 14
CHART x => REFUSED 14
CHART a.b '' t => REFUSED 14
CHART ab '' t u => REFUSED 14
CHART .b '' t u => REFUSED 14
CHART a. '' t u => REFUSED 14
CHART '' '' t u => REFUSED 14
CHART ab '' t u f c line x => REFUSED 14
CHART ab 'y => REFUSED 13
CHART a.b '' t u f c line 1 1 '' plugin 'module => REFUSED 13
CHART a.b '' t u f c line 9223372036854775808 => REFUSED 15
CHART a.b '' t u f c line -9223372036854775809 => REFUSED 15
CHART a.b '' t u f c line 1.0 => REFUSED 15
CHART a.b '' t u f c line 1 86401 => REFUSED 15
CHART a.b '' t u f c line 1 -1 => REFUSED 15
CHART a.b '' t u f c line 1 1s => REFUSED 15
";

#[test]
fn refuses_charts(rt: HostRuntime) -> Result<(), Fail> {
    assert_eq!(rt; check_rows(&rt, rt.alloc(), REFUSED_CHARTS)?, 16);
    Ok(())
}

const DIMENSIONS: &str = "\
DIMENSION a => DIMENSION <a> <a> Absolute 1 1 false false
DIMENSION run_time '' absolute 1 1000 => DIMENSION <run_time> <run_time> Absolute 1 1000 false false
DIMENSION a 'A b' incremental -8 2147483647 hidden => DIMENSION <a> <A b> Incremental -8 2147483647 true false
DIMENSION a b percentage-of-absolute-row 0 '' noreset => DIMENSION <a> <b> PercentageOfAbsoluteRow 1 1 false true
DIMENSION a b percentage-of-incremental-row -2147483647 -0 ',nooverflow,,hidden ' => DIMENSION <a> <b> PercentageOfIncrementalRow -2147483647 1 true true
DIMENSION 'a b' \"it's\" Incremental +1 001 'overflow,reset' => DIMENSION <a b> <it's> Absolute 1 1 false false
DIMENSION a b '' 1 1 hidden noreset => DIMENSION <a> <b> Absolute 1 1 true false
DIMENSION => REFUSED 14
DIMENSION '' => REFUSED 14
DIMENSION '' b absolute x => REFUSED 14
DIMENSION a b absolute 2147483648 => REFUSED 15
DIMENSION a b absolute 1 -2147483648 => REFUSED 15
DIMENSION a b absolute one \"x => REFUSED 13
";

#[test]
fn reads_dimensions(rt: HostRuntime) -> Result<(), Fail> {
    assert_eq!(rt; check_rows(&rt, rt.alloc(), DIMENSIONS)?, 13);
    Ok(())
}

const BLOCKS: &str = "\
BEGIN test.one => BEGIN <test.one>
BEGIN netdata.plugin_example 1000123 => BEGIN <netdata.plugin_example>
BEGIN a.b x => BEGIN <a.b>
BEGIN => REFUSED 14
BEGIN abc => REFUSED 14
BEGIN .abc => REFUSED 14
BEGIN a.b 'x => REFUSED 13
SET a = 42 => SET <a> Some(42) false
SET a=5 A => SET <a> Some(5) true
SET run_time = -2500 => SET <run_time> Some(-2500) false
SET run_time=1500.7 => SET <run_time> Some(1500) false
SET a = -1.9 a => SET <a> Some(-1) false
SET a = -0.9 => SET <a> Some(0) false
SET a = +9223372036854775807 => SET <a> Some(9223372036854775807) false
SET a = -9223372036854775808.5 => SET <a> Some(-9223372036854775808) false
SET a = 00000000000000000000012 => SET <a> Some(12) false
SET a => SET <a> None false
SET a = => SET <a> None false
SET a = '' A => SET <a> None true
SET = 5 => SET <5> None false
SET 'a b'5 => SET <a b> Some(5) false
SET a = 9223372036854775808 => REFUSED 15
SET a = -9223372036854775809 => REFUSED 15
SET a = 5. => REFUSED 15
SET a = .5 => REFUSED 15
SET a = 5.5.5 => REFUSED 15
SET a = 5.+5 => REFUSED 15
SET a = - => REFUSED 15
SET a = A => REFUSED 15
SET => REFUSED 14
SET '' = x => REFUSED 14
SET 'a => REFUSED 13
SET a = x 'y => REFUSED 13
";

#[test]
fn reads_blocks(rt: HostRuntime) -> Result<(), Fail> {
    assert_eq!(rt; check_rows(&rt, rt.alloc(), BLOCKS)?, 33);
    Ok(())
}

const OTHER_LINES: &str = "\
END => END
\"END\" 5 => END
FLUSH => FLUSH
DISABLE\r => DISABLE
END ' => REFUSED 13
MOMENT 60 => MOMENT 60
MOMENT +007 x => MOMENT 7
MOMENT 4294967295 => MOMENT 4294967295
MOMENT 4294967296 => REFUSED 15
MOMENT 0 => REFUSED 15
MOMENT -1 => REFUSED 15
MOMENT 1.0 => REFUSED 15
MOMENT => REFUSED 14
MOMENT '' => REFUSED 14
QUERY test.one 0 60 60 average => QUERY < test.one 0 60 60 average>
'QUERY'x=\"y\"  => QUERY <x=\"y\" >
QUERY => QUERY <>
QUERY a \"b => REFUSED 13
 => SKIPPED
 =  => SKIPPED
hello 'x => SKIPPED
'CHART a.b => SKIPPED
set a = 5 => SKIPPED
Chart x => SKIPPED
ENDS => SKIPPED
'' END => SKIPPED
CLABEL \"_collect_plugin\" \"example\" 1 => SKIPPED
CLABEL_COMMIT => SKIPPED
";

#[test]
fn reads_other_lines(rt: HostRuntime) -> Result<(), Fail> {
    assert_eq!(rt; check_rows(&rt, rt.alloc(), OTHER_LINES)?, 28);
    Ok(())
}

#[test]
fn refuses_what_is_not_text(rt: HostRuntime) {
    let lines = [
        b"SET a = \xff".as_slice(),
        b"SET 'a = \xff".as_slice(),
        b"hello \xff".as_slice(),
        b"\xc3".as_slice(),
        b"END \xed\xa0\x80".as_slice(),
    ];
    for line in lines {
        assert_eq!(rt; read_line(rt.alloc(), line).err(), Some(LineFault::NotText));
    }
}

// A line of `prefix`, a word of so many `a`, and `back`.
fn long_line(alloc: Global, prefix: &str, len: usize, back: &str) -> Result<String, AllocError> {
    let mut line = String::from_str(alloc, prefix)?;
    for _ in 0..len {
        line.push('a')?;
    }
    line.push_str(back)?;
    Ok(line)
}

#[test]
fn refuses_long_ids(rt: HostRuntime) -> Result<(), Fail> {
    let long = Some(LineFault::LongId);
    let missing = Some(LineFault::MissingWord);
    let rows = [
        ("CHART t.", 198, " n t u", None),
        ("CHART t.", 199, " n t u", long),
        ("CHART t.", 199, " n t u f c line x", long),
        ("CHART t.", 199, " n t", missing),
        ("CHART ", 201, " n t u", missing),
        ("DIMENSION ", 200, "", None),
        ("DIMENSION ", 201, " n absolute x", long),
        ("BEGIN t.", 198, "", None),
        ("BEGIN t.", 199, "", long),
        ("BEGIN ", 201, "", missing),
        ("SET ", 200, " = 5", None),
        ("SET ", 201, " = x", long),
        ("SET ", 201, "", long),
    ];
    for (prefix, len, back, want) in rows {
        let line = long_line(rt.alloc(), prefix, len, back)?;
        assert_eq!(rt;
            read_line(rt.alloc(), line.as_bytes()).err(),
            want,
            "at {prefix} {len}"
        );
    }
    Ok(())
}

#[test]
fn cuts_long_texts_at_a_character(rt: HostRuntime) -> Result<(), Fail> {
    // The bytes that are kept of so many `a` and two characters.
    let rows = [
        (196, "éé", 200),
        (197, "éé", 199),
        (199, "éé", 199),
        (200, "éé", 200),
        (300, "éé", 200),
        (197, "日本", 200),
        (198, "日本", 198),
    ];
    for (len, back, want) in rows {
        let line = long_line(rt.alloc(), "DIMENSION x ", len, back)?;
        match read_line(rt.alloc(), line.as_bytes())? {
            Line::Dimension(dimension) => assert_eq!(rt; dimension.name.len(), want, "at {len}"),
            line => assert!(rt; false, "{line:?}"),
        }
    }
    Ok(())
}
