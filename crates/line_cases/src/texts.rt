//! How whole texts end: each refusal, and which of two goes first.

use crate::registries::define;
use chart_registry::Registry;
use collect_block::{BlockFault, Feed, Line, OpenBeat, Step};
use plugin_text::read_line;
use std::alloc::Global;
use std::test::Fail;

/// Texts, how many beats and questions they give, and how they end.
static TEXTS: [(&str, usize, &str); 56] = [
    ("", 0, "Ended"),
    (
        "CHART a.b n t u\nDIMENSION x\nBEGIN a.b\nSET x = 42\nEND\nMOMENT 60\n",
        1,
        "Ended",
    ),
    // Lines that say nothing, and questions, may stand anywhere.
    ("hello\n\nQUERY a.b 0 60 60 sum\n", 1, "Ended"),
    (
        "CHART a.b n t u\nDIMENSION x\nBEGIN a.b\nQUERY\nCLABEL a b\nSET x = 1\nEND\nMOMENT 1\n",
        2,
        "Ended",
    ),
    // A beat may be empty.
    ("MOMENT 1\nMOMENT 2\n", 2, "Ended"),
    // Unfinished texts name the last whole line.
    ("CHART a.b n t u\n", 0, "Refused(1, Unfinished)"),
    (
        "CHART a.b n t u\nMOMENT 1\nDIMENSION x\n",
        1,
        "Refused(3, Unfinished)",
    ),
    (
        "CHART a.b n t u\nDIMENSION x\nMOMENT 1\nBEGIN a.b\n",
        1,
        "Refused(4, Unfinished)",
    ),
    (
        "CHART a.b n t u\nMOMENT 1\nBEGIN a.b\nEND\n",
        1,
        "Refused(4, Unfinished)",
    ),
    ("BEG", 0, "Refused(0, Unfinished)"),
    ("MOMENT 1\n ", 1, "Refused(1, Unfinished)"),
    ("MOMENT 1\nBEGIN a.b", 1, "Refused(1, Unfinished)"),
    // A dropped block leaves nothing behind.
    ("CHART a.b n t u\nMOMENT 1\nBEGIN a.b\nFLUSH\n", 1, "Ended"),
    ("FLUSH\n", 0, "Ended"),
    // DISABLE ends a text wherever it stands, and drops the open beat.
    ("DISABLE\n", 0, "Disabled"),
    (
        "CHART a.b n t u\nBEGIN a.b\nDISABLE\nEND\nMOMENT 1\n",
        0,
        "Disabled",
    ),
    ("MOMENT 5\nDISABLE\nMOMENT 5\n", 1, "Disabled"),
    // No chart.
    ("DIMENSION x\n", 0, "Refused(1, NoChart)"),
    ("BEGIN a.b\n", 0, "Refused(1, NoChart)"),
    ("CHART a.b n t u\nBEGIN a.c\n", 0, "Refused(2, NoChart)"),
    // The chart of a dimension is that of the last CHART line, also in a later beat.
    (
        "CHART a.b n t u\nMOMENT 1\nDIMENSION x\nBEGIN a.b\nSET x = 1\nEND\nMOMENT 2\n",
        2,
        "Ended",
    ),
    // No dimension: it belongs to the other chart.
    (
        "CHART a.b n t u\nDIMENSION x\nCHART a.c n t u\nBEGIN a.c\nSET x = 1\n",
        0,
        "Refused(5, NoDimension)",
    ),
    (
        "CHART a.b n t u\nCHART a.c n t u\nMOMENT 1\nBEGIN a.b\nEND\nDIMENSION x\nBEGIN a.c\nSET x = 1\nEND\nMOMENT 2\n",
        2,
        "Ended",
    ),
    (
        "CHART a.b n t u\nBEGIN a.b\nSET x =\n",
        0,
        "Refused(3, NoDimension)",
    ),
    // No block.
    ("END\n", 0, "Refused(1, NoBlock)"),
    ("SET x = 1\n", 0, "Refused(1, NoBlock)"),
    (
        "CHART a.b n t u\nDIMENSION x\nBEGIN a.b\nFLUSH\nSET x = 1\n",
        0,
        "Refused(5, NoBlock)",
    ),
    (
        "CHART a.b n t u\nBEGIN a.b\nEND\nEND\n",
        0,
        "Refused(4, NoBlock)",
    ),
    // An open block goes before every other refusal.
    (
        "CHART a.b n t u\nBEGIN a.b\nBEGIN a.b\n",
        0,
        "Refused(3, OpenBlock)",
    ),
    (
        "CHART a.b n t u\nBEGIN a.b\nBEGIN a.c\n",
        0,
        "Refused(3, OpenBlock)",
    ),
    (
        "CHART a.b n t u\nBEGIN a.b\nDIMENSION x\n",
        0,
        "Refused(3, OpenBlock)",
    ),
    (
        "CHART a.b n t u\nBEGIN a.b\nCHART a.b n t u f c line 1000 7\n",
        0,
        "Refused(3, OpenBlock)",
    ),
    (
        "MOMENT 9\nCHART a.b n t u\nBEGIN a.b\nMOMENT 9\n",
        1,
        "Refused(4, OpenBlock)",
    ),
    // A second block in a beat, also where the first is empty, or a later one was dropped.
    (
        "CHART a.b n t u\nBEGIN a.b\nEND\nBEGIN a.b\n",
        0,
        "Refused(4, SecondBlock)",
    ),
    (
        "CHART a.b n t u\nBEGIN a.b\nEND\nFLUSH\nBEGIN a.b\n",
        0,
        "Refused(5, SecondBlock)",
    ),
    (
        "CHART a.b n t u\nBEGIN a.b\nFLUSH\nBEGIN a.b\nEND\nMOMENT 1\n",
        1,
        "Ended",
    ),
    (
        "CHART a.b n t u\nBEGIN a.b\nEND\nMOMENT 1\nBEGIN a.b\nEND\nMOMENT 2\n",
        2,
        "Ended",
    ),
    // The grid: charts with a row alone.
    (
        "CHART t.c '' T u f c line 1000 5\nDIMENSION a\nBEGIN t.c\nSET a = 1\nEND\nMOMENT 5\nBEGIN t.c\nSET a = 2\nEND\nMOMENT 7\n",
        1,
        "Refused(10, OffGrid)",
    ),
    (
        "CHART t.c '' T u f c line 1000 5\nMOMENT 5\nMOMENT 7\n",
        2,
        "Ended",
    ),
    (
        "CHART t.c '' T u f c line 1000 5\nBEGIN t.c\nEND\nMOMENT 7\n",
        0,
        "Refused(4, OffGrid)",
    ),
    (
        "CHART t.c '' T u f c line 1000 5\nCHART t.d '' T u f c line 1000 7\nBEGIN t.c\nEND\nBEGIN t.d\nEND\nMOMENT 35\nBEGIN t.d\nEND\nMOMENT 42\n",
        2,
        "Ended",
    ),
    // Moments rise, and that goes before the grid.
    ("MOMENT 60\nMOMENT 60\n", 1, "Refused(2, MomentOrder(60))"),
    ("MOMENT 60\nMOMENT 59\n", 1, "Refused(2, MomentOrder(60))"),
    (
        "MOMENT 5\nCHART t.c '' T u f c line 1000 5\nBEGIN t.c\nEND\nMOMENT 4\n",
        1,
        "Refused(5, MomentOrder(5))",
    ),
    ("MOMENT 4294967295\n", 1, "Ended"),
    // A chart keeps its update_every: in its beat, in the next, and where the line leaves it open.
    (
        "CHART a.b n t u f c line 1 5\nCHART a.b n t u f c line 1 5\nMOMENT 1\n",
        1,
        "Ended",
    ),
    (
        "CHART a.b n t u f c line 1 5\nCHART a.b n t u f c line 1 6\n",
        0,
        "Refused(2, GridChanged)",
    ),
    (
        "CHART a.b n t u f c line 1 5\nMOMENT 1\nCHART a.b n t u f c line 1 6\n",
        1,
        "Refused(3, GridChanged)",
    ),
    (
        "CHART a.b n t u f c line 1 5\nMOMENT 1\nCHART a.b n t u\n",
        1,
        "Refused(3, GridChanged)",
    ),
    (
        "CHART a.b n t u\nMOMENT 1\nCHART a.b n t u f c line 1 0\nCHART a.b n t u f c line 1 1\nMOMENT 2\n",
        2,
        "Ended",
    ),
    // A definition that is repeated replaces, and is no second thing.
    (
        "CHART a.b n t u\nDIMENSION x\nDIMENSION x y incremental 5 7\nMOMENT 1\nCHART a.b m t u\nDIMENSION x\nMOMENT 2\n",
        2,
        "Ended",
    ),
    // A value that is set to nothing, and set again.
    (
        "CHART a.b n t u\nDIMENSION x\nBEGIN a.b\nSET x = 1\nSET x =\nSET x = 2\nEND\nMOMENT 1\n",
        1,
        "Ended",
    ),
    // What comes first in the text is named.
    ("END\nMOMENT 1\nEND\n", 0, "Refused(1, NoBlock)"),
    (
        "MOMENT 1\nMOMENT 1\nDISABLE\n",
        1,
        "Refused(2, MomentOrder(1))",
    ),
    ("DISABLE\nBEG", 0, "Disabled"),
    ("QUERY\nQUERY\nEND\n", 2, "Refused(3, NoBlock)"),
];

/// How a text ends.
#[derive(Debug, Drop)]
enum End {
    Ended,
    Disabled,
    /// The line with this number, from 1, is refused; `Unfinished` names the last line.
    Refused(usize, BlockFault),
}

/// What is kept of a text while its lines are taken.
#[derive(Drop)]
struct Reading {
    feed: Feed,
    registry: Registry,
    last: u32,
    // How many beats and questions the lines gave.
    items: usize,
}

impl Reading {
    fn new(alloc: Global) -> Reading {
        Reading {
            feed: Feed::new(alloc, 1),
            registry: Registry::new(alloc),
            last: 0,
            items: 0,
        }
    }

    // Takes lines up to the one that ends the text, if one does.
    fn take_lines(&mut self, lines: &[Line]) -> Result<Option<End>, Fail> {
        for at in 0..lines.len() {
            if let Some(end) = self.take(at + 1, &lines[at])? {
                return Ok(Some(end));
            }
        }
        Ok(None)
    }

    // Takes the line with this number, or says how it ends the text.
    fn take(&mut self, number: usize, line: &Line) -> Result<Option<End>, Fail> {
        match self.feed.line(&self.registry, self.last, false, line) {
            Ok(step) => self.take_step(step),
            Err(BlockFault::Memory) => Err(Fail::from("out of memory")),
            Err(fault) => Ok(Some(End::Refused(number, fault))),
        }
    }

    // Takes what a line led to.
    fn take_step(&mut self, step: Step) -> Result<Option<End>, Fail> {
        match step {
            Step::Nothing => Ok(None),
            Step::Disabled => Ok(Some(End::Disabled)),
            Step::Query(_) => {
                self.items = self.items.saturating_add(1);
                Ok(None)
            }
            Step::Beat(beat, moment) => {
                self.close(&beat, moment)?;
                Ok(None)
            }
        }
    }

    // Takes a beat that a MOMENT closed.
    fn close(&mut self, beat: &OpenBeat, moment: u32) -> Result<(), Fail> {
        define(&mut self.registry, beat)?;
        self.last = moment;
        self.items = self.items.saturating_add(1);
        Ok(())
    }

    // How the text ends after so many lines, with these bytes behind the last line feed.
    fn end(&self, lines: usize, rest: &[u8]) -> End {
        match self.feed.end(rest) {
            Ok(()) => End::Ended,
            Err(fault) => End::Refused(lines, fault),
        }
    }
}

// The whole lines of a text.
fn lines_of(alloc: Global, text: &str) -> Result<Vec<Line>, Fail> {
    let mut lines = Vec::new(alloc);
    for part in text.split_inclusive('\n') {
        if let Some(line) = part.strip_suffix('\n') {
            lines.push(read_line(alloc, line.as_bytes())?)?;
        }
    }
    Ok(lines)
}

// What follows the last line feed of a text.
fn rest_of(text: &str) -> &[u8] {
    match text.rsplit('\n').next() {
        Some(rest) => rest.as_bytes(),
        None => b"",
    }
}

// How a text of these whole lines ends.
fn end_of(reading: &mut Reading, lines: &[Line], rest: &[u8]) -> Result<End, Fail> {
    match reading.take_lines(lines)? {
        Some(end) => Ok(end),
        None => Ok(reading.end(lines.len(), rest)),
    }
}

// How many items a text gives, and how it ends.
fn ending(alloc: Global, text: &str) -> Result<(usize, End), Fail> {
    let lines = lines_of(alloc, text)?;
    let mut reading = Reading::new(alloc);
    let end = end_of(&mut reading, lines.as_slice(), rest_of(text))?;
    Ok((reading.items, end))
}

// Whether a text gives so many items, and ends so.
fn ends_so(alloc: Global, text: &str, items: usize, end: &str) -> Result<bool, Fail> {
    let (got, how) = ending(alloc, text)?;
    let how = format!(in alloc; "{how:?}")?;
    Ok(got == items && how.as_str() == end)
}

#[test]
fn texts_end_where_they_should(rt: HostRuntime) -> Result<(), Fail> {
    for (text, items, end) in TEXTS.iter() {
        assert!(rt; ends_so(rt.alloc(), text, *items, end)?, "{text}");
    }
    Ok(())
}

// The refusal of a line, or none.
fn refusal(
    alloc: Global,
    feed: &mut Feed,
    registry: &Registry,
    line: &str,
) -> Result<Option<BlockFault>, Fail> {
    let line = read_line(alloc, line.as_bytes())?;
    Ok(feed.line(registry, 0, false, &line).err())
}

// Gives a feed lines that end in each number below a count: whether no line was refused.
fn take_numbered(
    alloc: Global,
    feed: &mut Feed,
    registry: &Registry,
    prefix: &str,
    back: &str,
    count: u32,
) -> Result<bool, Fail> {
    let mut taken = true;
    for n in 0..count {
        let line = format!(in alloc; "{prefix}{n}{back}")?;
        taken = refusal(alloc, feed, registry, line.as_str())?.is_none() && taken;
    }
    Ok(taken)
}

// Gives a feed a chart with so many dimensions, and a block that sets each: whether no line was refused.
fn take_chart(
    alloc: Global,
    feed: &mut Feed,
    registry: &Registry,
    chart: u32,
    dimensions: u32,
) -> Result<bool, Fail> {
    let line = format!(in alloc; "CHART chart.{chart} n t u")?;
    let mut taken = refusal(alloc, feed, registry, line.as_str())?.is_none();
    taken = take_numbered(alloc, feed, registry, "DIMENSION ", "", dimensions)? && taken;
    let line = format!(in alloc; "BEGIN chart.{chart}")?;
    taken = refusal(alloc, feed, registry, line.as_str())?.is_none() && taken;
    taken = take_numbered(alloc, feed, registry, "SET ", " = 7", dimensions)? && taken;
    Ok(refusal(alloc, feed, registry, "END")?.is_none() && taken)
}

// Gives a feed so many such charts.
fn take_charts(
    alloc: Global,
    feed: &mut Feed,
    registry: &Registry,
    charts: u32,
    dimensions: u32,
) -> Result<bool, Fail> {
    let mut taken = true;
    for chart in 0..charts {
        taken = take_chart(alloc, feed, registry, chart, dimensions)? && taken;
    }
    Ok(taken)
}

// A line, and how it is refused.
type Refusal = (&'static str, Option<BlockFault>);

// The first of these lines that is not refused as it should be.
fn first_wrong(
    alloc: Global,
    feed: &mut Feed,
    registry: &Registry,
    lines: &[Refusal],
) -> Result<Option<&'static str>, Fail> {
    for (line, want) in lines {
        if refusal(alloc, feed, registry, line)? != *want {
            return Ok(Some(*line));
        }
    }
    Ok(None)
}

// Whether so many charts are taken, each with so many dimensions, and behind them these lines are
// refused as they should be.
fn is_full_after(
    alloc: Global,
    feed: &mut Feed,
    charts: u32,
    dimensions: u32,
    behind: &[Refusal],
) -> Result<bool, Fail> {
    let registry = Registry::new(alloc);
    let taken = take_charts(alloc, feed, &registry, charts, dimensions)?;
    let wrong = first_wrong(alloc, feed, &registry, behind)?;
    Ok(taken && wrong.is_none())
}

static BEHIND_1024_DIMENSIONS: [Refusal; 4] = [
    ("DIMENSION 1024", Some(BlockFault::TooManyDimensions)),
    ("DIMENSION 1023", None),
    ("CHART chart.63 n t u", None),
    ("DIMENSION 1024", None),
];

#[test]
fn a_chart_takes_1024_dimensions(rt: HostRuntime) -> Result<(), Fail> {
    let mut feed = Feed::new(rt.alloc(), 1);
    let is_full = is_full_after(rt.alloc(), &mut feed, 63, 1_024, &BEHIND_1024_DIMENSIONS)?;
    assert!(rt; is_full);
    Ok(())
}

static BEHIND_THE_WIDEST_BEAT: [Refusal; 6] = [
    ("CHART chart.4096 n t u", Some(BlockFault::TooManyCharts)),
    ("CHART chart.4095 n t u", None),
    ("DIMENSION 15", None),
    ("DIMENSION 16", Some(BlockFault::TooManyDimensions)),
    ("BEGIN chart.4095", Some(BlockFault::SecondBlock)),
    ("MOMENT 1", None),
];

#[test]
fn the_widest_beat_is_taken_and_no_more(rt: HostRuntime) -> Result<(), Fail> {
    let mut feed = Feed::new(rt.alloc(), 1);
    let is_full = is_full_after(rt.alloc(), &mut feed, 4_096, 16, &BEHIND_THE_WIDEST_BEAT)?;
    assert!(rt; is_full);
    Ok(())
}
