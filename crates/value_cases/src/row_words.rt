//! The tests of `algorithms`: rows, and the words that their values give.

mod table;

use algorithms::{DimList, Last, LastList, ROW_LIMIT, WordList, row_points};
use fixed_num::{ListOf, Text};
use history::{Algorithm, DimDef, Value, ValueList};
use std::alloc::Global;
use std::process::Abort;
use std::test::Fail;
use storage_number::{Point, unpack};
use table::TABLE;

/// A value of 1 in ten-millionths.
const ONE: i128 = 10_000_000;

/// A row by its three lists.
#[derive(Drop)]
struct Row {
    last: LastList,
    now: ValueList,
    dims: DimList,
}

fn empty_row(alloc: Global) -> Row {
    Row {
        last: ListOf::new(alloc),
        now: ListOf::new(alloc),
        dims: ListOf::new(alloc),
    }
}

/// The points of a row whose lists are as long as each other.
fn points(
    alloc: Global,
    update_every: u32,
    store_first: bool,
    moment: u32,
    row: &Row,
) -> Result<WordList, Fail> {
    let (last, now, dims) = (&row.last, &row.now, &row.dims);
    if now.len() > ROW_LIMIT || last.len() != now.len() || dims.len() != now.len() {
        return Err(Fail::new("the lists differ in their lengths"));
    }
    let words = row_points(alloc, update_every, store_first, moment, last, now, dims)?;
    Ok(words)
}

fn dimension(alloc: Global, algorithm: Algorithm) -> Result<DimDef, Fail> {
    Ok(DimDef {
        id: Text::from_str(alloc, "a")?,
        name: Text::from_str(alloc, "a")?,
        algorithm,
        multiplier: 1,
        divisor: 1,
        hidden: false,
        noreset: false,
    })
}

fn add(
    alloc: Global,
    row: &mut Row,
    algorithm: Algorithm,
    last: Option<Last>,
    value: i64,
) -> Result<(), Fail> {
    row.last.push(last)?;
    row.now.push(Value {
        series: 0,
        value,
        anomalous: false,
    })?;
    row.dims.push(dimension(alloc, algorithm)?)?;
    Ok(())
}

/// What the word at a place of a list reads as.
fn point_at(words: &WordList, place: usize) -> Option<Point> {
    match words.as_slice().get(place) {
        Some(Some(word)) => unpack(*word),
        _ => None,
    }
}

fn point(units: i128, reset: bool) -> Option<Point> {
    Some(Point {
        units,
        anomalous: false,
        reset,
    })
}

/// The point of an incremental value alone.
fn incremental(
    alloc: Global,
    moment: u32,
    last: Option<Last>,
    value: i64,
) -> Result<Option<Point>, Fail> {
    let mut row = empty_row(alloc);
    add(alloc, &mut row, Algorithm::Incremental, last, value)?;
    let words = points(alloc, 1, false, moment, &row)?;
    Ok(point_at(&words, 0))
}

#[test]
fn incremental_values_rise_and_reset(rt: HostRuntime) -> Result<(), Fail> {
    let alloc = rt.alloc();
    assert_eq!(rt; incremental(alloc, 1, None, 100)?, None);
    let last = Some(Last {
        moment: 1,
        value: 100,
    });
    assert_eq!(rt; incremental(alloc, 2, last, 160)?, point(60 * ONE, false));
    let last = Some(Last {
        moment: 2,
        value: 160,
    });
    assert_eq!(rt; incremental(alloc, 3, last, 10)?, point(0, true));
    Ok(())
}

/// The points of two values in percent of their row.
fn shares(alloc: Global, first: i64, second: i64) -> Result<(Option<Point>, Option<Point>), Fail> {
    let algorithm = Algorithm::PercentageOfAbsoluteRow;
    let mut row = empty_row(alloc);
    add(alloc, &mut row, algorithm, None, first)?;
    add(alloc, &mut row, algorithm, None, second)?;
    let words = points(alloc, 1, false, 1, &row)?;
    Ok((point_at(&words, 0), point_at(&words, 1)))
}

#[test]
fn shares_are_in_percent(rt: HostRuntime) -> Result<(), Fail> {
    let (first, second) = shares(rt.alloc(), 1, 2)?;
    assert_eq!(rt; first, point(333_333_300, false));
    assert_eq!(rt; second, point(666_666_700, false));
    let (first, second) = shares(rt.alloc(), 0, 0)?;
    assert_eq!(rt; first, point(0, false));
    assert_eq!(rt; second, point(0, false));
    Ok(())
}

fn is_yes(word: &str) -> bool {
    word == "yes"
}

fn algorithm_in(word: &str) -> Result<Algorithm, Fail> {
    match word {
        "absolute" => Ok(Algorithm::Absolute),
        "incremental" => Ok(Algorithm::Incremental),
        "percentage-of-absolute-row" => Ok(Algorithm::PercentageOfAbsoluteRow),
        "percentage-of-incremental-row" => Ok(Algorithm::PercentageOfIncrementalRow),
        _ => Err(Fail::new("no algorithm")),
    }
}

fn last_in(moment: &str, value: &str) -> Result<Option<Last>, Fail> {
    if moment == "-" {
        return Ok(None);
    }
    Ok(Some(Last {
        moment: moment.parse::<u32>()?,
        value: value.parse::<i64>()?,
    }))
}

fn word_in(word: &str) -> Result<Option<u32>, Fail> {
    if word == "-" {
        return Ok(None);
    }
    Ok(Some(u32::from_str_radix(word, 16)?))
}

/// Adds the value of a line to a row, and gives the word that is wanted.
fn add_line(alloc: Global, row: &mut Row, line: &str) -> Result<Option<u32>, Fail> {
    let words = line.split_whitespace().collect::<Vec<&str>>(alloc)?;
    let [
        algorithm,
        value,
        anomalous,
        multiplier,
        divisor,
        hidden,
        noreset,
        moment,
        last,
        word,
    ] = words.as_slice()
    else {
        return Err(Fail::new("a line of another length"));
    };
    let mut dimension = dimension(alloc, algorithm_in(algorithm)?)?;
    dimension.multiplier = multiplier.parse::<i32>()?;
    dimension.divisor = divisor.parse::<i32>()?;
    dimension.hidden = is_yes(hidden);
    dimension.noreset = is_yes(noreset);
    row.last.push(last_in(moment, last)?)?;
    row.now.push(Value {
        series: 0,
        value: value.parse::<i64>()?,
        anomalous: is_yes(anomalous),
    })?;
    row.dims.push(dimension)?;
    word_in(word)
}

/// The points of a row by its first line.
fn points_by(alloc: Global, head: &str, row: &Row) -> Result<WordList, Fail> {
    let words = head.split_whitespace().collect::<Vec<&str>>(alloc)?;
    let [update_every, store_first, moment, ..] = words.as_slice() else {
        return Err(Fail::new("a short first line"));
    };
    let update_every = update_every.parse::<u32>()?;
    points(
        alloc,
        update_every,
        is_yes(store_first),
        moment.parse::<u32>()?,
        row,
    )
}

/// Asserts that the rows of a part of the table give the words that it says.
fn check_part(rt: &impl Abort, alloc: Global, part: &str) -> Result<(), Fail> {
    let mut lines = part.lines();
    let Some(head) = lines.next() else {
        return Err(Fail::new("an empty part"));
    };
    let mut row = empty_row(alloc);
    let mut want = Vec::new(alloc);
    for line in lines {
        want.push(add_line(alloc, &mut row, line)?)?;
    }
    let words = points_by(alloc, head, &row)?;
    assert_eq!(rt; words.as_slice(), want.as_slice(), "{part}");
    Ok(())
}

#[test]
fn rows_give_the_words_of_the_table(rt: HostRuntime) -> Result<(), Fail> {
    let mut count = 0u32;
    for part in TABLE.split("\n\n") {
        check_part(&rt, rt.alloc(), part)?;
        count = count.saturating_add(1);
    }
    assert!(rt; count >= 40);
    Ok(())
}
