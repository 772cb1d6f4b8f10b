//! Random children: what each writes is handed to the rules of collectors line by line as it is
//! drawn.

use super::draws::Draws;
use super::plain::{Plain, Said};
use std::alloc::AllocError;

/// A line and what it says.
type Row = (&'static str, Said);

const B: &str = "a.b";

const C: &str = "a.c";

/// The charts, whose update_every divides each other one.
static DEFINITIONS: [Row; 4] = [
    ("CHART a.b n t u f c line 1 1", Said::Other),
    ("DIMENSION d", Said::Other),
    ("CHART a.c n t u f c line 1 1", Said::Other),
    ("DIMENSION d", Said::Other),
];

/// Blocks, and lines that may stand between them.
static USUAL: [&[Row]; 16] = [
    &[
        ("BEGIN a.b", Said::Begin(B)),
        ("SET d = 1", Said::Other),
        ("END", Said::End),
    ],
    &[
        ("BEGIN a.c", Said::Begin(C)),
        ("SET d = 2", Said::Other),
        ("END", Said::End),
    ],
    &[
        ("BEGIN a.b 1000123", Said::Begin(B)),
        ("SET d=-7.5", Said::Other),
        ("END", Said::End),
    ],
    &[
        ("\tBEGIN 'a.c'\r", Said::Begin(C)),
        ("SET 'd' 3 A", Said::Other),
        (" END now", Said::End),
    ],
    &[
        ("BEGIN=a.b", Said::Begin(B)),
        ("", Said::Other),
        ("END", Said::End),
    ],
    &[
        ("BEGIN \"a.c\"", Said::Begin(C)),
        ("SET d =", Said::Other),
        ("END", Said::End),
    ],
    &[
        ("BEGIN a.b", Said::Begin(B)),
        ("SET d = 4", Said::Other),
        ("FLUSH", Said::Flush),
    ],
    &[("BEGIN a.c", Said::Begin(C)), ("FLUSH it", Said::Flush)],
    &[("FLUSH", Said::Flush)],
    &[("", Said::Other)],
    &[
        ("BEGIN2 a.b", Said::Other),
        ("SET2 d = 9", Said::Other),
        ("END2", Said::Other),
    ],
    &[("begin a.b", Said::Other), ("'BEGIN a.b", Said::Other)],
    &[("'BEGIN' a.b", Said::Begin(B)), ("'END'", Said::End)],
    &[
        ("CHART a.b n t u f c line 1 1", Said::Other),
        ("DIMENSION e", Said::Other),
    ],
    &[("QUERY a.b 1000 1010 5 count", Said::Other)],
    &[("QUERY a.c", Said::Other)],
];

/// Lines that a text is refused at in most places, and DISABLE.
static ODD: [&[Row]; 20] = [
    &[("BEGIN a.b", Said::Begin(B))],
    &[("BEGIN a.c", Said::Begin(C)), ("SET d = 5", Said::Other)],
    &[("END", Said::End)],
    &[("SET d = 6", Said::Other)],
    &[("BEGIN", Said::Other)],
    &[("BEGIN ''", Said::Other)],
    &[("BEGIN 'a.b", Said::Other)],
    &[("END 'a.b", Said::Other)],
    &[
        ("BEGIN no.chart", Said::Begin("no.chart")),
        ("END", Said::End),
    ],
    &[("BEGIN ab", Said::Other)],
    &[("CHART a.b", Said::Other)],
    &[("MOMENT", Said::Other)],
    &[("MOMENT 0", Said::Other)],
    &[("MOMENT -1", Said::Other)],
    &[("MOMENT 4294967295", Said::Moment(4_294_967_295))],
    &[("MOMENT 4294967296", Said::Other)],
    &[("DISABLE", Said::Disable)],
    &[(" DISABLE it", Said::Disable)],
    &[("DISABLE 'it", Said::Other)],
    &[("DISABLED", Said::Other)],
];

/// What a child may write behind its last line feed.
static RESTS: [&str; 5] = ["BEG", "END", "BEGIN a.b", "DISABLE", "MOMENT 4000000000"];

/// A line and its line feed.
fn write_line(
    bytes: &mut Vec<u8>,
    plain: &mut Plain,
    line: &[u8],
    said: Said,
) -> Result<(), AllocError> {
    bytes.extend_from_slice(line)?;
    bytes.push(b'\n')?;
    plain.line(line, said)
}

fn write_lines(bytes: &mut Vec<u8>, plain: &mut Plain, lines: &[Row]) -> Result<(), AllocError> {
    for (line, said) in lines {
        write_line(bytes, plain, line.as_bytes(), *said)?;
    }
    Ok(())
}

/// A line that is filled up to as many bytes as a line may have, or one more.
fn write_long(draws: &mut Draws, bytes: &mut Vec<u8>, plain: &mut Plain) -> Result<(), AllocError> {
    let (prefix, said): (&[u8], Said) = if draws.is_rare(2) {
        (b"BEGIN a.b ", Said::Begin(B))
    } else {
        (b"# ", Said::Other)
    };
    let mut line = Vec::from_slice(plain.alloc, prefix)?;
    let count = if draws.is_rare(2) { 8_193 } else { 8_192 };
    line.resize(count, b'x')?;
    write_line(bytes, plain, line.as_slice(), said)
}

/// A moment of the child, which may be none above the last.
fn write_moment(
    draws: &mut Draws,
    bytes: &mut Vec<u8>,
    plain: &mut Plain,
) -> Result<(), AllocError> {
    let moment = plain.last.saturating_add(draws.below(6));
    let line = format!(in plain.alloc; "MOMENT {moment}")?;
    let said = if moment <= 4_294_967_295 {
        Said::Moment(moment)
    } else {
        Said::Other
    };
    write_line(bytes, plain, line.as_bytes(), said)
}

/// A line that is no text.
fn write_bytes(bytes: &mut Vec<u8>, plain: &mut Plain) -> Result<(), AllocError> {
    write_line(bytes, plain, b"BEGIN a.b \xff", Said::Other)
}

fn any_of(draws: &mut Draws, table: &'static [&'static [Row]]) -> &'static [Row] {
    let place = draws.below(table.len() as u64) as usize;
    table.get(place).copied().unwrap_or(&DEFINITIONS)
}

/// A block, or what else may stand between two.
fn write_some(draws: &mut Draws, bytes: &mut Vec<u8>, plain: &mut Plain) -> Result<(), AllocError> {
    match draws.below(256) {
        0 | 1 => write_long(draws, bytes, plain),
        2..=9 => write_moment(draws, bytes, plain),
        10 => write_bytes(bytes, plain),
        11..=15 => write_lines(bytes, plain, any_of(draws, &ODD)),
        16 => write_lines(bytes, plain, &[("DISABLE", Said::Disable)]),
        _ => write_lines(bytes, plain, any_of(draws, &USUAL)),
    }
}

/// What a child writes up to its last line feed: mostly the definitions, and up to 20 blocks.
fn write_child(
    draws: &mut Draws,
    bytes: &mut Vec<u8>,
    plain: &mut Plain,
) -> Result<(), AllocError> {
    if !draws.is_rare(16) {
        write_lines(bytes, plain, &DEFINITIONS)?;
    }
    for _ in 0..draws.below(20) {
        write_some(draws, bytes, plain)?;
    }
    // The last block may stay open.
    if draws.is_rare(4) {
        write_lines(
            bytes,
            plain,
            &[("BEGIN a.b", Said::Begin(B)), ("SET d = 8", Said::Other)],
        )?;
    }
    Ok(())
}

fn write_bytes_behind(
    bytes: &mut Vec<u8>,
    plain: &mut Plain,
    rest: &[u8],
) -> Result<(), AllocError> {
    bytes.extend_from_slice(rest)?;
    plain.rest(rest)
}

/// Bytes without a line feed, which may be as many as a line may have, or one more.
fn write_rest(draws: &mut Draws, bytes: &mut Vec<u8>, plain: &mut Plain) -> Result<(), AllocError> {
    let place = draws.below(12) as usize;
    if let Some(rest) = RESTS.get(place) {
        return write_bytes_behind(bytes, plain, rest.as_bytes());
    }
    if !draws.is_rare(16) {
        return Ok(());
    }
    let count = if draws.is_rare(2) { 8_193 } else { 8_192 };
    let rest = vec![in plain.alloc; b'y'; count]?;
    write_bytes_behind(bytes, plain, rest.as_slice())
}

fn draw_status(draws: &mut Draws) -> i32 {
    match draws.below(16) {
        0 => 3,
        1 => -1,
        _ => 0,
    }
}

/// A child is started, writes and ends. Its bytes are put behind `bytes`.
pub fn draw_child(
    draws: &mut Draws,
    bytes: &mut Vec<u8>,
    plain: &mut Plain,
) -> Result<i32, AllocError> {
    plain.start();
    write_child(draws, bytes, plain)?;
    write_rest(draws, bytes, plain)?;
    let status = draw_status(draws);
    plain.end(status)?;
    Ok(status)
}

/// A reading of a clock that jumps: mostly the next one is near, and now and then it is 0 or far
/// too late.
fn draw_reading(draws: &mut Draws, before: u64) -> u64 {
    match draws.below(64) {
        0 => 0,
        1 => 4_294_967_290,
        2 => u64::MAX,
        3..=10 => draws.below(2_000),
        _ => before.saturating_add(draws.below(4)).min(4_000),
    }
}

pub fn draw_readings(draws: &mut Draws, readings: &mut Vec<u64>) -> Result<(), AllocError> {
    let mut reading = 1_000;
    for _ in 0..draws.below(40) {
        reading = draw_reading(draws, reading);
        readings.push(reading)?;
    }
    Ok(())
}
