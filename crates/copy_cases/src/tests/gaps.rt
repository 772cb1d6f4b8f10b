//! The gaps of a parent, read from its files by their formats written once more.

use host_model::{File, Host, MemoryHost};
use std::alloc::{AllocError, Global};
use std::test::Fail;

/// The moment above which a gap begins, and its last moment.
#[derive(Clone, Copy, Debug, PartialEq, Eq)]
pub struct Gap {
    pub above: u32,
    pub upto: u32,
}

/// How many bytes a checkpoint has before its body.
const CHECK_HEAD: usize = 17;

/// How many bytes a journal has before the gate of its first record.
const JOURNAL_HEAD: usize = 16;

/// The kind of the entry of a gap.
const GAP: u8 = 4;

/// More gaps than a parent has.
const MOST: u32 = 200;

/// The number in the four bytes at this place.
pub fn number_at(bytes: &[u8], place: usize) -> Option<u32> {
    match bytes.get(place..)? {
        [a, b, c, d, ..] => Some(u32::from_le_bytes([*a, *b, *c, *d])),
        _ => None,
    }
}

/// The gap whose two moments stand here.
fn gap_at(bytes: &[u8], place: usize) -> Option<Gap> {
    Some(Gap {
        above: number_at(bytes, place)?,
        upto: number_at(bytes, place.saturating_add(4))?,
    })
}

/// The number and the body of the checkpoint in a file, if that is open.
fn checkpoint_of(file: &[u8]) -> Option<(u32, &[u8])> {
    if *file.first()? != 1 {
        return None;
    }
    let number = number_at(file, 1)?;
    let size = number_at(file, 9)? as usize;
    Some((number, file.get(CHECK_HEAD..)?.get(..size)?))
}

/// The checkpoint that counts.
fn newest<'a>(first: &'a [u8], second: &'a [u8]) -> Option<(u32, &'a [u8])> {
    match (checkpoint_of(first), checkpoint_of(second)) {
        (Some(first), Some(second)) => Some(if first.0 < second.0 { second } else { first }),
        (Some(first), None) => Some(first),
        (None, second) => second,
    }
}

/// The gaps stand at the end of a body, behind their count. No gap here ends at so small a moment
/// that this is taken for their count.
fn list_of(body: &[u8]) -> Option<&[u8]> {
    for count in 0..MOST {
        let size = (count as usize).saturating_mul(8);
        let place = body.len().checked_sub(size.saturating_add(4))?;
        if number_at(body, place) == Some(count) {
            return body.get(place.saturating_add(4)..);
        }
    }
    None
}

/// Adds the gaps of a checkpoint.
fn add_list(gaps: &mut Vec<Gap>, list: &[u8]) -> Result<(), AllocError> {
    for item in list.chunks(8) {
        if let Some(gap) = gap_at(item, 0) {
            gaps.push(gap)?;
        }
    }
    Ok(())
}

/// The gap that a record notes, if it does. The note stands behind the moment, the points of 12
/// bytes each and its own length, and the moments behind its kind and the child.
fn noted_in(record: &[u8]) -> Option<Gap> {
    let points = number_at(record, 4)? as usize;
    let note = record.get(points.saturating_mul(12).saturating_add(12)..)?;
    if *note.first()? != GAP {
        return None;
    }
    gap_at(note, 9)
}

/// The record behind the gate that stands here, and what follows it. None where the gate is shut.
fn next_of(bytes: &[u8]) -> Option<(&[u8], &[u8])> {
    if *bytes.first()? != 1 {
        return None;
    }
    let size = number_at(bytes, 1)? as usize;
    let behind = bytes.get(5..)?;
    Some((behind.get(..size)?, behind.get(size..)?))
}

/// Adds the gaps of a journal.
fn add_noted(gaps: &mut Vec<Gap>, journal: &[u8]) -> Result<(), AllocError> {
    let mut rest = journal.get(JOURNAL_HEAD..).unwrap_or(&[]);
    for _ in 0..journal.len() {
        let Some((record, behind)) = next_of(rest) else {
            break;
        };
        if let Some(gap) = noted_in(record) {
            gaps.push(gap)?;
        }
        rest = behind;
    }
    Ok(())
}

fn bytes_in(alloc: Global, host: &mut MemoryHost, file: File) -> Result<Vec<u8>, Fail> {
    let size = host.len(file)? as usize;
    let mut bytes = vec![in alloc; 0; size]?;
    if host.read(file, 0, bytes.as_mut_slice())? != size {
        return Err(Fail::new("a file ends too early"));
    }
    Ok(bytes)
}

/// The gaps that a parent's checkpoint keeps, and behind them those since.
pub fn gaps_of(alloc: Global, parent: &mut MemoryHost) -> Result<Vec<Gap>, Fail> {
    let first = bytes_in(alloc, parent, File::CheckA)?;
    let second = bytes_in(alloc, parent, File::CheckB)?;
    let Some((number, body)) = newest(first.as_slice(), second.as_slice()) else {
        return Err(Fail::new("no checkpoint"));
    };
    let Some(list) = list_of(body) else {
        return Err(Fail::new("no gaps"));
    };
    let mut gaps = Vec::new(alloc);
    add_list(&mut gaps, list)?;
    let journal = if number % 2 == 0 {
        File::JournalA
    } else {
        File::JournalB
    };
    let journal = bytes_in(alloc, parent, journal)?;
    add_noted(&mut gaps, journal.as_slice())?;
    Ok(gaps)
}
