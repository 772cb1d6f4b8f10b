//! How far a command may have come, by what its first beats leave where nothing fails.

use crate::files::Files;
use crate::found::Found;
use crate::runs::{Step, run_over};
use std::alloc::{AllocError, Global};
use std::test::Fail;

/// A part of a command's beats.
#[derive(Drop)]
pub struct Left {
    /// What is told of them.
    pub told: String,
    /// What is found behind them.
    pub found: Found,
}

/// The first of the parts behind which this is found.
pub fn found_among(lefts: &[Left], found: &Found) -> Option<usize> {
    for (beats, left) in lefts.iter().enumerate() {
        if left.found.is(found) {
            return Some(beats);
        }
    }
    None
}

/// The first of the parts of which this is told.
pub fn told_among(lefts: &[Left], told: &str) -> Option<usize> {
    for (beats, left) in lefts.iter().enumerate() {
        if left.told.as_str() == told {
            return Some(beats);
        }
    }
    None
}

/// The text up to the end of its beat with this number. All of it where it has fewer.
pub fn first_beats(alloc: Global, text: &str, beats: usize) -> Result<String, AllocError> {
    let mut first = String::new(alloc);
    let mut ahead = beats;
    for line in text.split_inclusive('\n') {
        if ahead > 0 {
            first.push_str(line)?;
        }
        if line.starts_with("MOMENT ") {
            ahead = ahead.saturating_sub(1);
        }
    }
    Ok(first)
}

/// What so many of a command's beats leave.
fn left_by(
    alloc: Global,
    files: &Files,
    step: &Step,
    beats: usize,
    text: &str,
) -> Result<Left, Fail> {
    let mut host = files.host(alloc)?;
    let mut told = String::new(alloc);
    if beats > 0 {
        let input = first_beats(alloc, step.1, beats)?;
        told = run_over(alloc, &mut host, step.0, input.as_bytes())?.told;
    }
    let found = Found::by(alloc, &mut host, text)?;
    Ok(Left { told, found })
}

/// What none of a command's beats leave, its first, and so on to so many.
pub fn lefts_of(
    alloc: Global,
    files: &Files,
    step: &Step,
    beats: usize,
    text: &str,
) -> Result<Vec<Left>, Fail> {
    let mut lefts = Vec::new(alloc);
    for beats in 0..beats.saturating_add(1) {
        lefts.push(left_by(alloc, files, step, beats, text)?)?;
    }
    Ok(lefts)
}
