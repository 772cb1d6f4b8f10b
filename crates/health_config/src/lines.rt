//! A text, cut into lines.
ghost use Rattle.std.specs.Prelude.{◌≡◌, ◌<◌, ◌≤◌, ◌+◌, ◌∷◌, ◌++◌, [], length, position, IfOk, OnOk, MatchOption};
ghost use Rattle.health_config.specs.Lines as spec;
ghost use Rattle.health_config.specs.declared.config.TheConstants.{TEXT_LIMIT};

use fixed_num::{ByteList, ListOf};
use std::alloc::{AllocError, Global};
use std::mem;

/// A line with those that it goes on in.
#[derive(Debug, Drop)]
pub struct Line {
    /// The number of the first of them, from 1.
    pub number: u64,
    pub text: ByteList,
}

pub type LineList = ListOf<Line>;

/// Where the first line feed of a text stands.
fn line_feed_place(text: &[u8]) -> Option<usize>
    ensures { result ≡ position spec.is_line_feed text.now }
{
    text.iter().position(|byte| *byte == b'\n')
}

/// What stands before the first line feed, and what stands behind it.
fn split_at_line_feed(text: &[u8]) -> Option<(&[u8], &[u8])>
    ensures parts { MatchOption result (spec.parts text.now ≡ text.now ∷ [])
        (λ halves. spec.parts text.now ≡ halves.0.now ∷ spec.parts halves.1.now) }
    ensures shorter { MatchOption result (0 ≤ length text.now)
        (λ halves. length halves.1.now < length text.now) }
{
    let place = line_feed_place(text)?;
    Some((&text[..place], &text[place + 1..]))
}

/// Whether a part ends with a `\`, and so goes on with the next.
fn goes_on(part: &[u8]) -> bool
    ensures { result ≡ spec.goes_on part.now }
{
    !part.is_empty() && part[part.len() - 1] == b'\\'
}

/// Adds what a part says to a text, with a blank for the `\` at its end.
fn add_part(text: &mut ByteList, part: &[u8]) -> Result<(), AllocError>
    ensures { OnOk result (text.new ≡ text.old ++ spec.said part.now) }
{
    if goes_on(part) {
        text.extend(&part[..part.len() - 1])?;
        text.extend(b" ".as_slice())
    } else {
        text.extend(part)
    }
}

/// The empty line of a number.
fn empty_line(alloc: Global, number: u64) -> Line
    ensures number { result.number ≡ number }
    ensures text { result.text ≡ [] }
{
    Line {
        number,
        text: ByteList::new(alloc),
    }
}

/// Adds a part to the line at hand, and hands the line out where the part does not go on. Then the
/// next one is at hand.
fn take_part(
    alloc: Global,
    lines: &mut LineList,
    line: &mut Line,
    part: &[u8],
    next: u64,
) -> Result<(), AllocError>
    ensures { OnOk result (spec.Takes part.now next lines.old line.old lines.new line.new) }
{
    add_part(&mut line.text, part)?;
    if !goes_on(part) {
        let whole = mem::replace(line, empty_line(alloc, next));
        lines.push(whole)?;
    }
    Ok(())
}

/// The logical lines of a text.
pub fn cut_lines(alloc: Global, text: &[u8]) -> Result<LineList, AllocError>
    requires { length text.now ≤ TEXT_LIMIT }
    ensures { IfOk result (λ lines. lines ≡ spec.lines text.now) }
{
    let mut lines = LineList::new(alloc);
    let mut line = empty_line(alloc, 1);
    let mut number = 1u64;
    let mut ahead = text;
    while let Some((part, left)) = split_at_line_feed(ahead) {
        number += 1;
        take_part(alloc, &mut lines, &mut line, part, number)?;
        ahead = left;
    }
    add_part(&mut line.text, ahead)?;
    lines.push(line)?;
    Ok(lines)
}
