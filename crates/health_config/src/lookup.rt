//! What an alarm looks up.
ghost use Rattle.std.specs.Prelude.{◌≡◌, true, false, Some, Ok, option_map, IfOk, IfErr};
ghost use Rattle.simple_pattern.specs.Words.{words};
ghost use Rattle.health_config.specs.Fault.{IsFaultFor};
ghost use Rattle.health_config.specs.Lookup as spec;
ghost use Rattle.health_config.specs.Lookup.{seen};

use crate::fault::ValueFault;
use crate::number::{LONGEST_DURATION, duration};
use simple_pattern::{Pattern, PatternFault, first_word};
use std::alloc::Global;

/// What is made of the values of a span of time.
#[derive(Clone, Copy, Debug, PartialEq, Eq)]
pub enum Method {
    Average,
    Min,
    Max,
    Sum,
    Count,
    /// The share of the points that are anomalous, in percent.
    AnomalyRate,
}

/// What an alarm looks up.
#[derive(Debug, Drop)]
pub struct Lookup {
    pub method: Method,
    /// How many seconds the span has, from 1 to `LONGEST_DURATION`.
    pub after: u32,
    /// How many seconds before now it ends, up to `LONGEST_DURATION`.
    pub before: u32,
    /// Values count without their sign.
    pub absolute: bool,
    /// The dimensions are taken as their share of all, in percent.
    pub percentage: bool,
    /// The result is the span from the least to the greatest value.
    pub min2max: bool,
    /// Which dimensions count. `None` where the line does not say: all of them.
    pub dims: Option<Pattern>,
}

/// A lookup, and how often it says that it is done.
#[derive(Debug, Drop)]
pub struct LookupLine {
    pub lookup: Lookup,
    pub every: Option<u32>,
}

/// The parts before the options.
#[derive(Clone, Copy, Debug)]
struct Head {
    method: Method,
    after: u32,
    before: Option<u32>,
    every: Option<u32>,
}

fn method_of(word: &str) -> Option<Method>
    ensures { result ≡ spec.method_of word.now }
{
    match word {
        "average" => Some(Method::Average),
        "min" => Some(Method::Min),
        "max" => Some(Method::Max),
        "sum" => Some(Method::Sum),
        "count" => Some(Method::Count),
        "anomaly-rate" => Some(Method::AnomalyRate),
        _ => None,
    }
}

/// METHOD, and the text behind it.
fn first_method(text: &str) -> Result<(Method, &str), ValueFault>
    ensures { seen result ≡ spec.method (words false text.now) }
{
    let Some((word, rest)) = first_word(false, text) else {
        return Err(ValueFault::Bad);
    };
    match method_of(word) {
        Some(method) => Ok((method, rest)),
        None => Err(ValueFault::Bad),
    }
}

/// A duration of at least so many seconds, and the text behind it.
fn needed(text: &str, low: u32) -> Result<(u32, &str), ValueFault>
    ensures { seen result ≡ spec.needed low (words false text.now) }
{
    let Some((word, rest)) = first_word(false, text) else {
        return Err(ValueFault::Duration);
    };
    let seconds = duration(word.as_bytes(), low, LONGEST_DURATION)?;
    Ok((seconds, rest))
}

/// The same behind a keyword, where that stands next.
fn optional<'a>(
    text: &'a str,
    keyword: &str,
    low: u32,
) -> Result<(Option<u32>, &'a str), ValueFault>
    ensures { seen result ≡ spec.optional keyword.now low (words false text.now) }
{
    let Some((word, rest)) = first_word(false, text) else {
        return Ok((None, text));
    };
    if word != keyword {
        return Ok((None, text));
    }
    let (seconds, rest) = needed(rest, low)?;
    Ok((Some(seconds), rest))
}

/// Whether an option stands in a text before the first `of`.
fn has_option(text: &str, option: &str) -> bool
    ensures { result ≡ spec.has_option option.now (words false text.now) }
{
    let mut ahead = text;
    while let Some((word, rest)) = first_word(false, ahead) {
        if word == "of" {
            return false;
        }
        if word == option {
            return true;
        }
        ahead = rest;
    }
    false
}

/// What stands behind the first `of` of a text.
fn behind_of(text: &str) -> Option<&str>
    ensures { option_map (λ dims. words false dims.now) result
        ≡ spec.behind_of (words false text.now) }
{
    let mut ahead = text;
    while let Some((word, rest)) = first_word(false, ahead) {
        if word == "of" {
            return Some(rest);
        }
        ahead = rest;
    }
    None
}

/// The pattern of a text, whose words commas and pipes cut too.
fn pattern(alloc: Global, text: &str) -> Result<Pattern, ValueFault>
    ensures ok { IfOk result (λ pattern. spec.pattern (words true text.now) ≡ Ok (Some pattern)) }
    ensures fault { IfErr result (IsFaultFor (spec.pattern (words true text.now))) }
{
    match Pattern::read(alloc, text, true) {
        Ok(pattern) => Ok(pattern),
        Err(PatternFault::TooManyWords) => Err(ValueFault::Bad),
        Err(PatternFault::Memory) => Err(ValueFault::Memory),
    }
}

/// DIMENSIONS, behind the first `of` of a text.
fn dimensions(alloc: Global, text: &str) -> Result<Option<Pattern>, ValueFault>
    ensures ok { IfOk result (λ dims. spec.dimensions (words false text.now) ≡ Ok dims) }
    ensures fault { IfErr result (IsFaultFor (spec.dimensions (words false text.now))) }
{
    match behind_of(text) {
        Some(dims) => Ok(Some(pattern(alloc, dims)?)),
        None => Ok(None),
    }
}

/// The lookup of its first parts and of the text behind them.
fn with_options(alloc: Global, head: Head, text: &str) -> Result<LookupLine, ValueFault>
    ensures ok { IfOk result (λ line. spec.with_options head (words false text.now) ≡ Ok line) }
    ensures fault { IfErr result (IsFaultFor
        (spec.with_options head (words false text.now))) }
{
    if has_option(text, "foreach") {
        return Err(ValueFault::Bad);
    }
    let dims = dimensions(alloc, text)?;
    Ok(LookupLine {
        lookup: Lookup {
            method: head.method,
            after: head.after,
            before: head.before.unwrap_or(0),
            absolute: has_option(text, "absolute"),
            percentage: has_option(text, "percentage"),
            min2max: has_option(text, "min2max"),
            dims,
        },
        every: head.every,
    })
}

/// The parts before the options, and the text behind them.
fn read_head(text: &str) -> Result<(Head, &str), ValueFault>
    ensures { seen result ≡ spec.head (words false text.now) }
{
    let (method, rest) = first_method(text)?;
    let (after, rest) = needed(rest, 1)?;
    let (before, rest) = optional(rest, "at", 0)?;
    let (every, rest) = optional(rest, "every", 1)?;
    let head = Head {
        method,
        after,
        before,
        every,
    };
    Ok((head, rest))
}

/// Reads the value of `lookup`.
#[tactic(auto, unfolding(crate::specs::Lookup::lookup))]
pub fn read_lookup(alloc: Global, text: &str) -> Result<LookupLine, ValueFault>
    ensures ok { IfOk result (λ line. spec.lookup text.now ≡ Ok line) }
    ensures fault { IfErr result (IsFaultFor (spec.lookup text.now)) }
{
    let (head, rest) = read_head(text)?;
    with_options(alloc, head, rest)
}
