//! Durations and numbers.
ghost use Rattle.std.specs.Prelude.{◌≡◌, ◌≤◌, IfSome};
ghost use Rattle.std.specs.Str.Parse.{without_leading_sign};
ghost use Rattle.health_config.specs.Number as spec;

use crate::fault::ValueFault;
use fixed_num::{Units, read_digits, read_units};

/// The most seconds of a duration.
pub const LONGEST_DURATION: u32 = 2_592_000;

/// The least and the greatest multiplier of a delay, in ten-millionths.
const LEAST_MULTIPLIER: Units = 10_000_000;

const GREATEST_MULTIPLIER: Units = 10_000_000_000;

/// How many seconds a unit has.
fn unit_seconds(byte: u8) -> Option<u64>
    ensures value { result ≡ spec.unit_seconds byte }
    ensures some { IfSome result (λ seconds. 1 ≤ seconds) }
{
    match byte {
        b's' => Some(1),
        b'm' => Some(60),
        b'h' => Some(3_600),
        b'd' => Some(86_400),
        _ => None,
    }
}

/// What follows the sign of a text.
fn without_sign(text: &[u8]) -> &[u8]
    ensures { result.now ≡ without_leading_sign text.now }
{
    match text {
        [b'-', body @ ..] | [b'+', body @ ..] => body,
        _ => text,
    }
}

/// What stands before the unit at a text's end, and how many seconds that has.
fn split_unit(body: &[u8]) -> (&[u8], u64)
    ensures parts { (result.0.now, result.1) ≡ spec.split_unit body.now }
    ensures some { 1 ≤ result.1 }
{
    if body.is_empty() {
        return (body, 1);
    }
    match unit_seconds(body[body.len() - 1]) {
        Some(seconds) => (&body[..body.len() - 1], seconds),
        None => (body, 1),
    }
}

/// The seconds of a duration: a sign, which is dropped, digits, and `s`, `m`, `h`, `d` or nothing for
/// seconds. It is at least `low`, and at most `high`.
#[tactic(auto, unfolding(crate::specs::Number::duration))]
pub fn duration(text: &[u8], low: u32, high: u32) -> Result<u32, ValueFault>
    ensures { result ≡ spec.duration low high text.now }
{
    let (prefix, unit) = split_unit(without_sign(text));
    let Some(count) = read_digits(prefix) else {
        return Err(ValueFault::Duration);
    };
    let seconds = count.saturating_mul(u128::from(unit));
    if u128::from(low) <= seconds && seconds <= u128::from(high) {
        Ok(seconds as u32)
    } else {
        Err(ValueFault::Duration)
    }
}

/// A number of ten-millionths: a sign or none, digits, and after a dot up to seven more.
pub fn number(text: &[u8]) -> Result<Units, ValueFault>
    ensures { result ≡ spec.number text.now }
{
    match read_units(text) {
        Ok(units) => Ok(units),
        Err(_) => Err(ValueFault::Bad),
    }
}

/// A number from `LEAST_MULTIPLIER` to `GREATEST_MULTIPLIER`, in ten-millionths.
pub fn multiplier(text: &[u8]) -> Result<Units, ValueFault>
    ensures { result ≡ spec.multiplier text.now }
{
    let units = number(text)?;
    if LEAST_MULTIPLIER <= units && units <= GREATEST_MULTIPLIER {
        Ok(units)
    } else {
        Err(ValueFault::Bad)
    }
}
