ghost use Rattle.std.specs.Prelude.{◌≡◌, ◌≢◌, ℕ, ◌+◌, ◌*◌, ◌/◌, ◌%◌, ◌^◌, ◌<◌, ◌≤◌, pos, ◌*ℤ◌, unsigned_abs, SomeIff, MatchOption};
ghost use Rattle.fixed_num.specs.Rounding.{half_even, nearest, differ_in_sign, signed};
ghost use Rattle.fixed_num.specs.Units.{one, limit, IsWithinLimit};

use crate::rounding;
use thiserror::Error;

/// A number of ten-millionths.
pub type Units = i128;

/// The greatest size of a value that is read or computed, in ten-millionths.
pub const LIMIT: i128 = 100_000_000_000_000_000_000_000_000_000;

/// How many ten-millionths one has.
pub(crate) const ONE: u128 = 10_000_000;

/// What the points of one span of time come to.
#[derive(Clone, Copy, Debug, PartialEq, Eq)]
pub struct Record {
    pub min: Units,
    pub max: Units,
    pub sum: Units,
    pub count: u32,
    pub anomalies: u32,
}

/// Why a text is no number, or a number was not written.
#[derive(Clone, Copy, Debug, PartialEq, Eq, Error)]
pub enum NumberFault {
    #[error("not a number")]
    NotANumber,
    #[error("a number with more than seven decimals, or beyond the limit")]
    TooWide,
    #[error("out of memory")]
    Memory,
}

/// Whether one of two numbers is below 0 and the other is not.
fn differ_in_sign(a: i128, b: i128) -> bool
    ensures { result ≡ differ_in_sign a b }
{
    (a < 0) != (b < 0)
}

/// The number of this size, where that is within the limit.
fn within_limit(negative: bool, size: u128) -> Option<Units>
    ensures { SomeIff result (size ≤ limit) (signed negative size) }
{
    if size <= LIMIT.unsigned_abs() {
        Some(rounding::signed(negative, size))
    } else {
        None
    }
}

/// `a * b / ONE` to the nearest whole number, ties to even. `None` only beyond the limit.
fn product(a: u128, b: u128) -> Option<u128>
    requires a_size { a ≤ limit }
    requires b_size { b ≤ limit }
    ensures { MatchOption result (limit < half_even (a * b) one) (λ size. size
        ≡ half_even (a * b) one) }
{
    let part = a * (b % ONE);
    let whole = a.checked_mul(b / ONE)?.checked_add(part / ONE)?;
    if whole > LIMIT.unsigned_abs() {
        return None;
    }
    Some(rounding::round_rest(whole, part % ONE, ONE))
}

/// The product of two numbers, to the nearest ten-millionth, ties to even. `None` beyond the limit.
pub fn mul(a: Units, b: Units) -> Option<Units>
    requires a_size { IsWithinLimit a }
    requires b_size { IsWithinLimit b }
    ensures { let product = nearest (a *ℤ b) (pos one) in
        SomeIff result (IsWithinLimit product) product }
{
    let size = product(a.unsigned_abs(), b.unsigned_abs())?;
    within_limit(differ_in_sign(a, b), size)
}

/// The quotient of two numbers, to the nearest ten-millionth, ties to even. `None` beyond the limit.
pub fn div(a: Units, b: Units) -> Option<Units>
    requires a_size { IsWithinLimit a }
    requires b_size { IsWithinLimit b }
    requires divisor { b ≢ pos 0 }
    ensures { let quotient = nearest (a *ℤ pos one) b in
        SomeIff result (IsWithinLimit quotient) quotient }
{
    let size = rounding::half_even(a.unsigned_abs() * ONE, b.unsigned_abs());
    within_limit(differ_in_sign(a, b), size)
}
