ghost use Rattle.std.specs.Prelude.{◌≡◌, ◌⊎◌, ℕ, ◌+◌, ◌-◌, ◌*◌, ◌/◌, ◌^◌, ◌<◌, ◌≤◌, ℤ, pos, ◌*ℤ◌, ◌<ℤ◌, Some, IfSome, IsTrue, unsigned_abs, nat_lt, if◌then◌else◌};
ghost use Rattle.fixed_num.specs.Units.{one};
ghost use Rattle.storage_number.specs.Step.{steps, last_step, IsStep};
ghost use Rattle.storage_number.specs.Word.{most, zero_word, word_of, is_word, point_of, units_in};
ghost use Rattle.storage_number.specs.Packing.{mantissa_at, chosen, storage_number, IsWithinHalf};

use crate::step::{self, Step};
use fixed_num::{Frac, round_half_even};

/// The greatest mantissa of a word.
const MOST_MANTISSA: u32 = 16_777_215;

/// Twice how many ten-millionths one has.
const TWICE_ONE: u128 = 20_000_000;

/// `n / d`, by the shorter division where both numbers are short.
fn quotient(n: u128, d: u128) -> u128
    requires { 0 < d }
    ensures { result ≡ n / d }
{
    match (u64::try_from(n), u64::try_from(d)) {
        (Ok(short), Ok(divisor)) => u128::from(short / divisor),
        _ => n / d,
    }
}

/// How many decimal digits a number has, 0 having none.
fn digit_count(n: u128) -> u32
    ensures above { n < 10 ^ result }
    ensures below { (result ≡ 0) ⊎ (10 ^ (result - 1) ≤ n) }
    ensures bound { result < 40 }
{
    if n == 0 { 0 } else { n.ilog10() + 1 }
}

/// The place of the first step that is at least a power of ten of this many ten-millionths.
fn place_of(digits: u32) -> usize
    ensures { result ≡ (if nat_lt digits 16 then digits else 8 + digits / 2) }
{
    if digits < 16 {
        digits as usize
    } else {
        8 + digits as usize / 2
    }
}

/// The first step at which the mantissa of `size / den` is not too large.
fn first_that_fits(size: u128, den: u128) -> Option<Step>
    requires size_bound { size ≤ 2 ^ 100 }
    requires positive { 0 < den }
    requires den_bound { den ≤ 2 ^ 80 }
    ensures value { result ≡ chosen size den }
    ensures step { IfSome result IsStep }
    ensures fits { IfSome result (λ s. mantissa_at size den s ≤ most) }
{
    // The mantissa is not too large where the fraction is below its greatest value and a half.
    let twice_most = 2 * u128::from(MOST_MANTISSA) + 1;
    let place = place_of(digit_count(quotient(size * TWICE_ONE, den * twice_most)));
    step::step_at(place)
}

/// How many steps `size / den` has, to the nearest whole number, ties to even.
fn mantissa_at(size: u128, den: u128, step: Step) -> u32
    requires size_bound { size ≤ 2 ^ 100 }
    requires positive { 0 < den }
    requires den_bound { den ≤ 2 ^ 80 }
    requires step_bound { IsStep step }
    requires fits { mantissa_at size den step ≤ most }
    ensures { result ≡ mantissa_at size den step }
{
    let num = size * u128::from(step.den);
    let den = den * u128::from(step.num);
    round_half_even(Frac {
        num: num as i128,
        den: den as i128,
    }) as u32
}

/// A word of fields with one field more in its low bits.
fn with_field(word: u32, width: u32, field: u32) -> u32
    requires width_bound { width < 32 }
    requires room { word * 2 ^ width + 2 ^ width ≤ 2 ^ 32 }
    requires field_bound { field < 2 ^ width }
    ensures { result ≡ word * 2 ^ width + field }
{
    word << width | field
}

/// The word of a value of 0. An anomalous one without a reset is no word of zeros, which stands for
/// nothing at all.
fn zero_word(anomalous: bool, reset: bool) -> u32
    ensures { result ≡ zero_word anomalous reset }
{
    if anomalous && !reset {
        return 1 << 26;
    }
    let marks = with_field(u32::from(reset), 1, u32::from(!anomalous));
    with_field(marks, 24, 0)
}

/// The word of a mantissa and its marks.
fn word_of(step: Step, negative: bool, mantissa: u32, anomalous: bool, reset: bool) -> u32
    requires exponent_bound { step.exponent < 8 }
    requires mantissa_bound { mantissa ≤ most }
    ensures { result ≡ word_of step negative mantissa anomalous reset }
{
    if mantissa == 0 {
        return zero_word(anomalous, reset);
    }
    let scale = with_field(u32::from(negative), 1, u32::from(step.multiplies));
    let scale = with_field(scale, 3, step.exponent);
    let scale = with_field(scale, 1, u32::from(step.hundreds));
    let marked = with_field(scale, 1, u32::from(reset));
    let marked = with_field(marked, 1, u32::from(!anomalous));
    with_field(marked, 24, mantissa)
}

/// The word of a fraction and its marks.
fn word_of_fraction(q: Frac, anomalous: bool, reset: bool) -> u32
    requires size_bound { unsigned_abs q.num ≤ 2 ^ 100 }
    requires positive { pos 0 <ℤ q.den }
    requires den_bound { unsigned_abs q.den ≤ 2 ^ 80 }
    ensures { result ≡ storage_number q.num q.den anomalous reset }
{
    let size = q.num.unsigned_abs();
    let den = q.den.unsigned_abs();
    let negative = q.num < 0;
    match first_that_fits(size, den) {
        Some(step) => {
            let mantissa = mantissa_at(size, den, step);
            word_of(step, negative, mantissa, anomalous, reset)
        }
        None => word_of(step::LAST, negative, MOST_MANTISSA, anomalous, reset),
    }
}

/// The word of a fraction and its marks: the first step of the table at which the nearest mantissa is
/// at most 16,777,215, and past the last step that mantissa at the last step.
///
/// The sizes of `q.num` and `q.den` are at most 2^100 and 2^80, and `q.den` is above 0.
pub fn pack(q: Frac, anomalous: bool, reset: bool) -> u32
    requires size_bound { unsigned_abs q.num ≤ 2 ^ 100 }
    requires positive { pos 0 <ℤ q.den }
    requires den_bound { unsigned_abs q.den ≤ 2 ^ 80 }

    ensures value { result ≡ storage_number q.num q.den anomalous reset }
    ensures word { IsTrue (is_word result) }

    // The word reads as the marks, and as a value that is at most half the chosen step away.
    ensures read { point_of result
        ≡ Some (record { units = units_in result; anomalous = anomalous; reset = reset }) }
    ensures near { IfSome (chosen (unsigned_abs q.num) (unsigned_abs q.den))
        (λ step. IsWithinHalf q.num q.den step (units_in result)) }

    // A whole number that is no larger than the greatest mantissa stays.
    ensures whole { (n : ℤ) → unsigned_abs n ≤ most → q.num ≡ n *ℤ q.den
        → units_in result ≡ n *ℤ pos one }
{
    word_of_fraction(q, anomalous, reset)
}
