ghost use Rattle.std.specs.Prelude.{◌≡◌, ℕ, ◌^◌, ◌≤◌, false, ℤ, pos, ◌*ℤ◌, ◌<ℤ◌, unsigned_abs};
ghost use Rattle.history.specs.Points.{ratio, rise, word_by};
ghost use Rattle.algorithms.specs.Words.{packed};
ghost use Rattle.algorithms.specs.Samples.{cell_at};

use crate::sample::{self, Earlier, Sample};
use fixed_num::Frac;
use history::Algorithm;
use storage_number::pack;

/// `a * b`, at most 2^96 in size.
fn times(a: i128, b: i32) -> i128
    requires { unsigned_abs a ≤ 2 ^ 64 }
    ensures value { result ≡ a *ℤ b }
    ensures bound { unsigned_abs result ≤ 2 ^ 96 }
{
    a * i128::from(b)
}

/// `divisor * seconds`, at most 2^63 in size.
fn divisor_in(divisor: i32, seconds: u32) -> i128
    ensures value { result ≡ divisor *ℤ pos seconds }
    ensures bound { unsigned_abs result ≤ 2 ^ 64 }
{
    i128::from(divisor) * i128::from(seconds)
}

/// `num / den` with a denominator above 0, and 0 where `den` is 0.
fn ratio(num: i128, den: i128) -> Frac
    requires num_bound { unsigned_abs num ≤ 2 ^ 100 }
    requires den_bound { unsigned_abs den ≤ 2 ^ 80 }
    ensures value { result ≡ ratio num den }
    ensures size_bound { unsigned_abs result.num ≤ 2 ^ 100 }
    ensures positive { pos 0 <ℤ result.den }
    ensures den_bound { unsigned_abs result.den ≤ 2 ^ 80 }
{
    if den == 0 {
        return Frac { num: 0, den: 1 };
    }
    if den < 0 {
        Frac {
            num: -num,
            den: -den,
        }
    } else {
        Frac { num, den }
    }
}

/// The word of `num / den`.
fn packed(num: i128, den: i128, anomalous: bool, reset: bool) -> u32
    requires num_bound { unsigned_abs num ≤ 2 ^ 100 }
    requires den_bound { unsigned_abs den ≤ 2 ^ 80 }
    ensures { result ≡ packed (ratio num den) anomalous reset }
{
    pack(ratio(num, den), anomalous, reset)
}

/// The word of a value as it is: at most 2^63 times 2^31, over at most 2^31.
fn absolute(sample: &Sample) -> u32
    ensures { result ≡ packed
        (ratio (sample.now.value *ℤ sample.now.multiplier) sample.now.divisor)
        sample.now.anomalous false }
{
    let num = times(i128::from(sample.value), sample.multiplier);
    packed(num, i128::from(sample.divisor), sample.anomalous, false)
}

/// The word of a value's rise in a second: at most 2^64 times 2^31, over at most 2^63.
fn rate(sample: &Sample, before: Earlier, reset: bool) -> u32
    ensures { result ≡ packed
        (ratio (rise before.value sample.now.value *ℤ sample.now.multiplier)
        (sample.now.divisor *ℤ pos before.seconds))
        sample.now.anomalous reset }
{
    let num = times(sample::rise(before.value, sample.value), sample.multiplier);
    let den = divisor_in(sample.divisor, before.seconds);
    packed(num, den, sample.anomalous, reset)
}

/// The word of a value's rise in a second, where there is a value before.
fn incremental(sample: &Sample) -> Option<u32>
    ensures { result ≡ word_by packed Algorithm.Incremental (pos 0) (pos 0) (cell_at sample.now) }
{
    let reset = sample.is_reset();
    match sample.before {
        Some(before) => Some(rate(sample, before, reset)),
        None => None,
    }
}

/// The word of a value's share in a sum, in percent: at most 2^64 times 100, over at most 2^74.
fn share(part: i128, whole: i128, anomalous: bool, reset: bool) -> u32
    requires part_bound { unsigned_abs part ≤ 2 ^ 64 }
    requires whole_bound { unsigned_abs whole ≤ 2 ^ 74 }
    ensures { result ≡ packed (ratio (part *ℤ pos 100) whole) anomalous reset }
{
    packed(times(part, 100), whole, anomalous, reset)
}

/// The word of the share of a value's rise in the rises of its row.
fn share_of_rises(sample: &Sample, rises: i128) -> Option<u32>
    requires { unsigned_abs rises ≤ 2 ^ 74 }
    ensures { result
        ≡ word_by packed Algorithm.PercentageOfIncrementalRow (pos 0) rises (cell_at sample.now) }
{
    match sample.difference() {
        Some(difference) => {
            let reset = sample.is_reset();
            Some(share(difference, rises, sample.anomalous, reset))
        }
        None => None,
    }
}

/// The word of a sample of a row with these sums of values and of rises, where its algorithm gives one.
pub fn word(sample: &Sample, values: i128, rises: i128) -> Option<u32>
    requires values_bound { unsigned_abs values ≤ 2 ^ 74 }
    requires rises_bound { unsigned_abs rises ≤ 2 ^ 74 }
    ensures { result ≡ word_by packed sample.now.algorithm values rises (cell_at sample.now) }
{
    match sample.algorithm {
        Algorithm::Absolute => Some(absolute(sample)),
        Algorithm::Incremental => incremental(sample),
        Algorithm::PercentageOfAbsoluteRow => {
            let part = i128::from(sample.value);
            Some(share(part, values, sample.anomalous, false))
        }
        Algorithm::PercentageOfIncrementalRow => share_of_rises(sample, rises),
    }
}
