ghost use Rattle.std.specs.Prelude.{◌≡◌, ℕ, ◌^◌, ◌≤◌, ℤ, ◌+ℤ◌, unsigned_abs, length, map};
ghost use Rattle.history.specs.Points.{total, total_difference};
ghost use Rattle.algorithms.specs.Samples.{cell_at};

use crate::row::ROW_LIMIT;
use crate::sample::Sample;

/// The sum of a row's values, at most 2^74: 1,024 of at most 2^63 each.
pub fn total(samples: &[Sample]) -> i128
    requires { length samples.now ≤ ROW_LIMIT }
    ensures value { result ≡ total (map cell_at samples.now) }
    ensures bound { unsigned_abs result ≤ 2 ^ 74 }
{
    let mut sum = 0;
    for sample in samples {
        sum += i128::from(sample.value);
    }
    sum
}

/// The sum of the rises of a row's values that have one before, at most 2^74: 1,024 of at most 2^64
/// each.
pub fn total_difference(samples: &[Sample]) -> i128
    requires { length samples.now ≤ ROW_LIMIT }
    ensures value { result ≡ total_difference (map cell_at samples.now) }
    ensures bound { unsigned_abs result ≤ 2 ^ 74 }
{
    let mut sum = 0;
    for sample in samples {
        sum += sample.difference().unwrap_or(0);
    }
    sum
}
