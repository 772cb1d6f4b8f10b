ghost use Rattle.std.specs.Prelude.{◌≡◌, ℕ, ◌^◌, ◌≤◌, ◌+◌, ◌*◌, ℤ, pos, ◌-ℤ◌, unsigned_abs, IfSome};
ghost use Rattle.history.specs.Points.{rise, difference, is_reset};
ghost use Rattle.algorithms.specs.Cells.{first_before, before_of, cell_of};
ghost use Rattle.history.specs.Points.{divisor_of};
ghost use Rattle.algorithms.specs.Samples.{before_at, cell_at};

use crate::last::Last;
use history::{Algorithm, DimDef, Value};

/// A value that was collected before another: the value, and how many seconds lie between the two.
#[derive(Clone, Copy, Debug, PartialEq, Eq)]
pub struct Earlier {
    pub value: i64,
    pub seconds: u32,
}

/// A value of a row with all that its point rests on: what stands before it, and what its dimension says
/// of its point.
#[derive(Clone, Copy, Debug, PartialEq, Eq)]
pub struct Sample {
    pub value: i64,
    pub anomalous: bool,
    pub before: Option<Earlier>,
    pub algorithm: Algorithm,
    pub multiplier: i32,
    pub divisor: i32,
    pub noreset: bool,
}

/// What is counted from where a dimension has no last row: 0 one step earlier, under `store_first`.
fn first_before(update_every: u32, store_first: bool) -> Option<Earlier>
    ensures { before_at result ≡ first_before update_every store_first }
{
    if store_first {
        Some(Earlier {
            value: 0,
            seconds: update_every.max(1),
        })
    } else {
        None
    }
}

/// What stands before a value at this moment.
fn before_of(
    update_every: u32,
    store_first: bool,
    moment: u32,
    last: Option<Last>,
) -> Option<Earlier>
    ensures { before_at result ≡ before_of update_every store_first moment last }
{
    match last {
        Some(last) if last.moment < moment => Some(Earlier {
            value: last.value,
            seconds: moment - last.moment,
        }),
        _ => first_before(update_every, store_first),
    }
}

/// A divisor, and 1 where it is 0.
fn divisor_of(divisor: i32) -> i32
    ensures { result ≡ divisor_of divisor }
{
    if divisor == 0 { 1 } else { divisor }
}

/// The sample of a value that its chart collected at `moment`, with the last row and the definition of its
/// dimension. `update_every` and both moments are in seconds.
///
/// A last row that is not before `moment` counts as none, and a divisor or an `update_every` of 0 as 1.
pub fn sample_of(
    update_every: u32,
    store_first: bool,
    moment: u32,
    value: &Value,
    last: Option<Last>,
    def: &DimDef,
) -> Sample
    ensures { cell_at result ≡ cell_of update_every store_first moment value.now last def.now }
{
    Sample {
        value: value.value,
        anomalous: value.anomalous,
        before: before_of(update_every, store_first, moment, last),
        algorithm: def.algorithm,
        multiplier: def.multiplier,
        divisor: divisor_of(def.divisor),
        noreset: def.noreset,
    }
}

/// How much a value rose, at most 2^64: two values lie less than that apart.
pub fn rise(before: i64, now: i64) -> i128
    ensures value { result ≡ rise before now }
    ensures bound { unsigned_abs result ≤ 2 ^ 64 }
{
    if now < before {
        0
    } else {
        i128::from(now) - i128::from(before)
    }
}

impl Sample {
    ghost use Rattle.std.specs.Prelude.{◌≡◌, ℕ, ◌^◌, ◌≤◌, ◌+◌, ◌*◌, ℤ, pos, ◌-ℤ◌, unsigned_abs, IfSome};
    ghost use Rattle.history.specs.Points.{rise, difference, is_reset};
    ghost use Rattle.algorithms.specs.Samples.{cell_at};

    /// How much the value rose, where there is one before.
    pub(crate) fn difference(&self) -> Option<i128>
        ensures value { result ≡ difference (cell_at self.now) }
        ensures bound { IfSome result (λ rise. unsigned_abs rise ≤ 2 ^ 64) }
    {
        match self.before {
            Some(before) => Some(rise(before.value, self.value)),
            None => None,
        }
    }

    /// Whether the value fell, and that counts as a reset of its counter.
    pub(crate) fn is_reset(&self) -> bool
        ensures { result ≡ is_reset (cell_at self.now) }
    {
        match self.before {
            Some(before) => !self.noreset && self.value < before.value,
            None => false,
        }
    }
}
