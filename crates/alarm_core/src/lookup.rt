//! What an alarm looks up.
ghost use Rattle.std.specs.Prelude.{◌≡◌, ◌≢◌, ℕ, ◌<◌, ◌^◌, List, None, pos, unsigned_abs, ◌||◌, IfOk, IfSome, IsOk, IsErrOf};
ghost use Rattle.fixed_num.specs.Rounding.{nearest};
ghost use Rattle.health_expr.specs.Value.{IsWithin};
ghost use Rattle.host_model.specs.Cause.{HasCause};
ghost use Rattle.tier_rollup.specs.declared.point.Point.{Point as APoint};
ghost use Rattle.alarm_core.specs.Lookups as spec;
ghost use Rattle.alarm_core.specs.Seen.{seen};
ghost use Rattle.alarm_core.specs.Step.{found_by};

use crate::gather::gather;
use crate::number::{ONE, capped};
use crate::scene::Scene;
use crate::window::window_of;
use fixed_num::{Frac, LIMIT, Record, Units, round_half_even};
use health_config::Lookup;
use health_expr::Value;
use query_engine::{PointFault, Points};
use std::alloc::Global;

/// The sum of numbers, or how far the greatest lies above the least.
fn together(min2max: bool, numbers: Record) -> Units
    ensures { let together = spec.together min2max numbers in
        unsigned_abs together < 2 ^ 127 → result ≡ together }
{
    if min2max {
        numbers.max.saturating_sub(numbers.min)
    } else {
        numbers.sum
    }
}

fn is_past(number: Units) -> bool
    ensures { result ≡ spec.is_past number }
{
    number.unsigned_abs() > LIMIT.unsigned_abs()
}

/// Whether one of two numbers is past the limit.
fn is_far(number: Units, all: Units) -> bool
    ensures { result ≡ (spec.is_past number || spec.is_past all) }
{
    is_past(number) || is_past(all)
}

/// A number over another that is not 0, to the nearest whole number, ties to even.
fn quotient(num: Units, den: Units) -> Units
    requires num { unsigned_abs num < 2 ^ 127 }
    requires den { unsigned_abs den < 2 ^ 127 }
    requires divisor { den ≢ pos 0 }
    ensures { result ≡ nearest num den }
{
    if den < 0 {
        round_half_even(Frac {
            num: -num,
            den: -den,
        })
    } else {
        round_half_even(Frac { num, den })
    }
}

/// A number as the share of another, in percent.
fn percent(number: Units, all: Units) -> Value
    ensures percent { result ≡ spec.percent number all }
    ensures within { IsWithin result }
{
    if all == 0 {
        Value::Fixed(0)
    } else if is_far(number, all) {
        Value::Inf(false)
    } else {
        capped(Value::Fixed(quotient(100 * ONE * number, all)))
    }
}

/// The sum of numbers, and 0 where there are none.
fn sum_of(numbers: Option<Record>) -> Units
    ensures { result ≡ spec.sum_of numbers }
{
    match numbers {
        Some(numbers) => numbers.sum,
        None => 0,
    }
}

/// The result, by the numbers of the dimensions that are taken and of all.
fn result_of(lookup: &Lookup, taken: Option<Record>, all: Option<Record>) -> Value
    ensures result { IfSome taken (λ numbers. unsigned_abs
        (spec.together lookup.now.min2max numbers) < 2 ^ 127)
        → result ≡ spec.result lookup.now taken all }
    ensures within { IsWithin result }
{
    let Some(numbers) = taken else {
        return Value::Nan;
    };
    let number = together(lookup.min2max, numbers);
    if lookup.percentage {
        percent(number, sum_of(all))
    } else {
        capped(Value::Fixed(number))
    }
}

/// What a lookup finds. Whatever it is, `points` stands for the same as before.
fn look_up<P: Points>(
    alloc: Global,
    points: &mut P,
    scene: &Scene,
    lookup: &Lookup,
) -> Result<Value, PointFault>
    ensures found { IfOk result (λ found. (told : ℕ → List APoint) → P.tells points.old told
        → found ≡ spec.looked_up scene.now.registry.now scene.now.chart lookup.now scene.now.moment
        ((P.tiers points.old).floor 0) told) }
    ensures within { IfOk result IsWithin }
    ensures tiers { P.tiers points.new ≡ P.tiers points.old }
    ensures held { P.held points.new ≡ P.held points.old }
    ensures told { (told : ℕ → List APoint) → P.tells points.old told → P.tells points.new told }
    ensures cause { HasCause (P.faults points.old) (P.faults points.new)
        (IsErrOf result PointFault.Disk) }
{
    let window = window_of(lookup, scene.moment);
    if window.start < u64::from(points.floor(0)) {
        return Ok(Value::Nan);
    }
    let gathered = gather(alloc, points, scene, lookup, window)?;
    Ok(result_of(lookup, gathered.taken, gathered.all))
}

impl<'a> Scene<'a> {
    /// What the alarm looks up, where it does.
    pub(crate) fn look_up<P: Points>(
        &self,
        alloc: Global,
        points: &mut P,
    ) -> Result<Option<Value>, PointFault>
        ensures found { IfOk result (λ found. (told : ℕ → List APoint) → P.tells points.old told
            → found ≡ found_by (seen self.now) ((P.tiers points.old).floor 0) told) }
        ensures within { IfOk result (λ found. IfSome found IsWithin) }
        ensures unread { self.now.alarm.now.lookup ≡ None → IsOk result }
        ensures tiers { P.tiers points.new ≡ P.tiers points.old }
        ensures held { P.held points.new ≡ P.held points.old }
        ensures told { (told : ℕ → List APoint) → P.tells points.old told
            → P.tells points.new told }
        ensures cause { HasCause (P.faults points.old) (P.faults points.new)
            (IsErrOf result PointFault.Disk) }
    {
        match &self.alarm.lookup {
            Some(lookup) => Ok(Some(look_up(alloc, points, self, lookup)?)),
            None => Ok(None),
        }
    }
}
