//! Numbers of expressions.
ghost use Rattle.std.specs.Prelude.{◌≡◌};
ghost use Rattle.health_expr.specs.Arithmetic as arithmetic;
ghost use Rattle.health_expr.specs.Value.{IsWithin};
ghost use Rattle.alarm_core.specs.Variables as spec;
ghost use Rattle.alarm_core.specs.Verdict as verdict;

use fixed_num::{LIMIT, Units};
use health_expr::Value;

/// How many ten-millionths one has.
pub const ONE: Units = 10_000_000;

/// A whole number.
pub fn whole(number: u32) -> Value
    ensures { result ≡ spec.whole number }
{
    Value::Fixed(Units::from(number) * ONE)
}

/// A number, where there is one.
pub fn or_nan(units: Option<Units>) -> Value
    ensures { result ≡ spec.or_nan units }
{
    match units {
        Some(units) => Value::Fixed(units),
        None => Value::Nan,
    }
}

/// A moment, where there was one.
pub fn moment_or_nan(moment: u32) -> Value
    ensures { result ≡ spec.moment_or_nan moment }
{
    if moment == 0 {
        Value::Nan
    } else {
        whole(moment)
    }
}

/// A value, and past the limit of expressions the infinity of its sign.
pub fn capped(value: Value) -> Value
    ensures value { result ≡ spec.capped value }
    ensures within { IsWithin result }
{
    match value {
        Value::Fixed(units) if units.unsigned_abs() > LIMIT.unsigned_abs() => {
            Value::Inf(units < 0)
        }
        other => other,
    }
}

/// Whether a value is neither nan nor 0.
pub fn is_true(value: Value) -> bool
    ensures { result ≡ arithmetic.is_true value }
{
    match value {
        Value::Nan => false,
        Value::Inf(_) => true,
        Value::Fixed(units) => units != 0,
    }
}

pub fn is_nan(value: Value) -> bool
    ensures { result ≡ verdict.is_nan value }
{
    matches!(value, Value::Nan)
}

/// Whether a value is a number, and not an infinity either.
pub fn is_number(value: Value) -> bool
    ensures { result ≡ verdict.is_number value }
{
    matches!(value, Value::Fixed(_))
}
