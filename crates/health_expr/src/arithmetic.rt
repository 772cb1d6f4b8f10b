//! The arithmetic of values.
ghost use Rattle.std.specs.Prelude.{◌≡◌};
ghost use Rattle.health_expr.specs.Arithmetic as spec;
ghost use Rattle.health_expr.specs.Value as spec_value;
ghost use Rattle.health_expr.specs.Value.{IsWithin};

use crate::value::Value;
use fixed_num::{LIMIT, Units};

/// One, in ten-millionths.
const ONE: Units = 10_000_000;

/// A number of ten-millionths, and past the limit the infinity of its sign.
pub fn fixed(units: Units) -> Value
    ensures value { result ≡ spec_value.fixed units }
    ensures within { IsWithin result }
{
    if units.unsigned_abs() > LIMIT.unsigned_abs() {
        Value::Inf(units < 0)
    } else {
        Value::Fixed(units)
    }
}

/// 1 where it is so, and 0 where it is not.
pub fn truth(is_so: bool) -> Value
    ensures value { result ≡ spec_value.truth is_so }
    ensures within { IsWithin result }
{
    Value::Fixed(if is_so { ONE } else { 0 })
}

/// Whether a value is neither nan nor 0.
pub fn is_true(a: Value) -> bool
    ensures { result ≡ spec.is_true a }
{
    match a {
        Value::Nan => false,
        Value::Inf(_) => true,
        Value::Fixed(a) => a != 0,
    }
}

/// The value with the other sign.
pub fn negated(a: Value) -> Value
    requires { IsWithin a }
    ensures value { result ≡ spec.negated a }
    ensures within { IsWithin result }
{
    match a {
        Value::Nan => Value::Nan,
        Value::Inf(a) => Value::Inf(!a),
        Value::Fixed(a) => Value::Fixed(-a),
    }
}

/// The value without its sign.
pub fn size(a: Value) -> Value
    requires { IsWithin a }
    ensures value { result ≡ spec.size a }
    ensures within { IsWithin result }
{
    match a {
        Value::Nan => Value::Nan,
        Value::Inf(_) => Value::Inf(false),
        Value::Fixed(a) => Value::Fixed(a.abs()),
    }
}

/// `a + b`
pub fn sum(a: Value, b: Value) -> Value
    requires left { IsWithin a }
    requires right { IsWithin b }
    ensures value { result ≡ spec.sum a b }
    ensures within { IsWithin result }
{
    match (a, b) {
        (Value::Nan, _) | (_, Value::Nan) => Value::Nan,
        (Value::Inf(a), Value::Inf(b)) if a != b => Value::Nan,
        (Value::Inf(a), _) => Value::Inf(a),
        (Value::Fixed(_), Value::Inf(b)) => Value::Inf(b),
        (Value::Fixed(a), Value::Fixed(b)) => fixed(a + b),
    }
}

/// `a - b`
pub fn difference(a: Value, b: Value) -> Value
    requires left { IsWithin a }
    requires right { IsWithin b }
    ensures value { result ≡ spec.difference a b }
    ensures within { IsWithin result }
{
    sum(a, negated(b))
}

/// `a * b`
pub fn product(a: Value, b: Value) -> Value
    requires left { IsWithin a }
    requires right { IsWithin b }
    ensures value { result ≡ spec.product a b }
    ensures within { IsWithin result }
{
    match (a, b) {
        (Value::Nan, _) | (_, Value::Nan) => Value::Nan,
        (Value::Inf(a), Value::Inf(b)) => Value::Inf(a != b),
        (Value::Inf(_), Value::Fixed(0)) | (Value::Fixed(0), Value::Inf(_)) => Value::Nan,
        (Value::Inf(a), Value::Fixed(b)) => Value::Inf(a != (b < 0)),
        (Value::Fixed(a), Value::Inf(b)) => Value::Inf((a < 0) != b),
        (Value::Fixed(a), Value::Fixed(b)) => fixed_product(a, b),
    }
}

/// `a * b`, of numbers.
fn fixed_product(a: Units, b: Units) -> Value
    requires left { IsWithin (Value.Fixed a) }
    requires right { IsWithin (Value.Fixed b) }
    ensures value { result ≡ spec.product (Value.Fixed a) (Value.Fixed b) }
    ensures within { IsWithin result }
{
    match fixed_num::mul(a, b) {
        Some(product) => Value::Fixed(product),
        None => Value::Inf((a < 0) != (b < 0)),
    }
}

/// `a / b`
pub fn quotient(a: Value, b: Value) -> Value
    requires left { IsWithin a }
    requires right { IsWithin b }
    ensures value { result ≡ spec.quotient a b }
    ensures within { IsWithin result }
{
    match (a, b) {
        (Value::Nan, _) | (_, Value::Nan) | (Value::Inf(_), Value::Inf(_)) => Value::Nan,
        (Value::Inf(_), Value::Fixed(0)) => Value::Nan,
        (Value::Inf(a), Value::Fixed(b)) => Value::Inf(a != (b < 0)),
        (Value::Fixed(_), Value::Inf(_)) => Value::Fixed(0),
        (Value::Fixed(a), Value::Fixed(b)) => fixed_quotient(a, b),
    }
}

/// `a / b`, of numbers.
fn fixed_quotient(a: Units, b: Units) -> Value
    requires left { IsWithin (Value.Fixed a) }
    requires right { IsWithin (Value.Fixed b) }
    ensures value { result ≡ spec.quotient (Value.Fixed a) (Value.Fixed b) }
    ensures within { IsWithin result }
{
    if b == 0 {
        return if a == 0 {
            Value::Nan
        } else {
            Value::Inf(a < 0)
        };
    }
    let is_negative = (a < 0) != (b < 0);
    match fixed_num::div(a, b) {
        Some(quotient) => Value::Fixed(quotient),
        None => Value::Inf(is_negative),
    }
}

/// Whether `a == b`.
pub fn equal(a: Value, b: Value) -> bool
    ensures { result ≡ spec.equal a b }
{
    match (a, b) {
        (Value::Nan, Value::Nan) => true,
        (Value::Inf(a), Value::Inf(b)) => a == b,
        (Value::Fixed(a), Value::Fixed(b)) => a == b,
        _ => false,
    }
}

/// Whether `a < b`.
pub fn less(a: Value, b: Value) -> bool
    ensures { result ≡ spec.less a b }
{
    match (a, b) {
        (Value::Nan, _) | (_, Value::Nan) => false,
        (Value::Inf(a), Value::Inf(b)) => a && !b,
        (Value::Inf(a), Value::Fixed(_)) => a,
        (Value::Fixed(_), Value::Inf(b)) => !b,
        (Value::Fixed(a), Value::Fixed(b)) => a < b,
    }
}

/// Whether `a <= b`.
pub fn at_most(a: Value, b: Value) -> bool
    ensures { result ≡ spec.at_most a b }
{
    less(a, b) || (a != Value::Nan && equal(a, b))
}
