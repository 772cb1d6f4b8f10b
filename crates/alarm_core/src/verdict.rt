//! What an alarm is worth, and its status.
ghost use Rattle.std.specs.Prelude.{◌≡◌, option_map, IfSome};
ghost use Rattle.health_expr.specs.TreeOf.{tree_of};
ghost use Rattle.health_expr.specs.Value.{IsWithin};
ghost use Rattle.alarm_core.specs.Seen.{seen};
ghost use Rattle.alarm_core.specs.Verdict as spec;

use crate::number::{is_nan, is_number, is_true};
use crate::scene::Scene;
use crate::variable::Variables;
use alarm_events::Status;
use health_expr::{Expr, Value};

/// What an expression is worth, where `$this` is worth so much.
fn worth_at(scene: &Scene, this: Value, expr: &Expr) -> Value
    ensures worth { result ≡ spec.worth_at (seen scene.now) this (tree_of expr.now) }
    ensures within { IsWithin result }
{
    expr.eval(&Variables { scene, this })
}

/// The same of an expression that may be missing.
fn condition_at(scene: &Scene, this: Value, condition: &Option<Expr>) -> Option<Value>
    ensures { result ≡ option_map (spec.worth_at (seen scene.now) this)
        (option_map tree_of condition.now) }
{
    match condition {
        Some(expr) => Some(worth_at(scene, this, expr)),
        None => None,
    }
}

/// What an alarm is worth, where it looked something up or did not, and was worth so much before.
pub fn value_at(scene: &Scene, found: Option<Value>, before: Value) -> Value
    ensures value { result ≡ spec.value_at (seen scene.now) found before }
    ensures within { IfSome found IsWithin → IsWithin result }
{
    match &scene.alarm.calc {
        Some(calc) => worth_at(scene, found.unwrap_or(before), calc),
        None => found.unwrap_or(Value::Nan),
    }
}

/// Whether a condition is there and true.
fn holds(condition: Option<Value>) -> bool
    ensures { result ≡ spec.holds condition }
{
    match condition {
        Some(value) => is_true(value),
        None => false,
    }
}

/// Whether a condition is there and not nan.
fn is_told(condition: Option<Value>) -> bool
    ensures { result ≡ spec.is_told condition }
{
    match condition {
        Some(value) => !is_nan(value),
        None => false,
    }
}

/// The status of a value, by what `warn` and `crit` are worth.
fn status_for(value: Value, warn: Option<Value>, crit: Option<Value>) -> Status
    ensures { result ≡ spec.status_for value warn crit }
{
    if !is_number(value) {
        Status::Undefined
    } else if holds(crit) {
        Status::Critical
    } else if holds(warn) {
        Status::Warning
    } else if is_told(warn) || is_told(crit) {
        Status::Clear
    } else {
        Status::Undefined
    }
}

/// The status of an alarm that is worth so much.
pub fn status_at(scene: &Scene, value: Value) -> Status
    ensures { result ≡ spec.status_at (seen scene.now) value }
{
    let warn = condition_at(scene, value, &scene.alarm.warn);
    let crit = condition_at(scene, value, &scene.alarm.crit);
    status_for(value, warn, crit)
}
