//! Whether two alarms say the same.
ghost use Rattle.std.specs.Prelude.{◌≡◌, IfOk};
ghost use Rattle.std.specs.Option.{option_eq, option_map};
ghost use Rattle.std.specs.Cmp.Lexicographic.{pointwise};
ghost use Rattle.std.specs.Str.{bytes_eq};
ghost use Rattle.health_config.specs.Entity.{alarm_of};
ghost use Rattle.health_expr.specs.TreeOf.{tree_of};
ghost use Rattle.alarm_core.specs.Same as spec;

use crate::expr_words::{ExprWordList, push_words, same_words};
use health_config::{Entity, Lookup, Method};
use health_expr::Expr;
use simple_pattern::Pattern;
use std::alloc::{AllocError, Global};

/// Whether two expressions are the same.
#[tactic(auto, unfolding(crate::specs::Same::same_tree))]
fn same_expr(alloc: Global, one: &Expr, other: &Expr) -> Result<bool, AllocError>
    ensures { IfOk result (λ same. same ≡ spec.same_tree (tree_of one.now) (tree_of other.now)) }
{
    let mut words = ExprWordList::new(alloc);
    push_words(&mut words, one)?;
    let mut others = ExprWordList::new(alloc);
    push_words(&mut others, other)?;
    Ok(same_words(words.as_slice(), others.as_slice()))
}

/// The same where they may be missing.
fn same_maybe(alloc: Global, one: &Option<Expr>, other: &Option<Expr>) -> Result<bool, AllocError>
    ensures { IfOk result (λ same. same ≡ option_eq spec.same_tree
        (option_map tree_of one.now) (option_map tree_of other.now)) }
{
    match (one, other) {
        (Some(one), Some(other)) => same_expr(alloc, one, other),
        (None, None) => Ok(true),
        _ => Ok(false),
    }
}

/// The number by which methods are compared.
fn method_number(method: Method) -> u8
    ensures { result ≡ spec.method_number method }
{
    match method {
        Method::Average => 0,
        Method::Min => 1,
        Method::Max => 2,
        Method::Sum => 3,
        Method::Count => 4,
        Method::AnomalyRate => 5,
    }
}

/// Whether two patterns, which may be missing, have the same words.
fn same_pattern(one: &Option<Pattern>, other: &Option<Pattern>) -> bool
    ensures { result ≡ option_eq (pointwise bytes_eq) one.now other.now }
{
    match (one, other) {
        (Some(one), Some(other)) => one.words() == other.words(),
        (None, None) => true,
        _ => false,
    }
}

#[tactic(auto, unfolding(crate::specs::Same::same_lookup))]
fn same_lookup(one: &Lookup, other: &Lookup) -> bool
    ensures { result ≡ spec.same_lookup one.now other.now }
{
    method_number(one.method) == method_number(other.method)
        && one.after == other.after
        && one.before == other.before
        && one.absolute == other.absolute
        && one.percentage == other.percentage
        && one.min2max == other.min2max
        && same_pattern(&one.dims, &other.dims)
}

/// The same where they may be missing.
fn same_maybe_lookup(one: &Option<Lookup>, other: &Option<Lookup>) -> bool
    ensures { result ≡ option_eq spec.same_lookup one.now other.now }
{
    match (one, other) {
        (Some(one), Some(other)) => same_lookup(one, other),
        (None, None) => true,
        _ => false,
    }
}

#[tactic(auto, unfolding(crate::specs::Same::same_texts))]
fn same_texts(one: &Entity, other: &Entity) -> bool
    ensures { result ≡ spec.same_texts (alarm_of one.now) (alarm_of other.now) }
{
    one.name == other.name
        && one.on == other.on
        && one.units == other.units
        && one.info == other.info
        && one.to == other.to
}

#[tactic(auto, unfolding(crate::specs::Same::same_numbers))]
fn same_numbers(one: &Entity, other: &Entity) -> bool
    ensures { result ≡ spec.same_numbers (alarm_of one.now) (alarm_of other.now) }
{
    one.template == other.template
        && one.every == other.every
        && one.green == other.green
        && one.red == other.red
        && one.no_clear == other.no_clear
}

#[tactic(auto, unfolding(crate::specs::Same::same_delay))]
fn same_delay(one: &Entity, other: &Entity) -> bool
    ensures { result ≡ spec.same_delay (alarm_of one.now) (alarm_of other.now) }
{
    one.up == other.up
        && one.down == other.down
        && one.multiplier == other.multiplier
        && one.max == other.max
}

#[tactic(auto, unfolding(crate::specs::Same::same_trees))]
fn same_exprs(alloc: Global, one: &Entity, other: &Entity) -> Result<bool, AllocError>
    ensures { IfOk result (λ same. same ≡ spec.same_trees (alarm_of one.now) (alarm_of other.now)) }
{
    if !same_maybe(alloc, &one.calc, &other.calc)? {
        return Ok(false);
    }
    if !same_maybe(alloc, &one.warn, &other.warn)? {
        return Ok(false);
    }
    same_maybe(alloc, &one.crit, &other.crit)
}

/// Whether two alarms differ in no field, their expressions as trees.
#[tactic(auto, unfolding(crate::specs::Same::is_same))]
pub fn is_same(alloc: Global, one: &Entity, other: &Entity) -> Result<bool, AllocError>
    ensures { IfOk result (λ same. same ≡ spec.is_same (alarm_of one.now) (alarm_of other.now)) }
{
    if !same_texts(one, other) || !same_numbers(one, other) || !same_delay(one, other) {
        return Ok(false);
    }
    if !same_maybe_lookup(&one.lookup, &other.lookup) {
        return Ok(false);
    }
    same_exprs(alloc, one, other)
}
