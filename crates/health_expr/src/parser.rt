//! Expressions, read by recursive descent.
ghost use Rattle.std.specs.Prelude.{◌≡◌, ◌≢◌, ◌<◌, ◌≤◌, ◌-◌, length, true, false, Ok, Err, IsSome, IfErr, OnOk};
ghost use Rattle.fixed_num.specs.UnitsText.{units_read};
ghost use Rattle.health_expr.specs.Grammar as spec;
ghost use Rattle.health_expr.specs.Tree as tree;
ghost use Rattle.health_expr.specs.Words.{first, after, sees};
ghost use Rattle.health_expr.specs.Reads.{Reads, ReadsAll};
ghost use Rattle.health_expr.specs.TreeOf.{tree_of};

use crate::build::{chain, choice, prefixed, push};
use crate::cursor::Words;
use crate::expr::Expr;
use crate::fault::ExprFault;
use crate::operator::{Operator, Prefix};
use crate::word::Kind;
use fixed_num::{Text, read_units};
use std::alloc::Global;

/// Which operator a word is.
fn operator_of(kind: Kind) -> Option<Operator>
    ensures { result ≡ spec.operator_of kind }
{
    match kind {
        Kind::Star => Some(Operator::Multiply),
        Kind::Slash => Some(Operator::Divide),
        Kind::Plus => Some(Operator::Add),
        Kind::Minus => Some(Operator::Subtract),
        Kind::Less => Some(Operator::Less),
        Kind::AtMost => Some(Operator::AtMost),
        Kind::Greater => Some(Operator::Greater),
        Kind::AtLeast => Some(Operator::AtLeast),
        Kind::Equal => Some(Operator::Equal),
        Kind::NotEqual => Some(Operator::NotEqual),
        Kind::And => Some(Operator::And),
        Kind::Or => Some(Operator::Or),
        _ => None,
    }
}

/// How loosely an operator binds, from 1 to 6.
fn looseness(operator: Operator) -> u8
    ensures { result ≡ spec.looseness operator }
{
    match operator {
        Operator::Multiply | Operator::Divide => 1,
        Operator::Add | Operator::Subtract => 2,
        Operator::Less | Operator::AtMost | Operator::Greater | Operator::AtLeast => 3,
        Operator::Equal | Operator::NotEqual => 4,
        Operator::And => 5,
        Operator::Or => LOOSEST,
    }
}

/// How loosely the loosest operators bind.
const LOOSEST: u8 = 6;

/// Whether an operand may begin with a word.
fn begins_operand(kind: Kind) -> bool
    ensures { result ≡ spec.begins_operand kind }
{
    matches!(
        kind,
        Kind::Number
            | Kind::Name
            | Kind::Nan
            | Kind::Infinity
            | Kind::Abs
            | Kind::Open
            | Kind::Not
            | Kind::Plus
            | Kind::Minus
    )
}

/// The next word does not fit.
fn misfit(words: &Words<'_>) -> ExprFault
    ensures { spec.misfit words.now ≡ Err result }
{
    ExprFault::Syntax(words.place())
}

/// Nothing fits where one level too many is open.
#[tactic(auto, unfolding(crate::specs::Grammar::blocked))]
fn blocked(words: &Words<'_>) -> ExprFault
    ensures { spec.blocked words.now ≡ Err result }
{
    if begins_operand(words.kind()) {
        ExprFault::TooDeep
    } else {
        misfit(words)
    }
}

/// Passes a word of this kind.
fn pass(words: &mut Words<'_>, kind: Kind) -> Result<(), ExprFault>
    requires { kind ≢ Kind.End }
    ensures seen { OnOk result (sees kind words.old ≡ true) }
    ensures passed { OnOk result (words.new ≡ after words.old) }
    ensures other { IfErr result (λ _. sees kind words.old ≡ false) }
    ensures fault { IfErr result (λ fault. spec.misfit words.old ≡ Err fault) }
    ensures shorter { length words.new ≤ length words.old }
{
    if !words.sees(kind) {
        return Err(misfit(words));
    }
    words.pass();
    Ok(())
}

/// The operator of this looseness that comes next.
#[tactic(auto, unfolding(crate::specs::Grammar::operator_at))]
fn operator_at(words: &Words<'_>, loose: u8) -> Option<Operator>
    ensures operator { result ≡ spec.operator_at loose words.now }
    ensures more { IsSome result → (first words.now).kind ≢ Kind.End }
{
    let operator = operator_of(words.kind())?;
    if looseness(operator) == loose {
        Some(operator)
    } else {
        None
    }
}

/// The number that comes next.
fn number(words: &mut Words<'_>) -> Result<Expr, ExprFault>
    requires { (first words.old).kind ≡ Kind.Number }
    ensures read { Reads (spec.number_by (units_read (first words.old).said) words.old)
        result words.new }
    ensures shorter { length words.new ≤ length words.old }
{
    let Ok(units) = read_units(words.said().as_bytes()) else {
        return Err(ExprFault::NumberTooWide);
    };
    words.pass();
    Ok(Expr::Number(units))
}

/// The name that comes next.
fn name(alloc: Global, words: &mut Words<'_>) -> Result<Expr, ExprFault>
    requires { (first words.old).kind ≡ Kind.Name }
    ensures read { Reads (Ok (tree.name (first words.old).said, after words.old)) result words.new }
    ensures shorter { length words.new ≤ length words.old }
{
    let name = Text::from_str(alloc, words.said()).map_err(|_| ExprFault::Memory)?;
    words.pass();
    Ok(Expr::Name(name))
}

/// An operand, where one level fewer than this number may still open.
#[cycle(parser)]
fn operand(alloc: Global, words: &mut Words<'_>, levels: usize) -> Result<Expr, ExprFault>
    ensures read { Reads (spec.operand levels words.old) result words.new }
    ensures shorter { length words.new ≤ length words.old }
{
    if levels == 0 {
        return Err(blocked(words));
    }
    match words.kind() {
        Kind::Number => number(words),
        Kind::Name => name(alloc, words),
        Kind::Nan => {
            words.pass();
            Ok(Expr::Nan)
        }
        Kind::Infinity => {
            words.pass();
            Ok(Expr::Infinity)
        }
        Kind::Abs => size(alloc, words, levels - 1),
        Kind::Open => parenthesized(alloc, words, levels - 1),
        Kind::Not => with_prefix(alloc, words, levels - 1, Prefix::Not),
        Kind::Plus => with_prefix(alloc, words, levels - 1, Prefix::Plus),
        Kind::Minus => with_prefix(alloc, words, levels - 1, Prefix::Minus),
        _ => Err(misfit(words)),
    }
}

/// A prefix, which comes next, and its operand.
#[cycle(parser)]
#[tactic(auto, unfolding(crate::specs::Grammar::with_prefix))]
fn with_prefix(
    alloc: Global,
    words: &mut Words<'_>,
    levels: usize,
    prefix: Prefix,
) -> Result<Expr, ExprFault>
    requires { (first words.old).kind ≢ Kind.End }
    ensures read { Reads (spec.with_prefix prefix (spec.operand levels) (after words.old))
        result words.new }
    ensures shorter { length words.new ≤ length words.old }
{
    words.pass();
    let operand = operand(alloc, words, levels)?;
    prefixed(alloc, prefix, operand)
}

/// An `abs`, which comes next, and what it takes the size of.
#[cycle(parser)]
#[tactic(auto, unfolding(crate::specs::Grammar::with_prefix))]
fn size(alloc: Global, words: &mut Words<'_>, levels: usize) -> Result<Expr, ExprFault>
    requires { (first words.old).kind ≢ Kind.End }
    ensures read { Reads (spec.with_prefix Prefix.Abs
        (spec.parenthesized levels (spec.expression levels)) (after words.old)) result words.new }
    ensures shorter { length words.new ≤ length words.old }
{
    words.pass();
    let inner = parenthesized(alloc, words, levels)?;
    prefixed(alloc, Prefix::Abs, inner)
}

/// An expression in parentheses, of which so many may still open.
#[cycle(parser)]
#[tactic(auto, unfolding(crate::specs::Grammar::parenthesized))]
fn parenthesized(alloc: Global, words: &mut Words<'_>, levels: usize) -> Result<Expr, ExprFault>
    ensures read { Reads (spec.parenthesized levels (spec.expression levels) words.old)
        result words.new }
    ensures shorter { length words.new ≤ length words.old }
{
    pass(words, Kind::Open)?;
    if levels == 0 {
        return Err(ExprFault::TooDeep);
    }
    let inner = expression(alloc, words, levels)?;
    pass(words, Kind::Close)?;
    Ok(inner)
}

/// Operands between operators of at most this looseness.
#[cycle(parser)]
fn row(alloc: Global, words: &mut Words<'_>, levels: usize, loose: u8) -> Result<Expr, ExprFault>
    ensures read { Reads (spec.row loose (spec.operand levels) words.old) result words.new }
    ensures shorter { length words.new ≤ length words.old }
{
    if loose == 0 {
        return operand(alloc, words, levels);
    }
    let left = row(alloc, words, levels, loose - 1)?;
    steps(alloc, words, levels, loose, left)
}

/// Operators of this looseness and their right operands, behind a first operand.
#[cycle(parser)]
fn steps(
    alloc: Global,
    words: &mut Words<'_>,
    levels: usize,
    loose: u8,
    left: Expr,
) -> Result<Expr, ExprFault>
    requires { 0 < loose }
    ensures read { Reads (spec.steps (length words.old) loose
        (spec.row (loose - 1) (spec.operand levels)) (tree_of left) words.old) result words.new }
    ensures shorter { length words.new ≤ length words.old }
{
    let mut rest = Vec::new(alloc);
    while let Some(operator) = operator_at(words, loose) {
        words.pass();
        let right = row(alloc, words, levels, loose - 1)?;
        push(&mut rest, operator, right)?;
    }
    chain(alloc, left, rest)
}

/// An expression, where one level fewer than this number may still open.
#[cycle(parser)]
fn expression(alloc: Global, words: &mut Words<'_>, levels: usize) -> Result<Expr, ExprFault>
    ensures read { Reads (spec.expression levels words.old) result words.new }
    ensures shorter { length words.new ≤ length words.old }
{
    if levels == 0 {
        return Err(blocked(words));
    }
    let condition = row(alloc, words, levels, LOOSEST)?;
    if !words.sees(Kind::Question) {
        return Ok(condition);
    }
    chosen(alloc, words, levels - 1, condition)
}

/// What a condition chooses between, behind the `?` that comes next.
#[cycle(parser)]
#[tactic(auto, unfolding(crate::specs::Grammar::chosen_by))]
fn chosen(
    alloc: Global,
    words: &mut Words<'_>,
    levels: usize,
    condition: Expr,
) -> Result<Expr, ExprFault>
    requires { (first words.old).kind ≢ Kind.End }
    ensures read { Reads
        (spec.chosen_by (tree_of condition) (spec.expression levels) (after words.old))
        result words.new }
    ensures shorter { length words.new ≤ length words.old }
{
    words.pass();
    let yes = expression(alloc, words, levels)?;
    pass(words, Kind::Colon)?;
    let no = expression(alloc, words, levels)?;
    choice(alloc, condition, yes, no)
}

/// How many levels may be open at one place.
const LEVELS: usize = 64;

/// The expression that a text is.
#[tactic(auto, unfolding(crate::specs::Grammar::tree_read))]
pub fn read(alloc: Global, text: &str) -> Result<Expr, ExprFault>
    ensures { ReadsAll (spec.tree_read text.now) result }
{
    let mut words = Words::new(text);
    let expr = expression(alloc, &mut words, LEVELS + 1)?;
    if !words.sees(Kind::End) {
        return Err(misfit(&words));
    }
    Ok(expr)
}
