//! The words of an expression.
ghost use Rattle.std.specs.Prelude.{◌≡◌, [], ◌∷◌, ◌++◌, OnOk};
ghost use Rattle.std.specs.Cmp.Lexicographic.{pointwise};
ghost use Rattle.health_expr.specs.TreeOf.{tree_of};
ghost use Rattle.alarm_core.specs.Same as spec;
ghost use Rattle.alarm_core.specs.Rows.{row_words};

use fixed_num::{ListOf, Text, Units};
use health_expr::{Expr, Operator, Prefix};
use std::alloc::AllocError;

/// A word of an expression. What takes operands stands behind them.
#[derive(Debug, Drop)]
pub enum Word {
    Number(Units),
    Nan,
    Infinity,
    Name(Text),
    Prefixed(Prefix),
    Combined(Operator),
    Chosen,
}

/// The words of an expression.
pub type ExprWordList = ListOf<Word>;

fn push(words: &mut ExprWordList, word: Word) -> Result<(), AllocError>
    ensures { OnOk result (words.new ≡ words.old ++ word ∷ []) }
{
    words.push(word).map_err(|_| AllocError)
}

/// Adds the words of an expression.
#[cycle(push)]
pub fn push_words(words: &mut ExprWordList, expr: &Expr) -> Result<(), AllocError>
    ensures { OnOk result (words.new ≡ words.old ++ spec.words (tree_of expr.now)) }
{
    match expr {
        Expr::Number(units) => push(words, Word::Number(*units)),
        Expr::Nan => push(words, Word::Nan),
        Expr::Infinity => push(words, Word::Infinity),
        Expr::Name(name) => push(words, Word::Name(name.clone()?)),
        Expr::Prefix(prefix, operand) => {
            push_words(words, operand)?;
            push(words, Word::Prefixed(*prefix))
        }
        Expr::Binary { first, rest } => {
            push_words(words, first)?;
            push_rest(words, rest)
        }
        Expr::Choice { condition, yes, no } => {
            push_words(words, condition)?;
            push_words(words, yes)?;
            push_words(words, no)?;
            push(words, Word::Chosen)
        }
    }
}

/// Adds the words of a row of operators, each behind its right operand.
#[cycle(push)]
fn push_rest(words: &mut ExprWordList, rest: &Vec<(Operator, Expr)>) -> Result<(), AllocError>
    ensures { OnOk result (words.new ≡ words.old ++ row_words rest.now.items) }
{
    for (operator, operand) in rest {
        push_words(words, operand)?;
        push(words, Word::Combined(*operator))?;
    }
    Ok(())
}

/// The number by which prefixes are compared.
fn prefix_number(prefix: Prefix) -> u8
    ensures { result ≡ spec.prefix_number prefix }
{
    match prefix {
        Prefix::Not => 0,
        Prefix::Minus => 1,
        Prefix::Plus => 2,
        Prefix::Abs => 3,
    }
}

/// The number by which operators are compared.
fn operator_number(operator: Operator) -> u8
    ensures { result ≡ spec.operator_number operator }
{
    match operator {
        Operator::Or => 0,
        Operator::And => 1,
        Operator::Equal => 2,
        Operator::NotEqual => 3,
        Operator::Less => 4,
        Operator::AtMost => 5,
        Operator::Greater => 6,
        Operator::AtLeast => 7,
        Operator::Add => 8,
        Operator::Subtract => 9,
        Operator::Multiply => 10,
        Operator::Divide => 11,
    }
}

/// Whether two words are the same.
fn same_word(one: &Word, other: &Word) -> bool
    ensures { result ≡ spec.same_word one.now other.now }
{
    match (one, other) {
        (Word::Number(one), Word::Number(other)) => *one == *other,
        (Word::Nan, Word::Nan) => true,
        (Word::Infinity, Word::Infinity) => true,
        (Word::Name(one), Word::Name(other)) => one.as_str() == other.as_str(),
        (Word::Prefixed(one), Word::Prefixed(other)) => {
            prefix_number(*one) == prefix_number(*other)
        }
        (Word::Combined(one), Word::Combined(other)) => {
            operator_number(*one) == operator_number(*other)
        }
        (Word::Chosen, Word::Chosen) => true,
        _ => false,
    }
}

/// Whether two rows of words are the same.
pub fn same_words(one: &[Word], other: &[Word]) -> bool
    ensures { result ≡ pointwise spec.same_word one.now other.now }
{
    if one.len() != other.len() {
        return false;
    }
    for i in 0..one.len() {
        if !same_word(&one[i], &other[i]) {
            return false;
        }
    }
    true
}
