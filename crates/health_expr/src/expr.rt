ghost use Rattle.std.specs.Prelude.{◌≡◌, ℕ, Ok, Err, IfOk};
ghost use Rattle.health_expr.specs.Faults.{IsMisfit, IsTooDeep, IsTooWide};
ghost use Rattle.health_expr.specs.Grammar.{tree_read};
ghost use Rattle.health_expr.specs.Spelling.{IsSpelling};
ghost use Rattle.health_expr.specs.Tree.{worth};
ghost use Rattle.health_expr.specs.TreeOf.{tree_of, combined_all};
ghost use Rattle.health_expr.specs.Value.{IsWithin};

use crate::arithmetic::{fixed, is_true};
use crate::fault::ExprFault;
use crate::operator::{Operator, Prefix};
use crate::parser;
use crate::value::{Value, Vars};
use fixed_num::{Text, Units};
use std::alloc::Global;

/// An expression that was read.
#[derive(Debug, Drop)]
pub enum Expr {
    /// A number of ten-millionths.
    Number(Units),
    /// `nan`
    Nan,
    /// `inf`
    Infinity,
    /// `$name` or `${name}`.
    Name(Text),
    /// A prefix, or `abs`, and its operand.
    Prefix(Prefix, Box<Expr>),
    /// Operators that bind alike, which are taken from the left.
    Binary {
        first: Box<Expr>,
        rest: Vec<(Operator, Expr)>,
    },
    /// `condition ? yes : no`
    Choice {
        condition: Box<Expr>,
        yes: Box<Expr>,
        no: Box<Expr>,
    },
}

impl Expr {
    /// Reads an expression, which is all of the text. Where the text has several faults, the first in
    /// it is told; `Memory` may come before any.
    pub fn read(alloc: Global, text: &str) -> Result<Expr, ExprFault>
        ensures tree { IfOk result (λ expr. tree_read text.now ≡ Ok (tree_of expr)) }
        ensures syntax { (place : ℕ) → result ≡ Err (ExprFault.Syntax place)
            → tree_read text.now ≡ Err (ExprFault.Syntax place) }
        ensures too_deep { result ≡ Err ExprFault.TooDeep
            → tree_read text.now ≡ Err ExprFault.TooDeep }
        ensures too_wide { result ≡ Err ExprFault.NumberTooWide
            → tree_read text.now ≡ Err ExprFault.NumberTooWide }
        ensures spelling { IfOk result (λ expr. IsSpelling text.now (tree_of expr)) }
        ensures misfit { (place : ℕ) → result ≡ Err (ExprFault.Syntax place)
            → IsMisfit text.now place }
        ensures levels { result ≡ Err ExprFault.TooDeep → IsTooDeep text.now }
        ensures number { result ≡ Err ExprFault.NumberTooWide → IsTooWide text.now }
    {
        parser::read(alloc, text)
    }

    /// What the expression is worth. It takes no memory.
    #[cycle(eval)]
    pub fn eval<V: Vars>(&self, vars: &V) -> Value
        ensures value { result ≡ worth (V.worth vars.now) (tree_of self.now) }
        ensures within { IsWithin result }
    {
        match self {
            Expr::Number(units) => fixed(*units),
            Expr::Nan => Value::Nan,
            Expr::Infinity => Value::Inf(false),
            Expr::Name(name) => vars.value(name.as_str()),
            Expr::Prefix(prefix, operand) => prefix.apply(operand.eval(vars)),
            Expr::Binary { first, rest } => eval_rest(first.eval(vars), rest, vars),
            Expr::Choice { condition, yes, no } => {
                if is_true(condition.eval(vars)) {
                    yes.eval(vars)
                } else {
                    no.eval(vars)
                }
            }
        }
    }
}

/// What the operators make of a value and of the operands, from the left.
#[cycle(eval)]
fn eval_rest<V: Vars>(first: Value, rest: &Vec<(Operator, Expr)>, vars: &V) -> Value
    requires { IsWithin first }
    ensures value { result ≡ combined_all (V.worth vars.now) first rest.now.items }
    ensures within { IsWithin result }
{
    let mut value = first;
    for (operator, operand) in rest {
        value = operator.apply(value, operand.eval(vars));
    }
    value
}
