ghost use Rattle.std.specs.Prelude.{◌≡◌};
ghost use Rattle.health_expr.specs.Operators.{prefixed, combined};
ghost use Rattle.health_expr.specs.Value.{IsWithin};

use crate::arithmetic::{
    at_most, difference, equal, is_true, less, negated, product, quotient, size, sum, truth,
};
use crate::value::Value;

/// What stands before an operand.
#[derive(Clone, Copy, Debug, PartialEq, Eq)]
pub enum Prefix {
    /// `!` or `NOT`.
    Not,
    /// `-`
    Minus,
    /// `+`
    Plus,
    /// `abs`
    Abs,
}

/// What stands between two operands.
#[derive(Clone, Copy, Debug, PartialEq, Eq)]
pub enum Operator {
    /// `||` or `OR`.
    Or,
    /// `&&` or `AND`.
    And,
    /// `==`
    Equal,
    /// `!=` or `<>`.
    NotEqual,
    /// `<`
    Less,
    /// `<=`
    AtMost,
    /// `>`
    Greater,
    /// `>=`
    AtLeast,
    /// `+`
    Add,
    /// `-`
    Subtract,
    /// `*`
    Multiply,
    /// `/`
    Divide,
}

impl Prefix {
    /// What it makes of a value.
    pub(crate) fn apply(self, a: Value) -> Value
        requires { IsWithin a }
        ensures value { result ≡ prefixed self a }
        ensures within { IsWithin result }
    {
        match self {
            Prefix::Not => truth(!is_true(a)),
            Prefix::Minus => negated(a),
            Prefix::Plus => a,
            Prefix::Abs => size(a),
        }
    }
}

impl Operator {
    /// What it makes of two values.
    pub(crate) fn apply(self, a: Value, b: Value) -> Value
        requires left { IsWithin a }
        requires right { IsWithin b }
        ensures value { result ≡ combined self a b }
        ensures within { IsWithin result }
    {
        match self {
            Operator::Or => truth(is_true(a) || is_true(b)),
            Operator::And => truth(is_true(a) && is_true(b)),
            Operator::Equal => truth(equal(a, b)),
            Operator::NotEqual => truth(!equal(a, b)),
            Operator::Less => truth(less(a, b)),
            Operator::AtMost => truth(at_most(a, b)),
            Operator::Greater => truth(less(b, a)),
            Operator::AtLeast => truth(at_most(b, a)),
            Operator::Add => sum(a, b),
            Operator::Subtract => difference(a, b),
            Operator::Multiply => product(a, b),
            Operator::Divide => quotient(a, b),
        }
    }
}
