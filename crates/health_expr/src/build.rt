//! Expressions made of their parts.
ghost use Rattle.std.specs.Prelude.{◌≡◌, [], ◌∷◌, ◌++◌, IfOk, IsOkUnless, OnOk};
ghost use Rattle.health_expr.specs.Tree as tree;
ghost use Rattle.health_expr.specs.TreeOf as spec;
ghost use Rattle.health_expr.specs.TreeOf.{tree_of, row_of};

use crate::expr::Expr;
use crate::fault::ExprFault;
use crate::operator::{Operator, Prefix};
use std::alloc::Global;

/// An expression in memory of its own.
fn boxed(alloc: Global, expr: Expr) -> Result<Box<Expr>, ExprFault>
    ensures ok { IfOk result (λ moved. moved.value ≡ expr) }
    ensures memory { IsOkUnless result ExprFault.Memory }
{
    Box::new(alloc, expr).map_err(|_| ExprFault::Memory)
}

/// A prefix and its operand.
pub fn prefixed(alloc: Global, prefix: Prefix, operand: Expr) -> Result<Expr, ExprFault>
    ensures ok { IfOk result (λ expr. tree_of expr ≡ tree.prefixed prefix (tree_of operand)) }
    ensures memory { IsOkUnless result ExprFault.Memory }
{
    Ok(Expr::Prefix(prefix, boxed(alloc, operand)?))
}

/// A condition, and what is chosen between.
pub fn choice(alloc: Global, condition: Expr, yes: Expr, no: Expr) -> Result<Expr, ExprFault>
    ensures ok { IfOk result (λ expr. tree_of expr
        ≡ tree.chosen (tree_of condition) (tree_of yes) (tree_of no)) }
    ensures memory { IsOkUnless result ExprFault.Memory }
{
    Ok(Expr::Choice {
        condition: boxed(alloc, condition)?,
        yes: boxed(alloc, yes)?,
        no: boxed(alloc, no)?,
    })
}

/// One operator more, and its right operand.
pub fn push(
    rest: &mut Vec<(Operator, Expr)>,
    operator: Operator,
    right: Expr,
) -> Result<(), ExprFault>
    ensures ok { OnOk result (rest.new.items ≡ rest.old.items ++ (operator, right) ∷ []) }
    ensures memory { IsOkUnless result ExprFault.Memory }
{
    rest.push((operator, right)).map_err(|_| ExprFault::Memory)
}

/// Operators that bind alike and their right operands, behind the first operand.
pub fn chain(alloc: Global, first: Expr, rest: Vec<(Operator, Expr)>) -> Result<Expr, ExprFault>
    ensures ok { IfOk result
        (λ expr. tree_of expr ≡ spec.chain (tree_of first) (row_of rest.items)) }
    ensures memory { IsOkUnless result ExprFault.Memory }
{
    if rest.is_empty() {
        return Ok(first);
    }
    Ok(Expr::Binary {
        first: boxed(alloc, first)?,
        rest,
    })
}
