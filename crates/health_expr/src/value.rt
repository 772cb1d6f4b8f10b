ghost use Rattle.std.specs.Prelude.{◌≡◌, ℕ, List};
ghost use Rattle.health_expr.specs.Value.{IsWithin};

use fixed_num::Units;

/// What an expression is worth.
#[derive(Clone, Copy, Debug, PartialEq, Eq)]
pub enum Value {
    /// No number.
    Nan,
    /// More than any number, or where the sign is `true` less than any.
    Inf(bool),
    /// A number of ten-millionths.
    Fixed(Units),
}

/// The values of variables.
pub trait Vars {
    ghost use Rattle.health_expr.specs.declared.value.Value.{Value};

    /// What the variable of a name is worth.
    ghost worth: { Self → List ℕ → Value };

    /// The value of the variable of this name.
    fn value(&self, name: &str) -> Value
        ensures { result ≡ worth self.now name.now };

    /// A number is within the limit.
    ghost within: { (vars : Self) (name : List ℕ) → IsWithin (worth vars name) };
}
