//! Values of expressions.

ghost use Rattle.std.specs.Prelude.{◌≡◌, Some};
ghost use Rattle.dbg_base.specs.Evaluation.{number_of};
ghost use Rattle.dbg_base.specs.Firing.{truth_of};
ghost use Rattle.local_eval.specs.Outcomes.{value_of, outcome};

use crate::fault::EvalFault;

/// The value of an expression.
#[derive(Clone, Copy, Debug, PartialEq, Eq)]
pub enum Value {
    /// A number.
    Num(i64),
    /// A truth value.
    Truth(bool),
}

// The number, or a fault at a truth value.
pub(crate) fn number(value: Value) -> Result<i64, EvalFault>
    ensures { outcome (λ z. z) result ≡ number_of (Some (value_of value)) }
{
    match value {
        Value::Num(number) => Ok(number),
        Value::Truth(_) => Err(EvalFault),
    }
}

// The truth value, or a fault at a number.
pub(crate) fn truth(value: Value) -> Result<bool, EvalFault>
    ensures { outcome (λ b. b) result ≡ truth_of (Some (value_of value)) }
{
    match value {
        Value::Num(_) => Err(EvalFault),
        Value::Truth(truth) => Ok(truth),
    }
}
