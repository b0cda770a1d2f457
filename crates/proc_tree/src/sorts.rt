//! The types of operators' results and operands.

ghost use Rattle.std.specs.Prelude.{◌≡◌};
ghost use Rattle.dbg_base.specs.Sorts.{outcome_sort, operand_sort};

use dbg_base::{Operator, Sort};

/// The type of the operator's result.
pub fn outcome_sort(operator: Operator) -> Sort
    ensures { result ≡ outcome_sort operator }
{
    match operator {
        Operator::Add
        | Operator::Subtract
        | Operator::Multiply
        | Operator::Divide
        | Operator::Remainder => Sort::Number,
        _ => Sort::Truth,
    }
}

/// The type of the operator's operands.
pub fn operand_sort(operator: Operator) -> Sort
    ensures { result ≡ operand_sort operator }
{
    match operator {
        Operator::And | Operator::Or => Sort::Truth,
        _ => Sort::Number,
    }
}
