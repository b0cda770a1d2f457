//! Values that are computed, and their arithmetic: that of the process language.

ghost use Rattle.std.specs.Prelude.{◌≡◌, pos, ◌-ℤ◌};
ghost use Rattle.std.specs.Option.{option_map};
ghost use Rattle.dbg_base.specs.Evaluation.{Num, ranged, on_numbers};
ghost use Rattle.notation_tree.specs.ComputedValues.{value_of};

use dbg_base::Operator;

/// A value that was computed.
#[derive(Clone, Copy)]
pub enum ConstantValue {
    Number(i64),
    Truth(bool),
}

// The number, if it is in range.
fn in_range(number: Option<i64>) -> Option<ConstantValue>
    ensures { option_map value_of result ≡ option_map Num number }
{
    match number {
        Some(number) => Some(ConstantValue::Number(number)),
        None => None,
    }
}

/// The negative of a number.
pub fn negated(number: i64) -> Option<ConstantValue>
    ensures { option_map value_of result ≡ ranged (pos 0 -ℤ number) }
{
    in_range(number.checked_neg())
}

/// An operator on two numbers.
pub fn calculated(operator: Operator, x: i64, y: i64) -> Option<ConstantValue>
    ensures { option_map value_of result ≡ on_numbers operator x y }
{
    match operator {
        Operator::Add => in_range(x.checked_add(y)),
        Operator::Subtract => in_range(x.checked_sub(y)),
        Operator::Multiply => in_range(x.checked_mul(y)),
        Operator::Divide => in_range(x.checked_div(y)),
        Operator::Remainder => in_range(x.checked_rem(y)),
        Operator::Equal => Some(ConstantValue::Truth(x == y)),
        Operator::NotEqual => Some(ConstantValue::Truth(x != y)),
        Operator::Less => Some(ConstantValue::Truth(x < y)),
        Operator::LessOrEqual => Some(ConstantValue::Truth(x <= y)),
        Operator::Greater => Some(ConstantValue::Truth(x > y)),
        Operator::GreaterOrEqual => Some(ConstantValue::Truth(x >= y)),
        Operator::And | Operator::Or => None,
    }
}
