//! Values of expressions with no other in them.

ghost use Rattle.std.specs.Prelude.{IfSome};
ghost use Rattle.notation_meaning.specs.ModelValues.{IsSimple};
ghost use Rattle.notation_tree.specs.ComputedValues.{value_of};
ghost use Rattle.notation_meaning.specs.AgreementViews.{context_of, scope_of};

use crate::scopes::{PlaceScope, member};
use crate::setting::{Known, constant};
use notation_tree::arithmetic::ConstantValue;
use notation_tree::syntax::Expression;

/// The value of a number, a truth value, a constant or a member.
pub(crate) fn simple_value(
    known: &Known<'_>,
    scope: &PlaceScope<'_>,
    expression: &Expression,
) -> Option<ConstantValue>
    ensures { IfSome result (λ v. IsSimple (context_of known.now) (scope_of scope.now) expression.now (value_of v)) }
{
    match expression {
        Expression::Number(_, number) => Some(ConstantValue::Number(*number)),
        Expression::Truth(_, truth) => Some(ConstantValue::Truth(*truth)),
        Expression::Constant(_, number) => {
            let found = constant(known, *number)?;
            Some(found)
        }
        Expression::Member(_, number) => {
            let held = member(scope, *number)?;
            Some(ConstantValue::Number(held))
        }
        _ => None,
    }
}
