//! Whether constants have the same values.

ghost use Rattle.std.specs.Prelude.{◌≡◌, IsTrue};
ghost use Rattle.std.specs.Option.{option_map};
ghost use Rattle.notation_tree.specs.ComputedValues.{value_of};
ghost use Rattle.notation_meaning.specs.AgreementViews.{constants_of};

use notation_tree::arithmetic::ConstantValue;

// Whether two values are the same.
fn is_value(one: ConstantValue, other: ConstantValue) -> bool
    ensures { IsTrue result → value_of one ≡ value_of other }
{
    match one {
        ConstantValue::Number(number) => match other {
            ConstantValue::Number(found) => number == found,
            ConstantValue::Truth(_) => false,
        },
        ConstantValue::Truth(truth) => match other {
            ConstantValue::Truth(found) => truth == found,
            ConstantValue::Number(_) => false,
        },
    }
}

// Whether two constants have the same value, or none.
fn is_same(one: Option<ConstantValue>, other: Option<ConstantValue>) -> bool
    ensures { IsTrue result → option_map value_of one ≡ option_map value_of other }
{
    match one {
        None => match other {
            None => true,
            Some(_) => false,
        },
        Some(value) => match other {
            None => false,
            Some(found) => is_value(value, found),
        },
    }
}

/// Whether constants have the same values as others.
pub(crate) fn are_same(
    constants: &[Option<ConstantValue>],
    others: &[Option<ConstantValue>],
) -> bool
    ensures { IsTrue result → constants_of constants.now ≡ constants_of others.now }
{
    let mut rest = constants;
    let mut left = others;
    while let Some((one, following)) = rest.split_first() {
        let Some((other, further)) = left.split_first() else {
            return false;
        };
        if !is_same(*one, *other) {
            return false;
        }
        rest = following;
        left = further;
    }
    left.len() == 0
}
