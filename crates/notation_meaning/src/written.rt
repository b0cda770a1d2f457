//! Values and names as they are written in the process language.

ghost use Rattle.std.specs.Prelude.{◌≡◌, ℕ, IfOk};
ghost use Rattle.dbg_base.specs.Trees.{tree_of, Variable, Count, Not, Negate};
ghost use Rattle.notation_meaning.specs.PlainExpressions.{Names, IsWritten};
ghost use Rattle.notation_tree.specs.ComputedValues.{value_of};
ghost use Rattle.notation_meaning.specs.AgreementViews.{IsNamed, context_of, scope_of, setting_of};

use crate::difference::DIFFERENT;
use crate::names::{check_name, named};
use crate::scopes::PlaceScope;
use crate::setting::{Known, PlainSetting};
use dbg_base::{Direction, Expr, Pid};
use notation_tree::arithmetic::ConstantValue;
use notation_tree::fault::Expanding;
use notation_tree::syntax::Reference;

/// Whether a plain expression is a value as it is written.
pub(crate) fn is_written(value: ConstantValue, tree: &Expr) -> Expanding<()>
    ensures { IfOk result (λ _. IsWritten (value_of value) (tree_of tree.now)) }
{
    match value {
        ConstantValue::Truth(truth) => match tree {
            Expr::Truth(found) => {
                if truth != *found {
                    return Err(DIFFERENT);
                }
                Ok(())
            }
            _ => Err(DIFFERENT),
        },
        ConstantValue::Number(number) => {
            if number >= 0 {
                let Expr::Number(found) = tree else {
                    return Err(DIFFERENT);
                };
                if *found != number {
                    return Err(DIFFERENT);
                }
                return Ok(());
            }
            let Expr::Negate(operand) = tree else {
                return Err(DIFFERENT);
            };
            let Expr::Number(found) = &**operand else {
                return Err(DIFFERENT);
            };
            if number == i64::MIN || *found != -number {
                return Err(DIFFERENT);
            }
            Ok(())
        }
    }
}

/// The plain name of a reference.
pub(crate) fn plain_name(
    known: &Known<'_>,
    scope: &PlaceScope<'_>,
    reference: &Reference,
    depth: u32,
) -> Expanding<Vec<u8>>
    ensures { IfOk result (λ name. IsNamed (context_of known.now) (scope_of scope.now) reference.now name.items) }
{
    let start = Vec::from_slice(known.alloc, reference.name.bytes())?;
    named(known, scope, start, reference.indices.as_slice(), depth)
}

/// Whether a reference names the variable of this number.
pub(crate) fn names_variable(
    setting: &PlainSetting<'_>,
    scope: &PlaceScope<'_>,
    reference: &Reference,
    index: u32,
    depth: u32,
) -> Expanding<()>
    ensures { IfOk result (λ _. Names (setting_of setting.now).context (scope_of scope.now) reference.now
        (setting_of setting.now).variables index) }
{
    let name = plain_name(&setting.known, scope, reference, depth)?;
    let found = setting.program.variable_name(setting.own, index);
    check_name(found, name.as_slice())
}

/// Whether a reference names the process of this number.
pub(crate) fn names_process(
    setting: &PlainSetting<'_>,
    scope: &PlaceScope<'_>,
    reference: &Reference,
    pid: Pid,
    depth: u32,
) -> Expanding<()>
    ensures { IfOk result (λ _. Names (setting_of setting.now).context (scope_of scope.now) reference.now
        (setting_of setting.now).processes pid.0) }
{
    let name = plain_name(&setting.known, scope, reference, depth)?;
    check_name(setting.program.process_name(pid), name.as_slice())
}

/// Whether a name is this plain variable.
pub(crate) fn is_variable(
    setting: &PlainSetting<'_>,
    scope: &PlaceScope<'_>,
    reference: &Reference,
    tree: &Expr,
    depth: u32,
) -> Expanding<()>
    ensures { IfOk result (λ _. (i : ℕ) × (tree_of tree.now ≡ Variable i)
        × Names (setting_of setting.now).context (scope_of scope.now) reference.now (setting_of setting.now).variables i) }
{
    let Expr::Variable(index) = tree else {
        return Err(DIFFERENT);
    };
    names_variable(setting, scope, reference, *index, depth)
}

/// Whether a count of messages is this plain one.
pub(crate) fn is_count(
    setting: &PlainSetting<'_>,
    scope: &PlaceScope<'_>,
    direction: Direction,
    other: &Reference,
    tree: &Expr,
    depth: u32,
) -> Expanding<()>
    ensures { IfOk result (λ _. (p : ℕ) × (tree_of tree.now ≡ Count direction p)
        × Names (setting_of setting.now).context (scope_of scope.now) other.now (setting_of setting.now).processes p) }
{
    match (direction, tree) {
        (Direction::Sent, Expr::Sent(pid)) => names_process(setting, scope, other, *pid, depth),
        (Direction::Got, Expr::Got(pid)) => names_process(setting, scope, other, *pid, depth),
        _ => Err(DIFFERENT),
    }
}

/// The operand of a plain `not`.
pub(crate) fn operand_of_not(tree: &Expr) -> Expanding<&Expr>
    ensures { IfOk result (λ found. tree_of tree.now ≡ Not (tree_of found.now)) }
{
    match tree {
        Expr::Not(operand) => Ok(operand),
        _ => Err(DIFFERENT),
    }
}

/// The operand of a plain minus sign.
pub(crate) fn operand_of_minus(tree: &Expr) -> Expanding<&Expr>
    ensures { IfOk result (λ found. tree_of tree.now ≡ Negate (tree_of found.now)) }
{
    match tree {
        Expr::Negate(operand) => Ok(operand),
        _ => Err(DIFFERENT),
    }
}
