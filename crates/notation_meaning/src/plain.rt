//! Whether an expression of a model means a plain expression.

ghost use Rattle.std.specs.Prelude.{◌≡◌, pos, ◌<ℤ◌, length, IfOk, IsTrue};
ghost use Rattle.dbg_base.specs.Trees.{tree_of};
ghost use Rattle.notation_tree.specs.ComputedValues.{value_of};
ghost use Rattle.notation_meaning.specs.AgreementViews.{scope_of, setting_of};
ghost use Rattle.notation_meaning.specs.PlainExpressions.{Means, FormMeans, ChainMeans, Joined, AtLeast};

use crate::difference::{DIFFERENT, deeper};
use crate::scopes::{PlaceScope, argument};
use crate::setting::{PlainSetting, callee};
use crate::simple::simple_value;
use crate::values::{count_of, members, number};
use crate::written::{is_count, is_variable, is_written, operand_of_minus, operand_of_not};
use dbg_base::{Expr, Operator};
use notation_tree::arithmetic::ConstantValue;
use notation_tree::fault::Expanding;
use notation_tree::syntax::{Each, Expression, FormNode, Link};

// How the expressions of members are joined, and the value where there are no members.
#[derive(Clone, Copy)]
struct Joint {
    operator: Operator,
    nothing: ConstantValue,
}

// How `sum` joins.
const TOTAL: Joint = Joint {
    operator: Operator::Add,
    nothing: ConstantValue::Number(0),
};
// How `all` joins.
const EVERY: Joint = Joint {
    operator: Operator::And,
    nothing: ConstantValue::Truth(true),
};
// How `some` joins.
const ANY: Joint = Joint {
    operator: Operator::Or,
    nothing: ConstantValue::Truth(false),
};

// Whether two operators are the same.
fn is_operator(one: Operator, other: Operator) -> bool
    ensures { IsTrue result → one ≡ other }
{
    one == other
}

/// Whether an expression means this plain expression.
#[cycle(meaning)]
pub(crate) fn means(
    setting: &PlainSetting<'_>,
    scope: &PlaceScope<'_>,
    expression: &Expression,
    tree: &Expr,
    depth: u32,
) -> Expanding<()>
    ensures { IfOk result (λ _. Means (setting_of setting.now) (scope_of scope.now) expression.now (tree_of tree.now)) }
{
    let inner = deeper(depth)?;
    if let Some(value) = simple_value(&setting.known, scope, expression) {
        return is_written(value, tree);
    }
    match expression {
        Expression::Parameter(_, number) => {
            let Some(meant) = argument(&*scope, *number) else {
                return Err(DIFFERENT);
            };
            means(setting, meant.scope, meant.expression, tree, inner)
        }
        Expression::Name(reference) => is_variable(setting, scope, reference, tree, inner),
        Expression::Count(_, direction, other) => {
            is_count(setting, scope, *direction, other, tree, inner)
        }
        Expression::Call(_, number, arguments) => {
            let definition = callee(&setting.known, *number, arguments.as_slice())?;
            let within = PlaceScope::Call(definition.first, arguments.as_slice(), &*scope);
            means(setting, &within, &definition.body, tree, inner)
        }
        Expression::Not(_, operand) => {
            let found = operand_of_not(tree)?;
            means(setting, scope, operand, found, inner)
        }
        Expression::Negate(_, operand) => {
            let found = operand_of_minus(tree)?;
            means(setting, scope, operand, found, inner)
        }
        Expression::Chain(_, first, links) => {
            chain_means(setting, scope, first, links.as_slice(), tree, inner)
        }
        Expression::Each(each) => form_means(setting, scope, each, tree, inner),
        _ => Err(DIFFERENT),
    }
}

// Whether a form means this plain expression.
#[cycle(meaning)]
fn form_means(
    setting: &PlainSetting<'_>,
    scope: &PlaceScope<'_>,
    each: &Each,
    tree: &Expr,
    depth: u32,
) -> Expanding<()>
    ensures { IfOk result (λ _. FormMeans (setting_of setting.now) (scope_of scope.now) each.now (tree_of tree.now)) }
{
    let inner = deeper(depth)?;
    let found = members(&setting.known, scope, &each.binder, inner)?;
    let members = found.as_slice();
    match each.form {
        FormNode::Sum => joined(setting, scope, each, TOTAL, members, tree, inner),
        FormNode::All => joined(setting, scope, each, EVERY, members, tree, inner),
        FormNode::Some => joined(setting, scope, each, ANY, members, tree, inner),
        FormNode::AtLeast => {
            let Some(least) = &each.least else {
                return Err(DIFFERENT);
            };
            let wanted = number(&setting.known, scope, least, inner)?;
            at_least(setting, scope, each, wanted, members, tree, inner)
        }
    }
}

// Whether operands with operators between them mean this plain expression.
#[cycle(meaning)]
fn chain_means(
    setting: &PlainSetting<'_>,
    scope: &PlaceScope<'_>,
    first: &Expression,
    links: &[Link],
    tree: &Expr,
    depth: u32,
) -> Expanding<()>
    ensures { IfOk result (λ _. ChainMeans (setting_of setting.now) (scope_of scope.now) first.now links.now (tree_of tree.now)) }
{
    let inner = deeper(depth)?;
    match links.split_last() {
        None => means(setting, scope, first, tree, inner),
        Some((link, before)) => {
            let Expr::Binary(operator, left, right) = tree else {
                return Err(DIFFERENT);
            };
            if !is_operator(link.operator, *operator) {
                return Err(DIFFERENT);
            }
            chain_means(setting, scope, first, before, left, inner)?;
            means(setting, scope, &link.operand, right, inner)
        }
    }
}

// Whether the expression of a form for each of these members, joined, is this plain expression.
#[cycle(meaning)]
fn joined(
    setting: &PlainSetting<'_>,
    scope: &PlaceScope<'_>,
    each: &Each,
    joint: Joint,
    members: &[i64],
    tree: &Expr,
    depth: u32,
) -> Expanding<()>
    ensures { IfOk result (λ _. Joined (setting_of setting.now) (scope_of scope.now) each.now joint.operator (value_of joint.nothing) members.now
        (tree_of tree.now)) }
{
    let inner = deeper(depth)?;
    match members.split_first() {
        None => is_written(joint.nothing, tree),
        Some((only, others)) => {
            if others.len() == 0 {
                let within = PlaceScope::Member(each.binder.member, *only, &*scope);
                return means(setting, &within, &each.body, tree, inner);
            }
            let Expr::Binary(found, left, right) = tree else {
                return Err(DIFFERENT);
            };
            if !is_operator(joint.operator, *found) {
                return Err(DIFFERENT);
            }
            let (prefix, rest) = members.split_at(members.len() - members.len() / 2);
            joined(setting, scope, each, joint, prefix, left, inner)?;
            joined(setting, scope, each, joint, rest, right, inner)
        }
    }
}

// Whether this plain expression says that the expression of a form is true for so many of these members.
#[cycle(meaning)]
fn at_least(
    setting: &PlainSetting<'_>,
    scope: &PlaceScope<'_>,
    each: &Each,
    least: i64,
    members: &[i64],
    tree: &Expr,
    depth: u32,
) -> Expanding<()>
    ensures { IfOk result (λ _. AtLeast (setting_of setting.now) (scope_of scope.now) each.now least members.now (tree_of tree.now)) }
{
    let inner = deeper(depth)?;
    let count = count_of(members)?;
    if least <= 0 {
        return is_written(ConstantValue::Truth(true), tree);
    }
    if count < least {
        return is_written(ConstantValue::Truth(false), tree);
    }
    if least == count {
        return joined(setting, scope, each, EVERY, members, tree, inner);
    }
    if least == 1 {
        return joined(setting, scope, each, ANY, members, tree, inner);
    }
    either(setting, scope, each, least, members, tree, inner)
}

// The same for a number above 1, and below that of the members.
#[cycle(meaning)]
fn either(
    setting: &PlainSetting<'_>,
    scope: &PlaceScope<'_>,
    each: &Each,
    least: i64,
    members: &[i64],
    tree: &Expr,
    depth: u32,
) -> Expanding<()>
    requires above { pos 1 <ℤ least }
    requires below { least <ℤ pos (length members.now) }
    ensures { IfOk result (λ _. AtLeast (setting_of setting.now) (scope_of scope.now) each.now least members.now (tree_of tree.now)) }
{
    let inner = deeper(depth)?;
    let Some((first, others)) = members.split_first() else {
        return Err(DIFFERENT);
    };
    let Expr::Binary(Operator::Or, both, without) = tree else {
        return Err(DIFFERENT);
    };
    let Expr::Binary(Operator::And, holds, with) = &**both else {
        return Err(DIFFERENT);
    };
    let within = PlaceScope::Member(each.binder.member, *first, &*scope);
    means(setting, &within, &each.body, holds, inner)?;
    at_least(setting, scope, each, least - 1, others, with, inner)?;
    at_least(setting, scope, each, least, others, without, inner)
}
