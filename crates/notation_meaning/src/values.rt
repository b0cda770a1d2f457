//! Values that are computed: an evaluator of its own, which never changes a scope.

ghost use Rattle.std.specs.Prelude.{◌≡◌, pos, length, IfOk};
ghost use Rattle.dbg_base.specs.Evaluation.{Num, Tru};
ghost use Rattle.notation_tree.specs.ComputedValues.{value_of};
ghost use Rattle.notation_meaning.specs.AgreementViews.{context_of, scope_of};
ghost use Rattle.notation_meaning.specs.ModelValues.{HasValue, FormGives, LinksGive, LinkGives, HasMembers, MembersFrom, ConditionIs, SumIs, EnoughHold};

use crate::difference::{DIFFERENT, deeper};
use crate::scopes::{PlaceScope, argument};
use crate::setting::{Known, callee};
use crate::simple::simple_value;
use dbg_base::Operator;
use notation_tree::arithmetic::{ConstantValue, calculated, negated};
use notation_tree::fault::Expanding;
use notation_tree::syntax::{Binder, Each, Expression, FormNode, Link};

/// The value of an expression.
#[cycle(values)]
pub(crate) fn value(
    known: &Known<'_>,
    scope: &PlaceScope<'_>,
    expression: &Expression,
    depth: u32,
) -> Expanding<ConstantValue>
    ensures { IfOk result (λ v. HasValue (context_of known.now) (scope_of scope.now) expression.now (value_of v)) }
{
    let inner = deeper(depth)?;
    if let Some(found) = simple_value(known, scope, expression) {
        return Ok(found);
    }
    match expression {
        Expression::Parameter(_, number) => {
            let Some(meant) = argument(&*scope, *number) else {
                return Err(DIFFERENT);
            };
            value(known, meant.scope, meant.expression, inner)
        }
        Expression::Call(_, number, arguments) => {
            let definition = callee(known, *number, arguments.as_slice())?;
            let within = PlaceScope::Call(definition.first, arguments.as_slice(), &*scope);
            value(known, &within, &definition.body, inner)
        }
        Expression::Not(_, operand) => {
            let held = truth(known, scope, operand, inner)?;
            Ok(ConstantValue::Truth(!held))
        }
        Expression::Negate(_, operand) => {
            let held = number(known, scope, operand, inner)?;
            let Some(opposite) = negated(held) else {
                return Err(DIFFERENT);
            };
            Ok(opposite)
        }
        Expression::Chain(_, first, links) => {
            let left = value(known, scope, first, inner)?;
            linked(known, scope, left, links.as_slice(), inner)
        }
        Expression::Each(each) => form_value(known, scope, each, inner),
        _ => Err(DIFFERENT),
    }
}

// The value of a form.
#[cycle(values)]
fn form_value(
    known: &Known<'_>,
    scope: &PlaceScope<'_>,
    each: &Each,
    depth: u32,
) -> Expanding<ConstantValue>
    ensures { IfOk result (λ v. FormGives (context_of known.now) (scope_of scope.now) each.now (value_of v)) }
{
    let inner = deeper(depth)?;
    let found = members(known, scope, &each.binder, inner)?;
    match each.form {
        FormNode::Sum => {
            let total = sum(known, scope, each, found.as_slice(), inner)?;
            Ok(ConstantValue::Number(total))
        }
        FormNode::All => {
            let count = count_of(found.as_slice())?;
            let all = enough(known, scope, each, count, found.as_slice(), inner)?;
            Ok(ConstantValue::Truth(all))
        }
        FormNode::Some => {
            let some = enough(known, scope, each, 1, found.as_slice(), inner)?;
            Ok(ConstantValue::Truth(some))
        }
        FormNode::AtLeast => {
            let Some(least) = &each.least else {
                return Err(DIFFERENT);
            };
            let wanted = number(known, scope, least, inner)?;
            let held = enough(known, scope, each, wanted, found.as_slice(), inner)?;
            Ok(ConstantValue::Truth(held))
        }
    }
}

/// The number that an expression gives.
#[cycle(values)]
pub(crate) fn number(
    known: &Known<'_>,
    scope: &PlaceScope<'_>,
    expression: &Expression,
    depth: u32,
) -> Expanding<i64>
    ensures { IfOk result (λ z. HasValue (context_of known.now) (scope_of scope.now) expression.now (Num z)) }
{
    let inner = deeper(depth)?;
    let found = value(known, scope, expression, inner)?;
    match found {
        ConstantValue::Number(number) => Ok(number),
        ConstantValue::Truth(_) => Err(DIFFERENT),
    }
}

/// The truth value that an expression gives.
#[cycle(values)]
pub(crate) fn truth(
    known: &Known<'_>,
    scope: &PlaceScope<'_>,
    expression: &Expression,
    depth: u32,
) -> Expanding<bool>
    ensures { IfOk result (λ b. HasValue (context_of known.now) (scope_of scope.now) expression.now (Tru b)) }
{
    let inner = deeper(depth)?;
    let found = value(known, scope, expression, inner)?;
    match found {
        ConstantValue::Truth(truth) => Ok(truth),
        ConstantValue::Number(_) => Err(DIFFERENT),
    }
}

// What operators with their right operands give after a left operand.
#[cycle(values)]
fn linked(
    known: &Known<'_>,
    scope: &PlaceScope<'_>,
    left: ConstantValue,
    links: &[Link],
    depth: u32,
) -> Expanding<ConstantValue>
    ensures { IfOk result (λ v. LinksGive (context_of known.now) (scope_of scope.now) (value_of left) links.now (value_of v)) }
{
    let inner = deeper(depth)?;
    let mut held = left;
    let mut rest = links;
    while let Some((link, others)) = rest.split_first() {
        held = one_link(known, scope, held, link, inner)?;
        rest = others;
    }
    Ok(held)
}

// What an operator with its right operand gives after a left operand.
#[cycle(values)]
fn one_link(
    known: &Known<'_>,
    scope: &PlaceScope<'_>,
    left: ConstantValue,
    link: &Link,
    depth: u32,
) -> Expanding<ConstantValue>
    ensures { IfOk result (λ v. LinkGives (context_of known.now) (scope_of scope.now) (value_of left) link.now (value_of v)) }
{
    let inner = deeper(depth)?;
    match left {
        ConstantValue::Truth(held) => match link.operator {
            Operator::And => {
                if !held {
                    return Ok(ConstantValue::Truth(false));
                }
                let right = truth(known, scope, &link.operand, inner)?;
                Ok(ConstantValue::Truth(right))
            }
            Operator::Or => {
                if held {
                    return Ok(ConstantValue::Truth(true));
                }
                let right = truth(known, scope, &link.operand, inner)?;
                Ok(ConstantValue::Truth(right))
            }
            _ => Err(DIFFERENT),
        },
        ConstantValue::Number(x) => {
            let y = number(known, scope, &link.operand, inner)?;
            let Some(found) = calculated(link.operator, x, y) else {
                return Err(DIFFERENT);
            };
            Ok(found)
        }
    }
}

// Whether the condition of a range holds.
#[cycle(values)]
fn condition(
    known: &Known<'_>,
    scope: &PlaceScope<'_>,
    binder: &Binder,
    depth: u32,
) -> Expanding<bool>
    ensures { IfOk result (λ b. ConditionIs (context_of known.now) (scope_of scope.now) binder.now b) }
{
    let inner = deeper(depth)?;
    match &binder.condition {
        None => Ok(true),
        Some(wanted) => truth(known, scope, wanted, inner),
    }
}

/// The members of a range for which its condition holds, in order.
#[cycle(values)]
pub(crate) fn members(
    known: &Known<'_>,
    scope: &PlaceScope<'_>,
    binder: &Binder,
    depth: u32,
) -> Expanding<Vec<i64>>
    ensures { IfOk result (λ ms. HasMembers (context_of known.now) (scope_of scope.now) binder.now ms.items) }
{
    let inner = deeper(depth)?;
    let low = number(known, scope, &binder.low, inner)?;
    let high = number(known, scope, &binder.high, inner)?;
    between(known, scope, binder, low, high, inner)
}

// The members between two bounds for which the condition holds.
#[cycle(values)]
fn between(
    known: &Known<'_>,
    scope: &PlaceScope<'_>,
    binder: &Binder,
    low: i64,
    high: i64,
    depth: u32,
) -> Expanding<Vec<i64>>
    ensures { IfOk result (λ ms. MembersFrom (context_of known.now) (scope_of scope.now) binder.now low high ms.items) }
{
    let inner = deeper(depth)?;
    let mut found = Vec::new(known.alloc);
    let mut next = low;
    for _ in 0..u64::MAX {
        if next > high {
            return Ok(found);
        }
        let within = PlaceScope::Member(binder.member, next, &*scope);
        if condition(known, &within, binder, inner)? {
            found.push(next)?;
        }
        let Some(following) = next.checked_add(1) else {
            return Ok(found);
        };
        next = following;
    }
    Err(DIFFERENT)
}

/// How many members there are.
pub(crate) fn count_of(members: &[i64]) -> Expanding<i64>
    ensures { IfOk result (λ count. count ≡ pos (length members.now)) }
{
    match i64::try_from(members.len()) {
        Ok(count) => Ok(count),
        Err(_) => Err(DIFFERENT),
    }
}

// The sum of the expression of a form over these members, by halves.
#[cycle(values)]
fn sum(
    known: &Known<'_>,
    scope: &PlaceScope<'_>,
    each: &Each,
    members: &[i64],
    depth: u32,
) -> Expanding<i64>
    ensures { IfOk result (λ z. SumIs (context_of known.now) (scope_of scope.now) each.now members.now z) }
{
    let inner = deeper(depth)?;
    match members.split_first() {
        None => Ok(0),
        Some((only, others)) => {
            if others.len() == 0 {
                let within = PlaceScope::Member(each.binder.member, *only, &*scope);
                return number(known, &within, &each.body, inner);
            }
            let (prefix, rest) = members.split_at(members.len() - members.len() / 2);
            let x = sum(known, scope, each, prefix, inner)?;
            let y = sum(known, scope, each, rest, inner)?;
            let Some(total) = calculated(Operator::Add, x, y) else {
                return Err(DIFFERENT);
            };
            match total {
                ConstantValue::Number(total) => Ok(total),
                ConstantValue::Truth(_) => Err(DIFFERENT),
            }
        }
    }
}

// Whether the expression of a form is true for so many of these members.
#[cycle(values)]
fn enough(
    known: &Known<'_>,
    scope: &PlaceScope<'_>,
    each: &Each,
    least: i64,
    members: &[i64],
    depth: u32,
) -> Expanding<bool>
    ensures { IfOk result (λ b. EnoughHold (context_of known.now) (scope_of scope.now) each.now least members.now b) }
{
    let inner = deeper(depth)?;
    let mut missing = least;
    let mut rest = members;
    while let Some((first, others)) = rest.split_first() {
        if missing <= 0 {
            return Ok(true);
        }
        let count = count_of(rest)?;
        if count < missing {
            return Ok(false);
        }
        let within = PlaceScope::Member(each.binder.member, *first, &*scope);
        if truth(known, &within, &each.body, inner)? {
            missing -= 1;
        }
        rest = others;
    }
    if missing <= 0 {
        return Ok(true);
    }
    Ok(false)
}
