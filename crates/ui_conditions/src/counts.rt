//! Expressions that say that so many of their members hold, as the forms `at_least` and `some` are written out.

use crate::comparing::{Likeness, are_alike, likeness_of};
use dbg_base::limits::OPEN_PARENTHESES;
use dbg_base::{Expr, Operator};
use local_eval::{Env, guard};
use std::alloc::{AllocError, Global};

// Of fewer members that are joined by `or`, the expression itself is short enough.
const FEWEST: usize = 3;

/// At least so many of these members hold.
#[derive(Drop)]
pub struct MemberCount<'e> {
    pub least: usize,
    pub members: Vec<&'e Expr>,
}

impl<'e> MemberCount<'e> {
    /// An expression that is the only member.
    pub fn alone(alloc: Global, expr: &'e Expr) -> Result<MemberCount<'e>, AllocError> {
        let mut members = Vec::new(alloc);
        members.push(expr)?;
        Ok(MemberCount { least: 1, members })
    }

    /// How many members hold.
    pub fn holding(&self, env: &Env) -> usize {
        let members = self.members.iter();
        members
            .filter(|member| guard(member, env) == Ok(true))
            .count()
    }

    /// Whether a member faults.
    pub fn faults(&self, env: &Env) -> bool {
        let mut members = self.members.iter();
        members.any(|member| guard(member, env).is_err())
    }
}

// The operands of an expression with this operator.
fn operands(expr: &Expr, operator: Operator) -> Option<(&Expr, &Expr)> {
    match expr {
        Expr::Binary(own, left, right) if *own == operator => Some((left, right)),
        _ => None,
    }
}

// Of `((member and R) or S)`: the member, and S.
fn first_member(expr: &Expr) -> Option<(&Expr, &Expr)> {
    let (chosen, others) = operands(expr, Operator::Or)?;
    let (member, _) = operands(chosen, Operator::And)?;
    Some((member, others))
}

// Appends the members of `((e1 or e2) or e3)`, from the left.
#[cycle(alternatives)]
fn put_alternatives<'e>(members: &mut Vec<&'e Expr>, expr: &'e Expr) -> Result<(), AllocError> {
    match expr {
        Expr::Binary(Operator::Or, left, right) => {
            put_alternatives(members, left)?;
            put_alternatives(members, right)
        }
        _ => Ok(members.push(expr)?),
    }
}

// Appends so many members that are joined by `and`, the first half of them, rounded up, and the rest. Returns whether they are.
#[cycle(joined)]
fn put_joined<'e>(
    members: &mut Vec<&'e Expr>,
    expr: &'e Expr,
    count: usize,
) -> Result<bool, AllocError> {
    if count < 2 {
        members.push(expr)?;
        return Ok(count == 1);
    }
    match expr {
        Expr::Binary(Operator::And, left, right) => {
            let half = count / 2;
            Ok(put_joined(members, left, count - half)? && put_joined(members, right, half)?)
        }
        _ => Ok(false),
    }
}

// Whether an expression is the member at this position.
fn is_member(expr: &Expr, members: &[&Expr], at: usize) -> bool {
    match members.get(at) {
        Some(member) => likeness_of(expr, member) == Likeness::Same,
        None => false,
    }
}

// Whether an expression is so many of the members, from this position on, joined by this operator in the same way.
fn is_joined(
    expr: &Expr,
    operator: Operator,
    members: &[&Expr],
    from: usize,
    count: usize,
) -> bool {
    if count < 2 {
        return count == 1 && is_member(expr, members, from);
    }
    let rest = count / 2;
    let first = count - rest;
    match expr {
        Expr::Binary(own, left, right) if *own == operator => {
            is_joined(left, operator, members, from, first)
                && is_joined(right, operator, members, from.saturating_add(first), rest)
        }
        _ => false,
    }
}

// Whether an expression is `at_least` of the members from this position on, as it is written out.
fn is_count(expr: &Expr, least: usize, members: &[&Expr], from: usize) -> bool {
    let count = members.len().saturating_sub(from);
    if least == count {
        return is_joined(expr, Operator::And, members, from, count);
    }
    if least < 2 {
        return least == 1 && is_joined(expr, Operator::Or, members, from, count);
    }
    let next = from.saturating_add(1);
    match expr {
        Expr::Binary(Operator::Or, chosen, rest) => match &**chosen {
            Expr::Binary(Operator::And, member, fewer) => {
                is_member(member, members, from)
                    && is_count(fewer, least - 1, members, next)
                    && is_count(rest, least, members, next)
            }
            _ => false,
        },
        _ => false,
    }
}

// The members of an expression that are joined by `or`, if there are some, and they are alike.
fn find_alternatives(alloc: Global, expr: &Expr) -> Result<Option<MemberCount<'_>>, AllocError> {
    let mut members = Vec::new(alloc);
    put_alternatives(&mut members, expr)?;
    let (Some(first), true) = (members.first(), members.len() >= FEWEST) else {
        return Ok(None);
    };
    if members.iter().all(|member| are_alike(first, member)) {
        Ok(Some(MemberCount { least: 1, members }))
    } else {
        Ok(None)
    }
}

/// The members of which at least so many have to hold, if an expression says that of two members or more that are alike. Error: memory ran
/// out.
pub fn find_count(alloc: Global, expr: &Expr) -> Result<Option<MemberCount<'_>>, AllocError> {
    let mut members = Vec::new(alloc);
    let mut rest = expr;
    // The deepest that expressions are nested.
    for _ in 0..=OPEN_PARENTHESES {
        let Some((member, others)) = first_member(rest) else {
            break;
        };
        members.push(member)?;
        rest = others;
    }
    let chosen = members.len();
    if chosen == 0 {
        return find_alternatives(alloc, expr);
    }
    // The last members, as many as have to hold, are joined by `and`.
    for least in 2..=OPEN_PARENTHESES as usize {
        members.truncate(chosen);
        if put_joined(&mut members, rest, least)? && is_count(expr, least, members.as_slice(), 0) {
            return Ok(Some(MemberCount { least, members }));
        }
    }
    Ok(None)
}
