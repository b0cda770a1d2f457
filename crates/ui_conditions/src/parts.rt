//! The parts of a conjunction.

use crate::counts::{MemberCount, find_count};
use dbg_base::{Expr, Operator};
use local_eval::Env;
use std::alloc::{AllocError, Global};

/// Appends the parts of a conjunction, from the left. Error: memory ran out.
#[cycle(parts)]
pub fn put_conjuncts<'e>(parts: &mut Vec<&'e Expr>, expr: &'e Expr) -> Result<(), AllocError> {
    match expr {
        Expr::Binary(Operator::And, left, right) => {
            put_conjuncts(parts, left)?;
            put_conjuncts(parts, right)
        }
        _ => Ok(parts.push(expr)?),
    }
}

/// A part of a condition that is no conjunction: members of which so many have to hold, and none faults, or the part is the only member. Error:
/// memory ran out.
pub fn part_of<'e>(
    alloc: Global,
    env: &Env,
    conjunct: &'e Expr,
) -> Result<MemberCount<'e>, AllocError> {
    match find_count(alloc, conjunct)? {
        Some(count) if !count.faults(env) => Ok(count),
        _ => MemberCount::alone(alloc, conjunct),
    }
}

/// The conjuncts from one position to before another, which all have to hold, if none of them faults, and they are several. Error: memory ran
/// out.
pub fn family_of<'e>(
    alloc: Global,
    env: &Env,
    conjuncts: &[&'e Expr],
    from: usize,
    end: usize,
) -> Result<Option<MemberCount<'e>>, AllocError> {
    let mut members = Vec::new(alloc);
    for at in from..end {
        if let Some(conjunct) = conjuncts.get(at) {
            members.push(*conjunct)?;
        }
    }
    let family = MemberCount {
        least: members.len(),
        members,
    };
    let is_family = family.least > 1 && !family.faults(env);
    Ok(if is_family { Some(family) } else { None })
}
