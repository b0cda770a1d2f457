//! The checks of expressions and of the names that they use, in text order.

ghost use Rattle.std.specs.Prelude.{◌≡◌, ◌<◌, length};
ghost use Rattle.dbg_base.specs.Trees.{tree_of, Count};
ghost use Rattle.dbg_base.specs.Checks.{wrong_sort, unknown, expression_faults, target_faults, index_of, phrase_tree};
ghost use Rattle.proc_lang.specs.Writing.{named_of, phrase_of};
ghost use Rattle.proc_lang.specs.Scopes.{scope_of};
ghost use Rattle.proc_lang.specs.Checking.{Checks};

use crate::fault::{ProgError, bad};
use crate::names::{ProcessNames, place};
use crate::scope::Scope;
use crate::syntax::{Named, Phrase};
use dbg_base::{Direction, Expr, FaultKind, Name, Pid, Sort};
use proc_tree::{operand_sort, outcome_sort};
use std::alloc::Global;

// The position of a name that must be among these.
fn known(names: &[Name], named: Named) -> Result<usize, ProgError>
    ensures { Checks result (unknown names.now (named_of named))
        (λ index. (index ≡ index_of names.now named.name) × (index < length names.now)) }
{
    match place(names, &named.name) {
        Some(index) => Ok(index),
        None => Err(bad(FaultKind::NameUnknown, named.at)),
    }
}

// The position of a process that must be among these.
fn known_process(processes: &ProcessNames, named: Named) -> Result<usize, ProgError>
    ensures { Checks result (unknown processes.now.all.now (named_of named))
        (λ index. (index ≡ index_of processes.now.all.now named.name) × (index < length processes.now.all.now)) }
{
    match processes.place(&named.name) {
        Some(index) => Ok(index),
        None => Err(bad(FaultKind::NameUnknown, named.at)),
    }
}

/// The position of a variable.
pub(crate) fn variable(scope: &Scope, named: Named) -> Result<u32, ProgError>
    ensures { Checks result (unknown (scope_of scope.now).variables (named_of named))
        (λ index. index ≡ index_of (scope_of scope.now).variables named.name) }
{
    let index = known(scope.variables, named)?;
    Ok(index as u32)
}

/// The position of another process.
pub(crate) fn target(scope: &Scope, named: Named) -> Result<Pid, ProgError>
    ensures { Checks result (target_faults (scope_of scope.now) (named_of named))
        (λ pid. pid.0 ≡ index_of (scope_of scope.now).processes named.name) }
{
    let index = known_process(scope.processes, named)?;
    if named.name == scope.own {
        return Err(bad(FaultKind::SelfSend, named.at));
    }
    Ok(Pid(index as u32))
}

// Checks that the found type is the wanted one.
fn want(wanted: Sort, found: Sort, at: usize) -> Result<(), ProgError>
    ensures { Checks result (wrong_sort wanted found at) (λ _. Unit {0}) }
{
    if wanted == found {
        Ok(())
    } else {
        Err(bad(FaultKind::TypeWrong, at))
    }
}

// How many messages the process has sent to the other process, or received from it.
fn count(direction: Direction, other: Pid) -> Expr
    ensures { tree_of result ≡ Count direction other.0 }
{
    match direction {
        Direction::Sent => Expr::Sent(other),
        Direction::Got => Expr::Got(other),
    }
}

/// Checks an expression that must have the wanted type.
pub(crate) fn expression(
    alloc: Global,
    scope: &Scope,
    wanted: Sort,
    phrase: &Phrase,
) -> Result<Expr, ProgError>
    ensures { Checks result (expression_faults (scope_of scope.now) wanted (phrase_of phrase.now))
        (λ expr. tree_of expr ≡ phrase_tree (scope_of scope.now) (phrase_of phrase.now)) }
{
    match phrase {
        Phrase::Number(at, value) => {
            want(wanted, Sort::Number, *at)?;
            Ok(Expr::Number(value.value as i64))
        }
        Phrase::Name(at, name) => {
            let index = variable(
                scope,
                Named {
                    at: *at,
                    name: *name,
                },
            )?;
            want(wanted, Sort::Number, *at)?;
            Ok(Expr::Variable(index))
        }
        Phrase::Truth(at, value) => {
            want(wanted, Sort::Truth, *at)?;
            Ok(Expr::Truth(*value))
        }
        Phrase::Count(at, direction, other) => {
            want(wanted, Sort::Number, *at)?;
            let other = target(scope, *other)?;
            Ok(count(*direction, other))
        }
        Phrase::Not(at, operand) => {
            want(wanted, Sort::Truth, *at)?;
            let operand = expression(alloc, scope, Sort::Truth, operand)?;
            Ok(Expr::Not(Box::new(alloc, operand)?))
        }
        Phrase::Negate(at, operand) => {
            want(wanted, Sort::Number, *at)?;
            let operand = expression(alloc, scope, Sort::Number, operand)?;
            Ok(Expr::Negate(Box::new(alloc, operand)?))
        }
        Phrase::Binary(at, operator, left, right) => {
            want(wanted, outcome_sort(*operator), *at)?;
            let operands = operand_sort(*operator);
            let left = expression(alloc, scope, operands, left)?;
            let right = expression(alloc, scope, operands, right)?;
            let left = Box::new(alloc, left)?;
            let right = Box::new(alloc, right)?;
            Ok(Expr::Binary(*operator, left, right))
        }
    }
}
