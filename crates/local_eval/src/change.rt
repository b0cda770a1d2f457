//! The effect of a command on its process.

ghost use Rattle.dbg_base.specs.Firing.{assigned, effect_with, effect_of};
ghost use Rattle.proc_tree.specs.ProcessTrees.{assignment_trees, command_tree};
ghost use Rattle.local_eval.specs.Changes.{Gives};

use crate::env::Env;
use crate::evaluation::evaluate;
use crate::fault::EvalError;
use crate::local::{Local, LocalAfterReceive};
use crate::value::number;
use proc_tree::{Action, Assignment, Guarded};
use smallvec::SmallVec;
use std::alloc::Global;

/// The effect of a command that fires.
#[derive(Drop)]
pub struct Change {
    /// The variables that are set, each with its new value, in this order.
    pub sets: SmallVec<(u32, i64), 2>,
    /// The value that is sent, if any.
    pub message: Option<i64>,
}

// Evaluates the assignments in this local state, and appends them to the variables that are set already.
fn assign<L: Local>(
    mut sets: SmallVec<(u32, i64), 2>,
    message: Option<i64>,
    assignments: &[Assignment],
    local: &L,
) -> Result<Change, EvalError>
    ensures { Gives result (effect_with sets.items message (assigned (assignment_trees assignments.now) (L.state local.now))) }
{
    for assignment in assignments {
        let value = number(evaluate(&assignment.value, local)?)?;
        sets.push((assignment.variable, value))?;
    }
    Ok(Change { sets, message })
}

/// The effect of a command in this local state of its process: the variables that it sets, and the value that it sends. If the command
/// receives, it receives `message`, or nothing if that is None. Other commands ignore `message`. The value to send is evaluated with the
/// old values. Assignments are evaluated with the old values and the received message. Both use the counts before this message. The guard
/// is not evaluated.
///
/// Errors: `EvalError::Fault` exactly if an evaluation faults, unless an allocation fails. `EvalError::Memory` if an allocation fails.
pub fn effect(
    alloc: Global,
    command: &Guarded,
    env: &Env,
    message: Option<i64>,
) -> Result<Change, EvalError>
    ensures { Gives result (effect_of (command_tree command.now) env.now message) }
{
    let mut sets = SmallVec::new(alloc);
    match (&command.action, message) {
        (Action::Send { value, .. }, _) => {
            let sent = number(evaluate(value, env)?)?;
            assign(sets, Some(sent), command.assignments.items(), env)
        }
        (Action::Receive { variable, .. }, Some(message)) => {
            sets.push((*variable, message))?;
            let local = LocalAfterReceive {
                env,
                variable: *variable,
                message,
            };
            assign(sets, None, command.assignments.items(), &local)
        }
        _ => assign(sets, None, command.assignments.items(), env),
    }
}
