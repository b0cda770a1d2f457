//! What prevents a command is looked for in the order in which the session decides: first the number of the command and of the events, then
//! the guard, then the message that it receives, and then the other expressions.

ghost use Rattle.std.specs.Prelude.{◌≡◌, ◌<◌, length, slice_get, IfOk, IfErr, MatchResult};
ghost use Rattle.dbg_base.specs.declared.refusal.Refusal.TheVariants.{Memory};
ghost use Rattle.dbg_base.specs.Configurations.{state_in, channel_of};
ghost use Rattle.dbg_base.specs.Firing.{effect_of, proceed, fire_command};
ghost use Rattle.dbg_base.specs.Choices.{step_choice};
ghost use Rattle.proc_tree.specs.Programs.{program_of};
ghost use Rattle.proc_tree.specs.ProcessTrees.{action_tree, command_tree};
ghost use Rattle.causal_world.specs.Scenes.{IsWorldOf};
ghost use Rattle.ui_view.specs.Hindrances.{FindsFault, Prevents, IsVerdict};

use crate::hindrance::Hindrance;
use causal_world::World;
use dbg_base::limits::EVENTS;
use dbg_base::{Choice, Pid, Refusal};
use local_eval::{Env, EvalError, effect, guard};
use proc_tree::{Action, Guarded, Program};
use std::alloc::Global;

// The first message on the way from one process to another.
fn first_message(
    alloc: Global,
    world: &World,
    source: Pid,
    target: Pid,
) -> Result<Option<i64>, Refusal>
    ensures { MatchResult result (λ first. first ≡ slice_get (channel_of world.now.standing source.0 target.0) 0)
        (λ refusal. refusal ≡ Memory) }
{
    let messages = world.channel(alloc, source, target)?;
    Ok(messages.items().first().copied())
}

// Whether an expression after the guard faults, with this message if the command receives.
fn after_message(
    alloc: Global,
    command: &Guarded,
    env: &Env,
    message: Option<i64>,
) -> Result<Option<Hindrance>, Refusal>
    ensures finds { IfOk result (λ found. FindsFault found (effect_of (command_tree command.now) env.now message)) }
    ensures refuses { IfErr result (λ refusal. refusal ≡ Memory) }
{
    match effect(alloc, command, env, message) {
        Ok(_) => Ok(None),
        Err(EvalError::Fault) => Ok(Some(Hindrance::Faults(message))),
        Err(EvalError::Memory) => Err(Refusal::Memory),
    }
}

// What prevents a command whose guard is true.
fn after_guard(
    alloc: Global,
    world: &World,
    pid: Pid,
    command: &Guarded,
    env: &Env,
) -> Result<Option<Hindrance>, Refusal>
    requires { env.now ≡ state_in world.now.standing pid.0 }
    ensures prevents { IfOk result (λ found. Prevents found
        (proceed (command_tree command.now) (action_tree command.now.action) world.now.standing pid.0)) }
    ensures refuses { IfErr result (λ refusal. refusal ≡ Memory) }
{
    match &command.action {
        Action::Receive { source, .. } => match first_message(alloc, world, *source, pid)? {
            Some(message) => after_message(alloc, command, env, Some(message)),
            None => Ok(Some(Hindrance::NoMessage(*source))),
        },
        _ => after_message(alloc, command, env, None),
    }
}

// What prevents a command in this local state of its process.
fn in_state(
    alloc: Global,
    world: &World,
    pid: Pid,
    command: &Guarded,
    env: &Env,
) -> Result<Option<Hindrance>, Refusal>
    requires { env.now ≡ state_in world.now.standing pid.0 }
    ensures prevents { IfOk result (λ found. Prevents found (fire_command (command_tree command.now) world.now.standing pid.0)) }
    ensures refuses { IfErr result (λ refusal. refusal ≡ Memory) }
{
    match guard(&command.guard, env) {
        Ok(true) => after_guard(alloc, world, pid, command, env),
        Ok(false) => Ok(Some(Hindrance::GuardFalse)),
        Err(_) => Ok(Some(Hindrance::GuardFaults)),
    }
}

/// What prevents a command from firing in the present state, or None if a `step` would make it. Otherwise a `step` would be refused with the
/// refusal of what is found. The world is one of the program, which has the process. Error: `Memory`, if an allocation fails.
pub fn find_hindrance(
    alloc: Global,
    program: &Program,
    world: &World,
    pid: Pid,
    choice: Choice,
) -> Result<Option<Hindrance>, Refusal>
    ensures verdict { IfOk result (λ found. IsWorldOf (program_of program.now) world.now → pid.0 < length (program_of program.now)
        → IsVerdict found choice.0 (step_choice (program_of program.now) world.now.state pid.0 choice.0)) }
    ensures refuses { IfErr result (λ refusal. refusal ≡ Memory) }
{
    if choice.0 >= program.commands(pid) {
        return Ok(Some(Hindrance::NoCommand));
    }
    if world.place(pid) >= EVENTS {
        return Ok(Some(Hindrance::Full));
    }
    let (Some(command), Some(env)) = (program.command(pid, choice), world.local_state(pid)) else {
        return Ok(Some(Hindrance::NoCommand));
    };
    in_state(alloc, world, pid, command, env)
}
