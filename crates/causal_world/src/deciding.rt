//! What a command would do. It is decided before anything changes.

ghost use Rattle.std.specs.Prelude.{◌≡◌, ◌+◌, ◌<◌, length, IfOk, Some, slice_index_or};
ghost use Rattle.dbg_base.specs.declared.limits.TheConstants.{EVENTS};
ghost use Rattle.dbg_base.specs.Configurations.{Configuration, state_in};
ghost use Rattle.dbg_base.specs.Firing.{fire, fire_command, proceed};
ghost use Rattle.proc_tree.specs.Programs.{program_of};
ghost use Rattle.proc_tree.specs.ProcessTrees.{action_tree, command_tree};
ghost use Rattle.causal_world.specs.Scenes.{exchange_for, event_if, event_at};
ghost use Rattle.causal_world.specs.Deciding.{CanCount, Takes, MakesEvent, Decides, Finds};

use dbg_base::{Choice, Direction, Pid, Refusal, count_of};
use event_rows::{Event, Exchange};
use fifo_grid::Grid;
use local_eval::{Env, EvalError, effect, guard};
use proc_tree::{Action, Guarded, Program};
use std::alloc::{AllocError, Global};

// The message that the action receives, if it receives one.
fn taken(action: &Action, envs: &[Env], grid: &Grid, pid: Pid) -> Result<Option<i64>, Refusal>
    ensures { Takes result (action_tree action.now) (record { states = envs.now; channels = grid.now.channels }) pid.0 }
{
    match action {
        Action::Receive { source, .. } => match grid.front(*source, pid) {
            Some(message) => Ok(Some(message)),
            None => Err(Refusal::ChannelEmpty),
        },
        _ => Ok(None),
    }
}

// A count plus one.
fn one_more(counts: &[u32], other: Pid) -> u32
    requires { slice_index_or counts.now other.0 0 < EVENTS }
    ensures { result ≡ slice_index_or counts.now other.0 0 + 1 }
{
    count_of(counts, other) + 1
}

// The exchange of the action, with the count of its message.
fn exchange(env: &Env, action: &Action, sent: Option<i64>, taken: Option<i64>) -> Exchange
    requires { CanCount env.now }
    ensures { result ≡ exchange_for env.now (action_tree action.now) sent taken }
{
    match (action, sent, taken) {
        (Action::Send { target, .. }, Some(value), _) => Exchange::Sent {
            target: *target,
            value,
            count: one_more(env.counts(Direction::Sent), *target),
        },
        (Action::Receive { source, .. }, _, Some(message)) => Exchange::Took {
            source: *source,
            message,
            count: one_more(env.counts(Direction::Got), *source),
        },
        _ => Exchange::Nothing,
    }
}

// The event of the command in this local state, with this received message, or a fault of an evaluation.
fn event(
    alloc: Global,
    command: &Guarded,
    choice: Choice,
    env: &Env,
    taken: Option<i64>,
) -> Result<Result<Event, Refusal>, AllocError>
    requires { CanCount env.now }
    ensures { IfOk result (λ found. MakesEvent found choice.0 (command_tree command.now) env.now taken) }
{
    let change = match effect(alloc, command, env, taken) {
        Ok(change) => change,
        Err(EvalError::Fault) => return Ok(Err(Refusal::Fault)),
        Err(EvalError::Memory) => return Err(AllocError),
    };
    let exchange = exchange(env, &command.action, change.message, taken);
    Ok(Ok(Event::of(alloc, choice, env, change.sets.as_slice(), exchange)?))
}

// The event of the command after its guard was true, or why the command does not fire.
fn proceed(
    alloc: Global,
    command: &Guarded,
    choice: Choice,
    envs: &[Env],
    grid: &Grid,
    pid: Pid,
) -> Result<Result<Event, Refusal>, AllocError>
    requires here { pid.0 < length envs.now }
    requires few { CanCount (state_in (record { states = envs.now; channels = grid.now.channels }) pid.0) }
    ensures { let c : Configuration = record { states = envs.now; channels = grid.now.channels } in
        Decides result (event_if c pid.0 choice.0 (Some (command_tree command.now)))
        (proceed (command_tree command.now) (action_tree command.now.action) c pid.0) c pid.0 }
{
    let taken = match taken(&command.action, envs, grid, pid) {
        Ok(taken) => taken,
        Err(refusal) => return Ok(Err(refusal)),
    };
    event(alloc, command, choice, &envs[pid.0 as usize], taken)
}

// The event that the process makes by this command, which is its choice, or why the command does not fire. The guard is evaluated first.
// Then a receive needs a message. Then the value to send and the assigned values are evaluated.
fn decide(
    alloc: Global,
    command: &Guarded,
    choice: Choice,
    envs: &[Env],
    grid: &Grid,
    pid: Pid,
) -> Result<Result<Event, Refusal>, AllocError>
    requires here { pid.0 < length envs.now }
    requires few { CanCount (state_in (record { states = envs.now; channels = grid.now.channels }) pid.0) }
    ensures { let c : Configuration = record { states = envs.now; channels = grid.now.channels } in
        Decides result (event_if c pid.0 choice.0 (Some (command_tree command.now))) (fire_command (command_tree command.now) c pid.0)
        c pid.0 }
{
    match guard(&command.guard, &envs[pid.0 as usize]) {
        Ok(true) => proceed(alloc, command, choice, envs, grid, pid),
        Ok(false) => Ok(Err(Refusal::GuardFalse)),
        Err(_) => Ok(Err(Refusal::Fault)),
    }
}

/// The event that the process makes by this choice, or why the command does not fire. A command that the process does not have counts as
/// one whose guard is false.
pub(crate) fn try_choice(
    alloc: Global,
    program: &Program,
    choice: Choice,
    envs: &[Env],
    grid: &Grid,
    pid: Pid,
) -> Result<Result<Event, Refusal>, AllocError>
    requires here { pid.0 < length envs.now }
    requires few { CanCount (state_in (record { states = envs.now; channels = grid.now.channels }) pid.0) }
    ensures { let c : Configuration = record { states = envs.now; channels = grid.now.channels } in
        Decides result (event_at (program_of program.now) c pid.0 choice.0) (fire (program_of program.now) c pid.0 choice.0) c pid.0 }
{
    match program.command(pid, choice) {
        Some(command) => decide(alloc, command, choice, envs, grid, pid),
        None => Ok(Err(Refusal::GuardFalse)),
    }
}

/// The first command of the process that fires, with its event, or None if no command fires.
pub(crate) fn lowest(
    alloc: Global,
    program: &Program,
    envs: &[Env],
    grid: &Grid,
    pid: Pid,
) -> Result<Option<(Choice, Event)>, AllocError>
    requires here { pid.0 < length envs.now }
    requires few { CanCount (state_in (record { states = envs.now; channels = grid.now.channels }) pid.0) }
    ensures { let c : Configuration = record { states = envs.now; channels = grid.now.channels } in
        IfOk result (λ found. Finds (program_of program.now) found c pid.0) }
{
    for k in 0..program.commands(pid) {
        match try_choice(alloc, program, Choice(k), envs, grid, pid)? {
            Ok(event) => return Ok(Some((Choice(k), event))),
            Err(_refusal) => {}
        }
    }
    Ok(None)
}
