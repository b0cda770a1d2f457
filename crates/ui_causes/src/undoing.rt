//! The command that undoes an event, and what it undoes besides.

ghost use Rattle.std.specs.Prelude.{◌≡◌, ◌-◌, IfOk, IfErr, MatchOption, slice_set};
ghost use Rattle.dbg_base.specs.declared.refusal.Refusal.TheVariants.{Memory};
ghost use Rattle.ui_causes.specs.CausalPasts.{IsEvent};
ghost use Rattle.ui_causes.specs.Undoings.{IsChosen, IsUndoing};

use crate::past::{EventPlace, is_event};
use causal_world::World;
use dbg_base::{Cut, Refusal};
use std::alloc::Global;

/// A command that undoes an event.
#[derive(Clone, Copy, PartialEq, Eq)]
pub(crate) enum UndoCommand {
    /// The undo of the last event of the process.
    Undo,
    /// A rollback of the process to so many events.
    Rollback(u32),
}

/// The command that undoes an event, and how many events of each process are left after it.
#[derive(Drop)]
pub(crate) struct Undoing {
    pub(crate) command: UndoCommand,
    pub(crate) left: Cut,
}

// An undo if the event may be undone alone, so that these are left, and a rollback otherwise.
fn chosen(world: &World, event: EventPlace, left: &Cut, alone: &Cut) -> UndoCommand
    requires { alone.now ≡ slice_set world.now.state.places event.pid.0 (event.number - 1) }
    ensures { IsChosen world.now event left.now result }
{
    let rest = event.number.saturating_sub(1);
    if event.number != world.place(event.pid) || *left != *alone {
        return UndoCommand::Rollback(rest);
    }
    match world.can_undo(event.pid) {
        Ok(()) => UndoCommand::Undo,
        Err(_) => UndoCommand::Rollback(rest),
    }
}

/// The command that undoes an event, and all events that depend on it. None if there is no such event. Error: `Memory`, if an allocation
/// fails.
pub(crate) fn find_undoing(
    alloc: Global,
    world: &World,
    event: EventPlace,
) -> Result<Option<Undoing>, Refusal>
    ensures undoes { IfOk result (λ found. MatchOption found (¬ IsEvent world.now event)
        (λ undoing. IsUndoing world.now event undoing.command undoing.left)) }
    ensures refuses { IfErr result (λ refusal. refusal ≡ Memory) }
{
    if !is_event(world, event) {
        return Ok(None);
    }
    let rest = event.number.saturating_sub(1);
    let left = world.rollback_cut(alloc, event.pid, rest)?;
    let mut alone = world.places(alloc)?;
    alone.set(event.pid, rest);
    let command = chosen(world, event, &left, &alone);
    Ok(Some(Undoing { command, left }))
}
