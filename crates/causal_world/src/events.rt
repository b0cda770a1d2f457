//! What an event of a process changes, and how that is undone.

ghost use Rattle.std.specs.Prelude.{◌≡◌, ℕ, ◌+◌, ◌<◌, ◌≤◌, length, [], OnOk, slice_set, slice_index_or};
ghost use Rattle.dbg_base.specs.declared.limits.TheConstants.{EVENTS};
ghost use Rattle.dbg_base.specs.LocalStates.{no_state};
ghost use Rattle.event_rows.specs.Events.{after_event, before_event};
ghost use Rattle.causal_world.specs.Scenes.{channels_after, channels_before};
ghost use Rattle.causal_world.specs.Pasts.{IsWhole, IsSamePast, HasRoomFor, kind_done, with_kind};
ghost use Rattle.fifo_grid.specs.Grids.{room_at};
ghost use Rattle.causal_world.specs.Room.{HasRoomAfter, HasRoomBefore, IsAppended, puts_after, puts_before};

use crate::channels::{go_after, go_before, make_room_after};
use crate::past::{Past, kind_of};
use dbg_base::Pid;
use event_rows::{Event, Exchange};
use fifo_grid::Grid;
use local_eval::Env;
use std::alloc::AllocError;

/// Makes room for an event of the process. If an allocation fails, contracts see no change.
pub(crate) fn make_room(
    grid: &mut Grid,
    past: &mut Past,
    pid: Pid,
    exchange: Exchange,
) -> Result<(), AllocError>
    ensures channels { grid.new.channels ≡ grid.old.channels }
    ensures same { IsSamePast past.old past.new }
    ensures messages { OnOk result (HasRoomAfter grid.new pid.0 exchange) }
    ensures room { OnOk result (pid.0 < length past.old.kinds → HasRoomFor past.new pid.0 1) }
{
    make_room_after(grid, pid, exchange, 1)?;
    past.reserve(pid, 1)
}

/// Makes the event of the process.
pub(crate) fn happen(envs: &mut Vec<Env>, grid: &mut Grid, past: &mut Past, pid: Pid, event: Event)
    requires here { (pid.0 < length envs.old.items) × (pid.0 < length past.old.kinds) }
    requires messages { HasRoomAfter grid.old pid.0 event.exchange }
    requires room { HasRoomFor past.old pid.0 1 }
    requires few { length (slice_index_or past.old.kinds pid.0 []) < EVENTS }
    requires whole { IsWhole (with_kind past.old.kinds pid.0 (kind_done event.exchange)) }
    ensures states { envs.new.items
        ≡ slice_set envs.old.items pid.0 (after_event event (slice_index_or envs.old.items pid.0 no_state)) }
    ensures channels { grid.new.channels ≡ channels_after grid.old.channels pid.0 event.exchange }
    ensures appended { IsAppended past.old pid.0 event past.new }
    ensures ways { (i j : ℕ) → room_at grid.old.room i j ≤ room_at grid.new.room i j + puts_after pid.0 event.exchange i j }
{
    event.redo(&mut envs[pid.0 as usize]);
    go_after(grid, pid, event.exchange());
    let kind = kind_of(event.exchange());
    past.push(pid, kind, event);
}

/// Undoes the event of the process, which was its last.
pub(crate) fn revert(envs: &mut Vec<Env>, grid: &mut Grid, pid: Pid, event: &Event)
    requires here { pid.0 < length envs.old.items }
    requires messages { HasRoomBefore grid.old pid.0 event.now.exchange }
    ensures states { envs.new.items
        ≡ slice_set envs.old.items pid.0 (before_event event.now (slice_index_or envs.old.items pid.0 no_state)) }
    ensures channels { grid.new.channels ≡ channels_before grid.old.channels pid.0 event.now.exchange }
    ensures ways { (i j : ℕ) → room_at grid.old.room i j ≤ room_at grid.new.room i j + puts_before pid.0 event.now.exchange i j }
{
    event.undo(&mut envs[pid.0 as usize]);
    go_before(grid, pid, event.exchange());
}
