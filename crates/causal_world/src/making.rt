//! Undone events are made again, the last undone first.

ghost use Rattle.std.specs.Prelude.{◌≡◌, ℕ, ◌<◌, ◌≤◌, [], length, slice_index_or, IfOk, OnOk};
ghost use Rattle.std.specs.List.{count_by};
ghost use Rattle.dbg_base.specs.Trees as tree;
ghost use Rattle.fifo_grid.specs.Grids.{room_at};
ghost use Rattle.causal_world.specs.Scenes.{scene};
ghost use Rattle.causal_world.specs.Pasts.{IsSamePast};
ghost use Rattle.causal_world.specs.Room.{puts_of, is_of, HasRoomForth, HasRoomForEach};
ghost use Rattle.causal_world.specs.Rollings.{IsRolled};

use crate::channels::make_room_after;
use crate::events::happen;
use crate::lines::ChoiceLines;
use crate::past::Past;
use crate::rolled::Taken;
use dbg_base::Pid;
use fifo_grid::Grid;
use local_eval::Env;
use std::alloc::{AllocError, Global};

// How many of the events are of each of so many processes.
fn counts_of(alloc: Global, taken: &[Taken], processes: u32) -> Result<Vec<usize>, AllocError>
    ensures len { IfOk result (λ counts. length counts.items ≡ processes) }
    ensures each { IfOk result (λ counts. (p : ℕ) → p < processes
        → slice_index_or counts.items p 0 ≡ count_by (is_of p) taken.now) }
{
    let mut counts = vec![in alloc; 0usize; processes as usize]?;
    for one in taken {
        let p = one.pid.0 as usize;
        if p < counts.len() {
            counts[p] += 1;
        }
    }
    Ok(counts)
}

// The count of this process, 0 if it has none.
fn count_for(counts: &[usize], pid: Pid) -> usize
    ensures { result ≡ slice_index_or counts.now pid.0 0 }
{
    match counts.get(pid.0 as usize) {
        Some(count) => *count,
        None => 0,
    }
}

// Makes room on each channel to which these events send, for as many messages as the sender has events.
fn make_room_each(grid: &mut Grid, taken: &[Taken], counts: &[usize]) -> Result<(), AllocError>
    ensures channels { grid.new.channels ≡ grid.old.channels }
    ensures room { OnOk result ((i j : ℕ) → i < length grid.old.channels → j < length (slice_index_or grid.old.channels i [])
        → 0 < puts_of taken.now i j → slice_index_or counts.now i 0 ≤ room_at grid.new.room i j) }
{
    for one in taken {
        let more = count_for(counts, one.pid);
        make_room_after(grid, one.pid, one.event.exchange(), more)?;
    }
    Ok(())
}

/// Makes room for all of these events. Contracts see no change, also if an allocation fails.
pub(crate) fn make_room_forth(
    alloc: Global,
    grid: &mut Grid,
    past: &mut Past,
    taken: &[Taken],
) -> Result<(), AllocError>
    ensures channels { grid.new.channels ≡ grid.old.channels }
    ensures same { IsSamePast past.old past.new }
    ensures ways { OnOk result ((i j : ℕ) → i < length past.old.kinds → i < length grid.old.channels
        → j < length (slice_index_or grid.old.channels i []) → puts_of taken.now i j ≤ room_at grid.new.room i j) }
    ensures room { OnOk result (HasRoomForEach past.new taken.now) }
{
    let processes = past.tally().processes();
    let counts = counts_of(alloc, taken, processes)?;
    for p in 0..processes {
        past.reserve(Pid(p), counts[p as usize])?;
    }
    make_room_each(grid, taken, counts.as_slice())?;
    Ok(())
}

/// Makes the events again, the last undone first.
pub(crate) fn roll_forth(
    lines: &mut ChoiceLines,
    envs: &mut Vec<Env>,
    grid: &mut Grid,
    past: &mut Past,
    taken: &mut Vec<Taken>,
)
    requires rolled { (P : tree.Program) × IsRolled P taken.old.items (scene lines.old envs.old.items grid.old.channels past.old) }
    requires ways { HasRoomForth (length past.old.kinds) grid.old.room taken.old.items }
    requires room { HasRoomForEach past.old taken.old.items }
    ensures back { (P : tree.Program) (r : IsRolled P taken.old.items (scene lines.old envs.old.items grid.old.channels past.old))
        → scene lines.new envs.new.items grid.new.channels past.new ≡ r.before }
    ensures done { taken.new.items ≡ [] }
{
    while let Some(Taken { pid, event }) = taken.pop() {
        lines.advance(pid);
        happen(envs, grid, past, pid, event);
    }
}
