//! Events are undone one after the other. No remaining event depends on an undone one.

ghost use Rattle.std.specs.Prelude.{◌≡◌, ℕ, ◌+◌, ◌<◌, ◌≤◌, ◌⊎◌, [], length, sum, IfOk, OnOk, IfSome, MatchOption, Some};
ghost use Rattle.std.specs.Prelude.{slice_index, slice_index_or, IsTrue, false};
ghost use Rattle.std.specs.Vec.{vec_capacity};
ghost use Rattle.dbg_base.specs.Trees as tree;
ghost use Rattle.dbg_base.specs.SystemStates.{SystemState, history_of, place_at, after_undo, after_rollback};
ghost use Rattle.dbg_base.specs.Reversal.{MayUndo};
ghost use Rattle.cut_core.specs.Tallies.{got_by};
ghost use Rattle.cut_core.specs.ConsistentCuts.{IsConsistentCut, places};
ghost use Rattle.fifo_grid.specs.Grids.{room_at};
ghost use Rattle.causal_world.specs.Scenes.{scene, IsWorldOf, unmade};
ghost use Rattle.causal_world.specs.Worlds.{IsSomeWorld, LastExchange, last_of};
ghost use Rattle.causal_world.specs.Room.{HasRoomBack, puts_before};
ghost use Rattle.causal_world.specs.Rollings.{CanTakeFrom, IsNextBack, IsRolledFrom};

use crate::channels::received;
use crate::events::revert;
use crate::lines::ChoiceLines;
use crate::past::Past;
use crate::rolled::Taken;
use cut_core::Tally;
use dbg_base::{Pid, Refusal, count_of};
use event_rows::Exchange;
use fifo_grid::Grid;
use local_eval::Env;
use std::alloc::AllocError;

/// How many events there are beyond the cut.
pub(crate) fn beyond(tally: &Tally, cut: &[u32]) -> usize
    ensures { sum (places tally.now.kinds) ≤ result + sum cut.now }
{
    let mut more = 0usize;
    for p in 0..tally.processes() {
        let own = tally.len(Pid(p)).saturating_sub(count_of(cut, Pid(p)));
        more += own as usize;
    }
    more
}

// Makes room for the messages that return to their channels as the events of this process beyond the first `count` are undone.
fn make_room_to(grid: &mut Grid, tally: &Tally, to: Pid, count: u32) -> Result<(), AllocError>
    ensures channels { grid.new.channels ≡ grid.old.channels }
    ensures grows { (i j : ℕ) → room_at grid.old.room i j ≤ room_at grid.new.room i j }
    ensures room { OnOk result ((i : ℕ) → i < length tally.now.kinds → i < length grid.old.channels
        → to.0 < length (slice_index_or grid.old.channels i [])
        → got_by tally.now.kinds to.0 i (length (slice_index_or tally.now.kinds to.0 []))
        ≤ got_by tally.now.kinds to.0 i count + room_at grid.new.room i to.0) }
{
    if tally.len(to) <= count {
        return Ok(());
    }
    for i in 0..tally.processes() {
        let all = tally.got(to, Pid(i), tally.len(to));
        let more = all.saturating_sub(tally.got(to, Pid(i), count));
        grid.reserve(Pid(i), to, more as usize)?;
    }
    Ok(())
}

/// Makes room for the messages that return to their channels as the events beyond the cut are undone.
pub(crate) fn make_room_back(grid: &mut Grid, tally: &Tally, cut: &[u32]) -> Result<(), AllocError>
    ensures channels { grid.new.channels ≡ grid.old.channels }
    ensures room { OnOk result ((i j : ℕ) → i < length tally.now.kinds → j < length tally.now.kinds → i < length grid.old.channels
        → j < length (slice_index_or grid.old.channels i [])
        → got_by tally.now.kinds j i (length (slice_index_or tally.now.kinds j []))
        ≤ got_by tally.now.kinds j i (slice_index cut.now j) + room_at grid.new.room i j) }
{
    for j in 0..tally.processes() {
        make_room_to(grid, tally, Pid(j), count_of(cut, Pid(j)))?;
    }
    Ok(())
}

/// What the last event of the process exchanged, if no other process has received what it sent, or why it may not be undone.
pub(crate) fn last_exchange(grid: &Grid, past: &Past, pid: Pid) -> Result<Exchange, Refusal>
    ensures { LastExchange past.now.events grid.now.channels pid.0 result }
{
    let Some(event) = past.last(pid) else {
        return Err(Refusal::NothingToUndo);
    };
    match received(grid, pid, event.exchange()) {
        Some(target) => Err(Refusal::Consequence(target)),
        None => Ok(event.exchange()),
    }
}

/// Undoes the last event of the process, which may be undone. The caller changes lines and places.
pub(crate) fn take_back(envs: &mut Vec<Env>, grid: &mut Grid, past: &mut Past, pid: Pid) -> Taken
    requires { CanTakeFrom envs.old.items grid.old past.old pid.0 }
    ensures of { result.pid ≡ pid }
    ensures was { last_of past.old.events pid.0 ≡ Some result.event }
    ensures left { (state : SystemState) → scene (after_undo state pid.0) envs.new.items grid.new.channels past.new
        ≡ unmade (scene state envs.old.items grid.old.channels past.old) pid.0 result.event }
    ensures ways { (i j : ℕ) → room_at grid.old.room i j ≤ room_at grid.new.room i j + puts_before pid.0 result.event.exchange i j }
{
    let event = past.pop(pid).unwrap();
    let taken = Taken { pid, event };
    revert(envs, grid, pid, &taken.event);
    taken
}

// Whether the process has events beyond the cut, and its last event may be undone.
fn is_next(
    lines: &ChoiceLines,
    envs: &[Env],
    grid: &Grid,
    past: &Past,
    cut: &[u32],
    pid: Pid,
) -> bool
    requires { IsSomeWorld (scene lines.now envs.now grid.now.channels past.now) }
    ensures next { IsTrue result → IsNextBack (scene lines.now envs.now grid.now.channels past.now) cut.now pid.0 }
    ensures stuck { result ≡ false → (place_at lines.now pid.0 ≤ slice_index cut.now pid.0)
        ⊎ ((P : tree.Program) → IsWorldOf P (scene lines.now envs.now grid.now.channels past.now)
        → ¬ MayUndo P (history_of lines.now) pid.0) }
{
    lines.place(pid) > count_of(cut, pid) && last_exchange(grid, past, pid).is_ok()
}

// A process with events beyond the cut whose last event may be undone, or None if no process has events beyond the cut. `first` is tried
// before the others.
fn next_back(
    lines: &ChoiceLines,
    envs: &[Env],
    grid: &Grid,
    past: &Past,
    cut: &[u32],
    first: Pid,
) -> Option<Pid>
    requires world { IsSomeWorld (scene lines.now envs.now grid.now.channels past.now) }
    requires cut { IsConsistentCut past.now.kinds cut.now }
    ensures { MatchOption result ((p : ℕ) → length (slice_index_or past.now.kinds p []) ≤ slice_index cut.now p)
        (λ pid. IsNextBack (scene lines.now envs.now grid.now.channels past.now) cut.now pid.0) }
{
    if is_next(lines, envs, grid, past, cut, first) {
        return Some(first);
    }
    for p in 0..past.tally().processes() {
        if is_next(lines, envs, grid, past, cut, Pid(p)) {
            return Some(Pid(p));
        }
    }
    None
}

// The process that is most likely next after the last of these events, which was of this process: the sender of the message that returned,
// or the process itself.
fn likely_next(taken: &[Taken], pid: Pid) -> Pid {
    match taken {
        [.., last] => match last.event.exchange() {
            Exchange::Took { source, .. } => source,
            _ => pid,
        },
        [] => pid,
    }
}

/// Undoes all events beyond the cut, and notes them in that order.
pub(crate) fn roll_back(
    lines: &mut ChoiceLines,
    envs: &mut Vec<Env>,
    grid: &mut Grid,
    past: &mut Past,
    cut: &[u32],
    taken: &mut Vec<Taken>,
)
    requires world { IsSomeWorld (scene lines.old envs.old.items grid.old.channels past.old) }
    requires cut { IsConsistentCut past.old.kinds cut.now }
    requires ways { HasRoomBack grid.old.room past.old.kinds cut.now }
    requires none { taken.old.items ≡ [] }
    requires room { sum (places past.old.kinds) ≤ vec_capacity taken.old + sum cut.now }
    ensures back { (P : tree.Program) → IsWorldOf P (scene lines.old envs.old.items grid.old.channels past.old)
        → IsRolledFrom P (scene lines.old envs.old.items grid.old.channels past.old) taken.new.items
        (scene lines.new envs.new.items grid.new.channels past.new) }
    ensures moves { lines.new ≡ after_rollback lines.old cut.now }
{
    let mut first = Pid(0);
    while let Some(pid) = next_back(lines, envs.as_slice(), grid, past, cut, first) {
        taken.push_reserved(take_back(envs, grid, past, pid));
        lines.retreat(pid);
        first = likely_next(taken.as_slice(), pid);
    }
}
