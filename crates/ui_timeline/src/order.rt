//! The order of a world's events.

ghost use Rattle.std.specs.Prelude.{◌≡◌, ◌<◌, ◌≤◌, ℕ, List, [], ◌∷◌, length, map, false, IfOk, IfErr, IfSome, OnOk, IsTrue, None};
ghost use Rattle.dbg_base.specs.declared.refusal.Refusal.TheVariants.{Memory};
ghost use Rattle.dbg_base.specs.Cuts.{IsConsistent};
ghost use Rattle.dbg_base.specs.Trees as tree;
ghost use Rattle.dbg_base.specs.SystemStates.{history_of, after_undo};
ghost use Rattle.causal_world.specs.Scenes.{IsWorldOf};
ghost use Rattle.causal_world.specs.Worlds.{IsSomeWorld};
ghost use Rattle.ui_timeline.specs.EventOrders.{IsEventOrder, Continues, no_events};
ghost use Rattle.ui_timeline.specs.FirstCuts.{AreFirst, AreLast, cuts_before, IsLatest};

use causal_world::World;
use dbg_base::{Cut, Pid, Refusal, Sequence};
use std::alloc::{AllocError, Global};

// How many events are in the causal past of the last event of a process, the event included.
fn height(world: &World, processes: u32, pid: Pid) -> u64
    requires { pid.0 < length world.now.state.places }
{
    let place = world.place(pid);
    let mut height = 0u64;
    for p in 0..processes {
        height = height.saturating_add(u64::from(world.clock_part(pid, place, Pid(p))));
    }
    height
}

// The same for each process.
fn heights(alloc: Global, world: &World, processes: u32) -> Result<Vec<u64>, AllocError>
    requires { processes ≡ length world.now.state.places }
{
    let mut heights = Vec::new(alloc);
    for p in 0..processes {
        heights.push(height(world, processes, Pid(p)))?;
    }
    Ok(heights)
}

// Updates the height of a process whose last event changed.
fn note_height(heights: &mut Vec<u64>, world: &World, processes: u32, pid: Pid)
    requires { pid.0 < length world.now.state.places }
{
    let height = height(world, processes, pid);
    if let Some(noted) = heights.get_mut(pid.0 as usize) {
        *noted = height;
    }
}

// How many of the cuts do not have the last event of a process.
fn cuts_before(world: &World, cuts: &[&Cut], pid: Pid) -> usize
    requires { pid.0 < length world.now.state.places }
    ensures { result ≡ cuts_before (map (λ cut. cut.now) cuts.now) world.now.state pid.0 }
{
    let place = world.place(pid);
    let mut count = 0usize;
    for cut in cuts {
        if place > cut.count(pid) {
            count += 1;
        }
    }
    count
}

// Whether the last event of this process comes after that of the best one so far: it is beyond more cuts, or as many and higher. It does if
// there is none so far.
fn is_later(world: &World, heights: &[u64], cuts: &[&Cut], best: Option<Pid>, pid: Pid) -> bool
    requires process { pid.0 < length world.now.state.places }
    requires best { IfSome best (λ best. best.0 < length world.now.state.places) }
    ensures first { best ≡ None → IsTrue result }
    ensures later { IfSome best (λ best. IsTrue result → cuts_before (map (λ cut. cut.now) cuts.now) world.now.state best.0 ≤ cuts_before (map (λ cut. cut.now) cuts.now) world.now.state pid.0) }
    ensures earlier { IfSome best (λ best. result ≡ false → cuts_before (map (λ cut. cut.now) cuts.now) world.now.state pid.0 ≤ cuts_before (map (λ cut. cut.now) cuts.now) world.now.state best.0) }
{
    let Some(best) = best else {
        return true;
    };
    let before_best = cuts_before(world, cuts, best);
    let before = cuts_before(world, cuts, pid);
    if before == before_best {
        heights.get(best.0 as usize) < heights.get(pid.0 as usize)
    } else {
        before_best < before
    }
}

// Of the processes whose last event may be undone, the one whose last event comes after the others, or None if no process has an event.
fn latest(world: &World, heights: &[u64], cuts: &[&Cut]) -> Option<Pid>
    ensures world { IsSomeWorld world.now }
    ensures best { IsLatest (map (λ cut. cut.now) cuts.now) world.now result }
{
    let mut best: Option<Pid> = None;
    for p in 0..world.tally().processes() {
        if world.can_undo(Pid(p)).is_ok() && is_later(world, heights, cuts, best, Pid(p)) {
            best = Some(Pid(p));
        }
    }
    best
}

// Undoes the last event of a process, which may be undone, so only a failed allocation can refuse it.
fn undo_one(alloc: Global, world: &mut World, pid: Pid) -> Result<(), Refusal>
    ensures of { (P : tree.Program) → IsWorldOf P world.old → IsWorldOf P world.new }
    ensures moves { OnOk result (world.new.state ≡ after_undo world.old.state pid.0) }
    ensures refuses { IfErr result (λ refusal. refusal ≡ Memory) }
{
    match world.undo(alloc, pid) {
        Ok(_) => Ok(()),
        Err(_) => Err(Refusal::Memory),
    }
}

// Undoes all events of a world, one by one; no remaining event depends on an undone one. Returns their processes in that order. Those of the
// events of a single consistent cut are the last.
fn undo_all(alloc: Global, world: World, cuts: &[&Cut]) -> Result<Vec<Pid>, Refusal>
    ensures all { IfOk result (λ undone. (P : tree.Program) → IsWorldOf P world
        → Continues P (no_events (length P)) (history_of world.state) (map (λ pid. pid.0) undone.items)) }
    ensures cut { IfOk result (λ undone. (P : tree.Program) (cut : List ℕ) → IsWorldOf P world → map (λ c. c.now) cuts.now ≡ cut ∷ []
        → IsConsistent P (history_of world.state) cut → AreLast cut (map (λ pid. pid.0) undone.items)) }
    ensures refuses { IfErr result (λ refusal. refusal ≡ Memory) }
{
    let mut world = world;
    let processes = world.tally().processes();
    let mut heights = heights(alloc, &world, processes)?;
    let mut undone = Vec::new(alloc);
    while let Some(pid) = latest(&world, heights.as_slice(), cuts) {
        undo_one(alloc, &mut world, pid)?;
        note_height(&mut heights, &world, processes, pid);
        undone.push(pid)?;
    }
    Ok(undone)
}

/// The processes of a world in an order in which they can have made its events: each event once, and none before one that it depends on. Of
/// two events that can come in either order, the first is the one that is beyond fewer of the cuts, and then the one with fewer events in
/// its causal past. With a single consistent cut, its events come first. Error: `Memory`, if an allocation fails.
pub(crate) fn event_order(
    alloc: Global,
    world: &World,
    cuts: &[&Cut],
) -> Result<Sequence<Pid>, Refusal>
    ensures order { IfOk result (λ order. (P : tree.Program) → IsWorldOf P world.now
        → IsEventOrder P (history_of world.now.state) (map (λ pid. pid.0) order)) }
    ensures cut { IfOk result (λ order. (P : tree.Program) (cut : List ℕ) → IsWorldOf P world.now → map (λ c. c.now) cuts.now ≡ cut ∷ []
        → IsConsistent P (history_of world.now.state) cut → AreFirst cut (map (λ pid. pid.0) order)) }
    ensures refuses { IfErr result (λ refusal. refusal ≡ Memory) }
{
    let mut order = undo_all(alloc, world.copy()?, cuts)?;
    order.reverse();
    Ok(Sequence::new(order))
}
