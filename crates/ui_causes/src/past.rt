//! What happened before an event, and what it led to.

ghost use Rattle.std.specs.Prelude.{◌≡◌, ◌≤◌, ◌↔◌, List, IfOk, IfErr, IfSome, IsTrue, MatchOption};
ghost use Rattle.dbg_base.specs.declared.refusal.Refusal.TheVariants.{Memory};
ghost use Rattle.dbg_base.specs.Orders as orders;
ghost use Rattle.dbg_base.specs.Trees as tree;
ghost use Rattle.ui_causes.specs.CausalPasts.{IsEvent, AreEvents, IsBefore, CountsPast, IsPast, IsFirstAfter};

use causal_world::World;
use dbg_base::{Cut, Pid, Refusal};
use std::alloc::Global;

/// An event: its process, and its number there, from 1.
#[derive(Clone, Copy, PartialEq, Eq)]
pub struct EventPlace {
    pub pid: Pid,
    pub number: u32,
}

/// Whether the world has this event.
pub fn is_event(world: &World, event: EventPlace) -> bool
    ensures { IsTrue result ↔ IsEvent world.now event }
{
    if event.pid.0 >= world.tally().processes() || event.number == 0 {
        return false;
    }
    event.number <= world.place(event.pid)
}

/// The events before an event, with itself: how many of each process. None if there is no such event. Error: `Memory`, if an allocation
/// fails.
pub(crate) fn causal_past(
    alloc: Global,
    world: &World,
    event: EventPlace,
) -> Result<Option<Cut>, Refusal>
    ensures past { IfOk result (λ past. MatchOption past (¬ IsEvent world.now event) (λ cut. IsPast world.now event cut)) }
    ensures refuses { IfErr result (λ refusal. refusal ≡ Memory) }
{
    if !is_event(world, event) {
        return Ok(None);
    }
    Ok(Some(world.clock(alloc, event.pid, event.number)?))
}

/// How many events of a process are in the causal past of an event, itself included. 0 if there is no such event.
pub(crate) fn count_before(world: &World, event: EventPlace, of: Pid) -> u32
    ensures { CountsPast world.now event of.0 result }
{
    if !is_event(world, event) {
        return 0;
    }
    world.clock_part(event.pid, event.number, of)
}

/// Whether an event is another one, or happened before it.
pub fn is_before(world: &World, earlier: EventPlace, event: EventPlace) -> bool
    ensures { (P : tree.Program) (E : List orders.Event) → AreEvents P E world.now → IsEvent world.now event
        → IsTrue result ↔ IsBefore P E earlier event }
{
    let count = count_before(world, event, earlier.pid);
    1 <= earlier.number && earlier.number <= count
}

/// The number, from 1, of the first event of a process that is an event, or happened after it. If there is none, it is one more than the
/// process has events.
pub fn first_after(world: &World, event: EventPlace, pid: Pid) -> u32
    ensures after { IsFirstAfter world.now event pid.0 result }
    ensures one { 1 ≤ result }
{
    for earlier in 0..world.place(pid) {
        let number = earlier + 1;
        if is_before(world, event, EventPlace { pid, number }) {
            return number;
        }
    }
    world.place(pid).saturating_add(1)
}

/// How many events are in the causal past of an event, itself included.
pub(crate) fn height(world: &World, event: EventPlace) -> u32 {
    let mut height = 0u32;
    for p in 0..world.tally().processes() {
        height = height.saturating_add(count_before(world, event, Pid(p)));
    }
    height
}
