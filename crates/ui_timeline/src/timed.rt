//! The events of a world, each with its number and its clock.

ghost use Rattle.std.specs.Prelude.{◌≡◌, replicate, IfOk, IfErr};
ghost use Rattle.dbg_base.specs.declared.refusal.Refusal.TheVariants.{Memory};
ghost use Rattle.dbg_base.specs.Trees as tree;
ghost use Rattle.dbg_base.specs.SystemStates.{history_of};
ghost use Rattle.causal_world.specs.Scenes.{IsWorldOf};
ghost use Rattle.ui_timeline.specs.TimedEvents.{AreTimedEvents};

use crate::clock::clock_after;
use crate::order::event_order;
use causal_world::World;
use dbg_base::{Cut, Pid, Refusal, Sequence};
use std::alloc::{AllocError, Global};

/// An event: its process, its number in the process, from 1, and its clock: how many events of each process are in its causal past, with
/// the event itself.
pub struct TimedEvent {
    pub pid: Pid,
    pub number: u32,
    pub clock: Cut,
}

impl Drop for TimedEvent {
    fn drop(self) {
        let Self { pid, number, clock } = self;
    }
}

// Zero counts for so many processes.
fn no_counts(alloc: Global, processes: u32) -> Result<Cut, AllocError>
    ensures { IfOk result (λ counts. counts ≡ replicate processes 0) }
{
    Ok(Cut::new(vec![in alloc; 0; processes as usize]?))
}

/// The events of a world, in an order in which they can have happened: each once, and none before one that it depends on. Each has its
/// number and its clock. Error: `Memory`, if an allocation fails.
pub fn timed_events(alloc: Global, world: &World) -> Result<Sequence<TimedEvent>, Refusal>
    ensures events { IfOk result (λ events. (P : tree.Program) → IsWorldOf P world.now
        → AreTimedEvents P (history_of world.now.state) events) }
    ensures refuses { IfErr result (λ refusal. refusal ≡ Memory) }
{
    let order = event_order(alloc, world, &[])?;
    let mut reported = no_counts(alloc, world.tally().processes())?;
    let mut events = Vec::new(alloc);
    for pid in order.items() {
        let pid = *pid;
        let number = reported.count(pid) + 1;
        reported.set(pid, number);
        if let Some(clock) = clock_after(alloc, world, pid, number)? {
            events.push(TimedEvent { pid, number, clock })?;
        }
    }
    Ok(Sequence::new(events))
}
