//! Why a cut has no fewer events of a process.

ghost use Rattle.std.specs.Prelude.{IsTrue, ◌↔◌, List};
ghost use Rattle.dbg_base.specs.Orders as orders;
ghost use Rattle.dbg_base.specs.Trees as tree;
ghost use Rattle.ui_causes.specs.CausalPasts.{AreEvents};
ghost use Rattle.ui_halt.specs.Reasons.{Needs, FindsReason};

use causal_world::World;
use dbg_base::{Cut, Pid};
use ui_causes::{EventPlace, first_after, is_before, is_event};

// Whether this is an event of another process that depends on the first one.
fn needs(world: &World, earlier: EventPlace, event: EventPlace) -> bool
    ensures { (P : tree.Program) (E : List orders.Event) → AreEvents P E world.now → IsTrue result ↔ Needs P E world.now earlier event }
{
    event.pid != earlier.pid && is_event(world, event) && is_before(world, earlier, event)
}

/// An event of a cut that depends on this one: the first such event of another process. So the cut cannot be without this one. There is one
/// if the cut is the least that satisfies a predicate, and the predicate does not exclude the state before this event.
pub fn find_reason(world: &World, cut: &Cut, earlier: EventPlace) -> Option<EventPlace>
    ensures { FindsReason world.now cut.now earlier result }
{
    if !is_event(world, earlier) {
        return None;
    }
    for q in 0..world.tally().processes() {
        let pid = Pid(q);
        let number = cut.count(pid);
        if needs(world, earlier, EventPlace { pid, number }) {
            let number = first_after(world, earlier, pid);
            return Some(EventPlace { pid, number });
        }
    }
    None
}
