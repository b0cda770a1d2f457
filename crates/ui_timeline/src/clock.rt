//! The clock of an event.

ghost use Rattle.std.specs.Prelude.{◌≡◌, ◌<◌, length, IfOk, IfErr, MatchOption};
ghost use Rattle.dbg_base.specs.declared.refusal.Refusal.TheVariants.{Memory};
ghost use Rattle.dbg_base.specs.Trees as tree;
ghost use Rattle.dbg_base.specs.SystemStates.{history_of, place_at};
ghost use Rattle.dbg_base.specs.Clocks.{IsClock};
ghost use Rattle.causal_world.specs.Scenes.{IsWorldOf};

use causal_world::World;
use dbg_base::{Cut, Pid, Refusal};
use std::alloc::Global;

/// The clock of a process after its n-th event: how many events of each process are in its causal past, the event included. None if
/// there is no such event. Error: `Memory`, if an allocation fails.
pub(crate) fn clock_after(
    alloc: Global,
    world: &World,
    pid: Pid,
    n: u32,
) -> Result<Option<Cut>, Refusal>
    ensures clock { IfOk result (λ clock. MatchOption clock (pid.0 < length world.now.state.places → place_at world.now.state pid.0 < n)
        (λ cut. (P : tree.Program) → IsWorldOf P world.now → IsClock P (history_of world.now.state) pid.0 n cut)) }
    ensures refuses { IfErr result (λ refusal. refusal ≡ Memory) }
{
    if pid.0 >= world.tally().processes() || n > world.place(pid) {
        return Ok(None);
    }
    Ok(Some(world.clock(alloc, pid, n)?))
}
