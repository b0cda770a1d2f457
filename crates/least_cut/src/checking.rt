//! Checking a list of eliminations, whoever made it.

ghost use Rattle.std.specs.Prelude.{◌≡◌, ℕ, ◌<◌, ◌≤◌, List, length, map, IfOk, IfErr, IsTrue, ◌↔◌};
ghost use Rattle.std.specs.List.{AllByRecursion};
ghost use Rattle.dbg_base.specs.Trees as tree;
ghost use Rattle.dbg_base.specs.declared.refusal.Refusal.TheVariants.{Memory};
ghost use Rattle.dbg_base.specs.Calls.{conjunct_of};
ghost use Rattle.dbg_base.specs.Cuts.{IsAtMost};
ghost use Rattle.dbg_base.specs.Predicates.{Satisfies};
ghost use Rattle.dbg_base.specs.Eliminations.{IsSound, reach, most_steps};
ghost use Rattle.dbg_base.specs.SystemStates.{history_of};
ghost use Rattle.causal_world.specs.Scenes.{IsWorldOf};
ghost use Rattle.causal_world.specs.Worlds.{IsSomeWorld};
ghost use Rattle.least_cut.specs.Searches.{IsDue, IsStep};

use crate::scan::Scan;
use causal_world::World;
use dbg_base::{Cause, Conjunct, Cut, Elimination, Refusal};
use std::alloc::Global;

// Whether the cause of this elimination holds at the candidates.
fn is_due(world: &World, scan: &Scan, candidates: &Cut, step: &Elimination) -> bool
    requires { IsSomeWorld world.now }
    ensures { IsTrue result ↔ IsDue world.now scan.now candidates.now step.now.pid.0 step.now.from step.now.to step.now.cause }
{
    let Elimination {
        pid,
        from,
        to,
        cause,
    } = *step;
    match cause {
        Cause::FalseAt => scan.is_false(pid, from) && from.checked_add(1) == Some(to),
        Cause::Passed(by, event) => {
            by.0 < world.tally().processes()
                && event <= candidates.count(by)
                && event <= world.place(by)
                && world.clock_part(by, event, pid) == to
                && from < to
        }
    }
}

// Whether the elimination is justified at the candidates.
fn is_step(world: &World, scan: &Scan, candidates: &Cut, step: &Elimination) -> bool
    requires { IsSomeWorld world.now }
    ensures { IsTrue result ↔ IsStep world.now scan.now candidates.now step.now }
{
    step.pid.0 < world.tally().processes()
        && step.from == candidates.count(step.pid)
        && step.from <= world.place(step.pid)
        && is_due(world, scan, candidates, step)
}

/// Whether the list of eliminations is sound for these conjuncts, whose processes must exist: each elimination is justified after those
/// before it, from no event of any process on. Every cut that satisfies the conjuncts is at least the tuple that a sound list reaches.
/// Error: `Memory`, if an allocation fails.
pub fn check_why(
    alloc: Global,
    world: &World,
    conjuncts: &[Conjunct],
    steps: &[Elimination],
) -> Result<bool, Refusal>
    requires { AllByRecursion (λ conjunct. conjunct.process < length world.now.state.places) (map conjunct_of conjuncts.now) }
    ensures sound { IfOk result (λ sound. (P : tree.Program) → IsWorldOf P world.now
        → IsTrue sound ↔ IsSound P (history_of world.now.state) (map conjunct_of conjuncts.now) steps.now) }
    ensures above { IfOk result (λ sound. IsTrue sound → (P : tree.Program) → IsWorldOf P world.now → (cut : List ℕ)
        → Satisfies P (history_of world.now.state) (map conjunct_of conjuncts.now) cut
        → IsAtMost (reach (history_of world.now.state) steps.now) cut) }
    ensures few { IfOk result (λ sound. IsTrue sound → length steps.now ≤ most_steps (history_of world.now.state)) }
    ensures refuses { IfErr result (λ refusal. refusal ≡ Memory) }
{
    let processes = world.tally().processes();
    let scan = Scan::of(alloc, world, conjuncts)?;
    let mut candidates = Cut::new(vec![in alloc; 0; processes as usize]?);
    for step in steps {
        if !is_step(world, &scan, &candidates, step) {
            return Ok(false);
        }
        candidates.set(step.pid, step.to);
    }
    Ok(true)
}
