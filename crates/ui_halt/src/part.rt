//! A part of a predicate in a cut.

ghost use Rattle.std.specs.Prelude.{◌≡◌, ◌≤◌, IfOk, slice_index};
ghost use Rattle.dbg_base.specs.Trees.{tree_of};
ghost use Rattle.dbg_base.specs.Predicates.{Conjunct};
ghost use Rattle.least_cut.specs.Detectors.{conjunct_with};
ghost use Rattle.ui_halt.specs.Parts.{AreTruths, FindsEarlier, FindsPart};

use crate::lane::{last_true, true_since};
use crate::reason::find_reason;
use causal_world::World;
use dbg_base::{Cut, Expr, Pid};
use std::alloc::{AllocError, Global};
use ui_causes::EventPlace;

/// A part was true after so many events, fewer than those since which it has been true. That was too early, for this event of the cut.
#[derive(Clone, Copy)]
pub struct Earlier {
    pub events: u32,
    pub reason: Option<EventPlace>,
}

/// A part of a predicate in a cut: whether it is true after each number of events of its process, since how many events it has been true in
/// the cut, and after how many it was true before.
#[derive(Drop)]
pub struct PartInCut {
    pub pid: Pid,
    pub truths: Vec<bool>,
    pub since: u32,
    pub earlier: Option<Earlier>,
}

// When a part was true that has been true since so many events, and why that was too early.
fn find_earlier(world: &World, cut: &Cut, pid: Pid, truths: &[bool], since: u32) -> Option<Earlier>
    ensures { (part : Conjunct) → part.process ≡ pid.0 → AreTruths world.now part truths.now → since ≤ slice_index cut.now pid.0
        → FindsEarlier world.now part cut.now truths.now since result }
{
    let events = last_true(truths, since)?;
    let number = events + 1;
    let reason = find_reason(world, cut, EventPlace { pid, number });
    Some(Earlier { events, reason })
}

/// The part of this process with this expression in a cut. None if it is false there. Error: memory ran out.
pub fn find_part(
    alloc: Global,
    world: &World,
    cut: &Cut,
    pid: Pid,
    expr: &Expr,
) -> Result<Option<PartInCut>, AllocError>
    ensures { IfOk result (λ found. FindsPart world.now (conjunct_with pid.0 (tree_of expr.now)) cut.now found) }
{
    let truths = world.rows().truths(alloc, pid, expr)?.into_items();
    let Some(since) = true_since(&truths, cut.count(pid)) else {
        return Ok(None);
    };
    let earlier = find_earlier(world, cut, pid, &truths, since);
    Ok(Some(PartInCut {
        pid,
        truths,
        since,
        earlier,
    }))
}
