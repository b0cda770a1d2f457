//! The watches of a detector, one for each conjunct.

ghost use Rattle.std.specs.Prelude.{◌≡◌, ◌≢◌, ◌<◌, ◌≤◌, ◌+◌, length, map, IfOk, IfErr, OnOk};
ghost use Rattle.std.specs.List.{AllByRecursion};
ghost use Rattle.dbg_base.specs.Calls.{conjunct_of};
ghost use Rattle.dbg_base.specs.Copies.{IsCopy};
ghost use Rattle.least_cut.specs.Watches.{conjunct_in, scan_of, IsWatchOf, WasWatchOf};
ghost use Rattle.dbg_base.specs.declared.refusal.Refusal.TheVariants.{Memory};
ghost use Rattle.causal_world.specs.Worlds.{IsSomeWorld};
ghost use Rattle.least_cut.specs.Detectors.{AreWatchesOf, HasTruthRoom, AreRoomier, AreWatched};

use crate::scan::Scan;
use crate::watch::Watch;
use causal_world::World;
use dbg_base::{Conjunct, Cut, Pid, Refusal, Sequence};
use std::alloc::{AllocError, Global};

/// The watch of each conjunct.
pub(crate) fn watches_of(
    alloc: Global,
    conjuncts: Sequence<Conjunct>,
    scan: Scan,
    world: &World,
) -> Result<Vec<Watch>, Refusal>
    requires here { AllByRecursion (λ conjunct. conjunct.process < length world.now.state.places) (map conjunct_of conjuncts) }
    requires scan { scan ≡ scan_of world.now (map conjunct_of conjuncts) }
    ensures of { IfOk result (λ watches. AreWatchesOf world.now watches.items) }
    ensures conjuncts { IfOk result (λ watches. map (λ watch. conjunct_in watch.state) watches.items ≡ map conjunct_of conjuncts) }
    ensures refuses { IfErr result (λ refusal. refusal ≡ Memory) }
{
    let mut watches = Vec::new(alloc);
    for (conjunct, truths) in conjuncts.into_items().into_iter().zip(scan.into_lines()) {
        watches.push(Watch::new(conjunct, truths, world)?)?;
    }
    Ok(watches)
}

/// Copies the watches, with as much room.
pub(crate) fn copy_watches(watches: &Vec<Watch>) -> Result<Vec<Watch>, Refusal>
    ensures { IsCopy result (λ made. made.items ≡ watches.now.items) }
{
    let mut made = Vec::new(*watches.allocator());
    for watch in watches {
        made.push(watch.copy()?)?;
    }
    Ok(made)
}

/// Makes room in the watches of this process for the truths of so many local states.
pub(crate) fn reserve_at(
    watches: &mut Vec<Watch>,
    pid: Pid,
    states: usize,
) -> Result<(), AllocError>
    ensures each { AreRoomier watches.old.items watches.new.items }
    ensures ok { OnOk result (AllByRecursion (λ watch. watch.state.line.process ≡ pid.0 → states ≤ watch.room) watches.new.items) }
{
    for i in 0..watches.len() {
        let watch = &mut watches[i];
        if watch.pid() == pid {
            watch.reserve_to(states)?;
        }
    }
    Ok(())
}

/// Makes room in each watch for the truths of as many events of its process as the cut has.
pub(crate) fn reserve_each(watches: &mut Vec<Watch>, cut: &Cut) -> Result<(), AllocError>
    ensures each { AreRoomier watches.old.items watches.new.items }
    ensures ok { OnOk result (AllByRecursion (HasTruthRoom cut.now) watches.new.items) }
{
    for i in 0..watches.len() {
        let watch = &mut watches[i];
        let events = cut.count(watch.pid());
        watch.reserve_to(events as usize + 1)?;
    }
    Ok(())
}

/// Makes what is kept of each conjunct that of the world.
pub(crate) fn watch_each(watches: &mut Vec<Watch>, world: &World)
    requires world { IsSomeWorld world.now }
    requires was { AllByRecursion (λ watch. WasWatchOf watch.state world.now) watches.old.items }
    requires room { AllByRecursion (HasTruthRoom world.now.state.places) watches.old.items }
    ensures { AreWatched world.now watches.old.items watches.new.items }
{
    for i in 0..watches.len() {
        let watch = &mut watches[i];
        watch.follow(world);
    }
}

/// Makes what is kept of each conjunct of this process that of the world. What is kept of the others is that of the world already.
pub(crate) fn watch_at(watches: &mut Vec<Watch>, pid: Pid, world: &World)
    requires world { IsSomeWorld world.now }
    requires was { AllByRecursion (λ watch. WasWatchOf watch.state world.now) watches.old.items }
    requires others { AllByRecursion (λ watch. watch.state.line.process ≢ pid.0 → IsWatchOf world.now watch.state) watches.old.items }
    requires room { AllByRecursion (HasTruthRoom world.now.state.places) watches.old.items }
    ensures { AreWatched world.now watches.old.items watches.new.items }
{
    for i in 0..watches.len() {
        let watch = &mut watches[i];
        if watch.pid() == pid {
            watch.follow(world);
        }
    }
}
