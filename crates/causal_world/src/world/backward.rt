//! Going back: the last event of a process, or all events beyond a cut.

ghost use Rattle.std.specs.Prelude.{◌≡◌, ◌⊎◌, IfOk, IfErr, OnOk, OnErr, Ok};
ghost use Rattle.dbg_base.specs.declared.refusal.Refusal.TheVariants.{Memory};
ghost use Rattle.dbg_base.specs.Trees as tree;
ghost use Rattle.dbg_base.specs.SystemStates.{history_of, after_undo, after_rollback};
ghost use Rattle.dbg_base.specs.Choices.{CannotUndo};
ghost use Rattle.dbg_base.specs.Reversal.{MayUndo};
ghost use Rattle.cut_core.specs.ConsistentCuts.{IsConsistentCut};
ghost use Rattle.causal_world.specs.Scenes.{IsWorldOf};
ghost use Rattle.causal_world.specs.Worlds.{Undoable};
ghost use Rattle.causal_world.specs.Rollings.{IsRolledFrom, IsRedone, IsStepped, TakesOut};

use crate::channels::make_room_before;
use crate::rolled::{Cutoff, Rolled, Taken};
use crate::rolling::{beyond, last_exchange, make_room_back, roll_back, take_back};
use crate::world::World;
use dbg_base::{Cut, Pid, Refusal};
use event_rows::Exchange;
use std::alloc::Global;

impl World {
    // What the last event of the process exchanged, if the event may be undone, or why it may not.
    fn undoable(&self, pid: Pid) -> Result<Exchange, Refusal>
        ensures { Undoable self.now pid.0 result }
    {
        last_exchange(&self.grid, &self.past, pid)
    }

    /// Whether the last event of the process may be undone. Errors: `NothingToUndo` if it has no event, and `Consequence` with the process
    /// that has received the message of the event.
    pub fn can_undo(&self, pid: Pid) -> Result<(), Refusal>
        ensures may { OnOk result ((P : tree.Program) → IsWorldOf P self.now → MayUndo P (history_of self.now.state) pid.0) }
        ensures why { IfErr result (λ refusal. (P : tree.Program) → IsWorldOf P self.now → CannotUndo P self.now.state pid.0 refusal) }
    {
        let _exchange = self.undoable(pid)?;
        Ok(())
    }

    // Removes the last event of the process, if it may be undone. If an allocation fails, nothing changes.
    fn pop_event(&mut self, pid: Pid) -> Result<Taken, Refusal>
        ensures of { IfOk result (λ taken. taken.pid ≡ pid) }
        ensures took { IfOk result (λ taken. TakesOut self.old pid.0 taken.event self.new) }
        ensures refuses { IfErr result (λ refusal.
            ((P : tree.Program) → IsWorldOf P self.old → CannotUndo P self.old.state pid.0 refusal) ⊎ (refusal ≡ Memory)) }
        ensures kept { OnErr result (self.new ≡ self.old) }
    {
        let exchange = self.undoable(pid)?;
        make_room_before(&mut self.grid, pid, exchange)?;
        let taken = take_back(&mut self.envs, &mut self.grid, &mut self.past, pid);
        self.lines.retreat(pid);
        Ok(taken)
    }

    /// Undoes the last event of the process. Its variables get their old values. A message that it sent leaves the tail of its channel, and
    /// a message that it received returns to the head. The place moves back by one, and the line stays. On an error nothing changes.
    /// Errors: those of `can_undo`, and `Memory` if an allocation fails.
    pub fn undo(&mut self, alloc: Global, pid: Pid) -> Result<Rolled, Refusal>
        ensures of { (P : tree.Program) → IsWorldOf P self.old → IsWorldOf P self.new }
        ensures may { OnOk result ((P : tree.Program) → IsWorldOf P self.old → MayUndo P (history_of self.old.state) pid.0) }
        ensures moves { OnOk result (self.new.state ≡ after_undo self.old.state pid.0) }
        ensures back { IfOk result (λ rolled. (P : tree.Program) → IsWorldOf P self.old → IsRolledFrom P self.old rolled self.new) }
        ensures refuses { IfErr result (λ refusal.
            ((P : tree.Program) → IsWorldOf P self.old → CannotUndo P self.old.state pid.0 refusal) ⊎ (refusal ≡ Memory)) }
        ensures kept { OnErr result (self.new ≡ self.old) }
    {
        let last = self.pop_event(pid)?;
        Ok(Rolled {
            taken: Vec::new(alloc),
            last: Some(last),
        })
    }

    /// Undoes a redo of the process that led to the present world: the world is as it was before. Error: `Memory`, if an allocation fails;
    /// then nothing changes.
    pub fn unredo(&mut self, pid: Pid) -> Result<(), Refusal>
        requires { (P : tree.Program) × IsRedone P pid.0 self.old }
        ensures back { (P : tree.Program) (r : IsRedone P pid.0 self.old) → OnOk result (self.new ≡ r.before) }
        ensures refuses { IfErr result (λ refusal. refusal ≡ Memory) }
        ensures kept { OnErr result (self.new ≡ self.old) }
    {
        match self.pop_event(pid) {
            Ok(_taken) => Ok(()),
            Err(refusal) => Err(refusal),
        }
    }

    /// Undoes a step of the process that led to the present world and cut these choices off: the world is as it was before, with those
    /// choices. Error: `Memory`, if an allocation fails; then nothing changes, and the choices are returned.
    pub fn unstep(&mut self, pid: Pid, cutoff: Cutoff) -> Result<(), (Refusal, Cutoff)>
        requires { (P : tree.Program) × IsStepped P pid.0 cutoff self.old }
        ensures back { (P : tree.Program) (s : IsStepped P pid.0 cutoff self.old) → OnOk result (self.new ≡ s.before) }
        ensures refuses { IfErr result (λ refused. (refused.0 ≡ Memory) × (refused.1 ≡ cutoff)) }
        ensures kept { OnErr result (self.new ≡ self.old) }
    {
        let exchange = match self.undoable(pid) {
            Ok(exchange) => exchange,
            Err(refusal) => return Err((refusal, cutoff)),
        };
        match make_room_before(&mut self.grid, pid, exchange) {
            Ok(()) => {}
            Err(_) => return Err((Refusal::Memory, cutoff)),
        }
        match self.lines.restore(pid, cutoff.choices.as_slice()) {
            Ok(()) => {}
            Err(_) => return Err((Refusal::Memory, cutoff)),
        }
        take_back(&mut self.envs, &mut self.grid, &mut self.past, pid);
        Ok(())
    }

    /// Undoes the events beyond this consistent cut, one by one; no remaining event depends on an undone one. The places become those of
    /// the cut, and the lines stay. Error: `Memory`, if an allocation fails; then nothing changes.
    pub fn roll_to(&mut self, alloc: Global, cut: &Cut) -> Result<Rolled, Refusal>
        requires { IsConsistentCut self.old.kinds cut.now }
        ensures of { (P : tree.Program) → IsWorldOf P self.old → IsWorldOf P self.new }
        ensures moves { OnOk result (self.new.state ≡ after_rollback self.old.state cut.now) }
        ensures back { IfOk result (λ rolled. (P : tree.Program) → IsWorldOf P self.old → IsRolledFrom P self.old rolled self.new) }
        ensures refuses { IfErr result (λ refusal. refusal ≡ Memory) }
        ensures kept { OnErr result (self.new ≡ self.old) }
    {
        let counts = cut.counts();
        let mut taken = Vec::new(alloc);
        taken.reserve(beyond(self.past.tally(), counts))?;
        make_room_back(&mut self.grid, self.past.tally(), counts)?;
        roll_back(
            &mut self.lines,
            &mut self.envs,
            &mut self.grid,
            &mut self.past,
            counts,
            &mut taken,
        );
        Ok(Rolled { taken, last: None })
    }
}
