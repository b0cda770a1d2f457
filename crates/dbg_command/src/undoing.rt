//! The commands that undo events: undo, rollback, goto.

ghost use Rattle.std.specs.Prelude.{◌≡◌, IfErr, OnOk, OnErr};
ghost use Rattle.dbg_base.specs.declared.refusal.Refusal.TheVariants.{Memory};
ghost use Rattle.dbg_base.specs.Trees as tree;
ghost use Rattle.dbg_base.specs.Calls as model;
ghost use Rattle.proc_tree.specs.Programs.{program_of};
ghost use Rattle.cut_core.specs.ConsistentCuts.{IsConsistentCut};
ghost use Rattle.dbg_command.specs.Tables.{IsTableOf, ActsOrRefuses, GoesBack, shown, state_of};
ghost use Rattle.dbg_command.specs.Boxes.{LeadsBackBy, HasEvent, HasNamed, HasRolled, HasUndone, unrolled, remade};

use crate::table::{Table, known};
use causal_world::Rolled;
use dbg_base::{Cut, Done, Name, Pid, Refusal, Reply};
use proc_tree::Program;
use std::alloc::Global;

// Events that were undone, and the places before that.
#[derive(Drop)]
pub(crate) struct TakenBack {
    pub(crate) rolled: Rolled,
    pub(crate) places: Cut,
}

impl Table {
    // Undoes the last event of the process. It is in `kept` then.
    pub(crate) fn undo(
        &mut self,
        alloc: Global,
        program: &Program,
        pid: Pid,
        kept: &mut Option<Rolled>,
    ) -> Result<Reply, Refusal>
        requires { IsTableOf (program_of program.now) self.old }
        ensures of { IsTableOf (program_of program.now) self.new }
        ensures acts { ActsOrRefuses (program_of program.now) (model.Undo pid.0) (state_of self.old) result (state_of self.new) }
        ensures leads { OnOk result (LeadsBackBy kept.new (HasUndone (program_of program.now) pid.0) (λ rolled. remade pid.0)
            (state_of self.old) (state_of self.new)) }
        ensures refused { OnErr result ((shown self.new ≡ shown self.old) × (kept.new ≡ kept.old)) }
        ensures memory { IfErr result (λ refusal. refusal ≡ Memory → HasEvent pid.0 (state_of self.old)) }
    {
        known(program, pid)?;
        let choice = self.world.last(pid).ok_or(Refusal::NothingToUndo)?;
        let rolled = self.world.undo(alloc, pid)?;
        self.book.shrink(pid, &self.world);
        *kept = Some(rolled);
        Ok(self.reply(Done::Undone(pid, choice)))
    }

    // Undoes the events beyond this consistent cut. They are in `kept` then.
    fn roll_to(
        &mut self,
        alloc: Global,
        cut: Cut,
        kept: &mut Option<TakenBack>,
    ) -> Result<Reply, Refusal>
        requires of { (P : tree.Program) × IsTableOf P self.old }
        requires cut { IsConsistentCut self.old.world.kinds cut }
        ensures of { (P : tree.Program) → IsTableOf P self.old → IsTableOf P self.new }
        ensures back { (P : tree.Program) → IsTableOf P self.old
            → GoesBack P (state_of self.old) cut result (state_of self.new) }
        ensures leads { OnOk result ((P : tree.Program) → IsTableOf P self.old
            → LeadsBackBy kept.new (λ taken. HasRolled P taken.rolled taken.places) (λ taken. unrolled taken.places) (state_of self.old)
            (state_of self.new)) }
        ensures refused { OnErr result ((shown self.new ≡ shown self.old) × (kept.new ≡ kept.old)) }
    {
        let places = self.world.places(alloc)?;
        let rolled = self.world.roll_to(alloc, &cut)?;
        self.book.follow(&self.world);
        *kept = Some(TakenBack { rolled, places });
        Ok(self.reply(Done::Places(cut)))
    }

    // Takes the process back to this count of events, and the others no further than they must go.
    pub(crate) fn rollback(
        &mut self,
        alloc: Global,
        program: &Program,
        pid: Pid,
        n: u32,
        kept: &mut Option<TakenBack>,
    ) -> Result<Reply, Refusal>
        requires { IsTableOf (program_of program.now) self.old }
        ensures of { IsTableOf (program_of program.now) self.new }
        ensures acts { ActsOrRefuses (program_of program.now) (model.Rollback pid.0 n) (state_of self.old) result (state_of self.new) }
        ensures leads { OnOk result (LeadsBackBy kept.new (λ taken. HasRolled (program_of program.now) taken.rolled taken.places)
            (λ taken. unrolled taken.places) (state_of self.old) (state_of self.new)) }
        ensures refused { OnErr result ((shown self.new ≡ shown self.old) × (kept.new ≡ kept.old)) }
    {
        known(program, pid)?;
        if n > self.world.place(pid) {
            return Err(Refusal::BadPlace);
        }
        let cut = self.world.rollback_cut(alloc, pid, n)?;
        self.roll_to(alloc, cut, kept)
    }

    // Takes all processes back to the breakpoint's cut.
    pub(crate) fn go_to(
        &mut self,
        alloc: Global,
        name: Name,
        kept: &mut Option<TakenBack>,
    ) -> Result<Reply, Refusal>
        requires { (P : tree.Program) × IsTableOf P self.old }
        ensures of { (P : tree.Program) → IsTableOf P self.old → IsTableOf P self.new }
        ensures acts { (P : tree.Program) → IsTableOf P self.old
            → ActsOrRefuses P (model.Goto name) (state_of self.old) result (state_of self.new) }
        ensures leads { OnOk result ((P : tree.Program) → IsTableOf P self.old
            → LeadsBackBy kept.new (λ taken. HasRolled P taken.rolled taken.places) (λ taken. unrolled taken.places) (state_of self.old)
            (state_of self.new)) }
        ensures refused { OnErr result ((shown self.new ≡ shown self.old) × (kept.new ≡ kept.old)) }
        ensures memory { IfErr result (λ refusal. refusal ≡ Memory → HasNamed name (state_of self.old)) }
    {
        match self.cut_of(name) {
            Ok(Some(cut)) => self.roll_to(alloc, cut, kept),
            Ok(None) => Err(Refusal::NoCut),
            Err(refusal) => Err(refusal),
        }
    }
}
