//! The answers of a table to queries.

ghost use Rattle.std.specs.Prelude.{◌≡◌, ◌≢◌, IfErr};
ghost use Rattle.dbg_base.specs.declared.refusal.Refusal.TheVariants.{Memory};
ghost use Rattle.dbg_base.specs.Trees as tree;
ghost use Rattle.dbg_base.specs.Calls as model;
ghost use Rattle.proc_tree.specs.Programs.{program_of};
ghost use Rattle.dbg_command.specs.Boxes.{HasNamed};
ghost use Rattle.dbg_command.specs.Tables.{IsTableOf, AnswersOrRefuses, state_of};

use crate::table::{Table, known};
use dbg_base::{Answer, Name, Pid, Refusal};
use proc_tree::Program;
use std::alloc::Global;

impl Table {
    // The values of the process's variables.
    pub(crate) fn values(
        &self,
        alloc: Global,
        program: &Program,
        pid: Pid,
    ) -> Result<Answer, Refusal>
        requires { IsTableOf (program_of program.now) self.now }
        ensures { AnswersOrRefuses (program_of program.now) (state_of self.now) (model.Vars pid.0) result }
    {
        known(program, pid)?;
        Ok(Answer::Values(self.world().vars(alloc, pid)?))
    }

    // The messages on their way from the source to the target.
    pub(crate) fn messages(
        &self,
        alloc: Global,
        program: &Program,
        source: Pid,
        target: Pid,
    ) -> Result<Answer, Refusal>
        requires { IsTableOf (program_of program.now) self.now }
        ensures { AnswersOrRefuses (program_of program.now) (state_of self.now) (model.Chan source.0 target.0) result }
    {
        known(program, source)?;
        known(program, target)?;
        Ok(Answer::Messages(self.world().channel(alloc, source, target)?))
    }

    // The clock of the process's present state.
    pub(crate) fn clock(
        &self,
        alloc: Global,
        program: &Program,
        pid: Pid,
    ) -> Result<Answer, Refusal>
        requires { IsTableOf (program_of program.now) self.now }
        ensures { AnswersOrRefuses (program_of program.now) (state_of self.now) (model.Clock pid.0) result }
    {
        known(program, pid)?;
        let world = self.world();
        let counts = world.clock(alloc, pid, world.place(pid))?;
        Ok(Answer::Counts(counts))
    }

    // The place of the process, and the length of its line.
    pub(crate) fn place(&self, program: &Program, pid: Pid) -> Result<Answer, Refusal>
        ensures answers { AnswersOrRefuses (program_of program.now) (state_of self.now) (model.Place pid.0) result }
        ensures memory { IfErr result (λ refusal. refusal ≢ Memory) }
    {
        known(program, pid)?;
        Ok(Answer::PlaceOf {
            at: self.world().place(pid),
            line: self.world().line_len(pid),
        })
    }

    // Whether the process's last event may be undone.
    pub(crate) fn can(&self, program: &Program, pid: Pid) -> Result<Answer, Refusal>
        requires { IsTableOf (program_of program.now) self.now }
        ensures answers { AnswersOrRefuses (program_of program.now) (state_of self.now) (model.Can pid.0) result }
        ensures memory { IfErr result (λ refusal. refusal ≢ Memory) }
    {
        known(program, pid)?;
        Ok(Answer::CanUndo(self.world().can_undo(pid)))
    }

    // The least cut of the breakpoint of this name.
    pub(crate) fn cut(&self, name: Name) -> Result<Answer, Refusal>
        ensures answers { (P : tree.Program) → IsTableOf P self.now → AnswersOrRefuses P (state_of self.now) (model.CutOf name) result }
        ensures memory { IfErr result (λ refusal. refusal ≡ Memory → HasNamed name (state_of self.now)) }
    {
        match self.cut_of(name) {
            Ok(cut) => Ok(Answer::CutIs(cut)),
            Err(refusal) => Err(refusal),
        }
    }

    // The frontier of the breakpoint of this name.
    pub(crate) fn frontier(&self, alloc: Global, name: Name) -> Result<Answer, Refusal>
        ensures answers { (P : tree.Program) → IsTableOf P self.now → AnswersOrRefuses P (state_of self.now) (model.Why name) result }
        ensures memory { IfErr result (λ refusal. refusal ≡ Memory → HasNamed name (state_of self.now)) }
    {
        let Some((_, breakpoint)) = self.book().find(name) else {
            return Err(Refusal::UnknownBreak);
        };
        Ok(Answer::Frontier(breakpoint.detector().frontier(alloc)?))
    }

    // The breakpoints in order, with their marks.
    pub(crate) fn marks(&self, alloc: Global) -> Result<Answer, Refusal>
        ensures { (P : tree.Program) → AnswersOrRefuses P (state_of self.now) model.Breaks result }
    {
        Ok(Answer::Marks(self.book().list(alloc)?))
    }
}
