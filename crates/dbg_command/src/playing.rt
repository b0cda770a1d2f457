//! The commands by which a process makes an event: step, next, redo.

ghost use Rattle.std.specs.Prelude.{◌≡◌, OnOk, OnErr};
ghost use Rattle.dbg_base.specs.declared.said.Done.TheVariants.{Played};
ghost use Rattle.dbg_base.specs.Trees as tree;
ghost use Rattle.dbg_base.specs.Calls as model;
ghost use Rattle.proc_tree.specs.Programs.{program_of};
ghost use Rattle.causal_world.specs.Scenes.{IsWorldOf};
ghost use Rattle.break_book.specs.Books.{AreGrown, HaveRoomUpTo};
ghost use Rattle.dbg_command.specs.Tables.{IsTableOf, ActsOrRefuses, Replies, shown, state_of};
ghost use Rattle.dbg_command.specs.Boxes.{LeadsBack, LeadsBackBy, HasStepped, HasRedone, unstepped, unredone};

use crate::table::Table;
use causal_world::Cutoff;
use dbg_base::{Choice, Done, Pid, Refusal, Reply};
use proc_tree::Program;
use std::alloc::Global;

impl Table {
    // The detectors follow the world, in which the process has made this choice.
    fn grown(&mut self, pid: Pid, choice: Choice) -> Reply
        requires grown { AreGrown self.old.book pid.0 self.old.world }
        requires room { HaveRoomUpTo self.old.book self.old.world.state.places }
        ensures of { (P : tree.Program) → IsWorldOf P self.old.world → IsTableOf P self.new }
        ensures same { state_of self.new ≡ state_of self.old }
        ensures replies { (P : tree.Program) → IsWorldOf P self.old.world
            → Replies P (state_of self.new) (Played pid choice) result }
    {
        self.book.grow(pid, &self.world);
        self.reply(Done::Played(pid, choice))
    }

    // Makes the process fire this command. The choices that were cut off its line are in `kept` then.
    pub(crate) fn step(
        &mut self,
        alloc: Global,
        program: &Program,
        pid: Pid,
        choice: Choice,
        kept: &mut Option<Cutoff>,
    ) -> Result<Reply, Refusal>
        requires { IsTableOf (program_of program.now) self.old }
        ensures of { IsTableOf (program_of program.now) self.new }
        ensures acts { ActsOrRefuses (program_of program.now) (model.Step pid.0 choice.0) (state_of self.old) result (state_of self.new) }
        ensures leads { OnOk result (LeadsBackBy kept.new (HasStepped (program_of program.now) pid.0) (unstepped pid.0)
            (state_of self.old) (state_of self.new)) }
        ensures refused { OnErr result ((shown self.new ≡ shown self.old) × (kept.new ≡ kept.old)) }
    {
        self.ready(program, pid)?;
        let cutoff = self.world.step(alloc, program, pid, choice)?;
        *kept = Some(cutoff);
        Ok(self.grown(pid, choice))
    }

    // Makes the process fire its first command that can fire. The choices that were cut off its line are in `kept` then.
    pub(crate) fn next(
        &mut self,
        alloc: Global,
        program: &Program,
        pid: Pid,
        kept: &mut Option<Cutoff>,
    ) -> Result<Reply, Refusal>
        requires { IsTableOf (program_of program.now) self.old }
        ensures of { IsTableOf (program_of program.now) self.new }
        ensures acts { ActsOrRefuses (program_of program.now) (model.Next pid.0) (state_of self.old) result (state_of self.new) }
        ensures leads { OnOk result (LeadsBackBy kept.new (HasStepped (program_of program.now) pid.0) (unstepped pid.0)
            (state_of self.old) (state_of self.new)) }
        ensures refused { OnErr result ((shown self.new ≡ shown self.old) × (kept.new ≡ kept.old)) }
    {
        self.ready(program, pid)?;
        let (choice, cutoff) = self.world.next(alloc, program, pid)?;
        *kept = Some(cutoff);
        Ok(self.grown(pid, choice))
    }

    // Makes the process fire the choice at its place again.
    pub(crate) fn redo(
        &mut self,
        alloc: Global,
        program: &Program,
        pid: Pid,
    ) -> Result<Reply, Refusal>
        requires { IsTableOf (program_of program.now) self.old }
        ensures of { IsTableOf (program_of program.now) self.new }
        ensures acts { ActsOrRefuses (program_of program.now) (model.Redo pid.0) (state_of self.old) result (state_of self.new) }
        ensures leads { OnOk result (LeadsBack (HasRedone (program_of program.now) pid.0) (unredone pid.0) (state_of self.old)
            (state_of self.new)) }
        ensures kept { OnErr result (shown self.new ≡ shown self.old) }
    {
        self.ready(program, pid)?;
        let choice = self.world.redo(alloc, program, pid)?;
        Ok(self.grown(pid, choice))
    }
}
