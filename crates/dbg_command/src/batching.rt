//! Commands of a batch, given one after the other.

ghost use Rattle.std.specs.Prelude.{◌≡◌, ◌<◌, Ok, Err, IfOk, IfErr, OnErr};
ghost use Rattle.dbg_base.specs.declared.limits.TheConstants.{BATCH};
ghost use Rattle.dbg_base.specs.Calls.{Batch, IsOne, order_of, plans_in, AreCommands};
ghost use Rattle.proc_tree.specs.Programs.{program_of};
ghost use Rattle.dbg_command.specs.Tables.{IsTableOf, FollowsOrRefuses, GivesEach, TellsWithin, shown, state_of};

use crate::table::Table;
use dbg_base::{Done, Plan, Refusal, Reply};
use proc_tree::Program;
use std::alloc::Global;

// The refusal of a batch whose command at this position, from 0, was refused like this.
fn within_batch(position: usize, refusal: Refusal) -> Refusal
    requires { position < BATCH }
    ensures { TellsWithin position refusal result }
{
    match refusal {
        Refusal::Memory => Refusal::Memory,
        other => Refusal::InBatch {
            at: position as u32 + 1,
            number: other.number(),
        },
    }
}

impl Table {
    // Gives one command.
    fn give_one(&mut self, alloc: Global, program: &Program, plan: &Plan) -> Result<Reply, Refusal>
        requires of { IsTableOf (program_of program.now) self.old }
        requires one { IsOne (order_of plan.now) }
        ensures of { IsTableOf (program_of program.now) self.new }
        ensures acts { FollowsOrRefuses (program_of program.now) (order_of plan.now) (state_of self.old) result (state_of self.new) }
        ensures kept { OnErr result (shown self.new ≡ shown self.old) }
    {
        match plan {
            Plan::Step(pid, choice) => self.step(alloc, program, *pid, *choice, &mut None),
            Plan::Next(pid) => self.next(alloc, program, *pid, &mut None),
            Plan::Undo(pid) => self.undo(alloc, program, *pid, &mut None),
            Plan::Redo(pid) => self.redo(alloc, program, *pid),
            Plan::Rollback(pid, n) => self.rollback(alloc, program, *pid, *n, &mut None),
            Plan::Goto(name) => self.go_to(alloc, *name, &mut None),
            Plan::Break(name, conjuncts) => {
                self.set_break(alloc, program, *name, conjuncts, None)
            }
            Plan::Clear(name) => self.clear(*name, &mut None),
            Plan::Arm(name) => self.arm(*name),
            Plan::Pass(name) => self.pass(*name),
            Plan::Batch(_) => unreachable!(),
        }
    }

    // Gives the commands of a batch one after the other, up to the first that is refused.
    pub(crate) fn give_each(
        &mut self,
        alloc: Global,
        program: &Program,
        plans: &[Plan],
    ) -> Result<(), Refusal>
        requires of { IsTableOf (program_of program.now) self.old }
        requires commands { AreCommands plans.now }
        ensures of { IsTableOf (program_of program.now) self.new }
        ensures gives { GivesEach (program_of program.now) (plans_in plans.now) (state_of self.old) result (state_of self.new) }
    {
        for (i, plan) in plans.iter().enumerate() {
            match self.give_one(alloc, program, plan) {
                Ok(_) => {}
                Err(refusal) => return Err(within_batch(i, refusal)),
            }
        }
        Ok(())
    }

    // Gives the commands of a batch to a copy of the table, and returns the copy with the reply to the batch.
    pub(crate) fn after_batch(
        &self,
        alloc: Global,
        program: &Program,
        plans: &[Plan],
    ) -> Result<(Reply, Table), Refusal>
        requires of { IsTableOf (program_of program.now) self.now }
        requires commands { AreCommands plans.now }
        ensures of { IfOk result (λ done. IsTableOf (program_of program.now) done.1) }
        ensures acts { IfOk result (λ done. FollowsOrRefuses (program_of program.now) (Batch (plans_in plans.now)) (state_of self.now)
            (Ok done.0) (state_of done.1)) }
        ensures refuses { IfErr result (λ refusal. FollowsOrRefuses (program_of program.now) (Batch (plans_in plans.now))
            (state_of self.now) (Err refusal) (state_of self.now)) }
    {
        let mut after = self.copy()?;
        after.give_each(alloc, program, plans)?;
        Ok((after.reply(Done::Plain), after))
    }
}
