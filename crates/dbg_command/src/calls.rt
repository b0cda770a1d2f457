//! The answer of a table to a query of any kind.

ghost use Rattle.std.specs.Prelude.{◌≡◌, true, IfErr};
ghost use Rattle.dbg_base.specs.declared.refusal.Refusal.TheVariants.{Memory};
ghost use Rattle.dbg_base.specs.Calls.{query_of};
ghost use Rattle.proc_tree.specs.Programs.{program_of};
ghost use Rattle.dbg_command.specs.Tables.{IsTableOf, AnswersOrRefuses, AskMayAllocate, state_of};

use crate::table::Table;
use dbg_base::{Answer, Query, Refusal};
use proc_tree::Program;
use std::alloc::Global;

impl Table {
    /// Answers a query. The errors depend on its kind. `Memory` if an allocation fails. `place` and `can` do not
    /// allocate, nor do `cut` and `why` of an unknown breakpoint.
    pub fn ask(&self, alloc: Global, program: &Program, query: &Query) -> Result<Answer, Refusal>
        requires { IsTableOf (program_of program.now) self.now }
        ensures answers { AnswersOrRefuses (program_of program.now) (state_of self.now) (query_of query.now) result }
        ensures memory { IfErr result (λ refusal. refusal ≡ Memory → AskMayAllocate (query_of query.now) (state_of self.now)) }
    {
        match query {
            Query::Vars(pid) => self.values(alloc, program, *pid),
            Query::Chan(source, target) => self.messages(alloc, program, *source, *target),
            Query::Clock(pid) => self.clock(alloc, program, *pid),
            Query::Place(pid) => self.place(program, *pid),
            Query::Can(pid) => self.can(program, *pid),
            Query::CutOf(name) => self.cut(*name),
            Query::Why(name) => self.frontier(alloc, *name),
            Query::Breaks => self.marks(alloc),
        }
    }
}
