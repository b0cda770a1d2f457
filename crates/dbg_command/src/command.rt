//! What all commands have in common that can be undone.

ghost use Rattle.std.specs.Prelude.{◌≡◌, ◌↔◌, true, IsTrue, IfErr, IfSome, OnOk, OnErr};
ghost use Rattle.dbg_base.specs.declared.refusal.Refusal.TheVariants.{Memory};
ghost use Rattle.dbg_base.specs.Trees as tree;
ghost use Rattle.dbg_base.specs.Calls.{Order, order_of};
ghost use Rattle.dbg_base.specs.ModelStates.{ModelState};
ghost use Rattle.proc_tree.specs.Programs.{program_of};
ghost use Rattle.dbg_command.specs.Tables.{IsTableOf, FollowsOrRefuses, shown, state_of};
ghost use Rattle.dbg_command.specs.Boxes.{LeadsBack, IsScanFor, GiveMayAllocate, takes_memory_back};

use crate::table::Table;
use dbg_base::{Plan, Refusal, Reply};
use least_cut::Scan;
use proc_tree::Program;
use std::alloc::Global;

/// A command that is applied to a table at most once, and then keeps what is needed to undo it. Other crates use commands only through this
/// trait.
pub trait Command: Drop + Send {
    // The order that the command gives, or gave.
    ghost order: { Self → Order };

    // The command was not applied yet.
    ghost IsFresh: { Self → Type 0 };

    // The command can be undone in this state of this program.
    ghost MayGoBack: { Self → tree.Program → ModelState → Type 0 };

    // The state after it is undone in this state.
    ghost before: { Self → ModelState → ModelState };

    /// The plan that the command gives, or gave. It does not allocate.
    fn plan(&self) -> &Plan
        ensures { order_of result.now ≡ order self.now };

    /// Whether the command was not applied yet. It does not allocate.
    fn fresh(&self) -> bool
        ensures { IsTrue result ↔ IsFresh self.now };

    /// Gives the command. On an error no call shows a change. The errors depend on its kind. `Memory` if an allocation fails. Clear, arm
    /// and pass do not allocate, nor do an undo without an event and a goto of an unknown breakpoint. A command that sets a breakpoint may be given the scan of its conjuncts in the table's world; other
    /// commands ignore it.
    fn apply(
        &mut self,
        alloc: Global,
        program: &Program,
        table: &mut Table,
        scan: Option<Scan>,
    ) -> Result<Reply, Refusal>
        requires fresh { IsFresh self.old }
        requires of { IsTableOf (program_of program.now) table.old }
        requires scan { IfSome scan (IsScanFor (order self.old) (program_of program.now) (state_of table.old)) }
        ensures of { IsTableOf (program_of program.now) table.new }
        ensures acts { FollowsOrRefuses (program_of program.now) (order self.old) (state_of table.old) result (state_of table.new) }
        ensures same { order self.new ≡ order self.old }
        ensures leads { OnOk result ((IsFresh self.new → ⊥) × LeadsBack (MayGoBack self.new (program_of program.now)) (before self.new)
            (state_of table.old) (state_of table.new)) }
        ensures memory { IfErr result (λ refusal. refusal ≡ Memory → GiveMayAllocate (order self.old) (state_of table.old)) }
        ensures refused { OnErr result ((shown table.new ≡ shown table.old) × (self.new ≡ self.old)) };

    /// Undoes the command, in the state in which it left the table: the table is as before the command. Error: `Memory`, if an allocation
    /// fails; then no call shows a change. break, arm, pass and a batch never fail.
    fn revert(&mut self, table: &mut Table) -> Result<(), Refusal>
        requires { (P : tree.Program) × IsTableOf P table.old × MayGoBack self.old P (state_of table.old) }
        ensures of { (P : tree.Program) → IsTableOf P table.old → MayGoBack self.old P (state_of table.old) → IsTableOf P table.new }
        ensures back { OnOk result (state_of table.new ≡ before self.old (state_of table.old)) }
        ensures refuses { IfErr result (λ refusal. refusal ≡ Memory) }
        ensures memory { OnErr result (takes_memory_back (order self.old) ≡ true) }
        ensures kept { OnErr result (shown table.new ≡ shown table.old) }
        ensures unchanged { OnErr result (self.new ≡ self.old) };
}

impl Command for Box<dyn Command> {
    ghost order = { λ b. (Command-box b).order b.value };

    ghost IsFresh = { λ b. (Command-box b).IsFresh b.value };

    ghost MayGoBack = { λ b. (Command-box b).MayGoBack b.value };

    ghost before = { λ b. (Command-box b).before b.value };

    fn plan(&self) -> &Plan {
        self.as_ref().plan()
    }

    fn fresh(&self) -> bool {
        self.as_ref().fresh()
    }

    fn apply(
        &mut self,
        alloc: Global,
        program: &Program,
        table: &mut Table,
        scan: Option<Scan>,
    ) -> Result<Reply, Refusal> {
        self.as_mut().apply(alloc, program, table, scan)
    }

    fn revert(&mut self, table: &mut Table) -> Result<(), Refusal> {
        self.as_mut().revert(table)
    }
}
