//! The command `batch`.

ghost use Rattle.std.specs.Prelude.{◌≡◌, true, None};
ghost use Rattle.dbg_base.specs.Calls.{Batch, order_of, plans_in, AreCommands};
ghost use Rattle.dbg_command.specs.Tables.{IsTableOf, IsGivable, state_of};
ghost use Rattle.dbg_command.specs.Boxes.{IfKept, undone_by, is_batch};

use crate::command::Command;
use crate::table::Table;
use dbg_base::{Plan, Refusal, Reply};
use least_cut::Scan;
use proc_tree::Program;
use std::alloc::Global;
use std::mem;

/// Commands of the other kinds, one after the other, of which all are accepted or none. It keeps the whole table before them.
#[derive(Drop)]
pub struct BatchCmd {
    plan: Plan,
    table: Option<Table>,
    ghost batch: { is_batch (order_of plan) ≡ true },
    ghost commands: { ∥ IsGivable plan ∥₁ },
}

impl BatchCmd {
    /// The batch of these commands, at most 32 and none a batch, not applied yet. It does not allocate.
    pub fn new(plans: Vec<Plan>) -> BatchCmd
        requires { AreCommands plans.items }
        ensures fresh { ⟦<BatchCmd as Command>⟧.IsFresh result }
        ensures order { ⟦<BatchCmd as Command>⟧.order result ≡ Batch (plans_in plans.items) }
    {
        BatchCmd {
            plan: Plan::Batch(plans),
            table: None,
        }
    }
}

impl Command for BatchCmd {
    ghost order = { λ it. order_of it.plan };

    ghost IsFresh = { λ it. it.table ≡ None };

    ghost MayGoBack = { λ it P M. IfKept it.table (λ table. IsTableOf P table) };

    ghost before = { λ it. undone_by it.table (λ table M. state_of table) };

    fn plan(&self) -> &Plan {
        &self.plan
    }

    fn fresh(&self) -> bool {
        self.table.is_none()
    }

    fn apply(
        &mut self,
        alloc: Global,
        program: &Program,
        table: &mut Table,
        _scan: Option<Scan>,
    ) -> Result<Reply, Refusal> {
        let Plan::Batch(plans) = &self.plan else {
            unreachable!()
        };
        let (reply, mut other) = table.after_batch(alloc, program, plans.as_slice())?;
        mem::swap(table, &mut other);
        self.table = Some(other);
        Ok(reply)
    }

    fn revert(&mut self, table: &mut Table) -> Result<(), Refusal> {
        let Some(other) = self.table.as_mut() else {
            unreachable!()
        };
        mem::swap(table, other);
        Ok(())
    }
}
