//! The commands that undo events: undo, rollback, goto.

ghost use Rattle.std.specs.Prelude.{◌≡◌, None};
ghost use Rattle.dbg_base.specs.declared.call.Plan.TheVariants as plans;
ghost use Rattle.dbg_base.specs.Calls.{One, Undo, Rollback, Goto};
ghost use Rattle.dbg_command.specs.Boxes.{IfKept, undone_by, HasUndone, remade, HasRolled, unrolled};

use crate::command::Command;
use crate::table::Table;
use crate::undoing::TakenBack;
use causal_world::Rolled;
use dbg_base::{Name, Pid, Plan, Refusal, Reply};
use least_cut::Scan;
use proc_tree::Program;
use std::alloc::Global;

/// Undoes the last event of a process. It keeps the event.
#[derive(Drop)]
pub struct UndoCmd {
    plan: Plan,
    pid: Pid,
    taken: Option<Rolled>,
    ghost of: { plan ≡ plans.Undo pid },
}

impl UndoCmd {
    /// The command, not applied yet. It does not allocate.
    pub fn new(pid: Pid) -> UndoCmd
        ensures fresh { ⟦<UndoCmd as Command>⟧.IsFresh result }
        ensures order { ⟦<UndoCmd as Command>⟧.order result ≡ One (Undo pid.0) }
    {
        UndoCmd {
            plan: Plan::Undo(pid),
            pid,
            taken: None,
        }
    }
}

impl Command for UndoCmd {
    ghost order = { λ it. One (Undo it.pid.0) };

    ghost IsFresh = { λ it. it.taken ≡ None };

    ghost MayGoBack = { λ it P M. IfKept it.taken (λ rolled. HasUndone P it.pid.0 rolled M) };

    ghost before = { λ it. undone_by it.taken (λ rolled. remade it.pid.0) };

    fn plan(&self) -> &Plan {
        &self.plan
    }

    fn fresh(&self) -> bool {
        self.taken.is_none()
    }

    fn apply(
        &mut self,
        alloc: Global,
        program: &Program,
        table: &mut Table,
        _scan: Option<Scan>,
    ) -> Result<Reply, Refusal> {
        table.undo(alloc, program, self.pid, &mut self.taken)
    }

    fn revert(&mut self, table: &mut Table) -> Result<(), Refusal> {
        let Some(rolled) = self.taken.as_mut() else {
            unreachable!()
        };
        table.remake(self.pid, rolled)
    }
}

/// Takes a process back to a count of events, and the others no further than they must go. It keeps the undone events.
#[derive(Drop)]
pub struct RollbackCmd {
    plan: Plan,
    pid: Pid,
    place: u32,
    taken: Option<TakenBack>,
    ghost of: { plan ≡ plans.Rollback pid place },
}

impl RollbackCmd {
    /// The command, not applied yet. It does not allocate.
    pub fn new(pid: Pid, place: u32) -> RollbackCmd
        ensures fresh { ⟦<RollbackCmd as Command>⟧.IsFresh result }
        ensures order { ⟦<RollbackCmd as Command>⟧.order result ≡ One (Rollback pid.0 place) }
    {
        RollbackCmd {
            plan: Plan::Rollback(pid, place),
            pid,
            place,
            taken: None,
        }
    }
}

impl Command for RollbackCmd {
    ghost order = { λ it. One (Rollback it.pid.0 it.place) };

    ghost IsFresh = { λ it. it.taken ≡ None };

    ghost MayGoBack = { λ it P M. IfKept it.taken (λ taken. HasRolled P taken.rolled taken.places M) };

    ghost before = { λ it. undone_by it.taken (λ taken. unrolled taken.places) };

    fn plan(&self) -> &Plan {
        &self.plan
    }

    fn fresh(&self) -> bool {
        self.taken.is_none()
    }

    fn apply(
        &mut self,
        alloc: Global,
        program: &Program,
        table: &mut Table,
        _scan: Option<Scan>,
    ) -> Result<Reply, Refusal> {
        table.rollback(alloc, program, self.pid, self.place, &mut self.taken)
    }

    fn revert(&mut self, table: &mut Table) -> Result<(), Refusal> {
        let Some(taken) = self.taken.as_mut() else {
            unreachable!()
        };
        table.forth(taken)
    }
}

/// Takes all processes back to a breakpoint's cut. It keeps the undone events.
#[derive(Drop)]
pub struct GotoCmd {
    plan: Plan,
    name: Name,
    taken: Option<TakenBack>,
    ghost of: { plan ≡ plans.Goto name },
}

impl GotoCmd {
    /// The command, not applied yet. It does not allocate.
    pub fn new(name: Name) -> GotoCmd
        ensures fresh { ⟦<GotoCmd as Command>⟧.IsFresh result }
        ensures order { ⟦<GotoCmd as Command>⟧.order result ≡ One (Goto name) }
    {
        GotoCmd {
            plan: Plan::Goto(name),
            name,
            taken: None,
        }
    }
}

impl Command for GotoCmd {
    ghost order = { λ it. One (Goto it.name) };

    ghost IsFresh = { λ it. it.taken ≡ None };

    ghost MayGoBack = { λ it P M. IfKept it.taken (λ taken. HasRolled P taken.rolled taken.places M) };

    ghost before = { λ it. undone_by it.taken (λ taken. unrolled taken.places) };

    fn plan(&self) -> &Plan {
        &self.plan
    }

    fn fresh(&self) -> bool {
        self.taken.is_none()
    }

    fn apply(
        &mut self,
        alloc: Global,
        _program: &Program,
        table: &mut Table,
        _scan: Option<Scan>,
    ) -> Result<Reply, Refusal> {
        table.go_to(alloc, self.name, &mut self.taken)
    }

    fn revert(&mut self, table: &mut Table) -> Result<(), Refusal> {
        let Some(events) = self.taken.as_mut() else {
            unreachable!()
        };
        table.forth(events)
    }
}
