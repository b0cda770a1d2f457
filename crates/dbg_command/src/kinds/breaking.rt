//! The commands about breakpoints: break, clear, arm, pass.

ghost use Rattle.std.specs.Prelude.{◌≡◌, map, true, false, None, Bool};
ghost use Rattle.dbg_base.specs.Calls.{One, Break, order_of, conjunct_of, Clear, Arm, Pass};
ghost use Rattle.dbg_command.specs.Boxes.{IfApplied, HasNamed, unset, is_break, name_set, IfKept, undone_by, HasCleared, uncleared, marked, HasUnarmed};
ghost use Rattle.dbg_base.specs.declared.call.Plan.TheVariants as plans;

use crate::command::Command;
use crate::table::Table;
use break_book::Breakpoint;
use dbg_base::{Conjunct, Name, Plan, Refusal, Reply, Sequence};
use least_cut::Scan;
use proc_tree::Program;
use std::alloc::Global;

/// Sets a breakpoint, armed. It keeps only the name.
#[derive(Drop)]
pub struct BreakCmd {
    plan: Plan,
    applied: bool,
    ghost sets: { is_break plan ≡ true },
}

impl BreakCmd {
    /// The command, not applied yet. It does not allocate.
    pub fn new(name: Name, conjuncts: Sequence<Conjunct>) -> BreakCmd
        ensures fresh { ⟦<BreakCmd as Command>⟧.IsFresh result }
        ensures order { ⟦<BreakCmd as Command>⟧.order result ≡ One (Break name (map conjunct_of conjuncts)) }
    {
        BreakCmd {
            plan: Plan::Break(name, conjuncts),
            applied: false,
        }
    }
}

impl Command for BreakCmd {
    ghost order = { λ it. order_of it.plan };

    ghost IsFresh = { λ it. it.applied ≡ false };

    ghost MayGoBack = { λ it P M. IfApplied it.applied (HasNamed (name_set it.plan) M) };

    ghost before = { λ it. unset (name_set it.plan) };

    fn plan(&self) -> &Plan {
        &self.plan
    }

    fn fresh(&self) -> bool {
        !self.applied
    }

    fn apply(
        &mut self,
        alloc: Global,
        program: &Program,
        table: &mut Table,
        scan: Option<Scan>,
    ) -> Result<Reply, Refusal> {
        let Plan::Break(name, conjuncts) = &self.plan else {
            unreachable!()
        };
        let reply = table.set_break(alloc, program, *name, conjuncts, scan)?;
        self.applied = true;
        Ok(reply)
    }

    fn revert(&mut self, table: &mut Table) -> Result<(), Refusal> {
        let Plan::Break(name, _) = &self.plan else {
            unreachable!()
        };
        table.unset_break(*name);
        Ok(())
    }
}

/// Removes a breakpoint. It keeps the breakpoint, with its position.
#[derive(Drop)]
pub struct ClearCmd {
    plan: Plan,
    name: Name,
    cleared: Option<(usize, Breakpoint)>,
    ghost of: { plan ≡ plans.Clear name },
}

impl ClearCmd {
    /// The command, not applied yet. It does not allocate.
    pub fn new(name: Name) -> ClearCmd
        ensures fresh { ⟦<ClearCmd as Command>⟧.IsFresh result }
        ensures order { ⟦<ClearCmd as Command>⟧.order result ≡ One (Clear name) }
    {
        ClearCmd {
            plan: Plan::Clear(name),
            name,
            cleared: None,
        }
    }
}

impl Command for ClearCmd {
    ghost order = { λ it. One (Clear it.name) };

    ghost IsFresh = { λ it. it.cleared ≡ None };

    ghost MayGoBack = { λ it P M. IfKept it.cleared (λ kept. HasCleared P kept.0 it.name kept.1 M) };

    ghost before = { λ it. undone_by it.cleared (λ kept. uncleared kept.0 it.name kept.1) };

    fn plan(&self) -> &Plan {
        &self.plan
    }

    fn fresh(&self) -> bool {
        self.cleared.is_none()
    }

    fn apply(
        &mut self,
        _alloc: Global,
        _program: &Program,
        table: &mut Table,
        _scan: Option<Scan>,
    ) -> Result<Reply, Refusal> {
        table.clear(self.name, &mut self.cleared)
    }

    fn revert(&mut self, table: &mut Table) -> Result<(), Refusal> {
        let Some((position, breakpoint)) = self.cleared.take() else {
            unreachable!()
        };
        match table.restore_break(position, self.name, breakpoint) {
            Ok(()) => Ok(()),
            Err((refusal, breakpoint)) => {
                self.cleared = Some((position, breakpoint));
                Err(refusal)
            }
        }
    }
}

/// Arms a breakpoint. It keeps nothing: the breakpoint was not armed before.
#[derive(Drop)]
pub struct ArmCmd {
    plan: Plan,
    name: Name,
    applied: bool,
    ghost of: { plan ≡ plans.Arm name },
}

impl ArmCmd {
    /// The command, not applied yet. It does not allocate.
    pub fn new(name: Name) -> ArmCmd
        ensures fresh { ⟦<ArmCmd as Command>⟧.IsFresh result }
        ensures order { ⟦<ArmCmd as Command>⟧.order result ≡ One (Arm name) }
    {
        ArmCmd {
            plan: Plan::Arm(name),
            name,
            applied: false,
        }
    }
}

impl Command for ArmCmd {
    ghost order = { λ it. One (Arm it.name) };

    ghost IsFresh = { λ it. it.applied ≡ false };

    ghost MayGoBack = { λ it P M. IfApplied it.applied (HasNamed it.name M) };

    ghost before = { λ it. marked it.name false };

    fn plan(&self) -> &Plan {
        &self.plan
    }

    fn fresh(&self) -> bool {
        !self.applied
    }

    fn apply(
        &mut self,
        _alloc: Global,
        _program: &Program,
        table: &mut Table,
        _scan: Option<Scan>,
    ) -> Result<Reply, Refusal> {
        let reply = table.arm(self.name)?;
        self.applied = true;
        Ok(reply)
    }

    fn revert(&mut self, table: &mut Table) -> Result<(), Refusal> {
        table.disarm(self.name);
        Ok(())
    }
}

/// Disarms a breakpoint that halts the session. It keeps nothing: the breakpoint was armed before.
#[derive(Drop)]
pub struct PassCmd {
    plan: Plan,
    name: Name,
    applied: bool,
    ghost of: { plan ≡ plans.Pass name },
}

impl PassCmd {
    /// The command, not applied yet. It does not allocate.
    pub fn new(name: Name) -> PassCmd
        ensures fresh { ⟦<PassCmd as Command>⟧.IsFresh result }
        ensures order { ⟦<PassCmd as Command>⟧.order result ≡ One (Pass name) }
    {
        PassCmd {
            plan: Plan::Pass(name),
            name,
            applied: false,
        }
    }
}

impl Command for PassCmd {
    ghost order = { λ it. One (Pass it.name) };

    ghost IsFresh = { λ it. it.applied ≡ false };

    ghost MayGoBack = { λ it P M. IfApplied it.applied (HasUnarmed it.name M) };

    ghost before = { λ it. marked it.name true };

    fn plan(&self) -> &Plan {
        &self.plan
    }

    fn fresh(&self) -> bool {
        !self.applied
    }

    fn apply(
        &mut self,
        _alloc: Global,
        _program: &Program,
        table: &mut Table,
        _scan: Option<Scan>,
    ) -> Result<Reply, Refusal> {
        let reply = table.pass(self.name)?;
        self.applied = true;
        Ok(reply)
    }

    fn revert(&mut self, table: &mut Table) -> Result<(), Refusal> {
        table.rearm(self.name);
        Ok(())
    }
}
