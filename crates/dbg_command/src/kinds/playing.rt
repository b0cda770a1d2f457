//! The commands by which a process makes an event: step, next, redo.

ghost use Rattle.std.specs.Prelude.{◌≡◌, None, Bool, true, false};
ghost use Rattle.dbg_base.specs.declared.call.Plan.TheVariants as plans;
ghost use Rattle.dbg_base.specs.Calls.{One, Step, Next, Redo};
ghost use Rattle.dbg_command.specs.Boxes.{IfKept, undone_by, HasStepped, unstepped, IfApplied, HasRedone, unredone};

use crate::command::Command;
use crate::table::Table;
use causal_world::Cutoff;
use dbg_base::{Choice, Pid, Plan, Refusal, Reply};
use least_cut::Scan;
use proc_tree::Program;
use std::alloc::Global;

/// Makes a process fire a command. It keeps the choices that were cut off the line.
#[derive(Drop)]
pub struct StepCmd {
    plan: Plan,
    pid: Pid,
    choice: Choice,
    cutoff: Option<Cutoff>,
    ghost of: { plan ≡ plans.Step pid choice },
}

impl StepCmd {
    /// The command, not applied yet. It does not allocate.
    pub fn new(pid: Pid, choice: Choice) -> StepCmd
        ensures fresh { ⟦<StepCmd as Command>⟧.IsFresh result }
        ensures order { ⟦<StepCmd as Command>⟧.order result ≡ One (Step pid.0 choice.0) }
    {
        StepCmd {
            plan: Plan::Step(pid, choice),
            pid,
            choice,
            cutoff: None,
        }
    }
}

impl Command for StepCmd {
    ghost order = { λ it. One (Step it.pid.0 it.choice.0) };

    ghost IsFresh = { λ it. it.cutoff ≡ None };

    ghost MayGoBack = { λ it P M. IfKept it.cutoff (λ cutoff. HasStepped P it.pid.0 cutoff M) };

    ghost before = { λ it. undone_by it.cutoff (λ cutoff. unstepped it.pid.0 cutoff) };

    fn plan(&self) -> &Plan {
        &self.plan
    }

    fn fresh(&self) -> bool {
        self.cutoff.is_none()
    }

    fn apply(
        &mut self,
        alloc: Global,
        program: &Program,
        table: &mut Table,
        _scan: Option<Scan>,
    ) -> Result<Reply, Refusal> {
        let mut cutoff = None;
        let outcome = table.step(alloc, program, self.pid, self.choice, &mut cutoff);
        if outcome.is_ok() {
            self.cutoff = cutoff;
        }
        outcome
    }

    fn revert(&mut self, table: &mut Table) -> Result<(), Refusal> {
        let Some(cutoff) = self.cutoff.take() else {
            unreachable!()
        };
        match table.unstep(self.pid, cutoff) {
            Ok(()) => Ok(()),
            Err((refusal, cutoff)) => {
                self.cutoff = Some(cutoff);
                Err(refusal)
            }
        }
    }
}

/// Makes a process fire its first command that can fire. It keeps the choices that were cut off the line.
#[derive(Drop)]
pub struct NextCmd {
    plan: Plan,
    pid: Pid,
    cutoff: Option<Cutoff>,
    ghost of: { plan ≡ plans.Next pid },
}

impl NextCmd {
    /// The command, not applied yet. It does not allocate.
    pub fn new(pid: Pid) -> NextCmd
        ensures fresh { ⟦<NextCmd as Command>⟧.IsFresh result }
        ensures order { ⟦<NextCmd as Command>⟧.order result ≡ One (Next pid.0) }
    {
        NextCmd {
            plan: Plan::Next(pid),
            pid,
            cutoff: None,
        }
    }
}

impl Command for NextCmd {
    ghost order = { λ it. One (Next it.pid.0) };

    ghost IsFresh = { λ it. it.cutoff ≡ None };

    ghost MayGoBack = { λ it P M. IfKept it.cutoff (λ cutoff. HasStepped P it.pid.0 cutoff M) };

    ghost before = { λ it. undone_by it.cutoff (λ cutoff. unstepped it.pid.0 cutoff) };

    fn plan(&self) -> &Plan {
        &self.plan
    }

    fn fresh(&self) -> bool {
        self.cutoff.is_none()
    }

    fn apply(
        &mut self,
        alloc: Global,
        program: &Program,
        table: &mut Table,
        _scan: Option<Scan>,
    ) -> Result<Reply, Refusal> {
        let mut cutoff = None;
        let outcome = table.next(alloc, program, self.pid, &mut cutoff);
        if outcome.is_ok() {
            self.cutoff = cutoff;
        }
        outcome
    }

    fn revert(&mut self, table: &mut Table) -> Result<(), Refusal> {
        let Some(cutoff) = self.cutoff.take() else {
            unreachable!()
        };
        match table.unstep(self.pid, cutoff) {
            Ok(()) => Ok(()),
            Err((refusal, cutoff)) => {
                self.cutoff = Some(cutoff);
                Err(refusal)
            }
        }
    }
}

/// Makes a process fire the choice at its place again. It keeps nothing: the line stays.
#[derive(Drop)]
pub struct RedoCmd {
    plan: Plan,
    pid: Pid,
    applied: bool,
    ghost of: { plan ≡ plans.Redo pid },
}

impl RedoCmd {
    /// The command, not applied yet. It does not allocate.
    pub fn new(pid: Pid) -> RedoCmd
        ensures fresh { ⟦<RedoCmd as Command>⟧.IsFresh result }
        ensures order { ⟦<RedoCmd as Command>⟧.order result ≡ One (Redo pid.0) }
    {
        RedoCmd {
            plan: Plan::Redo(pid),
            pid,
            applied: false,
        }
    }
}

impl Command for RedoCmd {
    ghost order = { λ it. One (Redo it.pid.0) };

    ghost IsFresh = { λ it. it.applied ≡ false };

    ghost MayGoBack = { λ it P M. IfApplied it.applied (HasRedone P it.pid.0 M) };

    ghost before = { λ it. unredone it.pid.0 };

    fn plan(&self) -> &Plan {
        &self.plan
    }

    fn fresh(&self) -> bool {
        !self.applied
    }

    fn apply(
        &mut self,
        alloc: Global,
        program: &Program,
        table: &mut Table,
        _scan: Option<Scan>,
    ) -> Result<Reply, Refusal> {
        let reply = table.redo(alloc, program, self.pid)?;
        self.applied = true;
        Ok(reply)
    }

    fn revert(&mut self, table: &mut Table) -> Result<(), Refusal> {
        table.unredo(self.pid)
    }
}
