//! Sessions with each kind of command.

ghost use Rattle.std.specs.Prelude.{◌≡◌, IfOk, IfErr};
ghost use Rattle.dbg_base.specs.declared.refusal.Refusal.TheVariants.{Memory};

use crate::desks::play_desk;
use crate::full::play_full;
use crate::script::play_script;
use crate::scripts::SCRIPTS;
use dbg_base::{Plan, Refusal};
use dbg_command::{
    ArmCmd, BatchCmd, BreakCmd, ClearCmd, Command, Givable, GotoCmd, NextCmd, PassCmd, RedoCmd,
    RollbackCmd, StepCmd, UndoCmd,
};
use std::alloc::Global;
use std::sync::Wait;
use std::thread::Threads;

/// Plays all scripts, and makes calls at a desk.
pub(crate) fn play_scripts<R: Threads + Wait + Sync>(rt: &R, alloc: Global, report: &mut Vec<u8>) {
    let make = |given: Givable| -> Result<Box<dyn Command>, Refusal>
        ensures fresh { IfOk result (λ command. IsFresh command) }
        ensures refuses { IfErr result (λ refusal. refusal ≡ Memory) }
    {
        let Givable { plan } = given;
        let command: Box<dyn Command> = match plan {
            Plan::Step(pid, choice) => Box::new(alloc, StepCmd::new(pid, choice))?,
            Plan::Next(pid) => Box::new(alloc, NextCmd::new(pid))?,
            Plan::Undo(pid) => Box::new(alloc, UndoCmd::new(pid))?,
            Plan::Redo(pid) => Box::new(alloc, RedoCmd::new(pid))?,
            Plan::Rollback(pid, place) => Box::new(alloc, RollbackCmd::new(pid, place))?,
            Plan::Goto(name) => Box::new(alloc, GotoCmd::new(name))?,
            Plan::Break(name, conjuncts) => Box::new(alloc, BreakCmd::new(name, conjuncts))?,
            Plan::Clear(name) => Box::new(alloc, ClearCmd::new(name))?,
            Plan::Arm(name) => Box::new(alloc, ArmCmd::new(name))?,
            Plan::Pass(name) => Box::new(alloc, PassCmd::new(name))?,
            Plan::Batch(plans) => Box::new(alloc, BatchCmd::new(plans))?,
        };
        Ok(command)
    };
    let mut text = Vec::new(alloc);
    if text.reserve(1_024).is_err() {
        let _ = text.reserve(1_024);
    }
    for script in &SCRIPTS {
        play_script::<Box<dyn Command>, _>(alloc, &make, script, &mut text, report);
    }
    play_desk::<Box<dyn Command>, _, R>(rt, alloc, &make, report);
    play_full::<Box<dyn Command>, _>(alloc, &make, &mut text, report);
}
