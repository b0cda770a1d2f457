//! The trials whose seats give commands of several kinds, with the function that makes the commands.

ghost use Rattle.std.specs.Prelude.{IfOk};

use crate::crew::desk_trial::make_opening;
use crate::crew::many::{play_all, two_commands};
use crate::crew::plain::{expect_alike, said_at_a_desk, said_under_lock};
use crate::crew::shown::each_call_is_shown;
use crate::crew::wide::the_scan_meets;
use dbg_base::{Plan, Refusal};
use dbg_command::{BatchCmd, BreakCmd, Command, NextCmd, PassCmd, RollbackCmd, UndoCmd};
use std::alloc::Global;
use std::marker::Brand;
use std::process::Abort;
use std::sync::Wait;
use std::thread::Threads;

/// What the seats do.
#[derive(Clone, Copy)]
pub enum Trial {
    /// One seat sees each call of another.
    Shown,
    /// A seat sets a breakpoint, whose scan several threads make.
    Wide,
    /// A seat sets a breakpoint when the journal is full.
    Full,
    /// A seat has the same answers at a desk and under its lock.
    Alike,
    /// Many seats play, each in its own thread.
    Many,
}

/// Makes the trial, at a new desk.
pub fn run<R: Threads + Wait + Abort + Sync>(rt: &R, alloc: Global, trial: Trial) {
    let make = |plan: Plan| -> Result<Box<dyn Command>, Refusal>
        ensures { IfOk result (λ command. IsFresh command) }
    {
        let command: Box<dyn Command> = match plan {
            Plan::Next(pid) => Box::new(alloc, NextCmd::new(pid))?,
            Plan::Undo(pid) => Box::new(alloc, UndoCmd::new(pid))?,
            Plan::Rollback(pid, place) => Box::new(alloc, RollbackCmd::new(pid, place))?,
            Plan::Break(name, conjuncts) => Box::new(alloc, BreakCmd::new(name, conjuncts))?,
            Plan::Batch(_) => Box::new(alloc, BatchCmd::new(two_commands(alloc)?))?,
            Plan::Pass(name) => Box::new(alloc, PassCmd::new(name))?,
            _ => return Err(Refusal::BadLine),
        };
        Ok(command)
    };
    match trial {
        Trial::Shown => {
            let opening = make_opening(rt, alloc, 2);
            each_call_is_shown::<Brand, Box<dyn Command>, _, R>(rt, alloc, &make, opening);
        }
        Trial::Wide | Trial::Full => {
            let is_full = matches!(trial, Trial::Full);
            let opening = make_opening(rt, alloc, 1);
            the_scan_meets::<Brand, Box<dyn Command>, _, R>(rt, alloc, &make, opening, is_full);
        }
        Trial::Alike => {
            let opening = make_opening(rt, alloc, 1);
            let wide = said_at_a_desk::<Brand, Box<dyn Command>, _, R>(rt, alloc, &make, opening);
            let opening = make_opening(rt, alloc, 1);
            let plain = said_under_lock::<Brand, Box<dyn Command>, _>(rt, alloc, &make, opening);
            expect_alike(rt, wide.as_slice(), plain.as_slice());
        }
        Trial::Many => play_all(rt, alloc, &make),
    }
}
