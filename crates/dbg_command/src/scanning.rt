//! Where the conjuncts of a breakpoint are true, evaluated before the breakpoint is set.

ghost use Rattle.std.specs.Prelude.{◌≡◌, map, IfOk, IfErr};
ghost use Rattle.dbg_base.specs.declared.refusal.Refusal.TheVariants.{Memory};
ghost use Rattle.dbg_base.specs.Calls as model;
ghost use Rattle.dbg_base.specs.Calls.{conjunct_of, order_of};
ghost use Rattle.proc_tree.specs.Programs.{program_of};
ghost use Rattle.dbg_command.specs.Boxes.{ScansFor};
ghost use Rattle.dbg_command.specs.Tables.{IsTableOf, state_of};

use crate::conjuncts::fitting;
use crate::table::Table;
use dbg_base::{Conjunct, Gate, Plan, Refusal};
use least_cut::Scan;
use proc_tree::Program;
use std::alloc::Global;
use std::sync::Wait;
use std::thread::Threads;

impl Table {
    // The scan of these conjuncts, or None if a breakpoint may not have them.
    fn scan_fitting<R: Threads + Wait + Sync, G: Gate>(
        &self,
        rt: &R,
        alloc: Global,
        program: &Program,
        conjuncts: &[Conjunct],
        gate: &G,
    ) -> Result<Option<Scan>, Refusal>
        requires { IsTableOf (program_of program.now) self.now }
        ensures scans { IfOk result (λ found. (name : _) → ScansFor (model.One (model.Break name (map conjunct_of conjuncts.now)))
            (program_of program.now) (state_of self.now) found) }
        ensures refuses { IfErr result (λ refusal. refusal ≡ Memory) }
    {
        if conjuncts.is_empty() || fitting(program, conjuncts).is_err() {
            return Ok(None);
        }
        let scan = Scan::wide(rt, alloc, &self.world, conjuncts, gate)?;
        Ok(Some(scan))
    }

    /// The scan that a command may be given. For a breakpoint it is that of its conjuncts, if there is at least one and they are not
    /// refused; for all other commands None. Each conjunct has a worker of its own, as in `Scan::wide`. Error: `Memory`, if an allocation
    /// fails.
    pub fn scan<R: Threads + Wait + Sync, G: Gate>(
        &self,
        rt: &R,
        alloc: Global,
        program: &Program,
        plan: &Plan,
        gate: &G,
    ) -> Result<Option<Scan>, Refusal>
        requires { IsTableOf (program_of program.now) self.now }
        ensures scans { IfOk result (λ found. ScansFor (order_of plan.now) (program_of program.now) (state_of self.now) found) }
        ensures refuses { IfErr result (λ refusal. refusal ≡ Memory) }
    {
        match plan {
            Plan::Break(_, conjuncts) => {
                self.scan_fitting(rt, alloc, program, conjuncts.items(), gate)
            }
            _ => Ok(None),
        }
    }
}
