//! Where conjuncts are true.

ghost use Rattle.std.specs.Prelude.{◌≡◌, ◌<◌, ◌≤◌, ◌++◌, ◌∷◌, [], true, not, ◌&&◌, ◌==◌, length, map, take, IfOk, IfErr, OnOk};
ghost use Rattle.std.specs.Prelude.{slice_index_or, vec_len};
ghost use Rattle.dbg_base.specs.declared.refusal.Refusal.TheVariants.{Memory};
ghost use Rattle.dbg_base.specs.Calls.{conjunct_of};
ghost use Rattle.least_cut.specs.Watches.{lines_with, named_in, truth_line, scan_of};
ghost use Rattle.least_cut.specs.Searches.{is_false_in};

use crate::room::{copy_items, reserve_total};
use causal_world::World;
use dbg_base::{Conjunct, Expr, Gate, Pid, Refusal, Sequence};
use std::alloc::{AllocError, Global};
use std::marker::Model;
use std::sync::Wait;
use std::thread::Threads;

/// In which local states of a process its conjunct is true, from the start on. Contracts see this, and how many truths fit without
/// allocation.
#[derive(Debug, Drop)]
pub(crate) struct Truths {
    pid: Pid,
    truths: Vec<bool>,
}

impl Model for Truths {
    ghost use Rattle.std.specs.Vec.{vec_capacity};
    ghost use Rattle.least_cut.specs.Watches.{TruthsState};

    ghost Value = { TruthsState };

    ghost view = { λ t. record {
      line = record { process = t.pid.0; truths = t.truths.items };
      room = vec_capacity t.truths;
    } };
}

impl Truths {
    // Where the conjunct is true in the world. Error: `Memory`, if an allocation fails.
    fn of(alloc: Global, world: &World, conjunct: &Conjunct) -> Result<Truths, Refusal>
        ensures line { IfOk result (λ made. made.line ≡ truth_line world.now (conjunct_of conjunct.now)) }
        ensures refuses { IfErr result (λ refusal. refusal ≡ Memory) }
    {
        let truths = world.rows().truths(alloc, conjunct.pid, &conjunct.expr)?;
        Ok(Truths {
            pid: conjunct.pid,
            truths: truths.into_items(),
        })
    }

    /// Copies the truths, with as much room. Error: out of memory.
    pub(crate) fn copy(&self) -> Result<Truths, AllocError>
        ensures { IfOk result (λ made. made ≡ self.now) }
    {
        Ok(Truths {
            pid: self.pid,
            truths: copy_items(&self.truths)?,
        })
    }

    /// The process.
    pub(crate) fn pid(&self) -> Pid
        ensures { result.0 ≡ self.now.line.process }
    {
        self.pid
    }

    /// How many local states are known.
    pub(crate) fn len(&self) -> usize
        ensures { result ≡ length self.now.line.truths }
    {
        self.truths.len()
    }

    /// Whether the conjunct is known to be false after the n-th event of this process.
    pub(crate) fn is_false(&self, pid: Pid, n: u32) -> bool
        ensures { result ≡ ((self.now.line.process == pid.0) && not (slice_index_or self.now.line.truths n true)) }
    {
        if self.pid != pid {
            return false;
        }
        match self.truths.get(n as usize) {
            Some(truth) => !*truth,
            None => false,
        }
    }

    /// Keeps the truths of only so many local states.
    pub(crate) fn truncate(&mut self, len: usize)
        ensures line { self.new.line ≡ record self.old.line { truths = take len self.old.line.truths } }
        ensures room { self.new.room ≡ self.old.room }
    {
        self.truths.truncate(len);
    }

    /// Appends the truth of one more local state. It does not allocate.
    pub(crate) fn push(&mut self, truth: bool)
        requires { length self.old.line.truths < self.old.room }
        ensures line { self.new.line ≡ record self.old.line { truths = self.old.line.truths ++ truth ∷ [] } }
        ensures room { self.new.room ≡ self.old.room }
    {
        self.truths.push_reserved(truth);
    }

    /// Makes room for so many local states in total. No room is lost, and the truths stay, also on an error.
    pub(crate) fn reserve_to(&mut self, len: usize) -> Result<(), AllocError>
        ensures line { self.new.line ≡ self.old.line }
        ensures grows { self.old.room ≤ self.new.room }
        ensures ok { OnOk result (len ≤ self.new.room) }
    {
        reserve_total(&mut self.truths, len)
    }
}

// The process and the expression of each conjunct.
fn named(alloc: Global, conjuncts: &[Conjunct]) -> Result<Vec<(Pid, &Expr)>, AllocError>
    ensures { IfOk result (λ named. map named_in named.items ≡ map conjunct_of conjuncts.now) }
{
    let mut named = Vec::new(alloc);
    for conjunct in conjuncts {
        named.push((conjunct.pid, &conjunct.expr))?;
    }
    Ok(named)
}

// Each conjunct's process, with the list at the same position.
fn lines_of(
    alloc: Global,
    conjuncts: &[Conjunct],
    lists: Vec<Sequence<bool>>,
) -> Result<Vec<Truths>, AllocError>
    requires { vec_len lists ≡ length conjuncts.now }
    ensures { IfOk result (λ lines. map (λ t. t.line) lines.items ≡ lines_with (map conjunct_of conjuncts.now) lists.items) }
{
    let mut lines = Vec::new(alloc);
    let mut left = lists.into_iter();
    for conjunct in conjuncts {
        let Some(truths) = left.next() else {
            unreachable!()
        };
        lines.push(Truths {
            pid: conjunct.pid,
            truths: truths.into_items(),
        })?;
    }
    Ok(lines)
}

/// Where each of some conjuncts is true in a world.
#[derive(Debug, Drop)]
pub struct Scan {
    lines: Vec<Truths>,
}

impl Model for Scan {
    ghost use Rattle.std.specs.Prelude.{List, map};
    ghost use Rattle.least_cut.specs.Watches.{TruthLine};

    ghost Value = { List TruthLine };

    ghost view = { λ scan. map (λ t. t.line) scan.lines.items };
}

impl Scan {
    /// Evaluates each conjunct in each local state of its process. A process that does not exist has one local state, without variables. A
    /// conjunct that faults is not true. Error: `Memory`, if an allocation fails.
    pub fn of(alloc: Global, world: &World, conjuncts: &[Conjunct]) -> Result<Scan, Refusal>
        ensures scan { IfOk result (λ scan. scan ≡ scan_of world.now (map conjunct_of conjuncts.now)) }
        ensures refuses { IfErr result (λ refusal. refusal ≡ Memory) }
    {
        let mut lines = Vec::new(alloc);
        for conjunct in conjuncts {
            lines.push(Truths::of(alloc, world, conjunct)?)?;
        }
        Ok(Scan { lines })
    }

    /// The same scan as that of `of`, by one call of `truths_par`: each conjunct has a worker, in a thread if one can be made. The worker
    /// calls the gate before and after its turn 0. The scan does not depend on the gate. Error: `Memory`, if an allocation fails.
    pub fn wide<R: Threads + Wait + Sync, G: Gate>(
        rt: &R,
        alloc: Global,
        world: &World,
        conjuncts: &[Conjunct],
        gate: &G,
    ) -> Result<Scan, Refusal>
        ensures scan { IfOk result (λ scan. scan ≡ scan_of world.now (map conjunct_of conjuncts.now)) }
        ensures refuses { IfErr result (λ refusal. refusal ≡ Memory) }
    {
        let named = named(alloc, conjuncts)?;
        let lists = world.rows().truths_par(rt, alloc, &named, gate)?;
        let lines = lines_of(alloc, conjuncts, lists)?;
        Ok(Scan { lines })
    }

    /// Whether one of the conjuncts is false after the n-th event of the process.
    pub(crate) fn is_false(&self, pid: Pid, n: u32) -> bool
        ensures { result ≡ is_false_in self.now pid.0 n }
    {
        for line in &self.lines {
            if line.is_false(pid, n) {
                return true;
            }
        }
        false
    }

    /// Where each conjunct is true, in order.
    pub(crate) fn into_lines(self) -> Vec<Truths>
        ensures { map (λ t. t.line) result.items ≡ self }
    {
        let Scan { lines } = self;
        lines
    }
}
