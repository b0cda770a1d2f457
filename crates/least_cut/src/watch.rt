//! A conjunct with its truths, kept up to date as its process makes and undoes events.

ghost use Rattle.std.specs.Prelude.{◌≡◌, ◌<◌, ◌≤◌, ◌+◌, ◌&&◌, ◌==◌, not, true, length, IfOk, IfErr, OnOk, nat_le, slice_index_or};
ghost use Rattle.dbg_base.specs.Trees.{tree_of};
ghost use Rattle.dbg_base.specs.Calls.{conjunct_of};
ghost use Rattle.dbg_base.specs.Copies.{IsCopy};
ghost use Rattle.dbg_base.specs.declared.refusal.Refusal.TheVariants.{Memory};
ghost use Rattle.dbg_base.specs.SystemStates.{place_at};
ghost use Rattle.causal_world.specs.Worlds.{IsSomeWorld};
ghost use Rattle.least_cut.specs.Watches.{conjunct_in, truth_line, IsWatchOf, IsAdvanced, WasWatchOf};

use crate::scan::Truths;
use causal_world::World;
use dbg_base::{Conjunct, Expr, Pid, Refusal};
use local_eval::{Env, guard};
use std::alloc::AllocError;
use std::marker::Model;

/// A conjunct, where it is true, and the last local state of its process. Contracts see this, and how many truths fit without allocation.
#[derive(Drop)]
pub(crate) struct Watch {
    truths: Truths,
    expr: Expr,
    env: Env,
}

impl Model for Watch {
    ghost use Rattle.least_cut.specs.Watches.{WatchRoom};
    ghost use Rattle.least_cut.specs.TreeCodes.{coded_tree};
    ghost use Rattle.dbg_base.specs.Trees.{tree_of};
    ghost use Rattle.std.specs.Coded.{codes};

    ghost Value = { WatchRoom };

    ghost coded = { Prim.hlevel (codes, coded_tree) };

    ghost view = { λ watch. record {
      state = record { line = watch.truths.line; expression = tree_of watch.expr; env = watch.env };
      room = watch.truths.room;
    } };
}

impl Watch {
    /// The watch of a conjunct with these truths in the world. Error: `Memory`, if an allocation fails.
    pub(crate) fn new(conjunct: Conjunct, truths: Truths, world: &World) -> Result<Watch, Refusal>
        requires here { conjunct.pid.0 < length world.now.state.places }
        requires line { truths.line ≡ truth_line world.now (conjunct_of conjunct) }
        ensures of { IfOk result (λ watch. IsWatchOf world.now watch.state) }
        ensures conjunct { IfOk result (λ watch. conjunct_in watch.state ≡ conjunct_of conjunct) }
        ensures refuses { IfErr result (λ refusal. refusal ≡ Memory) }
    {
        let Conjunct { pid, expr } = conjunct;
        let env = world.env(pid).copy()?;
        Ok(Watch { truths, expr, env })
    }

    /// Copies the watch, with as much room. Error: `Memory`, if an allocation fails.
    pub(crate) fn copy(&self) -> Result<Watch, Refusal>
        ensures { IsCopy result (λ made. made ≡ self.now) }
    {
        Ok(Watch {
            truths: self.truths.copy()?,
            expr: self.expr.copy()?,
            env: self.env.copy()?,
        })
    }

    /// The process.
    pub(crate) fn pid(&self) -> Pid
        ensures { result.0 ≡ self.now.state.line.process }
    {
        self.truths.pid()
    }

    /// The expression.
    pub(crate) fn expr(&self) -> &Expr
        ensures { tree_of result.now ≡ self.now.state.expression }
    {
        &self.expr
    }

    /// Whether the process has fewer than n events, by the truths that are known.
    pub(crate) fn is_past(&self, pid: Pid, n: u32) -> bool
        ensures { result ≡ ((self.now.state.line.process == pid.0) && nat_le (length self.now.state.line.truths) n) }
    {
        self.truths.pid() == pid && self.truths.len() <= n as usize
    }

    /// Whether the conjunct is known to be false after the n-th event of this process.
    pub(crate) fn is_false(&self, pid: Pid, n: u32) -> bool
        ensures { result ≡ ((self.now.state.line.process == pid.0) && not (slice_index_or self.now.state.line.truths n true)) }
    {
        self.truths.is_false(pid, n)
    }

    /// Makes room for the truths of so many local states of the process. No room is lost, and contracts see no other change, also on an
    /// error.
    pub(crate) fn reserve_to(&mut self, states: usize) -> Result<(), AllocError>
        ensures state { self.new.state ≡ self.old.state }
        ensures grows { self.old.room ≤ self.new.room }
        ensures ok { OnOk result (states ≤ self.new.room) }
    {
        self.truths.reserve_to(states)
    }

    // Adds the next event of the process.
    fn advance(&mut self, world: &World)
        requires some { 0 < length self.old.state.line.truths }
        requires room { length self.old.state.line.truths < self.old.room }
        ensures next { IsAdvanced world.now self.old.state self.new.state }
        ensures room { self.new.room ≡ self.old.room }
    {
        let pid = self.truths.pid();
        world
            .rows()
            .advance(pid, self.truths.len() - 1, &mut self.env);
        self.truths
            .push(matches!(guard(&self.expr, &self.env), Ok(true)));
    }

    /// Makes what was known in an earlier world that of this one, in which events were made or undone since. It does not allocate.
    pub(crate) fn follow(&mut self, world: &World)
        requires world { IsSomeWorld world.now }
        requires was { WasWatchOf self.old.state world.now }
        requires room { place_at world.now.state self.old.state.line.process + 1 ≤ self.old.room }
        ensures of { IsWatchOf world.now self.new.state }
        ensures conjunct { conjunct_in self.new.state ≡ conjunct_in self.old.state }
        ensures room { self.new.room ≡ self.old.room }
    {
        let pid = self.truths.pid();
        let states = world.place(pid) as usize + 1;
        if self.truths.len() > states {
            self.truths.truncate(states);
            self.env.assign(world.env(pid));
        }
        while self.truths.len() < states {
            self.advance(world);
        }
    }
}
