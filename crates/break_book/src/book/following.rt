//! The breakpoints follow their world as events are made and undone.

ghost use Rattle.std.specs.Prelude.{◌≡◌, ℕ, ◌<◌, ◌≤◌, length, IfErr, OnOk};
ghost use Rattle.dbg_base.specs.declared.refusal.Refusal.TheVariants.{Memory};
ghost use Rattle.causal_world.specs.Scenes.{Scene};
ghost use Rattle.causal_world.specs.Worlds.{IsSomeWorld};
ghost use Rattle.least_cut.specs.Searches as model;
ghost use Rattle.least_cut.specs.Detectors.{one_more};
ghost use Rattle.break_book.specs.Books.{breakpoints_of, shown_of, AreDetectorsOf, HaveRoomUpTo, AreGrown, AreShrunk, AreMoved};
ghost use Rattle.break_book.specs.Books.{AreRoomier, AreFollowed};

use super::{Book, first_halting};
use crate::breakpoint::Breakpoint;
use causal_world::World;
use dbg_base::{Cut, Name, Pid, Refusal};
use indexmap::IndexMap;
use least_cut::steps_up_to;
use std::alloc::AllocError;

// At least as many as there can be eliminations after one more event of any process: one for each event, and one for each process.
fn steps_after(world: &World) -> usize
    requires { IsSomeWorld world.now }
    ensures { (p : ℕ) → model.steps_up_to (one_more world.now p) ≤ result }
{
    let mut steps: usize = 1;
    for p in 0..world.tally().processes() {
        steps += world.place(Pid(p)) as usize + 1;
    }
    steps
}

// Makes room in each detector for one more event of the process.
fn reserve_each(
    breaks: &mut IndexMap<Name, Breakpoint>,
    world: &World,
    pid: Pid,
    steps: usize,
) -> Result<(), AllocError>
    requires of { AreDetectorsOf world.now breaks.old.entries }
    requires steps { model.steps_up_to (one_more world.now pid.0) ≤ steps }
    ensures same { AreRoomier breaks.old.entries breaks.new.entries }
    ensures room { OnOk result (HaveRoomUpTo breaks.new.entries (one_more world.now pid.0)) }
{
    for i in 0..breaks.len() {
        breaks[i].reserve(world, pid, steps)?;
    }
    Ok(())
}

// Makes room in each detector for as many events as the cut has.
fn reserve_each_to(
    breaks: &mut IndexMap<Name, Breakpoint>,
    cut: &Cut,
    steps: usize,
) -> Result<(), AllocError>
    requires steps { model.steps_up_to cut.now ≤ steps }
    ensures same { AreRoomier breaks.old.entries breaks.new.entries }
    ensures room { OnOk result (HaveRoomUpTo breaks.new.entries cut.now) }
{
    for i in 0..breaks.len() {
        breaks[i].reserve_to(cut, steps)?;
    }
    Ok(())
}

// Each detector follows the world, in which the process has made an event.
fn grow_each(breaks: &mut IndexMap<Name, Breakpoint>, pid: Pid, world: &World)
    requires grown { AreGrown breaks.old.entries pid.0 world.now }
    requires room { HaveRoomUpTo breaks.old.entries world.now.state.places }
    ensures { AreFollowed world.now breaks.old.entries breaks.new.entries }
{
    for i in 0..breaks.len() {
        breaks[i].grow(pid, world);
    }
}

// Each detector follows the world, in which the process has lost its last event.
fn shrink_each(breaks: &mut IndexMap<Name, Breakpoint>, pid: Pid, world: &World)
    requires { AreShrunk breaks.old.entries pid.0 world.now }
    ensures { AreFollowed world.now breaks.old.entries breaks.new.entries }
{
    for i in 0..breaks.len() {
        breaks[i].shrink(pid, world);
    }
}

// Each detector follows the world, in which events were made or undone.
fn follow_each(breaks: &mut IndexMap<Name, Breakpoint>, world: &World)
    requires moved { AreMoved breaks.old.entries world.now }
    requires room { HaveRoomUpTo breaks.old.entries world.now.state.places }
    ensures { AreFollowed world.now breaks.old.entries breaks.new.entries }
{
    for i in 0..breaks.len() {
        breaks[i].follow(world);
    }
}

impl Book {
    /// Makes room for one more event of the process, which must exist. No call shows a change, also on an error. Error: `Memory`, if an
    /// allocation fails.
    pub fn reserve(&mut self, world: &World, pid: Pid) -> Result<(), Refusal>
        requires world { IsSomeWorld world.now }
        requires process { pid.0 < length world.now.state.places }
        requires of { AreDetectorsOf world.now self.old }
        ensures of { AreDetectorsOf world.now self.new }
        ensures same { shown_of self.new ≡ shown_of self.old }
        ensures room { OnOk result (HaveRoomUpTo self.new (one_more world.now pid.0)) }
        ensures refuses { IfErr result (λ refusal. refusal ≡ Memory) }
    {
        if self.breaks.is_empty() {
            return Ok(());
        }
        let steps = steps_after(world);
        reserve_each(&mut self.breaks, world, pid, steps)?;
        Ok(())
    }

    /// Makes room for as many events as the cut has, which has counts of this world's processes. No call shows a change, also on an error.
    /// Error: `Memory`, if an allocation fails.
    pub fn reserve_to(&mut self, world: &World, cut: &Cut) -> Result<(), Refusal>
        requires { length cut.now ≤ length world.now.state.places }
        ensures of { (w : Scene) → AreDetectorsOf w self.old → AreDetectorsOf w self.new }
        ensures same { shown_of self.new ≡ shown_of self.old }
        ensures room { OnOk result (HaveRoomUpTo self.new cut.now) }
        ensures refuses { IfErr result (λ refusal. refusal ≡ Memory) }
    {
        let steps = steps_up_to(cut, world.tally().processes());
        reserve_each_to(&mut self.breaks, cut, steps)?;
        Ok(())
    }

    /// The detectors follow the world, in which the process has made an event. There must be room for it. It does not allocate.
    pub fn grow(&mut self, pid: Pid, world: &World)
        requires grown { AreGrown self.old pid.0 world.now }
        requires room { HaveRoomUpTo self.old world.now.state.places }
        ensures of { AreDetectorsOf world.now self.new }
        ensures same { breakpoints_of self.new ≡ breakpoints_of self.old }
    {
        grow_each(&mut self.breaks, pid, world);
        self.halting = first_halting(&self.breaks);
    }

    /// The detectors follow the world, in which the process has lost its last event. It does not allocate.
    pub fn shrink(&mut self, pid: Pid, world: &World)
        requires { AreShrunk self.old pid.0 world.now }
        ensures of { AreDetectorsOf world.now self.new }
        ensures same { breakpoints_of self.new ≡ breakpoints_of self.old }
    {
        shrink_each(&mut self.breaks, pid, world);
        self.halting = first_halting(&self.breaks);
    }

    /// The detectors follow the world, in which events were made or undone. It does not allocate.
    pub fn follow(&mut self, world: &World)
        requires moved { AreMoved self.old world.now }
        requires room { HaveRoomUpTo self.old world.now.state.places }
        ensures of { AreDetectorsOf world.now self.new }
        ensures same { breakpoints_of self.new ≡ breakpoints_of self.old }
    {
        follow_each(&mut self.breaks, world);
        self.halting = first_halting(&self.breaks);
    }
}
