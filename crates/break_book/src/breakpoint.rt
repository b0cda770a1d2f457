//! One breakpoint: its mark, and the detector of its cut.

ghost use Rattle.std.specs.Prelude.{◌≡◌, ◌≤◌, true, OnOk};
ghost use Rattle.dbg_base.specs.Copies.{IsCopy};
ghost use Rattle.least_cut.specs.Searches as model;
ghost use Rattle.least_cut.specs.Detectors.{lines_of, has_cut_in, HasRoomUpTo, IsGrown, IsShrunk, IsMoved, one_more};
ghost use Rattle.break_book.specs.Books.{halts_in, IsRoomier, IsFollowed};

use causal_world::World;
use dbg_base::{Cut, Pid, Refusal};
use least_cut::Detector;
use std::alloc::AllocError;
use std::marker::Model;

/// A breakpoint without its name: whether it is armed, and the detector of its least cut.
pub struct Breakpoint {
    armed: bool,
    detector: Detector,
}

impl Drop for Breakpoint {
    fn drop(self) {
        let Self { armed, detector } = self;
    }
}

impl Model for Breakpoint {
    ghost use Rattle.break_book.specs.Books.{Kept};
    ghost use Rattle.least_cut.specs.TreeCodes.{coded_tree};
    ghost use Rattle.std.specs.Coded.{codes};

    ghost Value = { Kept };

    ghost coded = { Prim.hlevel (codes, coded_tree) };

    ghost view = { λ b. record { armed = b.armed; detector = b.detector } };
}

impl Breakpoint {
    // A new breakpoint: armed.
    pub(crate) fn new(detector: Detector) -> Breakpoint
        ensures { result ≡ record { armed = true; detector = detector } }
    {
        Breakpoint {
            armed: true,
            detector,
        }
    }

    // Copies it, with as much room. Error: `Memory`, if an allocation fails.
    pub(crate) fn copy(&self) -> Result<Breakpoint, Refusal>
        ensures { IsCopy result (λ made. made ≡ self.now) }
    {
        Ok(Breakpoint {
            armed: self.armed,
            detector: self.detector.copy()?,
        })
    }

    /// Whether it halts the session if it has a cut.
    pub fn is_armed(&self) -> bool
        ensures { result ≡ self.now.armed }
    {
        self.armed
    }

    /// The detector of its least cut.
    pub fn detector(&self) -> &Detector
        ensures { result.now ≡ self.now.detector }
    {
        &self.detector
    }

    // Sets the mark.
    pub(crate) fn mark(&mut self, armed: bool)
        ensures { self.new ≡ record self.old { armed = armed } }
    {
        self.armed = armed;
    }

    // Whether it has a cut.
    pub(crate) fn has_cut(&self) -> bool
        ensures { result ≡ has_cut_in self.now.detector.candidates (lines_of self.now.detector) }
    {
        self.detector.has_cut()
    }

    // Whether it is armed and has a cut.
    pub(crate) fn halts(&self) -> bool
        ensures { result ≡ halts_in self.now }
    {
        self.is_armed() && self.has_cut()
    }

    // Makes room in its detector for one more event of the process. `steps` is at least the number of eliminations that there can be then.
    pub(crate) fn reserve(
        &mut self,
        world: &World,
        pid: Pid,
        steps: usize,
    ) -> Result<(), AllocError>
        requires room { HasRoomUpTo self.old.detector world.now.state.places }
        requires steps { model.steps_up_to (one_more world.now pid.0) ≤ steps }
        ensures same { IsRoomier self.old self.new }
        ensures room { OnOk result (HasRoomUpTo self.new.detector (one_more world.now pid.0)) }
    {
        self.detector.reserve(world, pid, steps)
    }

    // Makes room in its detector for as many events as the cut has. `steps` is at least the number of eliminations that there can be then.
    pub(crate) fn reserve_to(&mut self, cut: &Cut, steps: usize) -> Result<(), AllocError>
        requires steps { model.steps_up_to cut.now ≤ steps }
        ensures same { IsRoomier self.old self.new }
        ensures room { OnOk result (HasRoomUpTo self.new.detector cut.now) }
    {
        self.detector.reserve_to(cut, steps)
    }

    // Its detector follows the world, in which the process has made an event.
    pub(crate) fn grow(&mut self, pid: Pid, world: &World)
        requires grown { IsGrown self.old.detector pid.0 world.now }
        requires room { HasRoomUpTo self.old.detector world.now.state.places }
        ensures { IsFollowed world.now self.old self.new }
    {
        self.detector.grow(pid, world);
    }

    // Its detector follows the world, in which the process has lost its last event.
    pub(crate) fn shrink(&mut self, pid: Pid, world: &World)
        requires { IsShrunk self.old.detector pid.0 world.now }
        ensures { IsFollowed world.now self.old self.new }
    {
        self.detector.shrink(pid, world);
    }

    // Its detector follows the world, in which events were made or undone.
    pub(crate) fn follow(&mut self, world: &World)
        requires moved { IsMoved self.old.detector world.now }
        requires room { HasRoomUpTo self.old.detector world.now.state.places }
        ensures { IsFollowed world.now self.old self.new }
    {
        self.detector.follow(world);
    }
}
