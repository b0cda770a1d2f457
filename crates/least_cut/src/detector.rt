//! A detector: the least cut of the events so far that satisfies a breakpoint.

ghost use Rattle.std.specs.Prelude.{◌≡◌, ◌≢◌, ◌<◌, ◌≤◌, ◌+◌, length, map, IfOk, IfErr, OnOk, MatchOption};
ghost use Rattle.std.specs.Prelude.{slice_index, slice_get};
ghost use Rattle.std.specs.Option.{option_map};
ghost use Rattle.std.specs.List.{AllByRecursion};
ghost use Rattle.dbg_base.specs.Trees as tree;
ghost use Rattle.dbg_base.specs.Trees.{tree_of};
ghost use Rattle.dbg_base.specs.Calls.{conjunct_of};
ghost use Rattle.dbg_base.specs.Copies.{IsCopy};
ghost use Rattle.dbg_base.specs.Predicates.{IsLeast, NoCut};
ghost use Rattle.dbg_base.specs.Frontiers.{IsFrontier};
ghost use Rattle.dbg_base.specs.Eliminations.{IsSound, reach};
ghost use Rattle.dbg_base.specs.SystemStates.{history_of};
ghost use Rattle.causal_world.specs.Scenes.{Scene, IsWorldOf};
ghost use Rattle.least_cut.specs.Watches.{scan_of, IsWatchOf, WasWatchOf};
ghost use Rattle.dbg_base.specs.declared.refusal.Refusal.TheVariants.{Memory};
ghost use Rattle.causal_world.specs.Worlds.{IsSomeWorld};
ghost use Rattle.least_cut.specs.Searches as model;
ghost use Rattle.least_cut.specs.Searches.{is_false_in};
ghost use Rattle.least_cut.specs.Detectors.{conjunct_with, conjuncts_of, lines_of, is_past_in, one_more, HasTruthRoom, HasRoomUpTo};
ghost use Rattle.least_cut.specs.Detectors.{has_cut_in};
ghost use Rattle.least_cut.specs.Detectors.{IsSearchOf, IsDetectorOf, IsGrown, IsShrunk, IsMoved, IsSameButRoom, DropsTo, IsLimit};
ghost use Rattle.least_cut.specs.Detectors.{Watches, TellsFrontier, reported_head};

mod search;

use crate::room::{copy_items, reserve_total};
use crate::scan::Scan;
use crate::watch::Watch;
use crate::watches::{copy_watches, reserve_at, reserve_each, watch_at, watch_each, watches_of};
use causal_world::World;
use dbg_base::{Conjunct, Cut, Elimination, Expr, Head, Pid, Refusal, Sequence};
use std::alloc::{AllocError, Global};
use std::marker::Model;

/// The conjuncts of a breakpoint, where each is true, a candidate for each process, and the eliminations that led to the candidates. It
/// belongs to a world, and follows it as events are made and undone. Contracts see these, and its room.
///
/// The algorithm eliminates candidates, as Garg and Waldecker (1994) do for weak conjunctive predicates.
pub struct Detector {
    watches: Vec<Watch>,
    candidates: Cut,
    trail: Vec<Elimination>,
}

impl Drop for Detector {
    fn drop(self) {
        let Self {
            watches,
            candidates,
            trail,
        } = self;
    }
}

impl Model for Detector {
    ghost use Rattle.std.specs.Vec.{vec_capacity};
    ghost use Rattle.least_cut.specs.Detectors.{DetectorState};
    ghost use Rattle.least_cut.specs.TreeCodes.{coded_tree};
    ghost use Rattle.std.specs.Coded.{codes};

    ghost Value = { DetectorState };

    ghost coded = { Prim.hlevel (codes, coded_tree) };

    ghost view = { λ d. record {
      watches = d.watches.items;
      candidates = d.candidates;
      trail = d.trail.items;
      trail_room = vec_capacity d.trail;
    } };
}

/// At least as many as there can be eliminations if the processes, at most so many, have as many events as the cut: one for each event, and
/// one for each process. It does not allocate.
pub fn steps_up_to(cut: &Cut, processes: u32) -> usize
    ensures { length cut.now ≤ processes → model.steps_up_to cut.now ≤ result }
{
    let mut steps: usize = 0;
    for p in 0..processes {
        steps += cut.count(Pid(p)) as usize + 1;
    }
    steps
}

impl Detector {
    /// The detector of these conjuncts, at least one, in a world that has their processes. The scan says where the conjuncts are true.
    /// Error: `Memory`, if an allocation fails.
    pub fn new(
        alloc: Global,
        conjuncts: Sequence<Conjunct>,
        scan: Scan,
        world: &World,
    ) -> Result<Detector, Refusal>
        requires here { AllByRecursion (λ conjunct. conjunct.process < length world.now.state.places) (map conjunct_of conjuncts) }
        requires scan { scan ≡ scan_of world.now (map conjunct_of conjuncts) }
        ensures of { IfOk result (λ made. IsDetectorOf world.now made) }
        ensures conjuncts { IfOk result (λ made. conjuncts_of made ≡ map conjunct_of conjuncts) }
        ensures refuses { IfErr result (λ refusal. refusal ≡ Memory) }
    {
        let tally = world.tally();
        let watches = watches_of(alloc, conjuncts, scan, world)?;
        let candidates = Cut::new(vec![in alloc; 0; tally.processes() as usize]?);
        let mut detector = Detector {
            watches,
            candidates,
            trail: Vec::new(alloc),
        };
        let places = tally.all_events(alloc)?;
        let steps = steps_up_to(&places, tally.processes());
        detector.reserve_to(&places, steps)?;
        detector.run(world);
        Ok(detector)
    }

    /// Copies the detector, with as much room. Error: `Memory`, if an allocation fails.
    pub fn copy(&self) -> Result<Detector, Refusal>
        ensures { IsCopy result (λ made. made ≡ self.now) }
    {
        Ok(Detector {
            watches: copy_watches(&self.watches)?,
            candidates: self.candidates.copy()?,
            trail: copy_items(&self.trail)?,
        })
    }

    // The candidate of this process.
    fn candidate(&self, pid: Pid) -> u32
        ensures { result ≡ slice_index self.now.candidates pid.0 }
    {
        self.candidates.count(pid)
    }

    // Whether one of the conjuncts is false after the n-th event of the process.
    fn is_false(&self, pid: Pid, n: u32) -> bool
        ensures { result ≡ is_false_in (lines_of self.now) pid.0 n }
    {
        for watch in &self.watches {
            if watch.is_false(pid, n) {
                return true;
            }
        }
        false
    }

    // Whether a conjunct names the process, and the process has fewer than n events.
    fn is_past(&self, pid: Pid, n: u32) -> bool
        ensures { result ≡ is_past_in (lines_of self.now) pid.0 n }
    {
        for watch in &self.watches {
            if watch.is_past(pid, n) {
                return true;
            }
        }
        false
    }

    /// Makes room for one more event of the process. `steps` is at least the number of eliminations that there can be then. No room is
    /// lost, and contracts see no other change, also on an error. Error: out of memory.
    pub fn reserve(&mut self, world: &World, pid: Pid, steps: usize) -> Result<(), AllocError>
        ensures same { IsSameButRoom self.old self.new }
        ensures ok { OnOk result (HasRoomUpTo self.old world.now.state.places → model.steps_up_to (one_more world.now pid.0) ≤ steps
            → HasRoomUpTo self.new (one_more world.now pid.0)) }
    {
        reserve_at(&mut self.watches, pid, world.place(pid) as usize + 2)?;
        reserve_total(&mut self.trail, steps)
    }

    /// Makes room for as many events as the cut has. `steps` is at least the number of eliminations that there can be then. No room is
    /// lost, and contracts see no other change, also on an error. Error: out of memory.
    pub fn reserve_to(&mut self, cut: &Cut, steps: usize) -> Result<(), AllocError>
        ensures same { IsSameButRoom self.old self.new }
        ensures ok { OnOk result (model.steps_up_to cut.now ≤ steps → HasRoomUpTo self.new cut.now) }
    {
        reserve_each(&mut self.watches, cut)?;
        reserve_total(&mut self.trail, steps)
    }

    // Makes what is kept of the conjuncts that of the world.
    fn watch(&mut self, world: &World)
        requires world { IsSomeWorld world.now }
        requires was { AllByRecursion (λ watch. WasWatchOf watch.state world.now) self.old.watches }
        requires room { AllByRecursion (HasTruthRoom world.now.state.places) self.old.watches }
        ensures { Watches world.now self.old self.new }
    {
        watch_each(&mut self.watches, world);
    }

    // The same, if only this process has made events.
    fn watch_process(&mut self, world: &World, pid: Pid)
        requires world { IsSomeWorld world.now }
        requires was { AllByRecursion (λ watch. WasWatchOf watch.state world.now) self.old.watches }
        requires others { AllByRecursion (λ watch. watch.state.line.process ≢ pid.0 → IsWatchOf world.now watch.state) self.old.watches }
        requires room { AllByRecursion (HasTruthRoom world.now.state.places) self.old.watches }
        ensures { Watches world.now self.old self.new }
    {
        watch_at(&mut self.watches, pid, world);
    }

    // The greatest component of the process to which eliminations may still lead: the number of its events, or one more if none was undone.
    fn limit(&self, world: &World, pid: Pid) -> u32
        requires { IsSomeWorld world.now }
        ensures { (v : Scene) → IsSomeWorld v → IsSearchOf v self.now → IsLimit v world.now pid.0 result }
    {
        let place = world.place(pid);
        if self.is_past(pid, place + 1) {
            place + 1
        } else {
            place
        }
    }

    // Drops the last eliminations, until the candidate of the process is at most this.
    fn drop_to(&mut self, pid: Pid, limit: u32)
        requires { (v : Scene) × IsSearchOf v self.old }
        ensures { DropsTo pid.0 limit self.old self.new }
    {
        while self.candidate(pid) > limit {
            let Some(step) = self.trail.pop() else {
                return;
            };
            self.candidates.set(step.pid, step.from);
        }
    }

    /// Follows the world, in which the process has made an event. It does not allocate.
    pub fn grow(&mut self, pid: Pid, world: &World)
        requires grown { IsGrown self.old pid.0 world.now }
        requires room { HasRoomUpTo self.old world.now.state.places }
        ensures of { IsDetectorOf world.now self.new }
        ensures conjuncts { conjuncts_of self.new ≡ conjuncts_of self.old }
    {
        self.watch_process(world, pid);
        if self.candidate(pid) != world.place(pid) {
            return;
        }
        if self.settle(world, pid) {
            self.run(world);
        }
    }

    /// Follows the world, in which the process has lost its last event. It does not allocate.
    pub fn shrink(&mut self, pid: Pid, world: &World)
        requires shrunk { IsShrunk self.old pid.0 world.now }
        ensures of { IsDetectorOf world.now self.new }
        ensures conjuncts { conjuncts_of self.new ≡ conjuncts_of self.old }
    {
        let limit = self.limit(world, pid);
        self.drop_to(pid, limit);
        self.watch(world);
        self.run(world);
    }

    /// Follows the world, in which events were made or undone. It does not allocate.
    pub fn follow(&mut self, world: &World)
        requires moved { IsMoved self.old world.now }
        requires room { HasRoomUpTo self.old world.now.state.places }
        ensures of { IsDetectorOf world.now self.new }
        ensures conjuncts { conjuncts_of self.new ≡ conjuncts_of self.old }
    {
        for p in 0..world.tally().processes() {
            let limit = self.limit(world, Pid(p));
            self.drop_to(Pid(p), limit);
        }
        self.watch(world);
        self.run(world);
    }

    /// The process and the expression of a conjunct, by its position from 0, or None if there are fewer conjuncts. It does not allocate.
    pub fn conjunct(&self, at: usize) -> Option<(Pid, &Expr)>
        ensures { option_map (λ found. conjunct_with found.0.0 (tree_of found.1.now)) result ≡ slice_get (conjuncts_of self.now) at }
    {
        let watch = self.watches.get(at)?;
        Some((watch.pid(), watch.expr()))
    }

    /// Whether a cut satisfies the conjuncts: none of their processes is past. It does not allocate.
    pub fn has_cut(&self) -> bool
        ensures { result ≡ has_cut_in self.now.candidates (lines_of self.now) }
    {
        for watch in &self.watches {
            let pid = watch.pid();
            if watch.is_past(pid, self.candidate(pid)) {
                return false;
            }
        }
        true
    }

    /// The least cut that satisfies the conjuncts, or None if no cut does. It does not allocate.
    pub fn cut(&self) -> Option<&Cut>
        ensures { (w : Scene) (P : tree.Program) → IsDetectorOf w self.now → IsWorldOf P w
            → MatchOption result (NoCut P (history_of w.state) (conjuncts_of self.now))
            (λ cut. IsLeast P (history_of w.state) (conjuncts_of self.now) cut.now) }
    {
        if self.has_cut() {
            Some(&self.candidates)
        } else {
            None
        }
    }

    // The component of a process as the frontier has it: this count, or past.
    fn head(&self, p: usize, n: u32) -> Head
        ensures { result ≡ reported_head (lines_of self.now) p n }
    {
        for watch in &self.watches {
            let pid = watch.pid();
            if pid.0 as usize == p && watch.is_past(pid, n) {
                return Head::Past;
            }
        }
        Head::At(n)
    }

    /// The frontier: for each process its candidate, or that it is past. Error: `Memory`, if an allocation fails.
    pub fn frontier(&self, alloc: Global) -> Result<Sequence<Head>, Refusal>
        ensures frontier { IfOk result (λ heads. (w : Scene) (P : tree.Program) → IsDetectorOf w self.now → IsWorldOf P w
            → TellsFrontier P (history_of w.state) (conjuncts_of self.now) heads) }
        ensures refuses { IfErr result (λ refusal. refusal ≡ Memory) }
    {
        let mut heads = Vec::with_capacity(alloc, self.candidates.counts().len())?;
        for (p, count) in self.candidates.counts().iter().enumerate() {
            heads.push(self.head(p, *count))?;
        }
        Ok(Sequence::new(heads))
    }

    /// The eliminations that led to the frontier, in order. It does not allocate.
    pub fn why(&self) -> &[Elimination]
        ensures sound { (w : Scene) (P : tree.Program) → IsDetectorOf w self.now → IsWorldOf P w
            → IsSound P (history_of w.state) (conjuncts_of self.now) result.now }
        ensures frontier { (w : Scene) (P : tree.Program) → IsDetectorOf w self.now → IsWorldOf P w
            → IsFrontier P (history_of w.state) (conjuncts_of self.now) (reach (history_of w.state) result.now) }
    {
        self.trail.as_slice()
    }
}
