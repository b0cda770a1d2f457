//! The search for the least cut (Garg and Waldecker 1994): a candidate moves past a local state that no satisfying cut has, until nothing
//! is left to rule out.

ghost use Rattle.std.specs.Prelude.{◌≡◌, ◌≢◌, ℕ, ◌<◌, ◌≤◌, length, min, sum, IsTrue, false, slice_index, slice_set};
ghost use Rattle.dbg_base.specs.Cuts.{IsAtMost};
ghost use Rattle.dbg_base.specs.SystemStates.{place_at};
ghost use Rattle.causal_world.specs.Worlds.{IsSomeWorld};
ghost use Rattle.causal_world.specs.Pasts.{row_at};
ghost use Rattle.least_cut.specs.Searches.{IsStep, IsSettledAt, PassesPart, is_false_in};
ghost use Rattle.least_cut.specs.Detectors.{lines_of, IsSearchOf, IsDetectorOf, GoesOn};

use crate::detector::Detector;
use causal_world::World;
use dbg_base::{Cause, Elimination, Pid};

// Whether a count of the row is greater than the other count of its process. It reads them all, without a branch for each.
fn exceeds(row: &[u32], counts: &[u32]) -> bool
    requires { length row.now ≡ length counts.now }
    ensures more { IsTrue result → (r : ℕ) × (slice_index counts.now r < slice_index row.now r) }
    ensures most { result ≡ false → IsAtMost row.now counts.now }
{
    let mut more = false;
    for i in 0..row.len() {
        more |= row[i] > counts[i];
    }
    more
}

impl Detector {
    // Makes the elimination.
    fn eliminate(&mut self, world: &World, step: Elimination)
        requires world { IsSomeWorld world.now }
        requires search { IsSearchOf world.now self.old }
        requires step { IsStep world.now (lines_of self.old) self.old.candidates step }
        ensures on { GoesOn world.now self.old self.new }
        ensures set { self.new.candidates ≡ slice_set self.old.candidates step.pid.0 step.to }
    {
        self.candidates.set(step.pid, step.to);
        self.trail.push_reserved(step);
    }

    // Moves the candidate of this process past the local states in which a conjunct is false.
    fn pass_false(&mut self, world: &World, pid: Pid)
        requires world { IsSomeWorld world.now }
        requires search { IsSearchOf world.now self.old }
        requires here { pid.0 < length world.now.state.places }
        ensures on { GoesOn world.now self.old self.new }
        ensures truth { slice_index self.new.candidates pid.0 ≤ place_at world.now.state pid.0
            → is_false_in (lines_of self.new) pid.0 (slice_index self.new.candidates pid.0) ≡ false }
        ensures others { (r : ℕ) → r ≢ pid.0 → slice_index self.new.candidates r ≡ slice_index self.old.candidates r }
    {
        let place = world.place(pid);
        while self.candidate(pid) <= place && self.is_false(pid, self.candidate(pid)) {
            let from = self.candidate(pid);
            let step = Elimination {
                pid,
                from,
                to: from + 1,
                cause: Cause::FalseAt,
            };
            self.eliminate(world, step);
        }
    }

    // Moves the candidate of process `of` to its component in the clock of this process at `event`, if that is greater, and returns whether
    // it was. `event` is the candidate of this process, or its last event if that comes first.
    fn pass_part(&mut self, world: &World, pid: Pid, event: u32, of: Pid) -> bool
        requires world { IsSomeWorld world.now }
        requires search { IsSearchOf world.now self.old }
        requires here { pid.0 < length world.now.state.places }
        requires event { event ≡ min (slice_index self.old.candidates pid.0) (place_at world.now.state pid.0) }
        requires of { of.0 < length world.now.state.places }
        ensures on { GoesOn world.now self.old self.new }
        ensures part { PassesPart world.now self.old.candidates pid.0 of.0 self.new.candidates }
        ensures more { IsTrue result → sum self.old.candidates < sum self.new.candidates }
        ensures same { result ≡ false → self.new.candidates ≡ self.old.candidates }
    {
        let from = self.candidate(of);
        let to = world.clock_part(pid, event, of);
        if to <= from {
            return false;
        }
        let step = Elimination {
            pid: of,
            from,
            to,
            cause: Cause::Passed(pid, event),
        };
        self.eliminate(world, step);
        true
    }

    // Moves each candidate to its component in the clock of this process, if that is greater, and returns whether any moved.
    fn pass_clock(&mut self, world: &World, pid: Pid) -> bool
        requires world { IsSomeWorld world.now }
        requires search { IsSearchOf world.now self.old }
        requires here { pid.0 < length world.now.state.places }
        ensures on { GoesOn world.now self.old self.new }
        ensures clock { IsAtMost (row_at world.now.clocks pid.0 (min (slice_index self.old.candidates pid.0)
            (place_at world.now.state pid.0))) self.new.candidates }
        ensures own { slice_index self.new.candidates pid.0 ≡ slice_index self.old.candidates pid.0 }
        ensures more { IsTrue result → sum self.old.candidates < sum self.new.candidates }
        ensures same { result ≡ false → self.new.candidates ≡ self.old.candidates }
    {
        let event = self.candidate(pid).min(world.place(pid));
        if !exceeds(world.clock_row(pid, event), self.candidates.counts()) {
            return false;
        }
        let mut moved = false;
        for p in 0..world.tally().processes() {
            if self.pass_part(world, pid, event, Pid(p)) {
                moved = true;
            }
        }
        moved
    }

    // Rules out all that this process can rule out by itself, and returns whether candidates of others moved.
    pub(crate) fn settle(&mut self, world: &World, pid: Pid) -> bool
        requires world { IsSomeWorld world.now }
        requires search { IsSearchOf world.now self.old }
        requires here { pid.0 < length world.now.state.places }
        ensures on { GoesOn world.now self.old self.new }
        ensures settled { IsSettledAt world.now (lines_of self.new) self.new.candidates pid.0 }
        ensures more { IsTrue result → sum self.old.candidates < sum self.new.candidates }
        ensures others { result ≡ false → (r : ℕ) → r ≢ pid.0 → slice_index self.new.candidates r ≡ slice_index self.old.candidates r }
    {
        self.pass_false(world, pid);
        self.pass_clock(world, pid)
    }

    // Settles each process, one after the other, and returns whether candidates of others moved.
    fn round(&mut self, world: &World) -> bool
        requires world { IsSomeWorld world.now }
        requires search { IsSearchOf world.now self.old }
        ensures on { GoesOn world.now self.old self.new }
        ensures settled { result ≡ false → IsDetectorOf world.now self.new }
        ensures more { IsTrue result → sum self.old.candidates < sum self.new.candidates }
    {
        let mut moved = false;
        for p in 0..world.tally().processes() {
            if self.settle(world, Pid(p)) {
                moved = true;
            }
        }
        moved
    }

    // Rules out all that can be ruled out.
    pub(crate) fn run(&mut self, world: &World)
        requires world { IsSomeWorld world.now }
        requires search { IsSearchOf world.now self.old }
        ensures on { GoesOn world.now self.old self.new }
        ensures of { IsDetectorOf world.now self.new }
    {
        while self.round(world) {}
    }
}
