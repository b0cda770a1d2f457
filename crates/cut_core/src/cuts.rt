//! Consistent cuts (Mattern 1989): each received message was sent within the cut.

ghost use Rattle.std.specs.Prelude.{◌≡◌, ℕ, ◌+◌, ◌-◌, ◌<◌, List, [], length, min, sum, slice_index, slice_index_or};
ghost use Rattle.std.specs.Prelude.{false, IfOk, IsTrue, IsSome, IfSome, ◌↔◌, MatchOption};
ghost use Rattle.dbg_base.specs.Cuts.{IsAtMost};
ghost use Rattle.cut_core.specs.ConsistentCuts.{IsConsistentCut, IsWithin, IsLowered, HasOrphan, places};

use crate::kind::Kind;
use crate::tally::Tally;
use dbg_base::{Cut, Pid, count_of};
use std::alloc::{AllocError, Global};

impl Tally {
    // Whether the second process has received more messages from the first than the first has sent to it, up to these counts.
    fn is_orphan(&self, counts: &[u32], from: Pid, to: Pid) -> bool
        ensures { IsTrue result ↔ HasOrphan self.now.kinds counts.now from.0 to.0 }
    {
        let sent = self.sent(from, to, count_of(counts, from));
        let got = self.got(to, from, count_of(counts, to));
        from.0 != to.0 && sent < got
    }

    // A process from which this one has received more messages than that process has sent to it, up to these counts.
    fn orphan_of(&self, counts: &[u32], to: Pid) -> Option<Pid>
        requires { to.0 < length self.now.kinds }
        ensures { MatchOption result ((i : ℕ) → ¬ HasOrphan self.now.kinds counts.now i to.0)
            (λ from. HasOrphan self.now.kinds counts.now from.0 to.0) }
    {
        for i in 0..self.processes() {
            if self.is_orphan(counts, Pid(i), to) {
                return Some(Pid(i));
            }
        }
        self.stranger(to, count_of(counts, to))
    }

    // Two processes, of which the second has received more messages from the first than the first has sent to it, up to these counts.
    fn orphan(&self, counts: &[u32]) -> Option<(Pid, Pid)>
        ensures { MatchOption result ((i j : ℕ) → ¬ HasOrphan self.now.kinds counts.now i j)
            (λ pair. HasOrphan self.now.kinds counts.now pair.0.0 pair.1.0) }
    {
        for j in 0..self.processes() {
            if let Some(from) = self.orphan_of(counts, Pid(j)) {
                return Some((from, Pid(j)));
            }
        }
        None
    }

    /// The cut of all events. Error: out of memory.
    pub fn all_events(&self, alloc: Global) -> Result<Cut, AllocError>
        ensures { IfOk result (λ cut. cut ≡ places self.now.kinds) }
    {
        let mut counts = Vec::with_capacity(alloc, self.processes() as usize)?;
        for p in 0..self.processes() {
            counts.push(self.len(Pid(p)))?;
        }
        Ok(Cut::new(counts))
    }

    // Whether there is one count for each process, at most its number of events.
    fn is_within(&self, counts: &[u32]) -> bool
        ensures { IsTrue result ↔ IsWithin self.now.kinds counts.now }
    {
        if counts.len() != self.processes() as usize {
            return false;
        }
        for p in 0..self.processes() {
            if count_of(counts, Pid(p)) > self.len(Pid(p)) {
                return false;
            }
        }
        true
    }

    // The counts, each at most the number of the process's events.
    fn clipped(&self, alloc: Global, counts: &[u32]) -> Result<Vec<u32>, AllocError>
        ensures len { IfOk result (λ made. length made.items ≡ length self.now.kinds) }
        ensures counts { IfOk result (λ made. (p : ℕ) → slice_index made.items p
            ≡ min (slice_index counts.now p) (length (slice_index_or self.now.kinds p []))) }
    {
        let mut made = Vec::new(alloc);
        for p in 0..self.processes() {
            made.push(count_of(counts, Pid(p)).min(self.len(Pid(p))))?;
        }
        Ok(made)
    }

    // Lowers the process to before the first message for which there is no send, and returns whether there was such a message.
    fn lower_at(&self, counts: &mut [u32], to: Pid) -> bool
        requires within { IsWithin self.now.kinds counts.old }
        requires there { to.0 < length self.now.kinds }
        ensures lowered { IsLowered self.now.kinds counts.old counts.new }
        ensures less { IsTrue result → sum counts.new < sum counts.old }
        ensures same { result ≡ false → counts.new ≡ counts.old }
        ensures none { (i : ℕ) → ¬ HasOrphan self.now.kinds counts.new i to.0 }
    {
        let mut lowered = false;
        while let Some(from) = self.orphan_of(counts, to) {
            let sent = self.sent(from, to, count_of(counts, from));
            counts[to.0 as usize] = self.nth(to, Kind::Got(from), sent + 1) - 1;
            lowered = true;
        }
        lowered
    }

    // Lowers each process in this way, one after the other, and returns whether any was lowered.
    fn lower_each(&self, counts: &mut [u32]) -> bool
        requires { IsWithin self.now.kinds counts.old }
        ensures lowered { IsLowered self.now.kinds counts.old counts.new }
        ensures less { IsTrue result → sum counts.new < sum counts.old }
        ensures none { result ≡ false → (i j : ℕ) → ¬ HasOrphan self.now.kinds counts.new i j }
    {
        let mut lowered = false;
        for j in 0..self.processes() {
            if self.lower_at(counts, Pid(j)) {
                lowered = true;
            }
        }
        lowered
    }

    // Lowers the counts to the greatest consistent cut below them: as long as a process has received a message for which there is no send,
    // it goes back to before that message.
    fn lower(&self, counts: &mut [u32])
        requires { IsWithin self.now.kinds counts.old }
        ensures consistent { IsConsistentCut self.now.kinds counts.new }
        ensures below { IsAtMost counts.new counts.old }
        ensures greatest { (c : List ℕ) → IsConsistentCut self.now.kinds c → IsAtMost c counts.old → IsAtMost c counts.new }
    {
        while self.lower_each(counts) {}
    }

    // Raises the counts to the least consistent cut above them: as long as a process has received a message for which there is no send, its
    // sender moves to the event that sent it.
    fn raise(&self, counts: &mut [u32])
        requires within { IsWithin self.now.kinds counts.old }
        requires all { IsConsistentCut self.now.kinds (places self.now.kinds) }
        ensures consistent { IsConsistentCut self.now.kinds counts.new }
        ensures above { IsAtMost counts.old counts.new }
        ensures least { (c : List ℕ) → IsConsistentCut self.now.kinds c → IsAtMost counts.old c → IsAtMost counts.new c }
    {
        while let Some((from, to)) = self.orphan(counts) {
            let got = self.got(to, from, count_of(counts, to));
            counts[from.0 as usize] = self.nth(from, Kind::Sent(to), got);
        }
    }
}

/// Whether the cut is consistent. It has one count for each process, at most its number of events, and no process has received more
/// messages from another than that one has sent to it. It does not allocate.
pub fn is_consistent(tally: &Tally, cut: &Cut) -> bool
    ensures { IsTrue result ↔ IsConsistentCut tally.now.kinds cut.now }
{
    tally.is_within(cut.counts()) && tally.orphan(cut.counts()).is_none()
}

/// The greatest consistent cut that is at most this one. Error: out of memory.
pub fn greatest_below(alloc: Global, tally: &Tally, cut: &Cut) -> Result<Cut, AllocError>
    requires { length cut.now ≡ length tally.now.kinds }
    ensures consistent { IfOk result (λ made. IsConsistentCut tally.now.kinds made) }
    ensures below { IfOk result (λ made. IsAtMost made cut.now) }
    ensures greatest { IfOk result (λ made. (c : List ℕ) → IsConsistentCut tally.now.kinds c → IsAtMost c cut.now → IsAtMost c made) }
{
    let mut counts = tally.clipped(alloc, cut.counts())?;
    tally.lower(counts.as_mut_slice());
    Ok(Cut::new(counts))
}

/// The least consistent cut that is at least this one, or None if this cut has more events of a process than there are. Error: out of
/// memory.
pub fn least_above(alloc: Global, tally: &Tally, cut: &Cut) -> Result<Option<Cut>, AllocError>
    requires sizes { length cut.now ≡ length tally.now.kinds }
    requires all { IsConsistentCut tally.now.kinds (places tally.now.kinds) }
    ensures some { IfOk result (λ made. IsSome made ↔ IsAtMost cut.now (places tally.now.kinds)) }
    ensures consistent { IfOk result (λ made. IfSome made (λ least. IsConsistentCut tally.now.kinds least)) }
    ensures above { IfOk result (λ made. IfSome made (λ least. IsAtMost cut.now least)) }
    ensures least { IfOk result (λ made. IfSome made (λ least.
        (c : List ℕ) → IsConsistentCut tally.now.kinds c → IsAtMost cut.now c → IsAtMost least c)) }
{
    if !tally.is_within(cut.counts()) {
        return Ok(None);
    }
    let mut counts = Vec::from_slice(alloc, cut.counts())?;
    tally.raise(counts.as_mut_slice());
    Ok(Some(Cut::new(counts)))
}
