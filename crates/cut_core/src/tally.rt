//! What the events of all processes did.

ghost use Rattle.std.specs.Prelude.{◌≡◌, ℕ, ◌+◌, ◌-◌, ◌^◌, ◌<◌, ◌≤◌, ◌++◌, ◌∷◌, [], length, map, take, replicate};
ghost use Rattle.std.specs.Prelude.{slice_set, slice_get, slice_index_or, true, Some, IfOk, OnOk, MatchOption};
ghost use Rattle.std.specs.List.{count_by};
ghost use Rattle.cut_core.specs.Kinds.{is_like, gets_from};
ghost use Rattle.cut_core.specs.declared.kind.Kind.TheVariants.{Sent};
ghost use Rattle.cut_core.specs.Tallies.{sent_by, got_by};

use crate::history::CountHistory;
use crate::kind::Kind;
use dbg_base::Pid;
use std::alloc::{AllocError, Global};
use std::marker::Model;

/// For each process what its events did, in order. Contracts see this, and the room of each process: how many more of its events fit
/// without allocation.
pub struct Tally {
    histories: Vec<CountHistory>,
}

impl Drop for Tally {
    fn drop(self) {
        let Self { histories } = self;
    }
}

impl Model for Tally {
    ghost use Rattle.std.specs.Prelude.{◌^◌, ◌<◌, length, map};
    ghost use Rattle.cut_core.specs.declared.kind.Kind.TheVariants.{Sent};
    ghost use Rattle.cut_core.specs.Tallies.{TallyState};

    ghost Value = { TallyState };

    ghost view = { λ tally. record {
      kinds = map (λ history. history.kinds) tally.histories.items;
      room = map (λ history. history.room) tally.histories.items;
    } };

    ghost invariant = { λ tally. length tally.histories.items < 2 ^ 32 };
}

// No events of each of so many processes.
fn empty_histories(alloc: Global, processes: u32) -> Result<Vec<CountHistory>, AllocError>
    ensures kinds { IfOk result (λ histories. map (λ history. history.kinds) histories.items ≡ replicate processes []) }
    ensures len { IfOk result (λ histories. length histories.items ≡ processes) }
{
    let mut histories = Vec::new(alloc);
    for _ in 0..processes {
        histories.push(CountHistory::new(alloc, processes)?)?;
    }
    Ok(histories)
}

// Copies the events of all processes.
fn copy_histories(histories: &Vec<CountHistory>) -> Result<Vec<CountHistory>, AllocError>
    ensures kinds { IfOk result (λ made. map (λ history. history.kinds) made.items ≡ map (λ history. history.kinds) histories.now.items) }
    ensures len { IfOk result (λ made. length made.items ≡ length histories.now.items) }
{
    let mut made = Vec::new(*histories.allocator());
    for history in histories {
        made.push(history.copy()?)?;
    }
    Ok(made)
}

impl Tally {
    /// No events of each of so many processes. Error: out of memory.
    pub fn new(alloc: Global, processes: u32) -> Result<Tally, AllocError>
        ensures { IfOk result (λ tally. tally.kinds ≡ replicate processes []) }
    {
        Ok(Tally {
            histories: empty_histories(alloc, processes)?,
        })
    }

    /// Copies the events; the copy has its own room. Error: out of memory.
    pub fn copy(&self) -> Result<Tally, AllocError>
        ensures { IfOk result (λ tally. tally.kinds ≡ self.now.kinds) }
    {
        Ok(Tally {
            histories: copy_histories(&self.histories)?,
        })
    }

    /// How many processes there are.
    pub fn processes(&self) -> u32
        ensures { result ≡ length self.now.kinds }
    {
        self.histories.len() as u32
    }

    /// How many events the process has, 0 if it does not exist. Like all methods that only read, it does not allocate.
    pub fn len(&self, pid: Pid) -> u32
        ensures { result ≡ length (slice_index_or self.now.kinds pid.0 []) }
    {
        match self.histories.get(pid.0 as usize) {
            Some(history) => history.len(),
            None => 0,
        }
    }

    // How many of the first n events of the process equal the wanted kind.
    fn count(&self, pid: Pid, wanted: Kind, n: u32) -> u32
        ensures { result ≡ count_by (is_like wanted) (take n (slice_index_or self.now.kinds pid.0 [])) }
    {
        match self.histories.get(pid.0 as usize) {
            Some(history) => history.count(wanted, n),
            None => 0,
        }
    }

    /// How many of the first n events of process i send to process j.
    pub fn sent(&self, i: Pid, j: Pid, n: u32) -> u32
        ensures { result ≡ sent_by self.now.kinds i.0 j.0 n }
    {
        self.count(i, Kind::Sent(j), n)
    }

    /// How many of the first n events of process j receive from process i.
    pub fn got(&self, j: Pid, i: Pid, n: u32) -> u32
        ensures { result ≡ got_by self.now.kinds j.0 i.0 n }
    {
        self.count(j, Kind::Got(i), n)
    }

    /// Makes room for so many more events of the process. It does nothing if the process does not exist. No event changes, and no room is
    /// lost, also on an error. It is an error if an allocation fails, or if the process had more events than a `u32` counts.
    #[tactic(auto, using(dbg_base::proofs::Places::one_place))]
    pub fn reserve(&mut self, pid: Pid, more: usize) -> Result<(), AllocError>
        ensures kinds { self.new.kinds ≡ self.old.kinds }
        ensures grows { (a : ℕ) → slice_index_or self.old.room a 0 ≤ slice_index_or self.new.room a 0 }
        ensures ok { OnOk result (pid.0 < length self.old.kinds → more ≤ slice_index_or self.new.room pid.0 0) }
    {
        if pid.0 as usize >= self.histories.len() {
            return Ok(());
        }
        let history = &mut self.histories[pid.0 as usize];
        history.reserve(more)
    }

    /// Appends an event of the process, for which there must be room. It does not allocate.
    #[tactic(auto, using(dbg_base::proofs::Places::one_place))]
    pub fn note(&mut self, pid: Pid, kind: Kind)
        requires { 0 < slice_index_or self.old.room pid.0 0 }
        ensures kinds { self.new.kinds ≡ slice_set self.old.kinds pid.0 (slice_index_or self.old.kinds pid.0 [] ++ kind ∷ []) }
        ensures room { self.new.room ≡ slice_set self.old.room pid.0 (slice_index_or self.old.room pid.0 0 - 1) }
    {
        let history = &mut self.histories[pid.0 as usize];
        history.note(kind);
    }

    /// Removes the last event of the process. If there is none, it changes nothing. It does not allocate.
    #[tactic(auto, using(dbg_base::proofs::Places::one_place))]
    pub fn unnote(&mut self, pid: Pid)
        ensures kinds { self.new.kinds ≡ slice_set self.old.kinds pid.0
            (take (length (slice_index_or self.old.kinds pid.0 []) - 1) (slice_index_or self.old.kinds pid.0 [])) }
        ensures grows { (a : ℕ) → slice_index_or self.old.room a 0 ≤ slice_index_or self.new.room a 0 }
    {
        if pid.0 as usize >= self.histories.len() {
            return;
        }
        let history = &mut self.histories[pid.0 as usize];
        history.unnote();
    }

    // The number, from 1, of the process's k-th event that equals the wanted kind.
    pub(crate) fn nth(&self, pid: Pid, wanted: Kind, k: u32) -> u32
        requires first { 1 ≤ k }
        requires enough { k ≤ count_by (is_like wanted) (slice_index_or self.now.kinds pid.0 []) }
        ensures first { 1 ≤ result }
        ensures within { result ≤ length (slice_index_or self.now.kinds pid.0 []) }
        ensures like { is_like wanted (slice_index_or (slice_index_or self.now.kinds pid.0 []) (result - 1) wanted) ≡ true }
        ensures count { count_by (is_like wanted) (take result (slice_index_or self.now.kinds pid.0 [])) ≡ k }
    {
        match self.histories.get(pid.0 as usize) {
            Some(history) => history.nth(wanted, k),
            None => k,
        }
    }

    /// The number, from 1, of the event of process i that is its k-th send to process j.
    pub fn send_event(&self, i: Pid, j: Pid, k: u32) -> u32
        requires first { 1 ≤ k }
        requires enough { k ≤ sent_by self.now.kinds i.0 j.0 (length (slice_index_or self.now.kinds i.0 [])) }
        ensures sends { slice_get (slice_index_or self.now.kinds i.0 []) (result - 1) ≡ Some (Sent j) }
        ensures count { sent_by self.now.kinds i.0 j.0 result ≡ k }
    {
        self.nth(i, Kind::Sent(j), k)
    }

    // A process that does not exist, and from which one of the first n events of the process received.
    pub(crate) fn stranger(&self, pid: Pid, n: u32) -> Option<Pid>
        ensures { MatchOption result
            ((i : ℕ) → length self.now.kinds ≤ i → count_by (gets_from i) (take n (slice_index_or self.now.kinds pid.0 [])) ≡ 0)
            (λ from. (length self.now.kinds ≤ from.0)
            × (0 < count_by (gets_from from.0) (take n (slice_index_or self.now.kinds pid.0 [])))) }
    {
        match self.histories.get(pid.0 as usize) {
            Some(history) => history.stranger(self.processes(), n),
            None => None,
        }
    }
}
