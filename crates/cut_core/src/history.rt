//! What the events of one process did.

ghost use Rattle.std.specs.Prelude.{◌≡◌, ℕ, ◌-◌, ◌^◌, ◌<◌, ◌≤◌, ◌++◌, ◌∷◌, [], true, length, map, take, replicate, IfOk, OnOk};
ghost use Rattle.std.specs.Prelude.{slice_index, slice_index_or, MatchOption};
ghost use Rattle.std.specs.List.{count_by};
ghost use Rattle.cut_core.specs.Kinds.{is_like, gets_from};

use crate::kind::Kind;
use crate::places::Places;
use dbg_base::Pid;
use std::alloc::{AllocError, Global};
use std::marker::Model;

// Room is made for at least so many events at once, since each list is looked at then.
const SPARE: usize = 8;

/// What the events of one process did, in order. The position of each event is in one of several lists, by what it did. The last list is
/// for all kinds without a list of their own.
#[derive(Drop)]
pub(crate) struct CountHistory {
    kinds: Vec<Kind>,
    lists: Vec<Places>,
    room: usize,
}

impl Model for CountHistory {
    ghost use Rattle.std.specs.Prelude.{◌-◌, map};
    ghost use Rattle.std.specs.Vec.{vec_len, vec_capacity};
    ghost use Rattle.cut_core.specs.Places.{AreListed, HasRoom};
    ghost use Rattle.cut_core.specs.Tallies.{HistoryState};

    ghost Value = { HistoryState };

    ghost view = { λ history. record {
      kinds = history.kinds.items;
      room = history.room;
    } };

    ghost invariant = { λ history. AreListed history.kinds.items (map (λ list. list.places) history.lists.items)
        × HasRoom history.kinds.items (vec_capacity history.kinds - vec_len history.kinds) (map (λ list. list.room) history.lists.items)
        history.room };
}

// How many of these equal the wanted kind.
fn count(kinds: &[Kind], wanted: Kind) -> u32
    requires { length kinds.now < 2 ^ 32 }
    ensures { result ≡ count_by (is_like wanted) kinds.now }
{
    let mut count = 0;
    for kind in kinds {
        if kind.is_like(wanted) {
            count += 1;
        }
    }
    count
}

// The number, from 1, of the k-th of these that equals the wanted kind.
fn nth(kinds: &[Kind], wanted: Kind, k: u32) -> u32
    requires short { length kinds.now < 2 ^ 32 }
    requires first { 1 ≤ k }
    requires enough { k ≤ count_by (is_like wanted) kinds.now }
    ensures first { 1 ≤ result }
    ensures within { result ≤ length kinds.now }
    ensures like { is_like wanted (slice_index_or kinds.now (result - 1) wanted) ≡ true }
    ensures count { count_by (is_like wanted) (take result kinds.now) ≡ k }
{
    let mut count = 0;
    let mut place = 0;
    for kind in kinds {
        place += 1;
        if kind.is_like(wanted) {
            count += 1;
            if count == k {
                return place;
            }
        }
    }
    place
}

// A process that is not among so many, and from which one of these events received.
fn stranger(kinds: &[Kind], processes: u32) -> Option<Pid>
    ensures { MatchOption result ((i : ℕ) → processes ≤ i → count_by (gets_from i) kinds.now ≡ 0)
        (λ from. (processes ≤ from.0) × (0 < count_by (gets_from from.0) kinds.now)) }
{
    for kind in kinds {
        let found = kind.stranger(processes);
        if found.is_some() {
            return found;
        }
    }
    None
}

// So many empty lists of positions.
fn empty_lists(alloc: Global, lists: usize) -> Result<Vec<Places>, AllocError>
    ensures places { IfOk result (λ made. map (λ list. list.places) made.items ≡ replicate lists []) }
    ensures len { IfOk result (λ made. length made.items ≡ lists) }
{
    let mut made = Vec::new(alloc);
    for _ in 0..lists {
        made.push(Places::new(alloc))?;
    }
    Ok(made)
}

// Makes room for so many more positions in each list.
#[tactic(auto, using(dbg_base::proofs::Places::one_place))]
fn reserve_each(lists: &mut Vec<Places>, more: usize) -> Result<(), AllocError>
    ensures places { map (λ list. list.places) lists.new.items ≡ map (λ list. list.places) lists.old.items }
    ensures grows { (s : ℕ) → slice_index (map (λ list. list.room) lists.old.items) s
        ≤ slice_index (map (λ list. list.room) lists.new.items) s }
    ensures ok { OnOk result ((s : ℕ) → s < length lists.old.items → more ≤ slice_index (map (λ list. list.room) lists.new.items) s) }
{
    for s in 0..lists.len() {
        let list = &mut lists[s];
        list.reserve(more)?;
    }
    Ok(())
}

// Copies the lists.
fn copy_lists(lists: &Vec<Places>) -> Result<Vec<Places>, AllocError>
    ensures { IfOk result (λ made. map (λ list. list.places) made.items ≡ map (λ list. list.places) lists.now.items) }
{
    let mut made = Vec::new(*lists.allocator());
    for list in lists {
        made.push(list.copy()?)?;
    }
    Ok(made)
}

impl CountHistory {
    /// No events, and the lists for so many processes: for each process two, of what was sent to it and of what was received from it.
    pub(crate) fn new(alloc: Global, processes: u32) -> Result<CountHistory, AllocError>
        ensures { IfOk result (λ history. history.kinds ≡ []) }
    {
        Ok(CountHistory {
            kinds: Vec::new(alloc),
            lists: empty_lists(alloc, processes as usize * 2 + 2)?,
            room: 0,
        })
    }

    /// Copies the events.
    pub(crate) fn copy(&self) -> Result<CountHistory, AllocError>
        ensures { IfOk result (λ history. history.kinds ≡ self.now.kinds) }
    {
        Ok(CountHistory {
            kinds: Vec::from_slice(*self.kinds.allocator(), self.kinds.as_slice())?,
            lists: copy_lists(&self.lists)?,
            room: 0,
        })
    }

    /// How many events there are.
    pub(crate) fn len(&self) -> u32
        ensures { result ≡ length self.now.kinds }
    {
        self.kinds.len() as u32
    }

    /// Makes room for so many more events. It is an error if an allocation fails, or if there were more events than a `u32` counts.
    pub(crate) fn reserve(&mut self, more: usize) -> Result<(), AllocError>
        ensures same { self.new.kinds ≡ self.old.kinds }
        ensures grows { self.old.room ≤ self.new.room }
        ensures ok { OnOk result (more ≤ self.new.room) }
    {
        if more <= self.room {
            return Ok(());
        }
        let left = u32::MAX as usize - self.kinds.len();
        if more > left {
            return Err(AllocError);
        }
        let room = more.max(SPARE).min(left);
        self.kinds.reserve(room)?;
        reserve_each(&mut self.lists, room)?;
        self.room = self.room.max(room);
        Ok(())
    }

    /// Appends one event. It does not allocate.
    pub(crate) fn note(&mut self, kind: Kind)
        requires { 0 < self.old.room }
        ensures kinds { self.new.kinds ≡ self.old.kinds ++ kind ∷ [] }
        ensures room { self.new.room ≡ self.old.room - 1 }
    {
        let place = self.kinds.len() as u32;
        let s = kind.list(self.lists.len() - 1);
        let list = &mut self.lists[s];
        list.push(place);
        self.kinds.push_reserved(kind);
        self.room -= 1;
    }

    /// Removes the last event, if there is one. It does not allocate.
    pub(crate) fn unnote(&mut self)
        ensures kinds { self.new.kinds ≡ take (length self.old.kinds - 1) self.old.kinds }
        ensures grows { self.old.room ≤ self.new.room }
    {
        match self.kinds.pop() {
            Some(kind) => {
                let s = kind.list(self.lists.len() - 1);
                let list = &mut self.lists[s];
                list.pop();
            }
            None => {}
        }
    }

    // The first n events, or all if there are fewer.
    fn first(&self, n: u32) -> &[Kind]
        ensures kinds { result.now ≡ take n self.now.kinds }
        ensures len { length result.now < 2 ^ 32 }
    {
        &self.kinds[..self.kinds.len().min(n as usize)]
    }

    /// How many of the first n events equal the wanted kind.
    pub(crate) fn count(&self, wanted: Kind, n: u32) -> u32
        ensures { result ≡ count_by (is_like wanted) (take n self.now.kinds) }
    {
        let list = wanted.own_list();
        if list < self.lists.len() - 1 {
            self.lists[list].before(n) as u32
        } else {
            count(self.first(n), wanted)
        }
    }

    /// The number, from 1, of the k-th event that equals the wanted kind.
    pub(crate) fn nth(&self, wanted: Kind, k: u32) -> u32
        requires first { 1 ≤ k }
        requires enough { k ≤ count_by (is_like wanted) self.now.kinds }
        ensures first { 1 ≤ result }
        ensures within { result ≤ length self.now.kinds }
        ensures like { is_like wanted (slice_index_or self.now.kinds (result - 1) wanted) ≡ true }
        ensures count { count_by (is_like wanted) (take result self.now.kinds) ≡ k }
    {
        let list = wanted.own_list();
        if list < self.lists.len() - 1 {
            self.lists[list].at(k - 1) + 1
        } else {
            nth(self.kinds.as_slice(), wanted, k)
        }
    }

    /// A process that is not among so many, and from which one of the first n events received. If none of these events is in the last list,
    /// no event is read.
    pub(crate) fn stranger(&self, processes: u32, n: u32) -> Option<Pid>
        ensures { MatchOption result ((i : ℕ) → processes ≤ i → count_by (gets_from i) (take n self.now.kinds) ≡ 0)
            (λ from. (processes ≤ from.0) × (0 < count_by (gets_from from.0) (take n self.now.kinds))) }
    {
        let last = self.lists.len() - 1;
        if last <= processes as usize * 2 + 2 && self.lists[last].before(n) == 0 {
            return None;
        }
        stranger(self.first(n), processes)
    }
}
