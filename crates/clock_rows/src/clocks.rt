//! The rows of all processes.

ghost use Rattle.std.specs.Prelude.{◌≡◌, ℕ, ◌-◌, ◌<◌, ◌≤◌, ◌++◌, ◌∷◌, [], length, map, take, replicate, slice_set, slice_index_or};
ghost use Rattle.std.specs.Prelude.{IfOk, OnOk, IsTrue};
ghost use Rattle.clock_rows.specs.Clocks.{join, next_row, last_row};

use crate::history::{ClockHistory, join_rows};
use dbg_base::Pid;
use std::alloc::{AllocError, Global};
use std::marker::Model;

/// For each process its rows in order, the first one zeros; a row has one count for each process. Contracts see these rows, and the room of
/// each process: how many more rows it can take without allocation.
pub struct Clocks {
    histories: Vec<ClockHistory>,
    // A buffer for the next row, with one count for each process.
    next: Vec<u32>,
}

impl Drop for Clocks {
    fn drop(self) {
        let Self { histories, next } = self;
    }
}

impl Model for Clocks {
    ghost use Rattle.std.specs.Prelude.{◌≡◌, length, map, replicate};
    ghost use Rattle.std.specs.Vec.{vec_len};
    ghost use Rattle.clock_rows.specs.Clocks.{ClocksState};

    ghost Value = { ClocksState };

    ghost view = { λ clocks. record {
      rows = map (λ history. history.rows) clocks.histories.items;
      room = map (λ history. history.room) clocks.histories.items;
    } };

    ghost invariant = { λ clocks. (map (λ history. history.width) clocks.histories.items
        ≡ replicate (length clocks.histories.items) (length clocks.histories.items))
        × (vec_len clocks.next ≡ length clocks.histories.items) };
}

// One row of zeros for each of so many processes.
fn first_histories(alloc: Global, processes: u32) -> Result<Vec<ClockHistory>, AllocError>
    ensures widths { IfOk result (λ histories. map (λ history. history.width) histories.items ≡ replicate processes processes) }
    ensures rows { IfOk result (λ histories. map (λ history. history.rows) histories.items
        ≡ replicate processes (replicate processes 0 ∷ [])) }
{
    let mut histories = Vec::new(alloc);
    for _ in 0..processes {
        histories.push(ClockHistory::new(alloc, processes as usize)?)?;
    }
    Ok(histories)
}

// Copies the rows of all processes.
fn copy_histories(histories: &Vec<ClockHistory>) -> Result<Vec<ClockHistory>, AllocError>
    ensures len { IfOk result (λ made. length made.items ≡ length histories.now.items) }
    ensures widths { IfOk result (λ made. map (λ history. history.width) made.items ≡ map (λ history. history.width) histories.now.items) }
    ensures rows { IfOk result (λ made. map (λ history. history.rows) made.items ≡ map (λ history. history.rows) histories.now.items) }
{
    let mut made = Vec::new(*histories.allocator());
    for history in histories {
        made.push(history.copy()?)?;
    }
    Ok(made)
}

// Writes the join of the last row of a process with the n-th row of the given one, which may be the process's own.
fn join_with(
    joined: &mut [u32],
    history: &ClockHistory,
    given: &ClockHistory,
    n: usize,
    is_own: bool,
)
    requires width { history.now.width ≡ length joined.old }
    requires given { given.now.width ≡ length joined.old }
    requires row { n < length given.now.rows }
    requires own { IsTrue is_own → given.now ≡ history.now }
    ensures { joined.new ≡ join (last_row history.now.rows) (slice_index_or given.now.rows n []) }
{
    if is_own && history.is_last(n) {
        // The join of a row with itself is that row.
        joined.copy_from_slice(history.last());
    } else {
        join_rows(joined, history.last(), given.row(n));
    }
}

impl Clocks {
    /// One row of zeros for each of so many processes. Error: out of memory.
    pub fn new(alloc: Global, processes: u32) -> Result<Clocks, AllocError>
        ensures { IfOk result (λ clocks. clocks.rows ≡ replicate processes (replicate processes 0 ∷ [])) }
    {
        Ok(Clocks {
            histories: first_histories(alloc, processes)?,
            next: vec![in alloc; 0u32; processes as usize]?,
        })
    }

    /// Copies the rows; the copy has its own room. Error: out of memory.
    pub fn copy(&self) -> Result<Clocks, AllocError>
        ensures { IfOk result (λ clocks. clocks.rows ≡ self.now.rows) }
    {
        Ok(Clocks {
            histories: copy_histories(&self.histories)?,
            next: self.next.clone()?,
        })
    }

    /// How many rows the process has, 0 if it does not exist. It does not allocate.
    pub fn len(&self, pid: Pid) -> usize
        ensures { result ≡ length (slice_index_or self.now.rows pid.0 []) }
    {
        match self.histories.get(pid.0 as usize) {
            Some(history) => history.len(),
            None => 0,
        }
    }

    /// The n-th row of the process, from 0; both must exist. It does not allocate.
    #[tactic(auto, using(crate::proofs::Widths::one_history))]
    pub fn row(&self, pid: Pid, n: u32) -> &[u32]
        requires there { pid.0 < length self.now.rows }
        requires row { n < length (slice_index_or self.now.rows pid.0 []) }
        ensures row { result.now ≡ slice_index_or (slice_index_or self.now.rows pid.0 []) n [] }
        ensures len { length result.now ≡ length self.now.rows }
    {
        let history = &self.histories[pid.0 as usize];
        history.row(n as usize)
    }

    /// Makes room for so many more rows of the process. It does nothing if the process does not exist. No row changes, and no room is lost,
    /// also on an error. Error: out of memory.
    #[tactic(auto, using(crate::proofs::Widths::one_history))]
    pub fn reserve(&mut self, pid: Pid, more: usize) -> Result<(), AllocError>
        ensures rows { self.new.rows ≡ self.old.rows }
        ensures grows { (a : ℕ) → slice_index_or self.old.room a 0 ≤ slice_index_or self.new.room a 0 }
        ensures ok { OnOk result (pid.0 < length self.old.rows → more ≤ slice_index_or self.new.room pid.0 0) }
    {
        if pid.0 as usize >= self.histories.len() {
            return Ok(());
        }
        let history = &mut self.histories[pid.0 as usize];
        history.reserve(more)
    }

    /// Appends the row of the process's next event, for which there must be room. The row joins the last row of the process with the given
    /// row, which has one count for each process, and has the process's own count one more. The join takes the larger of each two counts.
    /// It does not allocate.
    #[tactic(auto, using(crate::proofs::Widths::one_history))]
    pub fn push(&mut self, pid: Pid, joined: &[u32])
        requires room { 0 < slice_index_or self.old.room pid.0 0 }
        requires len { length joined.now ≡ length self.old.rows }
        requires fits { slice_index_or (join (last_row (slice_index_or self.old.rows pid.0 [])) joined.now) pid.0 0 < 4294967295 }
        ensures rows { self.new.rows ≡ slice_set self.old.rows pid.0 (slice_index_or self.old.rows pid.0 []
            ++ next_row pid.0 (last_row (slice_index_or self.old.rows pid.0 [])) joined.now ∷ []) }
        ensures room { self.new.room ≡ slice_set self.old.room pid.0 (slice_index_or self.old.room pid.0 0 - 1) }
    {
        join_rows(
            &mut self.next,
            self.histories[pid.0 as usize].last(),
            joined,
        );
        let history = &mut self.histories[pid.0 as usize];
        history.push(pid.0 as usize, &mut self.next);
    }

    /// Like `push`, with the n-th row of the source, which may be the process itself.
    #[tactic(auto, using(crate::proofs::Widths::one_history))]
    pub fn push_joined(&mut self, pid: Pid, source: Pid, n: u32)
        requires room { 0 < slice_index_or self.old.room pid.0 0 }
        requires there { source.0 < length self.old.rows }
        requires row { n < length (slice_index_or self.old.rows source.0 []) }
        requires fits { slice_index_or (join (last_row (slice_index_or self.old.rows pid.0 []))
            (slice_index_or (slice_index_or self.old.rows source.0 []) n [])) pid.0 0 < 4294967295 }
        ensures rows { self.new.rows ≡ slice_set self.old.rows pid.0 (slice_index_or self.old.rows pid.0 []
            ++ next_row pid.0 (last_row (slice_index_or self.old.rows pid.0 []))
            (slice_index_or (slice_index_or self.old.rows source.0 []) n []) ∷ []) }
        ensures room { self.new.room ≡ slice_set self.old.room pid.0 (slice_index_or self.old.room pid.0 0 - 1) }
    {
        let own = &self.histories[pid.0 as usize];
        let given = &self.histories[source.0 as usize];
        join_with(&mut self.next, own, given, n as usize, source.0 == pid.0);
        let history = &mut self.histories[pid.0 as usize];
        history.push(pid.0 as usize, &mut self.next);
    }

    /// Removes the last row of the process, which must have more than its first. No room is lost. It does not allocate.
    #[tactic(auto, using(crate::proofs::Widths::one_history))]
    pub fn pop(&mut self, pid: Pid)
        requires { 1 < length (slice_index_or self.old.rows pid.0 []) }
        ensures rows { self.new.rows ≡ slice_set self.old.rows pid.0
            (take (length (slice_index_or self.old.rows pid.0 []) - 1) (slice_index_or self.old.rows pid.0 [])) }
        ensures grows { (a : ℕ) → slice_index_or self.old.room a 0 ≤ slice_index_or self.new.room a 0 }
    {
        let history = &mut self.histories[pid.0 as usize];
        history.pop();
    }
}
