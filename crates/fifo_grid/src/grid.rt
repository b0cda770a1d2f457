//! The messages between all processes.

ghost use Rattle.std.specs.Prelude.{◌≡◌, ℕ, ◌-◌, ◌<◌, ◌≤◌, ◌++◌, ◌∷◌, [], length, take, drop, replicate, slice_get, slice_index_or};
ghost use Rattle.std.specs.Prelude.{map, IfOk, OnOk, MatchOption, IsSome, IsTrue, ◌↔◌};
ghost use Rattle.std.specs.Option.{option_to_list};
ghost use Rattle.fifo_grid.specs.Grids.{messages_at, with_messages, room_at, with_room};

use crate::queue::Queue;
use dbg_base::{Pid, Sequence};
use std::alloc::{AllocError, Global};
use std::marker::Model;

/// For each ordered pair of processes the messages from the first to the second. Contracts see these lists, and the room of each: how many
/// more messages it can take without allocation.
pub struct Grid {
    rows: Vec<Vec<Queue>>,
}

impl Drop for Grid {
    fn drop(self) {
        let Self { rows } = self;
    }
}

impl Model for Grid {
    ghost use Rattle.std.specs.Prelude.{map};
    ghost use Rattle.fifo_grid.specs.Grids.{GridState};

    ghost Value = { GridState };

    ghost view = { λ grid. record {
      channels = map (λ row. map (λ queue. queue.messages) row.items) grid.rows.items;
      room = map (λ row. map (λ queue. queue.room) row.items) grid.rows.items;
    } };
}

// Empty lists of messages to each of so many processes.
fn empty_row(alloc: Global, processes: u32) -> Result<Vec<Queue>, AllocError>
    ensures { IfOk result (λ row. map (λ queue. queue.messages) row.items ≡ replicate processes []) }
{
    let mut row = Vec::new(alloc);
    for _ in 0..processes {
        row.push(Queue::new(alloc))?;
    }
    Ok(row)
}

// Empty lists of messages from each of so many processes to each of so many.
fn empty_rows(alloc: Global, processes: u32) -> Result<Vec<Vec<Queue>>, AllocError>
    ensures { IfOk result (λ rows. map (λ row. map (λ queue. queue.messages) row.items) rows.items
        ≡ replicate processes (replicate processes [])) }
{
    let mut rows = Vec::new(alloc);
    for _ in 0..processes {
        rows.push(empty_row(alloc, processes)?)?;
    }
    Ok(rows)
}

// Copies the messages of one row.
fn copy_row(row: &Vec<Queue>) -> Result<Vec<Queue>, AllocError>
    ensures { IfOk result (λ made. map (λ queue. queue.messages) made.items ≡ map (λ queue. queue.messages) row.now.items) }
{
    let mut made = Vec::new(*row.allocator());
    for queue in row {
        made.push(queue.copy()?)?;
    }
    Ok(made)
}

// Copies the messages of all rows.
fn copy_rows(rows: &Vec<Vec<Queue>>) -> Result<Vec<Vec<Queue>>, AllocError>
    ensures { IfOk result (λ made. map (λ row. map (λ queue. queue.messages) row.items) made.items
        ≡ map (λ row. map (λ queue. queue.messages) row.items) rows.now.items) }
{
    let mut made = Vec::new(*rows.allocator());
    for row in rows {
        made.push(copy_row(row)?)?;
    }
    Ok(made)
}

impl Grid {
    /// A grid of so many processes, with no messages. Error: out of memory.
    pub fn new(alloc: Global, processes: u32) -> Result<Grid, AllocError>
        ensures { IfOk result (λ grid. grid.channels ≡ replicate processes (replicate processes [])) }
    {
        Ok(Grid {
            rows: empty_rows(alloc, processes)?,
        })
    }

    /// Copies the messages; the copy has its own room. Error: out of memory.
    pub fn copy(&self) -> Result<Grid, AllocError>
        ensures { IfOk result (λ grid. grid.channels ≡ self.now.channels) }
    {
        Ok(Grid {
            rows: copy_rows(&self.rows)?,
        })
    }

    /// Whether both processes exist. Like all methods that only read, except `items`, it does not allocate.
    pub fn has(&self, from: Pid, to: Pid) -> bool
        ensures { IsTrue result
            ↔ ((from.0 < length self.now.channels) × (to.0 < length (slice_index_or self.now.channels from.0 []))) }
    {
        match self.rows.get(from.0 as usize) {
            Some(row) => (to.0 as usize) < row.len(),
            None => false,
        }
    }

    // The messages from the first process to the second, if both exist.
    fn queue(&self, from: Pid, to: Pid) -> Option<&Queue>
        ensures { MatchOption result (messages_at self.now.channels from.0 to.0 ≡ [])
            (λ queue. queue.now.messages ≡ messages_at self.now.channels from.0 to.0) }
    {
        match self.rows.get(from.0 as usize) {
            Some(row) => row.get(to.0 as usize),
            None => None,
        }
    }

    /// How many messages are on their way from the first process to the second, 0 if either does not exist.
    pub fn len(&self, from: Pid, to: Pid) -> usize
        ensures { result ≡ length (messages_at self.now.channels from.0 to.0) }
    {
        match self.queue(from, to) {
            Some(queue) => queue.len(),
            None => 0,
        }
    }

    /// The head of the channel from the first process to the second, or None if it is empty.
    pub fn front(&self, from: Pid, to: Pid) -> Option<i64>
        ensures { result ≡ slice_get (messages_at self.now.channels from.0 to.0) 0 }
    {
        match self.queue(from, to) {
            Some(queue) => queue.front(),
            None => None,
        }
    }

    /// The messages from the first process to the second, the head first. Error: out of memory.
    pub fn items(&self, alloc: Global, from: Pid, to: Pid) -> Result<Sequence<i64>, AllocError>
        ensures { IfOk result (λ messages. messages ≡ messages_at self.now.channels from.0 to.0) }
    {
        match self.queue(from, to) {
            Some(queue) => queue.items(alloc),
            None => Ok(Sequence::new(Vec::new(alloc))),
        }
    }

    /// Makes room for so many more messages from the first process to the second. It does nothing if either does not exist. No message
    /// changes, and no room is lost, also on an error. Error: out of memory.
    #[tactic(auto, using(crate::proofs::Cells::one_cell))]
    pub fn reserve(&mut self, from: Pid, to: Pid, more: usize) -> Result<(), AllocError>
        ensures messages { self.new.channels ≡ self.old.channels }
        ensures grows { (a b : ℕ) → room_at self.old.room a b ≤ room_at self.new.room a b }
        ensures ok { OnOk result (from.0 < length self.old.channels → to.0 < length (slice_index_or self.old.channels from.0 [])
            → more ≤ room_at self.new.room from.0 to.0) }
    {
        if !self.has(from, to) {
            return Ok(());
        }
        let queue = &mut self.rows[from.0 as usize][to.0 as usize];
        queue.reserve(more)
    }

    /// Appends the message to the channel from the first process to the second, which must have room. It does not allocate.
    #[tactic(auto, using(crate::proofs::Cells::one_cell))]
    pub fn push_back(&mut self, from: Pid, to: Pid, message: i64)
        requires { 0 < room_at self.old.room from.0 to.0 }
        ensures messages { self.new.channels ≡ with_messages self.old.channels from.0 to.0
            (messages_at self.old.channels from.0 to.0 ++ message ∷ []) }
        ensures room { self.new.room ≡ with_room self.old.room from.0 to.0 (room_at self.old.room from.0 to.0 - 1) }
    {
        let queue = &mut self.rows[from.0 as usize][to.0 as usize];
        queue.push_back(message);
    }

    /// Puts the message at the head of the channel from the first process to the second, which must have room. It undoes a `pop_front`, and
    /// does not allocate.
    #[tactic(auto, using(crate::proofs::Cells::one_cell))]
    pub fn unpop_front(&mut self, from: Pid, to: Pid, message: i64)
        requires { 0 < room_at self.old.room from.0 to.0 }
        ensures messages { self.new.channels ≡ with_messages self.old.channels from.0 to.0
            (message ∷ messages_at self.old.channels from.0 to.0) }
        ensures room { self.new.room ≡ with_room self.old.room from.0 to.0 (room_at self.old.room from.0 to.0 - 1) }
    {
        let queue = &mut self.rows[from.0 as usize][to.0 as usize];
        queue.unpop_front(message);
    }

    /// Removes and returns the head of the channel from the first process to the second. If there is none, it changes nothing. It does not
    /// allocate.
    #[tactic(auto, using(crate::proofs::Cells::one_cell))]
    pub fn pop_front(&mut self, from: Pid, to: Pid) -> Option<i64>
        ensures front { result ≡ slice_get (messages_at self.old.channels from.0 to.0) 0 }
        ensures messages { self.new.channels ≡ with_messages self.old.channels from.0 to.0
            (drop 1 (messages_at self.old.channels from.0 to.0)) }
        ensures grows { (a b : ℕ) → room_at self.old.room a b ≤ room_at self.new.room a b }
    {
        if !self.has(from, to) {
            return None;
        }
        let queue = &mut self.rows[from.0 as usize][to.0 as usize];
        queue.pop_front()
    }

    /// Removes and returns the tail of the channel from the first process to the second: it undoes a `push_back`. If there is none, it
    /// changes nothing. It does not allocate.
    #[tactic(auto, using(crate::proofs::Cells::one_cell))]
    pub fn unpush_back(&mut self, from: Pid, to: Pid) -> Option<i64>
        ensures back { messages_at self.old.channels from.0 to.0
            ≡ messages_at self.new.channels from.0 to.0 ++ option_to_list result }
        ensures messages { self.new.channels ≡ with_messages self.old.channels from.0 to.0
            (take (length (messages_at self.old.channels from.0 to.0) - 1) (messages_at self.old.channels from.0 to.0)) }
        ensures some { IsSome result ↔ (0 < length (messages_at self.old.channels from.0 to.0)) }
        ensures grows { (a b : ℕ) → room_at self.old.room a b ≤ room_at self.new.room a b }
    {
        if !self.has(from, to) {
            return None;
        }
        let queue = &mut self.rows[from.0 as usize][to.0 as usize];
        queue.unpush_back()
    }
}
