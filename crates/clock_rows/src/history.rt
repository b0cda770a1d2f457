//! The rows of one process.

ghost use Rattle.std.specs.Prelude.{◌≡◌, ◌+◌, ◌-◌, ◌<◌, ◌≤◌, ◌++◌, ◌∷◌, [], length, take, replicate, slice_index_or, slice_set};
ghost use Rattle.std.specs.Prelude.{IfOk, OnOk, IsTrue};
ghost use Rattle.std.specs.Vec.{vec_len, vec_capacity};
ghost use Rattle.clock_rows.specs.Clocks.{join, last_row};

use std::alloc::{AllocError, Global};
use std::marker::Model;

/// The rows of one process, one after the other, each of the same number of counts.
#[derive(Drop)]
pub(crate) struct ClockHistory {
    width: usize,
    counts: Vec<u32>,
    // How many more rows fit without allocation.
    room: usize,
}

impl Model for ClockHistory {
    ghost use Rattle.std.specs.Prelude.{◌-◌, ◌*◌, ◌/◌, ◌≤◌};
    ghost use Rattle.std.specs.Vec.{vec_len, vec_capacity};
    ghost use Rattle.clock_rows.specs.Clocks.{HistoryState, AreWholeRows, pieces};

    ghost Value = { HistoryState };

    ghost view = { λ history. record {
      width = history.width;
      rows = pieces history.width (vec_len history.counts / history.width) history.counts.items;
      room = history.room;
    } };

    ghost invariant = { λ history. AreWholeRows history.width (vec_len history.counts)
        × (history.room * history.width ≤ vec_capacity history.counts - vec_len history.counts) };
}

/// Writes the join of two rows of the same length: the larger of each two counts.
pub(crate) fn join_rows(joined: &mut [u32], row: &[u32], other: &[u32])
    requires row { length row.now ≡ length joined.old }
    requires other { length other.now ≡ length joined.old }
    ensures { joined.new ≡ join row.now other.now }
{
    for at in 0..joined.len() {
        joined[at] = row[at].max(other[at]);
    }
}

impl ClockHistory {
    /// One row of so many zeros.
    pub(crate) fn new(alloc: Global, width: usize) -> Result<ClockHistory, AllocError>
        requires { 0 < width }
        ensures width { IfOk result (λ history. history.width ≡ width) }
        ensures rows { IfOk result (λ history. history.rows ≡ replicate width 0 ∷ []) }
    {
        Ok(ClockHistory {
            width,
            counts: vec![in alloc; 0u32; width]?,
            room: 0,
        })
    }

    /// How many rows there are.
    pub(crate) fn len(&self) -> usize
        ensures { result ≡ length self.now.rows }
    {
        self.counts.len() / self.width
    }

    /// The n-th row, from 0.
    pub(crate) fn row(&self, n: usize) -> &[u32]
        requires { n < length self.now.rows }
        ensures row { result.now ≡ slice_index_or self.now.rows n [] }
        ensures len { length result.now ≡ self.now.width }
    {
        let start = n * self.width;
        &self.counts[start..start + self.width]
    }

    /// The last row.
    pub(crate) fn last(&self) -> &[u32]
        ensures row { result.now ≡ last_row self.now.rows }
        ensures len { length result.now ≡ self.now.width }
    {
        &self.counts[self.counts.len() - self.width..]
    }

    /// Whether the n-th row, from 0, is the last one.
    pub(crate) fn is_last(&self, n: usize) -> bool
        requires { n < length self.now.rows }
        ensures { IsTrue result → slice_index_or self.now.rows n [] ≡ last_row self.now.rows }
    {
        n * self.width + self.width == self.counts.len()
    }

    /// Makes room for so many more rows.
    pub(crate) fn reserve(&mut self, more: usize) -> Result<(), AllocError>
        ensures width { self.new.width ≡ self.old.width }
        ensures same { self.new.rows ≡ self.old.rows }
        ensures grows { self.old.room ≤ self.new.room }
        ensures ok { OnOk result (more ≤ self.new.room) }
    {
        if more <= self.room {
            return Ok(());
        }
        let counts = more.checked_mul(self.width).ok_or(AllocError)?;
        self.counts.reserve(counts)?;
        self.room = more;
        Ok(())
    }

    /// Raises the row's count at `own` by one, and appends the row. It does not allocate.
    pub(crate) fn push(&mut self, own: usize, row: &mut [u32])
        requires room { 0 < self.old.room }
        requires len { length row.old ≡ self.old.width }
        requires own { own < self.old.width }
        requires fits { slice_index_or row.old own 0 < 4294967295 }
        ensures width { self.new.width ≡ self.old.width }
        ensures rows { self.new.rows ≡ self.old.rows ++ slice_set row.old own (slice_index_or row.old own 0 + 1) ∷ [] }
        ensures room { self.new.room ≡ self.old.room - 1 }
        ensures len { length row.new ≡ length row.old }
    {
        row[own] += 1;
        self.counts.extend_from_slice(row).unwrap();
        self.room -= 1;
    }

    /// Removes the last row, which must not be the first. It does not allocate.
    pub(crate) fn pop(&mut self)
        requires { 1 < length self.old.rows }
        ensures width { self.new.width ≡ self.old.width }
        ensures rows { self.new.rows ≡ take (length self.old.rows - 1) self.old.rows }
        ensures grows { self.old.room ≤ self.new.room }
    {
        let left = self.counts.len() - self.width;
        self.counts.truncate(left);
    }

    /// Copies the rows.
    pub(crate) fn copy(&self) -> Result<ClockHistory, AllocError>
        ensures width { IfOk result (λ history. history.width ≡ self.now.width) }
        ensures rows { IfOk result (λ history. history.rows ≡ self.now.rows) }
    {
        Ok(ClockHistory {
            width: self.width,
            counts: self.counts.clone()?,
            room: 0,
        })
    }
}
