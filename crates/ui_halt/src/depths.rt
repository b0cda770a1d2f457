//! How deep the marks of a cut are: the length of the longest chain of marks that ends with each.

use causal_world::World;
use dbg_base::{Cut, Pid};
use event_rows::{Event, Exchange};
use std::alloc::{AllocError, Global};
use ui_view::sending;

/// The marks of a process in a cut: the numbers of their first events, and the depths of these marks that are found.
#[derive(Drop)]
pub struct MarkRow {
    pub count: u32,
    pub starts: Vec<u32>,
    pub depths: Vec<u32>,
}

// How many of these numbers, which ascend, are at most a bound.
fn count_up_to(numbers: &[u32], bound: u32) -> usize {
    let mut from = 0usize;
    let mut to = numbers.len();
    // Each turn halves what is left.
    for _ in 0..usize::BITS {
        if from >= to {
            break;
        }
        let middle = from.saturating_add(to.saturating_sub(from) / 2);
        if numbers.get(middle).is_some_and(|number| *number <= bound) {
            from = middle.saturating_add(1);
        } else {
            to = middle;
        }
    }
    to
}

impl MarkRow {
    /// The last event of the mark of this number, from 0.
    pub fn last_of(&self, mark: usize) -> u32 {
        match self.starts.get(mark.saturating_add(1)) {
            Some(next) => next.saturating_sub(1),
            None => self.count,
        }
    }

    /// The number, from 0, of the mark that has this event.
    pub fn mark_of(&self, event: u32) -> Option<usize> {
        count_up_to(self.starts.as_slice(), event).checked_sub(1)
    }

    /// How many marks are less deep than this.
    pub fn marks_before(&self, depth: u32) -> usize {
        count_up_to(self.depths.as_slice(), depth.saturating_sub(1))
    }

    /// The mark of this depth, by its number from 0.
    pub fn mark_at(&self, depth: u32) -> Option<usize> {
        let at = count_up_to(self.depths.as_slice(), depth).checked_sub(1)?;
        match self.depths.get(at) {
            Some(own) if *own == depth => Some(at),
            _ => None,
        }
    }

    /// The greatest depth.
    pub fn deepest(&self) -> u32 {
        self.depths.last().copied().unwrap_or(0)
    }
}

// The depth of the next mark of a process, if those of the marks before it are found.
fn next_depth(world: &World, rows: &[MarkRow], pid: Pid) -> Option<u32> {
    let row = rows.get(pid.0 as usize)?;
    let first = row.starts.get(row.depths.len())?;
    let event = world
        .rows()
        .event(pid, (*first as usize).saturating_sub(1))?;
    let before = row.deepest();
    let Exchange::Took { source, count, .. } = event.exchange() else {
        return Some(before.saturating_add(1));
    };
    let senders = rows.get(source.0 as usize)?;
    let sender = senders.mark_of(sending(world, source, pid, count))?;
    let depth = senders.depths.get(sender)?;
    Some(before.max(*depth).saturating_add(1))
}

// Finds the depths of the next marks of a process, as far as it can. Returns whether it found one.
fn advance(world: &World, rows: &mut [MarkRow], pid: Pid) -> Result<bool, AllocError> {
    let mut any = false;
    for _ in 0..world.place(pid) {
        let Some(depth) = next_depth(world, rows, pid) else {
            break;
        };
        if let Some(row) = rows.get_mut(pid.0 as usize) {
            row.depths.push(depth)?;
            any = true;
        }
    }
    Ok(any)
}

// Finds the depths of the next marks of all processes, as far as it can in one turn. Returns whether it found one.
fn advance_all(world: &World, rows: &mut [MarkRow]) -> Result<bool, AllocError> {
    let mut any = false;
    for p in 0..world.tally().processes() {
        any = advance(world, rows, Pid(p))? || any;
    }
    Ok(any)
}

/// Finds the depths of all marks. A message comes into a mark only at its first event, so there is a mark whose depth can be found next.
pub(crate) fn find_depths(
    world: &World,
    rows: &mut [MarkRow],
    marks: usize,
) -> Result<(), AllocError> {
    for _ in 0..marks {
        if !advance_all(world, rows)? {
            break;
        }
    }
    Ok(())
}

/// A row for each process, without depths, of these marks.
pub(crate) fn new_row(alloc: Global, cut: &Cut, pid: Pid, starts: Vec<u32>) -> MarkRow {
    MarkRow {
        count: cut.count(pid),
        starts,
        depths: Vec::new(alloc),
    }
}
