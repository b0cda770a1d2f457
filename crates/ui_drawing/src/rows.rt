//! The rows of the events of a drawing, by their causal depth.

use crate::layout::{at, raise};
use crate::sheet::Scene;
use dbg_base::Pid;
use std::alloc::AllocError;
use ui_timeline::ShownEvent;

/// The row of each event, from 1: below the event of its process before it, and below the event that sent what it received.
#[derive(Drop)]
pub(crate) struct RowNumbers {
    // In the order of the events, with those of the processes that are not shown.
    rows: Vec<i64>,
    // How many events are left out before them.
    left: usize,
    last: i64,
}

/// So many zeros.
pub(crate) fn zeros(scene: Scene<'_>, count: usize) -> Result<Vec<i64>, AllocError> {
    let mut zeros = Vec::new(scene.alloc);
    for _ in 0..count {
        zeros.push(0i64)?;
    }
    Ok(zeros)
}

impl RowNumbers {
    /// The rows of the events that a scene shows, each so many rows lower than its causal depth asks for.
    pub(crate) fn of(scene: Scene<'_>, falls: &[i64]) -> Result<RowNumbers, AllocError> {
        let mut rows = RowNumbers {
            rows: Vec::new(scene.alloc),
            left: scene.left,
            last: 0,
        };
        let mut latest = zeros(scene, scene.processes() as usize)?;
        let mut falls = falls.iter();
        for shown in scene.timeline.last_events(scene.left) {
            let own = shown.pid.0 as usize;
            let above = at(latest.as_slice(), own).max(rows.sender_row(scene, *shown));
            // An event that is not shown needs no row, but what depends on it is below what it depends on.
            let row = if scene.selection.contains(shown.pid) {
                let fall = falls.next().copied().unwrap_or(0);
                above.saturating_add(1).saturating_add(fall)
            } else {
                above
            };
            raise(latest.as_mut_slice(), own, row);
            rows.rows.push(row)?;
            rows.last = rows.last.max(row);
        }
        Ok(rows)
    }

    // The row of the event that sent what an event received, or 0.
    fn sender_row(&self, scene: Scene<'_>, shown: ShownEvent) -> i64 {
        match scene.timeline.received_by(scene.view.session.world, shown) {
            Some(received) => self.row(scene, received.source, received.sender),
            None => 0,
        }
    }

    /// The row of the n-th event of a process, or 0 if it is not shown.
    pub(crate) fn row(&self, scene: Scene<'_>, pid: Pid, number: u32) -> i64 {
        match scene.timeline.row(pid, number) {
            Some(place) => match (place as usize).checked_sub(self.left) {
                Some(place) => at(self.rows.as_slice(), place),
                None => 0,
            },
            None => 0,
        }
    }

    /// The last row that has an event, or 0.
    pub(crate) fn last(&self) -> i64 {
        self.last
    }
}
