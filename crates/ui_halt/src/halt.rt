//! What a halt shows.

use crate::crossing::{Crossing, crossings};
use crate::depths::{MarkRow, find_depths, new_row};
use crate::marks::mark_starts;
use crate::order::ordered;
use crate::part::{PartInCut, find_part};
use causal_world::World;
use dbg_base::{Cut, Pid};
use least_cut::Detector;
use std::alloc::{AllocError, Global};

// At most this many events are put into marks.
const EVENTS: u32 = 50_000;

/// What a halt shows of a cut: the parts of the predicate, the processes in order with the marks of their events, and the messages on their
/// way. A mark has no depth if the cut has many events.
#[derive(Drop)]
pub struct Halt {
    pub parts: Vec<PartInCut>,
    pub order: Vec<Pid>,
    /// A row for each process, by its number.
    pub rows: Vec<MarkRow>,
    pub crossings: Vec<Crossing>,
}

// The parts of a predicate in its cut.
fn parts_of(
    alloc: Global,
    world: &World,
    detector: &Detector,
    cut: &Cut,
) -> Result<Vec<PartInCut>, AllocError> {
    let mut parts = Vec::new(alloc);
    for at in 0..world.tally().processes() {
        let Some((pid, expr)) = detector.conjunct(at as usize) else {
            break;
        };
        if let Some(part) = find_part(alloc, world, cut, pid, expr)? {
            parts.push(part)?;
        }
    }
    Ok(parts)
}

// The processes of the parts.
fn processes_of(alloc: Global, parts: &[PartInCut]) -> Result<Vec<Pid>, AllocError> {
    let mut pids = Vec::new(alloc);
    for part in parts {
        pids.push(part.pid)?;
    }
    Ok(pids)
}

// Where the part of a process is true, if it has one.
fn truths_of(parts: &[PartInCut], pid: Pid) -> &[bool] {
    match parts.iter().find(|part| part.pid == pid) {
        Some(part) => part.truths.as_slice(),
        None => &[],
    }
}

// The marks of each process, without depths.
fn rows_of(
    alloc: Global,
    world: &World,
    cut: &Cut,
    parts: &[PartInCut],
) -> Result<Vec<MarkRow>, AllocError> {
    let mut rows = Vec::new(alloc);
    for p in 0..world.tally().processes() {
        let pid = Pid(p);
        let truths = truths_of(parts, pid);
        let starts = mark_starts(alloc, world.rows(), pid, truths, cut.count(pid))?;
        rows.push(new_row(alloc, cut, pid, starts))?;
    }
    Ok(rows)
}

impl Halt {
    /// What the halt at the cut of this search shows. Error: memory ran out.
    pub fn of(
        alloc: Global,
        world: &World,
        detector: &Detector,
        cut: &Cut,
    ) -> Result<Halt, AllocError> {
        let parts = parts_of(alloc, world, detector, cut)?;
        let pids = processes_of(alloc, parts.as_slice())?;
        let order = ordered(alloc, world, cut, pids.as_slice())?;
        let mut rows = rows_of(alloc, world, cut, parts.as_slice())?;
        let marks = rows
            .iter()
            .fold(0usize, |sum, row| sum.saturating_add(row.starts.len()));
        if marks <= EVENTS as usize {
            find_depths(world, rows.as_mut_slice(), marks)?;
        }
        let crossings = crossings(alloc, world, cut)?;
        Ok(Halt {
            parts,
            order,
            rows,
            crossings,
        })
    }

    /// The part that a process has in the predicate.
    pub fn part(&self, pid: Pid) -> Option<&PartInCut> {
        self.parts.iter().find(|part| part.pid == pid)
    }

    /// The marks of a process.
    pub fn row(&self, pid: Pid) -> Option<&MarkRow> {
        self.rows.get(pid.0 as usize)
    }

    /// Whether a process is shown: it has a part, an event in the cut, or a message on its way to it.
    pub fn is_shown(&self, pid: Pid) -> bool {
        self.part(pid).is_some()
            || self.row(pid).is_some_and(|row| row.count > 0)
            || self.crossings.iter().any(|channel| channel.target == pid)
    }
}
