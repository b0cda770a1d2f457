//! The eliminations of a search that a page has.

use dbg_base::{Elimination, Pid};
use std::alloc::{AllocError, Global};

/// Eliminations, and the candidates to which they lead.
#[derive(Drop)]
pub(super) struct Trail {
    steps: Vec<Elimination>,
    candidates: Vec<u32>,
}

impl Trail {
    /// No elimination, among so many processes.
    pub(super) fn new(alloc: Global, processes: u32) -> Result<Trail, AllocError> {
        let mut candidates = Vec::new(alloc);
        for _ in 0..processes {
            candidates.push(0)?;
        }
        Ok(Trail {
            steps: Vec::new(alloc),
            candidates,
        })
    }

    pub(super) fn len(&self) -> usize {
        self.steps.len()
    }

    fn candidate(&self, pid: Pid) -> u32 {
        self.candidates.get(pid.0 as usize).copied().unwrap_or(0)
    }

    fn set(&mut self, pid: Pid, count: u32) {
        if let Some(candidate) = self.candidates.get_mut(pid.0 as usize) {
            *candidate = count;
        }
    }

    /// Appends these eliminations.
    pub(super) fn extend(&mut self, more: &[Elimination]) -> Result<(), AllocError> {
        for step in more {
            self.steps.push(*step)?;
            self.set(step.pid, step.to);
        }
        Ok(())
    }

    fn drop_last(&mut self) {
        if let Some(step) = self.steps.pop() {
            self.set(step.pid, step.from);
        }
    }

    /// Drops the last ones, until so many are left.
    pub(super) fn truncate(&mut self, len: usize) {
        for _ in len..self.steps.len() {
            self.drop_last();
        }
    }

    /// Drops the last ones, until the candidate of the process is at most this.
    pub(super) fn drop_to(&mut self, pid: Pid, limit: u32) {
        for _ in 0..self.steps.len() {
            if self.candidate(pid) <= limit {
                return;
            }
            self.drop_last();
        }
    }

    /// Whether these eliminations are a prefix of those, if they differ at most by further ones at the end. So it compares the last one
    /// only.
    pub(super) fn is_first_of(&self, steps: &[Elimination]) -> bool {
        match self.steps.len().checked_sub(1) {
            Some(last) => self.steps.get(last) == steps.get(last),
            None => true,
        }
    }

    /// How many eliminations the two have in common, from the first one on.
    pub(super) fn common(&self, steps: &[Elimination]) -> usize {
        self.steps
            .iter()
            .zip(steps)
            .take_while(|(one, other)| one == other)
            .count()
    }
}
