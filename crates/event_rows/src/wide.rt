//! Where several expressions are true. Each is evaluated in a thread of its own.

ghost use Rattle.std.specs.Prelude.{◌≡◌, ℕ, ◌<◌, length, IfOk, slice_index_or, vec_len};
ghost use Rattle.event_rows.specs.Truths.{list_in, lists_in, IsMade, IsMadeAt};

use crate::rows::Rows;
use dbg_base::{Expr, Gate, Pid, Sequence};
use std::alloc::{AllocError, Global};
use std::sync::Wait;
use std::thread;
use std::thread::Threads;

// A list that a worker has made, or None if the worker did not start.
type Made = Option<Result<Sequence<bool>, AllocError>>;

impl Rows {
    // Makes the list at this position, if the gate lets its worker start. A position that is no worker's number is left to the caller.
    fn truths_after<G: Gate>(
        &self,
        alloc: Global,
        named: &[(Pid, &Expr)],
        place: usize,
        gate: &G,
    ) -> Made
        requires { place < length named.now }
        ensures { IsMadeAt (lists_in self.now named.now) place result }
    {
        let Ok(worker) = u32::try_from(place) else {
            return None;
        };
        if !gate.may_start(worker, 0) {
            return None;
        }
        let (pid, expr) = named[place];
        let made = self.truths(alloc, pid, expr);
        gate.answered(worker, 0);
        Some(made)
    }

    // The list that was made. If there is none, it is made here.
    fn list_or(
        &self,
        alloc: Global,
        named: &(Pid, &Expr),
        made: Made,
    ) -> Result<Sequence<bool>, AllocError>
        requires { IsMade (list_in self.now named.now) made }
        ensures { IfOk result (λ list. list ≡ list_in self.now named.now) }
    {
        let (pid, expr) = *named;
        match made {
            Some(list) => list,
            None => self.truths(alloc, pid, expr),
        }
    }

    // The lists, in order: those that were made, and the others, which are made here.
    fn gathered(
        &self,
        alloc: Global,
        named: &[(Pid, &Expr)],
        made: Vec<Made>,
    ) -> Result<Vec<Sequence<bool>>, AllocError>
        requires len { vec_len made ≡ length named.now }
        requires each { (place : ℕ) (d : _) → place < length named.now
            → IsMadeAt (lists_in self.now named.now) place (slice_index_or made.items place d) }
        ensures { IfOk result (λ lists. lists.items ≡ lists_in self.now named.now) }
    {
        let mut lists = Vec::new(alloc);
        let mut made = made.into_iter();
        for one in named {
            let list = self.list_or(alloc, one, made.next().flatten())?;
            lists.push(list)?;
        }
        Ok(lists)
    }

    /// The result of `truths` for each of these pairs of a process and an expression, in order. Each list has a worker of its own, in a
    /// thread if one can be made. The worker of the i-th list, from 0, calls the gate before and after its turn 0. A list whose worker the
    /// gate bars is made after all workers have ended, so the lists do not depend on the gate. Error: out of memory.
    pub fn truths_par<R: Threads + Wait + Sync, G: Gate>(
        &self,
        rt: &R,
        alloc: Global,
        named: &[(Pid, &Expr)],
        gate: &G,
    ) -> Result<Vec<Sequence<bool>>, AllocError>
        ensures { IfOk result (λ lists. lists.items ≡ lists_in self.now named.now) }
    {
        let make = |place: usize| -> Made
            requires { place < length named.now }
            ensures { IsMadeAt (lists_in self.entry.now named.entry.now) place result }
        { self.truths_after(alloc, named, place, gate) };
        let made = thread::map_indices(rt, alloc, named.len(), &make)?;
        self.gathered(alloc, named, made)
    }
}
