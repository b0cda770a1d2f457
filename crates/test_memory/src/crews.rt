//! Workers at a desk.

ghost use Rattle.std.specs.Prelude.{◌≤◌, length, IfOk};
ghost use Rattle.std.specs.List.{AllByRecursion};
ghost use Rattle.dbg_desk.specs.Openings.{IsOpeningOf};

use crate::beginning::{ThreeSeats, begin};
use crate::report::tell;
use dbg_base::{OpenGate, Pid, Refusal};
use dbg_command::{Command, NextCmd};
use dbg_desk::{Closing, Desk, Run, Seat, Worker, crew};
use std::alloc::{AllocError, Global};
use std::collections::VecDeque;
use std::marker::Brand;
use std::sync::Wait;
use std::thread::Threads;
use test_programs::TWO;

// How often each of the three workers gives `next`.
const TURNS: u32 = 4;

// How many calls these are.
const CALLS: usize = 12;

// `next` for this process, so many times.
fn turns(alloc: Global, pid: Pid) -> Result<VecDeque<NextCmd>, AllocError>
    ensures { IfOk result (λ orders. AllByRecursion ⟦<NextCmd as Command>⟧.IsFresh orders.items × (length orders.items ≤ TURNS)) }
{
    let mut orders = VecDeque::new(alloc);
    for _ in 0..TURNS {
        orders.push_back(NextCmd::new(pid))?;
    }
    Ok(orders)
}

// A worker for each seat: two for the first process, one for the second.
fn make_workers<L: Run>(
    alloc: Global,
    seats: Vec<Seat<L>>,
) -> Result<Vec<Worker<L, NextCmd>>, AllocError> {
    let mut workers = Vec::new(alloc);
    for seat in seats {
        let pid = Pid(seat.number() % 2);
        workers.push(Worker::new(seat, turns(alloc, pid)?))?;
    }
    Ok(workers)
}

// How many calls the seats of these workers have of their own, or 0 if the journal does not have exactly these calls.
fn settled<L: Run, R: Wait>(
    rt: &R,
    desk: &Desk<L, NextCmd>,
    workers: Vec<Worker<L, NextCmd>>,
    seats: Vec<Seat<L>>,
) -> Result<usize, Refusal> {
    let mut seats = seats;
    let mut calls = 0usize;
    for worker in workers {
        let seat = worker.into_seat();
        calls = calls.saturating_add(seat.own_calls().len());
        seats.push(seat)?;
    }
    if desk.settle(rt, seats.as_slice()) == Ok(Closing { calls }) {
        Ok(calls)
    } else {
        Ok(0)
    }
}

// The workers give their commands. Returns how many calls were entered. It is refused before the first command, or not at all.
fn work<L: Run + Send + Sync, R: Threads + Wait + Sync>(
    rt: &R,
    alloc: Global,
    beginning: ThreeSeats,
) -> Result<usize, Refusal>
    requires run { IsOpeningOf L.program L.board L.name L.parts L.seats beginning.opening }
{
    let (desk, seats) = beginning.opening.desk::<L, NextCmd>(alloc)?;
    let mut workers = make_workers(alloc, seats)?;
    let mut back = Vec::new(alloc);
    back.reserve(3)?;
    match crew(rt, alloc, &desk, workers.as_mut_slice(), &OpenGate) {
        Ok(()) => settled(rt, &desk, workers, back),
        Err(_) => Ok(0),
    }
}

fn begin_and_work<R: Threads + Wait + Sync>(rt: &R, alloc: Global) -> Result<usize, Refusal> {
    let beginning = begin(alloc, TWO)?;
    work::<Brand, R>(rt, alloc, beginning)
}

/// Lets workers give their commands, and reports how many calls were entered. If memory runs out before the first command, or if one call
/// is missing, it starts again.
pub(crate) fn tell_crew<R: Threads + Wait + Sync>(rt: &R, alloc: Global, report: &mut Vec<u8>) {
    let mut calls = begin_and_work(rt, alloc);
    if calls == Err(Refusal::Memory) || calls == Ok(CALLS - 1) {
        calls = begin_and_work(rt, alloc);
    }
    tell("crew", &calls, report);
}
