//! Workers at one desk.

ghost use Rattle.std.specs.Prelude.{◌≤◌, length, IfOk};
ghost use Rattle.std.specs.List.{AllByRecursion};
ghost use Rattle.dbg_desk.specs.Openings.{IsOpeningOf};

use crate::crew::crew_gate::{BarringGate, CrewGate};
use crate::crew::desk_trial::make_opening;
use crate::expecting::{expect_same, expect_true};
use dbg_base::{Gate, OpenGate, Pid};
use dbg_command::{Command, NextCmd};
use dbg_desk::{Closing, CrewFault, Desk, Opening, Run, Seat, Worker, crew};
use std::alloc::{AllocError, Global};
use std::collections::VecDeque;
use std::marker::Brand;
use std::process::Abort;
use std::sync::Wait;
use std::thread::Threads;
use test_programs::MEMORY;

// So many commands, each of which is `next` for this process.
fn turns(alloc: Global, pid: Pid, count: u32) -> Result<VecDeque<NextCmd>, AllocError>
    ensures { IfOk result (λ orders. AllByRecursion ⟦<NextCmd as Command>⟧.IsFresh orders.items × (length orders.items ≤ count)) }
{
    let mut orders = VecDeque::new(alloc);
    for _ in 0..count {
        orders.push_back(NextCmd::new(pid))?;
    }
    Ok(orders)
}

// A worker for each seat, which gives `next` so many times for the process with the seat's position.
fn make_workers<L: Run>(
    rt: &impl Abort,
    alloc: Global,
    seats: Vec<Seat<L>>,
    count: u32,
) -> Vec<Worker<L, NextCmd>> {
    let mut workers = Vec::new(alloc);
    let mut process = 0;
    for seat in seats {
        let orders = turns(alloc, Pid(process), count).expect(rt, MEMORY);
        workers.push(Worker::new(seat, orders)).expect(rt, MEMORY);
        process = process.saturating_add(1);
    }
    workers
}

// The seats of these workers.
fn seats_of<L: Run>(
    rt: &impl Abort,
    alloc: Global,
    workers: Vec<Worker<L, NextCmd>>,
) -> Vec<Seat<L>> {
    let mut seats = Vec::new(alloc);
    for worker in workers {
        seats.push(worker.into_seat()).expect(rt, MEMORY);
    }
    seats
}

// Expects each seat to have so many calls, and the desk all of them.
fn expect_settled<L: Run, R: Threads + Wait + Abort + Sync>(
    rt: &R,
    desk: &Desk<L, NextCmd>,
    seats: &[Seat<L>],
    lengths: [usize; 3],
) {
    let mut calls = 0usize;
    for (seat, length) in seats.iter().zip(lengths) {
        expect_same(rt, seat.own_calls().len(), length);
        calls = calls.saturating_add(length);
    }
    expect_same(rt, desk.settle(rt, seats), Ok(Closing { calls }));
}

// Expects a crew of three workers, with this gate, to have this fault and so many calls, and each seat so many.
fn expect_crew<L: Run + Send + Sync, G: Gate, R: Threads + Wait + Abort + Sync>(
    rt: &R,
    alloc: Global,
    opening: Opening,
    gate: &G,
    count: u32,
    wanted: (Result<(), CrewFault>, [usize; 3]),
)
    requires { IsOpeningOf L.program L.board L.name L.parts L.seats opening }
{
    let (desk, seats) = opening.desk::<L, NextCmd>(alloc).expect(rt, "a desk");
    let mut workers = make_workers(rt, alloc, seats, count);
    let ended = crew(rt, alloc, &desk, workers.as_mut_slice(), gate);
    let (fault, lengths) = wanted;
    expect_same(rt, ended, fault);
    let seats = seats_of(rt, alloc, workers);
    expect_settled(rt, &desk, seats.as_slice(), lengths);
    drop(seats);
    drop(desk);
}

// Expects it at a new desk, where each worker has so many commands.
fn expect_ended<G: Gate, R: Threads + Wait + Abort + Sync>(
    rt: &R,
    alloc: Global,
    gate: &G,
    count: u32,
    wanted: (Result<(), CrewFault>, [usize; 3]),
) {
    let opening = make_opening(rt, alloc, 3);
    expect_crew::<Brand, G, R>(rt, alloc, opening, gate, count, wanted);
}

#[test]
fn a_crew_gives_all_its_commands(rt: HostRuntime) {
    expect_ended(&rt, rt.alloc(), &OpenGate, 50, (Ok(()), [50; 3]));
}

#[test]
fn a_barred_worker_stops(rt: HostRuntime) {
    let gate = BarringGate { worker: 1, turn: 0 };
    let fault = CrewFault::Gate { worker: 1, turn: 0 };
    expect_ended(&rt, rt.alloc(), &gate, 2, (Err(fault), [2, 0, 2]));
}

#[test]
fn crew_meets(rt: HostRuntime) {
    let gate = CrewGate::new();
    expect_ended(&rt, rt.alloc(), &gate, 2, (Ok(()), [2; 3]));
    expect_true(&rt, gate.all_passed());
}
