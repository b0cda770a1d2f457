//! The commands that workers have to give.

ghost use Rattle.std.specs.Prelude.{◌≡◌, ◌++◌, ◌*◌, ◌≤◌, map, IfOk, IfErr, OnOk};
ghost use Rattle.std.specs.List.{AllByRecursion};
ghost use Rattle.dbg_base.specs.declared.refusal.Refusal.TheVariants.{Memory};
ghost use Rattle.dbg_base.specs.declared.limits.TheConstants.{CALLS, SEATS};
ghost use Rattle.dbg_desk.specs.Desks.{new_seats};
ghost use Rattle.dbg_shell.specs.Crewing.{IsNextMaker, round_of, rounds_of, new_workers};

use dbg_base::limits::SEATS;
use dbg_base::{Pid, Refusal};
use dbg_command::Command;
use dbg_desk::{Run, Seat, Worker};
use std::alloc::Global;
use std::collections::VecDeque;

// Adds `next` for each process of the worker.
fn add_round<C: Command, M: Fn(Pid) -> Result<C, Refusal>>(
    make: &M,
    orders: &mut VecDeque<C>,
    worker: u32,
    processes: u32,
) -> Result<(), Refusal>
    requires may { M.IsAlwaysCallable make.now }
    requires makes { IsNextMaker (M.post make.now) C.IsFresh C.order }
    requires fresh { AllByRecursion C.IsFresh orders.old.items }
    ensures fresh { OnOk result (AllByRecursion C.IsFresh orders.new.items) }
    ensures orders { OnOk result (map C.order orders.new.items ≡ map C.order orders.old.items ++ round_of worker processes) }
    ensures refuses { IfErr result (λ refusal. refusal ≡ Memory) }
{
    for p in 0..processes {
        if p % SEATS == worker {
            orders.push_back(make(Pid(p))?)?;
        }
    }
    Ok(())
}

// `next` for each process of the worker, in so many rounds.
fn orders<C: Command, M: Fn(Pid) -> Result<C, Refusal>>(
    alloc: Global,
    make: &M,
    worker: u32,
    processes: u32,
    turns: u32,
) -> Result<VecDeque<C>, Refusal>
    requires may { M.IsAlwaysCallable make.now }
    requires makes { IsNextMaker (M.post make.now) C.IsFresh C.order }
    ensures fresh { IfOk result (λ orders. AllByRecursion C.IsFresh orders.items) }
    ensures orders { IfOk result (λ orders. map C.order orders.items ≡ rounds_of worker processes turns) }
    ensures refuses { IfErr result (λ refusal. refusal ≡ Memory) }
{
    let mut orders = VecDeque::new(alloc);
    for _ in 0..turns {
        add_round(make, &mut orders, worker, processes)?;
    }
    Ok(orders)
}

/// A worker for each of these seats, with so many rounds to give. Error: `Memory`, if an allocation fails.
pub(crate) fn workers<L: Run, C: Command, M: Fn(Pid) -> Result<C, Refusal>>(
    alloc: Global,
    make: &M,
    seats: Vec<Seat<L>>,
    processes: u32,
    turns: u32,
) -> Result<Vec<Worker<L, C>>, Refusal>
    requires may { M.IsAlwaysCallable make.now }
    requires makes { IsNextMaker (M.post make.now) C.IsFresh C.order }
    requires seats { seats.items ≡ new_seats L.seats }
    requires all { L.seats ≤ SEATS }
    requires few { turns * processes ≤ CALLS }
    ensures workers { IfOk result (λ workers. workers.items ≡ new_workers processes turns L.seats) }
    ensures refuses { IfErr result (λ refusal. refusal ≡ Memory) }
{
    let mut workers = Vec::new(alloc);
    let mut number = 0;
    for seat in seats {
        let orders = orders(alloc, make, number, processes, turns)?;
        workers.push(Worker::new(seat, orders))?;
        number += 1;
    }
    Ok(workers)
}

/// The seats of these workers.
pub(crate) fn seats_of<L: Run, C: Command>(
    alloc: Global,
    workers: Vec<Worker<L, C>>,
) -> Result<Vec<Seat<L>>, Refusal>
    ensures seats { IfOk result (λ seats. seats.items ≡ map (λ worker. worker.seat) workers.items) }
    ensures refuses { IfErr result (λ refusal. refusal ≡ Memory) }
{
    let mut seats = Vec::new(alloc);
    for worker in workers {
        seats.push(worker.into_seat())?;
    }
    Ok(seats)
}
