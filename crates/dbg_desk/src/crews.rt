//! Workers that give their commands at once, each in its own thread.

ghost use Rattle.std.specs.Prelude.{◌≡◌, ℕ, ◌<◌, length, slice_index_or, OnOk, IfErr};
ghost use Rattle.dbg_desk.specs.Crews.{WorkerState, Works, worker_number, NoneBarred, IsFirstBarred, MayBarAt};

use crate::desk::Desk;
use crate::run::Run;
use crate::worker::Worker;
use dbg_base::Gate;
use dbg_command::Command;
use std::alloc::Global;
use std::sync::Wait;
use std::thread;
use std::thread::Threads;

/// Why not all commands of a crew were given.
#[derive(Clone, Copy, Debug, PartialEq, Eq)]
pub enum CrewFault {
    /// The gate barred this worker from this turn on. It is the first worker that was barred.
    Gate { worker: u32, turn: u32 },
}

// The number by which a gate knows the worker at this position.
fn number_of(place: usize) -> u32
    ensures { result ≡ worker_number place }
{
    u32::try_from(place).unwrap_or(u32::MAX)
}

// The first worker that was barred, if one was.
fn first_barred<L: Run, C: Command>(workers: &[Worker<L, C>]) -> Result<(), CrewFault>
    ensures all { OnOk result (NoneBarred workers.now) }
    ensures first { IfErr result (IsFirstBarred workers.now) }
{
    for (place, worker) in workers.iter().enumerate() {
        if let Some(turn) = worker.barred {
            return Err(CrewFault::Gate {
                worker: number_of(place),
                turn,
            });
        }
    }
    Ok(())
}

// Each worker gives its commands one after the other, in its own thread if one can be made.
fn work_each<L: Run + Send + Sync, C: Command, R: Threads + Wait + Sync, G: Gate>(
    rt: &R,
    alloc: Global,
    desk: &Desk<L, C>,
    workers: &mut [Worker<L, C>],
    gate: &G,
)
    ensures works { (place : ℕ) (d : WorkerState) → place < length workers.old → Works (G.may_bar gate.now (worker_number place))
        (slice_index_or workers.old place d) (slice_index_or workers.new place d) }
    ensures length { length workers.new ≡ length workers.old }
{
    if workers.is_empty() {
        return;
    }
    let work = |place: usize, worker: &mut Worker<L, C>|
        ensures { Works (G.may_bar gate.entry.now (worker_number place)) worker.entry.now worker.exit.now }
    { worker.work(rt, alloc, desk, number_of(place), gate) };
    thread::for_each_mut(rt, workers, workers.len(), &work);
}

/// Each worker gives its commands one after the other, in its own thread if one can be made. It calls the gate before and after each turn.
/// The turn is the position of the command in this call, from 0. If the gate bars the worker, the worker stops, and keeps that command and
/// the ones after it. A refused command is not a fault. Error: `CrewFault::Gate` with the first worker that was barred.
pub fn crew<L: Run + Send + Sync, C: Command, R: Threads + Wait + Sync, G: Gate>(
    rt: &R,
    alloc: Global,
    desk: &Desk<L, C>,
    workers: &mut [Worker<L, C>],
    gate: &G,
) -> Result<(), CrewFault>
    ensures works { (place : ℕ) (d : WorkerState) → place < length workers.old → Works (G.may_bar gate.now (worker_number place))
        (slice_index_or workers.old place d) (slice_index_or workers.new place d) }
    ensures all { OnOk result (NoneBarred workers.new) }
    ensures first { IfErr result (IsFirstBarred workers.new) }
    ensures bars { IfErr result (MayBarAt (G.may_bar gate.now)) }
{
    work_each(rt, alloc, desk, workers, gate);
    first_barred(workers)
}
