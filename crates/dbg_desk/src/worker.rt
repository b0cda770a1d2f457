//! A worker of a crew.

ghost use Rattle.std.specs.Prelude.{◌≡◌, ◌<◌, ◌≤◌, None, length, map, take, drop};
ghost use Rattle.std.specs.List.{AllByRecursion};
ghost use Rattle.dbg_desk.specs.Crews.{Gives, Works};

use crate::desk::Desk;
use crate::run::Run;
use crate::seat::Seat;
use dbg_base::{Gate, OpenGate};
use dbg_command::Command;
use std::alloc::Global;
use std::collections::VecDeque;
use std::marker::Model;
use std::sync::Wait;
use std::thread::Threads;

/// A seat, and the commands that a worker has to give for it, in order. Contracts see these, and the turn from which a gate barred the
/// worker, if one did.
#[derive(Drop)]
pub struct Worker<L: Run, C: Command> {
    seat: Seat<L>,
    orders: VecDeque<C>,
    pub(crate) barred: Option<u32>,
}

impl<L: Run, C: Command> Model for Worker<L, C> {
    ghost use Rattle.std.specs.Prelude.{map};
    ghost use Rattle.std.specs.Coded.{codes};
    ghost use Rattle.least_cut.specs.TreeCodes.{coded_tree};
    ghost use Rattle.dbg_board.specs.contracts.glance.Glance as glance_row;
    ghost use Rattle.dbg_desk.specs.Crews.{WorkerState, AreOrders};

    ghost Value = { WorkerState };

    ghost coded = { Prim.hlevel (codes, coded_tree, glance_row.the_row.coded) };

    ghost view = { λ worker. record { seat = worker.seat; orders = map C.order worker.orders.items; barred = worker.barred } };

    ghost invariant = { λ worker. AreOrders C.IsFresh worker.orders.items };
}

// The seat gives the first of these orders, whatever the answer is.
fn give_first<L: Run, C: Command, R: Threads + Wait + Sync>(
    rt: &R,
    alloc: Global,
    desk: &Desk<L, C>,
    seat: &mut Seat<L>,
    orders: &mut VecDeque<C>,
)
    requires fresh { AllByRecursion C.IsFresh orders.old.items }
    ensures fresh { AllByRecursion C.IsFresh orders.new.items }
    ensures left { orders.new.items ≡ drop 1 orders.old.items }
    ensures gives { Gives seat.old (map C.order (take 1 orders.old.items)) seat.new }
{
    if let Some(command) = orders.pop_front() {
        let _answer = desk.call(rt, alloc, seat, command, &OpenGate);
    }
}

impl<L: Run, C: Command> Worker<L, C> {
    /// A worker with these commands to give, none of which was applied yet. It does not allocate.
    pub fn new(seat: Seat<L>, orders: VecDeque<C>) -> Worker<L, C>
        requires fresh { AllByRecursion C.IsFresh orders.items }
        requires few { length orders.items ≤ 4294967295 }
        ensures seat { result.seat ≡ seat }
        ensures orders { result.orders ≡ map C.order orders.items }
        ensures begun { result.barred ≡ None }
    {
        Worker {
            seat,
            orders,
            barred: None,
        }
    }

    /// The seat. It does not allocate.
    pub fn seat(&self) -> &Seat<L>
        ensures { result.now ≡ self.now.seat }
    {
        &self.seat
    }

    /// The seat, without the commands that are left. It does not allocate.
    pub fn into_seat(self) -> Seat<L>
        ensures { result ≡ self.seat }
    {
        let Worker { seat, .. } = self;
        seat
    }

    // Gives the commands one after the other, and calls the gate before and after each. If the gate bars the worker, the turn is noted, and
    // the other commands are left.
    pub(crate) fn work<R: Threads + Wait + Sync, G: Gate>(
        &mut self,
        rt: &R,
        alloc: Global,
        desk: &Desk<L, C>,
        number: u32,
        gate: &G,
    )
        ensures { Works (G.may_bar gate.now number) self.old self.new }
    {
        let Worker {
            seat,
            orders,
            barred,
        } = self;
        *barred = None;
        for turn in 0..orders.len() as u32 {
            if !gate.may_start(number, turn) {
                *barred = Some(turn);
                return;
            }
            give_first(rt, alloc, desk, seat, orders);
            gate.answered(number, turn);
        }
    }
}
