//! A breakpoint that is set at a desk: several threads make its scan.

ghost use Rattle.test_engine.specs.Runs.{MakesFresh};
ghost use Rattle.dbg_desk.specs.Openings.{IsOpeningOf};

use crate::crew::crew_gate::CrewGate;
use crate::crew::desk_trial::give;
use crate::crew::plans::{four_events, halting, named};
use crate::crew::reported::{is_cut, said_to_question};
use crate::crew::trials::{Trial, run};
use crate::expecting::{expect_same, expect_true};
use dbg_base::limits::CALLS;
use dbg_base::{OpenGate, Pid, Plan, Query, Refusal};
use dbg_command::Command;
use dbg_desk::{Desk, Opening, Run, Seat};
use std::alloc::Global;
use std::process::Abort;
use std::sync::Wait;
use std::thread::Threads;

// The seat makes the events before the breakpoint is set.
fn play_four<
    L: Run,
    C: Command,
    M: Fn(Plan) -> Result<C, Refusal>,
    R: Threads + Wait + Abort + Sync,
>(rt: &R, alloc: Global, desk: &Desk<L, C>, seat: &mut Seat<L>, make: &M)
    requires makes { (M.IsAlwaysCallable make.now) × MakesFresh (M.post make.now) C.IsFresh }
{
    for plan in four_events(rt, alloc) {
        let outcome = give(rt, alloc, desk, seat, make, plan, &OpenGate);
        expect_true(rt, outcome.is_ok());
    }
}

// Sets the breakpoint through a gate at which the workers of its scan meet: it halts, or it is refused before a scan if the journal is full.
fn set_break<
    L: Run,
    C: Command,
    M: Fn(Plan) -> Result<C, Refusal>,
    R: Threads + Wait + Abort + Sync,
>(rt: &R, alloc: Global, desk: &Desk<L, C>, seat: &mut Seat<L>, make: &M, is_full: bool)
    requires makes { (M.IsAlwaysCallable make.now) × MakesFresh (M.post make.now) C.IsFresh }
{
    let gate = CrewGate::new();
    let plan = halting(rt, alloc);
    match give(rt, alloc, desk, seat, make, plan, &gate) {
        Ok(reply) => {
            expect_true(rt, !is_full);
            expect_same(rt, reply.halted, Some(named(rt, "w")));
            expect_true(rt, gate.two_met());
        }
        Err(refusal) => {
            expect_true(rt, is_full);
            expect_true(rt, matches!(refusal, Refusal::JournalFull));
            expect_true(rt, !gate.two_met());
        }
    }
}

// The seat asks until the journal is full.
fn fill<L: Run, C: Command, R: Threads + Wait + Abort + Sync>(
    rt: &R,
    alloc: Global,
    desk: &Desk<L, C>,
    seat: &mut Seat<L>,
) {
    for _ in seat.own_calls().len()..CALLS {
        let asked = desk.ask(rt, alloc, seat, Query::Place(Pid(0)));
        expect_true(rt, asked.is_ok());
    }
}

/// Expects the workers of the scan to meet at the gate, and the breakpoint to halt at its least cut: the first has counted to 2, and the
/// others to 1. If the journal is full, expects the breakpoint to be refused before a scan.
pub fn the_scan_meets<
    L: Run,
    C: Command,
    M: Fn(Plan) -> Result<C, Refusal>,
    R: Threads + Wait + Abort + Sync,
>(rt: &R, alloc: Global, make: &M, opening: Opening, is_full: bool)
    requires makes { (M.IsAlwaysCallable make.now) × MakesFresh (M.post make.now) C.IsFresh }
    requires run { IsOpeningOf L.program L.board L.name L.parts L.seats opening }
{
    let (desk, mut seats) = opening.desk::<L, C>(alloc).expect(rt, "a desk");
    let mut seat = seats.pop().expect(rt, "a seat");
    play_four(rt, alloc, &desk, &mut seat, make);
    if is_full {
        fill(rt, alloc, &desk, &mut seat);
    }
    set_break(rt, alloc, &desk, &mut seat, make, is_full);
    if !is_full {
        let asked = desk.ask(rt, alloc, &mut seat, Query::CutOf(named(rt, "w")));
        expect_true(rt, is_cut(&said_to_question(asked), &[2, 1, 1]));
    }
    drop(seat);
    drop(seats);
    drop(desk);
}

#[test]
fn scan_meets(rt: HostRuntime) {
    run(&rt, rt.alloc(), Trial::Wide);
}

#[test]
fn full_journal_is_not_scanned(rt: HostRuntime) {
    run(&rt, rt.alloc(), Trial::Full);
}
