//! Answers at a desk, where several threads make the scan of a breakpoint, and answers under its lock, where they do not.

ghost use Rattle.test_engine.specs.Runs.{MakesFresh};
ghost use Rattle.dbg_desk.specs.Openings.{IsOpeningOf};

use crate::crew::desk_trial::{enter, give};
use crate::crew::plans::{four_events, halting};
use crate::crew::reported::said_to;
use crate::crew::trials::{Trial, run};
use crate::expecting::{expect_same, expect_true};
use dbg_base::{Call, OpenGate, Plan, Refusal, Said};
use dbg_command::Command;
use dbg_desk::{Opening, Run};
use std::alloc::Global;
use std::process::Abort;
use std::sync::Wait;
use std::thread::Threads;
use test_programs::MEMORY;

// Four events, and a breakpoint that halts at the last of their cuts.
fn plans(rt: &impl Abort, alloc: Global) -> Vec<Plan> {
    let mut plans = four_events(rt, alloc);
    plans.push(halting(rt, alloc)).expect(rt, MEMORY);
    plans
}

/// The answers to a seat that gives them at a desk.
pub fn said_at_a_desk<
    L: Run,
    C: Command,
    M: Fn(Plan) -> Result<C, Refusal>,
    R: Threads + Wait + Abort + Sync,
>(rt: &R, alloc: Global, make: &M, opening: Opening) -> Vec<Said>
    requires makes { (M.IsAlwaysCallable make.now) × MakesFresh (M.post make.now) C.IsFresh }
    requires run { IsOpeningOf L.program L.board L.name L.parts L.seats opening }
{
    let (desk, mut seats) = opening.desk::<L, C>(alloc).expect(rt, "a desk");
    let mut seat = seats.pop().expect(rt, "a seat");
    let mut said = Vec::new(alloc);
    for plan in plans(rt, alloc) {
        let answer = said_to(give(rt, alloc, &desk, &mut seat, make, plan, &OpenGate));
        said.push(answer).expect(rt, MEMORY);
    }
    drop(seat);
    drop(seats);
    drop(desk);
    said
}

/// The answers to a seat that gives them under the lock.
pub fn said_under_lock<L: Run, C: Command, M: Fn(Plan) -> Result<C, Refusal>>(
    rt: &impl Abort,
    alloc: Global,
    make: &M,
    opening: Opening,
) -> Vec<Said>
    requires makes { (M.IsAlwaysCallable make.now) × MakesFresh (M.post make.now) C.IsFresh }
    requires run { IsOpeningOf L.program L.board L.name L.parts L.seats opening }
{
    let (mut locked, mut seats) = opening.lock::<L, C>(alloc).expect(rt, "a lock");
    let mut seat = seats.pop().expect(rt, "a seat");
    let mut said = Vec::new(alloc);
    for plan in plans(rt, alloc) {
        let answer = enter(alloc, &mut locked, &mut seat, make, Call::Give(plan));
        said.push(answer.expect(rt, "an answer")).expect(rt, MEMORY);
    }
    drop(seat);
    drop(seats);
    drop(locked);
    said
}

/// Expects the same answers to each of the five commands.
pub fn expect_alike(rt: &impl Abort, reported: &[Said], want: &[Said]) {
    expect_same(rt, [reported.len(), want.len()], [5, 5]);
    for (one, other) in reported.iter().zip(want) {
        expect_true(rt, one == other);
    }
}

#[test]
fn the_same_is_said_with_several_threads(rt: HostRuntime) {
    run(&rt, rt.alloc(), Trial::Alike);
}
