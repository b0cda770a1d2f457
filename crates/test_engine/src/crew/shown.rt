//! What the board of a desk shows.

ghost use Rattle.test_engine.specs.Runs.{MakesFresh};
ghost use Rattle.dbg_desk.specs.Openings.{IsOpeningOf};

use crate::crew::desk_trial::{Pair, begin_pair, give};
use crate::crew::plans::{named, set_break};
use crate::crew::trials::{Trial, run};
use crate::expecting::{expect_same, expect_true};
use dbg_base::{OpenGate, Pid, Plan, Query, Refusal};
use dbg_board::Glance;
use dbg_command::Command;
use dbg_desk::{Opening, Run};
use std::alloc::Global;
use std::process::Abort;
use std::sync::Wait;
use std::thread::Threads;
use test_programs::MEMORY;

const A: Pid = Pid(0);

const B: Pid = Pid(1);

// Commands, each with its refusal, if it is refused, and what is shown after it: the number of calls, and the position of the breakpoint
// that halts.
fn steps(rt: &impl Abort, alloc: Global) -> Vec<(Plan, Option<Refusal>, (u64, u64))> {
    let steps = [
        (set_break(rt, alloc, "k", &[(A, 0, 0)]), None, (1, 1)),
        (Plan::Pass(named(rt, "k")), None, (2, 0)),
        (set_break(rt, alloc, "m", &[(B, 1, 0)]), None, (3, 2)),
        (Plan::Undo(A), Some(Refusal::NothingToUndo), (4, 2)),
    ];
    Vec::from_array(alloc, steps).expect(rt, MEMORY)
}

// Expects the first seat to see so many calls, and the position of the breakpoint that halts.
fn expect_shown<L: Run, C: Command>(rt: &impl Abort, pair: &mut Pair<L, C>, wanted: (u64, u64)) {
    let Glance { calls, halt } = pair.desk.look(&mut pair.one);
    expect_same(rt, (calls, halt), wanted);
}

// The second seat makes these calls, and the first sees each.
fn expect_steps<
    L: Run,
    C: Command,
    M: Fn(Plan) -> Result<C, Refusal>,
    R: Threads + Wait + Abort + Sync,
>(rt: &R, alloc: Global, make: &M, pair: &mut Pair<L, C>)
    requires makes { (M.IsAlwaysCallable make.now) × MakesFresh (M.post make.now) C.IsFresh }
{
    expect_shown(rt, pair, (0, 0));
    for (plan, refusal, shown) in steps(rt, alloc) {
        let outcome = give(rt, alloc, &pair.desk, &mut pair.two, make, plan, &OpenGate);
        expect_same(rt, outcome.err(), refusal);
        expect_shown(rt, pair, shown);
    }
    let asked = pair.desk.ask(rt, alloc, &mut pair.two, Query::Breaks);
    expect_true(rt, asked.is_ok());
    expect_shown(rt, pair, (5, 2));
}

/// Expects the first seat to see each call of the second.
pub fn each_call_is_shown<
    L: Run,
    C: Command,
    M: Fn(Plan) -> Result<C, Refusal>,
    R: Threads + Wait + Abort + Sync,
>(rt: &R, alloc: Global, make: &M, opening: Opening)
    requires makes { (M.IsAlwaysCallable make.now) × MakesFresh (M.post make.now) C.IsFresh }
    requires run { IsOpeningOf L.program L.board L.name L.parts L.seats opening }
{
    let mut pair = begin_pair::<L, C>(alloc, opening).expect(rt, "a desk");
    expect_steps(rt, alloc, make, &mut pair);
    drop(pair);
}

#[test]
fn a_look_shows_each_call_and_the_breakpoint_that_halts(rt: HostRuntime) {
    run(&rt, rt.alloc(), Trial::Shown);
}
