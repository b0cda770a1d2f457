//! Looks in another thread while calls are made.

ghost use Rattle.dbg_desk.specs.Openings.{IsOpeningOf};

use crate::crew::desk_trial::{Pair, begin_pair, make_opening};
use crate::expecting::{expect_same, expect_true};
use dbg_base::{OpenGate, Pid};
use dbg_command::NextCmd;
use dbg_desk::{Closing, Desk, Opening, Run, Seat};
use std::alloc::Global;
use std::marker::Brand;
use std::process::Abort;
use std::sync::Wait;
use std::test::Fail;
use std::thread;
use std::thread::Threads;

// How many calls one seat makes, and how often the other one looks.
const CALLS: usize = 100;

const LOOKS: usize = 1_000;

// The process that counts by itself.
const COUNTER: Pid = Pid(2);

// Whether each look after a call shows at least as many calls as the seat has of its own.
fn calls_are_shown<L: Run, R: Threads + Wait + Sync>(
    rt: &R,
    alloc: Global,
    desk: &Desk<L, NextCmd>,
    seat: &mut Seat<L>,
) -> bool {
    for _ in 0..CALLS {
        let _reply = desk.call(rt, alloc, seat, NextCmd::new(COUNTER), &OpenGate);
        if desk.look(seat).calls < seat.own_calls().len() as u64 {
            return false;
        }
    }
    true
}

// Whether no look shows fewer calls than the one before it.
fn looks_go_on<L: Run>(desk: &Desk<L, NextCmd>, seat: &mut Seat<L>) -> bool {
    let mut before = 0;
    for _ in 0..LOOKS {
        let calls = desk.look(seat).calls;
        if calls < before {
            return false;
        }
        before = calls;
    }
    true
}

fn looks_beside_calls<L: Run + Send + Sync, R: Threads + Wait + Abort + Sync>(
    rt: &R,
    alloc: Global,
    opening: Opening,
) -> Result<(), Fail>
    requires { IsOpeningOf L.program L.board L.name L.parts L.seats opening }
{
    let Pair {
        desk,
        mut one,
        mut two,
    } = begin_pair::<L, NextCmd>(alloc, opening)?;
    let (go_on, shown) = thread::join(
        rt,
        || looks_go_on(&desk, &mut two),
        || calls_are_shown(rt, alloc, &desk, &mut one),
    );
    expect_true(rt, go_on);
    expect_true(rt, shown);
    expect_same(rt, one.own_calls().len(), CALLS);
    expect_same(rt, desk.look(&mut two).calls, CALLS as u64);
    expect_same(
        rt,
        desk.settle(rt, &[one, two]),
        Ok(Closing { calls: CALLS }),
    );
    Ok(())
}

#[test]
fn looks_are_made_beside_calls(rt: HostRuntime) -> Result<(), Fail> {
    let alloc = rt.alloc();
    looks_beside_calls::<Brand, _>(&rt, alloc, make_opening(&rt, alloc, 2))
}
