//! A desk and its seats, on one thread.

ghost use Rattle.dbg_desk.specs.Openings.{IsOpeningOf};

use crate::crew::desk_trial::{Pair, begin_pair, make_opening};
use crate::crew::reported::{are_values, is_plain, said_to, said_to_question};
use crate::expecting::{expect_same, expect_true};
use dbg_base::{Call, OpenGate, Pid, Query};
use dbg_board::Glance;
use dbg_command::NextCmd;
use dbg_desk::{Closing, Desk, Entry, Locked, Opening, Run, Seat};
use std::alloc::Global;
use std::marker::Brand;
use std::process::Abort;
use std::sync::Wait;
use std::thread::Threads;

const A: Pid = Pid(0);

// Expects the second seat to get this value of the first process.
fn expect_value<L: Run, R: Threads + Wait + Abort + Sync>(
    rt: &R,
    alloc: Global,
    pair: &mut Pair<L, NextCmd>,
    wanted: i64,
) {
    let values = said_to_question(pair.desk.ask(rt, alloc, &mut pair.two, Query::Vars(A)));
    expect_true(rt, are_values(&values, &[wanted]));
}

// The seat gives `next` for the first process.
fn give_next<L: Run, R: Threads + Wait + Abort + Sync>(
    rt: &R,
    alloc: Global,
    desk: &Desk<L, NextCmd>,
    seat: &mut Seat<L>,
) {
    let outcome = desk.call(rt, alloc, seat, NextCmd::new(A), &OpenGate);
    expect_true(rt, outcome.is_ok());
}

// The second seat sees the first one's event, and that it was taken back.
fn give_and_take_back<L: Run, R: Threads + Wait + Abort + Sync>(
    rt: &R,
    alloc: Global,
    pair: &mut Pair<L, NextCmd>,
) {
    give_next(rt, alloc, &pair.desk, &mut pair.one);
    expect_value(rt, alloc, pair, 1);
    let back = said_to(pair.desk.back(rt, &mut pair.one));
    expect_true(rt, is_plain(&back));
    expect_value(rt, alloc, pair, 0);
}

// Whether the first seat has taken back its command.
fn is_back(entry: &Entry) -> bool {
    entry.seat == 1 && matches!(entry.call, Call::Back) && is_plain(&entry.said)
}

// Expects four calls under the lock, of which the third took back the first.
fn expect_entered<L: Run>(rt: &impl Abort, locked: &Locked<L, NextCmd>) {
    expect_same(rt, locked.calls(), 4);
    let entry = locked.entry(2).expect(rt, "an entry");
    expect_true(rt, is_back(entry));
}

fn one_sees_the_other<L: Run, R: Threads + Wait + Abort + Sync>(
    rt: &R,
    alloc: Global,
    opening: Opening,
)
    requires { IsOpeningOf L.program L.board L.name L.parts L.seats opening }
{
    let mut pair = begin_pair::<L, NextCmd>(alloc, opening).expect(rt, "a desk");
    give_and_take_back(rt, alloc, &mut pair);
    let Pair { desk, one, two } = pair;
    expect_same(rt, desk.settle(rt, &[one, two]), Ok(Closing { calls: 4 }));
    let locked = desk.into_locked();
    expect_entered(rt, &locked);
    drop(locked);
}

#[test]
fn a_call_sees_what_was_answered_before(rt: HostRuntime) {
    let opening = make_opening(&rt, rt.alloc(), 2);
    one_sees_the_other::<Brand, _>(&rt, rt.alloc(), opening);
}

// Expects the board to show so many calls, and no breakpoint that halts.
fn expect_look<L: Run>(rt: &impl Abort, desk: &Desk<L, NextCmd>, seat: &mut Seat<L>, calls: u64) {
    expect_same(rt, desk.look(seat), Glance { calls, halt: 0 });
}

// Expects each call to be seen by the seat that did not make it.
fn expect_looks<L: Run, R: Threads + Wait + Abort + Sync>(
    rt: &R,
    alloc: Global,
    pair: &mut Pair<L, NextCmd>,
) {
    expect_look(rt, &pair.desk, &mut pair.one, 0);
    give_next(rt, alloc, &pair.desk, &mut pair.two);
    expect_look(rt, &pair.desk, &mut pair.one, 1);
    let asked = pair.desk.ask(rt, alloc, &mut pair.one, Query::Breaks);
    expect_true(rt, asked.is_ok());
    expect_look(rt, &pair.desk, &mut pair.two, 2);
}

// Each seat that looks sees all calls, its own and the other's.
fn each_sees_all<L: Run, R: Threads + Wait + Abort + Sync>(rt: &R, alloc: Global, opening: Opening)
    requires { IsOpeningOf L.program L.board L.name L.parts L.seats opening }
{
    let mut pair = begin_pair::<L, NextCmd>(alloc, opening).expect(rt, "a desk");
    expect_looks(rt, alloc, &mut pair);
    drop(pair);
}

#[test]
fn a_look_sees_the_calls_of_all_seats(rt: HostRuntime) {
    let opening = make_opening(&rt, rt.alloc(), 2);
    each_sees_all::<Brand, _>(&rt, rt.alloc(), opening);
}

// If no seat is passed, no seat has calls that differ from the journal.
fn none_differs<L: Run, R: Threads + Wait + Abort + Sync>(rt: &R, alloc: Global, opening: Opening)
    requires { IsOpeningOf L.program L.board L.name L.parts L.seats opening }
{
    let mut pair = begin_pair::<L, NextCmd>(alloc, opening).expect(rt, "a desk");
    give_next(rt, alloc, &pair.desk, &mut pair.one);
    let none = Vec::new(alloc);
    let settled = pair.desk.settle(rt, none.as_slice());
    expect_same(rt, settled, Ok(Closing { calls: 1 }));
    drop(pair);
}

#[test]
fn no_seats_settle(rt: HostRuntime) {
    let opening = make_opening(&rt, rt.alloc(), 2);
    none_differs::<Brand, _>(&rt, rt.alloc(), opening);
}
