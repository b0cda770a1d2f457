//! Tests of `Locked` of `dbg_desk`: which calls are entered and recorded, and a journal that is full.

ghost use Rattle.dbg_desk.specs.Openings.{IsOpeningOf};

use crate::expecting::{expect_same, expect_true};
use dbg_base::limits::CALLS;
use dbg_base::{Call, Pid, Query, Refusal, Said};
use dbg_command::NextCmd;
use dbg_desk::{Locked, Opening, Run, Seat};
use proc_lang::parse_program;
use std::alloc::{AllocError, Global};
use std::marker::Brand;
use std::process::Abort;
use test_programs::{MEMORY, TWO};

const A: Pid = Pid(0);

// A session under its lock, and two seats of it.
#[derive(Drop)]
struct Trial<L: Run> {
    locked: Locked<L, NextCmd>,
    one: Seat<L>,
    two: Seat<L>,
}

// Opens a run with two seats.
fn open(rt: &impl Abort, alloc: Global) -> Opening {
    let program = parse_program(alloc, TWO.as_bytes()).expect(rt, "a program");
    Opening::new(alloc, program, 2).expect(rt, MEMORY)
}

fn begin<L: Run>(rt: &impl Abort, alloc: Global, opening: Opening) -> Trial<L>
    requires { IsOpeningOf L.program L.board L.name L.parts L.seats opening }
{
    let (locked, mut seats) = opening.lock::<L, NextCmd>(alloc).expect(rt, MEMORY);
    let two = seats.pop().expect(rt, "two seats");
    let one = seats.pop().expect(rt, "a seat");
    Trial { locked, one, two }
}

// The calls of both seats: the seat, and the call with its answer.
const ENTERED: [(u32, &str); 5] = [
    (
        1,
        "Give(Next(Pid(0))) Accepted(Reply { done: Played(Pid(0), Choice(0)), halted: None })",
    ),
    (
        2,
        "Ask(Vars(Pid(0))) Answered(Values(Sequence { items: [1] }))",
    ),
    (2, "Back Refused(OtherSeat(1))"),
    (1, "Give(Next(Pid(2))) Refused(UnknownProcess)"),
    (1, "Back Accepted(Reply { done: Plain, halted: None })"),
];

// The first seat plays, and the second asks and may not take back. The first gives a command of no process, and takes back.
fn make_calls<L: Run>(alloc: Global, trial: &mut Trial<L>) {
    let Trial { locked, one, two } = trial;
    let _played = locked.enter(alloc, one, NextCmd::new(A), None);
    let _asked = locked.enter_ask(alloc, two, Query::Vars(A));
    let _other = locked.enter_back(two);
    let _unknown = locked.enter(alloc, one, NextCmd::new(Pid(2)), None);
    let _back = locked.enter_back(one);
}

// A call and its answer.
fn shown(alloc: Global, call: &Call, said: &Said) -> Result<String, AllocError> {
    format!(in alloc; "{call:?} {said:?}")
}

// Expects the journal to have the calls in order.
fn expect_entered<L: Run>(rt: &impl Abort, alloc: Global, locked: &Locked<L, NextCmd>) {
    expect_same(rt, locked.calls(), ENTERED.len());
    for (place, (seat, call)) in ENTERED.iter().enumerate() {
        let entry = locked.entry(place).expect(rt, "an entry");
        let text = shown(alloc, &entry.call, &entry.said).expect(rt, MEMORY);
        expect_same(rt, (entry.seat, text.as_str()), (*seat, *call));
    }
    expect_true(rt, locked.entry(ENTERED.len()).is_none());
}

// Expects the seat to have recorded its own calls.
fn expect_recorded<L: Run>(rt: &impl Abort, alloc: Global, seat: &Seat<L>) {
    let wanted = ENTERED
        .iter()
        .filter(|(number, _)| *number == seat.number());
    for (own, (_, call)) in seat.own_calls().iter().zip(wanted) {
        let own_call = own.call().expect(rt, MEMORY);
        let own_said = own.said().expect(rt, MEMORY);
        let text = shown(alloc, &own_call, &own_said).expect(rt, MEMORY);
        expect_same(rt, text.as_str(), *call);
    }
}

fn calls_in_order<L: Run>(rt: &impl Abort, alloc: Global, opening: Opening)
    requires { IsOpeningOf L.program L.board L.name L.parts L.seats opening }
{
    let mut trial = begin::<L>(rt, alloc, opening);
    make_calls(alloc, &mut trial);
    expect_entered(rt, alloc, &trial.locked);
    expect_recorded(rt, alloc, &trial.one);
    expect_recorded(rt, alloc, &trial.two);
    let lengths = [trial.one.own_calls().len(), trial.two.own_calls().len()];
    expect_same(rt, lengths, [3, 2]);
    drop(trial);
}

#[test]
fn calls_are_entered_and_recorded(rt: HostRuntime) {
    let opening = open(&rt, rt.alloc());
    calls_in_order::<Brand>(&rt, rt.alloc(), opening);
}

// The first seat asks for a place until the journal is full.
fn fill<L: Run>(rt: &impl Abort, alloc: Global, trial: &mut Trial<L>) {
    for _ in 0..CALLS {
        let asked = trial
            .locked
            .enter_ask(alloc, &mut trial.one, Query::Place(A));
        expect_true(rt, asked.is_ok());
    }
}

// Expects a call to be refused because the journal is full.
fn expect_full<T>(rt: &impl Abort, outcome: &Result<T, Refusal>) {
    expect_true(rt, matches!(outcome, Err(Refusal::JournalFull)));
}

// Expects calls of each kind to be refused like this.
fn expect_none_more<L: Run>(rt: &impl Abort, alloc: Global, trial: &mut Trial<L>) {
    let Trial {
        locked,
        one,
        two: _,
    } = trial;
    let given = locked.enter(alloc, one, NextCmd::new(A), None);
    expect_full(rt, &given);
    let back = locked.enter_back(one);
    expect_full(rt, &back);
    let asked = locked.enter_ask(alloc, one, Query::Place(A));
    expect_full(rt, &asked);
    expect_same(rt, [locked.calls(), one.own_calls().len()], [CALLS; 2]);
}

fn no_call_more<L: Run>(rt: &impl Abort, alloc: Global, opening: Opening)
    requires { IsOpeningOf L.program L.board L.name L.parts L.seats opening }
{
    let mut trial = begin::<L>(rt, alloc, opening);
    fill(rt, alloc, &mut trial);
    expect_none_more(rt, alloc, &mut trial);
    drop(trial);
}

#[test]
fn a_full_journal_takes_no_call_more(rt: HostRuntime) {
    let opening = open(&rt, rt.alloc());
    no_call_more::<Brand>(&rt, rt.alloc(), opening);
}
