//! Calls of seats at a desk.

ghost use Rattle.shell_parse.specs.Lines as lines;
ghost use Rattle.test_memory.specs.Runs.{MakesFresh};
ghost use Rattle.dbg_desk.specs.Openings.{IsOpeningOf};

use crate::beginning::{ThreeSeats, begin, program_of_text};
use crate::report::tell;
use dbg_base::{Answer, Call, OpenGate, Refusal, Reply};
use dbg_command::{Command, Givable};
use dbg_desk::{Desk, Locked, Run, Seat};
use proc_tree::Program;
use shell_parse::parse_line;
use std::alloc::Global;
use std::io::Write;
use std::marker::Brand;
use std::sync::Wait;
use std::thread::Threads;
use test_programs::TWO;

const LINES: [&str; 14] = [
    "1 next a",
    "1 next a",
    "2 next b",
    "1 break k a (x = 2) b (y = 1)",
    "2 cut k",
    "2 why k",
    "1 pass k",
    "2 batch undo b ; next a",
    "2 chan a b",
    "2 back",
    "1 back",
    "1 back",
    "2 back",
    "1 vars a",
];

// The result of a call.
#[derive(Debug, Drop)]
enum DeskSaid {
    Reported(Result<Reply, Refusal>),
    Answered(Result<Answer, Refusal>),
}

impl DeskSaid {
    fn wants_memory(&self) -> bool {
        matches!(
            self,
            DeskSaid::Reported(Err(Refusal::Memory)) | DeskSaid::Answered(Err(Refusal::Memory))
        )
    }
}

// A seat makes this call.
fn call<L: Run, C: Command, M: Fn(Givable) -> Result<C, Refusal>, R: Threads + Wait + Sync>(
    rt: &R,
    alloc: Global,
    make: &M,
    desk: &Desk<L, C>,
    seat: &mut Seat<L>,
    call: Call,
) -> DeskSaid
    requires makes { (M.IsAlwaysCallable make.now) × MakesFresh (M.post make.now) C.IsFresh }
    requires givable { lines.IsGivable call }
{
    match call {
        Call::Give(plan) => match make(Givable::new(plan)) {
            Ok(command) => DeskSaid::Reported(desk.call(rt, alloc, seat, command, &OpenGate)),
            Err(refusal) => DeskSaid::Reported(Err(refusal)),
        },
        Call::Back => DeskSaid::Reported(desk.back(rt, seat)),
        Call::Ask(query) => DeskSaid::Answered(desk.ask(rt, alloc, seat, query)),
    }
}

// The answer to a line.
fn say<L: Run, C: Command, M: Fn(Givable) -> Result<C, Refusal>, R: Threads + Wait + Sync>(
    rt: &R,
    alloc: Global,
    make: &M,
    program: &Program,
    desk: &Desk<L, C>,
    seats: &mut [Seat<L>],
    line: &str,
) -> DeskSaid
    requires makes { (M.IsAlwaysCallable make.now) × MakesFresh (M.post make.now) C.IsFresh }
{
    match parse_line(alloc, program, line.as_bytes()) {
        Ok(Some(line)) => match seats.get_mut(line.seat as usize - 1) {
            Some(seat) => call(rt, alloc, make, desk, seat, line.call),
            None => DeskSaid::Reported(Err(Refusal::BadLine)),
        },
        Ok(None) => DeskSaid::Reported(Err(Refusal::BadLine)),
        Err(refusal) => DeskSaid::Reported(Err(refusal)),
    }
}

// How many calls the board shows to each seat, and how many calls each seat has of its own.
fn counts<L: Run, C: Command>(desk: &Desk<L, C>, seats: &mut [Seat<L>]) -> (u64, usize) {
    let mut calls = 0u64;
    let mut own = 0usize;
    for seat in seats {
        calls = calls.max(desk.look(seat).calls);
        own = own.saturating_add(seat.own_calls().len());
    }
    (calls, own)
}

// The answer to a line, which is given again if memory runs out. It is reported if the first try changed something.
fn say_twice<L: Run, C: Command, M: Fn(Givable) -> Result<C, Refusal>, R: Threads + Wait + Sync>(
    rt: &R,
    alloc: Global,
    make: &M,
    program: &Program,
    desk: &Desk<L, C>,
    seats: &mut [Seat<L>],
    line: &str,
    report: &mut Vec<u8>,
) -> DeskSaid
    requires makes { (M.IsAlwaysCallable make.now) × MakesFresh (M.post make.now) C.IsFresh }
{
    let before = counts(desk, seats);
    let said = say(rt, alloc, make, program, desk, seats, line);
    if !said.wants_memory() {
        return said;
    }
    if counts(desk, seats) != before {
        let _ = report.extend_from_slice(b"differs: ");
    }
    say(rt, alloc, make, program, desk, seats, line)
}

// Gives the lines, each again if memory runs out, and reports the answers.
fn say_all<L: Run, C: Command, M: Fn(Givable) -> Result<C, Refusal>, R: Threads + Wait + Sync>(
    rt: &R,
    alloc: Global,
    make: &M,
    program: &Program,
    desk: &Desk<L, C>,
    seats: &mut [Seat<L>],
    report: &mut Vec<u8>,
)
    requires makes { (M.IsAlwaysCallable make.now) × MakesFresh (M.post make.now) C.IsFresh }
{
    for line in LINES {
        let said = say_twice(rt, alloc, make, program, desk, seats, line, report);
        tell(line, &said, report);
    }
}

// Reports the seat and the answer of each call that was entered.
fn tell_entries<L: Run, C: Command>(locked: &Locked<L, C>, report: &mut Vec<u8>) {
    for place in 0..locked.calls() {
        if let Some(entry) = locked.entry(place) {
            let _ = write!(report, "entry of {}: {:?}\n", entry.seat, entry.said);
        }
    }
}

// Gives the lines at a desk, and reports its journal.
fn play<L: Run, C: Command, M: Fn(Givable) -> Result<C, Refusal>, R: Threads + Wait + Sync>(
    rt: &R,
    alloc: Global,
    make: &M,
    program: &Program,
    beginning: ThreeSeats,
    report: &mut Vec<u8>,
) -> Result<(), Refusal>
    requires makes { (M.IsAlwaysCallable make.now) × MakesFresh (M.post make.now) C.IsFresh }
    requires run { IsOpeningOf L.program L.board L.name L.parts L.seats beginning.opening }
{
    let (desk, mut seats) = beginning.opening.desk::<L, C>(alloc)?;
    say_all(
        rt,
        alloc,
        make,
        program,
        &desk,
        seats.as_mut_slice(),
        report,
    );
    let settled = desk.settle(rt, seats.as_slice());
    tell("settle", &settled, report);
    let locked = desk.into_locked();
    tell_entries(&locked, report);
    drop(seats);
    drop(locked);
    Ok(())
}

// The same with a new desk.
fn begin_and_play<C: Command, M: Fn(Givable) -> Result<C, Refusal>, R: Threads + Wait + Sync>(
    rt: &R,
    alloc: Global,
    make: &M,
    report: &mut Vec<u8>,
) -> Result<(), Refusal>
    requires makes { (M.IsAlwaysCallable make.now) × MakesFresh (M.post make.now) C.IsFresh }
{
    let program = program_of_text(alloc, TWO)?;
    let beginning = begin(alloc, TWO)?;
    play::<Brand, C, M, R>(rt, alloc, make, &program, beginning, report)
}

/// Makes calls at a desk, and reports the answer to each. If memory runs out before the first call, it starts again.
pub(crate) fn play_desk<C: Command, M: Fn(Givable) -> Result<C, Refusal>, R: Threads + Wait + Sync>(
    rt: &R,
    alloc: Global,
    make: &M,
    report: &mut Vec<u8>,
)
    requires makes { (M.IsAlwaysCallable make.now) × MakesFresh (M.post make.now) C.IsFresh }
{
    let mut played = begin_and_play(rt, alloc, make, report);
    if played == Err(Refusal::Memory) {
        played = begin_and_play(rt, alloc, make, report);
    }
    tell("desk", &played, report);
}
