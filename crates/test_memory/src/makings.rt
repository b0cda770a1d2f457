//! Everything that is made from a text: a program, a predicate, a command line, a world, a scan, a board and a session.

ghost use Rattle.std.specs.Prelude.{◌<◌, length};
ghost use Rattle.proc_tree.specs.Programs.{program_of};

use crate::beginning::program_of_text;
use crate::report::tell;
use causal_world::World;
use dbg_base::{Call, Choice, Conjunct, OpenGate, Pid, Plan, Query, Refusal, Sequence};
use dbg_board::Board;
use dbg_command::NextCmd;
use dbg_session::Session;
use least_cut::Scan;
use proc_lang::{ProgError, parse_predicate, parse_program};
use proc_tree::Program;
use shell_parse::parse_line;
use std::alloc::Global;
use std::sync::Wait;
use std::thread::Threads;
use test_programs::TWO;

const A: Pid = Pid(0);

const B: Pid = Pid(1);

// A program with a mistake: there is no variable `y`.
const WRONG: &str = "process a { var x = 0; when (x < 3) : x := y; }";

const HALTING: &str = "1 break k a (x = 2) b (y = 1)";

const TOGETHER: &str = "2 batch break k a (x = 2) b (y = 1) ; step a 0 ; clear k";

// The result of a call, which is made again if it is refused as out of memory.
macro_rules! again {
    ($memory:pat, $call:expr) => {
        match $call {
            Err($memory) => $call,
            other => other,
        }
    };
}

// The conjuncts of the breakpoint that a line sets.
fn conjuncts(alloc: Global, program: &Program) -> Result<Sequence<Conjunct>, Refusal> {
    match parse_line(alloc, program, HALTING.as_bytes())? {
        Some(line) => match line.call {
            Call::Give(Plan::Break(_, conjuncts)) => Ok(conjuncts),
            _ => Err(Refusal::BadLine),
        },
        None => Err(Refusal::BadLine),
    }
}

// The world in which the first process has sent twice and the second has received once.
fn played(alloc: Global, program: &Program) -> Result<World, Refusal> {
    if program.processes() != 2 {
        return Err(Refusal::UnknownProcess);
    }
    let mut world = World::new(alloc, program)?;
    let _cut = world.next(alloc, program, A)?;
    let _cut = world.next(alloc, program, A)?;
    let _cut = world.next(alloc, program, B)?;
    Ok(world)
}

// The same, again if memory runs out.
fn played_again(alloc: Global, program: &Program) -> Result<World, Refusal> {
    again!(Refusal::Memory, played(alloc, program))
}

fn conjuncts_again(alloc: Global, program: &Program) -> Result<Sequence<Conjunct>, Refusal> {
    again!(Refusal::Memory, conjuncts(alloc, program))
}

fn opening_again(alloc: Global, program: &Program) -> Result<World, Refusal> {
    again!(Refusal::Memory, World::new(alloc, program))
}

fn values_again(alloc: Global, world: &World) -> Result<Sequence<i64>, Refusal> {
    again!(Refusal::Memory, world.vars(alloc, B))
}

fn tell_opening(alloc: Global, program: &Program, report: &mut Vec<u8>) -> Result<(), Refusal> {
    let opening = opening_again(alloc, program)?;
    tell("World::new", &values_again(alloc, &opening), report);
    Ok(())
}

fn scan_again(alloc: Global, world: &World, conjuncts: &[Conjunct]) -> Result<Scan, Refusal> {
    again!(Refusal::Memory, Scan::of(alloc, world, conjuncts))
}

fn wide_again<R: Threads + Wait + Sync>(
    rt: &R,
    alloc: Global,
    world: &World,
    conjuncts: &[Conjunct],
) -> Result<Scan, Refusal> {
    again!(
        Refusal::Memory,
        Scan::wide(rt, alloc, world, conjuncts, &OpenGate)
    )
}

fn tell_both<R: Threads + Wait + Sync>(
    rt: &R,
    alloc: Global,
    world: &World,
    conjuncts: &[Conjunct],
    report: &mut Vec<u8>,
) {
    tell("Scan::of", &scan_again(alloc, world, conjuncts), report);
    let wide = wide_again(rt, alloc, world, conjuncts);
    tell("Scan::wide", &wide, report);
}

fn tell_scans<R: Threads + Wait + Sync>(
    rt: &R,
    alloc: Global,
    program: &Program,
    report: &mut Vec<u8>,
) -> Result<(), Refusal> {
    tell_opening(alloc, program, report)?;
    let world = played_again(alloc, program)?;
    let conjuncts = conjuncts_again(alloc, program)?;
    tell_both(rt, alloc, &world, conjuncts.items(), report);
    Ok(())
}

// Reports the initial values of a process, and its commands.
fn tell_process(program: &Program, pid: Pid, report: &mut Vec<u8>) {
    let variables = (
        program.variables(pid),
        program.start_value(pid, 0),
        program.start_value(pid, 1),
    );
    tell("variables", &variables, report);
    for choice in 0..program.commands(pid) {
        tell("command", &program.command(pid, Choice(choice)), report);
    }
}

fn tell_predicate(alloc: Global, program: &Program, text: &[u8], report: &mut Vec<u8>)
    requires { 0 < length (program_of program.now) }
{
    let predicate = again!(ProgError::Memory, parse_predicate(alloc, program, A, text));
    tell("parse_predicate", &predicate, report);
}

fn tell_predicates(alloc: Global, program: &Program, report: &mut Vec<u8>) {
    if program.processes() == 2 {
        let text = b"((x = 2) and (sent(b) > 0))";
        tell_predicate(alloc, program, text, report);
        tell_predicate(alloc, program, b"(x = y)", report);
    }
}

fn tell_line(alloc: Global, program: &Program, line: &str, report: &mut Vec<u8>) {
    let parsed = again!(Refusal::Memory, parse_line(alloc, program, line.as_bytes()));
    tell("parse_line", &parsed, report);
}

fn tell_lines(alloc: Global, program: &Program, report: &mut Vec<u8>) {
    for line in [HALTING, TOGETHER, "1 next a", "1 break k a (x = y)"] {
        tell_line(alloc, program, line, report);
    }
}

fn tell_board(alloc: Global, report: &mut Vec<u8>) -> Result<(), Refusal> {
    let (board, _publisher, mut views) = again!(Refusal::Memory, Board::new(alloc, 3))?;
    if let Some(mut view) = views.pop() {
        tell("Board::new", &board.look(&mut view), report);
    }
    Ok(())
}

fn new_session(alloc: Global) -> Result<Session<NextCmd>, Refusal> {
    Session::new(alloc, program_of_text(alloc, TWO)?)
}

fn tell_session(alloc: Global, report: &mut Vec<u8>) -> Result<(), Refusal> {
    tell_board(alloc, report)?;
    let session = again!(Refusal::Memory, new_session(alloc))?;
    let values = again!(Refusal::Memory, session.ask(alloc, &Query::Vars(B)));
    tell("Session::new", &values, report);
    Ok(())
}

fn parsed_again(alloc: Global, text: &str) -> Result<Program, ProgError> {
    again!(ProgError::Memory, parse_program(alloc, text.as_bytes()))
}

// Reports what is made from the program.
fn tell_all_of<R: Threads + Wait + Sync>(
    rt: &R,
    alloc: Global,
    program: &Program,
    report: &mut Vec<u8>,
) {
    tell_process(program, A, report);
    tell_process(program, B, report);
    tell_predicates(alloc, program, report);
    tell_lines(alloc, program, report);
    let reported = tell_scans(rt, alloc, program, report);
    tell("scans", &reported, report);
}

/// Makes each of these, and reports it. A call that is refused as out of memory is made again.
pub(crate) fn tell_makings<R: Threads + Wait + Sync>(rt: &R, alloc: Global, report: &mut Vec<u8>) {
    tell("parse_program", &parsed_again(alloc, WRONG), report);
    if let Ok(program) = parsed_again(alloc, TWO) {
        tell_all_of(rt, alloc, &program, report);
    }
    let reported = tell_session(alloc, report);
    tell("session", &reported, report);
}
