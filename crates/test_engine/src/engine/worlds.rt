//! Worlds after some events, and conjuncts over them.

ghost use Rattle.std.specs.Prelude.{◌<◌, length, OnOk};
ghost use Rattle.proc_tree.specs.Programs.{program_of};
ghost use Rattle.causal_world.specs.Scenes.{IsWorldOf};

use causal_world::World;
use dbg_base::{Choice, Conjunct, Pid, Refusal};
use proc_lang::{parse_predicate, parse_program};
use proc_tree::Program;
use std::alloc::Global;
use std::process::Abort;
use test_programs::MEMORY;

/// The program of a text.
pub fn parsed(rt: &impl Abort, alloc: Global, text: &str) -> Program {
    parse_program(alloc, text.as_bytes()).expect(rt, "a program")
}

// Refuses a process that the program does not have.
fn known(program: &Program, pid: Pid) -> Result<(), Refusal>
    ensures { OnOk result (pid.0 < length (program_of program.now)) }
{
    if pid.0 < program.processes() {
        Ok(())
    } else {
        Err(Refusal::UnknownProcess)
    }
}

// Processes fire commands, one after the other.
fn play(
    world: &mut World,
    alloc: Global,
    program: &Program,
    moves: &[(Pid, Choice)],
) -> Result<(), Refusal>
    requires { IsWorldOf (program_of program.now) world.old }
    ensures { IsWorldOf (program_of program.now) world.new }
{
    for (pid, choice) in moves {
        known(program, *pid)?;
        world.step(alloc, program, *pid, *choice)?;
    }
    Ok(())
}

/// The world of the program after these events.
pub fn played(rt: &impl Abort, alloc: Global, program: &Program, moves: &[(Pid, Choice)]) -> World
    ensures { IsWorldOf (program_of program.now) result }
{
    let mut world = World::new(alloc, program).expect(rt, MEMORY);
    play(&mut world, alloc, program, moves).expect(rt, "the events");
    world
}

/// The conjunct of the process, from its text.
pub fn conjunct(rt: &impl Abort, alloc: Global, program: &Program, pid: Pid, text: &str) -> Conjunct
    ensures known { result.pid.0 < length (program_of program.now) }
{
    known(program, pid).expect(rt, "a process");
    let expr = parse_predicate(alloc, program, pid, text.as_bytes()).expect(rt, "a predicate");
    Conjunct { pid, expr }
}
