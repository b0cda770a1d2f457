//! Tests of `check_why` of `least_cut`: a list of eliminations is sound exactly if each step is justified.

ghost use Rattle.proc_tree.specs.Programs.{program_of};
ghost use Rattle.causal_world.specs.Scenes.{IsWorldOf};

use crate::engine::worlds::{conjunct, parsed, played};
use crate::expecting::expect_same;
use causal_world::World;
use dbg_base::{Choice, Pid};
use least_cut::{Cause, Elimination, check_why};
use proc_tree::Program;
use std::alloc::Global;
use std::process::Abort;
use test_programs::TWO;

const A: Pid = Pid(0);

const B: Pid = Pid(1);

const C: Pid = Pid(2);

fn passes(pid: Pid, from: u32, to: u32, cause: Cause) -> Elimination {
    Elimination {
        pid,
        from,
        to,
        cause,
    }
}

// Expects for each list whether it is sound in the world after the first process has sent once and the second has received that. The
// first has not counted, and the second has received one message: no cut has both.
fn expect_sound(
    rt: &impl Abort,
    alloc: Global,
    program: &Program,
    world: &World,
    cases: &[(&str, bool, &[Elimination])],
)
    requires { IsWorldOf (program_of program.now) world.now }
{
    let conjuncts = [
        conjunct(rt, alloc, program, A, "(x = 0)"),
        conjunct(rt, alloc, program, B, "(n = 1)"),
    ];
    for (name, sound, list) in cases {
        let reported = check_why(alloc, world, &conjuncts, list);
        expect_same(rt, (*name, reported), (*name, Ok(*sound)));
    }
}

#[test]
fn a_list_is_sound_if_each_step_follows(rt: HostRuntime) {
    let program = parsed(&rt, rt.alloc(), TWO);
    let moves = [(A, Choice(0)), (B, Choice(0))];
    let world = played(&rt, rt.alloc(), &program, &moves);
    // The second must receive a message, which the first must have sent. Then the first is no longer where it was.
    let following = [
        passes(B, 0, 1, Cause::FalseAt),
        passes(A, 0, 1, Cause::Passed(B, 1)),
        passes(A, 1, 2, Cause::FalseAt),
    ];
    let far = [
        passes(B, 0, 1, Cause::FalseAt),
        passes(A, 0, 2, Cause::Passed(B, 1)),
        passes(A, 1, 2, Cause::FalseAt),
    ];
    let holding = [passes(A, 0, 1, Cause::FalseAt)];
    let early = [passes(A, 0, 1, Cause::Passed(B, 1))];
    let unknown = [passes(C, 0, 1, Cause::FalseAt)];
    let cases = [
        ("steps that follow", true, following.as_slice()),
        ("no step", true, &[]),
        ("a clock that does not count so far", false, &far),
        ("a conjunct that is true", false, &holding),
        ("a clock that no cut needs yet", false, &early),
        ("a process that does not exist", false, &unknown),
    ];
    expect_sound(&rt, rt.alloc(), &program, &world, &cases);
}
