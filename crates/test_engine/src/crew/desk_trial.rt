//! How a desk is made.

ghost use Rattle.std.specs.Prelude.{◌≤◌};
ghost use Rattle.dbg_base.specs.declared.limits.TheConstants.{SEATS};
ghost use Rattle.test_engine.specs.Runs.{MakesFresh};
ghost use Rattle.dbg_desk.specs.Openings.{IsOpeningOf};

use crate::crew::reported::{said_to, said_to_question};
use dbg_base::{Call, Gate, Plan, Refusal, Reply, Said};
use dbg_command::Command;
use dbg_desk::{Desk, Locked, Opening, Run, Seat};
use proc_lang::parse_program;
use std::alloc::Global;
use std::process::Abort;
use std::sync::Wait;
use std::thread::Threads;
use test_programs::{MEMORY, THREE};

/// The opening of a run of the program with so many seats.
pub fn make_opening(rt: &impl Abort, alloc: Global, seats: u32) -> Opening
    requires { (1 ≤ seats) × (seats ≤ SEATS) }
{
    let program = parse_program(alloc, THREE.as_bytes()).expect(rt, "a program");
    Opening::new(alloc, program, seats).expect(rt, MEMORY)
}

/// A desk and two seats.
#[derive(Drop)]
pub struct Pair<L: Run, C: Command> {
    pub desk: Desk<L, C>,
    pub one: Seat<L>,
    pub two: Seat<L>,
}

/// A desk and its last two seats. Error: out of memory, or no two seats.
pub fn begin_pair<L: Run, C: Command>(
    alloc: Global,
    opening: Opening,
) -> Result<Pair<L, C>, Refusal>
    requires { IsOpeningOf L.program L.board L.name L.parts L.seats opening }
{
    let (desk, mut seats) = opening.desk::<L, C>(alloc)?;
    match (seats.pop(), seats.pop()) {
        (Some(two), Some(one)) => Ok(Pair { desk, one, two }),
        _ => Err(Refusal::BadLine),
    }
}

/// The seat gives this at the desk.
pub fn give<
    L: Run,
    C: Command,
    M: Fn(Plan) -> Result<C, Refusal>,
    G: Gate,
    R: Threads + Wait + Sync,
>(
    rt: &R,
    alloc: Global,
    desk: &Desk<L, C>,
    seat: &mut Seat<L>,
    make: &M,
    plan: Plan,
    gate: &G,
) -> Result<Reply, Refusal>
    requires makes { (M.IsAlwaysCallable make.now) × MakesFresh (M.post make.now) C.IsFresh }
{
    let command = make(plan)?;
    desk.call(rt, alloc, seat, command, gate)
}

/// The seat makes this call under the lock.
pub fn enter<L: Run, C: Command, M: Fn(Plan) -> Result<C, Refusal>>(
    alloc: Global,
    locked: &mut Locked<L, C>,
    seat: &mut Seat<L>,
    make: &M,
    call: Call,
) -> Result<Said, Refusal>
    requires makes { (M.IsAlwaysCallable make.now) × MakesFresh (M.post make.now) C.IsFresh }
{
    match call {
        Call::Give(plan) => {
            let command = make(plan)?;
            Ok(said_to(locked.enter(alloc, seat, command, None)))
        }
        Call::Back => Ok(said_to(locked.enter_back(seat))),
        Call::Ask(query) => Ok(said_to_question(locked.enter_ask(alloc, seat, query))),
    }
}
