//! Seats at one desk, each in its own thread; and the entered calls, given again on one thread.

ghost use Rattle.std.specs.Prelude.{◌≤◌, IfOk};
ghost use Rattle.dbg_base.specs.declared.limits.TheConstants.{SEATS};
ghost use Rattle.dbg_base.specs.Calls.{AreCommands};
ghost use Rattle.test_engine.specs.Runs.{MakesFresh};
ghost use Rattle.dbg_desk.specs.Openings.{IsOpeningOf};

use crate::crew::desk_trial::{enter, give, make_opening};
use crate::crew::plans::set_break;
use crate::crew::trials::{Trial, run};
use crate::expecting::{expect_same, expect_true};
use dbg_base::{Call, OpenGate, Pid, Plan, Query, Refusal, Said};
use dbg_command::Command;
use dbg_desk::{Closing, Desk, Entry, Locked, Opening, Run, Seat};
use std::alloc::Global;
use std::marker::Brand;
use std::process::Abort;
use std::sync::Wait;
use std::thread;
use std::thread::Threads;
use test_programs::MEMORY;

const A: Pid = Pid(0);

const B: Pid = Pid(1);

// How often the sixteen seats of mixed calls play.
const ROUNDS: u32 = 100;

// How often a seat looks at the board in each of its turns.
const LOOKS: u32 = 100;

// What a seat does in its turn.
#[derive(Clone, Copy)]
enum Role {
    // A command of one of four kinds, `back`, and a query.
    Mixed,
    // `next a` and `undo a`.
    Steps,
    // `next b` and `rollback a 0`.
    Rolls,
    // `break k b (n = 1)` and `back`.
    Breaks,
    // A batch of two commands, and `undo b`.
    Batches,
    // It looks at the board, again and again.
    Looks,
}

// Who plays.
#[derive(Clone, Copy)]
enum Play {
    // Sixteen seats of mixed calls.
    Mixed,
    // Three seats, one of each kind that steps, rolls back and breaks.
    Rivals,
    // Fifteen seats of such kinds and of batches, and one that looks.
    AllRivals,
}

// How many seats play.
fn seats_of(play: Play) -> u32
    ensures { (1 ≤ result) × (result ≤ SEATS) }
{
    match play {
        Play::Rivals => 3,
        _ => 16,
    }
}

// How often each seat has its turn.
fn turns_of(play: Play) -> u32 {
    match play {
        Play::Mixed => 125,
        _ => 100,
    }
}

// How many calls all seats make.
fn calls_of(play: Play) -> usize {
    match play {
        Play::Mixed => 6_000,
        Play::Rivals => 600,
        Play::AllRivals => 3_000,
    }
}

// What the seat at this position does.
fn role_of(play: Play, place: usize) -> Role {
    match (play, place) {
        (Play::Mixed, _) => Role::Mixed,
        (_, 15) => Role::Looks,
        _ => match place % 4 {
            0 => Role::Steps,
            1 => Role::Rolls,
            2 => Role::Breaks,
            _ => Role::Batches,
        },
    }
}

// The command that a seat of mixed calls gives at this turn.
fn plan_at(rt: &impl Abort, alloc: Global, turn: u32) -> Plan {
    let pid = Pid(turn % 3);
    match turn % 8 {
        5 => Plan::Undo(pid),
        6 => Plan::Rollback(pid, 0),
        7 => set_break(rt, alloc, "k", &[(A, 0, 2)]),
        _ => Plan::Next(pid),
    }
}

/// The commands of each batch.
pub fn two_commands(alloc: Global) -> Result<Vec<Plan>, Refusal>
    ensures { IfOk result (λ plans. AreCommands plans.items) }
{
    let mut plans = Vec::new(alloc);
    plans.push(Plan::Next(A))?;
    plans.push(Plan::Next(B))?;
    Ok(plans)
}

// A batch.
fn batch(rt: &impl Abort, alloc: Global) -> Plan {
    Plan::Batch(two_commands(alloc).expect(rt, MEMORY))
}

// The seat gives this command, whatever the answer is.
fn try_give<
    L: Run,
    C: Command,
    M: Fn(Plan) -> Result<C, Refusal>,
    R: Threads + Wait + Abort + Sync,
>(rt: &R, alloc: Global, desk: &Desk<L, C>, seat: &mut Seat<L>, make: &M, plan: Plan)
    requires makes { (M.IsAlwaysCallable make.now) × MakesFresh (M.post make.now) C.IsFresh }
{
    let _reply = give(rt, alloc, desk, seat, make, plan, &OpenGate);
}

// The seat looks at the board, again and again.
fn look_on<L: Run, C: Command>(desk: &Desk<L, C>, seat: &mut Seat<L>) {
    for _ in 0..LOOKS {
        let _glance = desk.look(seat);
    }
}

// The two commands of a seat that steps, rolls back or gives batches.
fn two_of(rt: &impl Abort, alloc: Global, role: Role) -> (Plan, Plan) {
    match role {
        Role::Steps => (Plan::Next(A), Plan::Undo(A)),
        Role::Rolls => (Plan::Next(B), Plan::Rollback(A, 0)),
        _ => (batch(rt, alloc), Plan::Undo(B)),
    }
}

// The seat takes so many turns in its role.
fn take_turns<
    L: Run,
    C: Command,
    M: Fn(Plan) -> Result<C, Refusal>,
    R: Threads + Wait + Abort + Sync,
>(rt: &R, alloc: Global, desk: &Desk<L, C>, seat: &mut Seat<L>, make: &M, role: Role, turns: u32)
    requires makes { (M.IsAlwaysCallable make.now) × MakesFresh (M.post make.now) C.IsFresh }
{
    for turn in 0..turns {
        match role {
            Role::Mixed => {
                try_give(rt, alloc, desk, seat, make, plan_at(rt, alloc, turn));
                let _reply = desk.back(rt, seat);
                let _answer = desk.ask(rt, alloc, seat, Query::Vars(Pid(turn % 3)));
            }
            Role::Breaks => {
                let plan = set_break(rt, alloc, "k", &[(B, 1, 1)]);
                try_give(rt, alloc, desk, seat, make, plan);
                let _reply = desk.back(rt, seat);
            }
            Role::Looks => look_on(desk, seat),
            _ => {
                let (first, second) = two_of(rt, alloc, role);
                try_give(rt, alloc, desk, seat, make, first);
                try_give(rt, alloc, desk, seat, make, second);
            }
        }
    }
}

// Each seat takes its turns, in its own thread.
fn all_take_turns<
    L: Run + Send + Sync,
    C: Command,
    M: Fn(Plan) -> Result<C, Refusal> + Sync,
    R: Threads + Wait + Abort + Sync,
>(rt: &R, alloc: Global, desk: &Desk<L, C>, seats: &mut [Seat<L>], make: &M, play: Play)
    requires makes { (M.IsAlwaysCallable make.now) × MakesFresh (M.post make.now) C.IsFresh }
{
    if seats.is_empty() {
        return;
    }
    let work = |place: usize, seat: &mut Seat<L>|
        requires { (M.IsAlwaysCallable make.now) × MakesFresh (M.post make.now) C.IsFresh }
    {
        take_turns(
            rt,
            alloc,
            desk,
            seat,
            make,
            role_of(play, place),
            turns_of(play),
        )
    };
    thread::for_each_mut(rt, seats, seats.len(), &work);
}

// How many calls these seats have of their own.
fn count_calls<L: Run>(seats: &[Seat<L>]) -> usize {
    let mut calls = 0usize;
    for seat in seats {
        calls = calls.saturating_add(seat.own_calls().len());
    }
    calls
}

// An entered call, its seat, and its answer.
#[derive(Drop)]
struct Reported {
    seat: u32,
    call: Call,
    said: Said,
}

// Copies an entry.
fn reported_of(rt: &impl Abort, entry: &Entry) -> Reported {
    let call = entry.call.copy().expect(rt, MEMORY);
    let said = entry.said.copy().expect(rt, MEMORY);
    let seat = entry.seat;
    Reported { seat, call, said }
}

// The entered calls, in order.
fn reported_calls<L: Run, C: Command>(
    rt: &impl Abort,
    alloc: Global,
    locked: &Locked<L, C>,
) -> Vec<Reported> {
    let mut reported = Vec::new(alloc);
    for place in 0..locked.calls() {
        if let Some(entry) = locked.entry(place) {
            reported.push(reported_of(rt, entry)).expect(rt, MEMORY);
        }
    }
    reported
}

// Expects so many calls, of the seats and of the desk.
fn expect_settled<L: Run, C: Command, R: Threads + Wait + Abort + Sync>(
    rt: &R,
    desk: &Desk<L, C>,
    seats: &[Seat<L>],
    calls: usize,
) {
    expect_same(rt, count_calls(seats), calls);
    expect_same(rt, desk.settle(rt, seats), Ok(Closing { calls }));
}

// The play: all calls are entered, and the seats settle. Returns the entered calls.
fn many_calls<
    L: Run + Send + Sync,
    C: Command,
    M: Fn(Plan) -> Result<C, Refusal> + Sync,
    R: Threads + Wait + Abort + Sync,
>(rt: &R, alloc: Global, make: &M, opening: Opening, play: Play) -> Vec<Reported>
    requires makes { (M.IsAlwaysCallable make.now) × MakesFresh (M.post make.now) C.IsFresh }
    requires run { IsOpeningOf L.program L.board L.name L.parts L.seats opening }
{
    let (desk, mut seats) = opening.desk::<L, C>(alloc).expect(rt, "a desk");
    all_take_turns(rt, alloc, &desk, seats.as_mut_slice(), make, play);
    expect_settled(rt, &desk, seats.as_slice(), calls_of(play));
    let locked = desk.into_locked();
    let reported = reported_calls(rt, alloc, &locked);
    drop(seats);
    drop(locked);
    reported
}

// Expects the call to have the same answer again.
fn expect_said_again<L: Run, C: Command, M: Fn(Plan) -> Result<C, Refusal>>(
    rt: &impl Abort,
    alloc: Global,
    locked: &mut Locked<L, C>,
    seats: &mut [Seat<L>],
    make: &M,
    reported: Reported,
)
    requires makes { (M.IsAlwaysCallable make.now) × MakesFresh (M.post make.now) C.IsFresh }
{
    let Reported { seat, call, said } = reported;
    let place = seat.saturating_sub(1) as usize;
    let seat = seats.get_mut(place).expect(rt, "a seat");
    let again = enter(alloc, locked, seat, make, call).expect(rt, "an answer");
    expect_true(rt, again == said);
}

// Expects the same answers if the same calls are given in order on one thread.
fn expect_again<L: Run, C: Command, M: Fn(Plan) -> Result<C, Refusal>>(
    rt: &impl Abort,
    alloc: Global,
    make: &M,
    opening: Opening,
    reported: Vec<Reported>,
)
    requires makes { (M.IsAlwaysCallable make.now) × MakesFresh (M.post make.now) C.IsFresh }
    requires run { IsOpeningOf L.program L.board L.name L.parts L.seats opening }
{
    let (mut locked, mut seats) = opening.lock::<L, C>(alloc).expect(rt, "a lock");
    for reported in reported {
        expect_said_again(rt, alloc, &mut locked, seats.as_mut_slice(), make, reported);
    }
    drop(seats);
    drop(locked);
}

// The play, at a new desk.
fn play_once<
    C: Command,
    M: Fn(Plan) -> Result<C, Refusal> + Sync,
    R: Threads + Wait + Abort + Sync,
>(rt: &R, alloc: Global, make: &M, play: Play) -> Vec<Reported>
    requires makes { (M.IsAlwaysCallable make.now) × MakesFresh (M.post make.now) C.IsFresh }
{
    let opening = make_opening(rt, alloc, seats_of(play));
    many_calls::<Brand, C, M, R>(rt, alloc, make, opening, play)
}

// The play, and its calls given again in order on one thread.
fn play_again<
    C: Command,
    M: Fn(Plan) -> Result<C, Refusal> + Sync,
    R: Threads + Wait + Abort + Sync,
>(rt: &R, alloc: Global, make: &M, play: Play)
    requires makes { (M.IsAlwaysCallable make.now) × MakesFresh (M.post make.now) C.IsFresh }
{
    let reported = play_once(rt, alloc, make, play);
    expect_same(rt, reported.len(), calls_of(play));
    let opening = make_opening(rt, alloc, seats_of(play));
    expect_again::<Brand, C, M>(rt, alloc, make, opening, reported);
}

/// Plays all plays: the first a hundred times, and the calls of the others again.
pub fn play_all<
    C: Command,
    M: Fn(Plan) -> Result<C, Refusal> + Sync,
    R: Threads + Wait + Abort + Sync,
>(rt: &R, alloc: Global, make: &M)
    requires makes { (M.IsAlwaysCallable make.now) × MakesFresh (M.post make.now) C.IsFresh }
{
    for _ in 0..ROUNDS {
        play_once(rt, alloc, make, Play::Mixed);
    }
    play_again(rt, alloc, make, Play::Rivals);
    play_again(rt, alloc, make, Play::AllRivals);
}

#[test]
fn seats_on_threads_settle(rt: HostRuntime) {
    run(&rt, rt.alloc(), Trial::Many);
}
