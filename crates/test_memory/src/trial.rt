//! A session under its lock, its seats and its board, and the answers to command lines.

ghost use Rattle.std.specs.Prelude.{◌≡◌};
ghost use Rattle.dbg_base.specs.Calls.{Give, call_of, order_of};
ghost use Rattle.dbg_base.specs.Fits.{FitsCall};
ghost use Rattle.dbg_command.specs.Tables.{IsGivable, said_of, reported_of};
ghost use Rattle.shell_parse.specs.Lines as lines;
ghost use Rattle.test_memory.specs.Runs.{MakesFresh};
ghost use Rattle.dbg_desk.specs.Openings.{IsOpeningOf};

use crate::beginning::ThreeSeats;
use dbg_base::{Answer, Call, Plan, Refusal, Reply, Said};
use dbg_board::{Board, SeatView};
use dbg_command::{Command, Givable};
use dbg_desk::{Locked, Opening, Run, Seat};
use shell_io::Noted;
use shell_parse::parse_line;
use shell_print::{print_refusal, print_said, question};
use std::alloc::Global;

/// A session under its lock, its seats, and its board, with a display that looks at it.
#[derive(Drop)]
pub(crate) struct MemoryTrial<L: Run, C: Command> {
    pub(crate) locked: Locked<L, C>,
    pub(crate) seats: Vec<Seat<L>>,
    pub(crate) board: Board,
    pub(crate) display: SeatView,
    ghost looks: { display.board ≡ board },
}

/// Begins a trial.
pub(crate) fn begin_trial<L: Run, C: Command>(
    alloc: Global,
    beginning: ThreeSeats,
) -> Result<MemoryTrial<L, C>, Refusal>
    requires { IsOpeningOf L.program L.board L.name L.parts L.seats beginning.opening }
{
    let ThreeSeats { opening, display } = beginning;
    let Opening {
        program,
        blank,
        board,
        publisher,
        views,
    } = opening;
    let (locked, seats) = Locked::new(alloc, blank, publisher, views, program)?;
    Ok(MemoryTrial {
        locked,
        seats,
        board,
        display,
    })
}

fn said_to_command(outcome: Result<Reply, Refusal>) -> Said
    ensures { result ≡ said_of outcome }
{
    match outcome {
        Ok(reply) => Said::Accepted(reply),
        Err(refusal) => Said::Refused(refusal),
    }
}

fn said_to_question(outcome: Result<Answer, Refusal>) -> Said
    ensures { result ≡ reported_of outcome }
{
    match outcome {
        Ok(answer) => Said::Answered(answer),
        Err(refusal) => Said::Refused(refusal),
    }
}

// Makes a seat's call, and returns what was said to it.
fn answer<L: Run, C: Command, M: Fn(Givable) -> Result<C, Refusal>>(
    alloc: Global,
    make: &M,
    locked: &mut Locked<L, C>,
    seat: &mut Seat<L>,
    call: Call,
) -> Said
    requires makes { (M.IsAlwaysCallable make.now) × MakesFresh (M.post make.now) C.IsFresh }
    requires givable { lines.IsGivable call }
    ensures fits { FitsCall L.program (call_of call) result }
{
    match call {
        Call::Give(plan) => match make(Givable::new(plan)) {
            Ok(command) => said_to_command(locked.enter(alloc, seat, command, None)),
            Err(refusal) => Said::Refused(refusal),
        },
        Call::Back => said_to_command(locked.enter_back(seat)),
        Call::Ask(query) => said_to_question(locked.enter_ask(alloc, seat, query)),
    }
}

/// Appends the answer to a command line to this text. If memory runs out in the line's call, that is `no 21`.
pub(crate) fn say<L: Run, C: Command, M: Fn(Givable) -> Result<C, Refusal>>(
    alloc: Global,
    make: &M,
    trial: &mut MemoryTrial<L, C>,
    line: &str,
    text: &mut Vec<u8>,
)
    requires makes { (M.IsAlwaysCallable make.now) × MakesFresh (M.post make.now) C.IsFresh }
{
    let MemoryTrial { locked, seats, .. } = trial;
    match parse_line(alloc, locked.program(), line.as_bytes()) {
        Ok(Some(line)) => {
            if let Some(seat) = seats.get_mut(line.seat as usize - 1) {
                let asked = question(&line.call);
                let said = answer(alloc, make, locked, seat, line.call);
                let _ = print_said(locked.program(), &asked, &said, &mut Noted::new(text));
            }
        }
        Ok(None) => {}
        Err(refusal) => {
            let _ = print_refusal(locked.program(), &refusal, &mut Noted::new(text));
        }
    }
}
