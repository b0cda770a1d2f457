//! A journal that is full.

ghost use Rattle.test_memory.specs.Runs.{MakesFresh};
ghost use Rattle.dbg_desk.specs.Openings.{IsOpeningOf};

use crate::beginning::{ThreeSeats, begin};
use crate::report::{tell, tell_text};
use crate::trial::{MemoryTrial, begin_trial, say};
use dbg_base::limits::CALLS;
use dbg_base::{Pid, Query, Refusal};
use dbg_board::Glance;
use dbg_command::{Command, Givable};
use dbg_desk::Run;
use std::alloc::Global;
use std::marker::Brand;
use test_programs::TWO;

// Lines that are given when the journal has room for only `LEFT` of them.
const LINES: [&str; 16] = [
    "1 next a",
    "1 break k a (x = 1)",
    "1 step a 0",
    "1 next a",
    "1 undo a",
    "1 redo a",
    "1 rollback a 0",
    "1 goto k",
    "1 break m a (x = 1)",
    "1 clear k",
    "1 arm k",
    "1 pass k",
    "2 batch undo a ; next a",
    "1 back",
    "2 vars a",
    "2 place a",
];

// How many lines fit in the journal.
const LEFT: usize = 2;

// The first seat asks for a place until the journal is nearly full, each time again if memory runs out.
fn fill<L: Run, C: Command>(alloc: Global, trial: &mut MemoryTrial<L, C>) {
    let MemoryTrial { locked, seats, .. } = trial;
    let Some(seat) = seats.first_mut() else {
        return;
    };
    for _ in LEFT..CALLS {
        if locked.enter_ask(alloc, seat, Query::Place(Pid(0))).is_err() {
            let _ = locked.enter_ask(alloc, seat, Query::Place(Pid(0)));
        }
    }
}

// How many calls the session has, how many the seats have of their own, and what the board shows.
fn counts<L: Run, C: Command>(trial: &mut MemoryTrial<L, C>) -> (usize, usize, Glance) {
    let mut own = 0usize;
    for seat in &trial.seats {
        own = own.saturating_add(seat.own_calls().len());
    }
    let glance = trial.board.look(&mut trial.display);
    (trial.locked.calls(), own, glance)
}

// The answer to a line, which is given again if memory runs out. The text tells if the first try changed something.
fn say_twice<L: Run, C: Command, M: Fn(Givable) -> Result<C, Refusal>>(
    alloc: Global,
    make: &M,
    trial: &mut MemoryTrial<L, C>,
    line: &str,
    text: &mut Vec<u8>,
)
    requires makes { (M.IsAlwaysCallable make.now) × MakesFresh (M.post make.now) C.IsFresh }
{
    let before = counts(trial);
    text.clear();
    say(alloc, make, trial, line, text);
    if text.as_slice() != b"no 21\n".as_slice() {
        return;
    }
    text.clear();
    if counts(trial) != before {
        let _ = text.extend_from_slice(b"differs: ");
    }
    say(alloc, make, trial, line, text);
}

// Fills the journal, and reports the answers to the lines.
fn play<L: Run, C: Command, M: Fn(Givable) -> Result<C, Refusal>>(
    alloc: Global,
    make: &M,
    beginning: ThreeSeats,
    text: &mut Vec<u8>,
    report: &mut Vec<u8>,
) -> Result<(), Refusal>
    requires makes { (M.IsAlwaysCallable make.now) × MakesFresh (M.post make.now) C.IsFresh }
    requires run { IsOpeningOf L.program L.board L.name L.parts L.seats beginning.opening }
{
    let mut trial = begin_trial::<L, C>(alloc, beginning)?;
    fill(alloc, &mut trial);
    for line in LINES {
        say_twice(alloc, make, &mut trial, line, text);
        tell_text(line, text.as_slice(), report);
    }
    tell("settle", &trial.locked.settle(&trial.seats), report);
    drop(trial);
    Ok(())
}

fn begin_and_play<C: Command, M: Fn(Givable) -> Result<C, Refusal>>(
    alloc: Global,
    make: &M,
    text: &mut Vec<u8>,
    report: &mut Vec<u8>,
) -> Result<(), Refusal>
    requires makes { (M.IsAlwaysCallable make.now) × MakesFresh (M.post make.now) C.IsFresh }
{
    let beginning = begin(alloc, TWO)?;
    play::<Brand, C, M>(alloc, make, beginning, text, report)
}

/// Makes calls when the journal is full, and reports the answer to each. If memory runs out before the first call, it starts again.
pub(crate) fn play_full<C: Command, M: Fn(Givable) -> Result<C, Refusal>>(
    alloc: Global,
    make: &M,
    text: &mut Vec<u8>,
    report: &mut Vec<u8>,
)
    requires makes { (M.IsAlwaysCallable make.now) × MakesFresh (M.post make.now) C.IsFresh }
{
    let mut played = begin_and_play(alloc, make, text, report);
    if played == Err(Refusal::Memory) {
        played = begin_and_play(alloc, make, text, report);
    }
    tell("full", &played, report);
}
