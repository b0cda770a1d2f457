//! All that a session shows.

ghost use Rattle.test_memory.specs.Runs.{MakesFresh};

use crate::trial::{MemoryTrial, say};
use dbg_base::Refusal;
use dbg_command::{Command, Givable};
use dbg_desk::Run;
use std::alloc::{AllocError, Global};
use std::fmt::Debug;

// Appends the `Debug` text of a value.
fn show<T: Debug>(alloc: Global, value: &T, picture: &mut Vec<u8>) -> Result<(), AllocError> {
    let shown = format!(in alloc; "{value:?}\n")?;
    picture.extend_from_slice(shown.as_bytes())
}

/// What the board shows, the journal, the seats' own records, and the answers to these lines. If the lines ask for all that a session
/// shows, this is all of it. A line `back` belongs to a seat that gives no command, so it takes nothing back.
pub(crate) fn picture<L: Run, C: Command, M: Fn(Givable) -> Result<C, Refusal>>(
    alloc: Global,
    make: &M,
    trial: &mut MemoryTrial<L, C>,
    lines: &[&str],
) -> Result<Vec<u8>, AllocError>
    requires makes { (M.IsAlwaysCallable make.now) × MakesFresh (M.post make.now) C.IsFresh }
{
    let mut picture = Vec::new(alloc);
    let glance = trial.board.look(&mut trial.display);
    show(alloc, &glance, &mut picture)?;
    for place in 0..trial.locked.calls() {
        show(alloc, &trial.locked.entry(place), &mut picture)?;
    }
    for seat in &trial.seats {
        show(alloc, &(seat.number(), seat.own_calls()), &mut picture)?;
    }
    for line in lines {
        say(alloc, make, trial, line, &mut picture);
    }
    Ok(picture)
}
