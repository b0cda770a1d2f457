//! Command lines, each of which is given again if memory runs out.

ghost use Rattle.test_memory.specs.Runs.{MakesFresh};
ghost use Rattle.dbg_desk.specs.Openings.{IsOpeningOf};

use crate::beginning::{ThreeSeats, begin};
use crate::picture::picture;
use crate::report::{tell, tell_text};
use crate::trial::{MemoryTrial, begin_trial, say};
use dbg_base::Refusal;
use dbg_command::{Command, Givable};
use dbg_desk::Run;
use std::alloc::Global;
use std::io::Write;
use std::marker::Brand;

/// A program, lines of the seats 1 and 2, and lines of the seat 3 that ask for all that a session shows.
pub(crate) struct Script {
    pub(crate) name: &'static str,
    pub(crate) program: &'static str,
    pub(crate) lines: &'static [&'static str],
    pub(crate) looks: &'static [&'static str],
}

// What a session shows after these lines.
fn picture_of<L: Run, C: Command, M: Fn(Givable) -> Result<C, Refusal>>(
    alloc: Global,
    make: &M,
    beginning: ThreeSeats,
    script: &Script,
    lines: &[&str],
) -> Result<Vec<u8>, Refusal>
    requires makes { (M.IsAlwaysCallable make.now) × MakesFresh (M.post make.now) C.IsFresh }
    requires run { IsOpeningOf L.program L.board L.name L.parts L.seats beginning.opening }
{
    let mut trial = begin_trial::<L, C>(alloc, beginning)?;
    let mut text = Vec::new(alloc);
    for line in lines {
        say(alloc, make, &mut trial, line, &mut text);
    }
    let picture = picture(alloc, make, &mut trial, script.looks);
    drop(trial);
    Ok(picture?)
}

// What a session shows after the first lines of a script if no allocation fails.
fn expected<C: Command, M: Fn(Givable) -> Result<C, Refusal>>(
    alloc: Global,
    make: &M,
    script: &Script,
    lines: &[&str],
) -> Result<Vec<u8>, Refusal>
    requires makes { (M.IsAlwaysCallable make.now) × MakesFresh (M.post make.now) C.IsFresh }
{
    let beginning = begin(alloc, script.program)?;
    picture_of::<Brand, C, M>(alloc, make, beginning, script, lines)
}

// Whether the session shows the same as after these lines alone.
fn is_as_after<L: Run, C: Command, M: Fn(Givable) -> Result<C, Refusal>>(
    alloc: Global,
    make: &M,
    trial: &mut MemoryTrial<L, C>,
    script: &Script,
    lines: &[&str],
) -> Result<bool, Refusal>
    requires makes { (M.IsAlwaysCallable make.now) × MakesFresh (M.post make.now) C.IsFresh }
{
    let seen = picture(alloc, make, trial, script.looks)?;
    let wanted = expected(alloc, make, script, lines)?;
    Ok(seen.as_slice() == wanted.as_slice())
}

// The answer to the line at this position. If memory runs out, the session must show the same as before, and the line is given again.
fn say_twice<L: Run, C: Command, M: Fn(Givable) -> Result<C, Refusal>>(
    alloc: Global,
    make: &M,
    trial: &mut MemoryTrial<L, C>,
    script: &Script,
    place: usize,
    text: &mut Vec<u8>,
)
    requires makes { (M.IsAlwaysCallable make.now) × MakesFresh (M.post make.now) C.IsFresh }
{
    let (before, after) = script.lines.split_at(place.min(script.lines.len()));
    let Some(line) = after.first() else {
        return;
    };
    text.clear();
    say(alloc, make, trial, line, text);
    if text.as_slice() == b"no 21\n".as_slice() {
        text.clear();
        match is_as_after(alloc, make, trial, script, before) {
            Ok(true) => {}
            other => {
                let _ = write!(text, "differs: {other:?}: ");
            }
        }
        say(alloc, make, trial, line, text);
    }
}

// Gives the lines of a script, and reports the answers.
fn play<L: Run, C: Command, M: Fn(Givable) -> Result<C, Refusal>>(
    alloc: Global,
    make: &M,
    beginning: ThreeSeats,
    script: &Script,
    text: &mut Vec<u8>,
    report: &mut Vec<u8>,
) -> Result<(), Refusal>
    requires makes { (M.IsAlwaysCallable make.now) × MakesFresh (M.post make.now) C.IsFresh }
    requires run { IsOpeningOf L.program L.board L.name L.parts L.seats beginning.opening }
{
    let mut trial = begin_trial::<L, C>(alloc, beginning)?;
    for (place, line) in script.lines.iter().enumerate() {
        say_twice(alloc, make, &mut trial, script, place, text);
        tell_text(line, text.as_slice(), report);
    }
    let settled = trial.locked.settle(&trial.seats).is_ok();
    tell("settled", &settled, report);
    drop(trial);
    Ok(())
}

// Plays a script in a new session.
fn begin_and_play<C: Command, M: Fn(Givable) -> Result<C, Refusal>>(
    alloc: Global,
    make: &M,
    script: &Script,
    text: &mut Vec<u8>,
    report: &mut Vec<u8>,
) -> Result<(), Refusal>
    requires makes { (M.IsAlwaysCallable make.now) × MakesFresh (M.post make.now) C.IsFresh }
{
    let beginning = begin(alloc, script.program)?;
    play::<Brand, C, M>(alloc, make, beginning, script, text, report)
}

/// Plays a script, and reports the answer to each line. If memory runs out before the first line, it starts again.
pub(crate) fn play_script<C: Command, M: Fn(Givable) -> Result<C, Refusal>>(
    alloc: Global,
    make: &M,
    script: &Script,
    text: &mut Vec<u8>,
    report: &mut Vec<u8>,
)
    requires makes { (M.IsAlwaysCallable make.now) × MakesFresh (M.post make.now) C.IsFresh }
{
    let _ = write!(report, "session {}\n", script.name);
    let mut played = begin_and_play(alloc, make, script, text, report);
    if played == Err(Refusal::Memory) {
        played = begin_and_play(alloc, make, script, text, report);
    }
    if played.is_err() {
        let _ = write!(report, "differs: {played:?}\n");
    }
}
