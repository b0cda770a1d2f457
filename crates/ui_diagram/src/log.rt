//! A session as a log, in the form that ShiViz reads.

ghost use Rattle.std.specs.Prelude.{◌≡◌, ◌++◌, map, IfOk, IfErr, OnOk};
ghost use Rattle.dbg_base.specs.declared.refusal.Refusal.TheVariants.{Memory};
ghost use Rattle.dbg_base.specs.Replies.{name_of};
ghost use Rattle.dbg_base.specs.SystemStates.{history_of};
ghost use Rattle.proc_tree.specs.Programs.{program_of};
ghost use Rattle.causal_world.specs.Scenes.{IsWorldOf};
ghost use Rattle.ui_diagram.specs.Logs.{after_commas, listed, counted, count_text, clock_text, entry_text, IsOneLine, IsLog};

use dbg_base::{Cut, Pid, Refusal};
use dbg_command::SessionView;
use itoa::Buffer;
use proc_tree::Program;
use std::alloc::{AllocError, Global};
use ui_text::{Notes, Part, ProgramText};
use ui_timeline::{ShownEvent, TimedEvent, event_of, timed_events};
use ui_view::ProcessView;

// The processes of which a clock counts at least one event, in order.
fn counted(alloc: Global, program: &Program, clock: &Cut) -> Result<Vec<Pid>, AllocError>
    ensures { IfOk result (λ pids. map (λ pid. pid.0) pids.items ≡ counted (program_of program.now) clock.now) }
{
    let mut pids = Vec::new(alloc);
    for p in 0..program.processes() {
        let count = clock.count(Pid(p));
        if count > 0 {
            pids.push(Pid(p))?;
        }
    }
    Ok(pids)
}

// Appends the name of a process.
fn put_name(text: &mut Vec<u8>, program: &Program, pid: Pid) -> Result<(), AllocError>
    ensures { OnOk result (text.new.items ≡ text.old.items ++ name_of (program_of program.now) pid.0) }
{
    match program.process_name(pid) {
        Some(name) => text.extend_from_slice(name.bytes()),
        None => Ok(()),
    }
}

// Appends the name of a process, and how many of its events the clock counts.
fn put_count(text: &mut Vec<u8>, program: &Program, clock: &Cut, pid: Pid) -> Result<(), AllocError>
    ensures { OnOk result (text.new.items ≡ text.old.items ++ count_text (program_of program.now) clock.now pid.0) }
{
    let mut buffer = Buffer::new();
    text.push(b'"')?;
    put_name(text, program, pid)?;
    text.extend_from_slice(b"\":")?;
    text.extend_from_slice(buffer.format(clock.count(pid)).as_bytes())
}

// The same for several, each after a comma.
fn put_others(
    text: &mut Vec<u8>,
    program: &Program,
    clock: &Cut,
    pids: &[Pid],
) -> Result<(), AllocError>
    ensures { OnOk result (text.new.items ≡ text.old.items
        ++ after_commas (map (count_text (program_of program.now) clock.now) (map (λ pid. pid.0) pids.now))) }
{
    for pid in pids {
        text.push(b',')?;
        put_count(text, program, clock, *pid)?;
    }
    Ok(())
}

// The same for several, with a comma between each and the next.
fn put_counts(
    text: &mut Vec<u8>,
    program: &Program,
    clock: &Cut,
    pids: &[Pid],
) -> Result<(), AllocError>
    ensures { OnOk result (text.new.items ≡ text.old.items
        ++ listed (map (count_text (program_of program.now) clock.now) (map (λ pid. pid.0) pids.now))) }
{
    if let [first, others @ ..] = pids {
        put_count(text, program, clock, *first)?;
        put_others(text, program, clock, others)?;
    }
    Ok(())
}

// Appends a clock as an object of JSON. Processes of which it counts no event are left out.
fn put_clock(
    alloc: Global,
    text: &mut Vec<u8>,
    program: &Program,
    clock: &Cut,
) -> Result<(), AllocError>
    ensures { OnOk result (text.new.items ≡ text.old.items ++ clock_text (program_of program.now) clock.now) }
{
    let pids = counted(alloc, program, clock)?;
    text.push(b'{')?;
    put_counts(text, program, clock, pids.as_slice())?;
    text.push(b'}')?;
    Ok(())
}

// Appends an entry: the process with the clock of its event, and in a line of its own what the event did.
fn put_entry(
    alloc: Global,
    text: &mut Vec<u8>,
    program: &Program,
    event: &TimedEvent,
    words: &[u8],
) -> Result<(), AllocError>
    ensures { OnOk result (text.new.items ≡ text.old.items
        ++ entry_text (program_of program.now) (record { event = event.now; words = words.now })) }
{
    put_name(text, program, event.pid)?;
    text.push(b' ')?;
    put_clock(alloc, text, program, &event.clock)?;
    text.push(b'\n')?;
    text.extend_from_slice(words)?;
    text.push(b'\n')?;
    Ok(())
}

// The text before the first line end.
fn prefix_line(text: &[u8]) -> &[u8]
    ensures { IsOneLine result.now }
{
    match text.iter().position(|byte| *byte == b'\n') {
        Some(end) => &text[..end],
        None => text,
    }
}

// Says what an event did, and by which command.
fn tell_event(
    notes: &mut Notes,
    view: SessionView<'_>,
    text: &ProgramText,
    shown: ShownEvent,
) -> Result<(), AllocError> {
    if let Some(event) = event_of(view.world, shown) {
        let scope = ProcessView::new(view.program, text, shown.pid);
        notes.say_with("command {}: ", &[scope.command(event.choice())])?;
        scope.put_event(notes, view.world, event)?;
    }
    Ok(())
}

// What an event did, in words.
fn words_of(
    alloc: Global,
    view: SessionView<'_>,
    text: &ProgramText,
    shown: ShownEvent,
) -> Result<Vec<u8>, AllocError>
    ensures { IfOk result (λ words. IsOneLine words.items) }
{
    let mut notes = Notes::new(alloc);
    tell_event(&mut notes, view, text, shown)?;
    Vec::from_slice(alloc, prefix_line(notes.line(0).bytes))
}

/// The events of a session as a log, in an order in which they can have happened. For each event: the process and its clock, and in a line
/// of its own what it did. Error: `Memory`, if an allocation fails.
pub fn write_log(
    alloc: Global,
    view: SessionView<'_>,
    source: &ProgramText,
) -> Result<Vec<u8>, Refusal>
    ensures log { IfOk result (λ text. ∥ IsLog (program_of view.entry.program.now) (history_of view.entry.world.now.state) text.items ∥₁) }
    ensures refuses { IfErr result (λ refusal. refusal ≡ Memory) }
{
    let events = timed_events(alloc, view.world)?;
    let mut text = Vec::new(alloc);
    for event in events.items() {
        let shown = ShownEvent {
            pid: event.pid,
            number: event.number,
        };
        let words = words_of(alloc, view, source, shown)?;
        put_entry(alloc, &mut text, view.program, event, words.as_slice())?;
    }
    Ok(text)
}
