//! A program text, and workers that give turns to its processes.

ghost use Rattle.std.specs.Prelude.{◌≡◌, ◌≢◌, ◌*◌, ◌<◌, ◌≤◌, [], min, length, IfOk, IfErr, IfSome};
ghost use Rattle.shell_io.specs.declared.health.Health.TheVariants.{Fine};
ghost use Rattle.shell_io.specs.Seen.{Appended};
ghost use Rattle.dbg_base.specs.declared.refusal.Refusal.TheVariants as refusals;
ghost use Rattle.dbg_base.specs.declared.limits.TheConstants.{CALLS, SEATS};
ghost use Rattle.dbg_base.specs.Calls.{One, Next};
ghost use Rattle.proc_tree.specs.Programs.{program_of};
ghost use Rattle.dbg_desk.specs.Desks.{new_seats};
ghost use Rattle.dbg_desk.specs.Openings.{IsOpeningOf};
ghost use Rattle.shell_print.specs.Outcomes.{source_after, sink_after};
ghost use Rattle.shell_print.specs.declared.outcome.ServeFault.TheVariants.{Write};
ghost use Rattle.dbg_shell.specs.declared.crewed.Crewed.{Crewed};
ghost use Rattle.shell_serve.specs.ProgramTexts.{ReadsFew, ReadsProgram};
ghost use Rattle.shell_serve.specs.Written.{WritesSome, WritesPrefix};
ghost use Rattle.dbg_shell.specs.Crewing.{IsNextMaker, AreCrew, IsClosing, CrewsProgram, CrewsText, CrewsInput};

use crate::crewed::{Crewed, closing_end, ends, fits_turns, print_closing};
use crate::orders::{seats_of, workers};
use dbg_base::limits::SEATS;
use dbg_base::{OpenGate, Pid, Refusal};
use dbg_command::{Command, NextCmd};
use dbg_desk::{Closing, Desk, Mismatch, Opening, Run, Seat, crew};
use proc_lang::{ProgError, parse_program};
use proc_tree::Program;
use shell_io::{Sink, Source};
use shell_print::{ServeFault, hand_on, tell_fault, tell_too_long, tell_too_many_turns};
use shell_serve::{Input, read_program_text, text_alone};
use std::alloc::Global;
use std::marker::Brand;
use std::mem;
use std::sync::Wait;
use std::thread::Threads;

// Each seat's worker gives its rounds, in its own thread. Returns the seats.
fn give_rounds<
    R: Threads + Wait + Sync,
    L: Run + Send + Sync,
    C: Command,
    M: Fn(Pid) -> Result<C, Refusal>,
>(
    rt: &R,
    alloc: Global,
    make: &M,
    desk: &Desk<L, C>,
    seats: Vec<Seat<L>>,
    processes: u32,
    turns: u32,
) -> Result<Vec<Seat<L>>, Refusal>
    requires may { M.IsAlwaysCallable make.now }
    requires makes { IsNextMaker (M.post make.now) C.IsFresh C.order }
    requires seats { seats.items ≡ new_seats L.seats }
    requires all { L.seats ≡ min processes SEATS }
    requires few { turns * processes ≤ CALLS }
    ensures crew { IfOk result (λ seats. AreCrew processes turns seats.items) }
    ensures refuses { IfErr result (λ refusal. refusal ≡ refusals.Memory) }
{
    let mut workers = workers(alloc, make, seats, processes, turns)?;
    match crew(rt, alloc, desk, &mut workers, &OpenGate) {
        Ok(()) => seats_of(alloc, workers),
        Err(_) => unreachable!(),
    }
}

// Gives all rounds at a desk, and compares its journal with the answers that the seats got. The memory of the desk is left to the process.
fn settle_run<
    R: Threads + Wait + Sync,
    L: Run + Send + Sync,
    C: Command,
    M: Fn(Pid) -> Result<C, Refusal>,
>(
    rt: &R,
    alloc: Global,
    make: &M,
    opening: Opening,
    turns: u32,
) -> Result<Result<Closing, Mismatch>, Refusal>
    requires may { M.IsAlwaysCallable make.now }
    requires makes { IsNextMaker (M.post make.now) C.IsFresh C.order }
    requires opening { IsOpeningOf L.program L.board L.name L.parts L.seats opening }
    requires all { L.seats ≡ min (length (program_of opening.program)) SEATS }
    requires few { turns * length (program_of opening.program) ≤ CALLS }
    ensures closing { IfOk result (λ closing. IsClosing (program_of opening.program) turns closing) }
    ensures refuses { IfErr result (λ refusal. refusal ≡ refusals.Memory) }
{
    let processes = opening.program.processes();
    let (desk, seats) = opening.desk::<L, C>(alloc)?;
    let closing = match give_rounds(rt, alloc, make, &desk, seats, processes, turns) {
        Ok(seats) => {
            let closing = desk.settle(rt, &seats);
            mem::forget(seats);
            Ok(closing)
        }
        Err(refusal) => Err(refusal),
    };
    mem::forget(desk);
    closing
}

// Runs this program with as many seats as processes, and at most 16.
fn run_program<R: Threads + Wait + Sync, C: Command, M: Fn(Pid) -> Result<C, Refusal>>(
    rt: &R,
    alloc: Global,
    make: &M,
    program: Program,
    turns: u32,
) -> Result<Result<Closing, Mismatch>, Refusal>
    requires may { M.IsAlwaysCallable make.now }
    requires makes { IsNextMaker (M.post make.now) C.IsFresh C.order }
    requires some { 0 < length (program_of program) }
    requires few { turns * length (program_of program) ≤ CALLS }
    ensures closing { IfOk result (λ closing. IsClosing (program_of program) turns closing) }
    ensures refuses { IfErr result (λ refusal. refusal ≡ refusals.Memory) }
{
    let seats = program.processes().min(SEATS);
    let opening = Opening::new(alloc, program, seats)?;
    settle_run::<R, Brand, C, M>(rt, alloc, make, opening, turns)
}

// Runs a program, and reports the result.
fn crew_program<R: Threads + Wait + Sync, C: Command, M: Fn(Pid) -> Result<C, Refusal>, W: Sink>(
    rt: &R,
    alloc: Global,
    make: &M,
    program: Program,
    turns: u32,
    writer: &mut W,
) -> Result<Crewed, ServeFault>
    requires may { M.IsAlwaysCallable make.now }
    requires makes { IsNextMaker (M.post make.now) C.IsFresh C.order }
    requires some { 0 < length (program_of program) }
    ensures crewed { IfOk result (λ end. WritesSome (W.seen writer.old) (W.seen writer.new)
        (CrewsProgram (program_of program) turns end)) }
    ensures stopped { IfErr result (λ fault. fault ≡ Write → (end : Crewed) × WritesPrefix (W.seen writer.old) (W.seen writer.new)
        (CrewsProgram (program_of program) turns end)) }
    ensures silent { IfErr result (λ fault. fault ≢ Write → Appended (W.seen writer.old) (W.seen writer.new) []) }
    ensures reader { source_after result ≡ Fine }
    ensures writer { (W.seen writer.old).health ≡ Fine → (W.seen writer.new).health ≡ sink_after result }
{
    if !fits_turns(turns, program.processes()) {
        return ends(tell_too_many_turns(writer), Crewed::TooManyTurns);
    }
    match run_program(rt, alloc, make, program, turns) {
        Ok(closing) => {
            let written = print_closing(&closing, writer);
            ends(hand_on(written, writer), closing_end(&closing))
        }
        Err(_) => Err(ServeFault::Memory),
    }
}

// Runs the program of a text, and reports the result, or the fault of the text.
fn crew_text<R: Threads + Wait + Sync, C: Command, M: Fn(Pid) -> Result<C, Refusal>, W: Sink>(
    rt: &R,
    alloc: Global,
    make: &M,
    text: &[u8],
    turns: u32,
    writer: &mut W,
) -> Result<Crewed, ServeFault>
    requires may { M.IsAlwaysCallable make.now }
    requires makes { IsNextMaker (M.post make.now) C.IsFresh C.order }
    ensures crewed { IfOk result (λ end. WritesSome (W.seen writer.old) (W.seen writer.new) (CrewsText turns text.now end)) }
    ensures stopped { IfErr result (λ fault. fault ≡ Write
        → (end : Crewed) × WritesPrefix (W.seen writer.old) (W.seen writer.new) (CrewsText turns text.now end)) }
    ensures silent { IfErr result (λ fault. fault ≢ Write → Appended (W.seen writer.old) (W.seen writer.new) []) }
    ensures reader { source_after result ≡ Fine }
    ensures writer { (W.seen writer.old).health ≡ Fine → (W.seen writer.new).health ≡ sink_after result }
{
    match parse_program(alloc, text) {
        Ok(program) => crew_program(rt, alloc, make, program, turns, writer),
        Err(ProgError::Bad(fault)) => ends(tell_fault(&fault, writer), Crewed::Refused),
        Err(ProgError::Memory) => Err(ServeFault::Memory),
    }
}

/// Reads a program text, as `check` does. Then it runs as many workers as the program has processes, at most 16, each in its own thread and
/// with its own seat. In each of the `turns` rounds, the worker of seat 1 gives `next` for the first process, the seventeenth and so on,
/// that of seat 2 for the second, the eighteenth and so on.
///
/// At the end it writes how many calls were entered. They must be a history that a single caller could have made, with exactly the answers
/// that each seat got; otherwise it writes that the journal differs. Like `check` it reports a refused program text, and one that does not
/// end within 1,048,576 bytes. If there would be more than 100,000 calls it reports that, and no worker starts. After a read fault, or
/// if memory for the workers runs out, it writes nothing. A command that is refused as out of memory is not entered. When the run ends, the
/// memory of its session is left to the process, which ends with it.
pub fn run_crew<R: Threads + Wait + Sync, I: Source, W: Sink>(
    rt: &R,
    alloc: Global,
    turns: u32,
    reader: &mut I,
    writer: &mut W,
) -> Result<Crewed, ServeFault>
    // If the reader's bytes are known and the run succeeds, the output is what they require.
    ensures crewed { IfOk result (λ end. IfSome (I.remaining reader.old)
        (λ input. WritesSome (W.seen writer.old) (W.seen writer.new) (CrewsInput turns input end))) }
    // If the writer fails, the output is a prefix of that.
    ensures stopped { IfErr result (λ fault. fault ≡ Write → IfSome (I.remaining reader.old)
        (λ input. (end : Crewed) × WritesPrefix (W.seen writer.old) (W.seen writer.new) (CrewsInput turns input end))) }
    // After a fault of the reader, or out of memory, there is no output.
    ensures silent { IfErr result (λ fault. fault ≢ Write → Appended (W.seen writer.old) (W.seen writer.new) []) }
    // The result is a fault of the reader or of the writer exactly if it has failed. It failed once, and was not called again.
    ensures reader { I.health reader.old ≡ Fine → I.health reader.new ≡ source_after result }
    ensures writer { (W.seen writer.old).health ≡ Fine → (W.seen writer.new).health ≡ sink_after result }
    // However the run ends, at most 1,048,577 bytes were read, and no more than the program text requires.
    ensures few { IfSome (I.remaining reader.old) (λ input. ReadsFew input (I.remaining reader.new)) }
    ensures program { IfSome (I.remaining reader.old) (λ input. ReadsProgram input (I.remaining reader.new)) }
{
    let make = |pid: Pid| -> Result<Box<dyn Command>, Refusal>
        ensures makes { IfOk result (λ command. IsFresh command × (order command ≡ One (Next pid.0))) }
        ensures refuses { IfErr result (λ refusal. refusal ≡ refusals.Memory) }
    {
        let command: Box<dyn Command> = Box::new(alloc, NextCmd::new(pid))?;
        Ok(command)
    };
    let mut input = Input::new(alloc)?;
    let end = read_program_text(&mut input, reader)?;
    match text_alone(&input, end) {
        Some(text) => crew_text::<R, Box<dyn Command>, _, W>(rt, alloc, &make, text, turns, writer),
        None => ends(tell_too_long(writer), Crewed::TooLong),
    }
}
