//! A session of a program: the lines that a source gives, and an observer.

ghost use Rattle.std.specs.Prelude.{◌≡◌, [], IfOk, IfErr};
ghost use Rattle.shell_io.specs.declared.health.Health.TheVariants.{Fine};
ghost use Rattle.dbg_base.specs.declared.refusal.Refusal.TheVariants as refusals;
ghost use Rattle.dbg_base.specs.Calls.{order_of};
ghost use Rattle.dbg_base.specs.declared.limits.TheConstants.{SEATS};
ghost use Rattle.dbg_desk.specs.Openings.{IsOpeningOf};
ghost use Rattle.proc_tree.specs.Programs.{program_of};
ghost use Rattle.shell_print.specs.Outcomes.{source_after, sink_after};
ghost use Rattle.shell_serve.specs.Sessions.{MayBeQuiet, Plays};
ghost use Rattle.shell_serve.specs.Answering.{IsMaker, AreAllSeats};

use crate::framing::Next;
use crate::line::answer_line;
use crate::observer::Observer;
use crate::reply_form::ReplyForm;
use crate::source::{Answer, LineSource};
use dbg_base::limits::SEATS;
use dbg_base::{Plan, Refusal};
use dbg_command::{
    ArmCmd, BatchCmd, BreakCmd, ClearCmd, Command, Givable, GotoCmd, NextCmd, PassCmd, RedoCmd,
    RollbackCmd, StepCmd, UndoCmd,
};
use dbg_desk::{Locked, Opening, Run, Seat};
use proc_tree::Program;
use shell_io::{Sink, Source};
use shell_print::{ServeFault, Served, tell_too_long};
use std::alloc::Global;
use std::marker::Brand;
use std::mem;

// Answers the lines of a session in which no call was made yet.
fn answer_lines<
    L: Run,
    C: Command,
    M: Fn(Givable) -> Result<C, Refusal>,
    T: Observer<N>,
    F: ReplyForm,
    S: LineSource<R, N>,
    N,
    R: Source,
    W: Sink,
>(
    alloc: Global,
    make: &M,
    observer: &mut T,
    form: &F,
    locked: &mut Locked<L, C>,
    seats: &mut [Seat<L>],
    source: &mut S,
    reader: &mut R,
    writer: &mut W,
) -> Result<Served, ServeFault>
    requires makes { (M.IsAlwaysCallable make.now) × IsMaker (M.post make.now) C.IsFresh C.order }
    requires quiet { MayBeQuiet T.manner (F.Shows form.now) }
    requires opened { (locked.old.journal ≡ []) × AreAllSeats seats.old }
    requires ready { S.Ready source.old reader.old }
    ensures ready { S.Ready source.new reader.new }
    ensures plays { Plays S.Gives S.Stops T.manner (F.Shows form.now) L.program source.old reader.old
        (W.seen writer.old) result source.new reader.new
        (W.seen writer.new) }
    ensures reader { R.health reader.old ≡ Fine → R.health reader.new ≡ source_after result }
    ensures writer { (W.seen writer.old).health ≡ Fine → (W.seen writer.new).health ≡ sink_after result }
{
    let mut last = Answer::Nothing;
    loop {
        match source.advance(reader, last)? {
            Next::Line(span) => {
                let line = source.line(span);
                last = answer_line(alloc, make, observer, form, locked, seats, &line, writer)?;
                if last.is_end() {
                    return Ok(Served::Done);
                }
            },
            Next::End => return Ok(Served::Done),
            Next::TooLong => return tell_too_long(writer),
        }
    }
}

// Opens a session, answers its lines, and leaves its memory to the process: to free what each call took would cost a tenth of a long run.
fn begin<
    L: Run,
    C: Command,
    M: Fn(Givable) -> Result<C, Refusal>,
    T: Observer<N>,
    F: ReplyForm,
    S: LineSource<R, N>,
    N,
    R: Source,
    W: Sink,
>(
    alloc: Global,
    make: &M,
    observer: &mut T,
    form: &F,
    opening: Opening,
    source: &mut S,
    reader: &mut R,
    writer: &mut W,
) -> Result<Served, ServeFault>
    requires makes { (M.IsAlwaysCallable make.now) × IsMaker (M.post make.now) C.IsFresh C.order }
    requires quiet { MayBeQuiet T.manner (F.Shows form.now) }
    requires opening { IsOpeningOf L.program L.board L.name L.parts L.seats opening × (L.seats ≡ SEATS) }
    requires ready { S.Ready source.old reader.old }
    ensures ready { S.Ready source.new reader.new }
    ensures plays { Plays S.Gives S.Stops T.manner (F.Shows form.now) L.program source.old reader.old
        (W.seen writer.old) result source.new reader.new
        (W.seen writer.new) }
    ensures reader { R.health reader.old ≡ Fine → R.health reader.new ≡ source_after result }
    ensures writer { (W.seen writer.old).health ≡ Fine → (W.seen writer.new).health ≡ sink_after result }
{
    match opening.lock::<L, C>(alloc) {
        Ok((mut locked, mut seats)) => {
            let served = answer_lines(
                alloc,
                make,
                observer,
                form,
                &mut locked,
                &mut seats,
                source,
                reader,
                writer,
            );
            observer.end(alloc, locked.view());
            mem::forget(locked);
            mem::forget(seats);
            served
        }
        Err(_) => Err(ServeFault::Memory),
    }
}

// Answers the lines after this program. `make` makes the commands.
fn run_program<
    C: Command,
    M: Fn(Givable) -> Result<C, Refusal>,
    T: Observer<N>,
    F: ReplyForm,
    S: LineSource<R, N>,
    N,
    R: Source,
    W: Sink,
>(
    alloc: Global,
    make: &M,
    observer: &mut T,
    form: &F,
    program: Program,
    source: &mut S,
    reader: &mut R,
    writer: &mut W,
) -> Result<Served, ServeFault>
    requires makes { (M.IsAlwaysCallable make.now) × IsMaker (M.post make.now) C.IsFresh C.order }
    requires quiet { MayBeQuiet T.manner (F.Shows form.now) }
    requires ready { S.Ready source.old reader.old }
    ensures ready { S.Ready source.new reader.new }
    ensures plays { Plays S.Gives S.Stops T.manner (F.Shows form.now) (program_of program) source.old reader.old
        (W.seen writer.old) result source.new reader.new
        (W.seen writer.new) }
    ensures reader { R.health reader.old ≡ Fine → R.health reader.new ≡ source_after result }
    ensures writer { (W.seen writer.old).health ≡ Fine → (W.seen writer.new).health ≡ sink_after result }
{
    match Opening::new(alloc, program, SEATS) {
        Ok(opening) => {
            begin::<Brand, C, M, T, F, S, N, R, W>(
                alloc, make, observer, form, opening, source, reader, writer,
            )
        }
        Err(_) => Err(ServeFault::Memory),
    }
}

/// Plays a session of a program: answers each line that the source gives, in order, in the manner of the observer and with replies in this
/// form, up to one that ends the session. The output for a line is flushed before the next line is read. The lines are calls of one session.
///
/// If the source gives too much, that is reported after the answers. If the reader fails, the session ends after the output for all lines
/// before the failure. If the writer fails, a prefix of the output was written. Neither is tried again. If memory runs out before the first
/// line, nothing is written. If it runs out later, the line is answered `no 21` and changes nothing. When the session ends, its memory is
/// left to the process, which ends with it.
pub fn play<T: Observer<N>, F: ReplyForm, S: LineSource<R, N>, N, R: Source, W: Sink>(
    alloc: Global,
    observer: &mut T,
    form: &F,
    program: Program,
    source: &mut S,
    reader: &mut R,
    writer: &mut W,
) -> Result<Served, ServeFault>
    requires quiet { MayBeQuiet T.manner (F.Shows form.now) }
    requires ready { S.Ready source.old reader.old }
    // What the source and the reader need is kept.
    ensures ready { S.Ready source.new reader.new }
    // The output is due for the lines that the source gave: in full, or as far as a failure allows.
    ensures plays { Plays S.Gives S.Stops T.manner (F.Shows form.now) (program_of program) source.old reader.old
        (W.seen writer.old) result source.new reader.new
        (W.seen writer.new) }
    // A failure of the reader or of the writer is reported exactly if there was one. There was only one then: nothing was tried again.
    ensures reader { R.health reader.old ≡ Fine → R.health reader.new ≡ source_after result }
    ensures writer { (W.seen writer.old).health ≡ Fine → (W.seen writer.new).health ≡ sink_after result }
{
    let make = |given: Givable| -> Result<Box<dyn Command>, Refusal>
        ensures makes { IfOk result (λ command. IsFresh command × (order command ≡ order_of given.plan)) }
        ensures refuses { IfErr result (λ refusal. refusal ≡ refusals.Memory) }
    {
        let Givable { plan } = given;
        let command: Box<dyn Command> = match plan {
            Plan::Step(pid, choice) => Box::new(alloc, StepCmd::new(pid, choice))?,
            Plan::Next(pid) => Box::new(alloc, NextCmd::new(pid))?,
            Plan::Undo(pid) => Box::new(alloc, UndoCmd::new(pid))?,
            Plan::Redo(pid) => Box::new(alloc, RedoCmd::new(pid))?,
            Plan::Rollback(pid, place) => Box::new(alloc, RollbackCmd::new(pid, place))?,
            Plan::Goto(name) => Box::new(alloc, GotoCmd::new(name))?,
            Plan::Break(name, conjuncts) => Box::new(alloc, BreakCmd::new(name, conjuncts))?,
            Plan::Clear(name) => Box::new(alloc, ClearCmd::new(name))?,
            Plan::Arm(name) => Box::new(alloc, ArmCmd::new(name))?,
            Plan::Pass(name) => Box::new(alloc, PassCmd::new(name))?,
            Plan::Batch(plans) => Box::new(alloc, BatchCmd::new(plans))?,
        };
        Ok(command)
    };
    run_program::<Box<dyn Command>, _, _, _, _, _, _, _>(
        alloc, &make, observer, form, program, source, reader, writer,
    )
}
