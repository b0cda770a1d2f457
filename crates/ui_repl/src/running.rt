//! Interactive sessions, and programs that are explained.

ghost use Rattle.std.specs.Prelude.{◌≡◌};
ghost use Rattle.shell_io.specs.declared.health.Health.TheVariants.{Fine};
ghost use Rattle.shell_print.specs.Outcomes.{source_after, sink_after};
ghost use Rattle.shell_serve.specs.Spans.{EndsWith};
ghost use Rattle.proc_tree.specs.Programs.{program_of};
ghost use Rattle.ui_repl.specs.Talks.{IsProgramOf, Talks};

use crate::fault_places::refuse;
use crate::opening::{OpenSession, Opening, open};
use crate::program_alone::{ProgramAlone, read_alone};
use crate::sentences::Sentences;
use crate::session_lines::SessionLines;
use crate::written_program::WrittenProgram;
use shell_io::{Sink, Source};
use shell_print::{ServeFault, Served, tell_size, tell_too_long};
use shell_serve::play;
use std::alloc::Global;
use ui_session::{Dialogue, Typed};

/// Reads a program text up to a line `%%` or to the end of the input. It may be in the model notation. Writes how many processes and
/// commands the program has, or what is wrong with it: after the refusal the line and the column, the text of the line with a mark under
/// the place, and the likely correction.
pub fn explain<R: Source, W: Sink>(
    alloc: Global,
    reader: &mut R,
    writer: &mut W,
) -> Result<Served, ServeFault> {
    match read_alone(alloc, reader)? {
        ProgramAlone::Program(_, program) => tell_size(&program, writer),
        ProgramAlone::Wrong(wrong) => refuse(alloc, wrong.text(), &wrong.fault, writer),
        ProgramAlone::TooLong => tell_too_long(writer),
    }
}

// An interactive session that was opened.
fn talk_open<R: Source + Typed, W: Sink>(
    alloc: Global,
    width: Option<usize>,
    written: &WrittenProgram,
    session: OpenSession,
    reader: &mut R,
    writer: &mut W,
) -> Result<Served, ServeFault>
    requires ends { EndsWith session.input.ended (R.remaining reader.old) }
    requires program { IsProgramOf written.now (program_of session.program) }
    ensures talks { Talks (W.seen writer.old) result (W.seen writer.new) }
    ensures reader { R.health reader.old ≡ Fine → R.health reader.new ≡ source_after result }
    ensures writer { (W.seen writer.old).health ≡ Fine → (W.seen writer.new).health ≡ sink_after result }
{
    let count = session.lines();
    let OpenSession { program, input } = session;
    let Ok(mut lines) = SessionLines::new(alloc, input, written, count, None) else {
        return Err(ServeFault::Memory);
    };
    let form = written.replies();
    let mut dialogue = Dialogue::new(alloc, form, Sentences::new(alloc, written, width));
    play(
        alloc,
        &mut dialogue,
        &form,
        program,
        &mut lines,
        reader,
        writer,
    )
}

/// An interactive session. Reads a program text up to a line `%%`, which may be in the model notation. Then answers each line after it up to
/// `quit`: it is made plain, and played as `play` of `shell_serve` does. A command line has the reply that a run gives to it, in a model with
/// the author's names and labels; without a seat it is one of seat 1. Directives (`help`, `on`, `how P N`, `draw`, `quit`, comments and others)
/// make no call. A line that was not typed is written before its reply. Lines after the reply, which begin with two blanks, explain what the
/// command did, or why the line is refused and what the person can do. A text that is not a program is refused, with an explanation. Lines
/// are so many characters wide, if that is known.
#[tactic(auto, using(crate::proofs::TalkLemmas::unopened_talks, crate::proofs::TalkLemmas::talks_report))]
pub fn talk<R: Source + Typed, W: Sink>(
    alloc: Global,
    width: Option<usize>,
    reader: &mut R,
    writer: &mut W,
) -> Result<Served, ServeFault>
    // The output is that of a session of some program for some lines, or it says why none began.
    ensures talks { Talks (W.seen writer.old) result (W.seen writer.new) }
    // A failure of the reader or of the writer is reported exactly if there was one. There was only one then: nothing was tried again.
    ensures reader { R.health reader.old ≡ Fine → R.health reader.new ≡ source_after result }
    ensures writer { (W.seen writer.old).health ≡ Fine → (W.seen writer.new).health ≡ sink_after result }
{
    match open(alloc, reader, writer) {
        Ok(Opening::Session(written, session)) => {
            talk_open(alloc, width, &written, session, reader, writer)
        }
        Ok(Opening::Refused(told)) => told,
        Err(fault) => Err(fault),
    }
}
