//! The beginning of a session: its program text.

ghost use Rattle.std.specs.Prelude.{◌≡◌, ◌≢◌, IfOk, IfErr, OnErr};
ghost use Rattle.shell_io.specs.declared.health.Health.TheVariants.{Fine};
ghost use Rattle.shell_print.specs.Outcomes.{source_after};
ghost use Rattle.shell_print.specs.declared.outcome.ServeFault.TheVariants.{Write, Memory};
ghost use Rattle.shell_serve.specs.Spans.{EndsWith};
ghost use Rattle.ui_repl.specs.Talks.{Opens};

use crate::fault_places::{refuse, refuse_unended};
use crate::read_line::LineFault;
use crate::session_lines::SessionLines;
use crate::written_program::{ReadText, WrittenProgram, read_text};
use proc_tree::Program;
use shell_io::{Noted, Sink, Source};
use shell_print::{ServeFault, Served, tell_too_long};
use shell_serve::{Input, TextEnd, play, read_program_text};
use std::alloc::Global;
use ui_session::{Dialogue, Room, Typed};
use ui_view::Explainer;

/// A session whose program was read, and no line after it.
#[derive(Drop)]
pub struct OpenSession {
    pub program: Program,
    pub input: Input,
}

/// A session that was played: how it ended, what explained it, and its lines.
#[derive(Drop)]
pub struct PlayedSession<'a, T> {
    pub served: Served,
    pub explainer: T,
    pub lines: SessionLines<'a>,
}

/// What a session begins with.
#[derive(Drop)]
pub enum Opening {
    Session(WrittenProgram, OpenSession),
    /// The text was refused. This says whether that was reported.
    Refused(Result<Served, ServeFault>),
}

impl OpenSession {
    /// What was read of the program text, with the line that ends it.
    pub fn text(&self) -> &[u8] {
        self.input.bytes().get(..self.input.at).unwrap_or(&[])
    }

    /// How many lines were read.
    pub fn lines(&self) -> usize {
        let is_end = |byte: &&u8| **byte == b'\n';
        self.text().iter().filter(is_end).count()
    }

    /// Plays the session with this explainer, up to the line of this number in the input. What the session writes is dropped.
    pub fn play_unheard<'a, R: Source + Typed, T: Explainer<Option<LineFault>> + Drop>(
        self,
        alloc: Global,
        written: &'a WrittenProgram,
        wanted: Option<usize>,
        explainer: T,
        reader: &mut R,
    ) -> Result<PlayedSession<'a, T>, ServeFault>
        requires { EndsWith self.input.ended (R.remaining reader.old) }
        ensures ready { IfOk result (λ played. EndsWith played.lines.input.ended (R.remaining reader.new)) }
    {
        let count = self.lines();
        let OpenSession { program, input } = self;
        let mut lines = SessionLines::new(alloc, input, written, count, wanted)?;
        let form = written.replies();
        let mut dialogue = Dialogue::new(alloc, form, explainer);
        let mut unheard = Noted::new(Room::Nothing);
        let served = play(
            alloc,
            &mut dialogue,
            &form,
            program,
            &mut lines,
            reader,
            &mut unheard,
        )?;
        Ok(PlayedSession {
            served,
            explainer: dialogue.into_explainer()?,
            lines,
        })
    }
}

// The session after a program text.
fn open_text<W: Sink>(
    alloc: Global,
    input: Input,
    length: usize,
    writer: &mut W,
) -> Result<Opening, ServeFault>
    ensures opens { IfOk result (λ opening. Opens (λ read. read ≡ input) (W.seen writer.old) opening (W.seen writer.new)) }
    ensures fault { IfErr result (λ fault. fault ≡ Memory) }
    ensures silent { OnErr result (W.seen writer.new ≡ W.seen writer.old) }
{
    let text = input.bytes().get(..length).unwrap_or(&[]);
    match read_text(alloc, text)? {
        ReadText::Program(written, program) => {
            Ok(Opening::Session(written, OpenSession { program, input }))
        }
        ReadText::Wrong(fault) => Ok(Opening::Refused(refuse(alloc, text, &fault, writer))),
    }
}

/// Reads the program text up to a line `%%`. It may be in the model notation. If it is refused, that is reported to this writer: after the
/// refusal the line and the column, the text of the line with a mark under the place, and the likely correction.
#[tactic(auto, using(crate::proofs::TalkLemmas::too_long_talks))]
pub fn open<R: Source, W: Sink>(
    alloc: Global,
    reader: &mut R,
    writer: &mut W,
) -> Result<Opening, ServeFault>
    ensures opens { IfOk result (λ opening. Opens (λ input. EndsWith input.ended (R.remaining reader.new)) (W.seen writer.old) opening
        (W.seen writer.new)) }
    ensures fault { IfErr result (λ fault. fault ≢ Write) }
    ensures silent { OnErr result (W.seen writer.new ≡ W.seen writer.old) }
    ensures reader { R.health reader.old ≡ Fine → R.health reader.new ≡ source_after result }
{
    let mut input = Input::new(alloc)?;
    match read_program_text(&mut input, reader)? {
        TextEnd::Before(span) => open_text(alloc, input, span.from, writer),
        TextEnd::End => Ok(Opening::Refused(refuse_unended(alloc, input.bytes(), writer))),
        TextEnd::TooLong => Ok(Opening::Refused(tell_too_long(writer))),
    }
}
