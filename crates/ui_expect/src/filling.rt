//! A session is written with the replies that it has.

ghost use Rattle.shell_serve.specs.Spans.{EndsWith};

use shell_io::{Sink, Source};
use shell_print::{ServeFault, Served, tell_too_long};
use std::alloc::{AllocError, Global};
use ui_repl::{
    AnsweredLine, ExpandedLine, LineFault, OpenSession, Opening, WrittenProgram, open, wanted,
    write_text,
};
use ui_session::Typed;
use ui_text::Notes;
use ui_view::{Echo, Explainer};

// A session with its replies, as far as it was played.
#[derive(Drop)]
struct Filler {
    text: Vec<u8>,
    // The last reply to the present line, if it has one.
    reply: Vec<u8>,
    is_answered: bool,
}

impl Filler {
    // Appends the last reply to the line before.
    fn end(&mut self) -> Result<(), AllocError> {
        if self.is_answered {
            self.text.extend_from_slice(b"> ")?;
            self.text.extend_from_slice(self.reply.as_slice())?;
            self.text.push(b'\n')?;
        }
        self.is_answered = false;
        Ok(())
    }

    // Appends a line, in whose place an expected reply may be.
    fn begin(&mut self, line: &[u8]) -> Result<(), AllocError> {
        self.end()?;
        if wanted(line).is_none() {
            self.text.extend_from_slice(line)?;
            self.text.push(b'\n')?;
        }
        Ok(())
    }
}

impl Explainer<Option<LineFault>> for Filler {
    fn keeps_replies(&self) -> bool {
        true
    }

    fn hear(&mut self, line: &ExpandedLine<'_>) -> Result<Echo, AllocError> {
        if line.is_first {
            self.begin(line.written)?;
        }
        Ok(Echo::Nothing)
    }

    fn explain(&mut self, line: &AnsweredLine<'_>, _notes: &mut Notes) -> Result<(), AllocError> {
        self.reply.clear();
        self.is_answered = true;
        self.reply.extend_from_slice(line.replies.shown)
    }
}

// Plays a session that was opened. Returns it with its replies, or None if the input is too long.
fn filled<R: Source + Typed>(
    alloc: Global,
    written: &WrittenProgram,
    session: OpenSession,
    reader: &mut R,
) -> Result<Option<Vec<u8>>, ServeFault>
    requires { EndsWith session.input.ended (R.remaining reader.old) }
{
    let mut filler = Filler {
        text: Vec::from_slice(alloc, session.text())?,
        reply: Vec::new(alloc),
        is_answered: false,
    };
    if filler.text.last() != Some(&b'\n') {
        filler.text.extend_from_slice(b"\n")?;
    }
    let played = session.play_unheard(alloc, written, None, filler, reader)?;
    if played.served == Served::TooLong {
        return Ok(None);
    }
    let (mut filler, mut lines) = (played.explainer, played.lines);
    while let Some(span) = lines.unplayed(reader)? {
        filler.begin(lines.input.line(span))?;
    }
    filler.end()?;
    let Filler {
        text,
        reply: _,
        is_answered: _,
    } = filler;
    Ok(Some(text))
}

/// Plays a session, which may be in the model notation, and writes it with its replies: a line `> REPLY` after each command line, in place of
/// those that it has. A program that is refused is explained on the other writer. Returns how the session ended.
pub fn fill_session<R: Source + Typed, W: Sink, E: Sink>(
    alloc: Global,
    reader: &mut R,
    writer: &mut W,
    errors: &mut E,
) -> Result<Served, ServeFault> {
    match open(alloc, reader, errors)? {
        Opening::Session(written, session) => match filled(alloc, &written, session, reader)? {
            Some(text) => {
                write_text(text.as_slice(), writer)?;
                Ok(Served::Done)
            }
            None => tell_too_long(errors),
        },
        Opening::Refused(told) => told,
    }
}
