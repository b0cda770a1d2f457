//! Sessions in the model notation become plain sessions.

ghost use Rattle.shell_serve.specs.Spans.{EndsWith};

use crate::opening::OpenSession;
use crate::read_line::{AnsweredLine, ExpandedLine, LineFault};
use crate::reply_forms::ReplyForms;
use crate::words::wanted;
use crate::written_program::{ReadText, WrittenProgram, read_text};
use notation::{Fault, message};
use shell_io::{Sink, Source};
use shell_print::{ServeFault, Served, hand_on, tell_too_long, write_whole};
use shell_serve::{Input, TextEnd, read_program_text, text_alone};
use std::alloc::{AllocError, Global};
use ui_session::Typed;
use ui_text::{Notes, Part};
use ui_view::{Echo, Explainer};

/// Writes a text, and flushes it.
pub fn write_text<W: Sink>(text: &[u8], writer: &mut W) -> Result<(), ServeFault> {
    let written = write_whole(writer, text);
    hand_on(written, writer)
}

/// Writes lines, and flushes them.
pub fn write_notes<W: Sink>(notes: &Notes, writer: &mut W) -> Result<(), ServeFault> {
    for number in 0..notes.count() {
        write_whole(writer, notes.line(number).bytes)?;
        write_whole(writer, b"\n")?;
    }
    hand_on(Ok(()), writer)
}

/// What is wrong with a text that follows so many lines: the line and column, the text of the line with a mark under the place, and the
/// fault.
pub(crate) fn fault_notes(
    alloc: Global,
    before: usize,
    text: &[u8],
    fault: &Fault,
) -> Result<Notes, AllocError> {
    let mut notes = Notes::new(alloc);
    for line in &message(alloc, before, text, fault)? {
        notes.say_with("{}", &[Part::Bytes(line.as_slice())])?;
    }
    Ok(notes)
}

/// Writes what is wrong with a program text: the line and column, the text of the line with a mark under the place, and the fault.
pub(crate) fn write_fault<W: Sink>(
    alloc: Global,
    text: &[u8],
    fault: &Fault,
    writer: &mut W,
) -> Result<Served, ServeFault> {
    write_notes(&fault_notes(alloc, 0, text, fault)?, writer)?;
    Ok(Served::Refused)
}

// The lines that are played, and what is wrong with the first that cannot be expanded.
#[derive(Drop)]
struct Expander<'a> {
    text: Vec<u8>,
    written: &'a WrittenProgram,
    // The last reply in a model.
    reply: Option<ReplyForms>,
    // How many lines were read.
    count: usize,
    fault: Option<Notes>,
}

impl Expander<'_> {
    // Appends a line. Of a model, comments are left out.
    fn put(&mut self, line: &ExpandedLine<'_>) -> Result<(), AllocError> {
        let Some(played) = line.played else {
            return Err(AllocError);
        };
        if let (Some(fault), None) = (line.note, &self.fault) {
            let alloc = *self.text.allocator();
            self.fault = Some(fault_notes(alloc, self.count, played, &fault.fault)?);
        }
        let is_comment = played.trim_ascii_start().first() == Some(&b'#');
        if self.written.text().is_model() && is_comment {
            return Ok(self.text.push(b'\n')?);
        }
        self.put_played(played)?;
        Ok(self.text.push(b'\n')?)
    }

    // Appends a line as it is played, without a line end. The last reply, where a line expects it, has the form in which a run writes it.
    fn put_played(&mut self, line: &[u8]) -> Result<(), AllocError> {
        if let (Some(wanted), Some(reply)) = (wanted(line), &self.reply) {
            let wanted = self.written.comparable(*self.text.allocator(), wanted)?;
            if reply.has(wanted.as_slice()) {
                self.text.extend_from_slice(b"> ")?;
                self.text.extend_from_slice(reply.plain.as_slice())?;
                return Ok(());
            }
        }
        Ok(self.text.extend_from_slice(line)?)
    }
}

impl Explainer<Option<LineFault>> for Expander<'_> {
    fn keeps_replies(&self) -> bool {
        self.written.text().is_model()
    }

    fn explain(&mut self, line: &AnsweredLine<'_>, _notes: &mut Notes) -> Result<(), AllocError> {
        if self.written.text().is_model() {
            let reply = self.written.forms_of(*self.text.allocator(), line.replies)?;
            self.reply = Some(reply);
        }
        Ok(())
    }

    fn hear(&mut self, line: &ExpandedLine<'_>) -> Result<Echo, AllocError> {
        self.put(line)?;
        if line.is_first {
            self.count = self.count.saturating_add(1);
        }
        Ok(Echo::Nothing)
    }
}

// The plain program of a session, with the line that ends it.
fn plain_program(
    alloc: Global,
    written: &WrittenProgram,
    session: &OpenSession,
) -> Result<Vec<u8>, AllocError> {
    let Some(expansion) = written.expansion() else {
        return Vec::from_slice(alloc, session.text());
    };
    let mut text = Vec::from_slice(alloc, expansion.plain())?;
    text.extend_from_slice(b"%%\n")?;
    Ok(text)
}

// Writes the plain session of a program and the lines after it.
fn expand_lines<R: Source + Typed, W: Sink, E: Sink>(
    alloc: Global,
    written: &WrittenProgram,
    session: OpenSession,
    reader: &mut R,
    writer: &mut W,
    errors: &mut E,
) -> Result<Served, ServeFault>
    requires { EndsWith session.input.ended (R.remaining reader.old) }
{
    let expander = Expander {
        text: plain_program(alloc, written, &session)?,
        written,
        reply: None,
        count: session.lines(),
        fault: None,
    };
    let mut played = session.play_unheard(alloc, written, None, expander, reader)?;
    if let Some(notes) = &played.explainer.fault {
        write_notes(notes, errors)?;
        return Ok(Served::Refused);
    }
    if played.served == Served::TooLong {
        return tell_too_long(errors);
    }
    // The text ends with a line end only if the input does.
    if played.lines.input.bytes().last() != Some(&b'\n') {
        let _end = played.explainer.text.pop();
    }
    write_text(played.explainer.text.as_slice(), writer)?;
    Ok(Served::Done)
}

/// Plays a session without its replies, and writes the plain session: a program, the line `%%` and the lines that were played, as a run takes
/// them. A fault of the notation goes to the other writer, with its line and column, the text of the line, a mark under the place, and what
/// is wrong. So does the report that the input or the plain session is too long.
pub fn expand<R: Source + Typed, W: Sink, E: Sink>(
    alloc: Global,
    reader: &mut R,
    writer: &mut W,
    errors: &mut E,
) -> Result<Served, ServeFault> {
    let mut input = Input::new(alloc)?;
    let end = read_program_text(&mut input, reader)?;
    let Some(text) = text_alone(&input, end) else {
        return tell_too_long(errors);
    };
    match (read_text(alloc, text)?, end) {
        (ReadText::Wrong(fault), _) => write_fault(alloc, text, &fault, errors),
        (ReadText::Program(written, _), TextEnd::End) => {
            let plain = written.expansion().map(|expansion| expansion.plain());
            write_text(plain.unwrap_or(text), writer)?;
            Ok(Served::Done)
        }
        (ReadText::Program(written, program), _) => {
            let session = OpenSession { program, input };
            expand_lines(alloc, &written, session, reader, writer, errors)
        }
    }
}
