//! Plays a session and draws it.

ghost use Rattle.shell_serve.specs.Spans.{EndsWith};

use crate::drawer::Drawer;
use shell_io::{Sink, Source};
use shell_print::{ServeFault, Served, status, tell_too_long};
use std::alloc::Global;
use ui_diagram::{Moment, Picture};
use ui_page::{Incomplete, REPLY_BYTES};
use ui_repl::{OpenSession, Opening, PlayedSession, WrittenProgram, open, write_notes, write_text};
use ui_session::Typed;
use ui_text::{Notes, Part};
use ui_timeline::unknown_name;

/// How a drawing ended if nothing failed.
#[derive(Clone, Copy, PartialEq, Eq)]
pub enum Drawn {
    /// The session ended so. It was drawn, unless its program was refused.
    Played(Served),
    /// The session has no command line with the number that was given, and that was reported.
    NoLine,
    /// No breakpoint halts the session, and that was reported.
    NoHalt,
    /// The program has no process of a name that was given, and that was reported.
    NoProcess,
    /// The replies have more than `REPLY_BYTES`, the most of a page, and that was reported.
    TooLarge,
}

/// The exit status: that of the session, or 2 if it has no such line or process, and 1 if nothing halts it or it is too large for a page.
pub fn draw_status(outcome: &Result<Drawn, ServeFault>) -> u8 {
    match outcome {
        Ok(Drawn::Played(served)) => status(&Ok(*served)),
        Ok(Drawn::NoLine | Drawn::NoProcess) => 2,
        Ok(Drawn::NoHalt | Drawn::TooLarge) => 1,
        Err(fault) => fault.status(),
    }
}

// Reports why nothing is drawn.
fn report<E: Sink>(
    alloc: Global,
    why: &str,
    parts: &[Part<'_>],
    errors: &mut E,
) -> Result<(), ServeFault> {
    let mut notes = Notes::new(alloc);
    notes.say("error: ")?;
    notes.add_with(why, parts)?;
    write_notes(&notes, errors)
}

// Reports why the session has no command line of the number that is wanted, if it has none.
fn report_line<R: Source, T, E: Sink>(
    alloc: Global,
    played: &mut PlayedSession<'_, T>,
    wanted: Option<usize>,
    reader: &mut R,
    errors: &mut E,
) -> Result<Option<Drawn>, ServeFault>
    requires { EndsWith played.old.lines.input.ended (R.remaining reader.old) }
{
    let Some(number) = wanted else {
        return Ok(None);
    };
    while played.lines.unplayed(reader)?.is_some() {}
    let count = played.lines.count();
    if played.served == Served::TooLong {
        return Ok(Some(Drawn::Played(tell_too_long(errors)?)));
    }
    if count >= number {
        return Ok(None);
    }
    let why = "there is no line {}: the last line of the input is line {}";
    report(
        alloc,
        why,
        &[Part::Count(number), Part::Count(count)],
        errors,
    )?;
    Ok(Some(Drawn::NoLine))
}

// Writes what was drawn, or reports why nothing was.
fn write_drawing<W: Sink, E: Sink>(
    alloc: Global,
    drawer: &mut Drawer<'_>,
    served: Served,
    writer: &mut W,
    errors: &mut E,
) -> Result<Drawn, ServeFault> {
    match drawer {
        Drawer::Page(page) => match page.write(alloc, writer)? {
            Ok(()) => {}
            Err(Incomplete::Memory) => return Err(ServeFault::Memory),
            Err(Incomplete::TooLarge) => {
                let why = "the page has room for replies of {} bytes";
                report(alloc, why, &[Part::Count(REPLY_BYTES)], errors)?;
                return Ok(Drawn::TooLarge);
            }
        },
        Drawer::State(artist) => match artist.picture() {
            Some(picture) => write_text(picture, writer)?,
            None => {
                report(alloc, "no breakpoint halts the session", &[], errors)?;
                return Ok(Drawn::NoHalt);
            }
        },
    }
    Ok(Drawn::Played(served))
}

// Reports that the program has not all of these processes, or that the line of this number is in its text. False if neither is so.
fn report_unknown<E: Sink>(
    alloc: Global,
    only: Option<&str>,
    wanted: Option<usize>,
    written: &WrittenProgram,
    session: &OpenSession,
    errors: &mut E,
) -> Result<Option<Drawn>, ServeFault> {
    if let Some(number) = wanted.filter(|number| *number <= session.lines()) {
        let why = "line {} is before the first command line, which follows the line `%%`";
        report(alloc, why, &[Part::Count(number)], errors)?;
        return Ok(Some(Drawn::NoLine));
    }
    let unknown = only.and_then(|list| unknown_name(&session.program, written.text(), list));
    if let Some(name) = unknown {
        report(
            alloc,
            "the program has no process `{}`",
            &[Part::Bytes(name)],
            errors,
        )?;
        return Ok(Some(Drawn::NoProcess));
    }
    Ok(None)
}

// Plays a session that was opened, and draws it.
fn draw_open<R: Source + Typed, W: Sink, E: Sink>(
    alloc: Global,
    picture: Picture<'_>,
    written: &WrittenProgram,
    session: OpenSession,
    reader: &mut R,
    writer: &mut W,
    errors: &mut E,
) -> Result<Drawn, ServeFault>
    requires { EndsWith session.input.ended (R.remaining reader.old) }
{
    let wanted = match picture.moment {
        Moment::Line(number) => Some(number as usize),
        _ => None,
    };
    if let Some(drawn) = report_unknown(alloc, picture.only, wanted, written, &session, errors)? {
        return Ok(drawn);
    }
    let drawer = Drawer::new(alloc, picture, &session.program, written);
    let mut played = session.play_unheard(alloc, written, wanted, drawer, reader)?;
    if let Some(drawn) = report_line(alloc, &mut played, wanted, reader, errors)? {
        return Ok(drawn);
    }
    let served = played.served;
    write_drawing(alloc, &mut played.explainer, served, writer, errors)
}

/// Plays a session as `talk` does, and writes a picture of it: of its end, of the state after a line or at the first halt, or a page to go
/// through it. If the input is too long, the picture is of the lines within the limit. The program and the lines may be in the model
/// notation. The other writer gets the explanation of a program that is refused, as `talk` explains it, or the report that the session has
/// no such line, process or halt; then nothing is drawn. Errors: the reader or a writer failed, or memory ran out.
pub fn draw<R: Source + Typed, W: Sink, E: Sink>(
    alloc: Global,
    picture: Picture<'_>,
    reader: &mut R,
    writer: &mut W,
    errors: &mut E,
) -> Result<Drawn, ServeFault> {
    match open(alloc, reader, errors)? {
        Opening::Session(written, session) => {
            draw_open(alloc, picture, &written, session, reader, writer, errors)
        }
        Opening::Refused(told) => Ok(Drawn::Played(told?)),
    }
}
