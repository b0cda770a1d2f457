//! Output besides the replies.

ghost use Rattle.std.specs.Prelude.{◌≡◌, true, IfSome};
ghost use Rattle.shell_print.specs.Writing.{Writes};
ghost use Rattle.shell_serve.specs.Spans.{is_unended};
ghost use Rattle.shell_serve.specs.Sessions.{WritesForm};
ghost use Rattle.ui_session.specs.Dialogues.{IsExplanation, IsEcho, IsGap, explanation_line};

use shell_io::{Sink, Style};
use shell_print::{ServeFault, set_style, write_whole};
use ui_text::{Notes, StyleChange};
use ui_view::Echo;

fn is_unended(line: &[u8]) -> bool
    ensures { result ≡ is_unended line.now }
{
    // It reads all bytes, which is faster than to stop at the first line end.
    let mut is_unended = true;
    for byte in line {
        is_unended &= *byte != b'\n';
    }
    is_unended
}

// Writes bytes in the present style, and in others from where it changes. Then the style is plain.
fn write_styled<W: Sink>(
    bytes: &[u8],
    changes: &[StyleChange],
    writer: &mut W,
) -> Result<(), ServeFault>
    ensures { Writes (W.seen writer.old) (W.seen writer.new) result bytes.now }
{
    let mut at = 0;
    let mut rest = bytes;
    for change in changes {
        let length = change.at.saturating_sub(at).min(rest.len());
        write_whole(writer, &rest[..length])?;
        set_style(change.style, writer)?;
        at = change.at;
        rest = &rest[length..];
    }
    write_whole(writer, rest)?;
    set_style(Style::Plain, writer)
}

// What a line of an explanation has between its two blanks and its end, unless there is a line end in it.
#[inline(always)]
fn content_of(whole: &[u8]) -> Option<&[u8]>
    ensures line { IfSome result (λ bytes. whole.now ≡ explanation_line bytes.now) }
    ensures unended { IfSome result (λ bytes. is_unended bytes.now ≡ true) }
{
    match whole {
        [b' ', b' ', bytes @ .., b'\n'] if is_unended(bytes) => Some(bytes),
        _ => None,
    }
}

// Writes these bytes as a line of an explanation, which begins in a style.
#[inline(never)]
fn write_in_styles<W: Sink>(
    first_style: Style,
    bytes: &[u8],
    changes: &[StyleChange],
    writer: &mut W,
) -> Result<(), ServeFault>
    ensures { Writes (W.seen writer.old) (W.seen writer.new) result (explanation_line bytes.now) }
{
    set_style(first_style, writer)?;
    write_whole(writer, b"  ")?;
    write_styled(bytes, changes, writer)?;
    write_whole(writer, b"\n")
}

// Writes the line of this number, which has these bytes.
#[inline(always)]
fn write_line<W: Sink>(
    notes: &Notes,
    number: usize,
    whole: &[u8],
    bytes: &[u8],
    writer: &mut W,
) -> Result<(), ServeFault>
    requires { whole.now ≡ explanation_line bytes.now }
    ensures { Writes (W.seen writer.old) (W.seen writer.new) result (explanation_line bytes.now) }
{
    if notes.has_styles() {
        let line = notes.line(number);
        return write_in_styles(line.first_style, bytes, line.changes, writer);
    }
    write_whole(writer, whole)
}

/// Ends an explanation, and writes it.
pub fn explain<W: Sink>(notes: &mut Notes, writer: &mut W) -> Result<(), ServeFault>
    ensures written { WritesForm IsExplanation (W.seen writer.old) result (W.seen writer.new) }
{
    notes.end();
    for number in 0..notes.count() {
        let whole = notes.whole_line(number);
        if let Some(bytes) = content_of(whole) {
            write_line(notes, number, whole, bytes, writer)?;
        }
    }
    Ok(())
}

/// What is written before a line that is echoed.
pub(crate) fn gap_before(echo: Echo) -> &'static [u8]
    ensures { IsGap result.now }
{
    match echo {
        Echo::Separated => b"\n",
        Echo::Nothing | Echo::Line => &[],
    }
}

/// Writes the line itself after this gap, or nothing.
pub(crate) fn write_echo<W: Sink>(
    echoes: bool,
    gap: &[u8],
    line: &[u8],
    writer: &mut W,
) -> Result<(), ServeFault>
    requires { IsGap gap.now }
    ensures written { WritesForm (IsEcho line.now) (W.seen writer.old) result (W.seen writer.new) }
{
    if !echoes {
        return Ok(());
    }
    write_whole(writer, gap)?;
    write_whole(writer, line)?;
    write_whole(writer, b"\n")
}
