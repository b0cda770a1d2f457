//! What reports about a session have in common.

use shell_io::Sink;
use shell_parse::without_return;
use shell_print::{ServeFault, write_whole};
use std::alloc::{AllocError, Global};
use ui_text::{Notes, Part};

/// Begins a report with the name of the session, and a line with its number.
pub(crate) fn begin_report<'x>(
    notes: &mut Notes,
    name: &'x str,
    number: usize,
    line: &'x [u8],
) -> Result<(), AllocError> {
    notes.say_with(
        "{}:{}: {}",
        &[
            Part::Text(name),
            Part::Count(number),
            Part::Bytes(without_return(line)),
        ],
    )
}

/// Reports that the session of this name is too long.
pub(crate) fn tell_long_session(alloc: Global, name: &str) -> Result<Notes, AllocError> {
    let mut notes = Notes::new(alloc);
    notes.say_with("{}: input too long", &[Part::Text(name)])?;
    Ok(notes)
}

/// Appends how many replies there are to a report.
pub(crate) fn put_replies(notes: &mut Notes, count: usize) -> Result<(), AllocError> {
    let replies = if count == 1 { "reply" } else { "replies" };
    notes.add_with("{} {}", &[Part::Count(count), Part::Text(replies)])
}

/// Begins the report that the text of this file is refused.
pub(crate) fn begin_refusal<W: Sink>(name: &str, writer: &mut W) -> Result<(), ServeFault> {
    write_whole(writer, name.as_bytes())?;
    write_whole(writer, b": ")
}
