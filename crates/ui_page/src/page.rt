//! The page that goes through a session.

mod sources;

use crate::data::PageData;
use shell_io::Sink;
use shell_print::{ServeFault, hand_on, write_whole};
use ui_text::markup_of;

fn write_parts<W: Sink>(parts: &[&str], writer: &mut W) -> Result<(), ServeFault> {
    for part in parts {
        write_whole(writer, part.as_bytes())?;
    }
    Ok(())
}

// Writes a text as the page has it.
fn write_text<W: Sink>(text: &[u8], writer: &mut W) -> Result<(), ServeFault> {
    let mut from = 0usize;
    for (at, byte) in text.iter().enumerate() {
        if let Some(sign) = markup_of(*byte) {
            write_whole(writer, text.get(from..at).unwrap_or(&[]))?;
            write_whole(writer, sign.as_bytes())?;
            from = at.saturating_add(1);
        }
    }
    write_whole(writer, text.get(from..).unwrap_or(&[]))
}

/// Writes the page of a session, as it was recorded. Without scripts the page shows this drawing of it, which is text.
pub fn write_page<W: Sink>(
    session: &PageData,
    drawing: &[u8],
    writer: &mut W,
) -> Result<(), ServeFault> {
    write_parts(&sources::before(), writer)?;
    write_text(drawing, writer)?;
    write_parts(&sources::between(), writer)?;
    write_whole(writer, session.bytes())?;
    let written = write_parts(&sources::after(), writer);
    hand_on(written, writer)
}
