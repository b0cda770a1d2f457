//! The parts of an SVG: attributes, texts and shapes.

use crate::shapes::Point;
use std::alloc::{AllocError, Global};
use ui_text::{Notes, Part};

/// Appends an attribute that is a number to the last line.
pub(crate) fn put_number(
    notes: &mut Notes,
    name: &'static str,
    number: i64,
) -> Result<(), AllocError> {
    notes.add_with(" {}=\"{}\"", &[Part::Text(name), Part::Number(number)])
}

/// Appends the ends of a line to the last line.
pub(crate) fn put_ends(notes: &mut Notes, from: Point, to: Point) -> Result<(), AllocError> {
    put_number(notes, "x1", from.x)?;
    put_number(notes, "y1", from.y)?;
    put_number(notes, "x2", to.x)?;
    put_number(notes, "y2", to.y)
}

/// Begins a circle, up to the end of its first tag.
pub(crate) fn say_circle(
    notes: &mut Notes,
    class: &'static str,
    at: Point,
    radius: i64,
) -> Result<(), AllocError> {
    notes.say_with("  <circle class=\"rdbg-{}\"", &[Part::Text(class)])?;
    put_number(notes, "cx", at.x)?;
    put_number(notes, "cy", at.y)?;
    put_number(notes, "r", radius)?;
    notes.add(">")
}

/// Begins a text, up to its words.
pub(crate) fn say_text(
    notes: &mut Notes,
    class: &'static str,
    at: Point,
) -> Result<(), AllocError> {
    notes.say_with("  <text class=\"rdbg-{}\"", &[Part::Text(class)])?;
    put_number(notes, "x", at.x)?;
    put_number(notes, "y", at.y)?;
    notes.add(">")
}

/// Ends a text.
pub(crate) fn end_text(notes: &mut Notes) -> Result<(), AllocError> {
    notes.add("</text>")
}

/// A text in at most so many characters. If there are more, the last two are dots.
pub(crate) fn shortened(alloc: Global, text: &[u8], room: usize) -> Result<Vec<u8>, AllocError> {
    if text.len() <= room {
        return Vec::from_slice(alloc, text);
    }
    let kept = room.saturating_sub(2);
    let mut words = Vec::from_slice(alloc, text.get(..kept).unwrap_or(text))?;
    words.extend_from_slice(b"..")?;
    Ok(words)
}
