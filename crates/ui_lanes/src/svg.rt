//! The parts of an SVG: attributes, texts and shapes.

use crate::pixels::{Pixels, Point};
use std::alloc::AllocError;
use ui_text::{Notes, Part, as_markup};

/// Appends a text to the last line.
pub(crate) fn put_escaped(notes: &mut Notes, text: &[u8]) -> Result<(), AllocError> {
    let words = as_markup(notes.alloc(), text)?;
    notes.add_with("{}", &[Part::Bytes(words.as_slice())])
}

/// Says a text of this kind at a place.
pub(crate) fn say_text(
    notes: &mut Notes,
    kind: &str,
    at: Point,
    text: &[u8],
) -> Result<(), AllocError> {
    notes.say_with(
        "  <text class=\"rdbg-{}\" x=\"{}\" y=\"{}\">",
        &[Part::Text(kind), Part::Number(at.x.0), Part::Number(at.y.0)],
    )?;
    put_escaped(notes, text)?;
    notes.add("</text>")
}

/// Says a line of this kind.
pub(crate) fn say_line(
    notes: &mut Notes,
    kind: &str,
    from: Point,
    to: Point,
) -> Result<(), AllocError> {
    notes.say_with(
        "  <line class=\"rdbg-{}\" x1=\"{}\" y1=\"{}\" x2=\"{}\" y2=\"{}\"/>",
        &[
            Part::Text(kind),
            Part::Number(from.x.0),
            Part::Number(from.y.0),
            Part::Number(to.x.0),
            Part::Number(to.y.0),
        ],
    )
}

/// A rectangle, from its left and upper corner.
#[derive(Clone, Copy)]
pub(crate) struct Area {
    pub(crate) corner: Point,
    pub(crate) wide: Pixels,
    pub(crate) high: Pixels,
}

/// Says a rectangle of this kind with corners of this radius.
pub(crate) fn say_area(
    notes: &mut Notes,
    kind: &str,
    area: Area,
    radius: i64,
) -> Result<(), AllocError> {
    notes.say_with(
        "  <rect class=\"rdbg-{}\" x=\"{}\" y=\"{}\" width=\"{}\" height=\"{}\" rx=\"{}\"/>",
        &[
            Part::Text(kind),
            Part::Number(area.corner.x.0),
            Part::Number(area.corner.y.0),
            Part::Number(area.wide.0),
            Part::Number(area.high.0),
            Part::Number(radius),
        ],
    )
}

/// Says a circle of this kind.
pub(crate) fn say_circle(
    notes: &mut Notes,
    kind: &str,
    at: Point,
    radius: i64,
) -> Result<(), AllocError> {
    notes.say_with(
        "  <circle class=\"rdbg-{}\" cx=\"{}\" cy=\"{}\" r=\"{}\"/>",
        &[
            Part::Text(kind),
            Part::Number(at.x.0),
            Part::Number(at.y.0),
            Part::Number(radius),
        ],
    )
}

/// Says a curve of this kind, with an arrow head at its end.
pub(crate) fn say_curve(
    notes: &mut Notes,
    kind: &str,
    from: Point,
    by: Point,
    to: Point,
) -> Result<(), AllocError> {
    notes.say_with(
        "  <path class=\"rdbg-{}\" d=\"M{} {}Q{} {} {} {}\"/>",
        &[
            Part::Text(kind),
            Part::Number(from.x.0),
            Part::Number(from.y.0),
            Part::Number(by.x.0),
            Part::Number(by.y.0),
            Part::Number(to.x.0),
            Part::Number(to.y.0),
        ],
    )
}
