//! The start and the end of a picture of a halt: what it is in words, its rows, and what it leaves out.

use crate::lanes::events_before;
use crate::layout::{LaneRow, Layout, MARGIN, NAME, WIDTH};
use crate::pixels::{Pixels, Point};
use crate::scene::{HaltScene, new_lines, wrapped};
use crate::style::{say_markers, say_style};
use crate::svg::{put_escaped, say_line, say_text};
use dbg_base::Pid;
use std::alloc::AllocError;
use ui_text::{Notes, Part};

// The most characters of a line of the heading, of a sentence, and of the foot.
const HEADING: usize = 84;

const SENTENCE: usize = 112;

const FOOT: usize = 128;

/// The lines above the rows, and those below them.
#[derive(Drop)]
pub(crate) struct Words {
    pub(crate) heading: Notes,
    pub(crate) sentences: Notes,
    pub(crate) foot: Notes,
}

// The predicate of the breakpoint.
fn heading(notes: &Notes, scene: &HaltScene<'_>) -> Result<Notes, AllocError> {
    let mut words = new_lines(notes.alloc());
    words.say("")?;
    scene
        .view
        .put_predicate(&mut words, scene.name, scene.detector)?;
    wrapped(notes.alloc(), words.line(0).bytes, HEADING)
}

// The sentences, each from the beginning of a line.
fn sentences(notes: &Notes, scene: &HaltScene<'_>) -> Result<Notes, AllocError> {
    let mut lines = new_lines(notes.alloc());
    for number in 0..scene.sentences.count() {
        let sentence = scene.sentences.line(number).bytes;
        let parts = wrapped(notes.alloc(), sentence, SENTENCE)?;
        for part in 0..parts.count() {
            lines.say_with("{}", &[Part::Bytes(parts.line(part).bytes)])?;
        }
    }
    Ok(lines)
}

// How many events the cut has, and how many the session has.
fn sizes(scene: &HaltScene<'_>) -> (u32, u32) {
    let (mut cut, mut all) = (0u32, 0u32);
    for p in 0..scene.view.session.program.processes() {
        cut = cut.saturating_add(scene.cut.count(Pid(p)));
        all = all.saturating_add(scene.view.session.world.place(Pid(p)));
    }
    (cut, all)
}

// Appends of which processes no event is needed to the last line.
fn put_unneeded(words: &mut Notes, scene: &HaltScene<'_>) -> Result<(), AllocError> {
    let mut between = " No event is needed of ";
    for pid in &scene.halt.order {
        if !scene.halt.is_shown(*pid) {
            let name = scene.scope(*pid).name();
            words.add_with("{}{}", &[Part::Text(between), name])?;
            between = ", ";
        }
    }
    words.add(if between == ", " { "." } else { "" })
}

// What the picture shows, and what it leaves out.
fn foot(notes: &Notes, scene: &HaltScene<'_>) -> Result<Notes, AllocError> {
    let (cut, all) = sizes(scene);
    let mut words = new_lines(notes.alloc());
    words.say_with(
        "{} of {} lead here. Hatched: the part holds. Large mark: since this event.",
        &[Part::Natural(cut), Part::Events(all)],
    )?;
    if scene.halt.crossings.is_empty() {
        words.add(" No message is on its way.")?;
    }
    put_unneeded(&mut words, scene)?;
    wrapped(notes.alloc(), words.line(0).bytes, FOOT)
}

impl Words {
    /// The words about a halt.
    pub(crate) fn of(notes: &Notes, scene: &HaltScene<'_>) -> Result<Words, AllocError> {
        Ok(Words {
            heading: heading(notes, scene)?,
            sentences: sentences(notes, scene)?,
            foot: foot(notes, scene)?,
        })
    }
}

/// Says lines of this kind from a place down, each so much further down. Returns where the next one would be.
pub(crate) fn say_lines(
    notes: &mut Notes,
    kind: &str,
    at: Point,
    step: i64,
    lines: &Notes,
) -> Result<Point, AllocError> {
    let mut place = at;
    for number in 0..lines.count() {
        say_text(notes, kind, place, lines.line(number).bytes)?;
        place = place.moved(0, step);
    }
    Ok(place)
}

/// Says the start of a picture of this height.
pub(crate) fn say_start(
    notes: &mut Notes,
    scene: &HaltScene<'_>,
    words: &Words,
    height: Pixels,
) -> Result<(), AllocError> {
    let size = [
        Part::Number(WIDTH.0),
        Part::Number(height.0),
        Part::Number(WIDTH.0),
        Part::Number(height.0),
    ];
    notes.say_with(
        "<svg xmlns=\"http://www.w3.org/2000/svg\" class=\"rdbg-lanes\" role=\"img\" viewBox=\"0 0 {} {}\" width=\"{}\" height=\"{}\">",
        &size,
    )?;
    notes.say("  <title>")?;
    put_escaped(notes, words.heading.line(0).bytes)?;
    notes.add("</title>")?;
    notes.say("  <desc>")?;
    for number in 0..scene.sentences.count() {
        put_escaped(notes, scene.sentences.line(number).bytes)?;
        notes.add(" ")?;
    }
    notes.add("</desc>")?;
    say_style(notes, scene.theme)?;
    say_markers(notes)?;
    notes.say_with(
        "  <pattern id=\"rdbg-hatch-{}\" width=\"7\" height=\"7\" patternUnits=\"userSpaceOnUse\" patternTransform=\"rotate(45)\"><rect class=\"rdbg-tint\" width=\"7\" height=\"7\"/><line class=\"rdbg-hatch\" x1=\"0\" y1=\"0\" x2=\"0\" y2=\"7\"/></pattern>",
        &[Part::Name(scene.name)],
    )?;
    notes.say("  <rect class=\"rdbg-ground\" width=\"100%\" height=\"100%\"/>")
}

// Appends a name to the last line, without its middle if it is long.
fn put_name(notes: &mut Notes, name: &[u8]) -> Result<(), AllocError> {
    if name.len() <= NAME {
        return notes.add_with("{}", &[Part::Bytes(name)]);
    }
    let half = NAME.saturating_sub(2) / 2;
    let first = name.get(..half).unwrap_or(name);
    let last = name.get(name.len().saturating_sub(half)..).unwrap_or(&[]);
    notes.add_with("{}..{}", &[Part::Bytes(first), Part::Bytes(last)])
}

/// Says the name and the line of a process, and how many of its events are before the first column.
pub(crate) fn say_row(
    notes: &mut Notes,
    scene: &HaltScene<'_>,
    layout: &Layout,
    row: &LaneRow,
) -> Result<(), AllocError> {
    let at = |x: Pixels| Point { x, y: row.y };
    let mut name = new_lines(notes.alloc());
    name.say("")?;
    put_name(&mut name, scene.view.text.process_name(row.pid))?;
    let kind = if scene.has_part(row.pid) {
        "name rdbg-violator"
    } else {
        "name"
    };
    say_text(notes, kind, at(MARGIN).moved(0, 4), name.line(0).bytes)?;
    say_line(notes, "line", at(layout.left), at(layout.cut))?;
    let before = match scene.row(row.pid) {
        Some(marks) if !layout.is_whole() => events_before(marks, layout.first),
        _ => 0,
    };
    if before == 0 {
        return Ok(());
    }
    let mut words = new_lines(notes.alloc());
    words.say_with("\u{22ef} {}", &[Part::Natural(before)])?;
    let up = if scene.has_part(row.pid) { -16 } else { -4 };
    say_text(
        notes,
        "label",
        at(layout.left).moved(2, up),
        words.line(0).bytes,
    )
}
