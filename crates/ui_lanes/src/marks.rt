//! Marks: one event, or several that belong together, with the labels of their commands and what they set.

use crate::layout::{LABEL_CHARACTER, LaneRow, Layout};
use crate::pixels::{Pixels, Point, count_of};
use crate::scene::{HaltScene, new_lines};
use crate::svg::{Area, put_escaped, say_area, say_circle, say_text};
use dbg_base::{Choice, Pid};
use event_rows::Event;
use std::alloc::AllocError;
use ui_halt::MarkRow;
use ui_text::{Notes, Part};
use ui_view::{names_variable, part_of};

// The least characters of a label that is cut off. With fewer it is left out.
const LEAST: usize = 9;

/// How far a mark reaches from its middle: of a usual one up and down, and of a large one to all sides.
pub(crate) const HALF: i64 = 9;

pub(crate) const LARGE: i64 = 15;

/// A mark in the drawing: its process, its events, and its place.
#[derive(Clone, Copy)]
pub(crate) struct ShownMark {
    pub(crate) pid: Pid,
    pub(crate) first: u32,
    pub(crate) last: u32,
    pub(crate) at: Point,
    /// Whether its part has been true since its first event.
    pub(crate) is_large: bool,
    // Where the next mark of the process is, or the line of the cut.
    next: Pixels,
}

/// The mark of this number, from 0, of the row of a process. None if there is none, or it is before the first column.
pub(crate) fn shown_mark(
    scene: &HaltScene<'_>,
    layout: &Layout,
    row: &LaneRow,
    marks: &MarkRow,
    number: usize,
) -> Option<ShownMark> {
    let depth = *marks.depths.get(number)?;
    let first = *marks.starts.get(number)?;
    if depth < layout.first {
        return None;
    }
    let next = match marks.depths.get(number.saturating_add(1)) {
        Some(depth) => layout.x(*depth),
        None => layout.cut,
    };
    Some(ShownMark {
        pid: row.pid,
        first,
        last: marks.last_of(number),
        at: Point {
            x: layout.x(depth),
            y: row.y,
        },
        is_large: scene
            .halt
            .part(row.pid)
            .is_some_and(|part| part.since == first),
        next,
    })
}

// The event of this number, from 1, of a process.
fn event<'a>(scene: &HaltScene<'a>, pid: Pid, number: u32) -> Option<&'a Event> {
    let rows = scene.view.session.world.rows();
    rows.event(pid, (number as usize).checked_sub(1)?)
}

// Appends the numbers of the events of a mark to the last line.
fn put_numbers(notes: &mut Notes, mark: &ShownMark) -> Result<(), AllocError> {
    notes.add_with("{}", &[Part::Natural(mark.first)])?;
    if mark.last > mark.first {
        notes.add_with("\u{2013}{}", &[Part::Natural(mark.last)])?;
    }
    Ok(())
}

// Appends the labels of the commands of a mark to the last line, each once if it is there several times in a row.
fn put_labels(
    notes: &mut Notes,
    scene: &HaltScene<'_>,
    mark: &ShownMark,
) -> Result<(), AllocError> {
    let mut before: Option<Choice> = None;
    let mut between = "";
    for number in mark.first..=mark.last {
        let choice = event(scene, mark.pid, number).map(Event::choice);
        let label = match choice {
            Some(choice) if before != Some(choice) => scene.view.text.label(mark.pid, choice),
            _ => &[],
        };
        before = choice;
        if !label.is_empty() {
            notes.add_with("{}{}", &[Part::Text(between), Part::Bytes(label)])?;
            between = " ";
        }
    }
    Ok(())
}

// Whether the lane of a process shows this variable.
fn is_in_lane(scene: &HaltScene<'_>, pid: Pid, variable: u32) -> bool {
    match part_of(scene.detector, scene.view.session.program, pid) {
        Some(part) => names_variable(part, variable),
        None => false,
    }
}

// Appends what an event changed to the last line, but for what the lane shows.
fn put_changes(
    notes: &mut Notes,
    scene: &HaltScene<'_>,
    pid: Pid,
    event: &Event,
    between: &mut &'static str,
) -> Result<(), AllocError> {
    let scope = scene.scope(pid);
    for setting in event.settings() {
        if setting.old == setting.new || is_in_lane(scene, pid, setting.variable) {
            continue;
        }
        let name = scope.variable(setting.variable);
        let value = scope.value(setting.variable, setting.new);
        notes.add_with("{}{}={}", &[Part::Text(*between), name, value])?;
        *between = " ";
    }
    Ok(())
}

// Appends what the events of a mark changed to the last line, the last event first.
fn put_all_changes(
    notes: &mut Notes,
    scene: &HaltScene<'_>,
    mark: &ShownMark,
) -> Result<(), AllocError> {
    let mut between = "";
    for number in (mark.first..=mark.last).rev() {
        if let Some(event) = event(scene, mark.pid, number) {
            put_changes(notes, scene, mark.pid, event, &mut between)?;
        }
    }
    Ok(())
}

// The labels of a mark, and what its events changed: two lines, which may be empty.
fn words_of(scene: &HaltScene<'_>, notes: &Notes, mark: &ShownMark) -> Result<Notes, AllocError> {
    let mut words = new_lines(notes.alloc());
    words.say("")?;
    put_labels(&mut words, scene, mark)?;
    words.say("")?;
    put_all_changes(&mut words, scene, mark)?;
    Ok(words)
}

// Says which events a mark has, for whoever points at it, and begins its group.
fn begin_group(
    notes: &mut Notes,
    scene: &HaltScene<'_>,
    mark: &ShownMark,
    words: &Notes,
) -> Result<(), AllocError> {
    notes.say_with(
        "  <g class=\"rdbg-mark\"><title>{} {} ",
        &[
            scene.scope(mark.pid).name(),
            Part::Text(if mark.last > mark.first {
                "events"
            } else {
                "event"
            }),
        ],
    )?;
    put_numbers(notes, mark)?;
    for number in 0..words.count() {
        let line = words.line(number).bytes;
        if !line.is_empty() {
            notes.add(": ")?;
            put_escaped(notes, line)?;
        }
    }
    notes.add("</title>")
}

// How many characters the numbers of a mark have.
fn number_width(mark: &ShownMark, notes: &Notes) -> Result<usize, AllocError> {
    let mut numbers = new_lines(notes.alloc());
    numbers.say("")?;
    put_numbers(&mut numbers, mark)?;
    // (the dash has three bytes)
    let dash = if mark.last > mark.first { 2 } else { 0 };
    Ok(numbers.width().saturating_sub(dash))
}

// Says the shape of a mark.
fn say_shape(notes: &mut Notes, mark: &ShownMark) -> Result<(), AllocError> {
    if mark.is_large {
        say_circle(notes, "ring", mark.at, LARGE)?;
        return say_circle(notes, "large", mark.at, LARGE.saturating_sub(2));
    }
    let width = count_of(number_width(mark, notes)?);
    let wide = Pixels(6).times(width) + Pixels(11);
    let corner = Point {
        x: mark.at.x - wide.eighths(4),
        y: mark.at.y - Pixels(HALF),
    };
    let high = Pixels(HALF).times(2);
    say_area(notes, "event", Area { corner, wide, high }, HALF)
}

// Says the numbers of the events in a mark.
fn say_numbers(notes: &mut Notes, mark: &ShownMark) -> Result<(), AllocError> {
    let kind = if mark.is_large {
        "number rdbg-first"
    } else {
        "number"
    };
    let mut numbers = new_lines(notes.alloc());
    numbers.say("")?;
    put_numbers(&mut numbers, mark)?;
    say_text(notes, kind, mark.at.moved(0, 4), numbers.line(0).bytes)
}

// A line of words in at most so many characters, if it is not too short then.
fn shortened(line: &[u8], room: usize) -> Option<(&[u8], &'static str)> {
    if line.is_empty() {
        return None;
    }
    if line.len() <= room {
        return Some((line, ""));
    }
    if room < LEAST {
        return None;
    }
    Some((line.get(..room.saturating_sub(2)).unwrap_or(&[]), ".."))
}

// Says the words of a mark, above it if its process has a part, and else below it.
fn say_words(
    notes: &mut Notes,
    scene: &HaltScene<'_>,
    mark: &ShownMark,
    words: &Notes,
) -> Result<(), AllocError> {
    let room = (mark.next - mark.at.x - Pixels(2)).0 / LABEL_CHARACTER;
    let room = usize::try_from(room).unwrap_or(0);
    let first = if scene.has_part(mark.pid) {
        -32i64
    } else {
        HALF.saturating_add(13)
    };
    for (number, kind, further) in [(0, "label", 0), (1, "change", 13)] {
        let Some((line, end)) = shortened(words.line(number).bytes, room) else {
            continue;
        };
        let mut label = new_lines(notes.alloc());
        label.say_with("{}{}", &[Part::Bytes(line), Part::Text(end)])?;
        let at = mark.at.moved(-8, first.saturating_add(further));
        say_text(notes, kind, at, label.line(0).bytes)?;
    }
    Ok(())
}

// Says a mark.
fn say_mark(notes: &mut Notes, scene: &HaltScene<'_>, mark: &ShownMark) -> Result<(), AllocError> {
    let words = words_of(scene, notes, mark)?;
    begin_group(notes, scene, mark, &words)?;
    say_shape(notes, mark)?;
    say_numbers(notes, mark)?;
    say_words(notes, scene, mark, &words)?;
    notes.say("  </g>")
}

/// Says the marks of a process.
pub(crate) fn say_marks(
    notes: &mut Notes,
    scene: &HaltScene<'_>,
    layout: &Layout,
    row: &LaneRow,
) -> Result<(), AllocError> {
    let Some(marks) = scene.row(row.pid) else {
        return Ok(());
    };
    for number in 0..marks.starts.len() {
        if let Some(mark) = shown_mark(scene, layout, row, marks, number) {
            say_mark(notes, scene, &mark)?;
        }
    }
    Ok(())
}
