//! The panel beyond the line of the cut: the values at the cut.

use crate::layout::{LABEL_CHARACTER, Layout, NAME_CHARACTER, WIDTH};
use crate::pixels::{Pixels, Point, count_of};
use crate::scene::{HaltScene, longest, new_lines, wrapped};
use crate::svg::{Area, say_area, say_text};
use dbg_base::Pid;
use std::alloc::{AllocError, Global};
use ui_text::{Notes, Part};

// The most characters of a line of the values of a part, and of other values, of which there are at most so many lines.
const PART_LINE: usize = 30;

const LINE: usize = 26;

const LINES: usize = 2;

// The heights of a line of values, in a chip and without one.
const CHIP_LINE: Pixels = Pixels(16);

const VALUE_LINE: Pixels = Pixels(13);

/// What the panel says of a process: the values that its part names, or else its variables, and since when the part holds.
#[derive(Drop)]
pub(crate) struct PanelRow {
    has_part: bool,
    values: Notes,
    since: Notes,
}

// Says since when the part of a process holds.
fn since_words(alloc: Global, scene: &HaltScene<'_>, pid: Pid) -> Result<Notes, AllocError> {
    let mut words = new_lines(alloc);
    match scene.halt.part(pid) {
        Some(part) if part.since == 0 => words.say("holds from the start")?,
        Some(part) => words.say_with("holds since event {}", &[Part::Natural(part.since)])?,
        None => {}
    }
    Ok(words)
}

// The values of the variables of a process in the cut.
fn variables(alloc: Global, scene: &HaltScene<'_>, pid: Pid) -> Result<Notes, AllocError> {
    let env = scene.state_after(pid, scene.cut.count(pid))?;
    let mut words = new_lines(alloc);
    words.say("")?;
    scope_variables(scene, &mut words, pid, env.values())?;
    let mut lines = wrapped(alloc, words.line(0).bytes, LINE)?;
    if lines.count() > LINES {
        lines.truncate(LINES);
        lines.add(" ..")?;
    }
    Ok(lines)
}

// Appends variables and their values to the last line, with blanks between.
fn scope_variables(
    scene: &HaltScene<'_>,
    words: &mut Notes,
    pid: Pid,
    values: &[i64],
) -> Result<(), AllocError> {
    let scope = scene.scope(pid);
    for (variable, value) in (0u32..).zip(values) {
        let between = if variable == 0 { "" } else { " " };
        let (name, value) = (scope.variable(variable), scope.value(variable, *value));
        words.add_with("{}{}={}", &[Part::Text(between), name, value])?;
    }
    Ok(())
}

impl PanelRow {
    /// What the panel says of a process.
    pub(crate) fn of(
        alloc: Global,
        scene: &HaltScene<'_>,
        pid: Pid,
    ) -> Result<PanelRow, AllocError> {
        let has_part = scene.has_part(pid);
        let values = if has_part {
            let mut words = new_lines(alloc);
            words.say("")?;
            scene.put_part_values(&mut words, pid, scene.cut.count(pid))?;
            wrapped(alloc, words.line(0).bytes, PART_LINE)?
        } else {
            variables(alloc, scene, pid)?
        };
        let since = since_words(alloc, scene, pid)?;
        Ok(PanelRow {
            has_part,
            values,
            since,
        })
    }

    /// How wide it is.
    pub(crate) fn width(&self) -> Pixels {
        let values = count_of(longest(&self.values));
        let since = Pixels(LABEL_CHARACTER).times(count_of(longest(&self.since)));
        let wide = if self.has_part {
            Pixels(NAME_CHARACTER).times(values) + Pixels(14)
        } else {
            Pixels(LABEL_CHARACTER).times(values)
        };
        Pixels(wide.0.max(since.0))
    }

    // How many lines of values there are, besides the first one.
    fn further(&self) -> i64 {
        count_of(self.values.count().saturating_sub(1))
    }

    /// How much more height it needs than one line of values.
    pub(crate) fn more(&self) -> Pixels {
        let line = if self.has_part { CHIP_LINE } else { Pixels(0) };
        line.times(self.further())
    }

    // The frame around the values of a part.
    fn say_chip(&self, notes: &mut Notes, corner: Point) -> Result<(), AllocError> {
        let wide = Pixels(NAME_CHARACTER).times(count_of(longest(&self.values))) + Pixels(14);
        let high = CHIP_LINE.times(self.further()) + Pixels(25);
        say_area(notes, "chip", Area { corner, wide, high }, 4)
    }

    /// Says what the panel has at a place.
    pub(crate) fn say(&self, notes: &mut Notes, at: Point) -> Result<(), AllocError> {
        if self.has_part {
            self.say_chip(notes, at.moved(0, -13))?;
        }
        let (kind, line) = match self.has_part {
            true => ("value", CHIP_LINE),
            false => ("state", VALUE_LINE),
        };
        let mut place = at.moved(if self.has_part { 7 } else { 0 }, 4);
        for number in 0..self.values.count() {
            say_text(notes, kind, place, self.values.line(number).bytes)?;
            place = Point {
                x: place.x,
                y: place.y + line,
            };
        }
        if self.since.count() > 0 {
            say_text(notes, "since", place.moved(-6, 7), self.since.line(0).bytes)?;
        }
        Ok(())
    }
}

/// Says the panel, with the line of the cut before it.
pub(crate) fn say_panel(notes: &mut Notes, layout: &Layout) -> Result<(), AllocError> {
    let top = Point {
        x: layout.cut,
        y: layout.top,
    };
    let high = layout.bottom - layout.top;
    let area = Area {
        corner: top,
        wide: WIDTH - layout.cut,
        high,
    };
    say_area(notes, "panel", area, 0)?;
    say_text(notes, "earliest", top.moved(10, 14), b"earliest state")?;
    for row in &layout.rows {
        let at = Point {
            x: layout.panel,
            y: row.y,
        };
        row.panel.say(notes, at)?;
    }
    Ok(())
}
