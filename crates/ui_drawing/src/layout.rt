//! The columns of a drawing, and where its events are.

use crate::labels::{EventWords, width_of};
use crate::rows::RowNumbers;
use crate::shapes::Point;
use crate::sheet::Scene;
use dbg_base::Pid;
use std::alloc::AllocError;
use ui_timeline::{ShownEvent, bytes_of};

/// The room at the edges.
pub(crate) const MARGIN: i64 = 14;

/// From a row to the next one.
pub(crate) const ROW: i64 = 48;

/// From an event to a cut below it.
pub(crate) const FALL: i64 = 22;

/// The height of a line of words above or below the drawing.
pub(crate) const SENTENCE_ROW: i64 = 18;

/// From a process's line to the words at its events.
pub(crate) const ASIDE: i64 = 12;

// The least room for the words at events, and for the words at arrows.
const LEAST_LABEL: i64 = 56;

const LEAST_GUTTER: i64 = 28;

// From the room of a process to that of the next one.
const GAP: i64 = 12;

/// Where everything is. Each process has a line, with room for the words at arrows on its left and for those at its events on its right.
#[derive(Drop)]
pub(crate) struct Layout {
    // Of each process: how wide the room on its left is, the place of its line, and where its room on the right ends.
    gutters: Vec<i64>,
    lines: Vec<i64>,
    ends: Vec<i64>,
    rows: RowNumbers,
    top: i64,
}

/// The number at a position, or 0.
pub(crate) fn at(numbers: &[i64], place: usize) -> i64 {
    numbers.get(place).copied().unwrap_or(0)
}

/// Makes a number at least as large as another.
pub(crate) fn raise(numbers: &mut [i64], place: usize, least: i64) {
    if let Some(number) = numbers.get_mut(place) {
        *number = (*number).max(least);
    }
}

// The process whose line is further to the right.
fn right_of(ends: (Pid, Pid)) -> usize {
    ends.0.0.max(ends.1.0) as usize
}

impl Layout {
    /// The layout of a scene, whose heading has so many lines, and whose events have these words and are so many rows lower than their causal
    /// depth asks for.
    pub(crate) fn of(
        scene: Scene<'_>,
        heading: usize,
        words: &[EventWords],
        falls: &[i64],
    ) -> Result<Layout, AllocError> {
        let lines = i64::try_from(heading).unwrap_or(i64::MAX);
        let mut layout = Layout {
            gutters: Vec::new(scene.alloc),
            lines: Vec::new(scene.alloc),
            ends: Vec::new(scene.alloc),
            rows: RowNumbers::of(scene, falls)?,
            top: lines.saturating_mul(SENTENCE_ROW).saturating_add(38),
        };
        layout.measure_names(scene)?;
        for (shown, words) in scene.events.iter().zip(words) {
            layout.measure_event(scene, *shown, words);
        }
        layout.place_lines(scene)?;
        Ok(layout)
    }

    // Begins with the least rooms. Until the lines are placed, `ends` has the room on the right.
    fn measure_names(&mut self, scene: Scene<'_>) -> Result<(), AllocError> {
        for p in 0..scene.processes() {
            self.measure_name(scene, Pid(p))?;
        }
        Ok(())
    }

    // A process that is not shown has no room.
    fn measure_name(&mut self, scene: Scene<'_>, pid: Pid) -> Result<(), AllocError> {
        if !scene.selection.contains(pid) {
            self.gutters.push(0)?;
            return Ok(self.ends.push(0)?);
        }
        let name = width_of(scene.view.text.process_name(pid));
        self.gutters.push(LEAST_GUTTER)?;
        self.ends.push(name.max(LEAST_LABEL))?;
        self.measure_again(scene, pid)
    }

    // The words at what a process can redo.
    fn measure_again(&mut self, scene: Scene<'_>, pid: Pid) -> Result<(), AllocError> {
        for n in 0..scene.again(pid) {
            let label = scene.again_label(pid, n)?;
            let width = width_of(bytes_of(&label)).saturating_add(ASIDE);
            raise(self.ends.as_mut_slice(), pid.0 as usize, width);
        }
        Ok(())
    }

    fn measure_event(&mut self, scene: Scene<'_>, shown: ShownEvent, words: &EventWords) {
        let width = words.label_width().saturating_add(ASIDE);
        raise(self.ends.as_mut_slice(), shown.pid.0 as usize, width);
        if let Some(ends) = scene.message_ends(shown) {
            let width = words.message_width().saturating_add(20);
            raise(self.gutters.as_mut_slice(), right_of(ends), width);
        }
    }

    fn place_lines(&mut self, scene: Scene<'_>) -> Result<(), AllocError> {
        let mut x = MARGIN;
        for p in 0..scene.processes() {
            let place = p as usize;
            let gap = if scene.selection.contains(Pid(p)) {
                GAP
            } else {
                0
            };
            x = x.saturating_add(at(self.gutters.as_slice(), place));
            self.lines.push(x)?;
            x = x
                .saturating_add(at(self.ends.as_slice(), place))
                .saturating_add(gap);
            if let Some(end) = self.ends.get_mut(place) {
                *end = x;
            }
        }
        Ok(())
    }

    /// The height at which the lines of the processes begin.
    pub(crate) fn top(&self) -> i64 {
        self.top
    }

    /// The last row that has an event, or 0.
    pub(crate) fn last_row(&self) -> i64 {
        self.rows.last()
    }

    // The height of a row.
    fn height(&self, row: i64) -> i64 {
        self.top.saturating_add(row.saturating_mul(ROW))
    }

    /// The height of an event that can be redone, the n-th of its process, from 0.
    pub(crate) fn again(&self, n: u32) -> i64 {
        let rows = i64::from(n).saturating_add(1);
        self.height(self.rows.last().saturating_add(rows))
    }

    /// The height at which the lines of the processes end, if so many events can be redone.
    pub(crate) fn end(&self, again: u32) -> i64 {
        self.again(again).saturating_sub(8)
    }

    /// The place of a process's line.
    pub(crate) fn line(&self, pid: Pid) -> i64 {
        at(self.lines.as_slice(), pid.0 as usize)
    }

    /// Where the room of a process begins.
    pub(crate) fn begin(&self, pid: Pid) -> i64 {
        self.line(pid)
            .saturating_sub(at(self.gutters.as_slice(), pid.0 as usize))
    }

    /// Where the room of a process ends.
    pub(crate) fn room_end(&self, pid: Pid) -> i64 {
        at(self.ends.as_slice(), pid.0 as usize)
    }

    /// Where the words on the right of a process's events begin.
    pub(crate) fn words(&self, pid: Pid) -> i64 {
        self.line(pid).saturating_add(ASIDE)
    }

    /// Where the room of the last process ends.
    pub(crate) fn right(&self) -> i64 {
        self.ends.last().copied().unwrap_or(MARGIN)
    }

    /// The row of the n-th event of a process, or 0 if it is not shown.
    pub(crate) fn row(&self, scene: Scene<'_>, pid: Pid, number: u32) -> i64 {
        self.rows.row(scene, pid, number)
    }

    /// The point of the n-th event of a process, or of its start if n is 0. An event that is left out is at the start.
    pub(crate) fn event(&self, scene: Scene<'_>, pid: Pid, number: u32) -> Point {
        Point {
            x: self.line(pid),
            y: self.height(self.row(scene, pid, number)),
        }
    }
}
