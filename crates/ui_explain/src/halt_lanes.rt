//! The rows of the report of a halt: for each process its events in the cut, and where its part holds.

use crate::halts::HaltReport;
use crate::lane_columns::{GAP, LaneColumns, ShownMark};
use dbg_base::Pid;
use shell_io::Style;
use std::alloc::AllocError;
use ui_halt::{MarkRow, is_true_after};
use ui_text::{Notes, Part};

// What is between the marks of a process.
#[derive(Clone, Copy, PartialEq, Eq)]
enum Ground {
    // It has no part.
    Blank,
    // Its part is false there.
    False,
    // It holds.
    Holds,
}

// A stretch of ground, of at most so many characters and at least one.
fn stretch(ground: Ground, most: usize) -> &'static str {
    match (ground, most >= 8) {
        (Ground::Blank, true) => "        ",
        (Ground::Blank, false) => " ",
        (Ground::False, true) => "........",
        (Ground::False, false) => ".",
        (Ground::Holds, true) => "========",
        (Ground::Holds, false) => "=",
    }
}

// Appends so many characters of ground to the last line.
fn put_ground(notes: &mut Notes, ground: Ground, count: usize) -> Result<(), AllocError> {
    let mut left = count;
    for _ in 0..count {
        if left == 0 {
            break;
        }
        let words = stretch(ground, left);
        if ground == Ground::Holds {
            notes.add_in(Style::Halt, words)?;
        } else {
            notes.add(words)?;
        }
        left = left.saturating_sub(words.len());
    }
    Ok(())
}

// Appends a mark to the last line.
fn put_mark(notes: &mut Notes, mark: ShownMark) -> Result<(), AllocError> {
    if mark.has_star {
        notes.add_in(Style::Halt, "*")?;
    }
    notes.add_with("{}", &[Part::Natural(mark.first)])?;
    if mark.last == mark.first {
        return Ok(());
    }
    notes.add_with("-{}", &[Part::Natural(mark.last)])
}

impl HaltReport<'_> {
    // What is after so many events of a process, up to its next mark.
    fn ground(&self, pid: Pid, count: u32) -> Ground {
        match self.halt.part(pid) {
            None => Ground::Blank,
            Some(part) if is_true_after(part.truths.as_slice(), count) => Ground::Holds,
            Some(_) => Ground::False,
        }
    }

    // Begins the row of a process with its name. A long one is cut in the middle.
    fn begin_row(
        &self,
        notes: &mut Notes,
        columns: &LaneColumns,
        pid: Pid,
    ) -> Result<(), AllocError> {
        let name = self.view().text.process_name(pid);
        let room = columns.begin.saturating_sub(GAP.saturating_mul(2));
        let half = room.saturating_sub(GAP) / 2;
        let has_part = self.halt.part(pid).is_some();
        notes.begin_line(if has_part { Style::Halt } else { Style::Plain })?;
        notes.add(if has_part { "* " } else { "  " })?;
        if name.len() <= room {
            let shown = if has_part {
                Part::Bytes(name)
            } else {
                Part::Process(name, pid.0)
            };
            notes.add_with("{}", &[shown])?;
        } else {
            let end = name.len().saturating_sub(half);
            let (first, last) = (name.get(..half), name.get(end..));
            let parts = [
                Part::Bytes(first.unwrap_or(name)),
                Part::Bytes(last.unwrap_or(&[])),
            ];
            notes.add_with("{}..{}", &parts)?;
        }
        notes.tab_in(Style::Plain, columns.begin)
    }

    // Appends how many events of a process come before the first column, if there are columns before it.
    fn put_before(
        &self,
        notes: &mut Notes,
        columns: &LaneColumns,
        events: u32,
    ) -> Result<(), AllocError> {
        if !columns.has_before() {
            return Ok(());
        }
        if events > 0 {
            notes.add_with("[{}]", &[Part::Natural(events)])?;
        }
        let width = columns.lane().saturating_sub(notes.width());
        put_ground(notes, Ground::Blank, width)
    }

    // Appends the marks of a process, each in the column of its depth.
    fn put_marks(
        &self,
        notes: &mut Notes,
        columns: &LaneColumns,
        pid: Pid,
        row: &MarkRow,
    ) -> Result<(), AllocError> {
        let shown = row.marks_before(columns.first);
        let mut events = match row.starts.get(shown) {
            Some(start) => start.saturating_sub(1),
            None => row.count,
        };
        self.put_before(notes, columns, events)?;
        for (depth, width) in (columns.first..).zip(&columns.widths) {
            let width = width.saturating_add(GAP);
            let Some(at) = row.mark_at(depth) else {
                put_ground(notes, self.ground(pid, events), width)?;
                continue;
            };
            let mark = self.shown_mark(row, pid, at);
            let gap = width.saturating_sub(mark.width());
            put_ground(notes, self.ground(pid, events), gap)?;
            put_mark(notes, mark)?;
            events = mark.last;
        }
        put_ground(notes, self.ground(pid, row.count), GAP)?;
        notes.add("|")
    }

    // Appends the values that a part names to the last line, if they are not above and have room.
    fn put_part_values(
        &self,
        notes: &mut Notes,
        columns: &LaneColumns,
        values: &[u8],
    ) -> Result<(), AllocError> {
        let width = notes.width().saturating_add(values.len());
        if columns.are_values_above || values.is_empty() || width >= self.view().width {
            return Ok(());
        }
        notes.add_with(" {}", &[Part::Bytes(values)])
    }

    // The position of the part of a process among the parts.
    fn part_position(&self, pid: Pid) -> Option<usize> {
        self.halt.parts.iter().position(|part| part.pid == pid)
    }

    /// Shows the rows, those of the parts first.
    pub(crate) fn tell_lanes(
        &self,
        notes: &mut Notes,
        columns: &LaneColumns,
        values: &Notes,
    ) -> Result<(), AllocError> {
        for pid in &self.halt.order {
            let Some(row) = self.halt.row(*pid) else {
                break;
            };
            if !self.halt.is_shown(*pid) {
                continue;
            }
            self.begin_row(notes, columns, *pid)?;
            self.put_marks(notes, columns, *pid, row)?;
            if let Some(at) = self.part_position(*pid) {
                self.put_part_values(notes, columns, values.line(at).bytes)?;
            }
        }
        Ok(())
    }

    /// Shows the values that the parts name, and since when each part holds.
    pub(crate) fn tell_values_above(
        &self,
        notes: &mut Notes,
        columns: &LaneColumns,
        values: &Notes,
    ) -> Result<(), AllocError> {
        for (at, part) in self.halt.parts.iter().enumerate() {
            self.begin_row(notes, columns, part.pid)?;
            let mut words = Notes::new(notes.alloc());
            words.say_with("{}", &[Part::Bytes(values.line(at).bytes)])?;
            let before = Part::Text(if words.width() > 0 { ", " } else { "" });
            if part.since == 0 {
                words.add_with("{}from the start", &[before])?;
            } else {
                words.add_with("{}since event {}", &[before, Part::Natural(part.since)])?;
            }
            self.wrapping(columns.begin)
                .put(notes, words.line(0).bytes)?;
        }
        Ok(())
    }
}
