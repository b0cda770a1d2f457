//! Where the rows of the report of a halt have their columns.

use crate::halts::HaltReport;
use dbg_base::Pid;
use std::alloc::{AllocError, Global};
use ui_halt::MarkRow;
use ui_text::Notes;

// The room before the name of a process, and the gap after it.
const BEFORE_NAME: usize = 2;

pub(crate) const GAP: usize = 2;

// The room of a label, as `no earlier`, and the most that a name has.
const LABEL: usize = 12;

const NAME: usize = 24;

// With at most so many parts, their values are shown above the rows if they have no room there.
const FEW: usize = 2;

/// A mark as it is shown: its first and its last event.
#[derive(Clone, Copy)]
pub(crate) struct ShownMark {
    pub(crate) first: u32,
    pub(crate) last: u32,
    pub(crate) has_star: bool,
}

// How many digits a number has.
fn digits(number: u32) -> usize {
    let mut digits = 1usize;
    let mut rest = number / 10;
    for _ in 0..u32::BITS {
        if rest == 0 {
            break;
        }
        rest /= 10;
        digits = digits.saturating_add(1);
    }
    digits
}

impl ShownMark {
    /// How many characters it has.
    pub(crate) fn width(&self) -> usize {
        let star = usize::from(self.has_star);
        let width = digits(self.first).saturating_add(star);
        if self.last == self.first {
            return width;
        }
        width.saturating_add(1).saturating_add(digits(self.last))
    }
}

/// How many characters the longest line has.
pub(crate) fn longest_value(values: &Notes) -> usize {
    let mut longest = 0usize;
    for at in 0..values.count() {
        longest = longest.max(values.line(at).bytes.len());
    }
    longest
}

/// Where the rows have their columns: marks of the same depth are in one column.
#[derive(Drop)]
pub(crate) struct LaneColumns {
    /// Where the columns begin.
    pub(crate) begin: usize,
    // How many characters the number of events before the first column has, with brackets and a blank. 0 if there are none.
    before: usize,
    /// The depth of the first column.
    pub(crate) first: u32,
    /// How wide the columns are, from the first one on.
    pub(crate) widths: Vec<usize>,
    pub(crate) are_values_above: bool,
}

// Where a list has enough room: from this position on, its last widths fit in so many characters, each with its gap.
fn fitting(widths: &[usize], room: usize) -> usize {
    let mut left = room;
    let mut from = widths.len();
    for width in widths.iter().rev() {
        let Some(rest) = left.checked_sub(width.saturating_add(GAP)) else {
            break;
        };
        left = rest;
        from = from.saturating_sub(1);
    }
    from
}

impl HaltReport<'_> {
    /// The mark of this number, from 0, of a process.
    pub(crate) fn shown_mark(&self, row: &MarkRow, pid: Pid, mark: usize) -> ShownMark {
        let first = row.starts.get(mark).copied().unwrap_or(0);
        ShownMark {
            first,
            last: row.last_of(mark),
            has_star: self.halt.part(pid).is_some_and(|part| part.since == first),
        }
    }

    // Makes the columns as wide as the marks of a process need.
    fn widen(&self, widths: &mut Vec<usize>, pid: Pid) -> Result<(), AllocError> {
        let Some(row) = self.halt.row(pid) else {
            return Ok(());
        };
        let depths = widths.len().max(row.deepest() as usize);
        widths.resize(depths, 0)?;
        for (mark, depth) in row.depths.iter().enumerate() {
            let width = self.shown_mark(row, pid, mark).width();
            if let Some(own) = widths.get_mut((*depth as usize).saturating_sub(1)) {
                *own = width.max(*own);
            }
        }
        Ok(())
    }

    // How wide the columns are, from depth 1 on.
    fn widths(&self, alloc: Global) -> Result<Vec<usize>, AllocError> {
        let mut widths = Vec::new(alloc);
        for pid in &self.halt.order {
            self.widen(&mut widths, *pid)?;
        }
        Ok(widths)
    }

    // Where the columns begin: after the longest name and the labels.
    fn begin(&self) -> usize {
        let mut longest = 0usize;
        for pid in &self.halt.order {
            if self.halt.is_shown(*pid) {
                longest = longest.max(self.view().text.process_name(*pid).len());
            }
        }
        let name = longest.min(NAME).saturating_add(BEFORE_NAME);
        name.max(LABEL).saturating_add(GAP)
    }

    // How many characters a number of events has, with brackets and a blank after it.
    fn before_width(&self) -> usize {
        let most = self
            .halt
            .rows
            .iter()
            .fold(0u32, |most, row| most.max(row.count));
        digits(most).saturating_add(3)
    }
}

impl LaneColumns {
    /// The columns of a report, with values of at most so many characters.
    pub(crate) fn of(
        alloc: Global,
        report: &HaltReport<'_>,
        longest: usize,
    ) -> Result<LaneColumns, AllocError> {
        let mut widths = report.widths(alloc)?;
        let begin = report.begin();
        // (before the bar there is a gap)
        let room = report.view().width.saturating_sub(begin.saturating_add(3));
        let beside = room.saturating_sub(longest.saturating_add(1));
        let fits_beside = fitting(widths.as_slice(), beside) == 0;
        let is_short = !report.is_tight() && report.halt.parts.len() <= FEW;
        let are_values_above = !fits_beside && is_short;
        let room = if are_values_above { room } else { beside };
        let mut before = 0usize;
        let mut from = fitting(widths.as_slice(), room);
        if from > 0 {
            before = report.before_width();
            from = fitting(widths.as_slice(), room.saturating_sub(before));
        }
        widths.drain(..from.min(widths.len()));
        Ok(LaneColumns {
            begin,
            before,
            first: u32::try_from(from).unwrap_or(0).saturating_add(1),
            widths,
            are_values_above,
        })
    }

    /// Whether there are events before the first column.
    pub(crate) fn has_before(&self) -> bool {
        self.before > 0
    }

    /// Where the first column begins.
    pub(crate) fn lane(&self) -> usize {
        self.begin.saturating_add(self.before)
    }
}
