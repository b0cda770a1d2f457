//! Where everything is in a picture of a halt.

use crate::panel::PanelRow;
use crate::pixels::{Pixels, Point, count_of};
use crate::scene::HaltScene;
use dbg_base::Pid;
use std::alloc::{AllocError, Global};

/// How wide the picture is.
pub(crate) const WIDTH: Pixels = Pixels(830);

/// How far everything is from the edges.
pub(crate) const MARGIN: Pixels = Pixels(14);

/// How wide a character is: of a name or a value in the panel, and of a label.
pub(crate) const NAME_CHARACTER: i64 = 8;

pub(crate) const LABEL_CHARACTER: i64 = 7;

// The most characters of a name.
pub(crate) const NAME: usize = 14;

// The least distance of two columns, and the room between the last column and the line of the cut.
const LEAST_PITCH: i64 = 42;

const BEFORE_CUT: Pixels = Pixels(24);

// The room for the number of events before the first column.
const EARLIER: Pixels = Pixels(34);

// The room above the middle of a row, and below it.
const ABOVE_PART: Pixels = Pixels(46);

const ABOVE: Pixels = Pixels(22);

const BELOW: Pixels = Pixels(36);

/// The row of a process, and what the panel says of it.
#[derive(Drop)]
pub(crate) struct LaneRow {
    pub(crate) pid: Pid,
    pub(crate) y: Pixels,
    pub(crate) panel: PanelRow,
}

/// Where everything is. The first column has the marks of a depth, and there are columns up to the greatest depth.
#[derive(Drop)]
pub(crate) struct Layout {
    pub(crate) left: Pixels,
    pub(crate) cut: Pixels,
    pub(crate) panel: Pixels,
    pub(crate) top: Pixels,
    pub(crate) bottom: Pixels,
    pub(crate) first: u32,
    pitch: Pixels,
    columns: Pixels,
    pub(crate) rows: Vec<LaneRow>,
}

// The rows of the processes that are shown, from this height down, and where they end.
fn rows_from(
    alloc: Global,
    scene: &HaltScene<'_>,
    top: Pixels,
) -> Result<(Vec<LaneRow>, Pixels), AllocError> {
    let mut rows = Vec::new(alloc);
    let mut y = top;
    for pid in &scene.halt.order {
        if !scene.halt.is_shown(*pid) {
            continue;
        }
        let panel = PanelRow::of(alloc, scene, *pid)?;
        let above = if scene.has_part(*pid) {
            ABOVE_PART
        } else {
            ABOVE
        };
        let middle = y + above;
        y = middle + BELOW + panel.more();
        rows.push(LaneRow {
            pid: *pid,
            y: middle,
            panel,
        })?;
    }
    Ok((rows, y))
}

// The room of the names, at the left.
fn names_width(scene: &HaltScene<'_>) -> Pixels {
    let mut longest = 0usize;
    for pid in &scene.halt.order {
        if scene.halt.is_shown(*pid) {
            longest = longest.max(scene.view.text.process_name(*pid).len());
        }
    }
    MARGIN + MARGIN + Pixels(NAME_CHARACTER).times(count_of(longest.min(NAME)))
}

// The greatest depth of a mark.
fn deepest(scene: &HaltScene<'_>) -> u32 {
    let mut deepest = 1u32;
    for row in &scene.halt.rows {
        deepest = deepest.max(row.deepest());
    }
    deepest
}

// How wide the panel is: as its widest words.
fn panel_width(rows: &[LaneRow]) -> Pixels {
    let mut widest = Pixels(110);
    for row in rows {
        widest = Pixels(widest.0.max(row.panel.width().0));
    }
    widest + Pixels(12)
}

impl Layout {
    /// The layout of rows below this height.
    pub(crate) fn of(
        alloc: Global,
        scene: &HaltScene<'_>,
        top: Pixels,
    ) -> Result<Layout, AllocError> {
        let (rows, bottom) = rows_from(alloc, scene, top)?;
        let left = names_width(scene);
        let has_flights = !scene.halt.crossings.is_empty();
        let gap = Pixels(if has_flights { 28 } else { 10 });
        let cut = WIDTH - panel_width(rows.as_slice()) - gap;
        let depths = i64::from(deepest(scene));
        let room = (cut - left - BEFORE_CUT).0.max(LEAST_PITCH);
        let all = room / LEAST_PITCH;
        let shown = if depths <= all {
            depths
        } else {
            (room.saturating_sub(EARLIER.0) / LEAST_PITCH).max(1)
        };
        let is_cut_off = shown < depths;
        let before = if is_cut_off { EARLIER } else { Pixels(0) };
        let pitch = room.saturating_sub(before.0).checked_div(shown);
        let first = depths.saturating_sub(shown).saturating_add(1);
        Ok(Layout {
            left,
            cut,
            panel: cut + gap,
            top,
            bottom,
            first: u32::try_from(first).unwrap_or(1),
            pitch: Pixels(pitch.unwrap_or(LEAST_PITCH)),
            columns: left + before,
            rows,
        })
    }

    /// The middle of the column of a depth. What is less deep is at the left end.
    pub(crate) fn x(&self, depth: u32) -> Pixels {
        if depth < self.first {
            return self.left;
        }
        let column = i64::from(depth.saturating_sub(self.first));
        self.columns + self.pitch.times(column) + self.pitch.eighths(3) + Pixels(8)
    }

    /// The height of the row of a process. None if it is not shown.
    pub(crate) fn y(&self, pid: Pid) -> Option<Pixels> {
        match self.rows.iter().find(|row| row.pid == pid) {
            Some(row) => Some(row.y),
            None => None,
        }
    }

    /// The place of a depth in the row of a process.
    pub(crate) fn place(&self, pid: Pid, depth: u32) -> Option<Point> {
        let y = self.y(pid)?;
        Some(Point {
            x: self.x(depth),
            y,
        })
    }

    /// Whether all depths have a column.
    pub(crate) fn is_whole(&self) -> bool {
        self.first <= 1
    }
}
