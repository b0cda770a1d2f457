//! Lanes: where the part of a process holds.

use crate::layout::{LABEL_CHARACTER, LaneRow, Layout};
use crate::pixels::{Pixels, Point, count_of};
use crate::scene::{HaltScene, new_lines};
use crate::svg::{Area, say_area, say_text};
use std::alloc::{AllocError, Global};
use ui_halt::{MarkRow, PartInCut, is_true_after};
use ui_text::{Notes, Part};

// How high a stretch is in which a part holds, and one in which it is false.
const HOLDS: Pixels = Pixels(24);

const FALSE: Pixels = Pixels(18);

// How far words are from the middle of a mark.
const MARK: Pixels = Pixels(20);

// A stretch of a lane: the state after so many events, up to the next change.
#[derive(Clone, Copy)]
struct Stretch {
    from: Pixels,
    to: Pixels,
    holds: bool,
    count: u32,
}

/// How many events of a process are before the first column.
pub(crate) fn events_before(marks: &MarkRow, first: u32) -> u32 {
    match marks.starts.get(marks.marks_before(first)) {
        Some(start) => start.saturating_sub(1),
        None => marks.count,
    }
}

// The stretches of a lane, from the left to the line of the cut.
fn stretches(
    alloc: Global,
    layout: &Layout,
    marks: &MarkRow,
    part: &PartInCut,
) -> Result<Vec<Stretch>, AllocError> {
    let truths = part.truths.as_slice();
    let count = events_before(marks, layout.first);
    let mut stretches = Vec::new(alloc);
    let mut open = Stretch {
        from: layout.left,
        to: layout.cut,
        holds: is_true_after(truths, count),
        count,
    };
    for at in marks.marks_before(layout.first)..marks.starts.len() {
        let depth = marks.depths.get(at).copied().unwrap_or(0);
        let count = marks.last_of(at);
        let holds = is_true_after(truths, count);
        if holds == open.holds {
            continue;
        }
        let x = layout.x(depth);
        stretches.push(Stretch { to: x, ..open })?;
        open = Stretch {
            from: x,
            to: layout.cut,
            holds,
            count,
        };
    }
    stretches.push(open)?;
    Ok(stretches)
}

// Says the frame of a stretch.
fn say_frame(
    notes: &mut Notes,
    scene: &HaltScene<'_>,
    y: Pixels,
    stretch: Stretch,
) -> Result<(), AllocError> {
    let high = if stretch.holds { HOLDS } else { FALSE };
    let corner = Point {
        x: stretch.from,
        y: y - high.eighths(4),
    };
    let wide = stretch.to - stretch.from;
    let area = Area { corner, wide, high };
    if !stretch.holds {
        return say_area(notes, "false", area, 0);
    }
    notes.say_with(
        "  <g fill=\"url(#rdbg-hatch-{})\">",
        &[Part::Name(scene.name)],
    )?;
    say_area(notes, "holds", area, 0)?;
    notes.say("  </g>")
}

// A gap between marks: where it begins, and how wide it is.
#[derive(Clone, Copy)]
struct Gap {
    from: Pixels,
    wide: Pixels,
}

// The widest gap of a stretch that no mark covers.
fn widest_gap(layout: &Layout, marks: &MarkRow, stretch: Stretch) -> Gap {
    let mut from = stretch.from;
    let mut widest = Gap {
        from,
        wide: Pixels(0),
    };
    for at in marks.marks_before(layout.first)..=marks.starts.len() {
        let mark = match marks.depths.get(at) {
            Some(depth) => layout.x(*depth),
            None => stretch.to + MARK,
        };
        let to = mark.0.min((stretch.to + MARK).0);
        let wide = Pixels(to) - from - MARK.times(2);
        if wide.0 > widest.wide.0 {
            let from = from + MARK;
            widest = Gap { from, wide };
        }
        from = Pixels(mark.0.max(stretch.from.0));
    }
    widest
}

// Says the values of the part in a stretch, if they fit into it.
fn say_values(
    notes: &mut Notes,
    scene: &HaltScene<'_>,
    row: &LaneRow,
    stretch: Stretch,
    gap: Gap,
) -> Result<(), AllocError> {
    let mut words = new_lines(notes.alloc());
    words.say("")?;
    scene.put_part_values(&mut words, row.pid, stretch.count)?;
    let wide = Pixels(LABEL_CHARACTER).times(count_of(words.width()));
    if wide.0 > gap.wide.0 {
        return Ok(());
    }
    let kind = if stretch.holds { "held" } else { "unmet" };
    let at = Point {
        x: gap.from,
        y: row.y,
    };
    say_text(notes, kind, at.moved(0, 4), words.line(0).bytes)
}

/// Says the lane of a process, if it has a part in the predicate.
pub(crate) fn say_lane(
    notes: &mut Notes,
    scene: &HaltScene<'_>,
    layout: &Layout,
    row: &LaneRow,
) -> Result<(), AllocError> {
    let (Some(part), Some(marks)) = (scene.halt.part(row.pid), scene.row(row.pid)) else {
        return Ok(());
    };
    let stretches = stretches(notes.alloc(), layout, marks, part)?;
    for stretch in &stretches {
        say_frame(notes, scene, row.y, *stretch)?;
    }
    for stretch in &stretches {
        let gap = widest_gap(layout, marks, *stretch);
        say_values(notes, scene, row, *stretch, gap)?;
    }
    Ok(())
}
