//! Messages that were received in the cut, as arrows.

use crate::layout::{LABEL_CHARACTER, LaneRow, Layout};
use crate::marks::{HALF, LARGE, ShownMark, shown_mark};
use crate::pixels::{Pixels, Point, count_of};
use crate::scene::{HaltScene, new_lines};
use crate::svg::{say_curve, say_text};
use dbg_base::Pid;
use event_rows::{Event, Exchange};
use std::alloc::AllocError;
use ui_halt::MarkRow;
use ui_text::{Notes, Part};
use ui_view::sending;

// How far an arrow may be bent to one side or the other, the least first.
const BENDS: [i64; 7] = [0, 34, -34, 68, -68, 102, -102];

// Where on an arrow its value may be, in eighths, the best first.
const VALUE_PLACES: [i64; 5] = [4, 3, 5, 2, 6];

/// An arrow from one row to another: where it begins and ends, and how far it is bent.
#[derive(Clone, Copy)]
pub(crate) struct Arrow {
    pub(crate) from: Point,
    pub(crate) to: Point,
    pub(crate) bend: i64,
}

/// Where the value of a message is: its middle, and how far it reaches to both sides.
#[derive(Clone, Copy)]
pub(crate) struct ValuePlace {
    at: Point,
    half: Pixels,
}

impl ValuePlace {
    // Whether another value would touch it.
    fn is_near(&self, other: &ValuePlace) -> bool {
        let apart = self.half + other.half + Pixels(6);
        (self.at.x - other.at.x).size() < apart.0 && (self.at.y - other.at.y).size() < 13
    }
}

impl Arrow {
    // The point by which it is bent.
    fn middle(&self) -> Point {
        Point {
            x: (self.from.x + self.to.x).eighths(4) + Pixels(self.bend),
            y: (self.from.y + self.to.y).eighths(4),
        }
    }

    // The place after so many eighths of it.
    fn place(&self, eighths: i64) -> Point {
        let rest = 8i64.saturating_sub(eighths);
        let straight = self.from.x.eighths(rest) + self.to.x.eighths(eighths);
        // (a curve of the second degree, which is 2 t (1 - t) of the bend away from the line)
        let away = Pixels(self.bend).times(eighths).times(rest).eighths(2);
        Point {
            x: straight + away.eighths(1),
            y: self.from.y.eighths(rest) + self.to.y.eighths(eighths),
        }
    }

    // How many eighths of it are up to this height. None if it does not come there.
    fn eighths_at(&self, y: Pixels) -> Option<i64> {
        let tall = (self.to.y - self.from.y).0;
        let part = (y - self.from.y).times(8).0.checked_div(tall)?;
        (0..=8).contains(&part).then_some(part)
    }

    // Whether it is as far from each other mark as it has to be, in the rows between its ends.
    fn is_free(&self, scene: &HaltScene<'_>, layout: &Layout) -> bool {
        for row in &layout.rows {
            let is_end = (row.y - self.from.y).size() < 20 || (row.y - self.to.y).size() < 20;
            if is_end {
                continue;
            }
            if let (Some(part), Some(marks)) = (self.eighths_at(row.y), scene.row(row.pid)) {
                let x = self.place(part).x;
                if marks
                    .depths
                    .iter()
                    .any(|depth| (layout.x(*depth) - x).size() < 17)
                {
                    return false;
                }
            }
        }
        true
    }

    // The same, bent as little as it has to be.
    fn bent(&self, scene: &HaltScene<'_>, layout: &Layout) -> Arrow {
        for bend in BENDS {
            let arrow = Arrow { bend, ..*self };
            if arrow.is_free(scene, layout) {
                return arrow;
            }
        }
        *self
    }

    /// Says the arrow, and its value where no other value is near.
    pub(crate) fn say(
        &self,
        notes: &mut Notes,
        kind: &str,
        value: &[u8],
        places: &mut Vec<ValuePlace>,
    ) -> Result<(), AllocError> {
        say_curve(notes, kind, self.from, self.middle(), self.to)?;
        let half = Pixels(LABEL_CHARACTER)
            .times(count_of(value.len()))
            .eighths(4);
        let mut best = ValuePlace {
            at: self.place(4),
            half,
        };
        for part in VALUE_PLACES {
            let at = self.place(part);
            let place = ValuePlace { at, half };
            if !places.iter().any(|other| place.is_near(other)) {
                best = place;
                break;
            }
        }
        places.push(best)?;
        let kind = if kind == "flight" {
            "flown"
        } else {
            "message-value"
        };
        say_text(notes, kind, best.at.moved(0, 4), value)
    }
}

/// The words for the value of a message.
pub(crate) fn message_words(
    notes: &Notes,
    scene: &HaltScene<'_>,
    source: Pid,
    target: Pid,
    value: i64,
) -> Result<Notes, AllocError> {
    let mut words = new_lines(notes.alloc());
    let shown = scene.view.text.message(source, target, value);
    words.say_with("{}", &[Part::Shown(shown)])?;
    Ok(words)
}

// What the first event of a mark received: from whom, the message, and its count.
fn received(scene: &HaltScene<'_>, mark: &ShownMark) -> Option<(Pid, i64, u32)> {
    let rows = scene.view.session.world.rows();
    let number = (mark.first as usize).checked_sub(1)?;
    match rows.event(mark.pid, number).map(Event::exchange) {
        Some(
            Exchange::Took {
                source,
                message,
                count,
            },
        ) => Some((source, message, count)),
        _ => None,
    }
}

/// Where the mark of the event that sent a message is. One before the first column is at the left end.
pub(crate) fn sender_place(
    scene: &HaltScene<'_>,
    layout: &Layout,
    source: Pid,
    target: Pid,
    count: u32,
) -> Option<Point> {
    let event = sending(scene.view.session.world, source, target, count);
    let marks = scene.row(source)?;
    let depth = *marks.depths.get(marks.mark_of(event)?)?;
    layout.place(source, depth)
}

// The arrow to a mark from the one that sent what its first event received.
fn arrow_to(from: Point, mark: &ShownMark) -> Arrow {
    let is_down = from.y.0 < mark.at.y.0;
    let gap = if mark.is_large { LARGE } else { HALF }.saturating_add(3);
    let (out, back) = if is_down {
        (HALF, gap.saturating_neg())
    } else {
        (HALF.saturating_neg(), gap)
    };
    Arrow {
        from: from.moved(2, out),
        to: mark.at.moved(0, back),
        bend: 0,
    }
}

// Says the arrow to a mark, if its first event received a message.
fn say_arrow(
    notes: &mut Notes,
    scene: &HaltScene<'_>,
    layout: &Layout,
    mark: &ShownMark,
    places: &mut Vec<ValuePlace>,
) -> Result<(), AllocError> {
    let Some((source, message, count)) = received(scene, mark) else {
        return Ok(());
    };
    let Some(from) = sender_place(scene, layout, source, mark.pid, count) else {
        return Ok(());
    };
    let words = message_words(notes, scene, source, mark.pid, message)?;
    let arrow = arrow_to(from, mark).bent(scene, layout);
    arrow.say(notes, "message", words.line(0).bytes, places)
}

/// Says the arrows to the marks of a process. The places are those of values.
pub(crate) fn say_arrows(
    notes: &mut Notes,
    scene: &HaltScene<'_>,
    layout: &Layout,
    row: &LaneRow,
    marks: &MarkRow,
    places: &mut Vec<ValuePlace>,
) -> Result<(), AllocError> {
    for number in 0..marks.starts.len() {
        if let Some(mark) = shown_mark(scene, layout, row, marks, number) {
            say_arrow(notes, scene, layout, &mark, places)?;
        }
    }
    Ok(())
}
