//! Points, lines and rectangles of a drawing, in pixels from the left and from the top.

/// A point.
#[derive(Clone, Copy)]
pub(crate) struct Point {
    pub(crate) x: i64,
    pub(crate) y: i64,
}

/// A straight line.
#[derive(Clone, Copy)]
pub(crate) struct Stroke {
    pub(crate) from: Point,
    pub(crate) to: Point,
}

/// A rectangle.
#[derive(Clone, Copy)]
pub(crate) struct Area {
    pub(crate) left: i64,
    pub(crate) top: i64,
    pub(crate) right: i64,
    pub(crate) bottom: i64,
}

// This part of a number, in sixteenths.
fn sixteenths(number: i64, part: i64) -> i64 {
    number.saturating_mul(part) / 16
}

impl Stroke {
    fn wide(&self) -> i64 {
        self.to.x.saturating_sub(self.from.x)
    }

    fn tall(&self) -> i64 {
        self.to.y.saturating_sub(self.from.y)
    }

    /// Whether the line is closer to a vertical than to a horizontal one.
    pub(crate) fn is_steep(&self) -> bool {
        self.tall().saturating_abs() > self.wide().saturating_abs()
    }

    /// The point after so many sixteenths of the line.
    pub(crate) fn point(&self, part: i64) -> Point {
        Point {
            x: self.from.x.saturating_add(sixteenths(self.wide(), part)),
            y: self.from.y.saturating_add(sixteenths(self.tall(), part)),
        }
    }

    /// The height of the line at this place, or at its nearer end.
    pub(crate) fn height_at(&self, x: i64) -> i64 {
        let x = x
            .max(self.from.x.min(self.to.x))
            .min(self.from.x.max(self.to.x));
        let part = self.tall().saturating_mul(x.saturating_sub(self.from.x));
        let rise = part.checked_div(self.wide()).unwrap_or(0);
        self.from.y.saturating_add(rise)
    }

    /// The place of the line at this height, or at its nearer end.
    pub(crate) fn place_at(&self, y: i64) -> i64 {
        let y = y
            .max(self.from.y.min(self.to.y))
            .min(self.from.y.max(self.to.y));
        let part = self.wide().saturating_mul(y.saturating_sub(self.from.y));
        let run = part.checked_div(self.tall()).unwrap_or(0);
        self.from.x.saturating_add(run)
    }

    // The smallest rectangle around the line.
    fn bounds(&self) -> Area {
        Area {
            left: self.from.x.min(self.to.x),
            top: self.from.y.min(self.to.y),
            right: self.from.x.max(self.to.x),
            bottom: self.from.y.max(self.to.y),
        }
    }

    /// The heights at which the line begins and ends, the upper one first.
    pub(crate) fn heights(&self) -> (i64, i64) {
        let bounds = self.bounds();
        (bounds.top, bounds.bottom)
    }

    /// Whether the line crosses a rectangle.
    pub(crate) fn crosses(&self, area: Area) -> bool {
        let bounds = self.bounds();
        if !bounds.meets(area) {
            return false;
        }
        if self.from.x == self.to.x {
            return true;
        }
        let one = self.height_at(area.left);
        let other = self.height_at(area.right);
        one.min(other) <= area.bottom && one.max(other) >= area.top
    }
}

impl Area {
    /// Whether two rectangles have a point in common.
    pub(crate) fn meets(&self, other: Area) -> bool {
        self.left <= other.right
            && other.left <= self.right
            && self.top <= other.bottom
            && other.top <= self.bottom
    }

    /// The rectangle around a point, with this distance to each side.
    pub(crate) fn around(middle: Point, distance: i64) -> Area {
        Area {
            left: middle.x.saturating_sub(distance),
            top: middle.y.saturating_sub(distance),
            right: middle.x.saturating_add(distance),
            bottom: middle.y.saturating_add(distance),
        }
    }

    /// The rectangle of words of this width that begin at a point.
    pub(crate) fn of_words(start: Point, width: i64) -> Area {
        Area {
            left: start.x,
            top: start.y.saturating_sub(ASCENT),
            right: start.x.saturating_add(width),
            bottom: start.y.saturating_add(DESCENT),
        }
    }

    /// The same, and the room that words keep from others before and after them.
    pub(crate) fn with_gap(&self) -> Area {
        Area {
            left: self.left.saturating_sub(GAP),
            top: self.top,
            right: self.right.saturating_add(GAP),
            bottom: self.bottom,
        }
    }

    /// The middle of the line on which its words stand.
    pub(crate) fn middle(&self) -> Point {
        Point {
            x: self.left.saturating_add(self.right) / 2,
            y: self.top.saturating_add(ASCENT),
        }
    }
}

/// How far characters reach above the line on which they stand, and below it.
pub(crate) const ASCENT: i64 = 10;

pub(crate) const DESCENT: i64 = 3;

// How far words are from others before and after them.
const GAP: i64 = 12;
