//! Lengths and places of a drawing.

use std::ops::{Add, Sub};

/// A length, or a place from the left or from the top, in pixels. A sum that is too large is the largest length.
#[derive(Clone, Copy)]
pub(crate) struct Pixels(pub(crate) i64);

impl Add for Pixels {
    type Output = Pixels;

    fn add(self, other: Pixels) -> Pixels {
        Pixels(self.0.saturating_add(other.0))
    }
}

impl Sub for Pixels {
    type Output = Pixels;

    fn sub(self, other: Pixels) -> Pixels {
        Pixels(self.0.saturating_sub(other.0))
    }
}

impl Pixels {
    /// So many of these lengths.
    pub(crate) fn times(self, count: i64) -> Pixels {
        Pixels(self.0.saturating_mul(count))
    }

    /// This part of it, in eighths.
    pub(crate) fn eighths(self, count: i64) -> Pixels {
        Pixels(self.0.saturating_mul(count) / 8)
    }

    /// The length without its direction.
    pub(crate) fn size(self) -> i64 {
        self.0.saturating_abs()
    }
}

/// A count as a number of lengths.
pub(crate) fn count_of(count: usize) -> i64 {
    i64::try_from(count).unwrap_or(i64::MAX)
}

/// A place in a drawing.
#[derive(Clone, Copy)]
pub(crate) struct Point {
    pub(crate) x: Pixels,
    pub(crate) y: Pixels,
}

impl Point {
    /// The place that is so much further to the right and down.
    pub(crate) fn moved(self, right: i64, down: i64) -> Point {
        Point {
            x: self.x + Pixels(right),
            y: self.y + Pixels(down),
        }
    }
}
