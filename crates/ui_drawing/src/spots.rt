//! Where the words at an event or an arrow may be, and which of these places is best: the first that costs least.

use crate::arrows::Arrow;
use crate::layout::ASIDE;
use crate::obstacles::Obstacles;
use crate::shapes::{ASCENT, Area, DESCENT, Point, Stroke};

/// Where words are: where they begin or, on the left of an event, where they end.
#[derive(Clone, Copy)]
pub(crate) struct WordSpot {
    pub(crate) point: Point,
    pub(crate) is_end: bool,
}

// Where the words at an event may be: whether on its left, and how far below its middle.
const SIDES: &[(bool, i64)] = &[
    (false, 4),
    (false, -6),
    (false, 16),
    (false, -12),
    (false, 22),
    (true, 4),
    (true, -6),
    (true, 16),
    (true, -12),
    (true, 22),
];

// Where along an arrow its words may be, in sixteenths: for a message that was received, and for one on its way.
const RECEIVED: &[i64] = &[8, 6, 10, 4, 12, 3, 13];

const WAITING: &[i64] = &[12, 13, 10, 8, 6, 4, 3];

/// The area that costs least of those that were offered, and whether its words end at its event.
#[derive(Clone, Copy)]
pub(crate) struct BestSpot {
    pub(crate) cost: i64,
    pub(crate) area: Area,
    is_end: bool,
}

impl BestSpot {
    /// Nothing was offered.
    pub(crate) fn new() -> BestSpot {
        let nowhere = Point { x: 0, y: 0 };
        BestSpot {
            cost: i64::MAX,
            area: Area::around(nowhere, 0),
            is_end: false,
        }
    }

    /// Takes an area if it costs less.
    pub(crate) fn offer(&mut self, obstacles: &Obstacles, area: Area, is_end: bool) {
        if self.cost > 0 {
            let cost = obstacles.cost(area);
            if cost < self.cost {
                *self = BestSpot { cost, area, is_end };
            }
        }
    }

    /// Where the words are, for the words at an event.
    pub(crate) fn place(&self) -> WordSpot {
        let point = self.area.middle();
        let x = if self.is_end {
            self.area.right
        } else {
            self.area.left
        };
        WordSpot {
            point: Point { x, y: point.y },
            is_end: self.is_end,
        }
    }
}

/// Where words of this width at an event are, if so far below its middle.
pub(crate) fn label_area(event: Point, width: i64, is_end: bool, below: i64) -> Area {
    let x = if is_end {
        event.x.saturating_sub(ASIDE).saturating_sub(width)
    } else {
        event.x.saturating_add(ASIDE)
    };
    let y = event.y.saturating_add(below);
    Area::of_words(Point { x, y }, width)
}

// Where words of this width that begin at this place are above or below a line.
fn level_area_at(stroke: Stroke, x: i64, width: i64, is_below: bool) -> Area {
    let one = stroke.height_at(x);
    let other = stroke.height_at(x.saturating_add(width));
    let y = if is_below {
        one.max(other).saturating_add(3).saturating_add(ASCENT)
    } else {
        one.min(other).saturating_sub(3).saturating_sub(DESCENT)
    };
    Area::of_words(Point { x, y }, width)
}

// Where words of this width are above or below a line, at this part of it.
fn level_area(stroke: Stroke, part: i64, width: i64, is_below: bool) -> Area {
    let x = stroke.point(part).x.saturating_sub(width / 2);
    level_area_at(stroke, x, width, is_below)
}

// Where words of this width are on the left or the right of a line, at this part of it.
fn steep_area(stroke: Stroke, part: i64, width: i64, is_right: bool) -> Area {
    let y = stroke.point(part).y.saturating_add(4);
    let one = stroke.place_at(y.saturating_sub(ASCENT));
    let other = stroke.place_at(y.saturating_add(DESCENT));
    let x = if is_right {
        one.max(other).saturating_add(4)
    } else {
        one.min(other).saturating_sub(4).saturating_sub(width)
    };
    Area::of_words(Point { x, y }, width)
}

// Where words of this width are above or below the right end of a line, on the left of that end.
fn end_area(stroke: Stroke, width: i64, is_below: bool) -> Area {
    let right = stroke.from.x.max(stroke.to.x);
    let x = right.saturating_sub(2).saturating_sub(width);
    level_area_at(stroke, x, width, is_below)
}

// Offers the areas along a line: on its sides or above and below it.
fn offer_along(
    choice: &mut BestSpot,
    obstacles: &Obstacles,
    arrow: Arrow,
    width: i64,
    is_steep: bool,
) {
    let parts = if arrow.is_waiting { WAITING } else { RECEIVED };
    for part in parts {
        for side in [false, true] {
            let area = if is_steep {
                steep_area(arrow.stroke, *part, width, side)
            } else {
                level_area(arrow.stroke, *part, width, side)
            };
            choice.offer(obstacles, area, false);
        }
    }
}

/// The best area for the words of an event at this point.
pub(crate) fn label_choice(obstacles: &Obstacles, event: Point, width: i64) -> BestSpot {
    let mut choice = BestSpot::new();
    for (is_end, below) in SIDES {
        let area = label_area(event, width, *is_end, *below);
        choice.offer(obstacles, area, *is_end);
    }
    choice
}

/// The best area for the words at an arrow.
pub(crate) fn message_choice(obstacles: &Obstacles, arrow: Arrow, width: i64) -> BestSpot {
    let mut choice = BestSpot::new();
    let is_steep = arrow.stroke.is_steep();
    for is_steep in [is_steep, !is_steep] {
        offer_along(&mut choice, obstacles, arrow, width, is_steep);
    }
    for is_below in [false, true] {
        let area = end_area(arrow.stroke, width, is_below);
        choice.offer(obstacles, area, false);
    }
    choice
}
