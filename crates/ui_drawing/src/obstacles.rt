//! What the words of a drawing must not collide with.

use crate::layout::{Layout, MARGIN, ROW};
use crate::shapes::{Area, Stroke};
use crate::sheet::Scene;
use std::alloc::AllocError;

// Of a line that crosses more bands, only the first ones and the last ones are looked at, so that many long lines take no more time.
const REACH: usize = 16;

// The most lines that are looked at in a band.
const MOST: usize = 16;

// What it costs to cover the line of a process.
const LINE: i64 = 1;

/// What it costs to cover an arrow.
pub(crate) const ARROW: i64 = 1;

/// What it costs to cover the line of a cut.
pub(crate) const CUT: i64 = 10;

/// What it costs to cover a mark.
pub(crate) const MARK: i64 = 20;

/// What it costs to cover other words.
pub(crate) const WORDS: i64 = 100;

// What it costs to be outside the drawing.
const OUTSIDE: i64 = 1000;

// A line, and what it costs to cover it.
#[derive(Clone, Copy)]
struct CostlyStroke {
    stroke: Stroke,
    cost: i64,
}

// A rectangle, and what it costs to cover it.
#[derive(Clone, Copy)]
struct CostlyArea {
    area: Area,
    cost: i64,
}

// What is between two heights.
#[derive(Drop)]
struct Band {
    drawn: Vec<CostlyStroke>,
    taken: Vec<CostlyArea>,
}

/// Lines, marks and words that are placed, in bands as high as a row.
#[derive(Drop)]
pub(crate) struct Obstacles {
    // The lines of the processes.
    lines: Vec<i64>,
    bands: Vec<Band>,
    // Where the first band begins, and where the drawing ends on the right.
    top: i64,
    right: i64,
}

impl Obstacles {
    /// The lines of the processes that a scene shows, with room for so many rows.
    pub(crate) fn of(
        scene: Scene<'_>,
        layout: &Layout,
        rows: i64,
    ) -> Result<Obstacles, AllocError> {
        let alloc = scene.alloc;
        let mut lines = Vec::new(alloc);
        for pid in scene.selection.pids() {
            lines.push(layout.line(*pid))?;
        }
        let mut bands = Vec::new(alloc);
        for _ in 0..rows.saturating_add(2) {
            bands.push(Band {
                drawn: Vec::new(alloc),
                taken: Vec::new(alloc),
            })?;
        }
        Ok(Obstacles {
            lines,
            bands,
            top: layout.top().saturating_sub(ROW),
            right: i64::MAX,
        })
    }

    /// Says where the drawing ends on the right.
    pub(crate) fn end_at(&mut self, right: i64) {
        self.right = right;
    }

    // The band of a height.
    fn band(&self, y: i64) -> usize {
        usize::try_from(y.saturating_sub(self.top) / ROW).unwrap_or(0)
    }

    fn push_drawn(&mut self, band: usize, drawn: CostlyStroke) -> Result<(), AllocError> {
        match self.bands.get_mut(band) {
            Some(band) if band.drawn.len() < MOST => Ok(band.drawn.push(drawn)?),
            _ => Ok(()),
        }
    }

    /// Adds a line, and what it costs to cover it.
    pub(crate) fn add_stroke(&mut self, stroke: Stroke, cost: i64) -> Result<(), AllocError> {
        let drawn = CostlyStroke { stroke, cost };
        let (top, bottom) = stroke.heights();
        let (first, last) = (self.band(top), self.band(bottom));
        let near = last.min(first.saturating_add(REACH)).saturating_add(1);
        for band in first..near {
            self.push_drawn(band, drawn)?;
        }
        for band in last.saturating_sub(REACH).max(near)..last.saturating_add(1) {
            self.push_drawn(band, drawn)?;
        }
        Ok(())
    }

    /// Adds a rectangle, and what it costs to cover it.
    pub(crate) fn add_area(&mut self, area: Area, cost: i64) -> Result<(), AllocError> {
        for band in self.band(area.top)..self.band(area.bottom).saturating_add(1) {
            if let Some(band) = self.bands.get_mut(band) {
                band.taken.push(CostlyArea { area, cost })?;
            }
        }
        Ok(())
    }

    // What it costs to cover the lines in a band.
    fn drawn_cost(&self, band: usize, area: Area) -> i64 {
        let Some(band) = self.bands.get(band) else {
            return 0;
        };
        let mut cost = 0i64;
        for drawn in &band.drawn {
            if drawn.stroke.crosses(area) {
                cost = cost.saturating_add(drawn.cost);
            }
        }
        cost
    }

    // What it costs to cover the marks and words in a band.
    fn taken_cost(&self, band: usize, area: Area) -> i64 {
        let Some(band) = self.bands.get(band) else {
            return 0;
        };
        let mut cost = 0i64;
        for taken in &band.taken {
            if taken.area.meets(area) {
                cost = cost.saturating_add(taken.cost);
            }
        }
        cost
    }

    /// What it costs to cover the arrows and cuts in a rectangle.
    pub(crate) fn strokes_cost(&self, area: Area) -> i64 {
        let mut cost = 0i64;
        for band in self.band(area.top)..self.band(area.bottom).saturating_add(1) {
            cost = cost.saturating_add(self.drawn_cost(band, area));
        }
        cost
    }

    // What it costs to cover lines of processes, and to be outside the drawing.
    fn columns_cost(&self, area: Area) -> i64 {
        let mut cost = if area.left < MARGIN || area.right > self.right {
            OUTSIDE
        } else {
            0
        };
        for line in &self.lines {
            if area.left <= *line && *line <= area.right {
                cost = cost.saturating_add(LINE);
            }
        }
        cost
    }

    /// What it costs to cover what is in a rectangle: 0 if nothing is.
    pub(crate) fn cost(&self, words: Area) -> i64 {
        let area = Area {
            left: words.left.saturating_sub(1),
            top: words.top.saturating_sub(1),
            right: words.right.saturating_add(1),
            bottom: words.bottom.saturating_add(1),
        };
        let mut cost = self.columns_cost(area);
        cost = cost.saturating_add(self.strokes_cost(area));
        for band in self.band(area.top)..self.band(area.bottom).saturating_add(1) {
            cost = cost.saturating_add(self.taken_cost(band, area));
        }
        cost
    }
}
