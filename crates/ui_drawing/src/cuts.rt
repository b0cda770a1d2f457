//! The cuts of breakpoints in a drawing.

use crate::layout::{FALL, Layout, MARGIN};
use crate::shapes::Point;
use crate::sheet::{Scene, SvgSheet};
use crate::svg::{end_text, put_ends, put_number, say_text};
use dbg_base::Pid;
use std::alloc::AllocError;
use ui_text::{Notes, Part, as_markup};
use ui_timeline::{NamedCut, bytes_of};

// Where cuts begin and end, from the edges of the drawing.
const EDGE: i64 = 6;

// From a cut to another one below the same event.
const STEP: i64 = 4;

const STEPS: usize = 3;

// How many colours and patterns there are. The breakpoint that halts has a colour of its own.
const COLOURS: usize = 4;

const PATTERNS: usize = 5;

/// Appends the class of what belongs to a cut to the last line.
pub(crate) fn put_cut_class(
    notes: &mut Notes,
    class: &'static str,
    cut: &NamedCut,
) -> Result<(), AllocError> {
    if cut.halts {
        return notes.add_with(" class=\"rdbg-{} rdbg-halts\"", &[Part::Text(class)]);
    }
    notes.add_with(
        " class=\"rdbg-{} rdbg-colour{} rdbg-pattern{}\"",
        &[
            Part::Text(class),
            Part::Count(cut.place % COLOURS),
            Part::Count(cut.place % PATTERNS),
        ],
    )
}

/// The height of a cut on a process's line: below its last event in the cut. Cuts below the same event are at different heights.
pub(crate) fn level_of(scene: Scene<'_>, layout: &Layout, cut: &NamedCut, pid: Pid) -> i64 {
    let last = layout.event(scene, pid, cut.cut.count(pid));
    let aside = i64::try_from(cut.place % STEPS)
        .unwrap_or(0)
        .saturating_mul(STEP);
    last.y.saturating_add(FALL).saturating_add(aside)
}

/// Where cuts end on the right.
pub(crate) fn right_of(layout: &Layout) -> i64 {
    layout.right().saturating_add(EDGE)
}

/// The corners of a cut, from left to right.
pub(crate) fn corners(
    scene: Scene<'_>,
    layout: &Layout,
    cut: &NamedCut,
) -> Result<Vec<Point>, AllocError> {
    let mut corners = Vec::new(scene.alloc);
    let mut begin = EDGE;
    let pids = scene.selection.pids();
    for (place, pid) in pids.iter().enumerate() {
        let end = match pids.get(place.saturating_add(1)) {
            Some(next) => layout.begin(*next),
            None => right_of(layout),
        };
        let y = level_of(scene, layout, cut, *pid);
        for x in [begin, end] {
            corners.push(Point { x, y })?;
        }
        begin = end;
    }
    Ok(corners)
}

impl SvgSheet<'_> {
    // Appends the corners of a cut to the last line, from left to right.
    fn put_corners(&self, notes: &mut Notes, cut: &NamedCut) -> Result<(), AllocError> {
        for corner in &corners(self.scene, self.layout, cut)? {
            notes.add_with(" {},{}", &[Part::Number(corner.x), Part::Number(corner.y)])?;
        }
        Ok(())
    }

    /// What is inside the first cut.
    pub(crate) fn say_inside(&self, notes: &mut Notes) -> Result<(), AllocError> {
        let Some(cut) = self.scene.cuts.first() else {
            return Ok(());
        };
        let top = self.layout.top().saturating_sub(8);
        notes.say("  <polygon")?;
        put_cut_class(notes, "inside", cut)?;
        notes.add_with(" points=\"{},{}", &[Part::Number(EDGE), Part::Number(top)])?;
        self.put_corners(notes, cut)?;
        notes.add_with(
            " {},{}\"/>",
            &[Part::Number(right_of(self.layout)), Part::Number(top)],
        )
    }

    /// The line of a cut.
    pub(crate) fn say_cut(&self, notes: &mut Notes, cut: &NamedCut) -> Result<(), AllocError> {
        notes.say("  <polyline")?;
        put_cut_class(notes, "cut", cut)?;
        notes.add(" points=\"")?;
        self.put_corners(notes, cut)?;
        let name = cut.name();
        notes.add_with("\"><title>the cut of {}</title></polyline>", &[name])
    }

    /// The name of a cut, which begins at this point.
    pub(crate) fn say_cut_name(
        &self,
        notes: &mut Notes,
        cut: &NamedCut,
        at: Point,
    ) -> Result<(), AllocError> {
        notes.say("  <text")?;
        put_cut_class(notes, "of", cut)?;
        put_number(notes, "x", at.x)?;
        put_number(notes, "y", at.y)?;
        let title = cut.title(self.scene.alloc)?;
        notes.add_with(">{}", &[Part::Bytes(bytes_of(&title))])?;
        end_text(notes)
    }

    /// A line of the legend: what a cut looks like, and what it is.
    pub(crate) fn say_cut_sentence(
        &self,
        notes: &mut Notes,
        cut: &NamedCut,
        y: i64,
    ) -> Result<(), AllocError> {
        let middle = y.saturating_sub(4);
        notes.say("  <line")?;
        put_cut_class(notes, "cut", cut)?;
        let from = Point {
            x: MARGIN,
            y: middle,
        };
        let to = Point {
            x: MARGIN.saturating_add(34),
            y: middle,
        };
        put_ends(notes, from, to)?;
        notes.add("/>")?;
        let x = MARGIN.saturating_add(42);
        say_text(notes, "key", Point { x, y })?;
        let words = self.scene.cut_sentence(cut)?;
        let words = as_markup(self.scene.alloc, words.as_slice())?;
        notes.add_with("{}", &[Part::Bytes(words.as_slice())])?;
        end_text(notes)
    }

    /// The marks at the last events of a cut of the processes that the predicate names.
    pub(crate) fn say_deciding(&self, notes: &mut Notes, cut: &NamedCut) -> Result<(), AllocError> {
        for pid in &cut.pids {
            let count = cut.cut.count(*pid);
            if !self.scene.selection.contains(*pid) {
                continue;
            }
            if self.scene.left > 0 && !self.scene.timeline.is_shown(*pid, count, self.scene.left) {
                continue;
            }
            let last = self.layout.event(self.scene, *pid, count);
            notes.say("  <circle")?;
            put_cut_class(notes, "decides", cut)?;
            put_number(notes, "cx", last.x)?;
            put_number(notes, "cy", last.y)?;
            put_number(notes, "r", 8)?;
            notes.add("/>")?;
        }
        Ok(())
    }
}
