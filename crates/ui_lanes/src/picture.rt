//! The picture of a halt.

use crate::arrows::say_arrows;
use crate::flights::say_flights;
use crate::frame::{Words, say_lines, say_row, say_start};
use crate::lanes::say_lane;
use crate::layout::{Layout, MARGIN};
use crate::marks::say_marks;
use crate::panel::say_panel;
use crate::pixels::{Pixels, Point, count_of};
use crate::scene::HaltScene;
use crate::svg::say_line;
use std::alloc::AllocError;
use ui_text::Notes;

// How far the lines of the heading, the sentences and the foot are from each other.
const HEADING_STEP: i64 = 19;

const SENTENCE_STEP: i64 = 17;

const FOOT_STEP: i64 = 14;

// The height of the words above the rows.
fn words_height(words: &Words) -> Pixels {
    let heading = Pixels(HEADING_STEP).times(count_of(words.heading.count()));
    let sentences = Pixels(SENTENCE_STEP).times(count_of(words.sentences.count()));
    heading + sentences + Pixels(20)
}

// Says the words above the rows.
fn say_words(notes: &mut Notes, words: &Words) -> Result<(), AllocError> {
    let first = Point {
        x: MARGIN,
        y: Pixels(24),
    };
    let next = say_lines(notes, "heading", first, HEADING_STEP, &words.heading)?;
    say_lines(notes, "sentence", next, SENTENCE_STEP, &words.sentences)?;
    Ok(())
}

// Says the messages.
fn say_messages(
    notes: &mut Notes,
    scene: &HaltScene<'_>,
    layout: &Layout,
) -> Result<(), AllocError> {
    let mut places = Vec::new(notes.alloc());
    for row in &layout.rows {
        if let Some(marks) = scene.row(row.pid) {
            say_arrows(notes, scene, layout, row, marks, &mut places)?;
        }
    }
    say_flights(notes, scene, layout, &mut places)
}

// Says the rows, with the line of the cut.
fn say_rows(notes: &mut Notes, scene: &HaltScene<'_>, layout: &Layout) -> Result<(), AllocError> {
    for row in &layout.rows {
        say_row(notes, scene, layout, row)?;
        say_lane(notes, scene, layout, row)?;
    }
    say_panel(notes, layout)?;
    let at = |y: Pixels| Point { x: layout.cut, y };
    say_line(notes, "cut", at(layout.top), at(layout.bottom))?;
    say_messages(notes, scene, layout)?;
    for row in &layout.rows {
        say_marks(notes, scene, layout, row)?;
    }
    Ok(())
}

/// Draws a halt: the cut as one line at the right, each process of the predicate with a lane that shows where its part holds, and the values at
/// the cut. Later events are not drawn. Error: memory ran out.
pub fn draw_halt(notes: &mut Notes, scene: &HaltScene<'_>) -> Result<(), AllocError> {
    let words = Words::of(notes, scene)?;
    let layout = Layout::of(notes.alloc(), scene, words_height(&words))?;
    let foot = Pixels(FOOT_STEP).times(count_of(words.foot.count()));
    let height = layout.bottom + foot + Pixels(18);
    say_start(notes, scene, &words, height)?;
    say_words(notes, &words)?;
    say_rows(notes, scene, &layout)?;
    let at = Point {
        x: MARGIN,
        y: layout.bottom + Pixels(16),
    };
    say_lines(notes, "key", at, FOOT_STEP, &words.foot)?;
    notes.say("</svg>")
}
