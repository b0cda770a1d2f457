//! The start of a drawing: its size, what it is in words, and its style. The end of a drawing: a legend.

use crate::labels::{width_of, width_of_key};
use crate::layout::{MARGIN, SENTENCE_ROW};
use crate::shapes::Point;
use crate::sheet::SvgSheet;
use crate::svg::{end_text, put_ends, put_number, say_text};
use dbg_base::Pid;
use std::alloc::AllocError;
use ui_text::{Notes, Part, as_markup};
use ui_timeline::{bytes_of, halting, put_left_out};

// Each class has the prefix, so that a page may have several drawings, and a style of its own.
static LIGHT: &str = "    .rdbg-drawing text { font: 13px ui-monospace, monospace; fill: #1b1b1b; }
    .rdbg-drawing .rdbg-ground { fill: #ffffff; }
    .rdbg-drawing .rdbg-name, .rdbg-drawing .rdbg-heading { font-weight: bold; }
    .rdbg-drawing .rdbg-line { stroke: #8a8a8a; }
    .rdbg-drawing .rdbg-event { fill: #1b1b1b; stroke: #1b1b1b; }
    .rdbg-drawing .rdbg-later { fill: #ffffff; stroke: #1b1b1b; }
    .rdbg-drawing .rdbg-again { fill: none; stroke: #8a8a8a; stroke-dasharray: 2 2; }
    .rdbg-drawing .rdbg-faint, .rdbg-drawing .rdbg-key { fill: #6a6a6a; }
    .rdbg-drawing .rdbg-key { font-size: 11px; }
    .rdbg-drawing .rdbg-message, .rdbg-drawing .rdbg-waiting { stroke: #2b5fb4; }
    .rdbg-drawing .rdbg-waiting { stroke-dasharray: 5 4; }
    .rdbg-drawing .rdbg-head { fill: #2b5fb4; }
    .rdbg-drawing .rdbg-open { fill: none; stroke: #2b5fb4; stroke-width: 1.4; }
    .rdbg-drawing .rdbg-value { fill: #2b5fb4; text-anchor: middle; }
    .rdbg-drawing .rdbg-end { text-anchor: end; }
    .rdbg-drawing .rdbg-words, .rdbg-drawing .rdbg-value, .rdbg-drawing .rdbg-of { paint-order: stroke; stroke: #ffffff; stroke-width: 4px; }
    .rdbg-drawing .rdbg-cut { fill: none; stroke: currentColor; stroke-width: 2; }
    .rdbg-drawing .rdbg-inside { fill: currentColor; fill-opacity: .08; }
    .rdbg-drawing .rdbg-of { fill: currentColor; }
    .rdbg-drawing .rdbg-decides { fill: none; stroke: currentColor; stroke-width: 2; pointer-events: none; }
    .rdbg-drawing .rdbg-colour0 { color: #9a6b00; }
    .rdbg-drawing .rdbg-colour1 { color: #7a3fa8; }
    .rdbg-drawing .rdbg-colour2 { color: #00786b; }
    .rdbg-drawing .rdbg-colour3 { color: #4f6000; }
    .rdbg-drawing .rdbg-cut.rdbg-pattern0 { stroke-dasharray: 8 4; }
    .rdbg-drawing .rdbg-cut.rdbg-pattern1 { stroke-dasharray: 2 3; }
    .rdbg-drawing .rdbg-cut.rdbg-pattern2 { stroke-dasharray: 12 3 2 3; }
    .rdbg-drawing .rdbg-cut.rdbg-pattern3 { stroke-dasharray: 4 4; }
    .rdbg-drawing .rdbg-cut.rdbg-pattern4 { stroke-dasharray: 12 3 2 3 2 3; }
    .rdbg-drawing .rdbg-halts { color: #c03030; }
    .rdbg-drawing .rdbg-cut.rdbg-halts { stroke-width: 3; }
    .rdbg-drawing .rdbg-decides.rdbg-halts { fill: currentColor; }
    .rdbg-drawing text.rdbg-halts { fill: currentColor; font-weight: bold; }";

// What is different on a dark ground.
static DARK: &str = "      .rdbg-drawing text { fill: #ececec; }
      .rdbg-drawing .rdbg-ground { fill: #161616; }
      .rdbg-drawing .rdbg-line, .rdbg-drawing .rdbg-again { stroke: #8f8f8f; }
      .rdbg-drawing .rdbg-event { fill: #ececec; stroke: #ececec; }
      .rdbg-drawing .rdbg-later { fill: #161616; stroke: #ececec; }
      .rdbg-drawing .rdbg-faint, .rdbg-drawing .rdbg-key { fill: #a8a8a8; }
      .rdbg-drawing .rdbg-message, .rdbg-drawing .rdbg-waiting, .rdbg-drawing .rdbg-open { stroke: #8ab4ff; }
      .rdbg-drawing .rdbg-head, .rdbg-drawing .rdbg-value { fill: #8ab4ff; }
      .rdbg-drawing .rdbg-words, .rdbg-drawing .rdbg-value, .rdbg-drawing .rdbg-of { stroke: #161616; }
      .rdbg-drawing .rdbg-colour0 { color: #e3b341; }
      .rdbg-drawing .rdbg-colour1 { color: #d2a8ff; }
      .rdbg-drawing .rdbg-colour2 { color: #56d4bc; }
      .rdbg-drawing .rdbg-colour3 { color: #b5d165; }
      .rdbg-drawing .rdbg-halts { color: #ff7b72; }";

// The longest of these lines.
fn longest(lines: &Notes) -> &[u8] {
    let mut longest: &[u8] = &[];
    for number in 0..lines.count() {
        let line = lines.line(number).bytes;
        if line.len() > longest.len() {
            longest = line;
        }
    }
    longest
}

impl SvgSheet<'_> {
    /// The width of the drawing.
    pub(crate) fn width(&self) -> Result<i64, AllocError> {
        let heading = width_of(longest(self.heading));
        let key = width_of_key(longest(self.key));
        let mut widest = self.places.right.max(heading).max(key);
        for cut in self.scene.cuts {
            let sentence = width_of_key(self.scene.cut_sentence(cut)?.as_slice());
            widest = widest.max(sentence.saturating_add(42));
        }
        Ok(widest.saturating_add(MARGIN.saturating_mul(2)))
    }

    // The height at which the lines of the processes end.
    fn end(&self) -> i64 {
        self.layout.end(self.scene.most_again())
    }

    /// The height of the drawing.
    pub(crate) fn height(&self) -> i64 {
        let lines = self.scene.cuts.len().saturating_add(self.key.count());
        let lines = i64::try_from(lines).unwrap_or(i64::MAX);
        self.end()
            .saturating_add(lines.saturating_mul(SENTENCE_ROW))
            .saturating_add(MARGIN.saturating_mul(2))
    }

    // What the drawing is, in words.
    fn say_title(&self, notes: &mut Notes) -> Result<(), AllocError> {
        if let Some(cut) = halting(self.scene.cuts) {
            let heading = cut.heading(self.scene.alloc)?;
            let words = as_markup(self.scene.alloc, bytes_of(&heading))?;
            notes.say_with("  <title>{}", &[Part::Bytes(words.as_slice())])?;
            return notes.add("</title>");
        }
        notes.say("  <title>A session of")?;
        let mut word = " ";
        for pid in self.scene.selection.pids() {
            notes.add_with("{}{}", &[Part::Text(word), self.scene.scope(*pid).name()])?;
            word = ", ";
        }
        notes.add("</title>")
    }

    // How the drawing is to be read.
    fn say_description(&self, notes: &mut Notes) -> Result<(), AllocError> {
        let count = self.scene.events.len();
        notes.say_with(
            "  <desc>{}{}",
            &[
                Part::Count(count),
                Part::Text(if count == 1 { " event" } else { " events" }),
            ],
        )?;
        let left = self.scene.left_out();
        if left > 0 {
            notes.add(" (")?;
            put_left_out(notes, left)?;
            notes.add(")")?;
        }
        notes.add(
            ", each below those on which it depends; arrows are messages, with their values; dashed arrows are on their way; dotted marks can be redone; stepped lines across are the cuts of breakpoints</desc>",
        )
    }

    // The head of an arrow, which has a name of its own in each drawing.
    fn say_marker(
        &self,
        notes: &mut Notes,
        class: &'static str,
        path: &'static str,
    ) -> Result<(), AllocError> {
        notes.say_with(
            "  <marker id=\"rdbg-{}-{}\" viewBox=\"0 0 8 8\" refX=\"8\" refY=\"4\" markerWidth=\"8\" markerHeight=\"8\" orient=\"auto\"><path class=\"rdbg-{}\" d=\"{}\"/></marker>",
            &[
                Part::Number(self.id),
                Part::Text(class),
                Part::Text(class),
                Part::Text(path),
            ],
        )
    }

    /// The start of the drawing.
    pub(crate) fn say_head(&self, notes: &mut Notes) -> Result<(), AllocError> {
        let (width, height) = (self.width()?, self.height());
        notes.say_with(
            "<svg xmlns=\"http://www.w3.org/2000/svg\" class=\"rdbg-drawing\" role=\"img\" viewBox=\"0 0 {} {}\"",
            &[Part::Number(width), Part::Number(height)],
        )?;
        put_number(notes, "width", width)?;
        put_number(notes, "height", height)?;
        notes.add(">")?;
        self.say_title(notes)?;
        self.say_description(notes)?;
        self.theme.say_style(notes, LIGHT, DARK)?;
        self.say_marker(notes, "head", "M0 0L8 4L0 8z")?;
        self.say_marker(notes, "open", "M1 1L8 4L1 7")?;
        notes.say("  <rect class=\"rdbg-ground\" width=\"100%\" height=\"100%\"/>")
    }

    /// The line of a process, down to the last event.
    pub(crate) fn say_process_line(&self, notes: &mut Notes, pid: Pid) -> Result<(), AllocError> {
        let x = self.layout.line(pid);
        notes.say("  <line class=\"rdbg-line\"")?;
        let from = Point {
            x,
            y: self.layout.top().saturating_sub(8),
        };
        put_ends(notes, from, Point { x, y: self.end() })?;
        notes.add("/>")
    }

    /// The name of a process, above its line.
    pub(crate) fn say_process_name(&self, notes: &mut Notes, pid: Pid) -> Result<(), AllocError> {
        let x = self.layout.line(pid).saturating_sub(8);
        let y = self.layout.top().saturating_sub(14);
        say_text(notes, "name", Point { x, y })?;
        notes.add_with("{}", &[self.scene.scope(pid).name()])?;
        end_text(notes)
    }

    /// What the drawing shows, above it.
    pub(crate) fn say_heading(&self, notes: &mut Notes) -> Result<(), AllocError> {
        let class = match halting(self.scene.cuts) {
            Some(_) => "heading rdbg-halts",
            None => "heading",
        };
        let mut y = 20i64;
        for number in 0..self.heading.count() {
            say_text(notes, class, Point { x: MARGIN, y })?;
            let words = as_markup(self.scene.alloc, self.heading.line(number).bytes)?;
            notes.add_with("{}", &[Part::Bytes(words.as_slice())])?;
            end_text(notes)?;
            y = y.saturating_add(SENTENCE_ROW);
        }
        Ok(())
    }

    /// The legend: the cuts, and what the marks mean.
    pub(crate) fn say_legend(&self, notes: &mut Notes) -> Result<(), AllocError> {
        let mut y = self.end().saturating_add(MARGIN).saturating_add(12);
        for cut in self.scene.cuts {
            self.say_cut_sentence(notes, cut, y)?;
            y = y.saturating_add(SENTENCE_ROW);
        }
        self.say_key(notes, y)
    }

    // What the marks mean, from this height.
    fn say_key(&self, notes: &mut Notes, top: i64) -> Result<(), AllocError> {
        let mut y = top;
        for number in 0..self.key.count() {
            say_text(notes, "key", Point { x: MARGIN, y })?;
            notes.add_with("{}", &[Part::Bytes(self.key.line(number).bytes)])?;
            end_text(notes)?;
            y = y.saturating_add(SENTENCE_ROW);
        }
        Ok(())
    }
}
