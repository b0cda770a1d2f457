//! What a picture of a halt shows.

use dbg_base::{Cut, Name, Pid};
use least_cut::Detector;
use local_eval::Env;
use std::alloc::{AllocError, Global};
use ui_halt::{Halt, MarkRow};
use ui_text::Notes;
use ui_timeline::Theme;
use ui_view::{ProcessView, SourceView, Wrapping, part_of};

/// A breakpoint that halts a session, its cut, and what the halt shows of that. The sentences say why here, and why not earlier.
#[derive(Clone, Copy)]
pub struct HaltScene<'a> {
    pub view: SourceView<'a>,
    pub name: Name,
    pub detector: &'a Detector,
    pub cut: &'a Cut,
    pub halt: &'a Halt,
    pub sentences: &'a Notes,
    pub theme: Theme,
}

/// No lines, without styles.
pub(crate) fn new_lines(alloc: Global) -> Notes {
    let mut lines = Notes::new(alloc);
    lines.begin(false);
    lines
}

/// These words in lines of at most so many characters.
pub(crate) fn wrapped(alloc: Global, words: &[u8], width: usize) -> Result<Notes, AllocError> {
    let mut lines = new_lines(alloc);
    lines.say("")?;
    Wrapping { width, column: 0 }.put(&mut lines, words)?;
    Ok(lines)
}

/// How many characters the longest line has.
pub(crate) fn longest(lines: &Notes) -> usize {
    let mut longest = 0usize;
    for at in 0..lines.count() {
        longest = longest.max(lines.line(at).bytes.len());
    }
    longest
}

impl<'a> HaltScene<'a> {
    /// A process of the session.
    pub(crate) fn scope(&self, pid: Pid) -> ProcessView<'a> {
        self.view.scope(pid)
    }

    /// The marks of a process.
    pub(crate) fn row(&self, pid: Pid) -> Option<&'a MarkRow> {
        self.halt.row(pid)
    }

    /// Whether a process has a part in the predicate.
    pub(crate) fn has_part(&self, pid: Pid) -> bool {
        self.halt.part(pid).is_some()
    }

    /// Appends the values that the part of a process names, after so many of its events, to the last line.
    pub(crate) fn put_part_values(
        &self,
        notes: &mut Notes,
        pid: Pid,
        count: u32,
    ) -> Result<(), AllocError> {
        let env = self.state_after(pid, count)?;
        match part_of(self.detector, self.view.session.program, pid) {
            Some(part) => self.scope(pid).put_values(notes, "", &env, &[part]),
            None => Ok(()),
        }
    }

    /// The local state of a process after so many of its events.
    pub(crate) fn state_after(&self, pid: Pid, count: u32) -> Result<Env, AllocError> {
        self.view.session.world.rows().past(pid, count as usize)
    }
}
