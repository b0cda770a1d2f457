//! The processes whose events a picture shows, and how many of these events.

use crate::listing::ShownEvent;
use dbg_base::Pid;
use proc_tree::Program;
use std::alloc::{AllocError, Global};
use ui_text::{Notes, Part, ProgramText};
use ui_view::SourceView;

/// What a picture shows: the last events of some processes.
pub struct Selection {
    pids: Vec<Pid>,
    // Of each process, whether it is shown.
    shown: Vec<bool>,
    last: usize,
}

impl Drop for Selection {
    fn drop(self) {
        let Self { pids, shown, last } = self;
    }
}

// Whether a list of names, separated by commas, has the name of this process.
fn has_process(list: &str, text: &ProgramText, pid: Pid) -> bool {
    let mut words = list.as_bytes().split(|byte| *byte == b',');
    words.any(|word| text.is_named(pid, word.trim_ascii()))
}

/// The first name of a list, separated by commas, that no process of the program has.
pub fn unknown_name<'a>(program: &Program, text: &ProgramText, list: &'a str) -> Option<&'a [u8]> {
    for word in list.as_bytes().split(|byte| *byte == b',') {
        let word = word.trim_ascii();
        let mut pids = 0..program.processes();
        if !pids.any(|p| text.is_named(Pid(p), word)) {
            return Some(word);
        }
    }
    None
}

impl Selection {
    /// At most so many events, the last ones, of all processes, or of those that a list names, separated by commas.
    pub fn of(
        alloc: Global,
        view: SourceView<'_>,
        list: Option<&str>,
        last: usize,
    ) -> Result<Selection, AllocError> {
        let mut pids = Vec::new(alloc);
        let mut shown = Vec::new(alloc);
        for p in 0..view.session.program.processes() {
            let is_shown = match list {
                Some(list) => has_process(list, view.text, Pid(p)),
                None => true,
            };
            shown.push(is_shown)?;
            if is_shown {
                pids.push(Pid(p))?;
            }
        }
        Ok(Selection { pids, shown, last })
    }

    /// The processes that are shown.
    pub fn pids(&self) -> &[Pid] {
        self.pids.as_slice()
    }

    /// How many events are shown at most.
    pub fn last(&self) -> usize {
        self.last
    }

    /// Whether all processes are shown.
    pub fn is_whole(&self) -> bool {
        self.pids.len() == self.shown.len()
    }

    /// Whether a process is shown.
    pub fn contains(&self, pid: Pid) -> bool {
        self.shown.get(pid.0 as usize).copied().unwrap_or(false)
    }

    /// How many of these events are of processes that are shown.
    pub fn count(&self, events: &[ShownEvent]) -> usize {
        let own = events.iter().filter(|shown| self.contains(shown.pid));
        own.count()
    }

    /// Whether no process that is shown is between these two.
    pub fn are_neighbours(&self, one: Pid, other: Pid) -> bool {
        let (left, right) = (one.0.min(other.0), one.0.max(other.0));
        let mut between = self.pids.iter();
        left < right && !between.any(|pid| left < pid.0 && pid.0 < right)
    }

    /// Appends which processes are not shown to the last line.
    pub fn put_hidden(&self, notes: &mut Notes, view: SourceView<'_>) -> Result<(), AllocError> {
        let mut word = "not shown: ";
        for p in 0..view.session.program.processes() {
            if !self.contains(Pid(p)) {
                let name = view.scope(Pid(p)).name();
                notes.add_with("{}{}", &[Part::Text(word), name])?;
                word = ", ";
            }
        }
        Ok(())
    }
}
