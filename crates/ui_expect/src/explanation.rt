//! The explanation of the last reply.

use dbg_base::Call;
use dbg_command::SessionView;
use std::alloc::{AllocError, Global};
use ui_repl::{AnsweredLine, Sentences, WrittenProgram};
use ui_text::{Notes, Part};
use ui_view::Explainer;

/// Explains the replies of a session as `talk` does, and keeps the explanation of the last one.
#[derive(Drop)]
pub(crate) struct LastExplanation<'a> {
    sentences: Sentences<'a>,
    notes: Notes,
}

impl<'a> LastExplanation<'a> {
    /// Nothing was explained yet.
    pub(crate) fn new(alloc: Global, written: &'a WrittenProgram) -> LastExplanation<'a> {
        LastExplanation {
            sentences: Sentences::new(alloc, written, None),
            notes: Notes::new(alloc),
        }
    }

    /// Drops the explanation of the last reply.
    pub(crate) fn forget(&mut self) {
        self.notes.truncate(0);
    }

    /// A call is about to be made.
    pub(crate) fn prepare(&mut self, view: SessionView<'_>, call: &Call) {
        self.sentences.prepare(view, call, &mut self.notes);
    }

    /// Explains what was said to a line.
    pub(crate) fn explain(&mut self, line: &AnsweredLine<'_>) -> Result<(), AllocError> {
        self.sentences.explain(line, &mut self.notes)
    }

    /// Appends the explanation to a report, further to the right.
    pub(crate) fn put(&self, report: &mut Notes) -> Result<(), AllocError> {
        for number in 0..self.notes.count() {
            let line = Part::Bytes(self.notes.line(number).bytes);
            report.say_with("    {}", &[line])?;
        }
        Ok(())
    }
}
