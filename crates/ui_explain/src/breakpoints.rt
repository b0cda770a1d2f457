//! What breakpoints ask for.

use crate::explained::ExplainedSession;
use dbg_base::{Name, Refusal};
use std::alloc::{AllocError, Global};
use ui_text::Notes;

impl ExplainedSession<'_> {
    /// Shows the state of the cut of a breakpoint, if it has one.
    pub(crate) fn tell_cut_of(&self, notes: &mut Notes, name: Name) -> Result<(), AllocError> {
        let Some(detector) = self.view.detector_of(name) else {
            return Ok(());
        };
        match detector.cut() {
            Some(cut) => self.tell_cut_state(notes, detector, cut),
            None => Ok(()),
        }
    }

    // Says what the predicate of a breakpoint is, and whether it has a cut.
    fn tell_predicate_of(
        &self,
        notes: &mut Notes,
        name: Name,
        is_armed: bool,
    ) -> Result<(), AllocError> {
        let Some(detector) = self.view.detector_of(name) else {
            return Ok(());
        };
        notes.say("")?;
        self.view.put_predicate(notes, name, detector)?;
        notes.add(if is_armed { ", armed" } else { ", not armed" })?;
        let has_cut = detector.cut().is_some();
        notes.add(if has_cut {
            ", has a cut"
        } else {
            ", no cut yet"
        })
    }

    /// Says of all breakpoints what their predicates are, and which of them have cuts.
    pub(crate) fn tell_all_breakpoints(&self, notes: &mut Notes) -> Result<(), Refusal> {
        let marks = self.view.session.book.list(notes.alloc())?;
        for (name, is_armed) in marks.items() {
            self.tell_predicate_of(notes, *name, *is_armed)?;
        }
        Ok(())
    }
}
