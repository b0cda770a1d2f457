//! How wide the columns of a diagram are.

use super::words::TextScene;
use crate::canvas::Canvas;
use dbg_base::{Pid, Refusal};
use std::alloc::AllocError;
use ui_text::Notes;
use ui_timeline::{NamedCut, ShownEvent, bytes_of};

// What an arrow has besides its words: the line, its head, and a sign on each side.
const ARROW: usize = 4;

/// How much each column needs.
#[derive(Drop)]
struct Needs {
    columns: Vec<usize>,
}

impl Needs {
    // A column needs so many characters, and a blank.
    fn add(&mut self, pid: Pid, characters: usize) {
        if let Some(need) = self.columns.get_mut(pid.0 as usize) {
            *need = (*need).max(characters.saturating_add(1));
        }
    }

    // The words of an arrow between neighbours have to fit between their lines.
    fn add_arrow(&mut self, from: Pid, to: Pid, label: &Notes) {
        let left = Pid(from.0.min(to.0));
        self.add(left, bytes_of(label).len().saturating_add(ARROW));
    }
}

impl TextScene<'_> {
    // A process that is not shown needs nothing.
    fn measure_process(&self, needs: &mut Needs, pid: Pid) -> Result<(), AllocError> {
        if !self.selection.contains(pid) {
            return Ok(needs.columns.push(0)?);
        }
        let name = self.view.text.process_name(pid).len();
        needs.columns.push(name.saturating_add(1))?;
        if let Some(again) = self.again(pid)? {
            needs.add(pid, bytes_of(&again).len());
        }
        Ok(())
    }

    // The message that an event received needs room if it comes from a neighbour. From others there is more room.
    fn measure_event(&self, needs: &mut Needs, shown: ShownEvent) -> Result<(), AllocError> {
        let words = self.event(shown, usize::MAX)?;
        needs.add(shown.pid, bytes_of(&words).len());
        match self.timeline.received_by(self.view.session.world, shown) {
            Some(received) if self.has_arrow_to_neighbour(received.source, shown.pid) => {
                let label = self.received(shown.pid, received)?;
                needs.add_arrow(received.source, shown.pid, &label);
                Ok(())
            }
            _ => Ok(()),
        }
    }

    // Whether there is an arrow between two processes, and no process that is shown is between them.
    fn has_arrow_to_neighbour(&self, from: Pid, to: Pid) -> bool {
        self.selection.contains(from) && self.selection.are_neighbours(from, to)
    }

    // The arrows of the messages on their way between a process and the next one that is shown.
    fn measure_waiting(&self, needs: &mut Needs, pid: Pid, next: Pid) -> Result<(), Refusal> {
        for (from, to) in [(pid, next), (next, pid)] {
            if let Some(label) = self.waiting(from, to)? {
                needs.add_arrow(from, to, &label);
            }
        }
        Ok(())
    }

    // The marks of a cut that does not go across are in each column.
    fn measure_part(&self, needs: &mut Needs, cut: &NamedCut) {
        let name = cut.name_length().saturating_add(3);
        for pid in self.selection.pids() {
            if !cut.is_prefix {
                needs.add(*pid, name);
            }
        }
    }

    // What the processes need.
    fn measure_processes(&self, needs: &mut Needs) -> Result<(), Refusal> {
        for p in 0..self.processes() {
            self.measure_process(needs, Pid(p))?;
        }
        let mut before = None;
        for pid in self.selection.pids() {
            if let Some(before) = before {
                self.measure_waiting(needs, before, *pid)?;
            }
            before = Some(*pid);
        }
        Ok(())
    }

    // What the events that are shown and the cuts need.
    fn measure_events(
        &self,
        needs: &mut Needs,
        events: &[ShownEvent],
        cuts: &[NamedCut],
    ) -> Result<(), AllocError> {
        for shown in events {
            if self.selection.contains(shown.pid) {
                self.measure_event(needs, *shown)?;
            }
        }
        for cut in cuts {
            self.measure_part(needs, cut);
        }
        Ok(())
    }

    // The width that the names of the cuts need that go across.
    fn across_width(&self, cuts: &[NamedCut]) -> Result<usize, AllocError> {
        let mut width = 0usize;
        for cut in cuts {
            if cut.is_prefix {
                let title = cut.title(self.alloc)?;
                width = width.max(bytes_of(&title).len().saturating_add(6));
            }
        }
        Ok(width)
    }

    /// Columns for these events and cuts, as wide as they need to be within this width.
    pub(super) fn canvas(
        &self,
        events: &[ShownEvent],
        cuts: &[NamedCut],
        width: usize,
    ) -> Result<Canvas, Refusal> {
        let mut needs = Needs {
            columns: Vec::new(self.alloc),
        };
        self.measure_processes(&mut needs)?;
        self.measure_events(&mut needs, events, cuts)?;
        let mut canvas = Canvas::new(self.alloc, needs.columns.as_slice(), width)?;
        canvas.widen(self.across_width(cuts)?.min(width));
        Ok(canvas)
    }
}
