//! The events of a drawing, and what can be redone.

use crate::labels::EventWords;
use crate::shapes::Point;
use crate::sheet::SvgSheet;
use crate::spots::WordSpot;
use crate::svg::{end_text, say_circle, say_text};
use dbg_base::Pid;
use event_rows::Event;
use std::alloc::AllocError;
use ui_text::{Notes, Part, as_markup};
use ui_timeline::{ShownEvent, bytes_of, event_of, halting, put_command, put_joined, put_setting};

// The radius of the mark of an event.
const RADIUS: i64 = 5;

impl SvgSheet<'_> {
    // What an event did: a line for each variable that it set, and for its message.
    fn deeds(&self, shown: ShownEvent, event: &Event) -> Result<Notes, AllocError> {
        let mut deeds = Notes::new(self.scene.alloc);
        for setting in event.settings() {
            deeds.say("")?;
            put_setting(&mut deeds, self.scene.scope(shown.pid), setting)?;
        }
        let world = self.scene.view.session.world;
        let scope = self.scene.scope(shown.pid);
        if let Some(received) = self.scene.timeline.received_by(world, shown) {
            let value = scope.message_from(received.source, received.value);
            let name = self.scene.scope(received.source).name();
            deeds.say_with("received {} from {}", &[value, name])?;
        }
        if let Some(sent) = self.scene.timeline.sent_by(world, shown) {
            let value = scope.message_to(sent.target, sent.value);
            let name = self.scene.scope(sent.target).name();
            deeds.say_with("sent {} to {}", &[value, name])?;
        }
        Ok(deeds)
    }

    // What an event did, and the whole text of its command.
    fn event_title(&self, shown: ShownEvent) -> Result<Vec<u8>, AllocError> {
        let scope = self.scene.scope(shown.pid);
        let mut title = Notes::new(self.scene.alloc);
        let number = Part::Natural(shown.number);
        title.say_with("event {} of {}", &[number, scope.name()])?;
        if let Some(event) = event_of(self.scene.view.session.world, shown) {
            title.add(": ")?;
            put_joined(&mut title, &self.deeds(shown, event)?, ", ")?;
            let choice = event.choice();
            title.add_with("; command {}: ", &[scope.command(choice)])?;
            if let Some(command) = self.scene.view.session.program.command(shown.pid, choice) {
                put_command(&mut title, scope, command)?;
            }
        }
        as_markup(self.scene.alloc, bytes_of(&title))
    }

    // Whether an event is outside the cut of the breakpoint that halts the session.
    fn is_later(&self, shown: ShownEvent) -> bool {
        match halting(self.scene.cuts) {
            Some(cut) => shown.number > cut.cut.count(shown.pid),
            None => false,
        }
    }

    // Whether a part of the predicate that halts the session holds after this event.
    fn decides(&self, shown: ShownEvent) -> bool {
        match halting(self.scene.cuts) {
            Some(cut) => {
                let is_last = shown.number == cut.cut.count(shown.pid);
                is_last && cut.pids.iter().any(|pid| *pid == shown.pid)
            }
            None => false,
        }
    }

    /// The mark of an event.
    pub(crate) fn say_event(&self, notes: &mut Notes, shown: ShownEvent) -> Result<(), AllocError> {
        let at = self.layout.event(self.scene, shown.pid, shown.number);
        let class = if self.is_later(shown) {
            "later"
        } else {
            "event"
        };
        say_circle(notes, class, at, RADIUS)?;
        let title = self.event_title(shown)?;
        notes.add_with(
            "<title>{}</title></circle>",
            &[Part::Bytes(title.as_slice())],
        )
    }

    /// The words at an event.
    pub(crate) fn say_label(
        &self,
        notes: &mut Notes,
        shown: ShownEvent,
        words: &EventWords,
        place: WordSpot,
    ) -> Result<(), AllocError> {
        let class = match (self.decides(shown), place.is_end) {
            (false, false) => "words",
            (false, true) => "words rdbg-end",
            (true, false) => "words rdbg-halts",
            (true, true) => "words rdbg-end rdbg-halts",
        };
        say_text(notes, class, place.point)?;
        let label = as_markup(self.scene.alloc, words.label.as_slice())?;
        notes.add_with("{}", &[Part::Bytes(label.as_slice())])?;
        end_text(notes)
    }

    // An event that can be redone, the n-th of its process, from 0.
    fn say_again(&self, notes: &mut Notes, pid: Pid, n: u32) -> Result<(), AllocError> {
        let (x, y) = (self.layout.line(pid), self.layout.again(n));
        say_circle(notes, "again", Point { x, y }, RADIUS)?;
        notes.add("</circle>")?;
        let words = Point {
            x: self.layout.words(pid),
            y: y.saturating_add(4),
        };
        say_text(notes, "faint", words)?;
        let label = self.scene.again_label(pid, n)?;
        notes.add_with("{}", &[Part::Bytes(bytes_of(&label))])?;
        end_text(notes)
    }

    /// What a process can redo, below its events.
    pub(crate) fn say_redo_line(&self, notes: &mut Notes, pid: Pid) -> Result<(), AllocError> {
        for n in 0..self.scene.again(pid) {
            self.say_again(notes, pid, n)?;
        }
        Ok(())
    }
}
