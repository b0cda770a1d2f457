//! A session as a sequence diagram of Mermaid, which issue trackers draw.

use dbg_base::{Pid, Refusal};
use std::alloc::{AllocError, Global};
use ui_text::{Notes, Part};
use ui_timeline::{
    NamedCut, Selection, ShownEvent, Timeline, bytes_of, event_of, halting, named_cuts, put_joined,
    put_left_out, put_setting, size,
};
use ui_view::{ProcessView, SourceView};

// The most events that are shown. Issue trackers draw no diagram of more than 50,000 characters.
const SHOWN: usize = 400;

/// A diagram that is being made.
#[derive(Clone, Copy)]
struct MermaidSheet<'a> {
    alloc: Global,
    view: SourceView<'a>,
    selection: &'a Selection,
    timeline: &'a Timeline,
}

// Appends a text to the last line. Mermaid takes `<` for a tag.
fn put_text(notes: &mut Notes, text: &[u8]) -> Result<(), AllocError> {
    let mut rest = text;
    for part in text.split(|byte| *byte == b'<') {
        notes.add_with("{}", &[Part::Bytes(part)])?;
        rest = rest.get(part.len()..).unwrap_or(&[]);
        if !rest.is_empty() {
            notes.add("#lt;")?;
            rest = rest.get(1..).unwrap_or(&[]);
        }
    }
    Ok(())
}

impl MermaidSheet<'_> {
    fn scope(&self, pid: Pid) -> ProcessView<'_> {
        self.view.scope(pid)
    }

    // Appends the name that a process has in the diagram. A name of the program may be a word of Mermaid.
    fn put_alias(&self, notes: &mut Notes, pid: Pid) -> Result<(), AllocError> {
        notes.add_with("p{}", &[Part::Natural(pid.0)])
    }

    fn say_participants(&self, notes: &mut Notes) -> Result<(), AllocError> {
        for pid in self.selection.pids() {
            notes.say("  participant ")?;
            self.put_alias(notes, *pid)?;
            notes.add_with(" as {}", &[self.scope(*pid).name()])?;
        }
        Ok(())
    }

    // Begins a note over one process, or from the first to the last.
    fn say_note(&self, notes: &mut Notes, first: Pid, last: Pid) -> Result<(), AllocError> {
        notes.say("  Note over ")?;
        self.put_alias(notes, first)?;
        if first != last {
            notes.add(",")?;
            self.put_alias(notes, last)?;
        }
        notes.add(": ")
    }

    // Begins a note over all processes that are shown.
    fn say_wide_note(&self, notes: &mut Notes) -> Result<(), AllocError> {
        let pids = self.selection.pids();
        match (pids.first(), pids.last()) {
            (Some(first), Some(last)) => self.say_note(notes, *first, *last),
            _ => Ok(()),
        }
    }

    // Begins an arrow.
    fn say_arrow(
        &self,
        notes: &mut Notes,
        from: Pid,
        arrow: &'static str,
        to: Pid,
        value: i64,
    ) -> Result<(), AllocError> {
        notes.say("  ")?;
        self.put_alias(notes, from)?;
        notes.add(arrow)?;
        self.put_alias(notes, to)?;
        notes.add_with(": {}", &[self.scope(from).message_to(to, value)])
    }

    // The message that an event received. Its arrow is where it was received. There is none from a process that is not shown.
    fn say_received(&self, notes: &mut Notes, shown: ShownEvent) -> Result<(), AllocError> {
        let received = match self.timeline.received_by(self.view.session.world, shown) {
            Some(received) if self.selection.contains(received.source) => received,
            _ => return Ok(()),
        };
        self.say_arrow(notes, received.source, "->>", shown.pid, received.value)?;
        let next = received.sender.saturating_add(1);
        let row = self.timeline.row(shown.pid, shown.number);
        match self.timeline.row(received.source, next) {
            Some(after) if Some(after) < row => notes.add(" (sent earlier)"),
            _ => Ok(()),
        }
    }

    // Whether the message that an event sent is received before the sender makes its next event.
    fn is_received_next(&self, shown: ShownEvent) -> bool {
        let row = self.timeline.row(shown.pid, shown.number).unwrap_or(0) as usize;
        let later = self.timeline.events().get(row.saturating_add(1)..);
        for next in later.unwrap_or(&[]) {
            if next.pid == shown.pid {
                return false;
            }
            match self.timeline.received_by(self.view.session.world, *next) {
                Some(received) if received.source == shown.pid && received.sender == shown.number =>
                    {
                        return true;
                    }
                _ => {}
            }
        }
        false
    }

    // The label of an event, and what it set, in parts of a note: nothing, if it has no label and set nothing.
    fn settings(&self, shown: ShownEvent) -> Result<Notes, AllocError> {
        let mut words = Notes::new(self.alloc);
        let Some(event) = event_of(self.view.session.world, shown) else {
            return Ok(words);
        };
        let label = self.view.text.label(shown.pid, event.choice());
        if !label.is_empty() {
            words.say_with("{}", &[Part::Bytes(label)])?;
        }
        for setting in event.settings() {
            words.say("")?;
            put_setting(&mut words, self.scope(shown.pid), setting)?;
        }
        Ok(words)
    }

    // A note of these parts, if there are some.
    fn say_parts(&self, notes: &mut Notes, pid: Pid, parts: &Notes) -> Result<(), AllocError> {
        if parts.count() == 0 {
            return Ok(());
        }
        self.say_note(notes, pid, pid)?;
        put_joined(notes, parts, ", ")
    }

    // Adds the message that an event received from a process that is not shown.
    fn put_hidden_source(&self, parts: &mut Notes, shown: ShownEvent) -> Result<(), AllocError> {
        match self.timeline.received_by(self.view.session.world, shown) {
            Some(received) if !self.selection.contains(received.source) => {
                let from = self.scope(received.source).name();
                let value = self
                    .scope(shown.pid)
                    .message_from(received.source, received.value);
                parts.say_with("receives {} from {}", &[value, from])
            }
            _ => Ok(()),
        }
    }

    fn say_event(&self, notes: &mut Notes, shown: ShownEvent) -> Result<(), AllocError> {
        self.say_received(notes, shown)?;
        let mut parts = self.settings(shown)?;
        self.put_hidden_source(&mut parts, shown)?;
        let Some(sent) = self.timeline.sent_by(self.view.session.world, shown) else {
            return self.say_parts(notes, shown.pid, &parts);
        };
        let has_target = self.selection.contains(sent.target);
        if !has_target || !sent.is_on_its_way && !self.is_received_next(shown) {
            let to = self.scope(sent.target).name();
            let value = self.scope(shown.pid).message_to(sent.target, sent.value);
            parts.say_with("sends {} to {}", &[value, to])?;
        }
        self.say_parts(notes, shown.pid, &parts)?;
        if has_target && sent.is_on_its_way {
            self.say_arrow(notes, shown.pid, "--)", sent.target, sent.value)?;
            notes.add(" (on its way)")?;
        }
        Ok(())
    }

    // The cuts that consist of the events before this position.
    fn say_cuts(
        &self,
        notes: &mut Notes,
        place: usize,
        cuts: &[NamedCut],
    ) -> Result<(), AllocError> {
        let processes = self.view.session.program.processes();
        for cut in cuts {
            if cut.is_prefix && size(&cut.cut, processes) == place {
                self.say_wide_note(notes)?;
                let name = cut.name();
                let word = Part::Text(if cut.halts { " halts here: " } else { ": " });
                notes.add_with("{}{}", &[name, word])?;
                let mut predicate = Notes::new(self.alloc);
                predicate.say("")?;
                cut.put_predicate(&mut predicate)?;
                put_text(notes, bytes_of(&predicate))?;
            }
        }
        Ok(())
    }

    // How many of these events of the processes that are shown are left out, if there are some.
    fn say_left_out(&self, notes: &mut Notes, left: &[ShownEvent]) -> Result<(), AllocError> {
        let count = self.selection.count(left);
        if count == 0 {
            return Ok(());
        }
        self.say_wide_note(notes)?;
        put_left_out(notes, count)
    }

    // Which processes are not shown, if there are some.
    fn say_hidden(&self, notes: &mut Notes) -> Result<(), AllocError> {
        if self.selection.is_whole() {
            return Ok(());
        }
        self.say_wide_note(notes)?;
        self.selection.put_hidden(notes, self.view)
    }

    // The events after the first ones, with the cuts.
    fn say_events(
        &self,
        notes: &mut Notes,
        first: usize,
        cuts: &[NamedCut],
    ) -> Result<(), AllocError> {
        let mut place = first;
        for shown in self.timeline.last_events(first) {
            self.say_cuts(notes, place, cuts)?;
            if self.selection.contains(shown.pid) {
                self.say_event(notes, *shown)?;
            }
            place = place.saturating_add(1);
        }
        self.say_cuts(notes, place, cuts)
    }
}

/// Draws a session in its present state as a sequence diagram of Mermaid: its lines. An arrow is where its message was received, and a dashed
/// one where a message was sent that is on its way. Notes say what the events set, and where the cuts of breakpoints are. Only the events of
/// the processes of the selection are shown, and the last of them.
pub fn draw_mermaid(
    alloc: Global,
    notes: &mut Notes,
    view: SourceView<'_>,
    selection: &Selection,
) -> Result<(), Refusal> {
    let mut cuts = named_cuts(alloc, view)?;
    let timeline = Timeline::of(alloc, view.session.world, cuts.as_mut_slice())?;
    let sheet = MermaidSheet {
        alloc,
        view,
        selection,
        timeline: &timeline,
    };
    notes.say("sequenceDiagram")?;
    if let Some(cut) = halting(cuts.as_slice()) {
        let heading = cut.heading(alloc)?;
        notes.say_with("  %% {}", &[Part::Bytes(bytes_of(&heading))])?;
    }
    sheet.say_participants(notes)?;
    let first = timeline.left_out_of(selection, selection.last().min(SHOWN));
    sheet.say_hidden(notes)?;
    sheet.say_left_out(notes, timeline.events().get(..first).unwrap_or(&[]))?;
    Ok(sheet.say_events(notes, first, cuts.as_slice())?)
}
