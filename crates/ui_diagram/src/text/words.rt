//! The words of a diagram: at events and arrows, and at what can be redone.

use dbg_base::{Pid, Refusal};
use event_rows::Setting;
use std::alloc::{AllocError, Global};
use ui_text::{Notes, Part};
use ui_timeline::{Received, Selection, ShownEvent, Timeline, bytes_of, event_of};
use ui_view::{ProcessView, SourceView};

/// What a diagram shows.
#[derive(Clone, Copy)]
pub(super) struct TextScene<'a> {
    pub(super) alloc: Global,
    pub(super) view: SourceView<'a>,
    pub(super) selection: &'a Selection,
    pub(super) timeline: &'a Timeline,
}

/// The characters of a line with this text, in which each `{}` is replaced by the next of these parts.
pub(super) fn words(alloc: Global, text: &str, parts: &[Part<'_>]) -> Result<Notes, AllocError> {
    let mut words = Notes::new(alloc);
    words.say_with(text, parts)?;
    Ok(words)
}

// Appends as much of a name to the words as fits, but at least one character. If some of it is left out, dots follow, if there is room for
// them.
fn put_shortened(line: &mut Notes, name: &[u8], room: usize) -> Result<(), AllocError> {
    let dots = if name.len() > room && room >= 4 { 2 } else { 0 };
    let kept = room.saturating_sub(dots).max(1);
    line.add_with("{}", &[Part::Bytes(name.get(..kept).unwrap_or(name))])?;
    line.add(if dots > 0 { ".." } else { "" })
}

impl<'a> TextScene<'a> {
    pub(super) fn processes(&self) -> u32 {
        self.view.session.program.processes()
    }

    pub(super) fn scope(&self, pid: Pid) -> ProcessView<'a> {
        self.view.scope(pid)
    }

    // A variable that an event set, in so much room: its name is cut before its value is.
    fn setting(
        &self,
        scope: ProcessView<'_>,
        setting: &Setting,
        room: usize,
    ) -> Result<Notes, AllocError> {
        let mut line = words(self.alloc, " ", &[])?;
        let name = words(self.alloc, "{}", &[scope.variable(setting.variable)])?;
        let value = words(
            self.alloc,
            "{}{}",
            &[Part::Text("="), scope.value(setting.variable, setting.new)],
        )?;
        let used = bytes_of(&value).len().saturating_add(1);
        put_shortened(&mut line, bytes_of(&name), room.saturating_sub(used))?;
        line.add_with("{}", &[Part::Bytes(bytes_of(&value))])?;
        Ok(line)
    }

    // All variables that an event set.
    fn all_settings(
        &self,
        scope: ProcessView<'_>,
        settings: &[Setting],
    ) -> Result<Notes, AllocError> {
        let mut line = words(self.alloc, "", &[])?;
        for setting in settings {
            let setting = self.setting(scope, setting, usize::MAX)?;
            line.add_with("{}", &[Part::Bytes(bytes_of(&setting))])?;
        }
        Ok(line)
    }

    // The variables that an event set, in so much room. Two dots mean that more were set.
    fn settings(
        &self,
        scope: ProcessView<'_>,
        settings: &[Setting],
        room: usize,
    ) -> Result<Notes, AllocError> {
        let all = self.all_settings(scope, settings)?;
        if bytes_of(&all).len() <= room {
            return Ok(all);
        }
        if let [first, others @ ..] = settings {
            let dots = if others.is_empty() { "" } else { " .." };
            let mut line = self.setting(scope, first, room.saturating_sub(dots.len()))?;
            line.add(dots)?;
            if bytes_of(&line).len() <= room {
                return Ok(line);
            }
        }
        words(self.alloc, if room < 3 { "" } else { " .." }, &[])
    }

    // The value of a message, and to or from which process it was, in so much room: the name of the process is cut before the value is.
    fn message(
        &self,
        value: Notes,
        sign: &'static str,
        partner: Pid,
        room: usize,
    ) -> Result<Notes, AllocError> {
        let mut line = value;
        line.add(sign)?;
        let name = words(self.alloc, "{}", &[self.scope(partner).name()])?;
        let used = bytes_of(&line).len();
        put_shortened(&mut line, bytes_of(&name), room.saturating_sub(used))?;
        Ok(line)
    }

    // The message that an event sent, or that it received from a process that is not shown, so that no arrow shows it.
    fn exchanged(&self, shown: ShownEvent, room: usize) -> Result<Notes, AllocError> {
        let scope = self.scope(shown.pid);
        if let Some(sent) = self.timeline.sent_by(self.view.session.world, shown) {
            let value = scope.message_to(sent.target, sent.value);
            let value = words(self.alloc, " {}", &[value])?;
            return self.message(value, ">", sent.target, room);
        }
        match self.timeline.received_by(self.view.session.world, shown) {
            Some(received) if !self.selection.contains(received.source) => {
                let value = scope.message_from(received.source, received.value);
                let value = words(self.alloc, " {}", &[value])?;
                self.message(value, "<", received.source, room)
            }
            _ => words(self.alloc, "", &[]),
        }
    }

    /// What an event did, in few words, within so much room. What it set is left out before the message.
    pub(super) fn event(&self, shown: ShownEvent, room: usize) -> Result<Notes, AllocError> {
        let number = Part::Natural(shown.number);
        let mut line = words(self.alloc, "{}{}", &[Part::Text("o "), number])?;
        let Some(event) = event_of(self.view.session.world, shown) else {
            return Ok(line);
        };
        let command = self.scope(shown.pid).command(event.choice());
        line.add_with("{}{}", &[Part::Text(":"), command])?;
        let room = room.saturating_sub(bytes_of(&line).len());
        let message = self.exchanged(shown, room)?;
        let room = room.saturating_sub(bytes_of(&message).len());
        let settings = self.settings(self.scope(shown.pid), event.settings(), room)?;
        line.add_with("{}", &[Part::Bytes(bytes_of(&settings))])?;
        line.add_with("{}", &[Part::Bytes(bytes_of(&message))])?;
        Ok(line)
    }

    /// The words at the arrow of a message that a process received.
    pub(super) fn received(&self, pid: Pid, received: Received) -> Result<Notes, AllocError> {
        let value = self
            .scope(pid)
            .message_from(received.source, received.value);
        words(
            self.alloc,
            " {} of {} ",
            &[value, Part::Natural(received.sender)],
        )
    }

    /// The words at the arrow of the messages of a channel that are on their way, if there are some.
    pub(super) fn waiting(&self, from: Pid, to: Pid) -> Result<Option<Notes>, Refusal> {
        let messages = self.view.session.world.channel(self.alloc, from, to)?;
        if messages.items().is_empty() {
            return Ok(None);
        }
        let mut label = words(self.alloc, " ", &[])?;
        for message in messages.items() {
            label.add_with("{} ", &[self.scope(from).message_to(to, *message)])?;
        }
        Ok(Some(label))
    }

    /// The commands that a process can make again, in brackets, if there are some.
    pub(super) fn again(&self, pid: Pid) -> Result<Option<Notes>, AllocError> {
        let world = self.view.session.world;
        if world.line_len(pid) <= world.place(pid) {
            return Ok(None);
        }
        let mut line = words(self.alloc, "[", &[])?;
        let mut between = "";
        for at in world.place(pid)..world.line_len(pid) {
            if let Some(choice) = world.choice(pid, at) {
                line.add_with(
                    "{}{}",
                    &[Part::Text(between), self.scope(pid).command(choice)],
                )?;
                between = " ";
            }
        }
        line.add("]")?;
        Ok(Some(line))
    }
}
