//! The words at the events and arrows of a drawing, and above and below it.

use crate::sheet::Scene;
use crate::svg::shortened;
use dbg_base::Pid;
use event_rows::Event;
use std::alloc::AllocError;
use ui_text::{Notes, Part};
use ui_timeline::{
    NamedCut, Received, Sent, ShownEvent, bytes_of, event_of, halting, put_left_out, size,
};
use ui_view::{ProcessView, names_variable};

// The most variables that are shown at an event, unless the predicate names more.
const WORDS: usize = 2;

// The most characters at an event.
const LABEL: usize = 44;

// The most characters of a line above or below the drawing.
const SENTENCE: usize = 100;

/// The choices of a redo line that are drawn, at most.
pub(crate) const AGAIN: u32 = 4;

// The width of a character of the drawing, and of one of its legend.
const CHARACTER: i64 = 8;

const KEY_CHARACTER: i64 = 7;

/// How wide words are.
pub(crate) fn width_of(words: &[u8]) -> i64 {
    let characters = i64::try_from(words.len()).unwrap_or(i64::MAX);
    characters.saturating_mul(CHARACTER)
}

/// How wide words of the legend are.
pub(crate) fn width_of_key(words: &[u8]) -> i64 {
    let characters = i64::try_from(words.len()).unwrap_or(i64::MAX);
    characters.saturating_mul(KEY_CHARACTER)
}

/// The words at an event, and at the message that it received, or that it sent and that is on its way.
#[derive(Drop)]
pub(crate) struct EventWords {
    pub(crate) label: Vec<u8>,
    pub(crate) message: Option<Notes>,
}

impl EventWords {
    /// How wide the words at the event are.
    pub(crate) fn label_width(&self) -> i64 {
        width_of(self.label.as_slice())
    }

    /// How wide the words at the message are.
    pub(crate) fn message_width(&self) -> i64 {
        match &self.message {
            Some(words) => width_of(bytes_of(words)),
            None => 0,
        }
    }
}

impl<'a> Scene<'a> {
    pub(crate) fn processes(&self) -> u32 {
        self.view.session.program.processes()
    }

    pub(crate) fn scope(&self, pid: Pid) -> ProcessView<'a> {
        self.view.scope(pid)
    }

    // Whether the predicate of the first cut, which is that of the breakpoint that halts the session if one does, names a variable.
    fn is_named(&self, pid: Pid, variable: u32) -> bool {
        let Some(cut) = self.cuts.first() else {
            return false;
        };
        let Some((_, breakpoint)) = self.view.session.book.find(cut.name) else {
            return false;
        };
        let detector = breakpoint.detector();
        let mut conjuncts = 0..cut.pids.len();
        conjuncts.any(|place| match detector.conjunct(place) {
            Some((process, expr)) => process == pid && names_variable(expr, variable),
            None => false,
        })
    }

    // Appends the values of the variables that an event set to the last line: those that the predicate names, or the others, and at most so
    // many. Returns how many.
    fn put_settings(
        &self,
        words: &mut Notes,
        pid: Pid,
        event: &Event,
        named: bool,
        most: usize,
    ) -> Result<usize, AllocError> {
        let mut count = 0usize;
        for setting in event.settings() {
            if count < most && self.is_named(pid, setting.variable) == named {
                let name = self.scope(pid).variable(setting.variable);
                let value = self.scope(pid).value(setting.variable, setting.new);
                words.add_with(" {}={}", &[name, value])?;
                count = count.saturating_add(1);
            }
        }
        Ok(count)
    }

    /// The message that an event received from a process that is shown.
    pub(crate) fn received(&self, shown: ShownEvent) -> Option<Received> {
        let received = self.timeline.received_by(self.view.session.world, shown)?;
        if self.selection.contains(received.source) {
            Some(received)
        } else {
            None
        }
    }

    /// The message that an event sent to a process that is shown, and that is on its way.
    pub(crate) fn waiting(&self, shown: ShownEvent) -> Option<Sent> {
        let sent = self.timeline.sent_by(self.view.session.world, shown)?;
        if sent.is_on_its_way && self.selection.contains(sent.target) {
            Some(sent)
        } else {
            None
        }
    }

    // Appends the message of an event from or to a process that is not shown to the last line.
    fn put_hidden_message(&self, words: &mut Notes, shown: ShownEvent) -> Result<(), AllocError> {
        let world = self.view.session.world;
        let scope = self.scope(shown.pid);
        let message = match (
            self.timeline.received_by(world, shown),
            self.timeline.sent_by(world, shown),
        ) {
            (Some(received), _) => {
                let value = scope.message_from(received.source, received.value);
                Some((value, " < ", received.source))
            }
            (None, Some(sent)) => {
                let value = scope.message_to(sent.target, sent.value);
                Some((value, " > ", sent.target))
            }
            (None, None) => None,
        };
        match message {
            Some((value, sign, partner)) if !self.selection.contains(partner) => {
                let name = self.scope(partner).name();
                words.add_with(" {}{}{}", &[value, Part::Text(sign), name])
            }
            _ => Ok(()),
        }
    }

    // The words at an event: its number, its command, and the variables that it set. Those that the predicate names are first, and are
    // never left out.
    fn event_label(&self, shown: ShownEvent) -> Result<Vec<u8>, AllocError> {
        let mut words = Notes::new(self.alloc);
        words.say_with("{}", &[Part::Natural(shown.number)])?;
        let mut room = LABEL;
        if let Some(event) = event_of(self.view.session.world, shown) {
            let command = self.scope(shown.pid).command(event.choice());
            words.add_with(":{}", &[command])?;
            let all = event.settings().len();
            let named = self.put_settings(&mut words, shown.pid, event, true, all)?;
            room = room.max(bytes_of(&words).len().saturating_add(3));
            let most = WORDS.saturating_sub(named);
            let others = self.put_settings(&mut words, shown.pid, event, false, most)?;
            if all > named.saturating_add(others) {
                words.add(" ..")?;
            }
        }
        self.put_hidden_message(&mut words, shown)?;
        shortened(self.alloc, bytes_of(&words), room)
    }

    /// The words at the events that are shown, and at their messages.
    pub(crate) fn words(&self) -> Result<Vec<EventWords>, AllocError> {
        let mut words = Vec::new(self.alloc);
        for shown in self.events {
            words.push(EventWords {
                label: self.event_label(*shown)?,
                message: self.message_label(*shown)?,
            })?;
        }
        Ok(words)
    }

    // The words at the message that an event received, or that it sent and that is on its way. None if there is no such message.
    fn message_label(&self, shown: ShownEvent) -> Result<Option<Notes>, AllocError> {
        let mut words = Notes::new(self.alloc);
        let scope = self.scope(shown.pid);
        if let Some(received) = self.received(shown) {
            let value = scope.message_from(received.source, received.value);
            words.say_with("{}", &[value])?;
            return Ok(Some(words));
        }
        match self.waiting(shown) {
            Some(sent) => {
                let name = self.scope(sent.target).name();
                let value = scope.message_to(sent.target, sent.value);
                words.say_with("{} > {}", &[value, name])?;
                Ok(Some(words))
            }
            None => Ok(None),
        }
    }

    /// The two processes of that message, the one that sent it first.
    pub(crate) fn message_ends(&self, shown: ShownEvent) -> Option<(Pid, Pid)> {
        match self.received(shown) {
            Some(received) => Some((received.source, shown.pid)),
            None => Some((shown.pid, self.waiting(shown)?.target)),
        }
    }

    /// Whether a message is on its way.
    pub(crate) fn is_waiting(&self) -> bool {
        let mut events = self.events.iter();
        events.any(|shown| self.waiting(*shown).is_some())
    }

    /// How many events of a process are drawn that can be redone.
    pub(crate) fn again(&self, pid: Pid) -> u32 {
        let world = self.view.session.world;
        let length = world.line_len(pid);
        length.saturating_sub(world.place(pid)).min(AGAIN)
    }

    /// The words at such an event, the n-th of its process, from 0: its command. After the last one that is drawn, how many others there are.
    pub(crate) fn again_label(&self, pid: Pid, n: u32) -> Result<Notes, AllocError> {
        let world = self.view.session.world;
        let mut words = Notes::new(self.alloc);
        words.say("")?;
        let place = world.place(pid).saturating_add(n);
        if let Some(choice) = world.choice(pid, place) {
            words.add_with("{}", &[self.scope(pid).command(choice)])?;
        }
        let next = place.saturating_add(1);
        let left = world.line_len(pid).saturating_sub(next);
        if n.saturating_add(1) == self.again(pid) && left > 0 {
            let left = Part::Natural(left);
            words.add_with(" and {} more", &[left])?;
        }
        Ok(words)
    }

    /// The most such events of a process.
    pub(crate) fn most_again(&self) -> u32 {
        let mut again = 0u32;
        for pid in self.selection.pids() {
            again = again.max(self.again(*pid));
        }
        again
    }

    /// How many events of the processes that are shown are left out.
    pub(crate) fn left_out(&self) -> usize {
        let left = self.timeline.events().get(..self.left);
        self.selection.count(left.unwrap_or(&[]))
    }
}

impl Scene<'_> {
    /// What a drawing shows: the predicate of the breakpoint that halts the session, or how many events there are.
    pub(crate) fn heading(&self) -> Result<Notes, AllocError> {
        let mut heading = Notes::new(self.alloc);
        let Some(cut) = halting(self.cuts) else {
            let count = self.selection.count(self.timeline.events());
            let events = Part::Text(if count == 1 { " event" } else { " events" });
            heading.say_with("{}{}, not halted", &[Part::Count(count), events])?;
            return Ok(heading);
        };
        let line = cut.heading(self.alloc)?;
        if bytes_of(&line).len() <= SENTENCE {
            return Ok(line);
        }
        let lines = cut.heading_lines(self.alloc)?;
        for number in 0..lines.count() {
            let line = shortened(self.alloc, lines.line(number).bytes, SENTENCE)?;
            heading.say_with("{}", &[Part::Bytes(line.as_slice())])?;
        }
        Ok(heading)
    }

    /// What a cut is, below a drawing: its breakpoint, and the events in it.
    pub(crate) fn cut_sentence(&self, cut: &NamedCut) -> Result<Vec<u8>, AllocError> {
        let mut line = Notes::new(self.alloc);
        line.say_with("{}", &[cut.name()])?;
        if !cut.halts {
            line.add(": ")?;
            cut.put_predicate(&mut line)?;
        }
        line.add(" holds first ")?;
        if size(&cut.cut, self.processes()) == 0 {
            line.add("at the start")?;
        } else {
            line.add("after ")?;
            cut.put_counts(&mut line, self.view)?;
        }
        shortened(self.alloc, bytes_of(&line), SENTENCE)
    }

    /// What the marks of a drawing mean.
    pub(crate) fn key(&self) -> Result<Notes, AllocError> {
        let mut key = Notes::new(self.alloc);
        key.say("3:0 is the third event of its process, by command 0.")?;
        if !self.cuts.is_empty() {
            key.say("After the events with large marks, the parts of a predicate hold.")?;
        }
        if self.is_waiting() {
            key.say("Dashed arrows are messages on their way.")?;
        }
        if self.most_again() > 0 {
            key.say("Dotted marks are events that can be redone.")?;
        }
        let left = self.left_out();
        if left > 0 {
            key.say("")?;
            put_left_out(&mut key, left)?;
            key.add(".")?;
        }
        if !self.selection.is_whole() {
            key.say("")?;
            self.selection.put_hidden(&mut key, self.view)?;
        }
        Ok(key)
    }
}
