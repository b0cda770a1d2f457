//! What an event did.

use crate::expressions::ProcessView;
use crate::view::SourceView;
use causal_world::World;
use dbg_base::{Direction, Pid};
use event_rows::{Event, Exchange, Setting};
use shell_io::Style;
use std::alloc::AllocError;
use ui_text::{Notes, Part, ProgramText};

// The room of the columns of a line about an event, besides the names of processes and the words after them: for the number of the event,
// for a message, its arrow and the number of the event that sent it, and for the variables that were set.
const NUMBER: usize = 4;

const MESSAGE: usize = 8;

const SETTINGS: usize = 28;

// The room of the place of a command, if a line is as wide as it can be.
const PLACE: usize = 14;

/// The gap between two columns.
pub(crate) const GAP: usize = 2;

// The number, from 1, of the first event of a process with which it has sent so many messages to another, or received so many from it. There
// has to be one.
fn event_of(world: &World, direction: Direction, pid: Pid, other: Pid, count: u32) -> u32 {
    let tally = world.tally();
    let mut from = 0u32;
    let mut to = tally.len(pid);
    // Each turn halves what is left.
    for _ in 0..u32::BITS {
        if from >= to {
            break;
        }
        let middle = from.saturating_add(to.saturating_sub(from) / 2);
        let until = match direction {
            Direction::Sent => tally.sent(pid, other, middle),
            Direction::Got => tally.got(pid, other, middle),
        };
        if until < count {
            from = middle.saturating_add(1);
        } else {
            to = middle;
        }
    }
    to
}

/// The number, from 1, of the event by which one process sent the message of this count to another.
pub fn sending(world: &World, source: Pid, target: Pid, count: u32) -> u32 {
    event_of(world, Direction::Sent, source, target, count)
}

/// The number, from 1, of the event by which one process received the message of this count from another.
pub fn receiving(world: &World, target: Pid, source: Pid, count: u32) -> u32 {
    event_of(world, Direction::Got, target, source, count)
}

/// Where the columns of a line about an event begin. A line whose text is longer than its column has the next one after two blanks.
#[derive(Clone, Copy)]
pub(crate) struct EventColumns {
    has_messages: bool,
    pub(crate) message: usize,
    pub(crate) settings: usize,
    pub(crate) command: usize,
}

// The word before the number of an event. In a model, a reply names a command without a label by its number.
fn number_word(text: &ProgramText) -> &'static str {
    if text.is_model() { " event " } else { " " }
}

impl EventColumns {
    // The columns for a session. One process alone has no messages.
    fn of(view: &SourceView<'_>) -> EventColumns {
        let has_messages = view.session.program.processes() > 1;
        let longest = view.text.longest_name();
        let named = longest.saturating_add(number_word(view.text).len());
        let message = named.saturating_add(NUMBER);
        let settings = if has_messages {
            message.saturating_add(named).saturating_add(MESSAGE)
        } else {
            message
        };
        EventColumns {
            has_messages,
            message,
            settings,
            command: settings
                .saturating_add(SETTINGS)
                .min(view.width.saturating_sub(PLACE)),
        }
    }
}

/// An event of a process, and its number from 1.
#[derive(Clone, Copy)]
pub(crate) struct ShownEvent<'a> {
    pub(crate) pid: Pid,
    pub(crate) number: usize,
    pub(crate) event: &'a Event,
}

// A message that an event of a process sent or received.
#[derive(Clone, Copy)]
struct EventMessage {
    value: i64,
    // The process that it was sent to, or the one that sent it.
    other: Pid,
    // The number, from 1, of the event that sent it, if this event received it.
    sender: Option<u32>,
}

impl ProcessView<'_> {
    /// Appends a variable that was set, after this word: its value before, and the one after.
    pub(crate) fn put_setting(
        &self,
        notes: &mut Notes,
        word: &'static str,
        setting: &Setting,
    ) -> Result<(), AllocError> {
        if !word.is_empty() {
            notes.put(&Part::Text(word))?;
        }
        notes.put(&self.variable(setting.variable))?;
        let old = self.value(setting.variable, setting.old);
        if setting.old == setting.new {
            notes.put(&Part::Text(" stays "))?;
            return notes.put(&old);
        }
        notes.put(&Part::Text(" "))?;
        notes.put(&old)?;
        notes.put(&Part::Text(" -> "))?;
        notes.put(&Part::Value(self.shown_value(setting.variable, setting.new)))
    }

    // The message that an event sent or received, if it did.
    fn message_of(&self, world: &World, event: &Event) -> Option<EventMessage> {
        match event.exchange() {
            Exchange::Nothing => None,
            Exchange::Sent { target, value, .. } => Some(EventMessage {
                value,
                other: target,
                sender: None,
            }),
            Exchange::Took {
                source,
                message,
                count,
            } => Some(EventMessage {
                value: message,
                other: source,
                sender: Some(sending(world, source, self.pid, count)),
            }),
        }
    }

    // The message as it is shown.
    fn shown_message(&self, message: EventMessage) -> Part<'_> {
        match message.sender {
            None => self.message_to(message.other, message.value),
            Some(_) => self.message_from(message.other, message.value),
        }
    }

    // Appends the message and where it came from, or went, to the last line, in words.
    fn put_message(
        &self,
        notes: &mut Notes,
        word: &'static str,
        message: EventMessage,
    ) -> Result<(), AllocError> {
        let word = Part::Text(word);
        let value = self.shown_message(message);
        let other = self.process(message.other);
        match message.sender {
            None => notes.add_with("{}sent {} to {}", &[word, value, other]),
            Some(sender) => notes.add_with(
                "{}received {} from {} (sent by its event {})",
                &[word, value, other, Part::Natural(sender)],
            ),
        }
    }

    // Appends the variables that an event set to the last line.
    fn put_settings(&self, notes: &mut Notes, event: &Event) -> Result<(), AllocError> {
        let mut word = "";
        for setting in event.settings() {
            self.put_setting(notes, word, setting)?;
            word = ", ";
        }
        if event.settings().is_empty() && event.exchange() == Exchange::Nothing {
            return notes.add("nothing changed");
        }
        Ok(())
    }

    /// Appends what an event did to the last line, in words. All values are numbers.
    pub fn put_event(
        &self,
        notes: &mut Notes,
        world: &World,
        event: &Event,
    ) -> Result<(), AllocError> {
        let view = self.with_numbers();
        view.put_settings(notes, event)?;
        let word = if event.settings().is_empty() {
            ""
        } else {
            ", "
        };
        match view.message_of(world, event) {
            Some(message) => view.put_message(notes, word, message),
            None => Ok(()),
        }
    }

    // Appends a message to the last line, with an arrow that points to the recipient, and the event that sent it.
    fn put_arrow(&self, notes: &mut Notes, message: EventMessage) -> Result<(), AllocError> {
        let sign = Part::Text(if message.sender.is_some() {
            " < "
        } else {
            " > "
        });
        let value = self.shown_message(message);
        notes.add_with("{}{}{}", &[value, sign, self.process(message.other)])?;
        match message.sender {
            Some(sender) => {
                let word = Part::Text(number_word(self.text));
                notes.add_with("{}{}", &[word, Part::Natural(sender)])
            }
            None => Ok(()),
        }
    }
}

/// Why a line is about an event.
#[derive(Clone, Copy, PartialEq, Eq)]
pub enum EventNews {
    /// A command made it.
    Made,
    /// It is about to be undone.
    Undone,
}

impl SourceView<'_> {
    /// Begins a line about an event of a process: its number, and its message.
    pub(crate) fn begin_event(
        &self,
        notes: &mut Notes,
        columns: EventColumns,
        shown: ShownEvent<'_>,
    ) -> Result<(), AllocError> {
        let scope = self.scope(shown.pid);
        notes.begin_line(Style::Plain)?;
        let word = Part::Text(number_word(self.text));
        notes.add_with("{}{}{}", &[scope.head(), word, Part::Count(shown.number)])?;
        if columns.has_messages {
            notes.tab(columns.message)?;
            if let Some(message) = scope.message_of(self.session.world, shown.event) {
                scope.put_arrow(notes, message)?;
            }
        }
        Ok(())
    }

    /// Says what the n-th event of a process did, from 1: its process and number, the message, the variables that it set, and its command.
    /// All lines about events of a session have the same columns.
    pub fn tell_event(
        &self,
        notes: &mut Notes,
        news: EventNews,
        pid: Pid,
        number: usize,
    ) -> Result<(), AllocError> {
        let world = self.session.world;
        let Some(event) = world.rows().event(pid, number.saturating_sub(1)) else {
            return Ok(());
        };
        let scope = self.scope(pid);
        let columns = EventColumns::of(self);
        let lines = notes.count();
        let shown = ShownEvent { pid, number, event };
        self.begin_event(notes, columns, shown)?;
        notes.tab(columns.settings)?;
        if news == EventNews::Undone {
            notes.add("undone: ")?;
        }
        scope.put_settings(notes, event)?;
        notes.tab_in(Style::Place, columns.command)?;
        let place = Part::Bytes(self.text.shown_place(pid, event.choice()));
        notes.add_with("{}", &[place])?;
        if notes.width() <= self.width {
            return Ok(());
        }
        notes.truncate(lines);
        self.tell_long_event(notes, news, columns, shown)
    }
}
