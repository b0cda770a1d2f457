//! What led to an event.

use crate::event_words::{put_command_place, put_place, shown_message};
use crate::messages::received;
use crate::neighbours::EventView;
use crate::origin::{Origin, find_origin};
use crate::past::EventPlace;
use crate::rows::Rows;
use dbg_base::{Direction, Expr, Name, Pid, Refusal};
use std::alloc::AllocError;
use ui_conditions::put_conjuncts;
use ui_text::{Notes, Part};
use ui_view::{EventNews, NamedValue, SourceView, count_form, names};

// How many columns a value of a guard and its reason have, before the place of the command that set it.
const REASON: usize = 40;

// How many columns after a part of a guard its values begin.
const INDENT: usize = 2;

/// A session whose causes are shown.
#[derive(Clone, Copy)]
pub struct CausalSession<'a> {
    pub view: SourceView<'a>,
}

/// Appends the name of a value to the last line.
pub(crate) fn put_named(
    notes: &mut Notes,
    view: SourceView<'_>,
    pid: Pid,
    named: NamedValue,
) -> Result<(), AllocError> {
    let scope = view.scope(pid);
    match named {
        NamedValue::Variable(variable) => notes.add_with("{}", &[scope.variable(variable)]),
        NamedValue::Count(direction, other) => {
            notes.add_with(count_form(direction), &[scope.process(other)])
        }
    }
}

/// The values that an expression of a process may name: those of this number, from 0: first its variables, then its counts.
pub(crate) fn named_value(view: SourceView<'_>, pid: Pid, number: u32) -> NamedValue {
    let variables = view.session.program.variables(pid);
    let processes = view.session.program.processes();
    let count = number.saturating_sub(variables);
    if number < variables {
        NamedValue::Variable(number)
    } else if count < processes {
        NamedValue::Count(Direction::Sent, Pid(count))
    } else {
        NamedValue::Count(Direction::Got, Pid(count.saturating_sub(processes)))
    }
}

/// A value, as it is shown.
pub(crate) fn shown_value<'a>(
    view: SourceView<'a>,
    pid: Pid,
    named: NamedValue,
    value: i64,
) -> Part<'a> {
    match named {
        NamedValue::Variable(variable) => view.scope(pid).value(variable, value),
        NamedValue::Count(_, _) => Part::Number(value),
    }
}

/// How many such values there are.
pub(crate) fn named_values(view: SourceView<'_>, pid: Pid) -> u32 {
    let processes = view.session.program.processes();
    let counts = processes.saturating_mul(2);
    view.session.program.variables(pid).saturating_add(counts)
}

impl EventView<'_> {
    // Says of a value since when the process has had it before the event.
    fn tell_value(&self, notes: &mut Notes, named: NamedValue) -> Result<(), AllocError> {
        let EventPlace { pid, number } = self.event;
        let rows = self.view.session.world.rows();
        let found = find_origin(rows, pid, number.saturating_sub(1), named)?;
        notes.say("")?;
        notes.tab(self.rows.column.saturating_add(INDENT))?;
        put_named(notes, self.view, pid, named)?;
        let value = shown_value(self.view, pid, named, found.value());
        notes.add_with(" = {}", &[value])?;
        let Origin::Event(number, written) = found else {
            return notes.add(" from the start");
        };
        if written.old != written.new && matches!(named, NamedValue::Variable(_)) {
            let old = shown_value(self.view, pid, named, written.old);
            notes.add_with(" (was {})", &[old])?;
        }
        notes.add(" since ")?;
        let since = EventPlace { pid, number };
        put_place(notes, self.view, since)?;
        let column = self.rows.column.saturating_add(REASON);
        put_command_place(notes, self.view, since, column)
    }

    // Says of a part of the guard since when its values are so.
    fn tell_part(&self, notes: &mut Notes, part: &Expr) -> Result<(), AllocError> {
        let pid = self.event.pid;
        self.view.scope(pid).put_expression(notes, part)?;
        for number in 0..named_values(self.view, pid) {
            let named = named_value(self.view, pid, number);
            if names(part, named) {
                self.tell_value(notes, named)?;
            }
        }
        Ok(())
    }

    // Says why the guard of the event's command was true.
    fn tell_guard(&self, notes: &mut Notes, guard: &Expr) -> Result<(), AllocError> {
        let mut label = "  its guard";
        let mut parts = Vec::new(notes.alloc());
        put_conjuncts(&mut parts, guard)?;
        for part in &parts {
            self.rows.begin(notes, label, &[])?;
            label = "";
            self.tell_part(notes, *part)?;
        }
        Ok(())
    }

    // Says who sent the message that the event received, if it did.
    fn tell_message(&self, notes: &mut Notes) -> Result<(), AllocError> {
        let Some(hop) = received(self.view.session.world, self.event) else {
            return Ok(());
        };
        self.rows.begin(notes, "  its message", &[])?;
        notes.add_with("{} sent by ", &[shown_message(self.view, hop)])?;
        put_place(notes, self.view, hop.sender)?;
        let column = self.rows.column.saturating_add(REASON);
        put_command_place(notes, self.view, hop.sender, column)
    }

    // Says what led to the event.
    fn tell(&self, notes: &mut Notes) -> Result<(), Refusal> {
        let EventPlace { pid, number } = self.event;
        let session = self.view.session;
        let at = (number as usize).saturating_sub(1);
        let Some(event) = session.world.rows().event(pid, at) else {
            return Ok(());
        };
        self.view
            .tell_event(notes, EventNews::Made, pid, number as usize)?;
        notes.say("happened because")?;
        if let Some(command) = session.program.command(pid, event.choice()) {
            self.tell_guard(notes, &command.guard)?;
        }
        self.tell_message(notes)?;
        self.tell_neighbours(notes)
    }
}

// The number that a word is.
fn number_of(word: &[u8]) -> Option<u32> {
    if word.is_empty() || !word.iter().all(|byte| byte.is_ascii_digit()) {
        return None;
    }
    str::from_utf8(word).ok()?.parse::<u32>().ok()
}

impl<'a> CausalSession<'a> {
    /// The process of this name. If there is none, says so.
    pub(crate) fn process_named(
        &self,
        notes: &mut Notes,
        word: &[u8],
    ) -> Result<Option<Pid>, AllocError> {
        let found = Name::new(word).and_then(|name| self.view.session.program.find_process(name));
        if found.is_none() {
            self.view.tell_processes(notes, word)?;
        }
        Ok(found)
    }

    // Says which numbers the events of a process have.
    fn tell_numbers(&self, notes: &mut Notes, pid: Pid) -> Result<(), AllocError> {
        let scope = self.view.scope(pid);
        let place = self.view.session.world.place(pid);
        notes.say_with("{} has {}", &[scope.name(), Part::Events(place)])?;
        match place {
            0 => Ok(()),
            1 => notes.add(": N is 1"),
            _ => notes.add_with(": N is a number from 1 to {}", &[Part::Natural(place)]),
        }
    }

    /// Says what led to the event of this number, from 1, of the process of this name: why its guard was true, who sent its message, which
    /// events happened before it and after it, and what undoes it. If there is no such event, says so.
    pub fn tell_how(
        &self,
        notes: &mut Notes,
        process: &[u8],
        number: &[u8],
    ) -> Result<(), Refusal> {
        if process.is_empty() {
            return Ok(notes.say("`how P N` says what led to the N-th event of the process P")?);
        }
        let Some(pid) = self.process_named(notes, process)? else {
            return Ok(());
        };
        let place = self.view.session.world.place(pid);
        let number = number_of(number).filter(|number| 1 <= *number && *number <= place);
        let Some(number) = number else {
            return Ok(self.tell_numbers(notes, pid)?);
        };
        let rows = Rows::new(self.view);
        let event = EventPlace { pid, number };
        EventView {
            view: self.view,
            rows,
            event,
        }
        .tell(notes)
    }
}
