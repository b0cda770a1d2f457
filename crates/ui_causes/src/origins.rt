//! Where a value came from, step by step.

use crate::event_words::{put_command_place, put_place, shown_message};
use crate::how::{CausalSession, named_value, named_values, put_named, shown_value};
use crate::messages::received;
use crate::origin::{Origin, find_origin};
use crate::past::{EventPlace, height};
use dbg_base::{Expr, Pid, Refusal};
use proc_tree::{Action, Guarded};
use std::alloc::AllocError;
use ui_text::{Notes, Part};
use ui_view::{NamedValue, SourceView, names};

// At most this many steps are shown.
const STEPS: usize = 32;

// The room of the columns of a step: for the value, for the number of the event, in a model with a word before it, and for what it did.
const VALUE: usize = 16;

const NUMBER: usize = 5;

const MODEL_NUMBER: usize = 11;

const DEED: usize = 28;

// A value that was set, or sent to a process.
#[derive(Clone, Copy, PartialEq, Eq)]
enum What {
    Named(NamedValue),
    Message(Pid),
}

// A step: an event that set a value, or sent it. The start of a process has the number 0.
#[derive(Clone, Copy)]
struct Step {
    event: EventPlace,
    what: What,
    value: i64,
    height: u32,
    is_shown: bool,
}

// The steps that are known, and the values from which they come.
#[derive(Drop)]
struct Steps<'a> {
    view: SourceView<'a>,
    steps: Vec<Step>,
}

impl<'a> Steps<'a> {
    // Notes a step, unless it is there.
    fn note(&mut self, event: EventPlace, what: What, value: i64) -> Result<(), AllocError> {
        let is_there = self
            .steps
            .iter()
            .any(|step| step.event == event && step.what == what);
        if is_there {
            return Ok(());
        }
        let height = if event.number == 0 {
            0
        } else {
            height(self.view.session.world, event)
        };
        self.steps.push(Step {
            event,
            what,
            value,
            height,
            is_shown: false,
        })?;
        Ok(())
    }

    // Notes where a value of a process comes from that it has after its first n events.
    fn note_origin(&mut self, pid: Pid, n: u32, named: NamedValue) -> Result<(), AllocError> {
        let found = find_origin(self.view.session.world.rows(), pid, n, named)?;
        let number = match found {
            Origin::Start(_) => 0,
            Origin::Event(number, _) => number,
        };
        let event = EventPlace { pid, number };
        self.note(event, What::Named(named), found.value())
    }

    // Notes where the values come from that an expression names, as an event evaluates it. The variable that it receives has its new value.
    fn note_expression(
        &mut self,
        event: EventPlace,
        expr: &Expr,
        received: Option<u32>,
    ) -> Result<(), AllocError> {
        for number in 0..named_values(self.view, event.pid) {
            let named = named_value(self.view, event.pid, number);
            if !names(expr, named) {
                continue;
            }
            let is_received = received.is_some_and(|own| named == NamedValue::Variable(own));
            let before = event.number.saturating_sub(u32::from(!is_received));
            self.note_origin(event.pid, before, named)?;
        }
        Ok(())
    }

    // The step to show next: of those that are not shown yet, one whose event has the most events before it.
    fn next(&self) -> Option<usize> {
        let mut best: Option<usize> = None;
        for (at, step) in self.steps.iter().enumerate() {
            let is_higher = match best.and_then(|best| self.steps.get(best)) {
                Some(other) => step.height > other.height,
                None => true,
            };
            if !step.is_shown && is_higher {
                best = Some(at);
            }
        }
        best
    }
}

// The expression of the last assignment of a command to a variable.
fn assigned(command: &Guarded, variable: u32) -> Option<&Expr> {
    let mut found = None;
    for assignment in command.assignments.items() {
        if assignment.variable == variable {
            found = Some(&assignment.value);
        }
    }
    found
}

// The variable that a command receives.
fn received_by(command: &Guarded) -> Option<u32> {
    match &command.action {
        Action::Receive { variable, .. } => Some(*variable),
        _ => None,
    }
}

// The variable that a step set, if it set one.
fn variable_of(step: Step) -> Option<u32> {
    match step.what {
        What::Named(NamedValue::Variable(variable)) => Some(variable),
        _ => None,
    }
}

impl Steps<'_> {
    // Says that an event assigned a value, and notes from which values that comes.
    fn tell_assigned(
        &mut self,
        notes: &mut Notes,
        event: EventPlace,
        variable: u32,
        expr: &Expr,
        received: Option<u32>,
    ) -> Result<(), AllocError> {
        let scope = self.view.scope(event.pid);
        notes.add_with("{} := ", &[scope.variable(variable)])?;
        scope.put_shortened(notes, expr)?;
        self.note_expression(event, expr, received)
    }

    // Says what an event sent. If the step is about the message, notes from which values it comes.
    fn tell_sent(
        &mut self,
        notes: &mut Notes,
        step: Step,
        target: Pid,
        expr: &Expr,
    ) -> Result<(), AllocError> {
        let scope = self.view.scope(step.event.pid);
        let name = scope.process(target);
        let What::Message(_) = step.what else {
            return notes.add_with("sent to {}", &[name]);
        };
        let message = scope.message_to(target, step.value);
        notes.add_with("{} > {}: ", &[message, name])?;
        scope.put_shortened(notes, expr)?;
        self.note_expression(step.event, expr, None)
    }

    // Says what an event received, and from whom. If the step is about a variable, notes that its value was sent.
    fn tell_received(&mut self, notes: &mut Notes, step: Step) -> Result<(), AllocError> {
        let Some(hop) = received(self.view.session.world, step.event) else {
            return Ok(());
        };
        notes.add_with("{} < ", &[shown_message(self.view, hop)])?;
        put_place(notes, self.view, hop.sender)?;
        if variable_of(step).is_none() {
            return Ok(());
        }
        self.note(hop.sender, What::Message(hop.receiver.pid), hop.value)
    }

    // Says what an event did, and notes from which values that comes.
    fn tell_deed(
        &mut self,
        notes: &mut Notes,
        step: Step,
        command: &Guarded,
    ) -> Result<(), AllocError> {
        if let Some(variable) = variable_of(step) {
            if let Some(expr) = assigned(command, variable) {
                let own = received_by(command);
                return self.tell_assigned(notes, step.event, variable, expr, own);
            }
        }
        match &command.action {
            Action::Local => Ok(()),
            Action::Send { target, value } => self.tell_sent(notes, step, *target, value),
            Action::Receive { .. } => self.tell_received(notes, step),
        }
    }

    // Shows a step, and notes from which values it comes.
    fn tell_step(&mut self, notes: &mut Notes, step: Step) -> Result<(), AllocError> {
        let EventPlace { pid, number } = step.event;
        let session = self.view.session;
        notes.say("")?;
        let value = match step.what {
            What::Named(named) => {
                put_named(notes, self.view, pid, named)?;
                notes.add(" = ")?;
                shown_value(self.view, pid, named, step.value)
            }
            What::Message(target) => self.view.scope(pid).message_to(target, step.value),
        };
        notes.add_with("{}", &[value])?;
        notes.tab(VALUE)?;
        let text = self.view.text;
        let number_room = if text.is_model() {
            MODEL_NUMBER
        } else {
            NUMBER
        };
        let deed = text
            .longest_name()
            .saturating_add(VALUE)
            .saturating_add(number_room);
        let at = (number as usize).saturating_sub(1);
        let event = session.world.rows().event(pid, at);
        let (false, Some(event)) = (number == 0, event) else {
            notes.add_with("{}", &[self.view.scope(pid).name()])?;
            notes.tab(deed)?;
            return notes.add("from the start");
        };
        put_place(notes, self.view, step.event)?;
        notes.tab(deed)?;
        if let Some(command) = session.program.command(pid, event.choice()) {
            self.tell_deed(notes, step, command)?;
        }
        put_command_place(notes, self.view, step.event, deed.saturating_add(DEED))
    }

    // Shows the steps, the last one first.
    fn tell(&mut self, notes: &mut Notes) -> Result<(), AllocError> {
        for _ in 0..STEPS {
            let Some(at) = self.next() else {
                return Ok(());
            };
            let Some(step) = self.steps.get_mut(at) else {
                return Ok(());
            };
            step.is_shown = true;
            let step = *step;
            self.tell_step(notes, step)?;
        }
        match self.next() {
            Some(_) => notes.say(".. and earlier steps"),
            None => Ok(()),
        }
    }
}

impl<'a> CausalSession<'a> {
    // The variable of a process with this name.
    fn variable_named(&self, pid: Pid, word: &[u8]) -> Option<u32> {
        let program = self.view.session.program;
        for variable in 0..program.variables(pid) {
            let is_plain = program
                .variable_name(pid, variable)
                .is_some_and(|name| name.bytes() == word);
            if is_plain || self.view.text.variable_name(pid, variable) == word {
                return Some(variable);
            }
        }
        None
    }

    // Says which variables a process has.
    fn tell_variables(&self, notes: &mut Notes, pid: Pid) -> Result<(), AllocError> {
        let scope = self.view.scope(pid);
        let mut between = match self.view.session.program.variables(pid) {
            0 => " has no variable",
            1 => " has one variable, ",
            _ => " has the variables ",
        };
        notes.say_with("{}{}", &[scope.name(), Part::Text(between)])?;
        between = "";
        for variable in 0..self.view.session.program.variables(pid) {
            notes.add_with("{}{}", &[Part::Text(between), scope.variable(variable)])?;
            between = ", ";
        }
        Ok(())
    }

    // Says that a process has no variable of this name, which is empty if the line has none.
    fn tell_no_variable(&self, notes: &mut Notes, pid: Pid, word: &[u8]) -> Result<(), AllocError> {
        if !word.is_empty() {
            let name = self.view.scope(pid).name();
            notes.say_with("`{}` is not a variable of {}", &[Part::Bytes(word), name])?;
        }
        self.tell_variables(notes, pid)
    }

    /// Says where the value of this variable of this process came from, step by step through assignments and messages, the last step first.
    /// If there is no such variable, says so.
    pub fn tell_from(
        &self,
        notes: &mut Notes,
        process: &[u8],
        variable: &[u8],
    ) -> Result<(), Refusal> {
        if process.is_empty() {
            return Ok(notes.say(
                "`from P X` says where the value of the variable X of the process P came from",
            )?);
        }
        let Some(pid) = self.process_named(notes, process)? else {
            return Ok(());
        };
        let Some(number) = self.variable_named(pid, variable) else {
            return Ok(self.tell_no_variable(notes, pid, variable)?);
        };
        let mut steps = Steps {
            view: self.view,
            steps: Vec::new(notes.alloc()),
        };
        let place = self.view.session.world.place(pid);
        steps.note_origin(pid, place, NamedValue::Variable(number))?;
        Ok(steps.tell(notes)?)
    }
}
