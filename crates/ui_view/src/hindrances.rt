//! Why a command does not fire in the present state of its process.

use crate::expressions::ProcessView;
use crate::finding::find_hindrance;
use crate::hindrance::Hindrance;
use causal_world::World;
use dbg_base::{Choice, Expr, Refusal};
use local_eval::{Env, eval};
use proc_tree::{Action, Guarded};
use std::alloc::{AllocError, Global};
use ui_conditions::{faulting_part, is_range_check};
use ui_text::{Notes, Part, meaning};

// At most this many bytes of an expression are shown.
const SHOWN: usize = 160;

impl ProcessView<'_> {
    /// Appends an expression to the last line. Of a long one it is the beginning.
    pub fn put_shortened(&self, notes: &mut Notes, expr: &Expr) -> Result<(), AllocError> {
        let mut text = Notes::new(notes.alloc());
        text.say("")?;
        self.put_expression(&mut text, expr)?;
        let whole = text.line(0).bytes;
        let shown = whole.get(..SHOWN).unwrap_or(whole);
        notes.add_with("{}", &[Part::Bytes(shown)])?;
        if shown.len() < whole.len() {
            notes.add(" ..")?;
        }
        Ok(())
    }

    // Appends an expression that faults, the part of it that faults, and the values of the names in it to the last line.
    fn put_fault(&self, notes: &mut Notes, env: &Env, expr: &Expr) -> Result<(), AllocError> {
        let part = faulting_part(expr, env);
        if self.text.is_model() && part.is_some_and(is_range_check) {
            notes.add("a field of a message is outside its range")?;
            return self.put_values(notes, ": ", env, &[expr]);
        }
        self.put_shortened(notes, expr)?;
        notes.add(" faults")?;
        if let Some(part) = part {
            notes.add(" at ")?;
            self.put_shortened(notes, part)?;
        }
        self.put_values(notes, ": ", env, &[expr])
    }

    /// Appends an expression that does not hold, since it is false or faults, and the values of the names in it to the last line. Of a
    /// conjunction it is the first part that is false.
    pub fn put_false(&self, notes: &mut Notes, env: &Env, expr: &Expr) -> Result<(), AllocError> {
        if eval(expr, env).is_err() {
            return self.put_fault(notes, env, expr);
        }
        for part in &self.condition_parts(notes.alloc(), env, expr)? {
            if part.holding(env) < part.least {
                return self.put_false_part(notes, env, part);
            }
        }
        Ok(())
    }

    // Appends the first expression of a command that faults in this state to the last line.
    fn put_faulting(
        &self,
        notes: &mut Notes,
        env: &Env,
        command: &Guarded,
    ) -> Result<(), AllocError> {
        if let Action::Send { value, .. } = &command.action {
            if eval(value, env).is_err() {
                return self.put_fault(notes, env, value);
            }
        }
        for assignment in command.assignments.items() {
            if eval(&assignment.value, env).is_err() {
                return self.put_fault(notes, env, &assignment.value);
            }
        }
        Ok(())
    }

    // The same, if the command receives this message.
    fn put_faulting_after(
        &self,
        notes: &mut Notes,
        env: &Env,
        command: &Guarded,
        message: i64,
    ) -> Result<(), AllocError> {
        let mut after = env.copy()?;
        let mut shown = Part::Number(message);
        if let Action::Receive { source, variable } = &command.action {
            shown = self.message_from(*source, message);
            if (*variable as usize) < after.len() {
                after.set(*variable, message);
            }
        }
        notes.add_with("with the message {}, ", &[shown])?;
        self.put_faulting(notes, &after, command)
    }

    /// Appends what prevents this command in this local state to the last line.
    pub fn put_hindrance(
        &self,
        notes: &mut Notes,
        env: &Env,
        command: &Guarded,
        hindrance: Hindrance,
    ) -> Result<(), AllocError> {
        match hindrance {
            Hindrance::NoCommand | Hindrance::Full => {
                notes.add(meaning(hindrance.refusal().number()))
            }
            Hindrance::GuardFalse => self.put_false(notes, env, &command.guard),
            Hindrance::GuardFaults => self.put_fault(notes, env, &command.guard),
            Hindrance::NoMessage(source) => {
                notes.add_with("no message from {} is on its way", &[self.process(source)])
            }
            Hindrance::Faults(None) => self.put_faulting(notes, env, command),
            Hindrance::Faults(Some(message)) => {
                self.put_faulting_after(notes, env, command, message)
            }
        }
    }

    /// Appends why a command does not fire in the present state, or that it can fire, to the last line.
    pub fn put_verdict(
        &self,
        notes: &mut Notes,
        world: &World,
        choice: Choice,
    ) -> Result<(), Refusal> {
        let Some(hindrance) = find_hindrance(notes.alloc(), self.program, world, self.pid, choice)?
        else {
            return Ok(notes.add("it can fire")?);
        };
        match (
            self.program.command(self.pid, choice),
            world.local_state(self.pid),
        ) {
            (Some(command), Some(env)) => {
                Ok(self.put_hindrance(notes, env, command, hindrance)?)
            }
            _ => Ok(()),
        }
    }

    /// Says why this command does not fire, or that it can fire.
    pub fn tell_hindrance(
        &self,
        notes: &mut Notes,
        world: &World,
        choice: Choice,
    ) -> Result<(), Refusal> {
        notes.say("")?;
        self.put_command(notes, choice)?;
        notes.add(": ")?;
        self.put_verdict(notes, world, choice)
    }

    /// Says for each command of the process why it does not fire, or that it can fire.
    pub fn tell_hindrances(&self, notes: &mut Notes, world: &World) -> Result<(), Refusal> {
        for number in 0..self.program.commands(self.pid) {
            self.tell_hindrance(notes, world, Choice(number))?;
        }
        Ok(())
    }

    /// Whether a command of the process can fire in the present state, and the process has room for an event.
    pub fn fires(&self, alloc: Global, world: &World, choice: Choice) -> Result<bool, Refusal> {
        Ok(find_hindrance(alloc, self.program, world, self.pid, choice)?.is_none())
    }
}
