//! Expressions and commands as text, and the names in them.

use dbg_base::{Direction, Expr, Operator, Pid};
use local_eval::Env;
use proc_tree::{Action, Guarded, Program};
use std::alloc::AllocError;
use ui_conditions::{is_comparison, operator_text};
use ui_text::{Notes, Part, ProgramText, ShownValue};

/// A process of a program, with its names as they were written. Values may be shown as numbers alone.
#[derive(Clone, Copy)]
pub struct ProcessView<'a> {
    pub program: &'a Program,
    pub text: &'a ProgramText,
    pub pid: Pid,
    has_numbers: bool,
}

/// How a count of messages is written.
pub fn count_form(direction: Direction) -> &'static str {
    match direction {
        Direction::Sent => "sent({})",
        Direction::Got => "got({})",
    }
}

impl<'a> ProcessView<'a> {
    /// A process of this program.
    pub fn new(program: &'a Program, text: &'a ProgramText, pid: Pid) -> ProcessView<'a> {
        ProcessView {
            program,
            text,
            pid,
            has_numbers: false,
        }
    }

    /// The same process, with numbers for all values.
    pub fn with_numbers(&self) -> ProcessView<'a> {
        ProcessView {
            program: self.program,
            text: self.text,
            pid: self.pid,
            has_numbers: true,
        }
    }

    /// The name of the process.
    pub fn name(&self) -> Part<'a> {
        self.process(self.pid)
    }

    /// The name of the process, at the beginning of a line about it.
    pub fn head(&self) -> Part<'a> {
        Part::Process(self.text.process_name(self.pid), self.pid.0)
    }

    /// The name of a process.
    pub fn process(&self, pid: Pid) -> Part<'a> {
        Part::Bytes(self.text.process_name(pid))
    }

    /// The name of a variable.
    pub fn variable(&self, variable: u32) -> Part<'a> {
        Part::Bytes(self.text.variable_name(self.pid, variable))
    }

    /// What is shown for a value of a variable.
    pub(crate) fn shown_value(&self, variable: u32, value: i64) -> ShownValue<'a> {
        if self.has_numbers {
            ShownValue::number(value)
        } else {
            self.text.value(self.pid, variable, value)
        }
    }

    /// A value of a variable, as it is shown.
    pub fn value(&self, variable: u32, value: i64) -> Part<'a> {
        Part::Shown(self.shown_value(variable, value))
    }

    // A message from a process to another, as it is shown.
    fn message(&self, source: Pid, target: Pid, value: i64) -> Part<'a> {
        if self.has_numbers {
            Part::Number(value)
        } else {
            Part::Shown(self.text.message(source, target, value))
        }
    }

    /// A message that the process sends to another, as it is shown.
    pub fn message_to(&self, target: Pid, value: i64) -> Part<'a> {
        self.message(self.pid, target, value)
    }

    /// A message that the process receives from another, as it is shown.
    pub fn message_from(&self, source: Pid, value: i64) -> Part<'a> {
        self.message(source, self.pid, value)
    }

    /// Appends an expression to the last line.
    #[cycle(expression)]
    pub fn put_expression(&self, notes: &mut Notes, expr: &Expr) -> Result<(), AllocError> {
        match expr {
            Expr::Number(number) => notes.add_with("{}", &[Part::Number(*number)]),
            Expr::Variable(variable) => notes.add_with("{}", &[self.variable(*variable)]),
            Expr::Truth(true) => notes.add("true"),
            Expr::Truth(false) => notes.add("false"),
            Expr::Sent(pid) => notes.add_with(count_form(Direction::Sent), &[self.process(*pid)]),
            Expr::Got(pid) => notes.add_with(count_form(Direction::Got), &[self.process(*pid)]),
            Expr::Not(operand) => self.put_with_sign(notes, "(not ", operand),
            Expr::Negate(operand) => self.put_with_sign(notes, "(- ", operand),
            Expr::Binary(operator, left, right) => {
                notes.add("(")?;
                self.put_operand(notes, left, *operator, right)?;
                notes.add_with(" {} ", &[Part::Text(operator_text(*operator))])?;
                self.put_operand(notes, right, *operator, left)?;
                notes.add(")")
            }
        }
    }

    // Appends an operand of an operator. A number that is compared with a variable is shown as a value of that.
    #[cycle(expression)]
    fn put_operand(
        &self,
        notes: &mut Notes,
        operand: &Expr,
        operator: Operator,
        other: &Expr,
    ) -> Result<(), AllocError> {
        match (operand, other) {
            (Expr::Number(number), Expr::Variable(variable)) if is_comparison(operator) => {
                notes.add_with("{}", &[self.value(*variable, *number)])
            }
            _ => self.put_expression(notes, operand),
        }
    }

    #[cycle(expression)]
    fn put_with_sign(
        &self,
        notes: &mut Notes,
        sign: &str,
        operand: &Expr,
    ) -> Result<(), AllocError> {
        notes.add(sign)?;
        self.put_expression(notes, operand)?;
        notes.add(")")
    }
}
