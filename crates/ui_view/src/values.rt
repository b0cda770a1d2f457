//! The values on which an expression depends.

use crate::expressions::{ProcessView, count_form};
use dbg_base::{Direction, Expr, Pid};
use local_eval::Env;
use std::alloc::AllocError;
use ui_conditions::put_folded;
use ui_text::{Notes, Part};

/// A value of a process that an expression may name.
#[derive(Clone, Copy, PartialEq, Eq)]
pub enum NamedValue {
    Variable(u32),
    Count(Direction, Pid),
}

/// Whether an expression of a process names this value of the process.
pub fn names(expr: &Expr, named: NamedValue) -> bool {
    match expr {
        Expr::Number(_) | Expr::Truth(_) => false,
        Expr::Variable(variable) => named == NamedValue::Variable(*variable),
        Expr::Sent(pid) => named == NamedValue::Count(Direction::Sent, *pid),
        Expr::Got(pid) => named == NamedValue::Count(Direction::Got, *pid),
        Expr::Not(operand) | Expr::Negate(operand) => names(operand, named),
        Expr::Binary(_, left, right) => names(left, named) || names(right, named),
    }
}

// Whether one of these expressions names this value of the process.
fn name_one(expressions: &[&Expr], named: NamedValue) -> bool {
    expressions.iter().any(|expr| names(expr, named))
}

/// Whether an expression of a process names this variable of the process.
pub fn names_variable(expr: &Expr, variable: u32) -> bool {
    names(expr, NamedValue::Variable(variable))
}

/// Appends a name, in this form, and its value to the last line: the first one after this word, and the others after a comma.
pub fn put_value(
    notes: &mut Notes,
    word: &mut &'static str,
    form: &'static str,
    name: &[Part<'_>],
    value: &Part<'_>,
) -> Result<(), AllocError> {
    notes.add(*word)?;
    *word = ", ";
    notes.add_with(form, name)?;
    notes.add(" = ")?;
    notes.put(value)
}

impl ProcessView<'_> {
    // Appends a variable and its value.
    fn put_variable(
        &self,
        notes: &mut Notes,
        word: &mut &'static str,
        variable: u32,
        value: i64,
    ) -> Result<(), AllocError> {
        let (name, value) = (self.variable(variable), self.value(variable, value));
        put_value(notes, word, "{}", &[name], &value)
    }

    /// Appends all variables of the process and their values to the last line: the first one after this word, and the others after a comma.
    pub fn put_variables(
        &self,
        notes: &mut Notes,
        word: &mut &'static str,
        env: &Env,
    ) -> Result<(), AllocError> {
        for variable in 0..self.program.variables(self.pid) {
            if let Some(value) = env.values().get(variable as usize) {
                self.put_variable(notes, word, variable, *value)?;
            }
        }
        Ok(())
    }

    /// Appends the values of the variables and counts that expressions name to the last line: the first one after this word. Names that differ
    /// in an index, and have the same value, are one with a range.
    pub fn put_values(
        &self,
        notes: &mut Notes,
        word: &'static str,
        env: &Env,
        expressions: &[&Expr],
    ) -> Result<(), AllocError> {
        let mut values = Notes::new(notes.alloc());
        for variable in 0..self.program.variables(self.pid) {
            if let Some(value) = env.values().get(variable as usize) {
                if name_one(expressions, NamedValue::Variable(variable)) {
                    values.say("")?;
                    self.put_variable(&mut values, &mut "", variable, *value)?;
                }
            }
        }
        self.tell_counts(&mut values, env, expressions, Direction::Sent)?;
        self.tell_counts(&mut values, env, expressions, Direction::Got)?;
        put_folded(notes, word, &values)?;
        Ok(())
    }

    /// Appends the counts that an expression names, and their values, to the last line: the first one after this word, and the others after a
    /// comma.
    pub fn put_counts(
        &self,
        notes: &mut Notes,
        word: &'static str,
        env: &Env,
        expr: &Expr,
    ) -> Result<(), AllocError> {
        let mut counts = Notes::new(notes.alloc());
        self.tell_counts(&mut counts, env, &[expr], Direction::Sent)?;
        self.tell_counts(&mut counts, env, &[expr], Direction::Got)?;
        put_folded(notes, word, &counts)?;
        Ok(())
    }

    // Says each count of messages in this direction that expressions name.
    fn tell_counts(
        &self,
        notes: &mut Notes,
        env: &Env,
        expressions: &[&Expr],
        direction: Direction,
    ) -> Result<(), AllocError> {
        for process in 0..self.program.processes() {
            let pid = Pid(process);
            if let Some(count) = env.counts(direction).get(process as usize) {
                if name_one(expressions, NamedValue::Count(direction, pid)) {
                    let form = count_form(direction);
                    let count = Part::Natural(*count);
                    notes.say("")?;
                    put_value(notes, &mut "", form, &[self.process(pid)], &count)?;
                }
            }
        }
        Ok(())
    }
}
