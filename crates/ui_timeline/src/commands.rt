//! Commands as text.

use proc_tree::{Action, Guarded};
use std::alloc::AllocError;
use ui_text::{Notes, Part};
use ui_view::ProcessView;

// Appends what a command sends or receives to the last line.
fn put_action(
    notes: &mut Notes,
    scope: ProcessView<'_>,
    action: &Action,
) -> Result<(), AllocError> {
    match action {
        Action::Local => Ok(()),
        Action::Send { target, value } => {
            notes.add_with(" send {} ", &[scope.process(*target)])?;
            scope.put_expression(notes, value)
        }
        Action::Receive { source, variable } => {
            let source = scope.process(*source);
            let variable = scope.variable(*variable);
            notes.add_with(" recv {} {}", &[source, variable])
        }
    }
}

/// Appends a command to the last line, as the process language has it.
pub fn put_command(
    notes: &mut Notes,
    scope: ProcessView<'_>,
    command: &Guarded,
) -> Result<(), AllocError> {
    notes.add("when ")?;
    scope.put_expression(notes, &command.guard)?;
    notes.add(" :")?;
    put_action(notes, scope, &command.action)?;
    let mut word = match command.action {
        Action::Local => " ",
        _ => ", ",
    };
    for assignment in command.assignments.items() {
        let variable = scope.variable(assignment.variable);
        notes.add_with("{}{} := ", &[Part::Text(word), variable])?;
        scope.put_expression(notes, &assignment.value)?;
        word = ", ";
    }
    Ok(())
}
