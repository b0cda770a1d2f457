//! Events in words.

use crate::messages::Hop;
use crate::past::EventPlace;
use dbg_base::Pid;
use shell_io::Style;
use std::alloc::AllocError;
use ui_text::{Notes, Part};
use ui_view::SourceView;

// The word before the number of an event, and before those of several ones. In a model, a reply may name a command by its number.
fn number_word(is_model: bool, is_one: bool) -> &'static str {
    match (is_model, is_one) {
        (false, _) => " ",
        (true, true) => " event ",
        (true, false) => " events ",
    }
}

/// A message, as it is shown.
pub(crate) fn shown_message<'a>(view: SourceView<'a>, hop: Hop) -> Part<'a> {
    view.scope(hop.receiver.pid)
        .message_from(hop.sender.pid, hop.value)
}

/// Appends an event to the last line: its process and number.
pub fn put_place(
    notes: &mut Notes,
    view: SourceView<'_>,
    event: EventPlace,
) -> Result<(), AllocError> {
    put_range(notes, view, event.pid, event.number, event.number)
}

/// Appends the events of a process from one number to another to the last line.
pub(crate) fn put_range(
    notes: &mut Notes,
    view: SourceView<'_>,
    pid: Pid,
    from: u32,
    to: u32,
) -> Result<(), AllocError> {
    let scope = view.scope(pid);
    let word = Part::Text(number_word(view.text.is_model(), from == to));
    notes.add_with("{}{}{}", &[scope.name(), word, Part::Natural(from)])?;
    if from < to {
        notes.add_with("-{}", &[Part::Natural(to)])?;
    }
    Ok(())
}

/// Appends the place of the command of an event to the last line, at this column.
pub(crate) fn put_command_place(
    notes: &mut Notes,
    view: SourceView<'_>,
    event: EventPlace,
    column: usize,
) -> Result<(), AllocError> {
    let rows = view.session.world.rows();
    let Some(made) = rows.event(event.pid, (event.number as usize).saturating_sub(1)) else {
        return Ok(());
    };
    notes.tab_in(Style::Place, column)?;
    let place = view.text.shown_place(event.pid, made.choice());
    notes.add_with("{}", &[Part::Bytes(place)])
}
