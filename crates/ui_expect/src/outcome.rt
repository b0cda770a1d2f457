//! What was said to a line, as a replay compares it.

use dbg_base::{Done, Name, Pid, Said};
use dbg_command::SessionView;
use event_rows::{Event, Exchange};
use std::alloc::{AllocError, Global};
use ui_repl::AnsweredLine;
use ui_text::{Notes, Part, ProgramText};
use ui_view::Told;

/// What was said to a line that was played.
#[derive(Drop)]
pub(crate) struct Outcome {
    /// The number of the line in the input, and the line as it was written.
    pub(crate) number: usize,
    pub(crate) line: Vec<u8>,
    /// The reply, as it is shown.
    pub(crate) reply: Vec<u8>,
    /// The message that the event received, as it is shown, if it received one.
    pub(crate) message: Option<Vec<u8>>,
    halted: Option<Name>,
    is_refused: bool,
}

// The message that was received by the last event of a process, as it is shown.
fn message_of(
    alloc: Global,
    text: &ProgramText,
    view: SessionView<'_>,
    pid: Pid,
) -> Result<Option<Vec<u8>>, AllocError> {
    match view.world.rows().last(pid).map(Event::exchange) {
        Some(
            Exchange::Took {
                source,
                message,
                ..
            },
        ) => {
            let mut words = Notes::new(alloc);
            let shown = Part::Shown(text.message(source, pid, message));
            words.say_with("{}", &[shown])?;
            Ok(Some(Vec::from_slice(alloc, words.line(0).bytes)?))
        }
        _ => Ok(None),
    }
}

impl Outcome {
    /// What was said to this line of a session of this program.
    pub(crate) fn new(
        alloc: Global,
        text: &ProgramText,
        number: usize,
        line: &AnsweredLine<'_>,
    ) -> Result<Outcome, AllocError> {
        let told = line.told;
        let mut outcome = Outcome {
            number,
            line: Vec::from_slice(alloc, line.given.written)?,
            reply: Vec::from_slice(alloc, line.replies.shown)?,
            message: None,
            halted: None,
            is_refused: matches!(told, Told::Refused(_) | Told::Said(_, Said::Refused(_), _)),
        };
        if let Told::Said(_, Said::Accepted(accepted), _) = told {
            if let Done::Played(pid, _) = accepted.done {
                outcome.message = message_of(alloc, text, line.view, pid)?;
            }
            outcome.halted = accepted.halted;
        }
        Ok(outcome)
    }

    /// How this outcome differs from an earlier one of the same line, if it does.
    pub(crate) fn difference(&self, before: &Outcome) -> Option<&'static str> {
        match (before.is_refused, self.is_refused) {
            (false, true) => return Some("it is refused now"),
            (true, false) => return Some("it was refused, and now it is not"),
            (false, false) | (true, true) => {}
        }
        match (before.halted, self.halted) {
            (None, Some(_)) => return Some("the session halts here now"),
            (Some(_), None) => return Some("the session halted here, and now it does not"),
            (None, None) | (Some(_), Some(_)) => {}
        }
        if self.reply.as_slice() != before.reply.as_slice() {
            return Some("the reply is another one");
        }
        match (&before.message, &self.message) {
            (None, None) => None,
            (Some(message), Some(now)) if message.as_slice() == now.as_slice() => None,
            _ => Some("another message is received"),
        }
    }
}
