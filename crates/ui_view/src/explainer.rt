//! Explanations of a session.

use crate::counted::{CountedCommand, CountedCommands};
use crate::directive::Directive;
use dbg_base::{Call, Refusal, Said};
use dbg_command::SessionView;
use shell_io::GivenLine;
use std::alloc::{AllocError, Global};
use ui_text::Notes;

/// How a line is written before its reply.
#[derive(Clone, Copy, PartialEq, Eq)]
pub enum Echo {
    /// Not at all.
    Nothing,
    /// As it is.
    Line,
    /// After a blank line.
    Separated,
}

/// What was said to a line.
#[derive(Clone, Copy)]
pub enum Told<'a> {
    /// The answer to a call that was entered. If it is an accepted `back`, it took back this command, if that is known.
    Said(&'a Call, &'a Said, Option<CountedCommand<'a>>),
    /// The line is refused without a call.
    Refused(&'a Refusal),
}

/// The line of a reply without its line end, as it is shown and as a run writes it. Both are empty unless the explainer keeps replies.
#[derive(Clone, Copy)]
pub struct ReplyLines<'a> {
    pub shown: &'a [u8],
    pub plain: &'a [u8],
}

/// A line, and what was said to it.
#[derive(Drop)]
pub struct Answered<'a, N> {
    /// The session after the answer.
    pub view: SessionView<'a>,
    pub given: &'a GivenLine<'a, N>,
    pub told: Told<'a>,
    pub replies: ReplyLines<'a>,
}

impl<'a, N> Answered<'a, N> {
    /// This was said to a line.
    pub fn new(
        view: SessionView<'a>,
        given: &'a GivenLine<'a, N>,
        told: Told<'a>,
        replies: ReplyLines<'a>,
    ) -> Answered<'a, N> {
        Answered {
            view,
            given,
            told,
            replies,
        }
    }
}

/// Explains each line of a session, of which its source notes an `N`. It borrows the session, so it does not change it. The default methods
/// explain nothing. Errors: memory ran out.
pub trait Explainer<N> {
    /// Whether it needs the lines of the replies.
    fn keeps_replies(&self) -> bool {
        false
    }

    /// A line is about to be answered. Returns how the line is written before its reply.
    fn hear(&mut self, _line: &GivenLine<'_, N>) -> Result<Echo, AllocError> {
        Ok(Echo::Nothing)
    }

    /// A call is about to be made. Writes what has to be known before it into the explanation.
    fn prepare(&mut self, _view: SessionView<'_>, _call: &Call, _notes: &mut Notes) {}

    /// Writes the explanation of what was said to a line, after what was written before the call.
    fn explain(&mut self, _line: &Answered<'_, N>, _notes: &mut Notes) -> Result<(), AllocError> {
        Ok(())
    }

    /// Writes the answer to a directive, after these commands.
    fn answer_directive(
        &mut self,
        _view: SessionView<'_>,
        _commands: &CountedCommands,
        _directive: Directive<'_>,
        _notes: &mut Notes,
    ) {}

    /// The session is over.
    fn end(&mut self, _alloc: Global, _view: SessionView<'_>) -> Result<(), AllocError> {
        Ok(())
    }
}
