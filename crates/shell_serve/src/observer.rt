//! The observer of a session, who may write explanations.

ghost use Rattle.std.specs.Prelude.{◌≡◌};
ghost use Rattle.std.specs.Option.{option_map};
ghost use Rattle.proc_tree.specs.Programs.{program_of};
ghost use Rattle.shell_serve.specs.Replying.{FitsReply};
ghost use Rattle.shell_serve.specs.Sessions.{IsSeated, Manner, WritesForm};

use dbg_base::{Call, Refusal, Said};
use dbg_command::SessionView;
use shell_io::{GivenLine, Sink};
use shell_print::ServeFault;
use std::alloc::Global;

/// What a line is to a session.
#[derive(Clone, Copy)]
pub struct LineSort {
    /// Whether it is answered without a call.
    pub is_directive: bool,
    /// Whether it ends the session.
    pub ends: bool,
    /// Whether it is taken as one of the first seat.
    pub needs_seat: bool,
}

/// What was said to a line.
#[derive(Clone, Copy)]
pub enum LineReply<'a> {
    /// To a call, which was entered.
    Said(&'a Call, &'a Said),
    /// The line is refused, and no call was entered.
    Refused(&'a Refusal),
}

/// The observer of a session. It may write before a line is answered, after the reply, and for a line that makes no call. It borrows the
/// session, so it does not change it. Its output is of its manner.
pub trait Observer<N> {
    ghost manner: { Manner };

    /// What the line is.
    fn sort(&self, line: &[u8]) -> LineSort
        ensures directive { result.is_directive ≡ manner.is_directive line.now }
        ensures ends { result.ends ≡ manner.ends line.now }
        ensures seat { IsSeated result.needs_seat line.now (manner.seated line.now) };

    /// Whether replies are marked with their styles.
    fn marks_replies(&self) -> bool {
        false
    }

    /// Writes the output that comes before the answer to the line. Nothing that an observer writes has to be flushed.
    fn before<W: Sink>(
        &mut self,
        alloc: Global,
        line: &GivenLine<'_, N>,
        writer: &mut W,
    ) -> Result<(), ServeFault>
        ensures { WritesForm (manner.before (option_map (λ bytes. bytes.now) line.now.played)) (W.seen writer.old) result
            (W.seen writer.new) };

    /// Answers a directive.
    fn direct<W: Sink>(
        &mut self,
        alloc: Global,
        view: SessionView<'_>,
        line: &[u8],
        writer: &mut W,
    ) -> Result<(), ServeFault>
        ensures { WritesForm manner.explains (W.seen writer.old) result (W.seen writer.new) };

    /// A call is about to be made.
    fn prepare(&mut self, _alloc: Global, _view: SessionView<'_>, _call: &Call) {}

    /// Explains what was said to the line.
    fn explain<W: Sink>(
        &mut self,
        alloc: Global,
        view: SessionView<'_>,
        line: &GivenLine<'_, N>,
        reply: LineReply<'_>,
        writer: &mut W,
    ) -> Result<(), ServeFault>
        requires { FitsReply (program_of view.program.now) reply }
        ensures { WritesForm manner.explains (W.seen writer.old) result (W.seen writer.new) };

    /// The session is over.
    fn end(&mut self, _alloc: Global, _view: SessionView<'_>) {}
}
