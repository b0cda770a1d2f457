//! The source of the lines of a session.

ghost use Rattle.std.specs.Prelude.{◌≡◌, ℕ, List, Option, Result, IfErr};
ghost use Rattle.std.specs.Option.{option_map};
ghost use Rattle.shell_io.specs.declared.health.Health.TheVariants.{Fine};
ghost use Rattle.shell_print.specs.Outcomes.{source_after};
ghost use Rattle.shell_print.specs.declared.outcome.ServeFault.{ServeFault};
ghost use Rattle.shell_print.specs.declared.outcome.ServeFault.TheVariants.{Read};
ghost use Rattle.shell_serve.specs.declared.framing.Span.{Span};
ghost use Rattle.shell_serve.specs.declared.framing.Next.{Next};
ghost use Rattle.shell_serve.specs.Spans.{EndsWith};
ghost use Rattle.shell_serve.specs.Answering.{is_end};
ghost use Rattle.shell_serve.specs.Sources.{Advances};
ghost use Rattle.shell_serve.specs.InputSteps.{InputGives, InputStops, InputHolds, input_left};

use crate::framing::{Input, Next, Span};
use shell_io::{GivenLine, Source};
use shell_print::ServeFault;

/// How a line was answered.
#[derive(Clone, Copy, PartialEq, Eq)]
pub enum Answer {
    /// It made no call, and was not refused: it is blank, or the session answered it itself.
    Nothing,
    /// It was refused, with or without a call.
    Refused,
    /// The command or query was accepted, and no breakpoint halts the session.
    Accepted,
    /// The command was accepted, and a breakpoint halts the session.
    Halted,
    /// The line ends the session.
    Ended,
}

impl Answer {
    /// Whether the line ends the session.
    pub(crate) fn is_end(self) -> bool
        ensures { result ≡ is_end self }
    {
        matches!(self, Answer::Ended)
    }
}

/// A source of lines, which reads them from a reader. It gets how the last line was answered, and gives the next one.
pub trait LineSource<R: Source, N> {
    // What the source and the reader need before a call.
    ghost Ready: { Self → R → Type 0 };

    // A call gave this line.
    ghost Gives: { Self → R → Option (List ℕ) → Self → R → Type 0 };

    // A call gave no line, and had this result.
    ghost Stops: { Self → R → Result Next ServeFault → Self → R → Type 0 };

    // A bound on the number of lines that it still gives.
    ghost left: { Self → ℕ };

    // This line is at these positions.
    ghost Holds: { Self → Span → Option (List ℕ) → Type 0 };

    /// Reads until there is a line, or returns why there is none. Error: `Read`, if the reader fails; the reader is not called again.
    fn advance(&mut self, reader: &mut R, last: Answer) -> Result<Next, ServeFault>
        requires { Ready self.old reader.old }
        ensures ready { Ready self.new reader.new }
        ensures advances { Advances Gives Stops Holds left self.old reader.old result self.new reader.new }
        ensures fault { IfErr result (λ fault. fault ≡ Read) }
        ensures reader { R.health reader.old ≡ Fine → R.health reader.new ≡ source_after result };

    /// The line that the last call of `advance` gave.
    fn line(&self, span: Span) -> GivenLine<'_, N>
        ensures { (line : Option (List ℕ)) → Holds self.now span line → option_map (λ bytes. bytes.now) result.played ≡ line };
}

impl<R: Source> LineSource<R, ()> for Input {
    ghost Ready = { λ input reader. EndsWith input.ended (R.remaining reader) };

    ghost Gives = { InputGives R.remaining };

    ghost Stops = { InputStops R.remaining };

    ghost left = { input_left };

    ghost Holds = { InputHolds };

    #[inline(always)]
    fn advance(&mut self, reader: &mut R, _last: Answer) -> Result<Next, ServeFault> {
        self.next_line(reader)
    }

    #[inline(always)]
    fn line(&self, span: Span) -> GivenLine<'_, ()> {
        let line = Input::line(self, span);
        GivenLine {
            written: line,
            played: Some(line),
            is_first: true,
            is_typed: false,
            note: &(),
        }
    }
}
