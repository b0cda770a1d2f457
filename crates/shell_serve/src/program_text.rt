//! The program text, which is the first part of the input.

ghost use Rattle.std.specs.Prelude.{◌≡◌, ◌≤◌, true, drop, length, None, IfOk, IfErr, OnErr};
ghost use Rattle.std.specs.Option.{option_map};
ghost use Rattle.dbg_base.specs.declared.limits.TheConstants.{INPUT_BYTES};
ghost use Rattle.dbg_base.specs.Shell.{is_end_line, lines_of, parts_of};
ghost use Rattle.shell_serve.specs.Spans.{EndsWith, ReadsOn};
ghost use Rattle.shell_serve.specs.ProgramTexts.{SplitsAny, ReadsText, IsTextAt};
ghost use Rattle.shell_serve.specs.declared.program_text.TextEnd.TheVariants.{End};
ghost use Rattle.shell_io.specs.declared.health.Health.TheVariants.{Fine};
ghost use Rattle.shell_print.specs.Outcomes.{source_after};
ghost use Rattle.shell_print.specs.declared.outcome.ServeFault.TheVariants.{Read};

use crate::framing::{Input, Next, Span};
use shell_io::Source;
use shell_parse::without_return;
use shell_print::ServeFault;

/// Where the program text ends.
#[derive(Clone, Copy, PartialEq, Eq)]
pub enum TextEnd {
    /// Before this line, the first that is `%%`.
    Before(Span),
    /// At the end of the input.
    End,
    /// Not within the limit of the input.
    TooLong,
}

/// Whether a line ends the program text.
pub fn is_end_line(line: &[u8]) -> bool
    ensures { result ≡ is_end_line line.now }
{
    without_return(line) == b"%%".as_slice()
}

/// Reads the program text.
#[tactic(auto, using(crate::proofs::ReadStepLemmas::reads_then))]
pub fn read_program_text<R: Source>(
    input: &mut Input,
    reader: &mut R,
) -> Result<TextEnd, ServeFault>
    requires { EndsWith input.old.ended (R.remaining reader.old) }
    ensures reads { ReadsOn input.old.bytes.items input.old.ended (R.remaining reader.old) input.new.bytes.items input.new.ended
        (R.remaining reader.new) }
    ensures stopped { IfOk result (λ end. end ≡ End → input.new.ended ≡ true) }
    ensures splits { IfOk result (SplitsAny input.new.bytes.items input.new.ended input.old.at input.new.at) }
    ensures none { OnErr result (parts_of (lines_of (drop input.old.at input.new.bytes.items)).whole ≡ None) }
    ensures few { OnErr result (length input.new.bytes.items ≤ INPUT_BYTES) }
    ensures needed { ReadsText input.old.bytes.items input.old.at input.new.bytes.items }
    ensures fault { IfErr result (λ fault. fault ≡ Read) }
    ensures reader { R.health reader.old ≡ Fine → R.health reader.new ≡ source_after result }
{
    loop {
        match input.next_line(reader)? {
            Next::Line(span) => {
                if is_end_line(input.line(span)) {
                    return Ok(TextEnd::Before(span));
                }
            }
            Next::End => return Ok(TextEnd::End),
            Next::TooLong => return Ok(TextEnd::TooLong),
        }
    }
}

/// The program text, for callers that ignore what follows it: it ends before this line, or at the end of the input. None if the input is
/// too long.
pub fn text_alone(input: &Input, end: TextEnd) -> Option<&[u8]>
    ensures { IsTextAt input.now.bytes.items end (option_map (λ text. text.now) result) }
{
    match end {
        TextEnd::Before(span) => Some(input.before(span)),
        TextEnd::End => Some(input.bytes()),
        TextEnd::TooLong => None,
    }
}
