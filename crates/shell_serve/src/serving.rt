//! A run: a program text, and the command lines after it.

ghost use Rattle.std.specs.Prelude.{◌≡◌, [], IfOk, IfErr, IfSome};
ghost use Rattle.shell_io.specs.declared.health.Health.TheVariants.{Fine};
ghost use Rattle.shell_io.specs.Seen.{Appended};
ghost use Rattle.shell_print.specs.Outcomes.{source_after, sink_after};
ghost use Rattle.shell_print.specs.declared.outcome.ServeFault.TheVariants.{Memory, Read, Write};
ghost use Rattle.shell_print.specs.declared.outcome.Served.{Served};
ghost use Rattle.shell_print.specs.declared.outcome.Served.TheVariants.{Refused};
ghost use Rattle.shell_serve.specs.ProgramTexts.{ReadsFew, ReadsProgram};
ghost use Rattle.shell_serve.specs.Written.{WritesSome, WritesPrefix};
ghost use Rattle.shell_serve.specs.Serving.{ServesInput, BreaksInput};

use crate::framing::Input;
use crate::program_text::{TextEnd, read_program_text};
use crate::reply_form::PlainReplies;
use crate::running::play;
use crate::silent::Silent;
use proc_lang::{ProgError, parse_program};
use shell_io::{Sink, Source};
use shell_print::{ServeFault, Served, tell_fault, tell_no_end_line, tell_too_long};
use std::alloc::Global;

/// Reads a program text up to a line `%%`. Then answers each command line after it, in order: a reply is written and flushed before the
/// next line is read. The lines are calls of one session. A batch of commands is accepted whole or not at all. `back` takes back the last
/// accepted command, for the seat that gave it. A text without the line `%%`, or one that is not a program, is refused, and nothing else is
/// written.
///
/// At most 1,048,577 bytes are read. If there are more than 1,048,576, the lines that end within those are answered, and then the run
/// reports that the input is too long. If the reader fails, all whole lines before the failure are answered. If the writer fails, a prefix
/// of the replies was written. Neither is tried again. If memory runs out before the first command line, nothing is written. If it runs out
/// later, the line is answered `no 21`, and changes nothing. After 100,000 calls were entered, each further one is answered `no 20`. When
/// the input ends, the memory of the session is left to the process, which ends with it.
pub fn serve<R: Source, W: Sink>(
    alloc: Global,
    reader: &mut R,
    writer: &mut W,
) -> Result<Served, ServeFault>
    // If the reader's bytes are known and the run ends well, its result and its output are those of the input.
    ensures served { IfOk result (λ served. IfSome (R.remaining reader.old)
        (λ input. WritesSome (W.seen writer.old) (W.seen writer.new) (ServesInput input served))) }
    // If the writer fails, a prefix of that output was written.
    ensures stopped { IfErr result (λ fault. fault ≡ Write → IfSome (R.remaining reader.old)
        (λ input. (served : Served) × WritesPrefix (W.seen writer.old) (W.seen writer.new) (ServesInput input served))) }
    // If the reader fails, the replies to the whole lines before the failure were written.
    ensures broken { IfErr result (λ fault. fault ≡ Read → IfSome (R.remaining reader.old)
        (λ input. BreaksInput input (R.remaining reader.new) (W.seen writer.old) (W.seen writer.new))) }
    // If memory runs out before the run begins, nothing is written, and no command line is read.
    ensures memory { IfErr result (λ fault. fault ≡ Memory → Appended (W.seen writer.old) (W.seen writer.new) []) }
    ensures begun { IfErr result (λ fault. fault ≡ Memory → IfSome (R.remaining reader.old)
        (λ input. ReadsProgram input (R.remaining reader.new))) }
    // If the program is refused, no command line is read either.
    ensures refused { IfOk result (λ served. served ≡ Refused → IfSome (R.remaining reader.old)
        (λ input. ReadsProgram input (R.remaining reader.new))) }
    // A failure of the reader or of the writer is reported exactly if there was one. There was only one then: nothing was tried again.
    ensures reader { R.health reader.old ≡ Fine → R.health reader.new ≡ source_after result }
    ensures writer { (W.seen writer.old).health ≡ Fine → (W.seen writer.new).health ≡ sink_after result }
    // However it ends, at most 1,048,577 bytes were read.
    ensures few { IfSome (R.remaining reader.old) (λ input. ReadsFew input (R.remaining reader.new)) }
{
    let mut input = Input::new(alloc)?;
    match read_program_text(&mut input, reader)? {
        TextEnd::Before(span) => {
            let text = input.before(span);
            match parse_program(alloc, text) {
                Ok(program) => play(
                    alloc,
                    &mut Silent,
                    &PlainReplies,
                    program,
                    &mut input,
                    reader,
                    writer,
                ),
                Err(ProgError::Bad(fault)) => tell_fault(&fault, writer),
                Err(ProgError::Memory) => Err(ServeFault::Memory),
            }
        }
        TextEnd::End => tell_no_end_line(writer),
        TextEnd::TooLong => tell_too_long(writer),
    }
}
