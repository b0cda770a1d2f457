//! The check of a program text alone.

ghost use Rattle.std.specs.Prelude.{◌≡◌, ◌≢◌, [], IfOk, IfErr, IfSome};
ghost use Rattle.shell_io.specs.declared.health.Health.TheVariants.{Fine};
ghost use Rattle.shell_io.specs.Seen.{Appended};
ghost use Rattle.shell_print.specs.Outcomes.{source_after, sink_after};
ghost use Rattle.shell_print.specs.declared.outcome.ServeFault.TheVariants.{Write};
ghost use Rattle.shell_print.specs.declared.outcome.Served.{Served};
ghost use Rattle.shell_serve.specs.Written.{WritesSome, WritesPrefix};
ghost use Rattle.shell_serve.specs.ProgramTexts.{ReadsFew, ReadsProgram};
ghost use Rattle.dbg_shell.specs.Checking.{ChecksText, ChecksInput};

use proc_lang::{ProgError, parse_program};
use shell_io::{Sink, Source};
use shell_print::{ServeFault, Served, tell_fault, tell_size, tell_too_long};
use shell_serve::{Input, read_program_text, text_alone};
use std::alloc::Global;

fn check_text<W: Sink>(alloc: Global, text: &[u8], writer: &mut W) -> Result<Served, ServeFault>
    ensures checked { IfOk result (λ served. WritesSome (W.seen writer.old) (W.seen writer.new) (ChecksText text.now served)) }
    ensures stopped { IfErr result (λ fault. fault ≡ Write
        → (served : Served) × WritesPrefix (W.seen writer.old) (W.seen writer.new) (ChecksText text.now served)) }
    ensures silent { IfErr result (λ fault. fault ≢ Write → Appended (W.seen writer.old) (W.seen writer.new) []) }
    ensures reader { source_after result ≡ Fine }
    ensures writer { (W.seen writer.old).health ≡ Fine → (W.seen writer.new).health ≡ sink_after result }
{
    match parse_program(alloc, text) {
        Ok(program) => tell_size(&program, writer),
        Err(ProgError::Bad(fault)) => tell_fault(&fault, writer),
        Err(ProgError::Memory) => Err(ServeFault::Memory),
    }
}

/// Reads a program text up to a line `%%` or to the end of the input. Writes how many processes and commands the program has, or what is
/// wrong with it. It ignores bytes after the line `%%`. If the text does not end within 1,048,576 bytes, it reports that. If the reader
/// fails or memory runs out, it writes nothing.
pub fn check<R: Source, W: Sink>(
    alloc: Global,
    reader: &mut R,
    writer: &mut W,
) -> Result<Served, ServeFault>
    // If the reader's bytes are known, and the check ends well.
    ensures checked { IfOk result (λ served. IfSome (R.remaining reader.old)
        (λ input. WritesSome (W.seen writer.old) (W.seen writer.new) (ChecksInput input served))) }
    // If the writer fails, a prefix of that output was written.
    ensures stopped { IfErr result (λ fault. fault ≡ Write → IfSome (R.remaining reader.old)
        (λ input. (served : Served) × WritesPrefix (W.seen writer.old) (W.seen writer.new) (ChecksInput input served))) }
    // If the reader fails or memory runs out, nothing is written.
    ensures silent { IfErr result (λ fault. fault ≢ Write → Appended (W.seen writer.old) (W.seen writer.new) []) }
    // A failure of the reader or of the writer is reported exactly if there was one. There was only one then: nothing was tried again.
    ensures reader { R.health reader.old ≡ Fine → R.health reader.new ≡ source_after result }
    ensures writer { (W.seen writer.old).health ≡ Fine → (W.seen writer.new).health ≡ sink_after result }
    // However it ends, at most 1,048,577 bytes were read, and no more than the program text needs.
    ensures few { IfSome (R.remaining reader.old) (λ input. ReadsFew input (R.remaining reader.new)) }
    ensures program { IfSome (R.remaining reader.old) (λ input. ReadsProgram input (R.remaining reader.new)) }
{
    let mut input = Input::new(alloc)?;
    let end = read_program_text(&mut input, reader)?;
    match text_alone(&input, end) {
        Some(text) => check_text(alloc, text, writer),
        None => tell_too_long(writer),
    }
}
