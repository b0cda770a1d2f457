//! Reports other than replies.

ghost use Rattle.std.specs.Prelude.{◌≡◌, ◌≤◌, ◌∷◌, ℕ, List, [], length, IfOk};
ghost use Rattle.shell_io.specs.Seen.{Seen};
ghost use Rattle.dbg_base.specs.Shell.{as_line, too_long_text, no_end_line_text, fault_text, size_text};
ghost use Rattle.shell_print.specs.Writing.{Writes, in_a_row};
ghost use Rattle.shell_print.specs.Pieces.{piece_words};
ghost use Rattle.proc_tree.specs.Programs.{program_of};
ghost use Rattle.shell_print.specs.Closings.{command_count, program_size_text, too_many_turns_text, settled_text, differs_text};
ghost use Rattle.dbg_base.specs.Replies.{joined};
ghost use Rattle.shell_print.specs.declared.outcome.Served.TheVariants.{Done, Refused, TooLong};

use crate::outcome::{ServeFault, Served};
use crate::parts::write_line;
use crate::pieces::{Item, Piece, Term};
use dbg_base::{Pid, ProgFault};
use proc_tree::Program;
use shell_io::{Sink, Style};

// Flushes the writer.
fn flush<W: Sink>(writer: &mut W) -> Result<(), ServeFault>
    ensures { Writes (W.seen writer.old) (W.seen writer.new) result [] }
{
    match writer.flush() {
        Ok(()) => Ok(()),
        Err(_) => Err(ServeFault::Write),
    }
}

/// Sets the style of the next bytes.
pub fn set_style<W: Sink>(style: Style, writer: &mut W) -> Result<(), ServeFault>
    ensures { Writes (W.seen writer.old) (W.seen writer.new) result [] }
{
    if !writer.shows_styles() {
        return Ok(());
    }
    match writer.set_style(style) {
        Ok(()) => Ok(()),
        Err(_) => Err(ServeFault::Write),
    }
}

/// Flushes the writer, if the text was written whole.
pub fn hand_on<W: Sink>(written: Result<(), ServeFault>, writer: &mut W) -> Result<(), ServeFault>
    ensures { (old : Seen) (text : List ℕ) → Writes old (W.seen writer.old) written text
        → Writes old (W.seen writer.new) result text }
{
    written?;
    flush(writer)
}

// Writes a line and flushes the writer. Then the run has this result.
fn tell<E: Copy, W: Sink>(
    first: &[u8],
    pieces: &[Piece<'_>],
    end: E,
    writer: &mut W,
) -> Result<E, ServeFault>
    requires { length first.now ≤ 40 }
    ensures written { Writes (W.seen writer.old) (W.seen writer.new) result
        (as_line (joined (first.now ∷ in_a_row piece_words pieces.now))) }
    ensures served { IfOk result (λ ended. ended ≡ end) }
{
    let written = write_line(first, pieces, writer);
    hand_on(written, writer)?;
    Ok(end)
}

/// Reports that the input is longer than its limit.
pub fn tell_too_long<W: Sink>(writer: &mut W) -> Result<Served, ServeFault>
    ensures written { Writes (W.seen writer.old) (W.seen writer.new) result too_long_text }
    ensures served { IfOk result (λ served. served ≡ TooLong) }
{
    tell(b"input too long", &[], Served::TooLong, writer)
}

/// Reports that no line ends the program text.
pub fn tell_no_end_line<W: Sink>(writer: &mut W) -> Result<Served, ServeFault>
    ensures written { Writes (W.seen writer.old) (W.seen writer.new) result no_end_line_text }
    ensures served { IfOk result (λ served. served ≡ Refused) }
{
    tell(
        b"program refused: no end line",
        &[],
        Served::Refused,
        writer,
    )
}

/// Reports a fault of the program text.
pub fn tell_fault<W: Sink>(fault: &ProgFault, writer: &mut W) -> Result<Served, ServeFault>
    ensures written { Writes (W.seen writer.old) (W.seen writer.new) result (fault_text fault.now) }
    ensures served { IfOk result (λ served. served ≡ Refused) }
{
    let kind = Piece::Item(Item::Count(fault.kind.number()));
    let at = Piece::Item(Item::Size(fault.at));
    let pieces = [kind, Piece::Item(Item::Term(Term::At)), at];
    tell(b"program refused", &pieces, Served::Refused, writer)
}

// The commands of all processes.
fn command_count(program: &Program) -> u32
    ensures { result ≡ command_count (program_of program.now) }
{
    let mut count = 0u32;
    for p in 0..program.processes() {
        count += program.commands(Pid(p));
    }
    count
}

fn tell_counts<W: Sink>(processes: u32, commands: u32, writer: &mut W) -> Result<Served, ServeFault>
    ensures written { Writes (W.seen writer.old) (W.seen writer.new) result (size_text processes commands) }
    ensures served { IfOk result (λ served. served ≡ Done) }
{
    let pieces = [
        Piece::Item(Item::Count(processes)),
        Piece::Item(Item::Term(Term::Processes)),
        Piece::Item(Item::Count(commands)),
        Piece::Item(Item::Term(Term::Commands)),
    ];
    tell(b"ok", &pieces, Served::Done, writer)
}

/// Reports how many processes and commands the program has.
pub fn tell_size<W: Sink>(program: &Program, writer: &mut W) -> Result<Served, ServeFault>
    ensures written { Writes (W.seen writer.old) (W.seen writer.new) result (program_size_text (program_of program.now)) }
    ensures served { IfOk result (λ served. served ≡ Done) }
{
    tell_counts(program.processes(), command_count(program), writer)
}

/// Reports that there would be more calls than a session can enter.
pub fn tell_too_many_turns<W: Sink>(writer: &mut W) -> Result<(), ServeFault>
    ensures { Writes (W.seen writer.old) (W.seen writer.new) result too_many_turns_text }
{
    tell(b"too many turns", &[], (), writer)
}

/// Reports that so many calls were entered, and that the journal agrees with the seats.
pub fn print_settled<W: Sink>(calls: usize, writer: &mut W) -> Result<(), ServeFault>
    ensures { Writes (W.seen writer.old) (W.seen writer.new) result (settled_text calls) }
{
    write_line(b"calls", &[Piece::Item(Item::Size(calls))], writer)?;
    write_line(b"journal ok", &[], writer)
}

/// Reports that the journal and the seats differ.
pub fn print_differs<W: Sink>(writer: &mut W) -> Result<(), ServeFault>
    ensures { Writes (W.seen writer.old) (W.seen writer.new) result differs_text }
{
    write_line(b"journal differs", &[], writer)
}
