//! How a run of workers ends, and its report.

ghost use Rattle.std.specs.Prelude.{◌≡◌, ◌↔◌, ◌*◌, ◌≤◌, ℕ, List, IsTrue, IfOk};
ghost use Rattle.dbg_base.specs.declared.limits.TheConstants.{CALLS};
ghost use Rattle.shell_io.specs.Seen.{Seen};
ghost use Rattle.shell_print.specs.Writing.{Writes};
ghost use Rattle.dbg_shell.specs.Crewing.{crew_status_of, closing_text, closing_end};

use dbg_base::limits::CALLS;
use dbg_desk::{Closing, Mismatch};
use shell_io::Sink;
use shell_print::{ServeFault, print_differs, print_settled};

/// How a run of workers ended if nothing failed.
#[derive(Clone, Copy, PartialEq, Eq)]
pub enum Crewed {
    /// All turns were given, and the journal has the same answers as the seats.
    Done,
    /// The program text was refused, and the fault was reported.
    Refused,
    /// The input was too long, and that was reported.
    TooLong,
    /// There would have been more calls than a session can enter, and that was reported.
    TooManyTurns,
    /// The journal and the seats have different answers, and that was reported.
    Differs,
}

/// The exit status: 0 done, 1 a fault of input or output or a journal that differs, 2 too many turns, 3 a refused program, 4 out of memory.
pub fn crew_status(outcome: &Result<Crewed, ServeFault>) -> u8
    ensures { result ≡ crew_status_of outcome.now }
{
    match outcome {
        Ok(Crewed::Done) => 0,
        Ok(Crewed::TooLong) | Ok(Crewed::Differs) => 1,
        Ok(Crewed::TooManyTurns) => 2,
        Ok(Crewed::Refused) => 3,
        Err(fault) => fault.status(),
    }
}

/// Whether a session can enter all calls if each of so many processes has so many turns. It does not allocate.
pub fn fits_turns(turns: u32, processes: u32) -> bool
    ensures { IsTrue result ↔ (turns * processes ≤ CALLS) }
{
    u64::from(turns) * u64::from(processes) <= CALLS as u64
}

/// Writes how many calls the journal has, or that it differs from the seats. It does not allocate. If the writer fails, it is not called
/// again, and a prefix of the text may be written.
pub fn print_closing<W: Sink>(
    closing: &Result<Closing, Mismatch>,
    writer: &mut W,
) -> Result<(), ServeFault>
    ensures { Writes (W.seen writer.old) (W.seen writer.new) result (closing_text closing.now) }
{
    match closing {
        Ok(closing) => print_settled(closing.calls, writer),
        Err(_) => print_differs(writer),
    }
}

/// How the run ends after this comparison of the journal.
pub(crate) fn closing_end(closing: &Result<Closing, Mismatch>) -> Crewed
    ensures { result ≡ closing_end closing.now }
{
    match closing {
        Ok(_) => Crewed::Done,
        Err(_) => Crewed::Differs,
    }
}

/// How the run ends after the last of its text, if that was written.
pub(crate) fn ends<T: Copy>(
    reported: Result<T, ServeFault>,
    end: Crewed,
) -> Result<Crewed, ServeFault>
    ensures written { (old new : Seen) (text : List ℕ) → Writes old new reported text → Writes old new result text }
    ensures end { IfOk result (λ ended. ended ≡ end) }
{
    reported?;
    Ok(end)
}
