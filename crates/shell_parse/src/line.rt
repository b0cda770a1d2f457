//! Parses command lines into calls.

ghost use Rattle.std.specs.Prelude.{◌≡◌, ◌<◌, ◌≤◌, ◌++◌, codes, Ok, Some, IfErr, IfOk, IfSome};
ghost use Rattle.dbg_base.specs.declared.limits.TheConstants.{SEATS};
ghost use Rattle.dbg_base.specs.CommandLines.{without_return};
ghost use Rattle.proc_tree.specs.Programs.{program_of};
ghost use Rattle.shell_parse.specs.Lines.{seat_line, requested, process_request, IsParsed, IsGivable, IsLineRefusal, IsLineGivable};
ghost use Rattle.shell_parse.specs.Words.{process_word_call};
ghost use Rattle.dbg_base.specs.Requests.{Asks, AsksCall};

use crate::batch_line::parse_command;
use crate::command::{ProcessWord, only_process};
use crate::words::{next_word, seat_word};
use dbg_base::limits::LINE_BYTES;
use dbg_base::{Call, Pid, Refusal};
use proc_tree::Program;
use std::alloc::Global;

/// What a command line asks for: a seat's call.
#[derive(Debug, Drop)]
pub struct Line {
    pub seat: u32,
    pub call: Call,
}

/// What a command line about a process asks for: its seat, its word and the process.
#[derive(Clone, Copy)]
pub struct ProcessLine {
    pub seat: u32,
    pub word: ProcessWord,
    pub process: Pid,
}

impl ProcessLine {
    /// The same with the call of the word. It does not allocate.
    #[inline(always)]
    pub fn line(self) -> Line
        ensures asks { requested result ≡ process_request self }
        ensures givable { IsGivable result.call }
    {
        let ProcessLine {
            seat,
            word,
            process,
        } = self;
        Line {
            seat,
            call: word.call(process),
        }
    }
}

/// The line without the carriage return at its end, if it has one.
pub fn without_return(line: &[u8]) -> &[u8]
    ensures { result.now ≡ without_return line.now }
{
    match line {
        [prefix @ .., last] if *last == b'\r' => prefix,
        _ => line,
    }
}

// The seat's line with this call, or why the call is refused.
#[inline(always)]
fn seat_line(seat: u32, call: Result<Call, Refusal>) -> Result<Option<Line>, Refusal>
    ensures { result ≡ seat_line seat call }
{
    match call {
        Ok(call) => Ok(Some(Line { seat, call })),
        Err(refusal) => Err(refusal),
    }
}

// The command about a process that these bytes are, after the seat. None says nothing of them.
#[inline(always)]
fn process_command(program: &Program, bytes: &[u8]) -> Option<(ProcessWord, Pid)>
    ensures { IfSome result (λ found. AsksCall (program_of program.now) bytes.now (Ok (process_word_call found.0 found.1.0))) }
{
    let (word, rest) = next_word(bytes);
    let word = ProcessWord::read(word)?;
    let process = only_process(program, rest)?;
    Some((word, process))
}

/// Parses a command line about a process, as most lines are. It gives what `parse_line` gives, in few bytes. None says nothing of the line:
/// `parse_line` tells what it asks for. It does not allocate.
pub fn parse_process_line(program: &Program, bytes: &[u8]) -> Option<ProcessLine>
    ensures asks { IfSome result (λ line. Asks (program_of program.now) bytes.now (Ok (Some (process_request line)))) }
    ensures seat { IfSome result (λ line. (0 < line.seat) × (line.seat ≤ SEATS)) }
{
    let (seat, command) = next_word(without_return(bytes));
    let seat = seat_word(seat)?;
    let (word, process) = process_command(program, command)?;
    if bytes.len() <= LINE_BYTES {
        Some(ProcessLine {
            seat,
            word,
            process,
        })
    } else {
        None
    }
}

/// Parses a command line into a seat and its call, or None for a blank line. The bytes are the line without its line end, and may have a
/// carriage return at their end. A batch has 1 to 32 commands, none of which is a batch. Errors: why the line is refused. `Memory` if an
/// allocation fails; only a line that sets a breakpoint or gives a batch allocates.
pub fn parse_line(alloc: Global, program: &Program, bytes: &[u8]) -> Result<Option<Line>, Refusal>
    ensures asks { IsParsed (program_of program.now) bytes.now result }
    ensures refuses { IfErr result (IsLineRefusal bytes.now) }
    ensures fits { IfOk result IsLineGivable }
    ensures seat { IfOk result (λ line. IfSome line (λ line. (0 < line.seat) × (line.seat ≤ SEATS))) }
{
    if bytes.len() > LINE_BYTES {
        return Err(Refusal::BadLine);
    }
    let (seat, rest) = next_word(without_return(bytes));
    if seat.is_empty() {
        return Ok(None);
    }
    let Some(seat) = seat_word(seat) else {
        return Err(Refusal::BadLine);
    };
    let (word, rest) = next_word(rest);
    seat_line(seat, parse_command(alloc, program, word, rest))
}

/// Parses a command line that names no seat: `parse_line` of the first seat, a blank and these bytes. Errors: as those of `parse_line`.
pub fn parse_seatless_line(
    alloc: Global,
    program: &Program,
    bytes: &[u8],
) -> Result<Option<Line>, Refusal>
    ensures asks { IsParsed (program_of program.now) (codes "1 " ++ bytes.now) result }
    ensures refuses { IfErr result (IsLineRefusal (codes "1 " ++ bytes.now)) }
    ensures fits { IfOk result IsLineGivable }
    ensures seat { IfOk result (λ line. IfSome line (λ line. (0 < line.seat) × (line.seat ≤ SEATS))) }
{
    // The seat and the blank after it are two more bytes of the line.
    if bytes.len() + 2 > LINE_BYTES {
        return Err(Refusal::BadLine);
    }
    let (word, rest) = next_word(without_return(bytes));
    seat_line(1, parse_command(alloc, program, word, rest))
}
