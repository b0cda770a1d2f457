//! From a text to a program, or to a predicate of one process.

ghost use Rattle.std.specs.Prelude.{◌≡◌, ℕ, ◌<◌, length, map, IfOk};
ghost use Rattle.dbg_base.specs.Trees as tree;
ghost use Rattle.dbg_base.specs.Trees.{tree_of};
ghost use Rattle.dbg_base.specs.declared.fault.ProgFault.{ProgFault};
ghost use Rattle.dbg_base.specs.Grammar.{DerivesProgram, DerivesExpression};
ghost use Rattle.dbg_base.specs.Checks.{Reads, IsFault, ReadsPredicate, IsPredicateFault};
ghost use Rattle.proc_tree.specs.Programs.{program_of};
ghost use Rattle.proc_lang.specs.Scanning.{placed_of};
ghost use Rattle.proc_lang.specs.Writing.{phrase_of, processes_of};
ghost use Rattle.proc_lang.specs.Reading.{offset_of, IsStop};
ghost use Rattle.proc_lang.specs.Answering.{Writes, IfBad, Accepts, Refuses};

use crate::check::checked;
use crate::fault::ProgError;
use crate::lexer::tokens;
use crate::parser::{self, Stop};
use crate::predicate::predicate;
use crate::syntax::{Phrase, WrittenProcess};
use crate::token::Placed;
use dbg_base::{Expr, FaultKind, Pid, ProgFault};
use proc_tree::Program;
use std::alloc::Global;

// The offset of the token from which on so many are left, or the end of the text if none is left.
fn offset_of(tokens: &[Placed], left: usize, end: usize) -> usize
    ensures { result ≡ offset_of end left (map placed_of tokens.now) }
{
    match &tokens[tokens.len().saturating_sub(left)..] {
        [first, ..] => first.at,
        [] => end,
    }
}

// The error for these tokens, in a text that ends at this offset.
fn stopped(stop: Stop, tokens: &[Placed], end: usize) -> ProgError
    ensures { IsStop stop (map placed_of tokens.now) end result }
{
    match stop {
        Stop::Memory => ProgError::Memory,
        Stop::Unexpected { left } => ProgError::Bad(ProgFault {
            kind: FaultKind::Grammar,
            at: offset_of(tokens, left, end),
        }),
    }
}

// Parses a program text. The error is its first fault before the checks.
fn written_program(alloc: Global, text: &[u8]) -> Result<Vec<WrittenProcess>, ProgError>
    ensures written { IfOk result (λ written. Writes DerivesProgram text.now (processes_of written.items)) }
    ensures refused { IfBad result (IsFault text.now) }
{
    let tokens = tokens(alloc, text)?;
    match parser::program(alloc, tokens.as_slice()) {
        Ok(written) => Ok(written),
        Err(stop) => Err(stopped(stop, tokens.as_slice(), text.len())),
    }
}

// The program of the text, or its first fault.
fn read_program(alloc: Global, text: &[u8]) -> Result<Program, ProgError>
    ensures accepted { IfOk result (λ P. Reads text.now (program_of P)) }
    ensures refused { IfBad result (IsFault text.now) }
{
    let written = written_program(alloc, text)?;
    checked(alloc, written.as_slice())
}

// Parses the text of a predicate, of any process. The error is its first fault before the checks.
fn written_predicate(alloc: Global, text: &[u8]) -> Result<Phrase, ProgError>
    ensures written { IfOk result (λ written. Writes DerivesExpression text.now (phrase_of written)) }
    ensures refused { (P : tree.Program) (p : ℕ) → IfBad result (IsPredicateFault P p text.now) }
{
    let tokens = tokens(alloc, text)?;
    match parser::predicate(alloc, tokens.as_slice()) {
        Ok(written) => Ok(written),
        Err(stop) => Err(stopped(stop, tokens.as_slice(), text.len())),
    }
}

// The predicate of the text, or its first fault.
fn read_predicate(
    alloc: Global,
    program: &Program,
    pid: Pid,
    text: &[u8],
) -> Result<Expr, ProgError>
    requires { pid.0 < length (program_of program.now) }
    ensures accepted { IfOk result (λ expr. ReadsPredicate (program_of program.now) pid.0 text.now (tree_of expr)) }
    ensures refused { IfBad result (IsPredicateFault (program_of program.now) pid.0 text.now) }
{
    let written = written_predicate(alloc, text)?;
    predicate(alloc, program, pid, &written)
}

/// Reads the text of a program. It returns the program exactly if the text is one, and otherwise exactly its first fault. Faults of the
/// length come first, then those of the tokens, of the grammar, and of the checks, each from left to right, and at one offset the lowest
/// kind first. In either case it returns `ProgError::Memory` if an allocation fails.
pub fn parse_program(alloc: Global, text: &[u8]) -> Result<Program, ProgError>
    // A program that is returned is what the text reads as, and a fault that is returned is its first.
    ensures accepted { IfOk result (λ P. Reads text.now (program_of P)) }
    ensures refused { IfBad result (IsFault text.now) }
    // Conversely, what the text reads as is returned, and so is its first fault, unless an allocation failed.
    ensures accepts { (P : tree.Program) → Reads text.now P → Accepts program_of result P }
    ensures refuses { (fault : ProgFault) → IsFault text.now fault → Refuses result fault }
{
    read_program(alloc, text)
}

/// Reads the text of a predicate: one truth expression over the variables and the counts of a process of the program. Results and errors
/// are as for `parse_program`, with offsets in this text.
pub fn parse_predicate(
    alloc: Global,
    program: &Program,
    pid: Pid,
    text: &[u8],
) -> Result<Expr, ProgError>
    requires { pid.0 < length (program_of program.now) }
    ensures accepted { IfOk result (λ expr. ReadsPredicate (program_of program.now) pid.0 text.now (tree_of expr)) }
    ensures refused { IfBad result (IsPredicateFault (program_of program.now) pid.0 text.now) }
    ensures accepts { (expression : tree.Tree) → ReadsPredicate (program_of program.now) pid.0 text.now expression
        → Accepts tree_of result expression }
    ensures refuses { (fault : ProgFault) → IsPredicateFault (program_of program.now) pid.0 text.now fault → Refuses result fault }
{
    read_predicate(alloc, program, pid, text)
}
