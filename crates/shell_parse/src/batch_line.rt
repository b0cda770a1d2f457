//! Batches: commands with the word `;` between neighbours. Which commands a line may give.

ghost use Rattle.std.specs.Prelude.{◌≡◌, ◌⊎◌, ◌<◌, ◌+◌, ℕ, List, ◌∷◌, [], Err, IfOk, IsTrue, MatchOption, drop, length, take};
ghost use Rattle.std.specs.List.{list_all};
ghost use Rattle.dbg_base.specs.declared.refusal.Refusal.TheVariants.{Memory};
ghost use Rattle.dbg_base.specs.CommandLines.{map_ok, is_separator, parentheses_after, spot_after, sets_break, commands_of, next_word, after_word};
ghost use Rattle.proc_tree.specs.Programs.{program_of};
ghost use Rattle.shell_parse.specs.Lines.{depth_of, spot_of, has_shape, are_commands, IsMember, AreRead, IsBatchParsed, IsCommandParsed, IsGivable};

use crate::break_line::{is_apart, parse_break};
use crate::command::{has_shape, parse_one, parse_words};
use crate::words::{is_blank, next_word};
use dbg_base::limits::BATCH;
use dbg_base::{Call, Plan, Refusal};
use proc_tree::Program;
use std::alloc::Global;

// Where a byte of a command is: between words, within a word, or within so many open parentheses.
#[derive(Clone, Copy)]
enum Spot {
    Between,
    InWord,
    InParentheses(usize),
}

// The spot after a byte within so many open parentheses.
fn parentheses_after(depth: usize, byte: u8) -> Spot
    requires { depth < 9223372036854775808 }
    ensures { spot_of result ≡ parentheses_after depth byte }
{
    match byte {
        b'(' => Spot::InParentheses(depth + 1),
        b')' if depth <= 1 => Spot::InWord,
        b')' => Spot::InParentheses(depth - 1),
        _ => Spot::InParentheses(depth),
    }
}

// The spot after a byte; in some commands parentheses group.
fn spot_after(grouped: bool, spot: Spot, byte: u8) -> Spot
    requires { depth_of (spot_of spot) < 9223372036854775808 }
    ensures { spot_of result ≡ spot_after grouped (spot_of spot) byte }
{
    match spot {
        Spot::InParentheses(depth) => parentheses_after(depth, byte),
        _ if is_blank(byte) => Spot::Between,
        Spot::Between if grouped && byte == b'(' => Spot::InParentheses(1),
        _ => Spot::InWord,
    }
}

// Whether the byte is the word `;`, if these bytes follow it.
fn is_separator(spot: Spot, byte: u8, bytes: &[u8]) -> bool
    ensures { result ≡ is_separator (spot_of spot) byte bytes.now }
{
    matches!(spot, Spot::Between) && byte == b';' && is_apart(bytes)
}

// Whether the command sets a breakpoint; in such a command parentheses group.
fn sets_break(bytes: &[u8]) -> bool
    ensures { result ≡ sets_break bytes.now }
{
    let (word, _) = next_word(bytes);
    word == b"break".as_slice()
}

// The number of bytes before the first separator, or None if there is none.
fn separator(bytes: &[u8]) -> Option<usize>
    ensures { MatchOption result (commands_of bytes.now ≡ bytes.now ∷ [])
        (λ n. (n < length bytes.now) × (commands_of bytes.now ≡ take n bytes.now ∷ commands_of (drop (n + 1) bytes.now))) }
{
    let grouped = sets_break(bytes);
    let mut spot = Spot::Between;
    for (n, byte) in bytes.iter().enumerate() {
        if is_separator(spot, *byte, &bytes[n + 1..]) {
            return Some(n);
        }
        spot = spot_after(grouped, spot, *byte);
    }
    None
}

// The first command, and the bytes after its separator, if it has one.
fn next_command(bytes: &[u8]) -> (&[u8], Option<&[u8]>)
    ensures { MatchOption result.1 (commands_of bytes.now ≡ result.0.now ∷ [])
        (λ rest. (length rest.now < length bytes.now) × (commands_of bytes.now ≡ result.0.now ∷ commands_of rest.now)) }
{
    match separator(bytes) {
        Some(n) => (&bytes[..n], Some(&bytes[n + 1..])),
        None => (bytes, None),
    }
}

// Whether these are at most 32 commands, and each has the shape of a command.
fn are_commands(program: &Program, bytes: &[u8]) -> bool
    ensures { result ≡ are_commands (program_of program.now) bytes.now }
{
    let mut rest = bytes;
    let mut count = 0usize;
    loop {
        let (command, after) = next_command(rest);
        count += 1;
        if count > BATCH || !has_shape(program, command) {
            return false;
        }
        match after {
            Some(others) => rest = others,
            None => return true,
        }
    }
}

// Parses a command of a batch, which must have the shape of a command.
fn read_command(alloc: Global, program: &Program, bytes: &[u8]) -> Result<Plan, Refusal>
    requires { IsTrue (has_shape (program_of program.now) bytes.now) }
    ensures { IsMember (program_of program.now) bytes.now result ⊎ (result ≡ Err Memory) }
{
    match parse_one(alloc, program, bytes)? {
        Call::Give(plan) => Ok(plan),
        Call::Back | Call::Ask(_) => Err(Refusal::BadLine),
    }
}

// Parses the commands of a batch, which must have the shape of commands. The error is the first refusal.
fn read_commands(alloc: Global, program: &Program, bytes: &[u8]) -> Result<Vec<Plan>, Refusal>
    requires { IsTrue (list_all (has_shape (program_of program.now)) (commands_of bytes.now)) }
    ensures { AreRead (program_of program.now) (commands_of bytes.now) (map_ok (λ made. made.items) result) ⊎ (result ≡ Err Memory) }
{
    let mut plans = Vec::new(alloc);
    let mut rest = bytes;
    loop {
        let (command, after) = next_command(rest);
        match read_command(alloc, program, command) {
            Ok(plan) => plans.push(plan)?,
            Err(refusal) => return Err(refusal),
        }
        match after {
            Some(others) => rest = others,
            None => return Ok(plans),
        }
    }
}

// Parses a batch, from the bytes after its command word.
#[inline(never)]
fn parse_batch(alloc: Global, program: &Program, bytes: &[u8]) -> Result<Call, Refusal>
    ensures asks { IsBatchParsed (program_of program.now) bytes.now result }
    ensures fits { IfOk result IsGivable }
{
    if !are_commands(program, bytes) {
        return Err(Refusal::BadLine);
    }
    let plans = read_commands(alloc, program, bytes)?;
    Ok(Call::Give(Plan::Batch(plans)))
}

/// Parses a command, a line without its seat, from its command word and the bytes after the word.
pub(crate) fn parse_command(
    alloc: Global,
    program: &Program,
    word: &[u8],
    rest: &[u8],
) -> Result<Call, Refusal>
    ensures { (bytes : List ℕ) → next_word bytes ≡ word.now → after_word bytes ≡ rest.now
        → IsCommandParsed (program_of program.now) bytes result × IfOk result IsGivable }
{
    if word == b"batch".as_slice() {
        return parse_batch(alloc, program, rest);
    }
    if word == b"break".as_slice() {
        return parse_break(alloc, program, rest);
    }
    parse_words(program, word, rest)
}
