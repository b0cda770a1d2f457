//! The command that sets a breakpoint.

ghost use Rattle.std.specs.Prelude.{◌≡◌, ◌⊎◌, ◌<◌, ◌&&◌, Err, IfOk, IfErr, List, MatchOption, Some, None, [], drop, is_some, length, map};
ghost use Rattle.dbg_base.specs.declared.refusal.Refusal.TheVariants.{BadLine, Memory};
ghost use Rattle.dbg_base.specs.Calls.{conjunct_of};
ghost use Rattle.dbg_base.specs.CommandLines.{Part, closed_prefix, predicate_prefix, is_apart, with_part, parts_in, map_ok, named_process};
ghost use Rattle.dbg_base.specs.CommandLines.{name_word, next_word, after_word};
ghost use Rattle.dbg_base.specs.Requests.{ReadsParts};
ghost use Rattle.proc_tree.specs.Programs.{program_of};
ghost use Rattle.shell_parse.specs.Lines.{has_parts, has_part, ReadsNamed, IsBreakParsed};

use crate::words::{after_blanks, is_blank, name_word, named_process, next_word, word_length};
use dbg_base::{Call, Conjunct, Name, Pid, Plan, Refusal, Sequence};
use proc_lang::{ProgError, parse_predicate};
use proc_tree::Program;
use std::alloc::Global;

// The number of bytes up to the parenthesis that closes all open ones, or of all bytes if none closes them.
fn closed_length(bytes: &[u8]) -> usize
    ensures { result ≡ length (closed_prefix 0 bytes.now) }
{
    let mut rest = bytes;
    let mut depth = 0usize;
    let mut n = 0usize;
    while let [first, others @ ..] = rest {
        n += 1;
        if *first == b'(' {
            depth += 1;
        } else if *first == b')' {
            if depth <= 1 {
                return n;
            }
            depth -= 1;
        }
        rest = others;
    }
    n
}

// The length in bytes of the predicate text at the beginning.
fn predicate_length(bytes: &[u8]) -> usize
    ensures { result ≡ length (predicate_prefix bytes.now) }
{
    let [first, ..] = bytes else {
        return 0;
    };
    if *first == b'(' {
        return closed_length(bytes);
    }
    word_length(bytes)
}

// The predicate text at the beginning, and the bytes after it.
fn next_predicate(bytes: &[u8]) -> (&[u8], &[u8])
    ensures text { result.0.now ≡ predicate_prefix bytes.now }
    ensures rest { result.1.now ≡ drop (length (predicate_prefix bytes.now)) bytes.now }
{
    bytes.split_at(predicate_length(bytes))
}

// Whether the bytes are empty or begin with a blank.
pub(crate) fn is_apart(bytes: &[u8]) -> bool
    ensures { result ≡ is_apart bytes.now }
{
    match bytes {
        [] => true,
        [first, ..] => is_blank(*first),
    }
}

// The first part, a name and a predicate text, and the bytes after it, or None if no word is left.
fn next_part(bytes: &[u8]) -> Result<Option<((Name, &[u8]), &[u8])>, Refusal>
    ensures part { IfOk result (λ found. MatchOption found (parts_in bytes.now ≡ Some []) (λ part. (length part.1.now < length bytes.now)
        × (parts_in bytes.now ≡ with_part (part.0.0, part.0.1.now) (parts_in part.1.now)))) }
    ensures refuses { IfErr result (λ refusal. (refusal ≡ BadLine) × (parts_in bytes.now ≡ None)) }
{
    let (word, rest) = next_word(bytes);
    if word.is_empty() {
        return Ok(None);
    }
    let name = name_word(word).ok_or(Refusal::BadLine)?;
    let (text, rest) = next_predicate(after_blanks(rest));
    if text.is_empty() {
        return Err(Refusal::BadLine);
    }
    if !is_apart(rest) {
        return Err(Refusal::BadLine);
    }
    Ok(Some(((name, text), rest)))
}

// Whether all parts are well formed.
fn are_parts(bytes: &[u8]) -> bool
    ensures { result ≡ is_some (parts_in bytes.now) }
{
    let mut rest = bytes;
    loop {
        match next_part(rest) {
            Ok(Some((_, after))) => rest = after,
            Ok(None) => return true,
            Err(_) => return false,
        }
    }
}

// Whether there is at least one part, and all are well formed.
fn has_parts(bytes: &[u8]) -> bool
    ensures { result ≡ has_parts (parts_in bytes.now) }
{
    match next_part(bytes) {
        Ok(Some((_, after))) => are_parts(after),
        Ok(None) | Err(_) => false,
    }
}

/// Whether the bytes after the command word are a name and parts. It does not allocate.
pub(crate) fn is_break(bytes: &[u8]) -> bool
    ensures { result ≡ (is_some (name_word (next_word bytes.now)) && has_parts (parts_in (after_word bytes.now))) }
{
    let (word, rest) = next_word(bytes);
    name_word(word).is_some() && has_parts(rest)
}

// Whether one of these conjuncts is of the process.
fn has_part(made: &[Conjunct], pid: Pid) -> bool
    ensures { result ≡ has_part made.now pid.0 }
{
    made.iter().any(|conjunct| conjunct.pid == pid)
}

// Parses a part as a conjunct, after these.
fn read_part(
    alloc: Global,
    program: &Program,
    made: &[Conjunct],
    name: Name,
    text: &[u8],
) -> Result<Conjunct, Refusal>
    ensures { ReadsNamed (program_of program.now) (has_part made.now) (named_process (program_of program.now) name) text.now
        (map_ok conjunct_of result) ⊎ (result ≡ Err Memory) }
{
    let pid = named_process(program, name.bytes())?;
    let expr = match parse_predicate(alloc, program, pid, text) {
        Ok(expr) => expr,
        Err(ProgError::Bad(_)) => return Err(Refusal::BadPredicate),
        Err(ProgError::Memory) => return Err(Refusal::Memory),
    };
    if has_part(made, pid) {
        return Err(Refusal::BadPredicate);
    }
    Ok(Conjunct { pid, expr })
}

// Parses the parts as conjuncts; all parts must be well formed.
fn read_parts(alloc: Global, program: &Program, bytes: &[u8]) -> Result<Sequence<Conjunct>, Refusal>
    ensures { (parts : List Part) → parts_in bytes.now ≡ Some parts
        → ReadsParts (program_of program.now) [] parts (map_ok (map conjunct_of) result) ⊎ (result ≡ Err Memory) }
{
    let mut made = Vec::new(alloc);
    let mut rest = bytes;
    loop {
        match next_part(rest) {
            Ok(Some(((name, text), after))) => {
                match read_part(alloc, program, made.as_slice(), name, text) {
                    Ok(conjunct) => made.push(conjunct)?,
                    Err(refusal) => return Err(refusal),
                }
                rest = after;
            }
            Ok(None) => return Ok(Sequence::new(made)),
            Err(refusal) => return Err(refusal),
        }
    }
}

// Parses a command that sets a breakpoint, from the bytes after its command word: a name and parts.
pub(crate) fn parse_break(alloc: Global, program: &Program, bytes: &[u8]) -> Result<Call, Refusal>
    ensures { IsBreakParsed (program_of program.now) bytes.now result }
{
    let (word, rest) = next_word(bytes);
    let name = name_word(word).ok_or(Refusal::BadLine)?;
    if !has_parts(rest) {
        return Err(Refusal::BadLine);
    }
    let conjuncts = read_parts(alloc, program, rest)?;
    Ok(Call::Give(Plan::Break(name, conjuncts)))
}
