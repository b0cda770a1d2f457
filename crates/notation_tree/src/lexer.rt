//! From bytes to tokens.

ghost use Rattle.std.specs.Prelude.{◌≤◌, length};

use crate::fault::Problem;
use crate::token::{MARKS, Mark, SourceToken, SourceTokenKind, is_space, is_word_byte, part};
use dbg_base::limits::NAME_BYTES;
use std::alloc::{AllocError, Global};

// How many bytes at the start are blanks, line ends and comments.
fn gap_length(bytes: &[u8]) -> usize
    ensures { result ≤ length bytes.now }
{
    let mut in_comment = false;
    for (i, byte) in bytes.iter().enumerate() {
        if in_comment {
            in_comment = *byte != b'\n';
        } else if *byte == b'#' {
            in_comment = true;
        } else if !is_space(*byte) {
            return i;
        }
    }
    bytes.len()
}

// The number that these digits write, or None where it is above the largest.
fn number_value(digits: &[u8]) -> Option<i64> {
    str::from_utf8(digits).ok()?.parse::<i64>().ok()
}

// The mark at the start and how many bytes it has, or what is wrong there.
fn prefix_mark(bytes: &[u8]) -> (SourceTokenKind, usize) {
    for (text, mark) in &MARKS {
        if bytes.starts_with(text.as_bytes()) {
            return (SourceTokenKind::Mark(*mark), text.len());
        }
    }
    (SourceTokenKind::Wrong(Problem::Byte), 1)
}

// The word at the start.
fn prefix_word(bytes: &[u8]) -> (SourceTokenKind, usize) {
    let end = bytes.iter().position(|byte| !is_word_byte(*byte));
    let length = end.unwrap_or(bytes.len());
    if length > NAME_BYTES {
        return (SourceTokenKind::Wrong(Problem::LongWord), length);
    }
    (SourceTokenKind::Word, length)
}

// The number at the start.
fn prefix_number(bytes: &[u8]) -> (SourceTokenKind, usize) {
    let end = bytes.iter().position(|byte| !byte.is_ascii_digit());
    let length = end.unwrap_or(bytes.len());
    match number_value(part(bytes, 0, length)) {
        Some(value) => (SourceTokenKind::Number(value), length),
        None => (SourceTokenKind::Wrong(Problem::LargeNumber), length),
    }
}

// What is at the start, and how many bytes it has.
fn prefix(bytes: &[u8]) -> (SourceTokenKind, usize) {
    match bytes {
        [first, ..] if first.is_ascii_lowercase() => prefix_word(bytes),
        [first, ..] if first.is_ascii_digit() => prefix_number(bytes),
        _ => prefix_mark(bytes),
    }
}

// Whether a `.` at this offset is between a name and the name of a field.
fn is_before_field(text: &[u8], at: usize) -> bool {
    let before = text.get(at.wrapping_sub(1)).copied().unwrap_or(b' ');
    let after = text.get(at.saturating_add(1)).copied().unwrap_or(b' ');
    (is_word_byte(before) || before == b']' || before == b')') && after.is_ascii_lowercase()
}

// What a token at this offset is. A `.` is only a mark before the name of a field.
fn kind_at(text: &[u8], at: usize, kind: SourceTokenKind) -> SourceTokenKind {
    match kind {
        SourceTokenKind::Mark(Mark::Dot) if !is_before_field(text, at) => {
            SourceTokenKind::Wrong(Problem::Byte)
        }
        _ => kind,
    }
}

/// All tokens of a text, and `End` at the length of the text. What is no token is `Wrong`.
pub fn tokens(alloc: Global, text: &[u8]) -> Result<Vec<SourceToken>, AllocError> {
    let mut tokens = Vec::new(alloc);
    let mut rest = text;
    for _ in 0..text.len() {
        rest = &rest[gap_length(rest)..];
        if rest.is_empty() {
            break;
        }
        let at = text.len().saturating_sub(rest.len());
        let (kind, length) = prefix(rest);
        let kind = kind_at(text, at, kind);
        tokens.push(SourceToken { at, length, kind })?;
        rest = rest.get(length..).unwrap_or(&[]);
    }
    tokens.push(SourceToken {
        at: text.len(),
        length: 0,
        kind: SourceTokenKind::End,
    })?;
    Ok(tokens)
}

/// The first token that is wrong, and why.
pub fn first_wrong(tokens: &[SourceToken]) -> Option<(Problem, usize)> {
    for token in tokens {
        if let SourceTokenKind::Wrong(problem) = token.kind {
            return Some((problem, token.at));
        }
    }
    None
}

/// Whether tokens have a mark that the process language does not have.
pub fn has_notation(tokens: &[SourceToken]) -> bool {
    tokens.iter().any(|token| {
        matches!(
            token.kind,
            SourceTokenKind::Mark(Mark::OpenBracket | Mark::CloseBracket | Mark::Range | Mark::Dot)
        )
    })
}
