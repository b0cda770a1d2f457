//! The words of a line as its author writes it.

ghost use Rattle.std.specs.Prelude.{◌≡◌, ◌==◌, ◌-◌, ◌++◌, ◌||◌, nat_lt, true, not, length, take, drop, IfOk, IfSome};
ghost use Rattle.std.specs.List.{list_all, list_any, prefix_len};
ghost use Rattle.std.specs.Str.{bytes_eq};
ghost use Rattle.dbg_base.specs.declared.limits.TheConstants.{LINE_BYTES};
ghost use Rattle.dbg_base.specs.Tokens.{is_digit, is_numeral, is_word_byte};
ghost use Rattle.dbg_base.specs.CommandLines.{without_return};
ghost use Rattle.ui_session.specs.Dialogues.{first_word, is_remark};
ghost use Rattle.std.specs.Option.{option_map};
ghost use Rattle.ui_repl.specs.Expected.{wanted_reply, trimmed_bytes};
ghost use Rattle.ui_repl.specs.PlainLines.{
  command_words,
  command_word,
  arguments,
  without_comment,
  number_of,
  times_of,
  times_after,
  repeated,
  is_kept,
  bare,
  completed_or,
  once,
  IsSeated,
  IsFrequent,
  IsCompleted,
  IsPlayed,
};

use dbg_base::limits::{CALLS, LINE_BYTES};
use shell_parse::{next_word, without_return};
use std::alloc::{AllocError, Global};
use ui_text::{is_whole_word, whole_word};

// The most digits of a number of times.
const DIGITS: usize = 6;

fn are_digits(bytes: &[u8]) -> bool
    ensures { result ≡ list_all is_digit bytes.now }
{
    bytes.iter().all(|byte| byte.is_ascii_digit())
}

// Whether a word can be a seat.
fn is_number(word: &[u8]) -> bool
    ensures { result ≡ is_numeral word.now }
{
    match word {
        [] => false,
        [first, others @ ..] => first.is_ascii_digit() && are_digits(others),
    }
}

// Whether this is the word of a command or of a query.
fn is_command(word: &[u8]) -> bool
    ensures { result ≡ list_any (bytes_eq word.now) command_words }
{
    word == b"step".as_slice()
        || word == b"next".as_slice()
        || word == b"undo".as_slice()
        || word == b"redo".as_slice()
        || word == b"rollback".as_slice()
        || word == b"break".as_slice()
        || word == b"goto".as_slice()
        || word == b"clear".as_slice()
        || word == b"pass".as_slice()
        || word == b"arm".as_slice()
        || word == b"batch".as_slice()
        || word == b"back".as_slice()
        || word == b"breaks".as_slice()
        || word == b"cut".as_slice()
        || word == b"why".as_slice()
        || word == b"vars".as_slice()
        || word == b"chan".as_slice()
        || word == b"clock".as_slice()
        || word == b"place".as_slice()
        || word == b"can".as_slice()
}

/// The words of a line.
#[derive(Clone, Copy)]
pub struct LineWords<'a> {
    first: &'a [u8],
    // That of the command, after the seat if the line has one, and what follows it.
    command: &'a [u8],
    arguments: &'a [u8],
}

impl<'a> LineWords<'a> {
    /// Those of this line.
    pub fn of(line: &'a [u8]) -> LineWords<'a>
        ensures first { result.first.now ≡ first_word line.now }
        ensures command { result.command.now ≡ command_word line.now }
        ensures arguments { result.arguments.now ≡ arguments line.now }
    {
        let (first, rest) = next_word(without_return(line));
        let (command, arguments) = if is_number(first) {
            next_word(rest)
        } else {
            (first, rest)
        };
        LineWords {
            first,
            command,
            arguments,
        }
    }

    /// Whether the line is blank, a comment or an expected reply.
    pub fn are_remark(&self) -> bool
        ensures { result ≡ is_remark self.now.first.now }
    {
        match self.first.first() {
            Some(byte) => *byte == b'#' || *byte == b'>',
            None => true,
        }
    }

    /// Whether the word of the command is not short.
    pub(crate) fn are_whole(&self) -> bool
        ensures { list_any (bytes_eq self.now.command.now) command_words ≡ true → result ≡ true }
    {
        is_command(self.command) || is_whole_word(self.command)
    }
}

// How many bytes are before the first one that is this mark.
fn length_before(line: &[u8], mark: u8) -> usize
    ensures { result ≡ prefix_len (λ byte. not (byte == mark)) line.now }
{
    for (place, byte) in line.iter().enumerate() {
        if *byte == mark {
            return place;
        }
    }
    line.len()
}

// The first bytes, so many.
fn first_bytes(bytes: &[u8], count: usize) -> &[u8]
    ensures { result.now ≡ take count bytes.now }
{
    bytes.get(..count).unwrap_or(bytes)
}

// The bytes after so many.
fn later_bytes(bytes: &[u8], count: usize) -> &[u8]
    ensures { result.now ≡ drop count bytes.now }
{
    bytes.get(count..).unwrap_or(&[])
}

/// The line without the comment at its end.
pub(crate) fn without_comment(line: &[u8]) -> &[u8]
    ensures { result.now ≡ without_comment line.now }
{
    let length = length_before(line, b'#');
    if length < line.len() {
        line[..length].trim_ascii_end()
    } else {
        line
    }
}

/// Whether the line is played as it is: it has too many bytes, or is blank, a comment or an expected reply.
fn is_kept(line: &[u8]) -> bool
    ensures { result ≡ is_kept line.now }
{
    line.len() > LINE_BYTES || LineWords::of(line).are_remark()
}

/// The part of a line that is played: the line without its comment.
pub(crate) fn bare(line: &[u8]) -> &[u8]
    ensures { result.now ≡ bare line.now }
{
    if is_kept(line) {
        line
    } else {
        without_comment(line)
    }
}

// The line after a seat of one digit and a blank, if it begins so.
fn after_seat(line: &[u8]) -> &[u8]
    ensures { IsSeated line.now result.now }
{
    match line {
        [seat, blank, command @ ..] if seat.is_ascii_digit() && *blank == b' ' => command,
        _ => line,
    }
}

// What follows these bytes, if the line begins with them.
fn after_prefix<'a>(line: &'a [u8], prefix: &[u8]) -> Option<&'a [u8]>
    ensures { IfSome result (λ rest. line.now ≡ prefix.now ++ rest.now) }
{
    line.strip_prefix(prefix)
}

// The bytes after one of the commands that are most of a session.
fn after_command(line: &[u8]) -> Option<&[u8]>
    ensures { IfSome result (λ name. IsFrequent line.now name.now) }
{
    match after_prefix(line, b"next ") {
        Some(name) => Some(name),
        None => match after_prefix(line, b"undo ") {
            Some(name) => Some(name),
            None => after_prefix(line, b"redo "),
        },
    }
}

/// Whether a line is plain at a glance, as most are: a seat of one digit or none, one of these commands, and the name of a process.
pub(crate) fn is_plain(line: &[u8]) -> bool
    ensures { result ≡ true → IsPlayed line.now (once line.now) }
{
    match after_command(after_seat(line)) {
        Some(name) => are_word_bytes(name),
        None => false,
    }
}

/// Whether a line begins with `for`, after a seat if it has one.
pub(crate) fn is_for(line: &[u8]) -> bool {
    next_word(without_seat(line)).0 == b"for".as_slice()
}

/// The line without its seat.
pub(crate) fn without_seat(line: &[u8]) -> &[u8] {
    let (first, rest) = next_word(line);
    if is_number(first) { rest } else { line }
}

fn is_word_byte(byte: u8) -> bool
    ensures { result ≡ is_word_byte byte }
{
    byte.is_ascii_lowercase() || byte.is_ascii_digit() || byte == b'_'
}

fn are_word_bytes(bytes: &[u8]) -> bool
    ensures { result ≡ list_all is_word_byte bytes.now }
{
    bytes.iter().all(|byte| is_word_byte(*byte))
}

/// Whether a line, of which this part is played, is played as it is.
pub(crate) fn is_single(line: &[u8], bare: &[u8]) -> bool
    ensures { result ≡ (nat_lt LINE_BYTES (length line.now) || is_remark (first_word bare.now)) }
{
    line.len() > LINE_BYTES || LineWords::of(bare).are_remark()
}

// How many words there are. Blanks in brackets or parentheses separate no words.
fn count_words(bytes: &[u8]) -> usize {
    let mut count = 0usize;
    let mut depth = 0usize;
    let mut is_in_word = false;
    for byte in bytes {
        if byte.is_ascii_whitespace() && depth == 0 {
            is_in_word = false;
            continue;
        }
        if !is_in_word {
            count = count.saturating_add(1);
        }
        is_in_word = true;
        match byte {
            b'(' | b'[' => depth = depth.saturating_add(1),
            b')' | b']' => depth = depth.saturating_sub(1),
            _ => {}
        }
    }
    count
}

// The line with this word in place of that of its command, whose words follow so many bytes.
fn with_command(
    alloc: Global,
    line: &[u8],
    words: &LineWords<'_>,
    word: &[u8],
) -> Result<Vec<u8>, AllocError>
    ensures { IfOk result (λ made. made.items ≡ (let end = length (without_return line.now) - length words.now.arguments.now in
        take (end - length words.now.command.now) line.now ++ word.now ++ drop end line.now)) }
{
    let end = without_return(line)
        .len()
        .saturating_sub(words.arguments.len());
    let begin = end.saturating_sub(words.command.len());
    let mut text = Vec::from_slice(alloc, first_bytes(line, begin))?;
    text.extend_from_slice(word)?;
    text.extend_from_slice(later_bytes(line, end))?;
    Ok(text)
}

/// The line, which has no comment, with its command word completed, if that is the start of exactly one that fits. The command follows so many
/// bytes. None if the line stays as it is.
pub(crate) fn completed(
    alloc: Global,
    line: &[u8],
    head: usize,
) -> Result<Option<Vec<u8>>, AllocError>
    ensures { IfOk result (λ made. IsCompleted head line.now (completed_or line.now made)) }
{
    let words = LineWords::of(later_bytes(line, head));
    if words.are_whole() {
        return Ok(None);
    }
    let Some(whole) = whole_word(words.command, count_words(words.arguments)) else {
        return Ok(None);
    };
    let longer = whole.as_bytes();
    if !longer.starts_with(words.command) {
        return Ok(None);
    }
    Ok(Some(with_command(alloc, line, &words, longer)?))
}

// The bytes after the first `>`, without the blanks around them.
fn after_mark(line: &[u8]) -> &[u8]
    ensures { result.now ≡ trimmed_bytes (drop 1 (drop (prefix_len (λ byte. not (byte == 62)) line.now) line.now)) }
{
    let marked = later_bytes(line, length_before(line, b'>'));
    later_bytes(marked, 1).trim_ascii()
}

/// The expected reply that this line gives, if it gives one.
pub fn wanted(line: &[u8]) -> Option<&[u8]>
    ensures { option_map (λ text. text.now) result ≡ wanted_reply line.now }
{
    match LineWords::of(line).first {
        [b'>', ..] => Some(after_mark(line)),
        _ => None,
    }
}

// A number of one to six digits.
fn number_of(word: &[u8]) -> Option<u32>
    ensures { result ≡ number_of word.now }
{
    if word.is_empty() || word.len() > DIGITS {
        return None;
    }
    let mut number = 0u32;
    for b in word {
        if !b.is_ascii_digit() {
            return None;
        }
        number = number * 10 + u32::from(*b - b'0');
    }
    Some(number)
}

// The number of times that a word gives: from 1 to the most calls that a session has.
fn times_of(word: &[u8]) -> Option<u32>
    ensures { result ≡ times_of word.now }
{
    match number_of(word) {
        Some(times) if times >= 1 && times as usize <= CALLS => Some(times),
        _ => None,
    }
}

// The number of times after a process, if nothing follows it.
fn times_after(arguments: &[u8]) -> Option<u32>
    ensures { result ≡ times_after arguments.now }
{
    let (process, others) = next_word(arguments);
    let (count, rest) = next_word(others);
    if process.is_empty() || !next_word(rest).0.is_empty() {
        return None;
    }
    times_of(count)
}

/// Of a plain line `next P N`, the line without N, and how often it is played again: N - 1. Of another line, the line, and 0.
pub(crate) fn repeated(line: &[u8]) -> (&[u8], u32)
    ensures text { result.0.now ≡ (repeated line.now).text }
    ensures again { result.1 ≡ (repeated line.now).again }
{
    let words = LineWords::of(line);
    if line.len() > LINE_BYTES || words.command != b"next".as_slice() {
        return (line, 0);
    }
    let Some(times) = times_after(words.arguments) else {
        return (line, 0);
    };
    let others = next_word(words.arguments).1;
    let length = without_return(line).len().saturating_sub(others.len());
    (first_bytes(line, length), times.saturating_sub(1))
}
