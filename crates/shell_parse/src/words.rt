//! Words: the runs of bytes between blanks, and what they name.

ghost use Rattle.std.specs.Prelude.{◌≡◌, ◌<◌, ◌≤◌, ◌∷◌, [], not, length, MatchOption, IfOk, IfSome};
ghost use Rattle.std.specs.List.{list_all, prefix_len};
ghost use Rattle.std.specs.Option.{option_map};
ghost use Rattle.dbg_base.specs.declared.limits.TheConstants.{SEATS};
ghost use Rattle.dbg_base.specs.Tokens.{is_letter, is_word_byte};
ghost use Rattle.dbg_base.specs.CommandLines.{is_blank, words_of, without_blanks, next_word, after_word, number_word, seat_word, name_word};
ghost use Rattle.dbg_base.specs.CommandLines.{map_ok, named_process};
ghost use Rattle.proc_tree.specs.Programs.{program_of};
ghost use Rattle.shell_parse.specs.Words.{process_word};

use dbg_base::limits::{NAME_BYTES, SEATS};
use dbg_base::{Name, Pid, Refusal};
use proc_tree::Program;

pub(crate) fn is_blank(b: u8) -> bool
    ensures { result ≡ is_blank b }
{
    b == b' ' || b == b'\t'
}

// The bytes from the first nonblank one on.
pub(crate) fn after_blanks(bytes: &[u8]) -> &[u8]
    ensures { result.now ≡ without_blanks bytes.now }
{
    let mut rest = bytes;
    while let [first, others @ ..] = rest {
        if !is_blank(*first) {
            return rest;
        }
        rest = others;
    }
    rest
}

// The number of nonblank bytes at the beginning.
pub(crate) fn word_length(bytes: &[u8]) -> usize
    ensures { result ≡ prefix_len (λ b. not (is_blank b)) bytes.now }
{
    for (i, b) in bytes.iter().enumerate() {
        if is_blank(*b) {
            return i;
        }
    }
    bytes.len()
}

/// The first word, which is empty if there are only blanks, and the bytes after it. It does not allocate.
pub fn next_word(bytes: &[u8]) -> (&[u8], &[u8])
    ensures word { result.0.now ≡ next_word bytes.now }
    ensures rest { result.1.now ≡ after_word bytes.now }
{
    let begun = after_blanks(bytes);
    begun.split_at(word_length(begun))
}

// The first word and the bytes after it, or None if there are only blanks.
pub(crate) fn first_word(bytes: &[u8]) -> Option<(&[u8], &[u8])>
    ensures { MatchOption result (words_of bytes.now ≡ []) (λ found. words_of bytes.now ≡ found.0.now ∷ words_of found.1.now) }
{
    let (word, rest) = next_word(bytes);
    if word.is_empty() {
        return None;
    }
    Some((word, rest))
}

// A number of one to nine digits.
pub(crate) fn number_word(word: &[u8]) -> Option<u32>
    ensures { result ≡ number_word word.now }
{
    if word.is_empty() || word.len() > 9 {
        return None;
    }
    let mut number = 0u32;
    for b in word {
        if !b.is_ascii_digit() {
            return None;
        }
        number = number * 10 + u32::from(*b - b'0');
    }
    Some(number)
}

// A number from 1 to 16.
pub(crate) fn seat_word(word: &[u8]) -> Option<u32>
    ensures is { result ≡ seat_word word.now }
    ensures range { IfSome result (λ seat. (0 < seat) × (seat ≤ SEATS)) }
{
    match number_word(word) {
        Some(seat) if seat >= 1 && seat <= SEATS => Some(seat),
        _ => None,
    }
}

fn is_letter(b: u8) -> bool
    ensures { result ≡ is_letter b }
{
    b.is_ascii_lowercase()
}

fn is_word_byte(b: u8) -> bool
    ensures { result ≡ is_word_byte b }
{
    is_letter(b) || b.is_ascii_digit() || b == b'_'
}

fn are_word_bytes(bytes: &[u8]) -> bool
    ensures { result ≡ list_all is_word_byte bytes.now }
{
    bytes.iter().all(|b| is_word_byte(*b))
}

// The bytes of a name: a letter, and then letters, digits and `_`, at most 32 bytes.
pub(crate) fn name_bytes(word: &[u8]) -> Option<&[u8]>
    ensures { option_map (λ name. name.now) result ≡ name_word word.now }
{
    let (first, others) = word.split_first()?;
    if !is_letter(*first) || !are_word_bytes(others) || word.len() > NAME_BYTES {
        return None;
    }
    Some(word)
}

// A name.
pub(crate) fn name_word(word: &[u8]) -> Option<Name>
    ensures { result ≡ name_word word.now }
{
    Name::new(name_bytes(word)?)
}

// A process by its name.
#[inline(always)]
pub(crate) fn named_process(program: &Program, name: &[u8]) -> Result<Pid, Refusal>
    ensures place { map_ok (λ pid. pid.0) result ≡ named_process (program_of program.now) name.now }
    ensures known { IfOk result (λ pid. pid.0 < length (program_of program.now)) }
{
    match program.find_process_by(name) {
        Some(pid) => Ok(pid),
        None => Err(Refusal::UnknownProcess),
    }
}

// A process by the word that names it.
#[inline(always)]
pub(crate) fn process_word(program: &Program, word: &[u8]) -> Result<Pid, Refusal>
    ensures { map_ok (λ pid. pid.0) result ≡ process_word (program_of program.now) (name_word word.now) }
{
    match name_bytes(word) {
        Some(name) => named_process(program, name),
        None => Err(Refusal::BadLine),
    }
}
