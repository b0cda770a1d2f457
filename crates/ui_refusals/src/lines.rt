//! Why a command line is refused for its form, or for a name in it.

use crate::refusing::RefusingSession;
use dbg_base::limits::{LINE_BYTES, SEATS};
use dbg_base::{Name, Pid, Refusal};
use proc_tree::Program;
use std::alloc::{AllocError, Global};
use ui_text::{Notes, Part, is_directive_word, meaning, tell_near_word, tell_word};

fn is_blank(byte: u8) -> bool {
    byte == b' ' || byte == b'\t' || byte == b'\r'
}

/// The first word, which is empty if there are only blanks, and the bytes after it.
pub(crate) fn next_word(bytes: &[u8]) -> (&[u8], &[u8]) {
    let blanks = bytes.iter().take_while(|byte| is_blank(**byte)).count();
    let begun = bytes.get(blanks..).unwrap_or(&[]);
    let length = begun.iter().take_while(|byte| !is_blank(**byte)).count();
    match (begun.get(..length), begun.get(length..)) {
        (Some(word), Some(rest)) => (word, rest),
        _ => (&[], &[]),
    }
}

// The length of the expression in parentheses at the start: all bytes if no parenthesis closes it.
fn parenthesized_length(bytes: &[u8]) -> usize {
    let mut depth = 0usize;
    for (i, byte) in bytes.iter().enumerate() {
        match byte {
            b'(' => depth = depth.saturating_add(1),
            b')' => depth = depth.saturating_sub(1),
            _ => {}
        }
        if depth == 0 {
            return i.saturating_add(1);
        }
    }
    bytes.len()
}

/// The first expression, and the bytes after it.
pub(crate) fn next_expression(bytes: &[u8]) -> (&[u8], &[u8]) {
    let begun = bytes.trim_ascii_start();
    if begun.first() != Some(&b'(') {
        return next_word(begun);
    }
    let length = parenthesized_length(begun);
    match (begun.get(..length), begun.get(length..)) {
        (Some(expression), Some(rest)) => (expression, rest),
        _ => (&[], &[]),
    }
}

// Whether a word is the number of a seat.
fn is_seat(word: &[u8]) -> bool {
    let mut number = 0usize;
    for byte in word {
        if !byte.is_ascii_digit() {
            return false;
        }
        number = number
            .saturating_mul(10)
            .saturating_add(usize::from(byte.saturating_sub(b'0')));
    }
    1 <= number && number <= SEATS as usize
}

// The seat that a command line names, and the bytes after it. A line that does not begin with a digit names none.
fn named_seat(line: &[u8]) -> Option<(&[u8], &[u8])> {
    let (word, rest) = next_word(line);
    if word.first()?.is_ascii_digit() {
        Some((word, rest))
    } else {
        None
    }
}

// Whether bytes that are no blank are beside a `;`.
fn has_bare_separator(arguments: &[u8]) -> bool {
    let mut words = arguments.split(|byte| is_blank(*byte));
    words.any(|word| word.len() > 1 && word.contains(&b';'))
}

// What to write in place of a command with these arguments, if many try that.
fn usual_form(command: &[u8], arguments: &[u8]) -> Option<&'static str> {
    let is_short = next_word(next_word(arguments).1).0.is_empty();
    if command == b"batch".as_slice() && has_bare_separator(arguments) {
        Some("a blank is before and after each `;`: `batch next a ; next b`")
    } else if command == b"undo".as_slice() && !is_short {
        Some("`undo` takes back one event; `rollback P N` goes back to the first N events of P")
    } else if command == b"redo".as_slice() && !is_short {
        Some("`redo` makes one event again")
    } else if command == b"back".as_slice() {
        Some("`back` takes back one command")
    } else {
        None
    }
}

/// The process of this name.
pub(crate) fn process_named(program: &Program, word: &[u8]) -> Option<Pid> {
    program.find_process(Name::new(word)?)
}

impl RefusingSession<'_> {
    // Says which word is not the name of a process.
    fn tell_unknown(
        &self,
        notes: &mut Notes,
        command: &[u8],
        arguments: &[u8],
    ) -> Result<(), AllocError> {
        let mut rest = arguments;
        if command == b"break".as_slice() {
            rest = next_word(rest).1;
        }
        for _ in 0..512 {
            let (word, others) = next_word(rest);
            if word.is_empty() {
                return Ok(());
            }
            if process_named(self.view.session.program, word).is_none() {
                return self.view.tell_processes(notes, word);
            }
            rest = if command == b"break".as_slice() {
                next_expression(others).1
            } else {
                others
            };
        }
        Ok(())
    }

    // Says what is wrong with the form of a line.
    fn tell_form_of(
        &self,
        notes: &mut Notes,
        seat: &[u8],
        command: &[u8],
        arguments: &[u8],
    ) -> Result<(), AllocError> {
        if !is_seat(seat) {
            return notes.say_with(
                "`{}` is not a seat: seats are the numbers from 1 to 16",
                &[Part::Bytes(seat)],
            );
        }
        if is_directive_word(command) {
            return notes.say_with(
                "no seat is before `{}`: give it alone",
                &[Part::Bytes(command)],
            );
        }
        if command.is_empty() {
            return notes.say("a command is missing after the seat");
        }
        if command == b"for".as_slice() {
            return notes.say(
                "several `for` are side by side, before one colon: `for i: 1..2 for j: 1..2 where i != j : next p[i][j]`",
            );
        }
        if !tell_word(notes, command)? {
            return tell_near_word(notes, command);
        }
        if command == b"break".as_slice() {
            return self.tell_wrong_break(notes, arguments);
        }
        match usual_form(command, arguments) {
            Some(words) => notes.say(words),
            None => Ok(()),
        }
    }

    /// Says why a command line is refused of which no call was entered. A line that names no seat is one of the first seat.
    pub fn tell_bad_line(
        &self,
        notes: &mut Notes,
        line: &[u8],
        refusal: &Refusal,
    ) -> Result<(), Refusal> {
        notes.say(meaning(refusal.number()))?;
        let (seat, rest, length) = match named_seat(line) {
            Some((seat, rest)) => (seat, rest, line.len()),
            // The seat and a blank count.
            None => (b"1".as_slice(), line, line.len().saturating_add(2)),
        };
        if length > LINE_BYTES {
            return Ok(notes.say("a line has at most 1024 bytes")?);
        }
        let (command, arguments) = next_word(rest);
        match refusal {
            Refusal::JournalFull => self.tell_remedy(notes, refusal)?,
            Refusal::BadLine => self.tell_form_of(notes, seat, command, arguments)?,
            Refusal::UnknownProcess if command != b"batch".as_slice() => self.tell_unknown(
                notes, command, arguments,
            )?,
            Refusal::BadPredicate if command == b"break".as_slice() => {
                self.tell_conjuncts(notes, next_word(arguments).1)?;
            }
            _ => {}
        }
        Ok(())
    }
}
