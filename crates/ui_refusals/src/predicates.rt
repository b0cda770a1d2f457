//! What is wrong with the predicates of a line that sets a breakpoint.

use crate::lines::{next_expression, next_word, process_named};
use crate::refusing::RefusingSession;
use dbg_base::limits::{NAME_BYTES, PROCESSES};
use dbg_base::{FaultKind, Pid, Refusal};
use proc_lang::{ProgError, ProgFault, parse_predicate};
use proc_tree::Program;
use std::alloc::{AllocError, Global};
use ui_text::{Notes, Part, foreign_correction, is_word_byte, say_mark, tell_mark};

// A line has at most this many parts.
const PARTS: usize = 512;

// Whether a word can be a name.
fn is_name(word: &[u8]) -> bool {
    let begins = word.first().is_some_and(|byte| byte.is_ascii_lowercase());
    begins && word.len() <= NAME_BYTES && word.iter().all(|byte| is_word_byte(*byte))
}

// The word at the start.
fn first_word(bytes: &[u8]) -> &[u8] {
    let length = bytes.iter().take_while(|byte| is_word_byte(**byte)).count();
    bytes.get(..length).unwrap_or(bytes)
}

// The process that has a variable of this name.
fn owner_of(program: &Program, word: &[u8]) -> Option<Pid> {
    for p in 0..program.processes() {
        for variable in 0..program.variables(Pid(p)) {
            match program.variable_name(Pid(p), variable) {
                Some(name) if name.bytes() == word => return Some(Pid(p)),
                _ => {}
            }
        }
    }
    None
}

// How many parentheses are open after these bytes.
fn open_parentheses(bytes: &[u8]) -> usize {
    let mut depth = 0usize;
    for byte in bytes {
        match byte {
            b'(' => depth = depth.saturating_add(1),
            b')' => depth = depth.saturating_sub(1),
            _ => {}
        }
    }
    depth
}

// The sign of a comparison at the start.
fn is_comparison(at: &[u8]) -> bool {
    matches!(at.first(), Some(b'<' | b'>' | b'=')) || at.starts_with(b"!=")
}

// Whether there is a comparison after the last parenthesis that these bytes open.
fn is_compared(bytes: &[u8]) -> bool {
    let mut is_compared = false;
    for byte in bytes {
        match byte {
            b'(' => is_compared = false,
            b'<' | b'>' | b'=' => is_compared = true,
            _ => {}
        }
    }
    is_compared
}

// What to write where something else is expected at this offset of a predicate.
fn grammar_correction(program: &Program, text: &[u8], at: usize) -> Option<&'static str> {
    if let Some(correction) = foreign_correction(text, at) {
        return Some(correction);
    }
    let rest = text.get(at..).unwrap_or(&[]);
    let word = first_word(rest);
    if rest.starts_with(b":=") {
        return Some("to compare two values, write `=`");
    }
    if word == b"and".as_slice() || word == b"or".as_slice() {
        return Some("each operator has its own parentheses: `((x = 1) and (y = 2))`");
    }
    let is_open = open_parentheses(text) > 0;
    if is_open && (rest.is_empty() || process_named(program, word).is_some()) {
        return Some("a `)` is missing");
    }
    if is_comparison(rest) && is_compared(text.get(..at).unwrap_or(text)) {
        return Some("a comparison has two sides, in parentheses: `((0 < x) and (x < 3))`");
    }
    if is_comparison(rest) || matches!(rest.first(), Some(b'+' | b'-' | b'*' | b'/' | b'%')) {
        return Some("each operator has its own parentheses: `((x + y) = 2)`");
    }
    None
}

// What is wrong with the words after `break`, and how many of their bytes are from there to the end.
#[derive(Clone, Copy)]
struct WrongBreak {
    why: &'static str,
    left: usize,
}

impl WrongBreak {
    // Something that is wrong with the first word of these bytes, which end the line.
    fn at(why: &'static str, rest: &[u8]) -> WrongBreak {
        let left = rest.trim_ascii_start().len();
        WrongBreak { why, left }
    }
}

// What is wrong with the bytes directly after a predicate.
fn wrong_end(rest: &[u8]) -> Option<&'static str> {
    match rest.first() {
        Some(b')') => Some("there is a `)` too many"),
        Some(b',') => Some("a blank is between the parts, and no comma"),
        None | Some(b' ' | b'\t') => None,
        Some(_) => Some("a blank is missing after the predicate, or parentheses around it"),
    }
}

impl RefusingSession<'_> {
    // Shows the variables of a process.
    fn tell_variables(&self, notes: &mut Notes, pid: Pid) -> Result<(), AllocError> {
        let scope = self.view.scope(pid);
        let count = self.view.session.program.variables(pid);
        notes.say_with("{}", &[scope.name()])?;
        let mut word = match count {
            0 => return notes.add(" has no variable"),
            1 => " has the variable ",
            _ => " has the variables ",
        };
        for variable in 0..count {
            notes.add_with("{}{}", &[Part::Text(word), scope.variable(variable)])?;
            word = ", ";
        }
        Ok(())
    }

    // Says whose variable it is, and where its part goes.
    fn put_owner(&self, notes: &mut Notes, owner: Pid) -> Result<(), AllocError> {
        notes.add_with(
            "{}: what it must be is in a part of its own, `{} (..)`",
            &[self.view.scope(owner).name(), self.view.scope(owner).name()],
        )
    }

    // Says that a process has no variable of this name, and which process has one.
    fn tell_unknown_name(
        &self,
        notes: &mut Notes,
        pid: Pid,
        word: &[u8],
    ) -> Result<(), AllocError> {
        if let Some(owner) = owner_of(self.view.session.program, word) {
            notes.say_with("`{}` is a variable of ", &[Part::Bytes(word)])?;
            return self.put_owner(notes, owner);
        }
        self.tell_variables(notes, pid)
    }

    // Says what is wrong with the predicate of a process, with a mark under the place, and what to write.
    fn tell_fault(
        &self,
        notes: &mut Notes,
        pid: Pid,
        text: &[u8],
        fault: &ProgFault,
    ) -> Result<(), AllocError> {
        notes.say_with("{}", &[Part::Bytes(text)])?;
        tell_mark(notes, text.get(..fault.at).unwrap_or(text), fault.kind)?;
        match fault.kind {
            FaultKind::Grammar | FaultKind::Byte => {
                match grammar_correction(self.view.session.program, text, fault.at) {
                    Some(correction) => notes.say(correction),
                    None => Ok(()),
                }
            }
            FaultKind::NameUnknown => {
                let word = first_word(text.get(fault.at..).unwrap_or(&[]));
                self.tell_unknown_name(notes, pid, word)
            }
            _ => Ok(()),
        }
    }

    // Says what is wrong with a predicate. True if something is wrong.
    fn tell_predicate(&self, notes: &mut Notes, pid: Pid, text: &[u8]) -> Result<bool, Refusal> {
        if pid.0 >= self.view.session.program.processes() {
            return Ok(false);
        }
        match parse_predicate(notes.alloc(), self.view.session.program, pid, text) {
            Ok(_) => Ok(false),
            Err(ProgError::Bad(fault)) => {
                self.tell_fault(notes, pid, text, &fault)?;
                Ok(true)
            }
            Err(ProgError::Memory) => Err(Refusal::Memory),
        }
    }

    /// Says what is wrong with the first wrong conjunct.
    pub(crate) fn tell_conjuncts(&self, notes: &mut Notes, parts: &[u8]) -> Result<(), Refusal> {
        let mut rest = parts;
        let mut has_part = [false; PROCESSES];
        for _ in 0..PARTS {
            let (word, begun) = next_word(rest);
            let (text, others) = next_expression(begun);
            let Some(pid) = process_named(self.view.session.program, word) else {
                return Ok(());
            };
            if self.tell_predicate(notes, pid, text)? {
                return Ok(());
            }
            if let Some(has) = has_part.get_mut(pid.0 as usize) {
                if *has {
                    return Ok(notes.say_with(
                        "{} already has a part: combine both, as in `((x = 1) and (y = 2))`",
                        &[Part::Bytes(word)],
                    )?);
                }
                *has = true;
            }
            rest = others;
        }
        Ok(())
    }

    // Shows a line that sets a breakpoint, for a process of the program that has a variable.
    fn tell_example(&self, notes: &mut Notes) -> Result<(), AllocError> {
        let program = self.view.session.program;
        for p in 0..program.processes() {
            if program.variables(Pid(p)) > 0 {
                let scope = self.view.scope(Pid(p));
                notes.say_with(
                    "for example `break b {} ({}",
                    &[scope.name(), scope.variable(0)],
                )?;
                return notes.add(" = 1)`");
            }
        }
        Ok(())
    }

    // What is wrong with the first malformed part of these.
    fn wrong_part(&self, parts: &[u8]) -> Option<WrongBreak> {
        let mut rest = parts;
        let mut is_bare = false;
        for number in 0..PARTS {
            let (word, begun) = next_word(rest);
            if word.is_empty() && number > 0 {
                return None;
            }
            if word.is_empty() {
                let why = "a process and its predicate are missing after the name";
                return Some(WrongBreak::at(why, rest));
            }
            if is_bare && process_named(self.view.session.program, word).is_none() {
                let why = "a predicate of more than one word is in parentheses";
                return Some(WrongBreak::at(why, rest));
            }
            if !is_name(word) {
                let why = "a predicate comes after the name of its process";
                return Some(WrongBreak::at(why, rest));
            }
            let (text, others) = next_expression(begun);
            if text.is_empty() {
                let why = "a predicate is missing after the last process";
                return Some(WrongBreak::at(why, begun));
            }
            if let Some(why) = wrong_end(others) {
                return Some(WrongBreak::at(why, others));
            }
            is_bare = text.first() != Some(&b'(');
            rest = others;
        }
        None
    }

    // What is wrong with the words after `break`.
    fn wrong_break(&self, arguments: &[u8]) -> Option<WrongBreak> {
        let (name, parts) = next_word(arguments);
        let is_process = process_named(self.view.session.program, name).is_some();
        if name.is_empty() {
            let why = "a name for the breakpoint is missing";
            return Some(WrongBreak::at(why, arguments));
        }
        if is_process && next_word(parts).0.starts_with(b"(") {
            let why = "a name for the breakpoint comes first, and then the process";
            return Some(WrongBreak::at(why, arguments));
        }
        if !is_name(name) {
            let why =
                "the name of a breakpoint is a small letter, and then small letters, digits and `_`";
            return Some(WrongBreak::at(why, arguments));
        }
        self.wrong_part(parts)
    }

    /// Says what is wrong with the words after `break`, if something is known to be, with a mark under the place and an example.
    pub(crate) fn tell_wrong_break(
        &self,
        notes: &mut Notes,
        arguments: &[u8],
    ) -> Result<(), AllocError> {
        let arguments = arguments.trim_ascii_end();
        let Some(wrong) = self.wrong_break(arguments) else {
            return Ok(());
        };
        let at = arguments.len().saturating_sub(wrong.left);
        let mut before = Vec::from_slice(notes.alloc(), b"break")?;
        before.extend_from_slice(arguments.get(..at).unwrap_or(arguments))?;
        notes.say_with("break{}", &[Part::Bytes(arguments)])?;
        say_mark(notes, before.as_slice())?;
        notes.add(wrong.why)?;
        self.tell_example(notes)
    }
}
