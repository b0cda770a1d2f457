//! The faults of a program text.

use crate::forms::say_of_word;
use crate::names::{Declaration, DeclaredAs, find_declaration, near_name, process_around};
use crate::notes::Notes;
use crate::part::Part;
use crate::source::{prefix_word, suffix_word};
use dbg_base::{FaultKind, ProgFault};
use std::alloc::{AllocError, Global};

// The explanation of a fault of a predicate, which is of this kind.
fn fault_text(kind: FaultKind) -> &'static str {
    match kind {
        FaultKind::Byte => "no word and no symbol begins with this byte",
        FaultKind::Token =>
            "a word has at most 32 bytes, and a number is at most 9223372036854775807",
        FaultKind::Grammar | FaultKind::NameTaken | FaultKind::SelfSend | FaultKind::SetTwice =>
            "this is not expected here",
        FaultKind::NameUnknown => "nothing has this name",
        FaultKind::TypeWrong =>
            "a number is where a truth value is expected, or a truth value where a number is expected",
        FaultKind::Limit => "there are too many of these",
    }
}

/// Begins a line with a mark that is indented by the width of these bytes.
pub fn say_mark(notes: &mut Notes, before: &[u8]) -> Result<(), AllocError> {
    notes.say("")?;
    for byte in before {
        notes.add(if *byte == b'\t' { "\t" } else { " " })?;
    }
    notes.add("^ ")
}

/// Says what the fault of a predicate is, with a mark that is indented by the width of these bytes.
pub fn tell_mark(notes: &mut Notes, before: &[u8], kind: FaultKind) -> Result<(), AllocError> {
    say_mark(notes, before)?;
    notes.add(fault_text(kind))
}

// Signs of other languages: what the text has up to the place of the fault, what it has there, and what to write.
const FOREIGN: [(&str, &str, &str); 9] = [
    ("", "//", "a comment begins with `#`"),
    ("", "--", "a comment begins with `#`"),
    (
        "",
        "/*",
        "a comment begins with `#`, and ends with its line",
    ),
    ("=", "=", "to compare two values, write `=`, and not `==`"),
    ("<", ">", "unequal is `!=`"),
    ("=", "<", "at most is `<=`"),
    ("=", ">", "at least is `>=`"),
    ("", "&", "write `and`, `or`, `not`, and for unequal `!=`"),
    ("", "|", "write `and`, `or`, `not`, and for unequal `!=`"),
];

// Whether an action of a command is expected after these bytes.
fn is_before_action(before: &[u8]) -> bool {
    matches!(before.trim_ascii_end().last(), Some(b':' | b','))
}

// The word where an action of a command is expected: at the place of a fault, or before it. It is empty if there is none.
fn action_word<'a>(before: &'a [u8], at: &'a [u8]) -> &'a [u8] {
    if is_before_action(before) {
        return prefix_word(at);
    }
    let word = suffix_word(before);
    let length = before.len().saturating_sub(word.len());
    if is_before_action(before.get(..length).unwrap_or(&[])) {
        word
    } else {
        &[]
    }
}

// Whether this is one of these words.
fn is_one_of(word: &[u8], words: &[&str]) -> bool {
    words.iter().any(|one| one.as_bytes() == word)
}

// What to write in place of words of other languages that begin here.
fn foreign_word(before: &[u8], at: &[u8]) -> Option<&'static str> {
    let action = action_word(before, at);
    if action == b"if".as_slice() {
        Some("there is no `if`: each case is a command of its own, with its guard after `when`")
    } else if action == b"for".as_slice() {
        Some("`for` repeats whole commands: `for i: 1..3 { .. }`")
    } else if prefix_word(at) == b"var".as_slice() && matches!(before.last(), Some(b';' | b'}')) {
        Some("the variables of a process come before its commands")
    } else {
        None
    }
}

/// How to write what is probably meant at this offset, if it is the sign or the word of another language.
pub fn foreign_correction(text: &[u8], at: usize) -> Option<&'static str> {
    let before = text.get(..at).unwrap_or(text).trim_ascii_end();
    let at = text.get(at..).unwrap_or(&[]);
    for (prefix, sign, correction) in &FOREIGN {
        if before.ends_with(prefix.as_bytes()) && at.starts_with(sign.as_bytes()) {
            return Some(correction);
        }
    }
    match at.first() {
        Some(byte) if byte.is_ascii_uppercase() => {
            Some("names and words have small letters only, with digits and `_`")
        }
        Some(byte) if !byte.is_ascii() => Some(
            "outside of comments, a program has ASCII signs only",
        ),
        _ => foreign_word(before, at),
    }
}

// The likely correction of a token that cannot follow these bytes.
fn mend(before: &[u8], at: &[u8]) -> Option<&'static str> {
    if at.starts_with(b"!") {
        return Some("write `and`, `or`, `not`, and for unequal `!=`");
    }
    let last = suffix_word(before.trim_ascii_end());
    if is_one_of(last, &["var", "process", "send", "recv"]) {
        return Some(
            "a name is expected: a small letter, and then small letters, digits and `_`; a reserved word is not a name",
        );
    }
    None
}

// A name that nothing has where it is used.
#[derive(Clone, Copy)]
struct UnknownName<'a> {
    text: &'a [u8],
    at: usize,
    name: &'a [u8],
}

impl<'a> UnknownName<'a> {
    fn at(text: &'a [u8], at: usize) -> UnknownName<'a> {
        let name = prefix_word(text.get(at..).unwrap_or(&[]));
        UnknownName { text, at, name }
    }

    fn before(&self) -> &'a [u8] {
        self.text
            .get(..self.at)
            .unwrap_or(self.text)
            .trim_ascii_end()
    }

    // Whether brackets with an index follow the name.
    fn has_index(&self) -> bool {
        let end = self.at.saturating_add(self.name.len());
        let after = self.text.get(end..).unwrap_or(&[]).trim_ascii_start();
        after.first() == Some(&b'[')
    }

    // Whether the name of a process is expected.
    fn is_of_process(&self) -> bool {
        let before = self.before();
        let open = before
            .strip_suffix(b"(".as_slice())
            .unwrap_or(&[])
            .trim_ascii_end();
        is_one_of(suffix_word(before), &["send", "recv"])
            || is_one_of(suffix_word(open), &["sent", "got"])
    }

    // What the name may be, by what it is declared as. None if nothing can be said.
    fn misuse(&self, found: &Declaration<'_>) -> Option<&'static str> {
        match found.kind {
            DeclaredAs::Process | DeclaredAs::Variable if found.is_family && self.has_index() => {
                Some("` is a family, and has no member of this index")
            }
            DeclaredAs::Process | DeclaredAs::Variable if found.is_family => {
                Some("` is a family: an index in brackets, as in `[1]`, chooses a member")
            }
            DeclaredAs::Constant => Some("` is a constant, and cannot be set"),
            DeclaredAs::Definition if self.has_index() => {
                Some("` is a definition: its arguments are in parentheses")
            }
            DeclaredAs::Definition => Some("` is a definition, and cannot be set"),
            DeclaredAs::Process if !self.is_of_process() => {
                Some("` is a process, and not a variable")
            }
            DeclaredAs::Variable if self.is_of_process() => {
                Some("` is a variable, and not a process")
            }
            DeclaredAs::Variable => {
                Some("` is a variable of another process: a process can name only its own")
            }
            DeclaredAs::Process => None,
        }
    }

    // A declared name that may be meant.
    fn near(&self, alloc: Global) -> Result<Option<&'a [u8]>, AllocError> {
        if self.is_of_process() {
            return near_name(alloc, self.text, DeclaredAs::Process, self.name);
        }
        let own = process_around(self.text, self.at);
        near_name(alloc, own, DeclaredAs::Variable, self.name)
    }

    // Says why nothing has the name, or which name may be meant.
    fn tell(&self, notes: &mut Notes) -> Result<(), AllocError> {
        let found = find_declaration(self.text, self.name);
        let misuse = found.and_then(|found| self.misuse(&found));
        if let Some(misuse) = misuse {
            return say_of_word(notes, self.name, misuse);
        }
        match self.near(notes.alloc())? {
            Some(name) => notes.say_with("did you mean `{}`?", &[Part::Bytes(name)]),
            None => notes.say(
                "a process can name its own variables, after `var`, and other processes of the program",
            ),
        }
    }
}

/// Says that no line of a text ends the program, and which line was probably meant to.
pub fn tell_no_end_line(notes: &mut Notes, text: &[u8]) -> Result<(), AllocError> {
    notes.say("no line is `%%`: this line ends the program, and command lines follow it")?;
    let mut lines = text.split(|byte| *byte == b'\n');
    match lines.position(|line| line.trim_ascii() == b"%%".as_slice()) {
        Some(before) => notes.say_with(
            "line {} has blanks beside its `%%`",
            &[Part::Count(before.saturating_add(1))],
        ),
        None => Ok(()),
    }
}

/// Says how a fault of a program text may be corrected, if that is known: which symbol is missing, or which name may be meant.
pub fn tell_correction(
    notes: &mut Notes,
    text: &[u8],
    fault: &ProgFault,
) -> Result<(), AllocError> {
    let before = text.get(..fault.at).unwrap_or(text);
    let at = text.get(fault.at..).unwrap_or(&[]);
    match fault.kind {
        FaultKind::Grammar | FaultKind::Byte => {
            match foreign_correction(text, fault.at).or(mend(before, at)) {
                Some(correction) => notes.say(correction),
                None => Ok(()),
            }
        }
        FaultKind::NameUnknown => UnknownName::at(text, fault.at).tell(notes),
        _ => Ok(()),
    }
}
