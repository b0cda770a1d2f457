//! Words that have a meaning of their own.

use crate::syntax::FormNode;
use dbg_base::Direction;

// The reserved words of the process language.
const RESERVED: [&str; 12] = [
    "process", "var", "when", "send", "recv", "true", "false", "and", "or", "not", "sent", "got",
];

/// Whether a word is reserved in the process language.
pub fn is_reserved(word: &[u8]) -> bool {
    RESERVED.iter().any(|reserved| reserved.as_bytes() == word)
}

/// The form that a word begins.
pub fn form_of(word: &[u8]) -> Option<FormNode> {
    match word {
        b"all" => Some(FormNode::All),
        b"some" => Some(FormNode::Some),
        b"sum" => Some(FormNode::Sum),
        b"at_least" => Some(FormNode::AtLeast),
        _ => None,
    }
}

/// What a word says that is counted.
pub fn direction_of(word: &[u8]) -> Option<Direction> {
    match word {
        b"sent" => Some(Direction::Sent),
        b"got" => Some(Direction::Got),
        _ => None,
    }
}

/// Whether a word begins a form: `all`, `some`, `sum` or `at_least`.
pub fn is_form(word: &[u8]) -> bool {
    form_of(word).is_some()
}
