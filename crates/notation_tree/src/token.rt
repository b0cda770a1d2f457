//! Tokens of the notation.

ghost use Rattle.std.specs.Prelude.{◌≡◌};
ghost use Rattle.dbg_base.specs.Tokens.{is_space, is_word_byte};

use crate::fault::Problem;

/// A mark of the notation: those of the process language, and `[`, `]`, `..` and the `.` before a field of a message.
#[derive(Clone, Copy, PartialEq, Eq)]
pub enum Mark {
    OpenBrace,
    CloseBrace,
    OpenParenthesis,
    CloseParenthesis,
    OpenBracket,
    CloseBracket,
    Semicolon,
    Colon,
    Becomes,
    Comma,
    Equals,
    NotEquals,
    LessThan,
    AtMost,
    GreaterThan,
    AtLeast,
    Plus,
    Minus,
    Star,
    Slash,
    Percent,
    Range,
    Dot,
}

/// What a token is.
#[derive(Clone, Copy)]
pub enum SourceTokenKind {
    Word,
    Number(i64),
    Mark(Mark),
    /// What is no token, and why.
    Wrong(Problem),
    /// The end of the text.
    End,
}

/// A token: the offset of its first byte, and how many bytes it has.
#[derive(Clone, Copy)]
pub struct SourceToken {
    pub at: usize,
    pub length: usize,
    pub kind: SourceTokenKind,
}

/// Whether a byte may be in a word or a number.
pub fn is_word_byte(byte: u8) -> bool
    ensures { result ≡ is_word_byte byte }
{
    byte.is_ascii_lowercase() || byte.is_ascii_digit() || byte == b'_'
}

/// Whether a byte only separates tokens.
pub fn is_space(byte: u8) -> bool
    ensures { result ≡ is_space byte }
{
    byte == b' ' || byte == b'\t' || byte == b'\n' || byte == b'\r'
}

/// So many bytes of a text from this offset on, or those of them that there are.
pub fn part(text: &[u8], at: usize, length: usize) -> &[u8] {
    let rest = text.get(at..).unwrap_or(&[]);
    rest.get(..length).unwrap_or(rest)
}

/// The marks as they are written. A mark that begins another one is after it.
pub(crate) const MARKS: [(&str, Mark); 23] = [
    (":=", Mark::Becomes),
    ("!=", Mark::NotEquals),
    ("<=", Mark::AtMost),
    (">=", Mark::AtLeast),
    ("..", Mark::Range),
    (".", Mark::Dot),
    ("{", Mark::OpenBrace),
    ("}", Mark::CloseBrace),
    ("(", Mark::OpenParenthesis),
    (")", Mark::CloseParenthesis),
    ("[", Mark::OpenBracket),
    ("]", Mark::CloseBracket),
    (";", Mark::Semicolon),
    (":", Mark::Colon),
    (",", Mark::Comma),
    ("=", Mark::Equals),
    ("<", Mark::LessThan),
    (">", Mark::GreaterThan),
    ("+", Mark::Plus),
    ("-", Mark::Minus),
    ("*", Mark::Star),
    ("/", Mark::Slash),
    ("%", Mark::Percent),
];

/// A mark as it is written.
pub fn mark_text(mark: Mark) -> &'static str {
    for (text, written) in &MARKS {
        if *written == mark {
            return text;
        }
    }
    ""
}
