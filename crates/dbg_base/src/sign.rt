//! Signs of the process language.

/// A sign of the process language.
#[derive(Clone, Copy, PartialEq, Eq)]
pub enum Sign {
    OpenBrace,
    CloseBrace,
    OpenParenthesis,
    CloseParenthesis,
    Semicolon,
    Colon,
    Becomes,
    Comma,
    Equals,
    NotEquals,
    LessThan,
    AtMost,
    GreaterThan,
    AtLeast,
    Plus,
    Minus,
    Star,
    Slash,
    Percent,
}
