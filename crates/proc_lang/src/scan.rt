//! The token at the beginning of some bytes.

ghost use Rattle.std.specs.Prelude.{◌≡◌, ◌≤◌, ◌<◌, ◌+◌, ◌^◌, ◌∷◌, [], length, MatchOption, MatchResult, IsTrue};
ghost use Rattle.std.specs.List.{list_all, prefix_len};
ghost use Rattle.std.specs.Str.Parse.{digits_value};
ghost use Rattle.dbg_base.specs.Tokens.{is_space, is_digit, is_word_byte, sign_bytes, BeginsWithNoToken, Spells, IsWithinLimits};
ghost use Rattle.proc_lang.specs.Scanning.{token_of, token_in, token_by, IsNoSign, BeginsWithNoSign, IsBefore, IsSignPiece};
ghost use Rattle.proc_lang.specs.Scanning.{IsPrefixToken, IsPrefixFault};

use crate::token::{Magnitude, Token};
use dbg_base::{FaultKind, Name, Sign};

/// The longest token at the beginning of some bytes: its kind and its length in bytes.
#[derive(Clone, Copy)]
pub(crate) struct ScannedToken {
    pub(crate) kind: TokenKind,
    pub(crate) length: usize,
}

#[derive(Clone, Copy)]
pub(crate) enum TokenKind {
    Word,
    Number,
    Symbol(Sign),
}

fn is_space(b: u8) -> bool
    ensures { result ≡ is_space b }
{
    b == b' ' || b == b'\t' || b == b'\n' || b == b'\r'
}

fn is_word_byte(b: u8) -> bool
    ensures { result ≡ is_word_byte b }
{
    b.is_ascii_lowercase() || b.is_ascii_digit() || b == b'_'
}

/// The number of spaces at the beginning.
pub(crate) fn space_length(bytes: &[u8]) -> usize
    ensures { result ≡ prefix_len is_space bytes.now }
{
    for (i, b) in bytes.iter().enumerate() {
        if !is_space(*b) {
            return i;
        }
    }
    bytes.len()
}

// The number of bytes at the beginning that may be in a word.
fn word_length(bytes: &[u8]) -> usize
    ensures { result ≡ prefix_len is_word_byte bytes.now }
{
    for (i, b) in bytes.iter().enumerate() {
        if !is_word_byte(*b) {
            return i;
        }
    }
    bytes.len()
}

// The number of digits at the beginning.
fn digit_length(bytes: &[u8]) -> usize
    ensures { result ≡ prefix_len is_digit bytes.now }
{
    for (i, b) in bytes.iter().enumerate() {
        if !b.is_ascii_digit() {
            return i;
        }
    }
    bytes.len()
}

// The sign of this byte, if it is one.
fn single_sign(b: u8) -> Option<Sign>
    ensures { MatchOption result (IsNoSign (b ∷ [])) (λ sign. sign_bytes sign ≡ b ∷ []) }
{
    match b {
        b'{' => Some(Sign::OpenBrace),
        b'}' => Some(Sign::CloseBrace),
        b'(' => Some(Sign::OpenParenthesis),
        b')' => Some(Sign::CloseParenthesis),
        b';' => Some(Sign::Semicolon),
        b':' => Some(Sign::Colon),
        b',' => Some(Sign::Comma),
        b'=' => Some(Sign::Equals),
        b'<' => Some(Sign::LessThan),
        b'>' => Some(Sign::GreaterThan),
        b'+' => Some(Sign::Plus),
        b'-' => Some(Sign::Minus),
        b'*' => Some(Sign::Star),
        b'/' => Some(Sign::Slash),
        b'%' => Some(Sign::Percent),
        _ => None,
    }
}

// The sign of this byte followed by `=`, if it is one.
fn double_sign(b: u8) -> Option<Sign>
    ensures { MatchOption result (IsNoSign (b ∷ 61 ∷ [])) (λ sign. sign_bytes sign ≡ b ∷ 61 ∷ []) }
{
    match b {
        b':' => Some(Sign::Becomes),
        b'!' => Some(Sign::NotEquals),
        b'<' => Some(Sign::AtMost),
        b'>' => Some(Sign::AtLeast),
        _ => None,
    }
}

// The longest sign at the beginning, with its length in bytes.
fn prefix_sign(bytes: &[u8]) -> Option<ScannedToken>
    ensures { MatchOption result (BeginsWithNoSign bytes.now) (λ piece. IsSignPiece piece bytes.now) }
{
    let first = *bytes.first()?;
    if bytes.len() > 1 && bytes[1] == b'=' {
        if let Some(sign) = double_sign(first) {
            return Some(ScannedToken {
                kind: TokenKind::Symbol(sign),
                length: 2,
            });
        }
    }
    let sign = single_sign(first)?;
    Some(ScannedToken {
        kind: TokenKind::Symbol(sign),
        length: 1,
    })
}

// The longest token at the beginning, if there is one.
fn prefix_piece(bytes: &[u8]) -> Option<ScannedToken>
    ensures { MatchOption result (BeginsWithNoToken bytes.now)
        (λ piece. IsBefore (token_in piece bytes.now) piece.length bytes.now) }
{
    let first = *bytes.first()?;
    if first.is_ascii_lowercase() {
        return Some(ScannedToken {
            kind: TokenKind::Word,
            length: word_length(bytes),
        });
    }
    if first.is_ascii_digit() {
        return Some(ScannedToken {
            kind: TokenKind::Number,
            length: digit_length(bytes),
        });
    }
    prefix_sign(bytes)
}

// The number of these digits, or None if it is above the largest i64.
fn number_value(digits: &[u8]) -> Option<Magnitude>
    requires { IsTrue (list_all is_digit digits.now) }
    ensures { MatchOption result (2 ^ 63 ≤ digits_value 10 digits.now)
        (λ number. number.value ≡ digits_value 10 digits.now) }
{
    let mut value: u64 = 0;
    for b in digits {
        let digit = u64::from(*b - b'0');
        if value > (i64::MAX as u64 - digit) / 10 {
            return None;
        }
        value = value * 10 + digit;
    }
    Some(Magnitude { value })
}

// The token of these bytes, or None if it exceeds its limit.
fn limited_token(kind: TokenKind, bytes: &[u8]) -> Option<Token>
    requires { Spells (token_by kind bytes.now) bytes.now }
    ensures { MatchOption result (¬ IsWithinLimits (token_by kind bytes.now))
        (λ token. (token_of token ≡ token_by kind bytes.now) × IsWithinLimits (token_by kind bytes.now)) }
{
    match kind {
        TokenKind::Word => match Name::new(bytes) {
            Some(name) => Some(Token::Word(name)),
            None => None,
        },
        TokenKind::Number => match number_value(bytes) {
            Some(number) => Some(Token::Number(number)),
            None => None,
        },
        TokenKind::Symbol(sign) => Some(Token::Symbol(sign)),
    }
}

/// The token at the beginning with its length in bytes, or the kind of the fault there.
pub(crate) fn prefix_token(bytes: &[u8]) -> Result<(Token, usize), FaultKind>
    ensures { MatchResult result (λ found. IsPrefixToken found.0 found.1 bytes.now) (λ kind. IsPrefixFault kind bytes.now) }
{
    let Some(piece) = prefix_piece(bytes) else {
        return Err(FaultKind::Byte);
    };
    match limited_token(piece.kind, &bytes[..piece.length]) {
        Some(token) => Ok((token, piece.length)),
        None => Err(FaultKind::Token),
    }
}
