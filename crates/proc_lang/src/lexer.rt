//! From bytes to tokens.

ghost use Rattle.std.specs.Prelude.{◌≡◌, ◌≤◌, ◌+◌, length, drop, map, IsTrue, MatchOption, MatchResult};
ghost use Rattle.std.specs.List.{list_all};
ghost use Rattle.dbg_base.specs.declared.limits.TheConstants.{INPUT_BYTES, OPEN_PARENTHESES};
ghost use Rattle.dbg_base.specs.Tokens.{is_space, HasTokens};
ghost use Rattle.proc_lang.specs.Scanning.{token_of, placed_of, TakesToken, MeetsFault, Counts, HasNoTokens};

use crate::fault::ProgError;
use crate::scan::{prefix_token, space_length};
use crate::token::{Placed, Token};
use dbg_base::limits::{INPUT_BYTES, OPEN_PARENTHESES};
use dbg_base::{FaultKind, ProgFault, Sign};
use std::alloc::Global;

/// Reads the tokens of a text, one at a time.
#[derive(Clone, Copy)]
struct Lexer<'a> {
    rest: &'a [u8],
    /// The offset of `rest`.
    at: usize,
    /// How many parentheses are open.
    depth: u32,
    ghost in_text: { at + length rest.now ≤ INPUT_BYTES },
    ghost shallow: { depth ≤ OPEN_PARENTHESES },
}

impl<'a> Lexer<'a> {
    fn new(text: &'a [u8]) -> Self
        requires { length text.now ≤ INPUT_BYTES }
        ensures rest { result.rest.now ≡ text.now }
        ensures start { (result.at ≡ 0) × (result.depth ≡ 0) }
    {
        Lexer {
            rest: text,
            at: 0,
            depth: 0,
        }
    }

    // Skips so many bytes.
    fn pass(&mut self, count: usize)
        requires { count ≤ length self.old.rest.now }
        ensures rest { self.new.rest.now ≡ drop count self.old.rest.now }
        ensures at { self.new.at ≡ self.old.at + count }
        ensures depth { self.new.depth ≡ self.old.depth }
    {
        self.rest = &self.rest[count..];
        self.at += count;
    }

    // Counts the parentheses that are open after a token, which begins here. More than 32 are a fault.
    fn count(&mut self, token: &Token) -> Result<(), ProgFault>
        ensures rest { self.new.rest ≡ self.old.rest }
        ensures at { self.new.at ≡ self.old.at }
        ensures depth { Counts self.old.depth (token_of token.now) self.old.at result self.new.depth }
    {
        match token {
            Token::Symbol(Sign::OpenParenthesis) => {
                if self.depth == OPEN_PARENTHESES {
                    return Err(ProgFault {
                        kind: FaultKind::Limit,
                        at: self.at,
                    });
                }
                self.depth += 1;
            }
            Token::Symbol(Sign::CloseParenthesis) => self.depth = self.depth.saturating_sub(1),
            _ => {}
        }
        Ok(())
    }

    // The next token, or None if only spaces are left.
    fn next_token(&mut self) -> Result<Option<Placed>, ProgFault>
        ensures { MatchResult result
            (λ next. MatchOption next (IsTrue (list_all is_space self.old.rest.now))
            (λ p. TakesToken self.old.rest.now self.old.at self.old.depth (placed_of p) self.new.rest.now self.new.at self.new.depth))
            (λ found. MeetsFault self.old.rest.now self.old.at self.old.depth found) }
    {
        self.pass(space_length(self.rest));
        if self.rest.is_empty() {
            return Ok(None);
        }
        let at = self.at;
        match prefix_token(self.rest) {
            Ok((token, length)) => {
                let placed = Placed { at, token };
                match self.count(&placed.token) {
                    Ok(()) => {
                        self.pass(length);
                        Ok(Some(placed))
                    }
                    Err(found) => Err(found),
                }
            }
            Err(kind) => Err(ProgFault { kind, at }),
        }
    }
}

/// All tokens of a text, or the first fault among them.
pub(crate) fn tokens(alloc: Global, text: &[u8]) -> Result<Vec<Placed>, ProgError>
    ensures { MatchResult result (λ tokens. HasTokens text.now (map placed_of tokens.items)) (HasNoTokens text.now) }
{
    if text.len() > INPUT_BYTES {
        return Err(ProgError::Bad(ProgFault {
            kind: FaultKind::Limit,
            at: INPUT_BYTES,
        }));
    }
    let mut lexer = Lexer::new(text);
    let mut tokens = Vec::new(alloc);
    loop {
        match lexer.next_token() {
            Ok(Some(Placed { at, token })) => tokens.push(Placed { at, token })?,
            Ok(None) => return Ok(tokens),
            Err(found) => return Err(ProgError::Bad(found)),
        }
    }
}
