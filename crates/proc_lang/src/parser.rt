//! From tokens to a parsed program, one token at a time.

ghost use Rattle.std.specs.Prelude.{◌≡◌, ◌<◌, [], map, length, OnOk};
ghost use Rattle.std.specs.List.{list_any};
ghost use Rattle.std.specs.Str.{bytes_eq};
ghost use Rattle.dbg_base.specs.Grammar.{reserved_words};
ghost use Rattle.proc_lang.specs.Scanning.{token_of, placed_of};
ghost use Rattle.proc_lang.specs.Writing.{named_of, phrase_of};
ghost use Rattle.std.specs.Option.{option_map};
ghost use Rattle.proc_lang.specs.Parsing.{begins_word, begins_sign, operator_in, direction_in, phrase_in, read_word, read_sign};
ghost use Rattle.proc_lang.specs.Parsing.{begins_count, read_name, read_number, read_operator, read_direction, read_operand, read_end};
ghost use Rattle.proc_lang.specs.Reading.{Gives};
ghost use Rattle.proc_lang.specs.declared.parser.Stop.TheVariants.{Memory};

mod grammar;

use crate::syntax::{Named, Phrase};
use crate::token::{Magnitude, Placed, Token};
use dbg_base::{Direction, Name, Operator, Sign};
pub(crate) use grammar::{predicate, program};
use std::alloc::{AllocError, AllocFailed, Global};

/// Why tokens could not be read.
#[derive(Clone, Copy, PartialEq, Eq)]
pub(crate) enum Stop {
    Memory,
    /// A token cannot follow the tokens before it. So many tokens are left from it on; none, if the text ends too early.
    Unexpected { left: usize },
}

impl From<AllocError> for Stop {
    ghost from_gives = { λ _ stop. stop ≡ Memory };

    fn from(_error: AllocError) -> Stop {
        Stop::Memory
    }
}

impl<T: Drop> From<AllocFailed<T>> for Stop {
    ghost from_gives = { λ _ stop. stop ≡ Memory };

    fn from(_error: AllocFailed<T>) -> Stop {
        Stop::Memory
    }
}

// Whether the word is reserved.
fn is_reserved(name: &Name) -> bool
    ensures { result ≡ list_any (bytes_eq name.now) reserved_words }
{
    let word = name.bytes();
    word == b"process".as_slice()
        || word == b"var".as_slice()
        || word == b"when".as_slice()
        || word == b"send".as_slice()
        || word == b"recv".as_slice()
        || word == b"true".as_slice()
        || word == b"false".as_slice()
        || word == b"and".as_slice()
        || word == b"or".as_slice()
        || word == b"not".as_slice()
        || word == b"sent".as_slice()
        || word == b"got".as_slice()
}

// The operator of a token, if it is one.
fn operator_of(token: &Token) -> Option<Operator>
    ensures { result ≡ operator_in (token_of token.now) }
{
    match token {
        Token::Symbol(Sign::Plus) => Some(Operator::Add),
        Token::Symbol(Sign::Minus) => Some(Operator::Subtract),
        Token::Symbol(Sign::Star) => Some(Operator::Multiply),
        Token::Symbol(Sign::Slash) => Some(Operator::Divide),
        Token::Symbol(Sign::Percent) => Some(Operator::Remainder),
        Token::Symbol(Sign::Equals) => Some(Operator::Equal),
        Token::Symbol(Sign::NotEquals) => Some(Operator::NotEqual),
        Token::Symbol(Sign::LessThan) => Some(Operator::Less),
        Token::Symbol(Sign::AtMost) => Some(Operator::LessOrEqual),
        Token::Symbol(Sign::GreaterThan) => Some(Operator::Greater),
        Token::Symbol(Sign::AtLeast) => Some(Operator::GreaterOrEqual),
        Token::Word(name) if name.bytes() == b"and".as_slice() => Some(Operator::And),
        Token::Word(name) if name.bytes() == b"or".as_slice() => Some(Operator::Or),
        _ => None,
    }
}

// The direction of a token that is the word of a count.
fn direction_of(token: &Token) -> Option<Direction>
    ensures { result ≡ direction_in (token_of token.now) }
{
    match token {
        Token::Word(name) if name.bytes() == b"sent".as_slice() => Some(Direction::Sent),
        Token::Word(name) if name.bytes() == b"got".as_slice() => Some(Direction::Got),
        _ => None,
    }
}

// The expression of a single token, if it is one.
fn operand_of(placed: &Placed) -> Option<Phrase>
    ensures { option_map phrase_of result ≡ phrase_in (placed_of placed.now) }
{
    let at = placed.at;
    match placed.token {
        Token::Number(number) => Some(Phrase::Number(at, number)),
        Token::Word(name) if name.bytes() == b"true".as_slice() => Some(Phrase::Truth(at, true)),
        Token::Word(name) if name.bytes() == b"false".as_slice() => Some(Phrase::Truth(at, false)),
        Token::Word(name) if !is_reserved(&name) => Some(Phrase::Name(at, name)),
        _ => None,
    }
}

/// Reads a program from its tokens. Each method reads what its name says and leaves the tokens after that.
#[derive(Drop)]
struct Parser<'a> {
    alloc: Global,
    rest: &'a [Placed],
}

impl Parser<'_> {
    // The next token cannot follow.
    fn unexpected(&self) -> Stop
        ensures { result ≡ Stop.Unexpected (length self.now.rest.now) }
    {
        Stop::Unexpected {
            left: self.rest.len(),
        }
    }

    // Whether the next token is this word.
    fn is_at_word(&self, word: &[u8]) -> bool
        ensures { result ≡ begins_word word.now (map placed_of self.now.rest.now) }
    {
        match self.rest {
            [
                Placed {
                    token: Token::Word(name),
                    ..
                },
                ..
            ] => name.bytes() == word,
            _ => false,
        }
    }

    // Whether the next token is this sign.
    fn is_at_sign(&self, sign: Sign) -> bool
        ensures { result ≡ begins_sign sign (map placed_of self.now.rest.now) }
    {
        match self.rest {
            [
                Placed {
                    token: Token::Symbol(found),
                    ..
                },
                ..
            ] => *found == sign,
            _ => false,
        }
    }

    // Reads this word, and returns the offset of its first byte.
    #[tactic(auto, unfolding(crate::specs::Parsing::read_word))]
    fn word(&mut self, word: &[u8]) -> Result<usize, Stop>
        ensures shorter { OnOk result (length self.new.rest.now < length self.old.rest.now) }
        ensures read { Gives (λ at. at) result (map placed_of self.new.rest.now)
            (read_word word.now (map placed_of self.old.rest.now)) }
    {
        match self.rest {
            [
                Placed {
                    at,
                    token: Token::Word(name),
                },
                rest @ ..,
            ] if name.bytes() == word => {
                self.rest = rest;
                Ok(*at)
            }
            _ => Err(self.unexpected()),
        }
    }

    // Reads this sign, and returns its offset.
    #[tactic(auto, unfolding(crate::specs::Parsing::read_sign))]
    fn sign(&mut self, sign: Sign) -> Result<usize, Stop>
        ensures shorter { OnOk result (length self.new.rest.now < length self.old.rest.now) }
        ensures read { Gives (λ at. at) result (map placed_of self.new.rest.now)
            (read_sign sign (map placed_of self.old.rest.now)) }
    {
        match self.rest {
            [
                Placed {
                    at,
                    token: Token::Symbol(found),
                },
                rest @ ..,
            ] if *found == sign => {
                self.rest = rest;
                Ok(*at)
            }
            _ => Err(self.unexpected()),
        }
    }

    #[tactic(auto, unfolding(crate::specs::Parsing::read_name))]
    fn name(&mut self) -> Result<Named, Stop>
        ensures shorter { OnOk result (length self.new.rest.now < length self.old.rest.now) }
        ensures read { Gives named_of result (map placed_of self.new.rest.now)
            (read_name (map placed_of self.old.rest.now)) }
    {
        match self.rest {
            [
                Placed {
                    at,
                    token: Token::Word(name),
                },
                rest @ ..,
            ] if !is_reserved(name) => {
                self.rest = rest;
                Ok(Named {
                    at: *at,
                    name: *name,
                })
            }
            _ => Err(self.unexpected()),
        }
    }

    #[tactic(auto, unfolding(crate::specs::Parsing::read_number))]
    fn number(&mut self) -> Result<Magnitude, Stop>
        ensures shorter { OnOk result (length self.new.rest.now < length self.old.rest.now) }
        ensures read { Gives (λ number. number.value) result (map placed_of self.new.rest.now)
            (read_number (map placed_of self.old.rest.now)) }
    {
        match self.rest {
            [
                Placed {
                    token: Token::Number(number),
                    ..
                },
                rest @ ..,
            ] => {
                self.rest = rest;
                Ok(*number)
            }
            _ => Err(self.unexpected()),
        }
    }

    #[tactic(auto, unfolding(crate::specs::Parsing::read_operator))]
    fn operator(&mut self) -> Result<Operator, Stop>
        ensures shorter { OnOk result (length self.new.rest.now < length self.old.rest.now) }
        ensures read { Gives (λ operator. operator) result (map placed_of self.new.rest.now)
            (read_operator (map placed_of self.old.rest.now)) }
    {
        match self.rest {
            [first, rest @ ..] => match operator_of(&first.token) {
                Some(operator) => {
                    self.rest = rest;
                    Ok(operator)
                }
                None => Err(self.unexpected()),
            },
            [] => Err(self.unexpected()),
        }
    }

    // Whether the next token is the word of a count.
    fn is_at_count(&self) -> bool
        ensures { result ≡ begins_count (map placed_of self.now.rest.now) }
    {
        match self.rest {
            [first, ..] => direction_of(&first.token).is_some(),
            [] => false,
        }
    }

    // Reads the word of a count, and returns it with the offset of its first byte.
    #[tactic(auto, unfolding(crate::specs::Parsing::read_direction))]
    fn direction(&mut self) -> Result<(usize, Direction), Stop>
        ensures shorter { OnOk result (length self.new.rest.now < length self.old.rest.now) }
        ensures read { Gives (λ word. word) result (map placed_of self.new.rest.now)
            (read_direction (map placed_of self.old.rest.now)) }
    {
        match self.rest {
            [first, rest @ ..] => match direction_of(&first.token) {
                Some(direction) => {
                    self.rest = rest;
                    Ok((first.at, direction))
                }
                None => Err(self.unexpected()),
            },
            [] => Err(self.unexpected()),
        }
    }

    // Reads an expression of one token: a number, a name, `true` or `false`.
    #[tactic(auto, unfolding(crate::specs::Parsing::read_operand))]
    fn operand(&mut self) -> Result<Phrase, Stop>
        ensures shorter { OnOk result (length self.new.rest.now < length self.old.rest.now) }
        ensures read { Gives phrase_of result (map placed_of self.new.rest.now)
            (read_operand (map placed_of self.old.rest.now)) }
    {
        match self.rest {
            [first, rest @ ..] => match operand_of(first) {
                Some(phrase) => {
                    self.rest = rest;
                    Ok(phrase)
                }
                None => Err(self.unexpected()),
            },
            [] => Err(self.unexpected()),
        }
    }

    // Checks that no token is left.
    fn end(&self) -> Result<(), Stop>
        ensures { Gives (λ end. end) result [] (read_end (map placed_of self.now.rest.now)) }
    {
        if self.rest.is_empty() {
            Ok(())
        } else {
            Err(self.unexpected())
        }
    }
}
