//! From tokens to a model, one token at a time.

mod commands;
mod expressions;
mod fields;
mod items;
mod messages;
mod types;

use dbg_base::{Name, Operator};
pub use items::model;
use notation_tree::fault::{Expanding, ExpansionStop, Expected, Problem};
use notation_tree::limits::NESTING;
use notation_tree::model::{Tables, Visible};
use notation_tree::scope::{Binding, ModelScope};
use notation_tree::syntax::Expression;
use notation_tree::token::{Mark, SourceToken, SourceTokenKind, part};
use notation_tree::words::is_reserved;
use std::alloc::Global;

/// The precedences of operators, weakest first; `not` is between `And` and `Comparison`.
#[derive(Clone, Copy)]
pub(crate) enum Level {
    Or,
    And,
    Comparison,
    Sum,
    Product,
}

/// A name in the text, and its token.
#[derive(Clone, Copy)]
pub(crate) struct Written {
    pub(crate) at: usize,
    pub(crate) token: SourceToken,
    pub(crate) name: Name,
}

/// Reads the tokens of a text. Each method reads what it is named for, and leaves the tokens after it.
#[derive(Drop)]
pub struct ModelParser<'a> {
    pub alloc: Global,
    text: &'a [u8],
    pub tokens: &'a [SourceToken],
    /// The number of the next token.
    pub next: usize,
    // What is added to the offsets of the text.
    base: usize,
    // How many members are numbered already.
    members: usize,
    pub scope: ModelScope<'a>,
    pub tables: Tables,
    // The number of the declaration that is read.
    declaration: Option<usize>,
    // How many `for` are open.
    repeats: u32,
}

impl<'a> ModelParser<'a> {
    /// Reads these tokens of the text, from the first on, over these names. Offsets begin with `base`, and the numbers of members with
    /// `members`.
    pub fn new(
        alloc: Global,
        text: &'a [u8],
        tokens: &'a [SourceToken],
        scope: ModelScope<'a>,
        base: usize,
        members: usize,
    ) -> ModelParser<'a> {
        ModelParser {
            alloc,
            text,
            tokens,
            next: 0,
            base,
            members,
            scope,
            tables: Tables::new(alloc),
            declaration: None,
            repeats: 0,
        }
    }

    // The token of this number; after the last one the end of the text.
    fn token_numbered(&self, number: usize) -> SourceToken {
        match self.tokens.get(number) {
            Some(token) => *token,
            None => SourceToken {
                at: self.text.len(),
                length: 0,
                kind: SourceTokenKind::End,
            },
        }
    }

    /// The next token.
    pub fn token(&self) -> SourceToken {
        self.token_numbered(self.next)
    }

    /// The offset of the next token.
    pub(crate) fn at(&self) -> usize {
        self.token().at.saturating_add(self.base)
    }

    /// The token before the next one.
    pub fn token_before(&self) -> SourceToken {
        self.token_numbered(self.next.wrapping_sub(1))
    }

    /// Passes the next token.
    pub fn pass(&mut self) {
        self.next = self.next.saturating_add(1);
    }

    /// The bytes of a token.
    pub(crate) fn bytes(&self, token: SourceToken) -> &'a [u8] {
        part(self.text, token.at, token.length)
    }

    /// The next token, if it is a word.
    pub(crate) fn word(&self) -> Option<&'a [u8]> {
        let token = self.token();
        match token.kind {
            SourceTokenKind::Word => Some(self.bytes(token)),
            _ => None,
        }
    }

    /// Whether the next token is this word.
    pub fn is_word(&self, word: &[u8]) -> bool {
        self.word() == Some(word)
    }

    /// Whether the token so many after the next one is this mark.
    pub fn has_mark_after(&self, count: usize, mark: Mark) -> bool {
        match self.token_numbered(self.next.saturating_add(count)).kind {
            SourceTokenKind::Mark(found) => found == mark,
            _ => false,
        }
    }

    /// Passes the next token if it is this word. The answer is whether it was.
    pub fn passes_word(&mut self, word: &[u8]) -> bool {
        let found = self.is_word(word);
        if found {
            self.pass();
        }
        found
    }

    /// Passes the next token if it is this mark. The answer is whether it was.
    pub(crate) fn passes_mark(&mut self, mark: Mark) -> bool {
        let found = self.is_mark(mark);
        if found {
            self.pass();
        }
        found
    }

    /// Whether the next token is this mark.
    pub fn is_mark(&self, mark: Mark) -> bool {
        self.has_mark_after(0, mark)
    }

    /// Passes this mark. The answer is its offset.
    pub fn mark(&mut self, mark: Mark) -> Expanding<usize> {
        let at = self.at();
        if self.passes_mark(mark) {
            return Ok(at);
        }
        Err(self.unexpected(Expected::Mark(mark)))
    }

    /// Something else is expected in place of the next token, or the next token is none.
    pub(crate) fn unexpected(&self, what: Expected) -> ExpansionStop {
        match self.token().kind {
            SourceTokenKind::Wrong(problem) => ExpansionStop::Bad(problem, self.at()),
            _ => ExpansionStop::Bad(Problem::Expected(what), self.at()),
        }
    }

    /// Whether the next token is the last one.
    pub fn is_last(&self) -> bool {
        let after = self.token_numbered(self.next.saturating_add(1));
        matches!(after.kind, SourceTokenKind::End)
    }

    /// Whether no token is left.
    pub fn is_at_end(&self) -> bool {
        matches!(self.token().kind, SourceTokenKind::End)
    }

    /// Whether the next token is a name.
    pub fn is_name(&self) -> bool {
        match self.word() {
            Some(word) => !is_reserved(word),
            None => false,
        }
    }

    /// A name.
    pub(crate) fn name(&mut self) -> Expanding<Written> {
        let at = self.at();
        let token = self.token();
        if let Some(bytes) = self.word() {
            if !is_reserved(bytes) {
                if let Some(name) = Name::new(bytes) {
                    self.pass();
                    return Ok(Written { at, token, name });
                }
            }
        }
        Err(self.unexpected(Expected::Name))
    }

    /// Gives a name a meaning, unless it has another one here.
    pub(crate) fn declare(&mut self, name: &Written, new: Binding) -> Expanding<()> {
        let bytes = self.bytes(name.token);
        if let Some(old) = self.scope.declare(bytes, new)? {
            return Err(ExpansionStop::Bad(Problem::NameTaken(old), name.at));
        }
        if self.repeats == 0 && !matches!(new, Binding::Variable(None) | Binding::Parameter(_)) {
            self.tables.visible.push(Visible {
                name: name.name,
                binding: new,
                declaration: self.declaration,
            })?;
        }
        Ok(())
    }

    // The operator of this precedence that the next token is.
    fn operator(&self, level: Level) -> Option<Operator> {
        match (level, self.token().kind) {
            (Level::Or, SourceTokenKind::Word) if self.is_word(b"or") => Some(Operator::Or),
            (Level::And, SourceTokenKind::Word) if self.is_word(b"and") => Some(Operator::And),
            (Level::Sum, SourceTokenKind::Mark(Mark::Plus)) => Some(Operator::Add),
            (Level::Sum, SourceTokenKind::Mark(Mark::Minus)) => Some(Operator::Subtract),
            (Level::Product, SourceTokenKind::Mark(Mark::Star)) => Some(Operator::Multiply),
            (Level::Product, SourceTokenKind::Mark(Mark::Slash)) => Some(Operator::Divide),
            (Level::Product, SourceTokenKind::Mark(Mark::Percent)) => Some(Operator::Remainder),
            _ => None,
        }
    }

    // The comparison that the next token is.
    fn comparison(&self) -> Option<Operator> {
        match self.token().kind {
            SourceTokenKind::Mark(Mark::Equals) => Some(Operator::Equal),
            SourceTokenKind::Mark(Mark::NotEquals) => Some(Operator::NotEqual),
            SourceTokenKind::Mark(Mark::LessThan) => Some(Operator::Less),
            SourceTokenKind::Mark(Mark::AtMost) => Some(Operator::LessOrEqual),
            SourceTokenKind::Mark(Mark::GreaterThan) => Some(Operator::Greater),
            SourceTokenKind::Mark(Mark::AtLeast) => Some(Operator::GreaterOrEqual),
            _ => None,
        }
    }

    /// An expression.
    pub fn expression(&mut self) -> Expanding<Expression> {
        self.chain(Level::Or, NESTING)
    }
}
