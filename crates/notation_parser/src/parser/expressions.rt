//! Expressions, by precedence.

ghost use Rattle.std.specs.Prelude.{◌≡◌, ◌+◌, IfOk};

use super::{Level, ModelParser, Written};
use dbg_base::Operator;
use notation_tree::fault::{Expanding, ExpansionStop, Expected, Problem};
use notation_tree::scope::Binding;
use notation_tree::syntax::{Binder, Each, Expression, FormNode, Link, Reference, enclosed};
use notation_tree::token::{Mark, SourceTokenKind};
use notation_tree::words::{direction_of, form_of, is_reserved};

// As many arguments are found as are wanted.
fn check_arguments(wanted: usize, found: usize, at: usize) -> Expanding<()> {
    if wanted == found {
        return Ok(());
    }
    Err(ExpansionStop::Bad(Problem::Arguments { wanted, found }, at))
}

impl<'a> ModelParser<'a> {
    // One bracket more is open, of so many that may be.
    fn deeper(&self, depth: u32) -> Expanding<u32>
        ensures { IfOk result (λ inner. inner + 1 ≡ depth) }
    {
        if depth == 0 {
            return Err(ExpansionStop::Bad(Problem::DeepNesting, self.at()));
        }
        Ok(depth - 1)
    }

    /// Operands with operators of this precedence between them.
    #[cycle(expressions)]
    pub(crate) fn chain(&mut self, level: Level, depth: u32) -> Expanding<Expression> {
        let at = self.at();
        let first = self.operand(level, depth)?;
        if self.operator(level).is_none() {
            return Ok(first);
        }
        let links = self.links(level, depth)?;
        self.chained(at, first, links)
    }

    // The operators of this precedence that follow, each with its right operand.
    #[cycle(expressions)]
    fn links(&mut self, level: Level, depth: u32) -> Expanding<Vec<Link>> {
        let mut links = Vec::new(self.alloc);
        for _ in self.next..self.tokens.len() {
            let Some(operator) = self.operator(level) else {
                break;
            };
            links.push(self.link(operator, level, depth)?)?;
        }
        Ok(links)
    }

    // An operand, and operators with their right operands after it.
    fn chained(&self, at: usize, first: Expression, links: Vec<Link>) -> Expanding<Expression> {
        Ok(Expression::Chain(at, Box::new(self.alloc, first)?, links))
    }

    // Operands with operators of this precedence between them, and this mark.
    #[cycle(expressions)]
    pub(crate) fn closed(&mut self, level: Level, depth: u32, mark: Mark) -> Expanding<Expression> {
        let expression = self.chain(level, depth)?;
        self.mark(mark)?;
        Ok(expression)
    }

    // An operator, which is the next token, and its right operand.
    #[cycle(expressions)]
    fn link(&mut self, operator: Operator, level: Level, depth: u32) -> Expanding<Link> {
        let at = self.at();
        self.pass();
        let operand = self.operand(level, depth)?;
        Ok(Link {
            operator,
            at,
            operand,
        })
    }

    // An operand of an operator of this precedence.
    #[cycle(expressions)]
    fn operand(&mut self, level: Level, depth: u32) -> Expanding<Expression> {
        match level {
            Level::Or => self.chain(Level::And, depth),
            Level::And => self.truth(depth),
            Level::Comparison => self.chain(Level::Sum, depth),
            Level::Sum => self.chain(Level::Product, depth),
            Level::Product => self.signed(depth),
        }
    }

    // A `not` and its operand, or at most one comparison.
    #[cycle(expressions)]
    fn truth(&mut self, depth: u32) -> Expanding<Expression> {
        let at = self.at();
        if self.is_word(b"not") {
            let inner = self.deeper(depth)?;
            self.pass();
            let operand = self.truth(inner)?;
            return Ok(Expression::Not(at, Box::new(self.alloc, operand)?));
        }
        let first = self.operand(Level::Comparison, depth)?;
        let Some(operator) = self.comparison() else {
            return Ok(first);
        };
        let links = self.compared(operator, depth)?;
        self.chained(at, first, links)
    }

    // A comparison, which is the next token, and its right operand. No other comparison follows.
    #[cycle(expressions)]
    fn compared(&mut self, operator: Operator, depth: u32) -> Expanding<Vec<Link>> {
        let mut links = Vec::new(self.alloc);
        links.push(self.link(operator, Level::Comparison, depth)?)?;
        if self.comparison().is_some() {
            return Err(ExpansionStop::Bad(Problem::ComparisonChain, self.at()));
        }
        Ok(links)
    }

    // A minus and its operand, or an operand without a minus.
    #[cycle(expressions)]
    fn signed(&mut self, depth: u32) -> Expanding<Expression> {
        let at = self.at();
        if !self.is_mark(Mark::Minus) {
            return self.primary(depth);
        }
        let inner = self.deeper(depth)?;
        self.pass();
        let operand = self.signed(inner)?;
        Ok(Expression::Negate(at, Box::new(self.alloc, operand)?))
    }

    /// A number, a word and what belongs to it, or an expression in parentheses.
    #[cycle(expressions)]
    pub fn primary(&mut self, depth: u32) -> Expanding<Expression> {
        let at = self.at();
        match self.token().kind {
            SourceTokenKind::Number(number) => {
                self.pass();
                Ok(Expression::Number(at, number))
            }
            SourceTokenKind::Word => self.spoken(depth),
            SourceTokenKind::Mark(Mark::OpenParenthesis) => {
                let inner = self.deeper(depth)?;
                self.pass();
                let expression = self.closed(Level::Or, inner, Mark::CloseParenthesis)?;
                Ok(enclosed(expression, at))
            }
            _ => Err(self.unexpected(Expected::Expression)),
        }
    }

    // What begins with a word: a truth value, a count of messages, a form, a definition with its arguments, or a name.
    #[cycle(expressions)]
    fn spoken(&mut self, depth: u32) -> Expanding<Expression> {
        let at = self.at();
        let Some(word) = self.word() else {
            return Err(self.unexpected(Expected::Expression));
        };
        if word == b"true".as_slice() || word == b"false".as_slice() {
            self.pass();
            return Ok(Expression::Truth(at, word == b"true".as_slice()));
        }
        if let Some(direction) = direction_of(word) {
            return Ok(Expression::Count(at, direction, self.counterpart(depth)?));
        }
        if is_reserved(word) {
            return Err(self.unexpected(Expected::Expression));
        }
        if !self.has_mark_after(1, Mark::OpenParenthesis) {
            let reference = self.reference(depth)?;
            let meant = self.looked_up(reference, word)?;
            return self.field_of(meant);
        }
        match form_of(word) {
            Some(form) => self.each(form, depth),
            None => self.call(depth),
        }
    }

    // The process to or from which messages are counted, in parentheses after the word.
    #[cycle(expressions)]
    fn counterpart(&mut self, depth: u32) -> Expanding<Reference> {
        self.pass();
        self.mark(Mark::OpenParenthesis)?;
        let other = self.reference(depth)?;
        self.mark(Mark::CloseParenthesis)?;
        Ok(other)
    }

    // What a name without arguments means.
    fn looked_up(&mut self, reference: Reference, word: &[u8]) -> Expanding<Expression> {
        if !reference.indices.is_empty() {
            return Ok(Expression::Name(reference));
        }
        let at = reference.at;
        match self.scope.meaning(word) {
            Some(Binding::Constant(number)) => Ok(Expression::Constant(at, number)),
            Some(Binding::Member(number)) => Ok(Expression::Member(at, number)),
            Some(Binding::Parameter(number)) => Ok(Expression::Parameter(at, number)),
            Some(Binding::Definition(number, wanted)) => {
                check_arguments(wanted, 0, at)?;
                Ok(Expression::Call(at, number, Vec::new(self.alloc)))
            }
            Some(Binding::Variable(_)) | None => Ok(Expression::Name(reference)),
        }
    }

    /// A name with its indices.
    #[cycle(expressions)]
    pub fn reference(&mut self, depth: u32) -> Expanding<Reference> {
        let written = self.name()?;
        let mut indices = Vec::new(self.alloc);
        for _ in self.next..self.tokens.len() {
            if !self.is_mark(Mark::OpenBracket) {
                break;
            }
            indices.push(self.index(depth)?)?;
        }
        Ok(Reference {
            at: written.at,
            name: written.name,
            indices,
        })
    }

    // An index in brackets.
    #[cycle(expressions)]
    fn index(&mut self, depth: u32) -> Expanding<Expression> {
        let inner = self.deeper(depth)?;
        self.pass();
        self.closed(Level::Or, inner, Mark::CloseBracket)
    }

    // A definition and its arguments.
    #[cycle(expressions)]
    fn call(&mut self, depth: u32) -> Expanding<Expression> {
        let name = self.name()?;
        let Some(Binding::Definition(number, wanted)) = self.scope.meaning(name.name.bytes()) else {
            return Err(ExpansionStop::Bad(Problem::NotADefinition, name.at));
        };
        let inner = self.deeper(depth)?;
        self.mark(Mark::OpenParenthesis)?;
        let arguments = self.arguments(inner)?;
        self.end_arguments(wanted, arguments.len(), name.at)?;
        Ok(Expression::Call(name.at, number, arguments))
    }

    // Arguments, with commas between them.
    #[cycle(expressions)]
    fn arguments(&mut self, depth: u32) -> Expanding<Vec<Expression>> {
        let mut arguments = Vec::new(self.alloc);
        for _ in self.next..self.tokens.len() {
            arguments.push(self.chain(Level::Or, depth)?)?;
            if !self.passes_mark(Mark::Comma) {
                break;
            }
        }
        Ok(arguments)
    }

    // The end of so many arguments; so many are wanted.
    fn end_arguments(&mut self, wanted: usize, found: usize, at: usize) -> Expanding<()> {
        self.mark(Mark::CloseParenthesis)?;
        check_arguments(wanted, found, at)
    }

    // `all`, `some`, `sum` or `at_least`.
    #[cycle(expressions)]
    fn each(&mut self, form: FormNode, depth: u32) -> Expanding<Expression> {
        let at = self.at();
        let inner = self.deeper(depth)?;
        self.pass();
        self.mark(Mark::OpenParenthesis)?;
        let least = self.least(form, inner)?;
        let mark = self.scope.mark();
        self.repeats = self.repeats.saturating_add(1);
        let (binder, body) = self.bound(inner)?;
        self.repeats = self.repeats.saturating_sub(1);
        self.scope.leave(mark);
        let each = Each {
            at,
            form,
            least,
            binder,
            body,
        };
        Ok(Expression::Each(Box::new(self.alloc, each)?))
    }

    // The number of an `at_least`, up to its comma.
    #[cycle(expressions)]
    fn least(&mut self, form: FormNode, depth: u32) -> Expanding<Option<Expression>> {
        match form {
            FormNode::AtLeast => Ok(Some(self.closed(Level::Or, depth, Mark::Comma)?)),
            FormNode::All | FormNode::Some | FormNode::Sum => Ok(None),
        }
    }

    // A member, and the expression after its colon, up to a closing parenthesis.
    #[cycle(expressions)]
    fn bound(&mut self, depth: u32) -> Expanding<(Binder, Expression)> {
        let binder = self.binder(depth)?;
        let body = self.body(depth)?;
        Ok((binder, body))
    }

    // A colon, and an expression up to a closing parenthesis.
    #[cycle(expressions)]
    fn body(&mut self, depth: u32) -> Expanding<Expression> {
        self.mark(Mark::Colon)?;
        self.closed(Level::Or, depth, Mark::CloseParenthesis)
    }

    /// A member, its range, and the condition after `where`.
    #[cycle(expressions)]
    pub fn binder(&mut self, depth: u32) -> Expanding<Binder> {
        let mut binder = self.ranged(depth)?;
        if self.passes_word(b"where") {
            binder.condition = Some(self.chain(Level::Or, depth)?);
        }
        Ok(binder)
    }

    /// A member and its range.
    #[cycle(expressions)]
    pub(crate) fn ranged(&mut self, depth: u32) -> Expanding<Binder> {
        let name = self.name()?;
        self.mark(Mark::Colon)?;
        let (low, high) = self.range(depth)?;
        let member = self.members.saturating_add(self.tables.members.len());
        let binder = Binder {
            at: name.at,
            member,
            low,
            high,
            condition: None,
        };
        self.declare_member(&name, member)?;
        Ok(binder)
    }

    // The bounds of a range.
    #[cycle(expressions)]
    pub(super) fn range(&mut self, depth: u32) -> Expanding<(Expression, Expression)> {
        let low = self.closed(Level::Sum, depth, Mark::Range)?;
        let high = self.chain(Level::Sum, depth)?;
        Ok((low, high))
    }

    // Gives a name the meaning of the member of this number, which is new.
    fn declare_member(&mut self, name: &Written, member: usize) -> Expanding<()> {
        self.tables.members.push(name.name)?;
        self.declare(name, Binding::Member(member))
    }
}
