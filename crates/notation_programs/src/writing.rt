//! Expressions, written in the process language.

use crate::environment::Environment;
use crate::evaluation::{count_of, halves};
use crate::plain_text::PlainText;
use dbg_base::{Direction, Operator};
use itoa::Buffer;
use notation_tree::arithmetic::ConstantValue;
use notation_tree::fault::{Expanding, ExpansionStop, Problem};
use notation_tree::model::Tables;
use notation_tree::syntax::{Each, Expression, FormNode, Link, Reference, place};
use std::alloc::{AllocError, Global};

/// Writes a model in the process language.
#[derive(Drop)]
pub struct Writer<'a> {
    pub environment: Environment<'a>,
    pub text: PlainText,
}

// The word or the mark of an operator.
fn operator_text(operator: Operator) -> &'static [u8] {
    match operator {
        Operator::Add => b"+",
        Operator::Subtract => b"-",
        Operator::Multiply => b"*",
        Operator::Divide => b"/",
        Operator::Remainder => b"%",
        Operator::Equal => b"=",
        Operator::NotEqual => b"!=",
        Operator::Less => b"<",
        Operator::LessOrEqual => b"<=",
        Operator::Greater => b">",
        Operator::GreaterOrEqual => b">=",
        Operator::And => b"and",
        Operator::Or => b"or",
    }
}

// What joins the members' expressions, and what is written where there is none.
fn form_texts(form: FormNode) -> (&'static [u8], &'static [u8]) {
    match form {
        FormNode::All => (b"and", b"true"),
        FormNode::Some | FormNode::AtLeast => (b"or", b"false"),
        FormNode::Sum => (b"+", b"0"),
    }
}

/// Appends `_` and a number that is not below 0.
pub(crate) fn put_index(name: &mut Vec<u8>, number: i64, at: usize) -> Expanding<()> {
    if number < 0 {
        return Err(ExpansionStop::Bad(Problem::BelowZero, at));
    }
    let mut buffer = Buffer::new();
    name.push(b'_')?;
    name.extend_from_slice(buffer.format(number).as_bytes())?;
    Ok(())
}

impl<'a> Writer<'a> {
    /// Nothing is written, and no name has a value.
    pub(crate) fn new(alloc: Global, tables: &'a Tables) -> Result<Writer<'a>, AllocError> {
        Ok(Writer {
            environment: Environment::new(alloc, tables)?,
            text: PlainText::new(alloc),
        })
    }

    /// Writes a token, which comes from this offset of the source.
    pub(crate) fn token(&mut self, token: &[u8], at: usize) -> Expanding<()> {
        self.environment.keep();
        self.text.token(token, at, self.environment.copy)
    }

    /// Writes a token right after the one before.
    pub(crate) fn joined_token(&mut self, token: &[u8], at: usize) -> Expanding<()> {
        self.text.join();
        self.token(token, at)
    }

    /// Writes the digits of a number, without its sign.
    pub(crate) fn magnitude(&mut self, number: i64, at: usize) -> Expanding<()> {
        let mut buffer = Buffer::new();
        self.token(buffer.format(number.unsigned_abs()).as_bytes(), at)
    }

    // Writes a value: a number below 0 in parentheses.
    fn value(&mut self, value: ConstantValue, at: usize) -> Expanding<()> {
        match value {
            ConstantValue::Truth(true) => self.token(b"true", at),
            ConstantValue::Truth(false) => self.token(b"false", at),
            ConstantValue::Number(number) if number < 0 => {
                self.token(b"(", at)?;
                self.token(b"-", at)?;
                self.magnitude(number, at)?;
                self.joined_token(b")", at)
            }
            ConstantValue::Number(number) => self.magnitude(number, at),
        }
    }

    /// The plain name of a name with indices.
    pub fn name_of(&mut self, reference: &'a Reference, depth: u32) -> Expanding<Vec<u8>> {
        let mut name = Vec::from_slice(self.environment.alloc, reference.name.bytes())?;
        for index in &reference.indices {
            let number = self.environment.number(index, depth)?;
            put_index(&mut name, number, place(index))?;
        }
        Ok(name)
    }

    /// Writes a name with indices.
    pub(crate) fn reference(&mut self, reference: &'a Reference, depth: u32) -> Expanding<()> {
        let name = self.name_of(reference, depth)?;
        self.token(name.as_slice(), reference.at)
    }

    // Writes a count of messages.
    fn count(
        &mut self,
        at: usize,
        direction: Direction,
        other: &'a Reference,
        depth: u32,
    ) -> Expanding<()> {
        match direction {
            Direction::Sent => self.token(b"sent", at)?,
            Direction::Got => self.token(b"got", at)?,
        }
        self.joined_token(b"(", at)?;
        self.reference(other, depth)?;
        self.joined_token(b")", at)
    }

    /// Writes an expression, where so many levels are left.
    #[cycle(writing)]
    pub fn expression(&mut self, expression: &'a Expression, depth: u32) -> Expanding<()> {
        let inner = self.environment.step(depth, place(expression))?;
        match expression {
            Expression::Number(at, number) => self.value(ConstantValue::Number(*number), *at),
            Expression::Truth(at, truth) => self.value(ConstantValue::Truth(*truth), *at),
            Expression::Constant(at, number) => {
                let value = self.environment.constant(*number, *at)?;
                self.value(value, *at)
            }
            Expression::Member(at, number) => {
                let value = self.environment.member(*number);
                self.value(ConstantValue::Number(value), *at)
            }
            Expression::Parameter(at, number) => {
                let argument = self.environment.argument(*number, *at)?;
                self.expression(argument, inner)
            }
            Expression::Name(reference) => self.reference(reference, inner),
            Expression::Count(at, direction, other) => self.count(*at, *direction, other, inner),
            Expression::Call(at, number, arguments) => {
                let environment = &mut self.environment;
                let body = environment.begin_call(*number, *at, arguments.as_slice())?;
                self.expression(body, inner)?;
                self.environment.end_call();
                Ok(())
            }
            Expression::Not(at, operand) => self.unary(b"not", *at, operand, inner),
            Expression::Negate(at, operand) => self.unary(b"-", *at, operand, inner),
            Expression::Chain(at, first, links) => {
                self.chain(*at, first, links.as_slice(), inner)
            }
            Expression::Each(each) => self.each(each, inner),
        }
    }

    // Writes an operator with one operand.
    #[cycle(writing)]
    fn unary(
        &mut self,
        operator: &[u8],
        at: usize,
        operand: &'a Expression,
        depth: u32,
    ) -> Expanding<()> {
        self.token(b"(", at)?;
        self.token(operator, at)?;
        self.expression(operand, depth)?;
        self.joined_token(b")", at)
    }

    // Writes operands with operators between them, from left to right, each in parentheses.
    #[cycle(writing)]
    fn chain(
        &mut self,
        at: usize,
        first: &'a Expression,
        links: &'a [Link],
        depth: u32,
    ) -> Expanding<()> {
        for _ in links {
            self.token(b"(", at)?;
        }
        self.expression(first, depth)?;
        for link in links {
            self.token(operator_text(link.operator), link.at)?;
            self.expression(&link.operand, depth)?;
            self.joined_token(b")", link.at)?;
        }
        Ok(())
    }

    // Writes the expression for one member.
    #[cycle(writing)]
    fn at_member(&mut self, each: &'a Each, member: i64, depth: u32) -> Expanding<()> {
        let before = self.environment.enter(each.binder.member, member)?;
        self.expression(&each.body, depth)?;
        self.environment.leave(before);
        Ok(())
    }

    // Writes the expressions of these members, joined: the first half and the rest.
    #[cycle(writing)]
    fn joined(
        &mut self,
        each: &'a Each,
        form: FormNode,
        members: &[i64],
        depth: u32,
    ) -> Expanding<()> {
        let (operator, nothing) = form_texts(form);
        match members {
            [] => return self.token(nothing, each.at),
            [only] => return self.at_member(each, *only, depth),
            _ => {}
        }
        let inner = self.environment.step(depth, each.at)?;
        let (prefix, rest) = halves(members);
        self.token(b"(", each.at)?;
        self.joined(each, form, prefix, inner)?;
        self.token(operator, each.at)?;
        self.joined(each, form, rest, inner)?;
        self.joined_token(b")", each.at)
    }

    // Writes that so many of these members have a true expression.
    #[cycle(writing)]
    fn at_least(
        &mut self,
        each: &'a Each,
        least: i64,
        members: &[i64],
        depth: u32,
    ) -> Expanding<()> {
        let count = count_of(members.len());
        if least <= 0 {
            return self.token(b"true", each.at);
        }
        if least > count {
            return self.token(b"false", each.at);
        }
        if least == count {
            return self.joined(each, FormNode::All, members, depth);
        }
        let [first, others @ ..] = members else {
            return Ok(());
        };
        if least == 1 {
            return self.joined(each, FormNode::Some, members, depth);
        }
        let inner = self.environment.step(depth, each.at)?;
        self.token(b"(", each.at)?;
        self.token(b"(", each.at)?;
        self.at_member(each, *first, inner)?;
        self.token(b"and", each.at)?;
        self.at_least(each, least - 1, others, inner)?;
        self.joined_token(b")", each.at)?;
        self.token(b"or", each.at)?;
        self.at_least(each, least, others, inner)?;
        self.joined_token(b")", each.at)
    }

    // Writes a form.
    #[cycle(writing)]
    fn each(&mut self, each: &'a Each, depth: u32) -> Expanding<()> {
        let least = self.environment.least(each, depth)?;
        let members = self.environment.range(&each.binder, depth, usize::MAX)?;
        match each.form {
            FormNode::AtLeast => self.at_least(each, least, members.as_slice(), depth),
            form => self.joined(each, form, members.as_slice(), depth),
        }
    }
}
