//! Enums, and the types of variables.

use super::{ModelParser, Written};
use dbg_base::Operator;
use notation_tree::fault::{Expanding, ExpansionStop, Meaning, Problem};
use notation_tree::packing::joined;
use notation_tree::scope::Binding;
use notation_tree::syntax::{Constant, DeclarationNode, Expression};
use notation_tree::token::Mark;
use notation_tree::types::{EnumName, EnumNode, TypeNode};

impl<'a> ModelParser<'a> {
    // The name of a new type.
    pub(super) fn type_name(&mut self) -> Expanding<Written> {
        self.pass();
        let name = self.name()?;
        if self.tables.type_named(&name.name).is_some() {
            return Err(ExpansionStop::Bad(Problem::NameTaken(Meaning::Type), name.at));
        }
        Ok(name)
    }

    // A type after a colon, if there is one.
    pub(super) fn kind(&mut self) -> Expanding<Option<usize>> {
        if !self.passes_mark(Mark::Colon) {
            return Ok(None);
        }
        let name = self.name()?;
        match self.tables.type_named(&name.name) {
            Some(kind) => Ok(Some(kind)),
            None => Err(ExpansionStop::Bad(Problem::NoType, name.at)),
        }
    }

    // A new constant with this value. The answer is its number.
    pub(super) fn new_constant(
        &mut self,
        declarations: &mut Vec<DeclarationNode>,
        value: Expression,
        is_width: bool,
    ) -> Expanding<usize> {
        let number = self.tables.constants;
        self.tables.constants = number.saturating_add(1);
        declarations.push(DeclarationNode::Constant(Constant {
            number,
            value,
            is_width,
        }))?;
        Ok(number)
    }

    // The value of a constant of an enum: that which is given, or one more than that of the constant before.
    fn enum_value(&mut self, before: Option<usize>, at: usize) -> Expanding<Expression> {
        if self.passes_mark(Mark::Equals) {
            return self.expression();
        }
        let Some(number) = before else {
            return Ok(Expression::Number(at, 0));
        };
        let last = Expression::Constant(at, number);
        joined(
            self.alloc,
            last,
            Operator::Add,
            Expression::Number(at, 1),
            at,
        )
    }

    // A constant of an enum, after this one.
    fn enum_constant(
        &mut self,
        declarations: &mut Vec<DeclarationNode>,
        before: Option<usize>,
    ) -> Expanding<EnumName> {
        let name = self.name()?;
        let value = self.enum_value(before, name.at)?;
        let constant = self.new_constant(declarations, value, false)?;
        self.declare(&name, Binding::Constant(constant))?;
        Ok(EnumName {
            name: name.name,
            constant,
        })
    }

    // `enum`, a name, and its constants in braces, each of which becomes a declaration.
    pub(super) fn enumeration(&mut self, declarations: &mut Vec<DeclarationNode>) -> Expanding<()> {
        let name = self.type_name()?.name;
        self.mark(Mark::OpenBrace)?;
        let from_zero = !self.has_mark_after(1, Mark::Equals);
        let mut names = Vec::new(self.alloc);
        let mut before = None;
        for _ in self.next..self.tokens.len() {
            let constant = self.enum_constant(declarations, before)?;
            before = Some(constant.constant);
            names.push(constant)?;
            if !self.passes_mark(Mark::Comma) {
                break;
            }
        }
        self.mark(Mark::CloseBrace)?;
        self.tables.types.push(TypeNode::Enum(EnumNode {
            name,
            names,
            from_zero,
        }))?;
        Ok(())
    }

    // Refuses to set a variable of an enum to a constant of another one.
    pub(super) fn check_enum(&self, kind: Option<usize>, value: &Expression) -> Expanding<()> {
        let Some(kind) = kind else {
            return Ok(());
        };
        let Expression::Constant(at, constant) = value else {
            return Ok(());
        };
        match self.tables.enum_of(*constant) {
            Some(owner) if owner != kind => Err(ExpansionStop::Bad(Problem::OtherEnum, *at)),
            _ => Ok(()),
        }
    }
}
