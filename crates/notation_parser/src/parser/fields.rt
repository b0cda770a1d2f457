//! Fields of messages in expressions.

use super::ModelParser;
use notation_tree::fault::{Expanding, ExpansionStop};
use notation_tree::scope::Binding;
use notation_tree::syntax::{Expression, Reference, place};
use notation_tree::token::Mark;
use notation_tree::types::{FieldName, find_field};

impl<'a> ModelParser<'a> {
    // The type that a variable is declared with.
    pub(super) fn type_of(&self, reference: &Reference) -> Option<usize> {
        match self.scope.meaning(reference.name.bytes()) {
            Some(Binding::Variable(kind)) => kind,
            _ => None,
        }
    }

    // The type of an expression: that of the variable that it is, of the constant of an enum, or of the message that it packs.
    pub(super) fn kind_of(&self, expression: &Expression) -> Option<usize> {
        match expression {
            Expression::Name(reference) => self.type_of(reference),
            Expression::Constant(_, number) => self.tables.enum_of(*number),
            Expression::Call(_, number, _) => self.tables.message_of(*number),
            _ => None,
        }
    }

    // The fields of all messages.
    fn fields(&self) -> &[FieldName] {
        match self.scope.model {
            Some(model) => model.fields(),
            None => self.tables.fields.as_slice(),
        }
    }

    // An expression, or the field of it whose name follows after a `.`.
    pub(super) fn field_of(&mut self, expression: Expression) -> Expanding<Expression> {
        if !self.passes_mark(Mark::Dot) {
            return Ok(expression);
        }
        let name = self.name()?;
        let message = match &expression {
            Expression::Name(reference) => self.type_of(reference),
            _ => None,
        };
        let definition = match find_field(self.fields(), &name.name, message) {
            Ok(definition) => definition,
            Err(problem) => return Err(ExpansionStop::Bad(problem, name.at)),
        };
        let at = place(&expression);
        let mut arguments = Vec::new(self.alloc);
        arguments.push(expression)?;
        Ok(Expression::Call(at, definition, arguments))
    }
}
