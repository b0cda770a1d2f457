//! Messages: their fields, and the definitions that pack and unpack them.

use super::ModelParser;
use dbg_base::Operator;
use notation_tree::fault::{Expanding, ExpansionStop, Meaning, Problem};
use notation_tree::limits::{NESTING, PARAMETERS};
use notation_tree::packing::{joined, packed, unpacked};
use notation_tree::scope::Binding;
use notation_tree::syntax::{DeclarationNode, Definition, Expression, place};
use notation_tree::token::Mark;
use notation_tree::types::{FieldName, FieldNode, MessageNode, TypeNode, has_field};
use notation_tree::words::is_form;

// The bounds of the range of a field, its enum if it is that of one, and whether it begins with 0.
#[derive(Drop)]
struct FieldRange {
    kind: Option<usize>,
    low: Expression,
    high: Expression,
    from_zero: bool,
}

impl<'a> ModelParser<'a> {
    // The range of a field: an enum, whose range is from its first constant to its last, or two bounds.
    fn field_range(&mut self) -> Expanding<FieldRange> {
        let at = self.at();
        if !self.has_mark_after(1, Mark::Comma) && !self.has_mark_after(1, Mark::CloseBrace) {
            let (low, high) = self.range(NESTING)?;
            let from_zero = matches!(low, Expression::Number(_, 0));
            return Ok(FieldRange {
                kind: None,
                low,
                high,
                from_zero,
            });
        }
        let name = self.name()?;
        let kind = self.tables.type_named(&name.name);
        let node = kind.and_then(|kind| self.tables.types.get(kind));
        if let Some(TypeNode::Enum(node)) = node {
            if let (Some(first), Some(last)) = (node.names.first(), node.names.last()) {
                return Ok(FieldRange {
                    kind,
                    low: Expression::Constant(at, first.constant),
                    high: Expression::Constant(at, last.constant),
                    from_zero: node.from_zero,
                });
            }
        }
        Err(ExpansionStop::Bad(Problem::NoType, at))
    }

    // A field, with constants for its range.
    fn field(&mut self, declarations: &mut Vec<DeclarationNode>) -> Expanding<FieldNode> {
        let name = self.name()?;
        self.mark(Mark::Colon)?;
        let FieldRange {
            kind,
            low,
            high,
            from_zero,
        } = self.field_range()?;
        let at = place(&low);
        let low = self.new_constant(declarations, low, false)?;
        let high = self.new_constant(declarations, high, false)?;
        let (bounds, width) = self.range_constants(declarations, low, high, at)?;
        Ok(FieldNode {
            at: name.at,
            name: name.name,
            kind,
            low,
            from_zero,
            bounds,
            width,
            unit: None,
        })
    }

    // Constants for the sum of these bounds, and for how many values are between them.
    fn range_constants(
        &mut self,
        declarations: &mut Vec<DeclarationNode>,
        low: usize,
        high: usize,
        at: usize,
    ) -> Expanding<(usize, usize)> {
        let least = Expression::Constant(at, low);
        let largest = Expression::Constant(at, high);
        let sum = joined(self.alloc, least, Operator::Add, largest, at)?;
        let bounds = self.new_constant(declarations, sum, false)?;
        let least = Expression::Constant(at, low);
        let largest = Expression::Constant(at, high);
        let span = joined(self.alloc, largest, Operator::Subtract, least, at)?;
        let width = joined(
            self.alloc,
            span,
            Operator::Add,
            Expression::Number(at, 1),
            at,
        )?;
        Ok((bounds, self.new_constant(declarations, width, true)?))
    }

    // The constants for how many messages differ in the fields after each one, and in all fields.
    fn unit_constants(
        &mut self,
        declarations: &mut Vec<DeclarationNode>,
        fields: &mut Vec<FieldNode>,
    ) -> Expanding<()> {
        let mut unit = None;
        for field in fields.iter_mut().rev() {
            field.unit = unit;
            let width = Expression::Constant(field.at, field.width);
            let value = match unit {
                Some(number) => {
                    let unit = Expression::Constant(field.at, number);
                    joined(self.alloc, width, Operator::Multiply, unit, field.at)?
                }
                None => width,
            };
            unit = Some(self.new_constant(declarations, value, false)?);
        }
        Ok(())
    }

    // A new definition with so many new parameters. The answer is its number.
    pub(super) fn new_definition(&mut self, body: Expression, count: usize) -> Expanding<usize> {
        let first = self.tables.parameters;
        self.tables.parameters = first.saturating_add(count);
        let number = self.tables.definitions.len();
        self.tables
            .definitions
            .push(Definition { first, count, body })?;
        Ok(number)
    }

    // The fields of the message that becomes the next type, up to a closing brace, and a definition of the value of each.
    fn message_fields(
        &mut self,
        declarations: &mut Vec<DeclarationNode>,
    ) -> Expanding<Vec<FieldNode>> {
        let mut fields = Vec::new(self.alloc);
        for _ in 0..PARAMETERS {
            let field = self.field(declarations)?;
            if has_field(fields.as_slice(), &field.name) {
                return Err(ExpansionStop::Bad(Problem::NameTaken(Meaning::Field), field.at));
            }
            fields.push(field)?;
            if !self.passes_mark(Mark::Comma) {
                break;
            }
        }
        self.mark(Mark::CloseBrace)?;
        self.unit_constants(declarations, &mut fields)?;
        let message = self.tables.types.len();
        for (number, field) in fields.iter().enumerate() {
            let body = unpacked(self.alloc, field, number == 0, self.tables.parameters)?;
            let definition = self.new_definition(body, 1)?;
            let name = field.name;
            self.tables.fields.push(FieldName {
                message,
                name,
                definition,
            })?;
        }
        Ok(fields)
    }

    // `message`, a name, and its fields in braces. Its constants become declarations, and it is a definition that packs its fields.
    pub(super) fn message(&mut self, declarations: &mut Vec<DeclarationNode>) -> Expanding<()> {
        let name = self.type_name()?;
        if is_form(name.name.bytes()) {
            return Err(ExpansionStop::Bad(Problem::FormName, name.at));
        }
        self.mark(Mark::OpenBrace)?;
        let fields = self.message_fields(declarations)?;
        let body = packed(
            self.alloc,
            fields.as_slice(),
            self.tables.parameters,
            name.at,
        )?;
        let definition = self.new_definition(body, fields.len())?;
        self.declare(&name, Binding::Definition(definition, fields.len()))?;
        self.tables.types.push(TypeNode::Message(MessageNode {
            name: name.name,
            definition,
            fields,
        }))?;
        Ok(())
    }
}
