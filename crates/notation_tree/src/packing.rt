//! How a message is packed into one number, and its fields are read from that.

use crate::fault::Expanding;
use crate::syntax::{Expression, Link};
use crate::types::FieldNode;
use dbg_base::Operator;
use std::alloc::Global;

/// An expression with an operator at this offset and its right operand.
pub fn joined(
    alloc: Global,
    left: Expression,
    operator: Operator,
    right: Expression,
    at: usize,
) -> Expanding<Expression> {
    let mut links = Vec::new(alloc);
    links.push(Link {
        operator,
        at,
        operand: right,
    })?;
    Ok(Expression::Chain(at, Box::new(alloc, left)?, links))
}

// An expression with an operator and a constant after it.
fn with_constant(
    alloc: Global,
    left: Expression,
    operator: Operator,
    constant: usize,
    at: usize,
) -> Expanding<Expression> {
    joined(
        alloc,
        left,
        operator,
        Expression::Constant(at, constant),
        at,
    )
}

// How far a value is from the middle of the range of a field, in units of its width: 0 in the range, and something else outside.
fn distance(alloc: Global, field: &FieldNode, parameter: usize) -> Expanding<Expression> {
    let at = field.at;
    let value = Expression::Parameter(at, parameter);
    let twice = joined(
        alloc,
        Expression::Number(at, 2),
        Operator::Multiply,
        value,
        at,
    )?;
    let centred = with_constant(alloc, twice, Operator::Subtract, field.bounds, at)?;
    with_constant(alloc, centred, Operator::Divide, field.width, at)
}

// The square of that distance.
fn square(alloc: Global, field: &FieldNode, parameter: usize) -> Expanding<Expression> {
    let left = distance(alloc, field, parameter)?;
    let right = distance(alloc, field, parameter)?;
    joined(alloc, left, Operator::Multiply, right, field.at)
}

// What is added up for each field of a message: its part of the packed number, or the square of a distance.
#[derive(Clone, Copy)]
enum Addend {
    Part,
    Square,
}

// What is added up for fields whose values are the parameters from this one on, after something that is before it.
fn addends(
    alloc: Global,
    fields: &[FieldNode],
    first: usize,
    addend: Addend,
) -> Expanding<Vec<Link>> {
    let mut links = Vec::new(alloc);
    for (number, field) in fields.iter().enumerate() {
        let parameter = first.saturating_add(number);
        let operand = match addend {
            Addend::Part => packed_field(alloc, field, parameter)?,
            Addend::Square => square(alloc, field, parameter)?,
        };
        links.push(Link {
            operator: Operator::Add,
            at: field.at,
            operand,
        })?;
    }
    Ok(links)
}

// 0 where each value is in the range of its field; otherwise a division by 0, which is a fault of the command.
fn range_check(
    alloc: Global,
    fields: &[FieldNode],
    first: usize,
    at: usize,
) -> Expanding<Expression> {
    let one = Box::new(alloc, Expression::Number(at, 1))?;
    let squares = addends(alloc, fields, first, Addend::Square)?;
    let sum = Expression::Chain(at, one, squares);
    let inverse = joined(alloc, Expression::Number(at, 1), Operator::Divide, sum, at)?;
    joined(
        alloc,
        Expression::Number(at, 0),
        Operator::Divide,
        inverse,
        at,
    )
}

// The part of a packed message that a field is.
fn packed_field(alloc: Global, field: &FieldNode, parameter: usize) -> Expanding<Expression> {
    let at = field.at;
    let mut value = Expression::Parameter(at, parameter);
    if !field.from_zero {
        value = with_constant(alloc, value, Operator::Subtract, field.low, at)?;
    }
    if let Some(unit) = field.unit {
        value = with_constant(alloc, value, Operator::Multiply, unit, at)?;
    }
    Ok(value)
}

/// A message of these fields, whose values are the parameters from this one on, as one number.
pub fn packed(
    alloc: Global,
    fields: &[FieldNode],
    first: usize,
    at: usize,
) -> Expanding<Expression> {
    let check = Box::new(alloc, range_check(alloc, fields, first, at)?)?;
    let parts = addends(alloc, fields, first, Addend::Part)?;
    Ok(Expression::Chain(at, check, parts))
}

/// The value of a field of a message. The first field has all that is left of the others.
pub fn unpacked(
    alloc: Global,
    field: &FieldNode,
    is_first: bool,
    parameter: usize,
) -> Expanding<Expression> {
    let at = field.at;
    let mut value = Expression::Parameter(at, parameter);
    if let Some(unit) = field.unit {
        value = with_constant(alloc, value, Operator::Divide, unit, at)?;
    }
    if !is_first {
        value = with_constant(alloc, value, Operator::Remainder, field.width, at)?;
    }
    if !field.from_zero {
        value = with_constant(alloc, value, Operator::Add, field.low, at)?;
    }
    Ok(value)
}
