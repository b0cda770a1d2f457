//! Types of variables: enums, and messages whose fields are packed into one number.

use crate::fault::Problem;
use dbg_base::Name;

/// A constant of an enum: its name, and its number.
#[derive(Clone, Copy)]
pub struct EnumName {
    pub name: Name,
    pub constant: usize,
}

/// An enum: its constants, in order, and whether the first one is 0.
#[derive(Drop)]
pub struct EnumNode {
    pub name: Name,
    pub names: Vec<EnumName>,
    pub from_zero: bool,
}

/// A field of a message, with the numbers of constants that its range gives.
#[derive(Clone, Copy)]
pub struct FieldNode {
    pub at: usize,
    pub name: Name,
    /// The number of the enum that the field has the values of.
    pub kind: Option<usize>,
    /// The least value, and whether the text says that it is 0.
    pub low: usize,
    pub from_zero: bool,
    /// The sum of the least value and the largest.
    pub bounds: usize,
    /// How many values there are.
    pub width: usize,
    /// How many messages differ in later fields alone. The last field has no such constant.
    pub unit: Option<usize>,
}

/// A message: the definition that packs its fields, and these in order.
#[derive(Drop)]
pub struct MessageNode {
    pub name: Name,
    pub definition: usize,
    pub fields: Vec<FieldNode>,
}

/// A type that a variable may be declared with.
#[derive(Drop)]
pub enum TypeNode {
    Enum(EnumNode),
    Message(MessageNode),
}

impl TypeNode {
    /// Its name.
    pub fn name(&self) -> Name {
        match self {
            TypeNode::Enum(node) => node.name,
            TypeNode::Message(node) => node.name,
        }
    }
}

/// A field of a message, by the number of the message among the types, and the definition of its value.
#[derive(Clone, Copy)]
pub struct FieldName {
    pub message: usize,
    pub name: Name,
    pub definition: usize,
}

/// Whether one of these fields has the name.
pub fn has_field(fields: &[FieldNode], name: &Name) -> bool {
    fields
        .iter()
        .any(|field| field.name.bytes() == name.bytes())
}

/// The definition of the field of this name in this message, or in the only message that has it.
pub fn find_field(
    fields: &[FieldName],
    name: &Name,
    message: Option<usize>,
) -> Result<usize, Problem> {
    let mut found = None;
    for field in fields {
        let is_wanted = message.is_none_or(|number| number == field.message);
        if is_wanted && field.name.bytes() == name.bytes() {
            if found.is_some() {
                return Err(Problem::FieldOfSeveral);
            }
            found = Some(field.definition);
        }
    }
    found.ok_or(Problem::NoField)
}
