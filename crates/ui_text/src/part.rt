//! The parts of a line, and what is shown for a value.

use crate::value_types::{MessageField, ValueTypes, without_fields};
use dbg_base::Name;

/// A number, and the name that is shown for it, if it has one.
#[derive(Clone, Copy)]
pub struct NamedNumber<'a> {
    pub number: i64,
    pub name: Option<&'a [u8]>,
}

/// A value of a message type.
#[derive(Clone, Copy)]
pub struct PackedValue<'a> {
    pub(crate) types: &'a ValueTypes,
    pub(crate) name: &'a [u8],
    pub(crate) fields: &'a [MessageField],
    pub(crate) value: i64,
}

/// What is shown for a value: a number or a name, or of a message its type with the fields.
#[derive(Clone, Copy)]
pub enum ShownValue<'a> {
    Plain(NamedNumber<'a>),
    Packed(PackedValue<'a>),
}

/// A part of a line: words, bytes, a name, a number, a value as it is shown, or how many events there are. `Indexed` is a name with the
/// indices at its end in brackets. The name of a process with its number, and a new value, have a style of their own.
#[derive(Clone, Copy)]
pub enum Part<'a> {
    Text(&'a str),
    Bytes(&'a [u8]),
    Name(Name),
    Indexed(Name),
    Number(i64),
    Natural(u32),
    Count(usize),
    Events(u32),
    Process(&'a [u8], u32),
    Shown(ShownValue<'a>),
    Value(ShownValue<'a>),
}

impl ShownValue<'_> {
    /// A number.
    pub fn number(number: i64) -> ShownValue<'static> {
        ShownValue::Plain(NamedNumber { number, name: None })
    }

    /// Whether it is a number.
    pub fn is_number(&self) -> bool {
        matches!(self, ShownValue::Plain(named) if named.name.is_none())
    }
}

impl<'a> PackedValue<'a> {
    /// The name of the type.
    pub fn name(&self) -> &'a [u8] {
        self.name
    }

    /// How many fields it has.
    pub fn len(&self) -> usize {
        self.fields.len()
    }

    /// The field of this number, from 0. It is 0 if there is none.
    pub fn field(&self, at: usize) -> NamedNumber<'a> {
        let after = self.fields.get(at.saturating_add(1)..).unwrap_or(&[]);
        match self.fields.get(at) {
            Some(field) => {
                let rest = without_fields(self.value, after);
                let above = rest.checked_rem(field.width).unwrap_or(0);
                self.types
                    .named(field.kind, field.low.saturating_add(above))
            }
            None => self.types.named(None, 0),
        }
    }
}
