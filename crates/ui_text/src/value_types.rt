//! The types of the values of a model, and what is shown for a value of a type.

use crate::part::{NamedNumber, PackedValue, ShownValue};
use std::alloc::{AllocError, Global};

// The name of a value of an enum.
#[derive(Drop)]
struct ValueName {
    value: i64,
    name: Vec<u8>,
}

/// A field of a message: the least number in it, how many numbers it has from there, and the type of which they are, if they have names.
#[derive(Drop)]
pub(crate) struct MessageField {
    pub(crate) low: i64,
    pub(crate) width: i64,
    pub(crate) kind: Option<usize>,
}

// A type: an enum has names, and a message a name and fields, which are packed into one number. The last field counts 1.
#[derive(Drop)]
enum ValueType {
    Enum(Vec<ValueName>),
    Message(Vec<u8>, Vec<MessageField>),
}

/// The types of a program. They are numbered from 0, in the order in which they were added.
#[derive(Drop)]
pub(crate) struct ValueTypes {
    types: Vec<ValueType>,
}

/// What is left of a packed value without these fields at its end.
pub(crate) fn without_fields(value: i64, fields: &[MessageField]) -> i64 {
    let mut rest = value;
    for field in fields.iter().rev() {
        rest = rest.checked_div(field.width).unwrap_or(0);
    }
    rest
}

impl ValueTypes {
    /// No types.
    pub(crate) fn new(alloc: Global) -> ValueTypes {
        ValueTypes {
            types: Vec::new(alloc),
        }
    }

    // The allocator of the types.
    fn alloc(&self) -> Global {
        *self.types.allocator()
    }

    /// Adds an enum.
    pub(crate) fn add_enum(&mut self) -> Result<(), AllocError> {
        let names = Vec::new(self.alloc());
        Ok(self.types.push(ValueType::Enum(names))?)
    }

    /// Adds a name to the last type, if it is an enum.
    pub(crate) fn add_name(&mut self, name: &[u8], value: i64) -> Result<(), AllocError> {
        let name = Vec::from_slice(self.alloc(), name)?;
        match self.types.last_mut() {
            Some(ValueType::Enum(names)) => Ok(names.push(ValueName { value, name })?),
            _ => Ok(()),
        }
    }

    /// Adds a message type.
    pub(crate) fn add_message(&mut self, name: &[u8]) -> Result<(), AllocError> {
        let name = Vec::from_slice(self.alloc(), name)?;
        let fields = Vec::new(self.alloc());
        Ok(self.types.push(ValueType::Message(name, fields))?)
    }

    /// Adds a field to the last type, if it is a message.
    pub(crate) fn add_field(
        &mut self,
        low: i64,
        width: i64,
        kind: Option<usize>,
    ) -> Result<(), AllocError> {
        match self.types.last_mut() {
            Some(ValueType::Message(_, fields)) => {
                Ok(fields.push(MessageField { low, width, kind })?)
            }
            _ => Ok(()),
        }
    }

    // The type of this number, if there is one.
    fn get(&self, kind: Option<usize>) -> Option<&ValueType> {
        self.types.get(kind?)
    }

    /// A number, with its name in a type.
    pub(crate) fn named(&self, kind: Option<usize>, number: i64) -> NamedNumber<'_> {
        let name = match self.get(kind) {
            Some(ValueType::Enum(names)) => names
                .iter()
                .find(|named| named.value == number)
                .map(|named| named.name.as_slice()),
            _ => None,
        };
        NamedNumber { number, name }
    }

    /// What is shown for a value of a type. If it is no value of that type, it is a number.
    pub(crate) fn shown(&self, kind: Option<usize>, value: i64) -> ShownValue<'_> {
        match self.get(kind) {
            Some(ValueType::Message(name, fields))
                if value >= 0 && without_fields(value, fields.as_slice()) == 0 => {
                ShownValue::Packed(PackedValue {
                    types: self,
                    name: name.as_slice(),
                    fields: fields.as_slice(),
                    value,
                })
            }
            _ => ShownValue::Plain(self.named(kind, value)),
        }
    }
}
