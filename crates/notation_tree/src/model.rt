//! A model that was read: its declarations, and what names of it mean.

use crate::scope::Binding;
use crate::syntax::{DeclarationNode, Definition};
use crate::types::{FieldName, TypeNode};
use dbg_base::Name;
use std::alloc::Global;

/// A name that is visible in a whole process, or in the whole model.
#[derive(Clone, Copy)]
pub struct Visible {
    pub name: Name,
    pub binding: Binding,
    /// The number of the declaration in which it is visible, or None for the whole model.
    pub declaration: Option<usize>,
}

/// What is numbered in a model: definitions, names of members, types, and how many constants and parameters there are.
#[derive(Drop)]
pub struct Tables {
    pub definitions: Vec<Definition>,
    pub members: Vec<Name>,
    pub constants: usize,
    pub parameters: usize,
    pub visible: Vec<Visible>,
    pub types: Vec<TypeNode>,
    pub fields: Vec<FieldName>,
}

impl Tables {
    /// Nothing.
    pub fn new(alloc: Global) -> Tables {
        Tables {
            definitions: Vec::new(alloc),
            members: Vec::new(alloc),
            constants: 0,
            parameters: 0,
            visible: Vec::new(alloc),
            types: Vec::new(alloc),
            fields: Vec::new(alloc),
        }
    }

    /// The number of the type of this name.
    pub fn type_named(&self, name: &Name) -> Option<usize> {
        let mut types = self.types.iter();
        types.position(|node| node.name().bytes() == name.bytes())
    }

    /// The number of the enum of a constant.
    pub fn enum_of(&self, constant: usize) -> Option<usize> {
        let mut types = self.types.iter();
        types.position(|node| match node {
            TypeNode::Enum(node) => node.names.iter().any(|name| name.constant == constant),
            TypeNode::Message(_) => false,
        })
    }

    /// The number of the message that a definition packs.
    pub fn message_of(&self, definition: usize) -> Option<usize> {
        let mut types = self.types.iter();
        types.position(|node| match node {
            TypeNode::Enum(_) => false,
            TypeNode::Message(message) => message.definition == definition,
        })
    }
}

/// A model that was read.
#[derive(Drop)]
pub struct ParsedModel {
    pub declarations: Vec<DeclarationNode>,
    pub tables: Tables,
}
