//! What names mean at a place of the text.

use crate::fault::Meaning;
use crate::model::{Tables, Visible};
use crate::types::FieldName;
use std::alloc::{AllocError, Global};
use std::cmp::Ordering;
use std::collections::BTreeMap;

/// What a name means, with the number of the constant, definition, member or parameter. A definition has so many parameters, too. A variable
/// may have a type.
#[derive(Clone, Copy, PartialEq, Eq)]
pub enum Binding {
    Constant(usize),
    Definition(usize, usize),
    Member(usize),
    Parameter(usize),
    Variable(Option<usize>),
}

impl Binding {
    /// What it is.
    pub fn meaning(self) -> Meaning {
        match self {
            Binding::Constant(_) => Meaning::Constant,
            Binding::Definition(_, _) => Meaning::Definition,
            Binding::Member(_) => Meaning::Member,
            Binding::Parameter(_) => Meaning::Parameter,
            Binding::Variable(_) => Meaning::Variable,
        }
    }

    // Whether a name may not have both meanings. The parameters of a definition may hide others, and two variables of one name are left
    // to the process language.
    fn clashes(self, new: Binding) -> bool {
        match (self, new) {
            (Binding::Variable(_), Binding::Variable(_)) => false,
            (Binding::Parameter(_), Binding::Parameter(_)) => true,
            (Binding::Parameter(_), _) | (_, Binding::Parameter(_)) => false,
            _ => true,
        }
    }
}

// A name that was declared, and what it meant before.
#[derive(Clone, Copy)]
struct Declared<'a> {
    name: &'a [u8],
    before: Option<Binding>,
}

/// The names of a model that command lines may use: those of the whole model, and those of each process by its declaration.
#[derive(Drop)]
pub struct ModelNames {
    // Sorted by their declarations, and then by their names.
    names: Vec<Visible>,
    fields: Vec<FieldName>,
}

// Compares a name of a model with this name in this declaration.
fn order(one: &Visible, declaration: Option<usize>, name: &[u8]) -> Ordering {
    match one.declaration.cmp(&declaration) {
        Ordering::Equal => one.name.bytes().cmp(name),
        unequal => unequal,
    }
}

impl ModelNames {
    /// The names of a model.
    pub fn new(alloc: Global, tables: &Tables) -> Result<ModelNames, AllocError> {
        let fields = Vec::from_slice(alloc, tables.fields.as_slice())?;
        let mut names = Vec::from_slice(alloc, tables.visible.as_slice())?;
        names.sort_unstable_by(|one, other| order(one, other.declaration, other.name.bytes()));
        Ok(ModelNames { names, fields })
    }

    // What the name means in this declaration, or in the whole model.
    fn find(&self, name: &[u8], declaration: Option<usize>) -> Option<Binding> {
        let place = self
            .names
            .binary_search_by(|one| order(one, declaration, name))
            .ok()?;
        Some(self.names.get(place)?.binding)
    }

    // What the name means in the whole model, or else in the process of this declaration.
    fn meaning(&self, name: &[u8], declaration: Option<usize>) -> Option<Binding> {
        match self.find(name, None) {
            Some(binding) => Some(binding),
            None => self.find(name, Some(declaration?)),
        }
    }

    /// The fields of all messages.
    pub fn fields(&self) -> &[FieldName] {
        self.fields.as_slice()
    }
}

/// The names that are visible.
#[derive(Drop)]
pub struct ModelScope<'a> {
    meanings: BTreeMap<&'a [u8], Binding>,
    declared: Vec<Declared<'a>>,
    // For a command line, the names of its model.
    pub model: Option<&'a ModelNames>,
    /// The declaration of the process whose names are visible.
    pub process: Option<usize>,
}

impl<'a> ModelScope<'a> {
    /// No name is visible, but those of a model.
    pub fn new(alloc: Global, model: Option<&'a ModelNames>) -> ModelScope<'a> {
        ModelScope {
            meanings: BTreeMap::new(alloc),
            declared: Vec::new(alloc),
            model,
            process: None,
        }
    }

    /// What the name means. A variable is known to a command line only if it has a type.
    pub fn meaning(&self, name: &[u8]) -> Option<Binding> {
        match self.meanings.get(name) {
            Some(binding) => Some(*binding),
            None => self.model?.meaning(name, self.process),
        }
    }

    /// Gives the name a meaning. The answer is what it means already, if it cannot have both.
    pub fn declare(&mut self, name: &'a [u8], new: Binding) -> Result<Option<Meaning>, AllocError> {
        if let Some(old) = self.meaning(name) {
            if old.clashes(new) {
                return Ok(Some(old.meaning()));
            }
        }
        let before = self.meanings.insert(name, new)?;
        self.declared.push(Declared { name, before })?;
        Ok(None)
    }

    /// How many names were declared.
    pub fn mark(&self) -> usize {
        self.declared.len()
    }

    // Takes the last declaration back.
    fn forget(&mut self) {
        if let Some(Declared { name, before }) = self.declared.pop() {
            match before {
                Some(old) => {
                    if let Some(meaning) = self.meanings.get_mut(name) {
                        *meaning = old;
                    }
                }
                None => {
                    let _ = self.meanings.remove(name);
                }
            }
        }
    }

    /// Takes back all declarations since the mark.
    pub fn leave(&mut self, mark: usize) {
        for _ in mark..self.declared.len() {
            self.forget();
        }
    }
}
