//! The names that a program text declares, as far as its words tell.

use crate::forms::are_near;
use crate::source::prefix_word;
use std::alloc::{AllocError, Global};

/// What a name is declared as.
#[derive(Clone, Copy, PartialEq, Eq)]
pub enum DeclaredAs {
    Process,
    Variable,
    Constant,
    Definition,
}

/// A declaration of a name.
#[derive(Clone, Copy)]
pub struct Declaration<'a> {
    pub name: &'a [u8],
    pub kind: DeclaredAs,
    /// The offset of the name.
    pub at: usize,
    /// Whether ranges follow the name, so that it is that of a family.
    pub is_family: bool,
}

// The words before names, with what they declare.
const DECLARING: [(&str, DeclaredAs); 4] = [
    ("process", DeclaredAs::Process),
    ("var", DeclaredAs::Variable),
    ("const", DeclaredAs::Constant),
    ("let", DeclaredAs::Definition),
];

// What the name after this word is declared as.
fn declares(word: &[u8]) -> Option<DeclaredAs> {
    let mut words = DECLARING.iter();
    let (_, kind) = words.find(|(declaring, _)| declaring.as_bytes() == word)?;
    Some(*kind)
}

// The declarations of a text that are not in comments, in order.
#[derive(Drop)]
struct Declarations<'a> {
    text: &'a [u8],
    from: usize,
    is_comment: bool,
    // What the last word declares.
    before: Option<DeclaredAs>,
}

impl<'a> Declarations<'a> {
    fn of(text: &'a [u8]) -> Declarations<'a> {
        Declarations {
            text,
            from: 0,
            is_comment: false,
            before: None,
        }
    }

    // The declaration whose name begins here, if one does. Goes past the word, and the byte after it.
    fn pass_word(&mut self) -> Option<Declaration<'a>> {
        let at = self.from;
        let name = prefix_word(self.text.get(at..).unwrap_or(&[]));
        let end = at.saturating_add(name.len());
        let is_code = !self.is_comment && !name.is_empty();
        match self.text.get(end) {
            Some(b'#') => self.is_comment = true,
            Some(b'\n') => self.is_comment = false,
            _ => {}
        }
        self.from = end.saturating_add(1);
        if !is_code {
            return None;
        }
        let kind = self.before;
        self.before = declares(name);
        Some(Declaration {
            name,
            kind: kind?,
            at,
            is_family: self.text.get(end) == Some(&b'['),
        })
    }

    fn next(&mut self) -> Option<Declaration<'a>> {
        for _ in self.from..=self.text.len() {
            let found = self.pass_word();
            if found.is_some() {
                return found;
            }
        }
        None
    }
}

/// The first declaration of a name in a text.
pub fn find_declaration<'a>(text: &'a [u8], name: &[u8]) -> Option<Declaration<'a>> {
    let mut declarations = Declarations::of(text);
    for _ in 0..=text.len() {
        let found = declarations.next()?;
        if found.name == name {
            return Some(found);
        }
    }
    None
}

/// The first name that a text declares as one of this kind and that is nearly this one. Names of one or two bytes are not near others.
/// Error: memory ran out.
pub(crate) fn near_name<'a>(
    alloc: Global,
    text: &'a [u8],
    kind: DeclaredAs,
    name: &[u8],
) -> Result<Option<&'a [u8]>, AllocError> {
    let mut declarations = Declarations::of(text);
    for _ in 0..=text.len() {
        let Some(found) = declarations.next() else {
            return Ok(None);
        };
        let is_long = found.name.len() > 2 && name.len() > 2;
        if found.kind == kind
            && is_long
            && found.name != name
            && are_near(alloc, found.name, name)?
        {
            return Ok(Some(found.name));
        }
    }
    Ok(None)
}

/// The part of a text from the name of the process in which this offset is, up to the name of the next process.
pub(crate) fn process_around(text: &[u8], at: usize) -> &[u8] {
    let mut declarations = Declarations::of(text);
    let mut begin = 0usize;
    for _ in 0..=text.len() {
        let Some(found) = declarations.next() else {
            break;
        };
        if found.kind == DeclaredAs::Process {
            if found.at > at {
                return text.get(begin..found.at).unwrap_or(&[]);
            }
            begin = found.at;
        }
    }
    text.get(begin..).unwrap_or(&[])
}
