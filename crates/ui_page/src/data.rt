//! The data of a page: lines of JSON.

ghost use Rattle.std.specs.Prelude.{◌≡◌, ◌++◌, ℕ, List, [], IfOk};
ghost use Rattle.serde_json.specs.View.{view};
ghost use Rattle.ui_page.specs.PageLines.{ArePageLines, IsLineOf, is_plain};

use serde_json::Value;
use std::alloc::{AllocError, Global};

/// Why something was not recorded.
#[derive(Clone, Copy, PartialEq, Eq)]
pub enum Incomplete {
    /// Memory ran out, or a text has a `<` or a line end. Lists write no text that has one.
    Memory,
    /// The replies have more bytes than those of a page.
    TooLarge,
}

impl From<AllocError> for Incomplete {
    fn from(_error: AllocError) -> Incomplete {
        Incomplete::Memory
    }
}

/// The data of a page: lines, each of which is JSON in UTF-8, without `<`, which might end a script.
#[derive(Drop)]
pub struct PageData {
    bytes: Vec<u8>,
    ghost lines: { ∥ ArePageLines bytes.items ∥₁ },
}

// Whether a text has neither a `<` nor a line end.
fn is_plain(text: &[u8]) -> bool
    ensures { result ≡ is_plain text.now }
{
    text.iter().all(|byte| *byte != b'<' && *byte != b'\n')
}

// The line of a value.
fn line_of(alloc: Global, value: &Value) -> Result<Vec<u8>, Incomplete>
    ensures { IfOk result (λ line. IsLineOf (view value.now) line.items) }
{
    let mut line = value.to_vec(alloc)?;
    if !is_plain(line.as_slice()) {
        return Err(Incomplete::Memory);
    }
    match line.push(b'\n') {
        Ok(()) => Ok(line),
        Err(_) => Err(Incomplete::Memory),
    }
}

impl PageData {
    /// No lines.
    pub(crate) fn new(alloc: Global) -> PageData
        ensures { result.bytes.items ≡ [] }
    {
        PageData {
            bytes: Vec::new(alloc),
        }
    }

    /// The lines.
    pub(crate) fn bytes(&self) -> &[u8]
        ensures value { result.now ≡ self.now.bytes.items }
        ensures lines { ∥ ArePageLines result.now ∥₁ }
    {
        self.bytes.as_slice()
    }

    /// Adds a line: the value as JSON.
    pub(crate) fn add(&mut self, alloc: Global, value: &Value) -> Result<(), Incomplete>
        ensures { IfOk result (λ _. (line : List ℕ) × IsLineOf (view value.now) line × (self.new.bytes.items ≡ self.old.bytes.items ++ line)) }
    {
        let line = line_of(alloc, value)?;
        Ok(self.bytes.extend_from_slice(line.as_slice())?)
    }
}
