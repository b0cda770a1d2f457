//! The forms in which a reply may be expected.

ghost use Rattle.std.specs.Prelude.{◌≡◌, ◌||◌, IfOk};
ghost use Rattle.std.specs.Str.{bytes_eq};
ghost use Rattle.ui_repl.specs.Expected.{IsComparable};

use crate::written_program::WrittenProgram;
use std::alloc::{AllocError, Global};
use ui_session::plain_text;
use ui_view::ReplyLines;

/// A reply in the forms in which a line `> REPLY` may give it: as it is shown, in a model with plain names, and as a run writes it. They
/// differ in the label of a command.
#[derive(Drop)]
pub struct ReplyForms {
    pub shown: Vec<u8>,
    pub plain: Vec<u8>,
}

impl ReplyForms {
    /// Whether this is one of them.
    pub fn has(&self, wanted: &[u8]) -> bool
        ensures { result ≡ (bytes_eq self.now.shown.items wanted.now || bytes_eq self.now.plain.items wanted.now) }
    {
        self.shown.as_slice() == wanted || self.plain.as_slice() == wanted
    }
}

impl WrittenProgram {
    /// A reply to a line of a session of this program: in a model, with plain names. Error: memory ran out.
    pub fn comparable(&self, alloc: Global, reply: &[u8]) -> Result<Vec<u8>, AllocError>
        ensures { IfOk result (λ made. IsComparable reply.now made.items) }
    {
        if self.text().is_model() {
            plain_text(alloc, reply)
        } else {
            Vec::from_slice(alloc, reply)
        }
    }

    /// The forms of a reply. Error: memory ran out.
    pub fn forms_of(&self, alloc: Global, replies: ReplyLines<'_>) -> Result<ReplyForms, AllocError>
        ensures { IfOk result (λ forms. IsComparable replies.entry.shown.now forms.shown.items × (forms.plain.items ≡ replies.entry.plain.now)) }
    {
        Ok(ReplyForms {
            shown: self.comparable(alloc, replies.shown)?,
            plain: Vec::from_slice(alloc, replies.plain)?,
        })
    }
}
