//! A model, and what is written for it.

ghost use Rattle.std.specs.Prelude.{◌≡◌, slice_get, Some, IfSome};
ghost use Rattle.notation_meaning.specs.CommandLines.{line_context};
ghost use Rattle.notation_meaning.specs.AgreementViews.{context_of, played_of, copy_of};

use crate::setting::Known;
use dbg_base::Pid;
use notation_programs::building::ProcessCopy;
use notation_tree::arithmetic::ConstantValue;
use notation_tree::model::ParsedModel;
use proc_tree::Program;
use std::alloc::Global;

/// A model, the values of its constants, its processes, and the plain program. Memory comes from `alloc`.
#[derive(Clone, Copy)]
pub struct PlayedModel<'a> {
    pub alloc: Global,
    pub model: &'a ParsedModel,
    pub constants: &'a [Option<ConstantValue>],
    pub copies: &'a [ProcessCopy],
    pub program: &'a Program,
}

impl<'a> PlayedModel<'a> {
    /// What is known at a line.
    pub(crate) fn known(self) -> Known<'a>
        ensures { context_of result ≡ line_context (played_of self.entry) }
    {
        Known {
            alloc: self.alloc,
            definitions: self.model.tables.definitions.as_slice(),
            constants: self.constants,
        }
    }

    /// What is known of a process.
    pub(crate) fn copy(self, pid: Pid) -> Option<&'a ProcessCopy>
        ensures { IfSome result (λ copy. slice_get (played_of self.entry).copies pid.0 ≡ Some (copy_of copy.now)) }
    {
        self.copies.get(pid.0 as usize)
    }
}
