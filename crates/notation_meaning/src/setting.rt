//! What expressions refer to.

ghost use Rattle.std.specs.Prelude.{◌≡◌, length, slice_get, Some, IfOk, IfSome};
ghost use Rattle.notation_tree.specs.ComputedValues.{value_of};
ghost use Rattle.notation_meaning.specs.AgreementViews.{context_of};

use crate::difference::DIFFERENT;
use dbg_base::Pid;
use notation_programs::building::ProcessCopy;
use notation_tree::arithmetic::ConstantValue;
use notation_tree::fault::Expanding;
use notation_tree::syntax::{Definition, Expression};
use proc_tree::Program;
use std::alloc::Global;

/// What is the same for all declarations: the definitions of the model, what is known of its processes, and the plain program. Memory comes
/// from `alloc`.
#[derive(Clone, Copy)]
pub(crate) struct ModelHere<'a> {
    pub(crate) alloc: Global,
    pub(crate) definitions: &'a [Definition],
    pub(crate) copies: &'a [ProcessCopy],
    pub(crate) program: &'a Program,
}

/// What is the same for all items of a process: that, the number of the process in the plain program, how many members its family has, and
/// what is known of it.
#[derive(Clone, Copy)]
pub(crate) struct ProcessHere<'a> {
    pub(crate) model: ModelHere<'a>,
    pub(crate) own: Pid,
    pub(crate) family: usize,
    pub(crate) copy: &'a ProcessCopy,
}

/// What is the same for all expressions at a place: the definitions of the model, and the values of its constants so far, by their numbers.
/// Memory comes from `alloc`.
#[derive(Clone, Copy)]
pub(crate) struct Known<'a> {
    pub(crate) alloc: Global,
    pub(crate) definitions: &'a [Definition],
    pub(crate) constants: &'a [Option<ConstantValue>],
}

/// What is known, the plain program, and the number of the process there.
#[derive(Clone, Copy)]
pub(crate) struct PlainSetting<'a> {
    pub(crate) known: Known<'a>,
    pub(crate) program: &'a Program,
    pub(crate) own: Pid,
}

impl<'a> ModelHere<'a> {
    /// What is known where constants have these values.
    pub(crate) fn known(self, constants: &'a [Option<ConstantValue>]) -> Known<'a>
        ensures { result ≡ record { alloc = self.entry.alloc; definitions = self.entry.definitions; constants = constants.entry } }
    {
        Known {
            alloc: self.alloc,
            definitions: self.definitions,
            constants,
        }
    }
}

impl<'a> ProcessHere<'a> {
    /// What expressions refer to where constants have these values.
    pub(crate) fn setting(self, constants: &'a [Option<ConstantValue>]) -> PlainSetting<'a>
        ensures { result ≡ record {
          known = record { alloc = self.entry.model.alloc; definitions = self.entry.model.definitions; constants = constants.entry };
          program = self.entry.model.program;
          own = self.entry.own;
        } }
    {
        PlainSetting {
            known: self.model.known(constants),
            program: self.model.program,
            own: self.own,
        }
    }
}

/// The definition of this number, which has so many arguments.
pub(crate) fn callee<'a>(
    known: &Known<'a>,
    number: usize,
    arguments: &[Expression],
) -> Expanding<&'a Definition>
    ensures { IfOk result (λ d. (slice_get (context_of known.now).definitions number ≡ Some d.now) × (length arguments.now ≡ d.now.count)) }
{
    let Some(definition) = known.definitions.get(number) else {
        return Err(DIFFERENT);
    };
    if arguments.len() != definition.count {
        return Err(DIFFERENT);
    }
    Ok(definition)
}

/// The value of a constant.
pub(crate) fn constant(known: &Known<'_>, number: usize) -> Option<ConstantValue>
    ensures { IfSome result (λ v. slice_get (context_of known.now).constants number ≡ Some (Some (value_of v))) }
{
    match known.constants.get(number) {
        Some(Some(value)) => Some(*value),
        _ => None,
    }
}
