//! Labels of commands.

ghost use Rattle.std.specs.Prelude.{◌≡◌, drop, slice_get, Some, IfOk};
ghost use Rattle.notation_meaning.specs.AgreementViews.{scope_of, texts_of};
ghost use Rattle.notation_meaning.specs.ModelPrograms.{with_brackets, values_in, label_in};

use crate::difference::DIFFERENT;
use crate::names::with_brackets;
use crate::scopes::{PlaceScope, values};
use notation_programs::building::ProcessCopy;
use notation_tree::fault::Expanding;
use notation_tree::syntax::Label;
use std::alloc::Global;

/// The label of the command of this number.
pub(crate) fn noted_label(copy: &ProcessCopy, number: u32) -> Expanding<&[u8]>
    ensures { IfOk result (λ label. slice_get (texts_of copy.now.commands.items) number ≡ Some label.now) }
{
    match copy.commands.get(number as usize) {
        Some(command) => Ok(command.label.as_slice()),
        None => Err(DIFFERENT),
    }
}

// The name with indices in brackets.
fn with_indices(alloc: Global, name: &[u8], indices: &[i64]) -> Expanding<Vec<u8>>
    ensures { IfOk result (λ whole. whole.items ≡ with_brackets name.now indices.now) }
{
    let mut whole = Vec::from_slice(alloc, name)?;
    let mut rest = indices;
    while let Some((first, others)) = rest.split_first() {
        whole = with_brackets(whole, *first)?;
        rest = others;
    }
    Ok(whole)
}

// The label of a command that has one, where its family has so many members.
fn label_text(
    alloc: Global,
    family: usize,
    scope: &PlaceScope<'_>,
    label: Label,
) -> Expanding<Vec<u8>>
    ensures { IfOk result (λ text. text.items ≡ with_brackets label.name (drop family (values_in (scope_of scope.now)))) }
{
    let found = values(alloc, scope)?;
    if family > found.len() {
        return Err(DIFFERENT);
    }
    let (_, indices) = found.as_slice().split_at(family);
    with_indices(alloc, label.name.bytes(), indices)
}

/// Whether a command has this label, where its family has so many members.
pub(crate) fn check_label(
    alloc: Global,
    family: usize,
    scope: &PlaceScope<'_>,
    label: Option<Label>,
    found: &[u8],
) -> Expanding<()>
    ensures { IfOk result (λ _. found.now ≡ label_in family (scope_of scope.now) label) }
{
    match label {
        None => {
            if found.len() != 0 {
                return Err(DIFFERENT);
            }
            Ok(())
        }
        Some(label) => {
            let wanted = label_text(alloc, family, scope, label)?;
            if found != wanted.as_slice() {
                return Err(DIFFERENT);
            }
            Ok(())
        }
    }
}
