//! Names with indices.

ghost use Rattle.std.specs.Prelude.{◌≡◌, map, pos, Some, IfOk};
ghost use Rattle.notation_meaning.specs.AgreementViews.{context_of, scope_of};
ghost use Rattle.notation_meaning.specs.ModelFamilies.{IsIndexed};
ghost use Rattle.notation_meaning.specs.ModelPrograms.{bracketed};
ghost use Rattle.notation_meaning.specs.PlainExpressions.{indexed, HasName};

use crate::difference::{DIFFERENT, deeper};
use crate::scopes::{MemberHere, PlaceScope};
use crate::setting::Known;
use crate::values::number;
use dbg_base::Name;
use itoa::Buffer;
use notation_tree::fault::Expanding;
use notation_tree::syntax::Expression;
use std::alloc::Global;

/// The name with one more index.
pub(crate) fn with_index(name: Vec<u8>, index: u64) -> Expanding<Vec<u8>>
    ensures { IfOk result (λ whole. whole.items ≡ indexed name.items index) }
{
    let mut whole = name;
    let mut buffer = Buffer::new();
    whole.push(b'_')?;
    whole.extend_from_slice(buffer.format(index).as_bytes())?;
    Ok(whole)
}

/// The name with one more index in brackets.
pub(crate) fn with_brackets(name: Vec<u8>, index: i64) -> Expanding<Vec<u8>>
    ensures { IfOk result (λ whole. whole.items ≡ bracketed name.items index) }
{
    let mut whole = name;
    let mut buffer = Buffer::new();
    whole.push(b'[')?;
    whole.extend_from_slice(buffer.format(index).as_bytes())?;
    whole.push(b']')?;
    Ok(whole)
}

/// A number that is not below 0.
pub(crate) fn index_of(number: i64) -> Expanding<u64>
    ensures { IfOk result (λ n. number ≡ pos n) }
{
    match u64::try_from(number) {
        Ok(index) => Ok(index),
        Err(_) => Err(DIFFERENT),
    }
}

/// The name with these indices.
pub(crate) fn named(
    known: &Known<'_>,
    scope: &PlaceScope<'_>,
    name: Vec<u8>,
    indices: &[Expression],
    depth: u32,
) -> Expanding<Vec<u8>>
    ensures { IfOk result (λ whole. HasName (context_of known.now) (scope_of scope.now) name.items indices.now whole.items) }
{
    let inner = deeper(depth)?;
    match indices.split_first() {
        None => Ok(name),
        Some((first, others)) => {
            let value = number(known, scope, first, inner)?;
            let index = index_of(value)?;
            let longer = with_index(name, index)?;
            named(known, scope, longer, others, inner)
        }
    }
}

/// Whether what the plain program has is there, and has this name.
pub(crate) fn check_name(found: Option<Name>, name: &[u8]) -> Expanding<()>
    ensures { IfOk result (λ _. found ≡ Some name.now) }
{
    match found {
        Some(found) if found.bytes() == name => Ok(()),
        _ => Err(DIFFERENT),
    }
}

/// The name of a member of a family: the name with the values of these members.
pub(crate) fn member_name(alloc: Global, name: &[u8], members: &[MemberHere]) -> Expanding<Vec<u8>>
    ensures { IfOk result (λ whole. IsIndexed name.now (map (λ m. m.value) members.now) whole.items) }
{
    let mut whole = Vec::from_slice(alloc, name)?;
    let mut rest = members;
    while let Some((first, others)) = rest.split_first() {
        let index = index_of(first.value)?;
        whole = with_index(whole, index)?;
        rest = others;
    }
    Ok(whole)
}
