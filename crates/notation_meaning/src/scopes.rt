//! What names mean at a place of a model: a list of scopes, each within the next, which are never changed.

ghost use Rattle.std.specs.Prelude.{◌≡◌, ◌++◌, map, IfOk, MatchOption, Some, None};
ghost use Rattle.notation_meaning.specs.ModelScopes.{member_in, argument_in};
ghost use Rattle.notation_meaning.specs.ModelPrograms.{values_in};
ghost use Rattle.notation_meaning.specs.AgreementViews.{scope_of, last_value};

use notation_tree::fault::Expanding;
use notation_tree::syntax::Expression;
use std::alloc::Global;

/// A member of a range, by its number, and its value.
#[derive(Clone, Copy)]
pub(crate) struct MemberHere {
    pub(crate) member: usize,
    pub(crate) value: i64,
}

/// What names mean: members of ranges have values, the innermost last, and within a definition its parameters mean the arguments in the
/// scope of the call, which is the last field.
#[derive(Clone, Copy)]
pub(crate) enum PlaceScope<'a> {
    Top,
    Members(&'a [MemberHere], &'a PlaceScope<'a>),
    Member(usize, i64, &'a PlaceScope<'a>),
    Call(usize, &'a [Expression], &'a PlaceScope<'a>),
}

// The value of the last of these members that has this number, or else the value outside of them.
fn last_value(members: &[MemberHere], number: usize, outside: Option<i64>) -> Option<i64>
    ensures { result ≡ last_value members.now number outside }
{
    let mut found = outside;
    let mut rest = members;
    while let Some((first, others)) = rest.split_first() {
        if first.member == number {
            found = Some(first.value);
        }
        rest = others;
    }
    found
}

/// The value of a member.
pub(crate) fn member(scope: &PlaceScope<'_>, number: usize) -> Option<i64>
    ensures { result ≡ member_in (scope_of scope.now) number }
{
    match scope {
        PlaceScope::Top => None,
        PlaceScope::Members(members, outer) => last_value(members, number, member(outer, number)),
        PlaceScope::Member(own, value, outer) => {
            if *own == number {
                Some(*value)
            } else {
                member(outer, number)
            }
        }
        PlaceScope::Call(_, _, outer) => member(outer, number),
    }
}

// Appends the values of members.
fn put_values(found: &mut Vec<i64>, members: &[MemberHere]) -> Expanding<()>
    ensures { IfOk result (λ _. found.new.items ≡ found.old.items ++ map (λ m. m.value) members.now) }
{
    for member in members {
        found.push(member.value)?;
    }
    Ok(())
}

/// The values of the members of a scope, the outermost first.
pub(crate) fn values(alloc: Global, scope: &PlaceScope<'_>) -> Expanding<Vec<i64>>
    ensures { IfOk result (λ found. found.items ≡ values_in (scope_of scope.now)) }
{
    match scope {
        PlaceScope::Top => Ok(Vec::new(alloc)),
        PlaceScope::Members(members, outer) => {
            let mut found = values(alloc, outer)?;
            put_values(&mut found, members)?;
            Ok(found)
        }
        PlaceScope::Member(_, value, outer) => {
            let mut found = values(alloc, outer)?;
            found.push(*value)?;
            Ok(found)
        }
        PlaceScope::Call(_, _, outer) => values(alloc, outer),
    }
}

/// An expression, and the scope in which it is meant.
#[derive(Clone, Copy)]
pub(crate) struct MeantHere<'a> {
    pub(crate) expression: &'a Expression,
    pub(crate) scope: &'a PlaceScope<'a>,
}

/// What a parameter means.
pub(crate) fn argument<'a>(scope: &'a PlaceScope<'a>, number: usize) -> Option<MeantHere<'a>>
    ensures { MatchOption result (argument_in (scope_of scope.now) number ≡ None)
        (λ m. argument_in (scope_of scope.now) number ≡ Some (record { expression = m.expression.now; scope = scope_of m.scope.now })) }
{
    match scope {
        PlaceScope::Top => None,
        PlaceScope::Members(_, outer) => argument(outer, number),
        PlaceScope::Member(_, _, outer) => argument(outer, number),
        PlaceScope::Call(first, arguments, outer) => {
            if *first <= number && number - *first < arguments.len() {
                Some(MeantHere {
                    expression: &arguments[number - *first],
                    scope: outer,
                })
            } else {
                argument(outer, number)
            }
        }
    }
}
