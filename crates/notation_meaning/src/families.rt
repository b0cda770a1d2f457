//! The places at which the members of a family are meant.

ghost use Rattle.std.specs.Prelude.{◌≡◌, [], ◌∷◌, ◌++◌, map, IfOk};
ghost use Rattle.notation_meaning.specs.ModelFamilies.{place_in, PlacesOfRange, PlacesOf};
ghost use Rattle.notation_meaning.specs.AgreementViews.{context_of, scope_of, places_of, members_of, longer_members};

use crate::scopes::{MemberHere, PlaceScope};
use crate::setting::Known;
use crate::values::members;
use notation_tree::fault::Expanding;
use notation_tree::syntax::Binder;
use std::alloc::Global;

/// A place, by the members of its family.
#[derive(Drop)]
pub(crate) struct FamilyPlace {
    pub(crate) members: Vec<MemberHere>,
}

// Appends a place for each of these values of a member.
fn put_places(
    alloc: Global,
    found: &mut Vec<FamilyPlace>,
    place: &[MemberHere],
    member: usize,
    values: &[i64],
) -> Expanding<()>
    ensures { IfOk result (λ _. map members_of found.new.items
        ≡ map members_of found.old.items ++ longer_members place.now member values.now) }
{
    for value in values {
        let mut members = Vec::from_slice(alloc, place)?;
        members.push(MemberHere {
            member,
            value: *value,
        })?;
        found.push(FamilyPlace { members })?;
    }
    Ok(())
}

// The places for the members of one more range.
fn longer(
    known: &Known<'_>,
    scope: &PlaceScope<'_>,
    binder: &Binder,
    places: &[FamilyPlace],
    depth: u32,
) -> Expanding<Vec<FamilyPlace>>
    ensures { IfOk result (λ found. PlacesOfRange (context_of known.now) binder.now (places_of (scope_of scope.now) places.now)
        (places_of (scope_of scope.now) found.items)) }
{
    let mut found = Vec::new(known.alloc);
    let mut rest = places;
    while let Some((place, others)) = rest.split_first() {
        let within = PlaceScope::Members(place.members.as_slice(), &*scope);
        let values = members(known, &within, binder, depth)?;
        put_places(
            known.alloc,
            &mut found,
            place.members.as_slice(),
            binder.member,
            values.as_slice(),
        )?;
        rest = others;
    }
    Ok(found)
}

/// The places for the members of these ranges, in order.
pub(crate) fn places(
    known: &Known<'_>,
    scope: &PlaceScope<'_>,
    ranges: &[Binder],
    depth: u32,
) -> Expanding<Vec<FamilyPlace>>
    ensures { IfOk result (λ found. PlacesOf (context_of known.now) (place_in (scope_of scope.now) ∷ []) ranges.now
        (places_of (scope_of scope.now) found.items)) }
{
    let mut found = Vec::new(known.alloc);
    found.push(FamilyPlace {
        members: Vec::new(known.alloc),
    })?;
    let mut rest = ranges;
    while let Some((binder, others)) = rest.split_first() {
        found = longer(known, scope, binder, found.as_slice(), depth)?;
        rest = others;
    }
    Ok(found)
}
