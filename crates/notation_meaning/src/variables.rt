//! Whether variables of a model are the variables of a plain process.

ghost use Rattle.std.specs.Prelude.{◌≡◌, ℤ, suc, [], ◌∷◌, List, ℕ, take, slice_get, Some, IfOk};
ghost use Rattle.dbg_base.specs.Evaluation.{Num};
ghost use Rattle.dbg_base.specs.Trees.{process_of};
ghost use Rattle.proc_tree.specs.Programs.{program_of};
ghost use Rattle.notation_meaning.specs.ModelValues.{HasValue};
ghost use Rattle.notation_meaning.specs.ModelFamilies.{Place, place_in, PlacesOf, IsIndexed};
ghost use Rattle.notation_meaning.specs.ModelPrograms.{VariablesOf};
ghost use Rattle.notation_meaning.specs.AgreementViews.{context_of, scope_of, place_of, places_of};

use crate::difference::{DEPTH, DIFFERENT};
use crate::families::{FamilyPlace, places};
use crate::names::{check_name, member_name};
use crate::scopes::{MemberHere, PlaceScope};
use crate::setting::PlainSetting;
use crate::values::number;
use notation_tree::fault::Expanding;
use notation_tree::syntax::VariableNode;

/// The number after this one, if it fits.
pub(crate) fn after(number: u32) -> Expanding<u32>
    ensures { IfOk result (λ next. next ≡ suc number) }
{
    match number.checked_add(1) {
        Some(next) => Ok(next),
        None => Err(DIFFERENT),
    }
}

// Whether the variable at a place of its family is the plain variable of this number.
fn is_variable(
    setting: &PlainSetting<'_>,
    scope: &PlaceScope<'_>,
    node: &VariableNode,
    place: &[MemberHere],
    index: u32,
) -> Expanding<()>
    ensures { IfOk result (λ _. (name : List ℕ) × (z : ℤ)
        × HasValue (context_of setting.now.known) (place_of (scope_of scope.now) place.now).scope node.now.value (Num z)
        × IsIndexed node.now.name (place_of (scope_of scope.now) place.now).indices name
        × (slice_get (process_of (program_of setting.now.program.now) setting.now.own.0).variables index ≡ Some (name, z))) }
{
    let within = PlaceScope::Members(place, &*scope);
    let wanted = number(&setting.known, &within, &node.value, DEPTH)?;
    let name = member_name(setting.known.alloc, node.name.bytes(), place)?;
    let found = setting.program.variable_name(setting.own, index);
    check_name(found, name.as_slice())?;
    let Some(initial) = setting.program.start_value(setting.own, index) else {
        return Err(DIFFERENT);
    };
    if initial != wanted {
        return Err(DIFFERENT);
    }
    Ok(())
}

// Compares the variables of a family with the plain variables from this number on. The answer is the number after them.
fn variables_at(
    setting: &PlainSetting<'_>,
    scope: &PlaceScope<'_>,
    node: &VariableNode,
    places: &[FamilyPlace],
    start: u32,
) -> Expanding<u32>
    ensures { IfOk result (λ end. VariablesOf (context_of setting.now.known) node.now (places_of (scope_of scope.now) places.now)
        (take start (process_of (program_of setting.now.program.now) setting.now.own.0).variables)
        (take end (process_of (program_of setting.now.program.now) setting.now.own.0).variables)) }
{
    let mut index = start;
    let mut rest = places;
    while let Some((place, others)) = rest.split_first() {
        is_variable(setting, scope, node, place.members.as_slice(), index)?;
        index = after(index)?;
        rest = others;
    }
    Ok(index)
}

/// Compares a variable, or a family of variables, with the plain variables from this number on. The answer is the number after them.
pub(crate) fn variables(
    setting: &PlainSetting<'_>,
    scope: &PlaceScope<'_>,
    node: &VariableNode,
    start: u32,
) -> Expanding<u32>
    ensures { IfOk result (λ end. (whole : List Place)
        × PlacesOf (context_of setting.now.known) (place_in (scope_of scope.now) ∷ []) node.now.ranges.items whole
        × VariablesOf (context_of setting.now.known) node.now whole
        (take start (process_of (program_of setting.now.program.now) setting.now.own.0).variables)
        (take end (process_of (program_of setting.now.program.now) setting.now.own.0).variables)) }
{
    let found = places(&setting.known, scope, node.ranges.as_slice(), DEPTH)?;
    variables_at(setting, scope, node, found.as_slice(), start)
}
