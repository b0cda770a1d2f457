//! Whether declarations of a model are the processes of a plain program.

ghost use Rattle.std.specs.Prelude.{◌≡◌, ℕ, [], map, take, drop, slice_get, Some, IfOk, IsTrue};
ghost use Rattle.dbg_base.specs.Trees as tree;
ghost use Rattle.dbg_base.specs.Trees.{names_of, process_of};
ghost use Rattle.proc_tree.specs.Programs.{program_of};
ghost use Rattle.notation_tree.specs.declared.syntax.DeclarationNode.TheVariants as declared;
ghost use Rattle.notation_meaning.specs.ModelScopes.{Top};
ghost use Rattle.notation_meaning.specs.ModelFamilies.{IsIndexed};
ghost use Rattle.notation_meaning.specs.ModelPrograms.{Copy, ItemsOf, ProcessOf, ProcessesOf, DeclarationOf, DeclarationsOf};
ghost use Rattle.notation_meaning.specs.AgreementViews.{place_of, places_of, constants_of, copy_of, frame_of, own_process, model_progress_of};

use crate::constants::are_same;
use crate::difference::{DEPTH, DIFFERENT, LEVELS};
use crate::families::{FamilyPlace, places};
use crate::items::{PlainProgress, items, set_constant};
use crate::names::{check_name, member_name};
use crate::scopes::{MemberHere, PlaceScope};
use crate::setting::{ModelHere, ProcessHere};
use crate::values::value;
use crate::variables::after;
use dbg_base::Pid;
use notation_programs::building::ProcessCopy;
use notation_tree::arithmetic::ConstantValue;
use notation_tree::fault::Expanding;
use notation_tree::syntax::{Constant, DeclarationNode, ProcessNode};

/// What the declarations so far are: the values of constants, and so many processes of the program.
#[derive(Drop)]
pub(crate) struct ProgramProgress {
    pub(crate) constants: Vec<Option<ConstantValue>>,
    pub(crate) processes: u32,
}

// The values of members.
fn is_at(members: &[MemberHere], values: &[i64]) -> bool
    ensures { IsTrue result → map (λ m. m.value) members.now ≡ values.now }
{
    let mut rest = members;
    let mut left = values;
    while let Some((member, others)) = rest.split_first() {
        let Some((value, further)) = left.split_first() else {
            return false;
        };
        if member.value != *value {
            return false;
        }
        rest = others;
        left = further;
    }
    left.len() == 0
}

// Whether constants of which so many are of a process, from one number on, have these values there.
fn check_own(
    constants: &[Option<ConstantValue>],
    node: &ProcessNode,
    own: &[Option<ConstantValue>],
) -> Expanding<()>
    ensures { IfOk result (λ _. constants_of own.now ≡ take node.now.constants (drop node.now.first_constant (constants_of constants.now))) }
{
    if node.first_constant > constants.len()
        || node.constants > constants.len() - node.first_constant
    {
        return Err(DIFFERENT);
    }
    let (_, after) = constants.split_at(node.first_constant);
    let (wanted, _) = after.split_at(node.constants);
    if are_same(own, wanted) {
        Ok(())
    } else {
        Err(DIFFERENT)
    }
}

// What is known of the process of this number.
fn copy_at(copies: &[ProcessCopy], number: u32) -> Expanding<&ProcessCopy>
    ensures { IfOk result (λ copy. slice_get (map copy_of copies.now) number ≡ Some (copy_of copy.now)) }
{
    match copies.get(number as usize) {
        Some(copy) => Ok(copy),
        None => Err(DIFFERENT),
    }
}

// Whether what is known of a process says its declaration, and its place in its family.
fn check_copy(copy: &ProcessCopy, declaration: usize, place: &[MemberHere]) -> Expanding<()>
    ensures { IfOk result (λ _. (copy.now.declaration ≡ declaration) × (copy.now.members.items ≡ map (λ m. m.value) place.now)) }
{
    if copy.declaration != declaration || !is_at(place, copy.members.as_slice()) {
        return Err(DIFFERENT);
    }
    Ok(())
}

// Compares the items of a process at a place of its family with its variables and commands.
fn process_items(
    inside: &ProcessHere<'_>,
    node: &ProcessNode,
    place: &[MemberHere],
    constants: Vec<Option<ConstantValue>>,
) -> Expanding<Vec<Option<ConstantValue>>>
    ensures { IfOk result (λ later. ItemsOf (frame_of inside.now) (place_of Top place.now).scope node.now.items.items
        (record { constants = constants_of constants.items; variables = []; commands = []; labels = [] })
        (record {
          constants = constants_of later.items;
          variables = (own_process inside.now).variables;
          commands = (own_process inside.now).commands;
          labels = (copy_of inside.now.copy.now).labels;
        })) }
{
    let mut progress = PlainProgress {
        constants,
        variables: 0,
        commands: 0,
    };
    let within = PlaceScope::Members(place, &PlaceScope::Top);
    items(
        inside,
        &within,
        node.items.as_slice(),
        &mut progress,
        LEVELS,
    )?;
    let program = inside.model.program;
    if progress.variables != program.variables(inside.own)
        || progress.commands != program.commands(inside.own)
        || progress.commands as usize != inside.copy.commands.len()
    {
        return Err(DIFFERENT);
    }
    Ok(progress.constants)
}

// Compares the name of the process at a place of its family with that of a plain process.
fn check_process_name(
    here: &ModelHere<'_>,
    node: &ProcessNode,
    place: &[MemberHere],
    own: Pid,
) -> Expanding<()>
    ensures { IfOk result (λ _. (slice_get (program_of here.now.program.now) own.0 ≡ Some (process_of (program_of here.now.program.now) own.0))
        × IsIndexed node.now.name (map (λ m. m.value) place.now) (process_of (program_of here.now.program.now) own.0).name) }
{
    let name = member_name(here.alloc, node.name.bytes(), place)?;
    check_name(here.program.process_name(own), name.as_slice())
}

// Compares the process at a place of its family with the plain process of this number. The answer is the values of constants after it.
fn process(
    here: &ModelHere<'_>,
    declaration: usize,
    node: &ProcessNode,
    place: &[MemberHere],
    constants: Vec<Option<ConstantValue>>,
    number: u32,
) -> Expanding<Vec<Option<ConstantValue>>>
    ensures { IfOk result (λ later. (p : tree.Process) × (copy : Copy) × (slice_get (program_of here.now.program.now) number ≡ Some p)
        × (slice_get (map copy_of here.now.copies.now) number ≡ Some copy)
        × ProcessOf here.now.definitions.now (names_of (program_of here.now.program.now)) declaration node.now (place_of Top place.now)
        (constants_of constants.items) (constants_of later.items) p copy) }
{
    let own = Pid(number);
    check_process_name(here, node, place, own)?;
    let copy = copy_at(here.copies, number)?;
    check_copy(copy, declaration, place)?;
    let inside = ProcessHere {
        model: *here,
        own,
        family: place.len(),
        copy,
    };
    let later = process_items(&inside, node, place, constants)?;
    check_own(later.as_slice(), node, copy.constants.as_slice())?;
    Ok(later)
}

// Compares the processes of a family.
fn family(
    here: &ModelHere<'_>,
    declaration: usize,
    node: &ProcessNode,
    places: &[FamilyPlace],
    start: ProgramProgress,
) -> Expanding<ProgramProgress>
    ensures { IfOk result (λ end. ProcessesOf here.now.definitions.now (names_of (program_of here.now.program.now)) declaration node.now
        (places_of Top places.now) (model_progress_of here.now start) (model_progress_of here.now end)) }
{
    let mut progress = start;
    let mut rest = places;
    while let Some((place, others)) = rest.split_first() {
        let ProgramProgress {
            constants,
            processes,
        } = progress;
        let members = place.members.as_slice();
        let constants = process(here, declaration, node, members, constants, processes)?;
        let processes = after(processes)?;
        progress = ProgramProgress {
            constants,
            processes,
        };
        rest = others;
    }
    Ok(progress)
}

// Computes a constant.
fn constant(
    here: &ModelHere<'_>,
    node: &Constant,
    start: ProgramProgress,
) -> Expanding<ProgramProgress>
    ensures { IfOk result (λ end. (n : ℕ) → DeclarationOf here.now.definitions.now (names_of (program_of here.now.program.now)) n
        (declared.Constant node.now) (model_progress_of here.now start) (model_progress_of here.now end)) }
{
    let mut progress = start;
    let known = here.known(progress.constants.as_slice());
    let held = value(&known, &PlaceScope::Top, &node.value, DEPTH)?;
    set_constant(&mut progress.constants, node.number, held)?;
    Ok(progress)
}

// Compares the declaration of this number.
fn declaration(
    here: &ModelHere<'_>,
    number: usize,
    node: &DeclarationNode,
    start: ProgramProgress,
) -> Expanding<ProgramProgress>
    ensures { IfOk result (λ end. DeclarationOf here.now.definitions.now (names_of (program_of here.now.program.now)) number node.now
        (model_progress_of here.now start) (model_progress_of here.now end)) }
{
    match node {
        DeclarationNode::Constant(node) => constant(here, node, start),
        DeclarationNode::Process(node) => {
            let known = here.known(start.constants.as_slice());
            let found = places(&known, &PlaceScope::Top, node.ranges.as_slice(), DEPTH)?;
            family(here, number, node, found.as_slice(), start)
        }
    }
}

/// Compares declarations with the processes that follow those so far.
pub(crate) fn declarations(
    here: &ModelHere<'_>,
    nodes: &[DeclarationNode],
    start: ProgramProgress,
) -> Expanding<ProgramProgress>
    ensures { IfOk result (λ end. DeclarationsOf here.now.definitions.now (names_of (program_of here.now.program.now)) 0 nodes.now
        (model_progress_of here.now start) (model_progress_of here.now end)) }
{
    let mut progress = start;
    let mut number = 0usize;
    let mut rest = nodes;
    while let Some((first, others)) = rest.split_first() {
        progress = declaration(here, number, first, progress)?;
        number += 1;
        rest = others;
    }
    Ok(progress)
}
