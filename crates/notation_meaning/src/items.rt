//! Whether items of a model are the variables and commands of a plain process.

ghost use Rattle.std.specs.Prelude.{◌≡◌, Some, slice_set, IfOk};
ghost use Rattle.notation_tree.specs.declared.syntax.ItemNode.{ItemNode, out-ItemNode};
ghost use Rattle.notation_tree.specs.declared.syntax.ItemNode.TheOpen as opened;
ghost use Rattle.notation_meaning.specs.ModelValues.{HasMembers};
ghost use Rattle.notation_meaning.specs.ModelPrograms.{setting_in, ItemOf, ItemsOf, CopiesOf};
ghost use Rattle.notation_meaning.specs.AgreementViews.{constants_of, scope_of, frame_of, progress_of};

use crate::commands::is_command;
use crate::difference::{DEPTH, DIFFERENT, deeper};
use crate::labels::{check_label, noted_label};
use crate::scopes::PlaceScope;
use crate::setting::ProcessHere;
use crate::values::{members, value};
use crate::variables::{after, variables};
use dbg_base::Choice;
use notation_tree::arithmetic::ConstantValue;
use notation_tree::fault::Expanding;
use notation_tree::syntax::{Binder, CommandNode, Constant, ItemNode, VariableNode};

/// What the items so far are: the values of constants, and so many variables and commands of the process.
#[derive(Drop)]
pub(crate) struct PlainProgress {
    pub(crate) constants: Vec<Option<ConstantValue>>,
    pub(crate) variables: u32,
    pub(crate) commands: u32,
}

/// Gives a constant its value.
pub(crate) fn set_constant(
    constants: &mut Vec<Option<ConstantValue>>,
    number: usize,
    value: ConstantValue,
) -> Expanding<()>
    ensures { IfOk result (λ _. constants.new.items ≡ slice_set constants.old.items number (Some value)) }
{
    if number >= constants.len() {
        return Err(DIFFERENT);
    }
    constants[number] = Some(value);
    Ok(())
}

// Computes a constant.
fn constant(
    here: &ProcessHere<'_>,
    scope: &PlaceScope<'_>,
    node: &Constant,
    progress: &mut PlainProgress,
) -> Expanding<()>
    ensures { IfOk result (λ _. (item : ItemNode) → out-ItemNode item ≡ opened.Constant node.now
        → ItemOf (frame_of here.now) (scope_of scope.now) item (progress_of here.now progress.old) (progress_of here.now progress.new)) }
{
    let known = here.model.known(progress.constants.as_slice());
    let held = value(&known, scope, &node.value, DEPTH)?;
    set_constant(&mut progress.constants, node.number, held)
}

// Compares a variable, or a family of variables.
fn variable(
    here: &ProcessHere<'_>,
    scope: &PlaceScope<'_>,
    node: &VariableNode,
    progress: &mut PlainProgress,
) -> Expanding<()>
    ensures { IfOk result (λ _. (item : ItemNode) → out-ItemNode item ≡ opened.Variable node.now
        → ItemOf (frame_of here.now) (scope_of scope.now) item (progress_of here.now progress.old) (progress_of here.now progress.new)) }
{
    let setting = here.setting(progress.constants.as_slice());
    let end = variables(&setting, scope, node, progress.variables)?;
    progress.variables = end;
    Ok(())
}

// Compares a command, and its label.
fn command(
    here: &ProcessHere<'_>,
    scope: &PlaceScope<'_>,
    node: &CommandNode,
    progress: &mut PlainProgress,
) -> Expanding<()>
    ensures { IfOk result (λ _. (item : ItemNode) → out-ItemNode item ≡ opened.Command node.now
        → ItemOf (frame_of here.now) (scope_of scope.now) item (progress_of here.now progress.old) (progress_of here.now progress.new)) }
{
    let setting = here.setting(progress.constants.as_slice());
    let program = here.model.program;
    let Some(found) = program.command(here.own, Choice(progress.commands)) else {
        return Err(DIFFERENT);
    };
    is_command(&setting, scope, node, found, DEPTH)?;
    let noted = noted_label(here.copy, progress.commands)?;
    check_label(here.model.alloc, here.family, scope, node.label, noted)?;
    let end = after(progress.commands)?;
    progress.commands = end;
    Ok(())
}

// The members of a range.
fn range(
    here: &ProcessHere<'_>,
    scope: &PlaceScope<'_>,
    binder: &Binder,
    progress: &PlainProgress,
) -> Expanding<Vec<i64>>
    ensures { IfOk result (λ ms. HasMembers (setting_in (frame_of here.now) (constants_of progress.now.constants.items)).context
        (scope_of scope.now) binder.now ms.items) }
{
    let known = here.model.known(progress.constants.as_slice());
    members(&known, scope, binder, DEPTH)
}

// Compares an item.
#[cycle(items)]
fn item(
    here: &ProcessHere<'_>,
    scope: &PlaceScope<'_>,
    node: &ItemNode,
    progress: &mut PlainProgress,
    depth: u32,
) -> Expanding<()>
    ensures { IfOk result (λ _. ItemOf (frame_of here.now) (scope_of scope.now) node.now
        (progress_of here.now progress.old) (progress_of here.now progress.new)) }
{
    let inner = deeper(depth)?;
    match node {
        ItemNode::Constant(node) => constant(here, scope, node, progress),
        ItemNode::Variable(node) => variable(here, scope, node, progress),
        ItemNode::Command(node) => command(here, scope, node, progress),
        ItemNode::Repeat(binder, repeated) => {
            let found = range(here, scope, binder, &*progress)?;
            copies(
                here,
                scope,
                binder,
                repeated.as_slice(),
                found.as_slice(),
                progress,
                inner,
            )
        }
    }
}

/// Compares items with the variables and commands that follow those so far.
#[cycle(items)]
pub(crate) fn items(
    here: &ProcessHere<'_>,
    scope: &PlaceScope<'_>,
    nodes: &[ItemNode],
    progress: &mut PlainProgress,
    depth: u32,
) -> Expanding<()>
    ensures { IfOk result (λ _. ItemsOf (frame_of here.now) (scope_of scope.now) nodes.now
        (progress_of here.now progress.old) (progress_of here.now progress.new)) }
{
    let inner = deeper(depth)?;
    let mut rest = nodes;
    while let Some((first, others)) = rest.split_first() {
        item(here, scope, first, progress, inner)?;
        rest = others;
    }
    Ok(())
}

// Compares the items of a `for` for these members.
#[cycle(items)]
fn copies(
    here: &ProcessHere<'_>,
    scope: &PlaceScope<'_>,
    binder: &Binder,
    nodes: &[ItemNode],
    members: &[i64],
    progress: &mut PlainProgress,
    depth: u32,
) -> Expanding<()>
    ensures { IfOk result (λ _. CopiesOf (frame_of here.now) (scope_of scope.now) binder.now nodes.now members.now
        (progress_of here.now progress.old) (progress_of here.now progress.new)) }
{
    let inner = deeper(depth)?;
    let mut rest = members;
    while let Some((first, others)) = rest.split_first() {
        let within = PlaceScope::Member(binder.member, *first, &*scope);
        items(here, &within, nodes, progress, inner)?;
        rest = others;
    }
    Ok(())
}
