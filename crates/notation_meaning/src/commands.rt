//! Whether commands of a model are plain commands.

ghost use Rattle.std.specs.Prelude.{IfOk};
ghost use Rattle.proc_tree.specs.ProcessTrees.{action_tree, assignment_trees, command_tree};
ghost use Rattle.notation_meaning.specs.ModelPrograms.{AssignmentsOf, ActionOf, CommandOf};
ghost use Rattle.notation_meaning.specs.AgreementViews.{scope_of, setting_of};

use crate::difference::{DIFFERENT, deeper};
use crate::plain::means;
use crate::scopes::PlaceScope;
use crate::setting::PlainSetting;
use crate::written::{names_process, names_variable};
use notation_tree::fault::Expanding;
use notation_tree::syntax::{ActionNode, AssignmentNode, CommandNode};
use proc_tree::{Action, Assignment, Guarded};

// Whether assignments are these plain assignments.
fn assignments(
    setting: &PlainSetting<'_>,
    scope: &PlaceScope<'_>,
    nodes: &[AssignmentNode],
    found: &[Assignment],
    depth: u32,
) -> Expanding<()>
    ensures { IfOk result (λ _. AssignmentsOf (setting_of setting.now) (scope_of scope.now) nodes.now (assignment_trees found.now)) }
{
    let inner = deeper(depth)?;
    match nodes.split_first() {
        None => {
            if found.len() != 0 {
                return Err(DIFFERENT);
            }
            Ok(())
        }
        Some((node, others)) => {
            let Some((first, rest)) = found.split_first() else {
                return Err(DIFFERENT);
            };
            names_variable(setting, scope, &node.target, first.variable, inner)?;
            means(setting, scope, &node.value, &first.value, inner)?;
            assignments(setting, scope, others, rest, inner)
        }
    }
}

// Whether an action is this plain one.
fn is_action(
    setting: &PlainSetting<'_>,
    scope: &PlaceScope<'_>,
    node: &ActionNode,
    found: &Action,
    depth: u32,
) -> Expanding<()>
    ensures { IfOk result (λ _. ActionOf (setting_of setting.now) (scope_of scope.now) node.now (action_tree found.now)) }
{
    match (node, found) {
        (ActionNode::Local, Action::Local) => Ok(()),
        (ActionNode::Send(_, to, sent), Action::Send { target, value }) => {
            names_process(setting, scope, to, *target, depth)?;
            means(setting, scope, sent, value, depth)
        }
        (ActionNode::Receive(_, from, into), Action::Receive { source, variable }) => {
            names_process(setting, scope, from, *source, depth)?;
            names_variable(setting, scope, into, *variable, depth)
        }
        _ => Err(DIFFERENT),
    }
}

/// Whether a command is this plain one.
pub(crate) fn is_command(
    setting: &PlainSetting<'_>,
    scope: &PlaceScope<'_>,
    node: &CommandNode,
    found: &Guarded,
    depth: u32,
) -> Expanding<()>
    ensures { IfOk result (λ _. CommandOf (setting_of setting.now) (scope_of scope.now) node.now (command_tree found.now)) }
{
    means(setting, scope, &node.guard, &found.guard, depth)?;
    is_action(setting, scope, &node.action, &found.action, depth)?;
    assignments(
        setting,
        scope,
        node.assignments.as_slice(),
        found.assignments.items(),
        depth,
    )
}
