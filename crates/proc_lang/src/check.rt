//! The checks of a parsed program, in text order, so that the first that fails is the first fault; and the program that passes them.

ghost use Rattle.std.specs.Prelude.{◌≡◌, ◌<◌, ◌≤◌, ◌^◌, ◌++◌, ◌||◌, [], length, map, IfOk, vec_len};
ghost use Rattle.std.specs.List.{list_any};
ghost use Rattle.std.specs.Str.{bytes_eq};
ghost use Rattle.dbg_base.specs.declared.limits.TheConstants.{COMMANDS, VARIABLES};
ghost use Rattle.dbg_base.specs.declared.fault.FaultKind.TheVariants.{SetTwice};
ghost use Rattle.dbg_base.specs.Trees.{tree_of};
ghost use Rattle.dbg_base.specs.declared.expr.Sort.TheVariants as sort;
ghost use Rattle.dbg_base.specs.Names.{is_among};
ghost use Rattle.dbg_base.specs.Checks.{fault_where, unknown, expression_faults, action_faults, set_by_action, assignment_faults};
ghost use Rattle.dbg_base.specs.Checks.{command_faults, commands_faults, name_faults, variables_faults, process_faults, processes_faults};
ghost use Rattle.dbg_base.specs.Checks.{check_faults, index_of, phrase_tree, program_tree};
ghost use Rattle.dbg_base.specs.Checks as model;
ghost use Rattle.proc_tree.specs.ProcessTrees as program;
ghost use Rattle.proc_tree.specs.ProcessTrees.{assignment_trees, process_trees};
ghost use Rattle.proc_tree.specs.Programs.{program_of};
ghost use Rattle.proc_lang.specs.Writing.{named_of, phrase_of, variable_of, action_of, assignment_of, command_of, process_of, processes_of};
ghost use Rattle.proc_lang.specs.Scopes.{scope_of};
ghost use Rattle.proc_lang.specs.Checking.{Checks, starts, written_starts};

use crate::expressions::{expression, target, variable};
use crate::fault::{ProgError, bad};
use crate::names::ProcessNames;
use crate::scope::Scope;
use crate::syntax::{
    Named, WrittenAction, WrittenAssignment, WrittenCommand, WrittenProcess, WrittenVariable,
};
use dbg_base::limits::{COMMANDS, PROCESSES, VARIABLES};
use dbg_base::{FaultKind, Name, Sequence, Sort};
use proc_tree::{Action, Assignment, Guarded, Process, Program, Variable};
use std::alloc::{AllocError, Global};

fn action(alloc: Global, scope: &Scope, written: &WrittenAction) -> Result<Action, ProgError>
    ensures { Checks result (action_faults (scope_of scope.now) (action_of written.now))
        (λ action. program.action_tree action ≡ model.action_tree (scope_of scope.now) (action_of written.now)) }
{
    match written {
        WrittenAction::Local => Ok(Action::Local),
        WrittenAction::Send(to, value) => {
            let target = target(scope, *to)?;
            let value = expression(alloc, scope, Sort::Number, value)?;
            Ok(Action::Send { target, value })
        }
        WrittenAction::Receive(from, into) => {
            let source = target(scope, *from)?;
            let variable = variable(scope, *into)?;
            Ok(Action::Receive { source, variable })
        }
    }
}

// Whether the action sets the variable of this name.
fn action_sets(action: &WrittenAction, name: &Name) -> bool
    ensures { result ≡ is_among name.now (set_by_action (action_of action.now)) }
{
    match action {
        WrittenAction::Receive(_, into) => *name == into.name,
        _ => false,
    }
}

// Whether one of these assignments sets the variable of this name.
fn assignments_set(assignments: &[WrittenAssignment], name: &Name) -> bool
    ensures { result ≡ list_any (λ a. bytes_eq name.now a.variable.name) assignments.now }
{
    assignments
        .iter()
        .any(|assignment| *name == assignment.variable.name)
}

// Whether the action or one of the earlier assignments sets the variable of this name.
fn already_set(action: &WrittenAction, before: &[WrittenAssignment], name: &Name) -> bool
    ensures { result ≡ (is_among name.now (set_by_action (action_of action.now))
        || list_any (λ a. bytes_eq name.now a.variable.name) before.now) }
{
    action_sets(action, name) || assignments_set(before, name)
}

fn assignment(
    alloc: Global,
    scope: &Scope,
    written: &WrittenAssignment,
    is_set: bool,
) -> Result<Assignment, ProgError>
    ensures { Checks result
        ((unknown (scope_of scope.now).variables (named_of written.now.variable) ++ fault_where is_set SetTwice written.now.variable.at)
        ++ expression_faults (scope_of scope.now) sort.Number (phrase_of written.now.value))
        (λ a. (a.variable ≡ index_of (scope_of scope.now).variables written.now.variable.name)
        × (tree_of a.value ≡ phrase_tree (scope_of scope.now) (phrase_of written.now.value))) }
{
    let variable = variable(scope, written.variable)?;
    if is_set {
        return Err(bad(FaultKind::SetTwice, written.variable.at));
    }
    let value = expression(alloc, scope, Sort::Number, &written.value)?;
    Ok(Assignment { variable, value })
}

fn assignments(
    alloc: Global,
    scope: &Scope,
    written: &WrittenCommand,
) -> Result<Vec<Assignment>, ProgError>
    ensures { Checks result (assignment_faults (scope_of scope.now) (set_by_action (action_of written.now.action))
        (map assignment_of written.now.assignments.items))
        (λ read. assignment_trees read.items
        ≡ map (model.assignment_tree (scope_of scope.now)) (map assignment_of written.now.assignments.items)) }
{
    let all = written.assignments.as_slice();
    let mut assignments = Vec::new(alloc);
    for (i, next) in all.iter().enumerate() {
        let is_set = already_set(&written.action, &all[..i], &next.variable.name);
        let read = assignment(alloc, scope, next, is_set)?;
        assignments.push(read)?;
    }
    Ok(assignments)
}

fn command(alloc: Global, scope: &Scope, written: &WrittenCommand) -> Result<Guarded, ProgError>
    ensures { Checks result (command_faults (scope_of scope.now) (command_of written.now))
        (λ guarded. program.command_tree guarded ≡ model.command_tree (scope_of scope.now) (command_of written.now)) }
{
    let guard = expression(alloc, scope, Sort::Truth, &written.guard)?;
    let action = action(alloc, scope, &written.action)?;
    let assignments = assignments(alloc, scope, written)?;
    Ok(Guarded {
        guard,
        action,
        assignments: Sequence::new(assignments),
    })
}

fn commands(
    alloc: Global,
    scope: &Scope,
    written: &[WrittenCommand],
) -> Result<Vec<Guarded>, ProgError>
    ensures faults { Checks result (commands_faults (scope_of scope.now) 0 (map command_of written.now))
        (λ commands. map program.command_tree commands.items
        ≡ map (model.command_tree (scope_of scope.now)) (map command_of written.now)) }
    ensures few { IfOk result (λ commands. vec_len commands ≤ COMMANDS) }
{
    let mut commands = Vec::new(alloc);
    for (i, next) in written.iter().enumerate() {
        if i == COMMANDS {
            return Err(bad(FaultKind::Limit, next.at));
        }
        let read = command(alloc, scope, next)?;
        commands.push(read)?;
    }
    Ok(commands)
}

// Whether the name is one of these.
fn is_taken(names: &[Name], name: &Name) -> bool
    ensures { result ≡ is_among name.now names.now }
{
    names.iter().any(|other| *name == *other)
}

// A name after these names: it must not be one of them, and they must be fewer than the limit.
fn fresh(named: Named, earlier: &[Name], limit: usize) -> Result<Name, ProgError>
    requires { length earlier.now ≤ limit }
    ensures faults { Checks result (name_faults limit earlier.now (named_of named)) (λ name. name ≡ named.name) }
    ensures few { IfOk result (λ _. length earlier.now < limit) }
{
    if is_taken(earlier, &named.name) {
        return Err(bad(FaultKind::NameTaken, named.at));
    }
    if earlier.len() == limit {
        return Err(bad(FaultKind::Limit, named.at));
    }
    Ok(named.name)
}

fn variables(
    alloc: Global,
    names: &[Name],
    written: &[WrittenVariable],
) -> Result<Vec<Variable>, ProgError>
    requires { names.now ≡ map (λ variable. variable.name.name) written.now }
    ensures faults { Checks result (variables_faults [] (map variable_of written.now))
        (λ variables. starts variables.items ≡ written_starts written.now) }
    ensures few { IfOk result (λ variables. (vec_len variables ≡ length written.now) × (length written.now ≤ VARIABLES)) }
{
    let mut variables = Vec::new(alloc);
    for (i, next) in written.iter().enumerate() {
        let name = fresh(next.name, &names[..i], VARIABLES)?;
        variables.push(Variable {
            name,
            start: next.start,
        })?;
    }
    Ok(variables)
}

fn process(
    alloc: Global,
    processes: &ProcessNames,
    written: &WrittenProcess,
) -> Result<Process, ProgError>
    ensures { Checks result (process_faults processes.now.all.now (process_of written.now))
        (λ process. program.process_tree process ≡ model.process_tree processes.now.all.now (process_of written.now)) }
{
    let names = variable_names(alloc, written.variables.as_slice())?;
    let variables = variables(alloc, names.as_slice(), written.variables.as_slice())?;
    let scope = Scope {
        processes,
        own: written.name.name,
        variables: names.as_slice(),
    };
    let commands = commands(alloc, &scope, written.commands.as_slice())?;
    Ok(Process {
        name: written.name.name,
        variables,
        commands,
    })
}

fn all_processes(
    alloc: Global,
    names: &ProcessNames,
    written: &[WrittenProcess],
) -> Result<Vec<Process>, ProgError>
    requires { names.now.all.now ≡ map (λ process. process.name.name) written.now }
    ensures { Checks result (processes_faults names.now.all.now [] (processes_of written.now))
        (λ read. process_trees read.items ≡ map (model.process_tree names.now.all.now) (processes_of written.now)) }
{
    let mut processes = Vec::new(alloc);
    for (i, next) in written.iter().enumerate() {
        fresh(next.name, &names.all[..i], PROCESSES)?;
        let read = process(alloc, names, next)?;
        processes.push(read)?;
    }
    Ok(processes)
}

fn variable_names(alloc: Global, written: &[WrittenVariable]) -> Result<Vec<Name>, AllocError>
    ensures { IfOk result (λ names. names.items ≡ map (λ variable. variable.name.name) written.now) }
{
    written
        .iter()
        .map(|variable| variable.name.name)
        .collect(alloc)
}

fn process_names(alloc: Global, written: &[WrittenProcess]) -> Result<Vec<Name>, AllocError>
    ensures { IfOk result (λ names. names.items ≡ map (λ process. process.name.name) written.now) }
{
    written
        .iter()
        .map(|process| process.name.name)
        .collect(alloc)
}

/// The program of these parsed processes, or the first check that fails. A text has at most as many processes as bytes.
pub(crate) fn checked(alloc: Global, written: &[WrittenProcess]) -> Result<Program, ProgError>
    requires { length written.now < 2 ^ 32 }
    ensures { Checks result (check_faults (processes_of written.now))
        (λ P. program_of P ≡ program_tree (processes_of written.now)) }
{
    let all = process_names(alloc, written)?;
    let names = ProcessNames::new(alloc, all.as_slice())?;
    let processes = all_processes(alloc, &names, written)?;
    Ok(Program { processes })
}
