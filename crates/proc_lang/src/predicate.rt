//! A predicate over the variables and the counts of one process of a program.

ghost use Rattle.std.specs.Prelude.{◌≡◌, ◌<◌, length, map, IfOk};
ghost use Rattle.dbg_base.specs.declared.expr.Sort.TheVariants as sort;
ghost use Rattle.dbg_base.specs.Trees.{tree_of};
ghost use Rattle.dbg_base.specs.Checks.{scope_of, expression_faults, phrase_tree};
ghost use Rattle.proc_tree.specs.Programs.{program_of};
ghost use Rattle.proc_lang.specs.Writing.{phrase_of};
ghost use Rattle.proc_lang.specs.Checking.{Checks};

use crate::expressions::expression;
use crate::fault::ProgError;
use crate::names::ProcessNames;
use crate::scope::Scope;
use crate::syntax::Phrase;
use dbg_base::{Expr, Name, Pid, Sort};
use proc_tree::{Process, Program, Variable};
use std::alloc::{AllocError, Global};

fn process_names(alloc: Global, processes: &[Process]) -> Result<Vec<Name>, AllocError>
    ensures { IfOk result (λ names. names.items ≡ map (λ process. process.name) processes.now) }
{
    processes.iter().map(|process| process.name).collect(alloc)
}

fn variable_names(alloc: Global, variables: &[Variable]) -> Result<Vec<Name>, AllocError>
    ensures { IfOk result (λ names. names.items ≡ map (λ variable. variable.name) variables.now) }
{
    variables
        .iter()
        .map(|variable| variable.name)
        .collect(alloc)
}

/// The truth expression of process `pid` for this parsed expression, or the first check that fails.
pub(crate) fn predicate(
    alloc: Global,
    program: &Program,
    pid: Pid,
    phrase: &Phrase,
) -> Result<Expr, ProgError>
    requires { pid.0 < length (program_of program.now) }
    ensures { Checks result (expression_faults (scope_of (program_of program.now) pid.0) sort.Truth (phrase_of phrase.now))
        (λ expr. tree_of expr ≡ phrase_tree (scope_of (program_of program.now) pid.0) (phrase_of phrase.now)) }
{
    let own = &program.processes[pid.0 as usize];
    let names = process_names(alloc, program.processes.as_slice())?;
    let processes = ProcessNames::new(alloc, names.as_slice())?;
    let variables = variable_names(alloc, own.variables.as_slice())?;
    let scope = Scope {
        processes: &processes,
        own: own.name,
        variables: variables.as_slice(),
    };
    expression(alloc, &scope, Sort::Truth, phrase)
}
