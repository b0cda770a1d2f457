//! Whether an expression is a predicate of a process.

ghost use Rattle.std.specs.Prelude.{◌≡◌};
ghost use Rattle.dbg_base.specs.Trees.{tree_of};
ghost use Rattle.dbg_base.specs.Sorts.{is_same_sort};
ghost use Rattle.dbg_base.specs.WellFormed.{tree_sort, is_other, fits_within};
ghost use Rattle.dbg_base.specs.Predicates.{is_predicate};
ghost use Rattle.proc_tree.specs.Programs.{program_of};
ghost use Rattle.proc_tree.specs.Bounds.{bounds_of};

use crate::program::Program;
use crate::sorts::{operand_sort, outcome_sort};
use dbg_base::{Expr, Pid, Sort};

/// What a process can name: so many processes, of which it is number `own`, and so many variables of its own. Contracts see `bounds_of`.
#[derive(Clone, Copy)]
pub(crate) struct Bounds {
    pub(crate) processes: u32,
    pub(crate) own: Pid,
    pub(crate) variables: u32,
}

// The type of the expression.
fn sort_of(expr: &Expr) -> Sort
    ensures { result ≡ tree_sort (tree_of expr.now) }
{
    match expr {
        Expr::Number(_) | Expr::Variable(_) | Expr::Sent(_) | Expr::Got(_) | Expr::Negate(_) =>
            Sort::Number,
        Expr::Truth(_) | Expr::Not(_) => Sort::Truth,
        Expr::Binary(operator, _, _) => outcome_sort(*operator),
    }
}

// Whether the expression has this type.
fn gives(expr: &Expr, wanted: Sort) -> bool
    ensures { result ≡ is_same_sort wanted (tree_sort (tree_of expr.now)) }
{
    wanted == sort_of(expr)
}

// Whether the process exists and is not the process itself.
fn is_other(bounds: Bounds, pid: Pid) -> bool
    ensures { result ≡ is_other (bounds_of bounds) pid.0 }
{
    pid.0 < bounds.processes && pid != bounds.own
}

// Whether each operand has the type that it must have, and all that is named exists.
fn fits_within(bounds: Bounds, expr: &Expr) -> bool
    ensures { result ≡ fits_within (bounds_of bounds) (tree_of expr.now) }
{
    match expr {
        Expr::Number(_) | Expr::Truth(_) => true,
        Expr::Variable(index) => *index < bounds.variables,
        Expr::Sent(pid) | Expr::Got(pid) => is_other(bounds, *pid),
        Expr::Not(operand) => gives(operand, Sort::Truth) && fits_within(bounds, operand),
        Expr::Negate(operand) => gives(operand, Sort::Number) && fits_within(bounds, operand),
        Expr::Binary(operator, left, right) => {
            let operands = operand_sort(*operator);
            gives(left, operands)
                && fits_within(bounds, left)
                && gives(right, operands)
                && fits_within(bounds, right)
        }
    }
}

/// Whether the expression is a predicate of this process. The process must exist, and the expression must be a truth expression. Its
/// operands must have the right types. The variables that it names must exist, and so must the processes, which must be others than this
/// one. It does not allocate.
pub fn fits(program: &Program, pid: Pid, expr: &Expr) -> bool
    ensures { result ≡ is_predicate (program_of program.now) pid.0 (tree_of expr.now) }
{
    let bounds = Bounds {
        processes: program.processes(),
        own: pid,
        variables: program.variables(pid),
    };
    pid.0 < bounds.processes && gives(expr, Sort::Truth) && fits_within(bounds, expr)
}
