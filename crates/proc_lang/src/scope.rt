//! The names that a process can use.

ghost use Rattle.std.specs.Prelude.{◌≤◌, length};
ghost use Rattle.dbg_base.specs.declared.limits.TheConstants.{VARIABLES};

use crate::names::ProcessNames;
use dbg_base::Name;

/// The names that a process can use: those of all processes, its own, and those of its variables. Contracts see `scope_of`.
#[derive(Clone, Copy)]
pub(crate) struct Scope<'a, 'n> {
    pub(crate) processes: &'a ProcessNames<'n>,
    pub(crate) own: Name,
    pub(crate) variables: &'a [Name],
    ghost few_variables: { length variables.now ≤ VARIABLES },
}
