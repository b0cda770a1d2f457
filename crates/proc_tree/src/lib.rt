//! Programs of guarded-command processes, as trees.
#![tactic(auto)]

mod fitting;
mod process;
mod program;
mod sorts;

pub use fitting::fits;
pub use process::{Action, Assignment, Guarded, Process, Variable};
pub use program::Program;
pub use sorts::{operand_sort, outcome_sort};
