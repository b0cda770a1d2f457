//! A table: a world and the breakpoints in it. What each command does to it, how the command is undone, and the answers to queries.
#![tactic(auto)]

mod asking;
mod batching;
mod breaking;
mod calls;
mod command;
mod conjuncts;
mod givable;
mod kinds;
mod playing;
mod returning;
mod scanning;
mod table;
mod undoing;
mod view;

pub use command::Command;
pub use givable::Givable;
pub use kinds::batching::BatchCmd;
pub use kinds::breaking::{ArmCmd, BreakCmd, ClearCmd, PassCmd};
pub use kinds::playing::{NextCmd, RedoCmd, StepCmd};
pub use kinds::undoing::{GotoCmd, RollbackCmd, UndoCmd};
pub use table::Table;
pub use view::SessionView;
