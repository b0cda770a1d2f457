//! What a tree of the model notation means, and whether a plain program is that.
//!
//! `specs/` defines the meaning, by which this crate compares a tree with a program: both are read side by side, with no text between them.
#![tactic(auto)]

mod agreement;
mod command_line;
mod commands;
mod constants;
mod difference;
mod families;
mod items;
mod labels;
mod lines;
mod names;
mod pieces;
mod plain;
mod played;
mod predicates;
mod programs;
mod scopes;
mod setting;
mod simple;
mod values;
mod variables;
mod written;

pub use agreement::agrees;
pub use command_line::{CommandLine, LinePiece, Meant, Reading, Segment};
pub use lines::stands_for;
pub use played::PlayedModel;
