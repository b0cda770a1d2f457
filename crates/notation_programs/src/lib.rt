//! A tree of the model notation, written in the process language.
//!
//! `expand` makes the plain text of a text in the notation, and knows for each token of it from which place of the source it comes. A
//! `Writer` writes single parts, as a command line has them.
#![tactic(auto)]

pub mod building;
pub mod built;
pub mod environment;
mod evaluation;
pub mod expansion;
mod families;
pub mod plain_text;
pub mod writing;
