//! The process language: programs of guarded-command processes, read from text.
#![tactic(auto)]

mod check;
mod expressions;
mod fault;
pub mod laws;
mod lexer;
mod names;
mod parse;
mod parser;
mod predicate;
mod scan;
mod scope;
mod syntax;
mod token;

pub use dbg_base::{FaultKind, ProgFault};
pub use fault::ProgError;
pub use parse::{parse_predicate, parse_program};
pub use proc_tree::{Action, Assignment, Guarded, Program, fits};
