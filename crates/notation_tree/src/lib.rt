//! What a text in the model notation is read as: its tokens, its tree, and its faults.
#![tactic(auto)]

pub mod arithmetic;
pub mod fault;
pub mod lexer;
pub mod limits;
pub mod model;
pub mod packing;
pub mod scope;
pub mod syntax;
pub mod token;
pub mod types;
pub mod words;
