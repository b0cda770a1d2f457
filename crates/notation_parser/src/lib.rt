//! From the tokens of a text in the model notation to its tree.
#![tactic(auto)]

pub mod parser;
