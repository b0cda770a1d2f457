//! The theory of histories, over the definitions of `dbg_base` alone: a session shows what a replay of its events shows, each order of a
//! history's events leads to one end, undo reaches exactly the consistent cuts, and each command has one outcome.
#![tactic(auto)]

pub mod headline;
pub mod laws;
