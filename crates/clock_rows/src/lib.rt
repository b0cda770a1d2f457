//! The vector clocks (Fidge 1988, Mattern 1989) of each process: a row after each of its events, with one count for each process.
//!
//! Contracts see the clocks as these rows, and the room of each process: how many more rows it can take without allocation.
#![tactic(auto)]

mod clocks;
mod history;

pub use clocks::Clocks;
