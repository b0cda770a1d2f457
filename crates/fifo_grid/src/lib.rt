//! The messages on their way: a list for each ordered pair of processes, first in, first out.
//!
//! Contracts see a grid as these lists, and the room of each: how many more messages it can take without allocation.
#![tactic(auto)]

mod grid;
mod queue;

pub use grid::Grid;
