//! Calls and their answers in few bytes, as the seats of a session keep them, and whether two are the same.
//!
//! A `SmallCall` has 16 bytes and a `SmallSaid` 32. What is frequent is stored in place, everything else in a box.
#![tactic(auto)]

mod flat_call;
mod same_call;
mod same_expr;
mod small_call;
mod small_said;

pub use small_call::{GivenCall, SmallCall};
pub use small_said::SmallSaid;
