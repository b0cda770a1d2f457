//! The world of a system of processes. Events change it in place, and can be undone (causal-consistent reversibility: Danos and Krivine
//! 2004).
#![tactic(auto)]

mod channels;
mod deciding;
mod events;
pub mod laws;
mod lines;
mod making;
mod past;
mod rolled;
mod rolling;
mod world;

pub use rolled::{Cutoff, Rolled};
pub use world::World;
