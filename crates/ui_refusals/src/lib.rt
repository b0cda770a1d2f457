//! Why a session refuses a line, for a person, and what can be done.
#![tactic(auto)]

mod guards;
mod lines;
mod plans;
mod predicates;
mod refusals;
mod refused_batches;
mod refusing;
mod trial;

pub use refusing::RefusingSession;
