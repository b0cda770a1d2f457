//! Sentences about a session, for a person: what a command did, and the present state.
#![tactic(auto)]

mod accepted;
mod answers;
mod batches;
mod breakpoints;
mod cuts;
mod explained;
mod halt_lanes;
mod halt_words;
mod halts;
mod lane_columns;
mod standing;

pub use accepted::Before;
pub use explained::ExplainedSession;
