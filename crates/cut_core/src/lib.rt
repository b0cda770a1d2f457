//! What each event of each process sent or received, and which cuts are consistent.
#![tactic(auto)]

mod cuts;
mod history;
mod kind;
mod places;
mod tally;

pub use cuts::{greatest_below, is_consistent, least_above};
pub use kind::Kind;
pub use tally::Tally;
