//! Causes: what led to an event, where a value came from, and what an undo would cost.
#![tactic(auto)]

mod chains;
mod event_words;
mod how;
mod messages;
mod neighbours;
mod origin;
mod origins;
mod past;
mod rows;
mod undoing;
mod written;

pub use event_words::put_place;
pub use how::CausalSession;
pub use past::{EventPlace, first_after, is_before, is_event};
