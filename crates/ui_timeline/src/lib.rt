//! What a picture of a session shows: its events in an order in which they can have happened, each with its clock, their messages, and the
//! cuts of breakpoints with their predicates.
#![tactic(auto)]

mod clock;
mod commands;
mod cuts;
mod listing;
mod messages;
mod order;
mod selection;
mod settings;
mod theme;
mod timed;

pub use commands::put_command;
pub use cuts::{NamedCut, bytes_of, halting, named_cuts, put_joined, size};
pub use listing::{ShownEvent, Timeline, event_of, put_left_out};
pub use messages::{Received, Sent, exchange_of};
pub use selection::{Selection, unknown_name};
pub use settings::put_setting;
pub use theme::Theme;
pub use timed::{TimedEvent, timed_events};
