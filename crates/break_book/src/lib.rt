//! The breakpoints of a session: by name, in the order in which they were set, each with its least cut in the events of a world.
#![tactic(auto)]

mod book;
mod breakpoint;

pub use book::Book;
pub use breakpoint::Breakpoint;
