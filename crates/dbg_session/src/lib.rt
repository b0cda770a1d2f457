//! A session: the commands that count, the state to which they lead, and how they are taken back one after the other.
#![tactic(auto)]

mod session;

pub use session::Session;
