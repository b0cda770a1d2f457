//! The events of each process in order. Events can be undone and made again.
//!
//! An event keeps the values that it replaced and set, and what it sent or received, so neither direction needs the program. Contracts see
//! the starts and the events of each process, and its room: how many more events fit without allocation.
#![tactic(auto)]

mod event;
mod exchange;
mod history;
mod rows;
mod setting;
mod wide;

pub use event::Event;
pub use exchange::Exchange;
pub use rows::Rows;
pub use setting::Setting;
