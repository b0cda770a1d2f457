//! A session that seats share, under its lock, with the journal of all calls that were entered, and the board next to the lock.
//!
//! A `Desk` has the lock. Seats on threads make calls of one session, and `settle` compares their records with the journal. A `Locked`
//! enters each call of a `Seat` in its journal, and appends it to the seat's own record. It shows on the board the journal's length and the
//! breakpoint that halts the session. Its journal is one that a single caller could have made: the answer to each call is the one due in
//! the state to which the calls before it lead.
//!
//! A `Worker` has a seat and the commands that it gives for it. In a `crew` each worker gives its commands one after the other, in its own
//! thread, and calls a gate before each.
#![tactic(auto)]

mod begin;
mod copies;
mod crews;
mod desk;
mod entry;
mod locked;
mod log;
mod opening;
mod rooms;
mod run;
mod seat;
mod settling;
mod worker;

pub use crews::{CrewFault, crew};
pub use desk::Desk;
pub use entry::{Entry, RecordedCall};
pub use locked::Locked;
pub use opening::Opening;
pub use run::Run;
pub use seat::Seat;
pub use settling::{Closing, Mismatch};
pub use worker::Worker;
