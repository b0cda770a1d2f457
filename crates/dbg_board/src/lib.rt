//! A board next to a session's lock, for displays that must not wait for the lock. It is one word: how many calls were entered, and which
//! breakpoint halts the session.
//!
//! A `Publisher` publishes a pair of both for each call. Everyone else has a `SeatView`, which knows the pairs that it has seen so far, and
//! reads the `Board` with it. A look takes no lock, returns a pair that was published whole, and never goes back to an earlier one.
#![tactic(auto)]

mod board;
mod glance;
mod publisher;
mod seat_view;
mod word;

pub use board::Board;
pub use glance::Glance;
pub use publisher::Publisher;
pub use seat_view::SeatView;
