//! What a halt shows, as values: since when each part of a predicate holds, why not earlier, and which events lead there.
#![tactic(auto)]

mod crossing;
mod depths;
mod halt;
mod lane;
mod marks;
mod order;
mod part;
mod reason;

pub use crossing::{Crossing, find_crossing, message};
pub use depths::MarkRow;
pub use halt::Halt;
pub use lane::{is_true_after, last_true};
pub use marks::mark_starts;
pub use part::{Earlier, PartInCut, find_part};
pub use reason::find_reason;
