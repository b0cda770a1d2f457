//! What a condition is made of: its parts, the members of which so many have to hold, and texts that differ in indices.
#![tactic(auto)]

mod comparing;
mod counts;
mod faults;
mod index_ranges;
mod operators;
mod parts;

pub use counts::MemberCount;
pub use faults::{faulting_part, is_range_check};
pub use index_ranges::{family_end, put_folded};
pub use operators::{is_comparison, operator_text};
pub use parts::{family_of, part_of, put_conjuncts};
