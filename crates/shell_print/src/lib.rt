//! Replies and reports as lines of text, written to a sink. `outcome` says how a run ends.
#![tactic(auto)]

mod notices;
mod outcome;
mod parts;
mod pieces;
mod reply;
mod words;

pub use notices::{
    hand_on, print_differs, print_settled, set_style, tell_fault, tell_no_end_line, tell_size,
    tell_too_long, tell_too_many_turns,
};
pub use outcome::{ServeFault, Served, status};
pub use parts::write_whole;
pub use reply::{print_refusal, print_reply, print_said, question, reply_style};
