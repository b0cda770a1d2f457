//! Parses command lines into calls: a line names a seat and what the seat asks for. A line that sets a breakpoint has a predicate text for
//! each of its processes.
#![tactic(auto)]

mod batch_line;
mod break_line;
mod command;
mod line;
mod words;

pub use command::{PlanWord, ProcessWord, QueryWord};
pub use line::{
    Line, ProcessLine, parse_line, parse_process_line, parse_seatless_line, without_return,
};
pub use words::next_word;
