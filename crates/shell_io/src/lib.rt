//! Readers and writers that know whether they have failed: a device that has failed is not called again. A line of a session.
#![tactic(auto)]

mod closed_lines;
mod fixed_buffer;
mod given_line;
mod health;
mod noted;
mod output;
mod streams;
mod style;

pub use closed_lines::{ClosedLines, one_after_the_other};
pub use fixed_buffer::FixedBuffer;
pub use given_line::GivenLine;
pub use health::Health;
pub use noted::Noted;
pub use output::Output;
pub use streams::{Sink, Source};
pub use style::{Style, StyledWrite};
