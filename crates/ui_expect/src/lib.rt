//! Sessions with expected replies, and sessions on an edited program.
#![tactic(auto)]

mod comparing;
mod explanation;
mod filling;
mod outcome;
mod replaying;
mod reports;
mod tap;
mod tested_lines;
mod testing;

pub use comparing::{Comparison, PlayedLine, Tested, compare};
pub use filling::fill_session;
pub use replaying::{ReplayNames, Replayed, replay};
pub use tap::{write_plan, write_result};
pub use tested_lines::TestedLines;
pub use testing::test_session;
