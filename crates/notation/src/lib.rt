//! The model notation: a layer over the process language.
//!
//! A text in the notation is expanded into a text of the process language. `expand` does so, and knows for each token of the plain text
//! from which place of the source it comes. A `LineExpander` does the same for the command lines of a session.
#![tactic(auto)]

mod divider;
mod line_expander;
mod rendering;
mod sentences;
mod session;

pub use line_expander::LineExpander;
pub use notation_programs::expansion::{Expansion, expand};
pub use notation_tree::fault::{Expected, Fault, Meaning, MemberValue, NotationError, Problem};
pub use notation_tree::token::Mark;
pub use sentences::{likely, line_and_column, message};
pub use session::{ExpandedProgram, expand_program};
