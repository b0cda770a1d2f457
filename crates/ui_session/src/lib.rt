//! The lines of an interactive session: those of a run, each with an explanation, and directives, which make no call.
#![tactic(auto)]

mod dialogue;
mod directives;
mod named_replies;
mod room;
mod typed;
mod value_words;
mod written;

pub use dialogue::Dialogue;
pub use named_replies::{NamedReplies, plain_text};
pub use room::Room;
pub use typed::Typed;
pub use written::explain;
