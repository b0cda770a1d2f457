//! Sessions: lines that a source gives become calls of one session, and an observer may explain each answer. `serve` is a session whose
//! lines are those of an input, without an observer. The bytes of an `Input` are split into lines, within the limits, and the program text
//! comes first.
//!
//! `play` makes each plan of a line a command of its kind. No other module knows the kinds.
#![tactic(auto)]

mod framing;
pub mod laws;
mod line;
mod observer;
mod program_text;
mod reply_form;
mod running;
mod serving;
mod session;
mod silent;
mod source;

pub use framing::{Input, Next, Span};
pub use observer::{LineReply, LineSort, Observer};
pub use program_text::{TextEnd, is_end_line, read_program_text, text_alone};
pub use reply_form::{PlainReplies, ReplyForm};
pub use running::play;
pub use serving::serve;
pub use session::answer;
pub use source::{Answer, LineSource};
