//! Sessions in the model notation or plain, as their authors write them: interactive ones, and what they become.
#![tactic(auto)]

mod expanding;
mod fault_places;
mod naming;
mod opening;
mod program_alone;
mod read_line;
mod reply_forms;
mod running;
mod sentences;
mod session_lines;
mod value_types;
mod words;
mod written_program;

pub use expanding::{expand, write_notes, write_text};
pub use fault_places::refuse;
pub use naming::{name_commands, tell_notation};
pub use opening::{OpenSession, Opening, PlayedSession, open};
pub use program_alone::{ProgramAlone, WrongText, read_alone};
pub use read_line::{AnsweredLine, ExpandedLine, LineFault};
pub use reply_forms::ReplyForms;
pub use running::{explain, talk};
pub use sentences::Sentences;
pub use session_lines::SessionLines;
pub use words::{LineWords, wanted};
pub use written_program::WrittenProgram;
