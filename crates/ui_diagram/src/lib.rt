//! Pictures of a session as text: a space-time diagram for a terminal, a sequence diagram, and a log.
#![tactic(auto)]

mod canvas;
mod form;
mod log;
mod mermaid;
mod text;

pub use form::{Moment, Picture, PictureForm};
pub use log::write_log;
pub use mermaid::draw_mermaid;
pub use text::{ALL_EVENTS, WIDTH, draw_text};
