//! Plays a session and draws it: one state of it, or a page to go through it.
#![tactic(auto)]

mod artist;
mod drawer;
mod drawing;
mod halt_picture;
mod page_drawer;

pub use drawing::{Drawn, draw, draw_status};
