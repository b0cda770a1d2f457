//! A picture of a halt as a drawing (SVG): the least cut is one straight line, and a lane shows where each part of the predicate holds.
#![tactic(auto)]

mod arrows;
mod flights;
mod frame;
mod lanes;
mod layout;
mod marks;
mod panel;
mod picture;
mod pixels;
mod scene;
mod style;
mod svg;

pub use picture::draw_halt;
pub use scene::HaltScene;
