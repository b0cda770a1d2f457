//! A picture of a session as a drawing (SVG).
#![tactic(auto)]

mod arrangement;
mod arrows;
mod cuts;
mod events;
mod head;
mod labels;
mod layout;
mod obstacles;
mod places;
mod rows;
mod shapes;
mod sheet;
mod spots;
mod svg;

pub use sheet::draw_drawing;
