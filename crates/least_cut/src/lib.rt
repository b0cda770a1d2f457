//! The least cut that satisfies a conjunction of local predicates, or that there is none. It is kept up to date as events are made and
//! undone, with a list of eliminations that proves it and that anyone can check.
#![tactic(auto)]

mod checking;
mod detector;
mod room;
mod scan;
mod watch;
mod watches;

pub use checking::check_why;
pub use dbg_base::{Cause, Elimination};
pub use detector::{Detector, steps_up_to};
pub use scan::Scan;
