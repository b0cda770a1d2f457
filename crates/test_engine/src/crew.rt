//! The tests of a session that seats share, and of crews, also in several threads.

mod crew_gate;
mod crews;
mod desk_trial;
mod desks;
mod looks;
mod many;
mod plain;
mod plans;
mod reported;
mod shown;
mod trials;
mod wide;
