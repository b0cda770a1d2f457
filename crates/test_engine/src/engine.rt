//! The tests of the engine, by the crate that they test.

mod board;
mod copies;
mod cuts;
mod eliminations;
mod gate;
mod journals;
mod scans;
mod truths;
mod worlds;
