//! The tests of the engine, and of a desk and its crews: what neither contracts say nor sessions reach, through public calls.
#![tactic(auto)]

#[cfg(test)]
mod crew;
#[cfg(test)]
mod engine;
#[cfg(test)]
mod expecting;
