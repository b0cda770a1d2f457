//! The kinds of commands. Each keeps something once it was accepted, and has its own inverse.

pub(crate) mod batching;
pub(crate) mod breaking;
pub(crate) mod playing;
pub(crate) mod undoing;
