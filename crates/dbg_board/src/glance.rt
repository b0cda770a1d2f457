//! What a display reads.

/// How many calls were entered, and the position, from 1, of the breakpoint that halts the session after them, or 0 if none does.
#[derive(Clone, Copy, Debug, PartialEq, Eq)]
pub struct Glance {
    pub calls: u64,
    pub halt: u64,
}
