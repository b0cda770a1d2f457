//! The steps of the search for a breakpoint's cut.

use crate::ids::Pid;

/// Why a local state is in no cut that satisfies a breakpoint.
#[derive(Clone, Copy, PartialEq, Eq)]
pub enum Cause {
    /// The conjunct of its process is false in it.
    FalseAt,
    /// The clock of this process after this event, which every satisfying cut includes, counts more events.
    Passed(Pid, u32),
}

/// A step of the search. If all satisfying cuts have at least `from` events of the process, all have at least `to`.
#[derive(Clone, Copy, PartialEq, Eq)]
pub struct Elimination {
    pub pid: Pid,
    pub from: u32,
    pub to: u32,
    pub cause: Cause,
}
