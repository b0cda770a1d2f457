//! A line of a session.

/// A line that a session answers, and what its source notes about it.
#[derive(Clone, Copy)]
pub struct GivenLine<'a, N> {
    /// The line as its author wrote it.
    pub written: &'a [u8],
    /// The line as a run takes it. None if memory ran out before it was made.
    pub played: Option<&'a [u8]>,
    /// Whether it is the first line that is played for the written one.
    pub is_first: bool,
    /// Whether a terminal shows the written line already.
    pub is_typed: bool,
    /// What else the source knows.
    pub note: &'a N,
}
