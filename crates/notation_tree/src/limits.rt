//! What a text may ask for at most.
//!
//! The plain limits bound the result: 32 open parentheses, 1,048,576 bytes. These bound the work on the way to it. Each is far above what
//! a text needs whose result is within the plain limits.

/// The most brackets, parentheses, minus signs and `not` that are open at once in an expression.
pub const NESTING: u32 = 128;
/// The most `for` that are open at once.
pub const REPEATS: u32 = 64;
/// The most parameters of a definition.
pub const PARAMETERS: usize = 64;
/// How deep expressions may be put into one another during expansion: each definition, argument, parenthesis and half of an `all` counts
/// one.
pub const UNFOLDING: u32 = 512;
/// The most steps of an expansion, and of a command line: each part of an expression that is written or computed, and each member of a range,
/// is one.
pub const STEPS: u32 = 2_000_000;
/// The most steps of all command lines of a session.
pub const SESSION_STEPS: u32 = 10_000_000;
/// The most plain lines to which one command line with `for` expands, and the most parts of a breakpoint.
pub const COPIES: usize = 65_536;
