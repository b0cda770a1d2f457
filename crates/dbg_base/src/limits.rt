//! The limits of a program, of a session and of its input.

/// The most processes of a program.
pub const PROCESSES: usize = 32;
/// The most variables of a process.
pub const VARIABLES: usize = 32;
/// The most commands of a process.
pub const COMMANDS: usize = 64;
/// The most parentheses that may be open at once in a program text.
pub const OPEN_PARENTHESES: u32 = 32;
/// The most bytes of a name.
pub const NAME_BYTES: usize = 32;
/// The most events of a process.
pub const EVENTS: u32 = 20_000;
/// The most breakpoints that are set at once.
pub const BREAKPOINTS: usize = 64;
/// The most commands of a batch.
pub const BATCH: usize = 32;
/// The most seats of a session.
pub const SEATS: u32 = 16;
/// The most calls that are entered in a session's journal.
pub const CALLS: usize = 100_000;
/// The most bytes of a command line, without its line end and before a carriage return is dropped.
pub const LINE_BYTES: usize = 1_024;
/// The most bytes of input, and of a program text.
pub const INPUT_BYTES: usize = 1_048_576;
