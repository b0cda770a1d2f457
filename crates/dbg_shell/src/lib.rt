//! The shell: bytes of input become lines, lines become calls of a session, and the answers become bytes of output.
//!
//! `serve` answers a program text and the command lines after it. `check` checks a program text alone. In `run_crew`, workers give `next`
//! for each process, and the journal is compared with the answers that they got. `asked` parses the program's own arguments.
#![tactic(auto)]

mod checking;
mod crewed;
mod crewing;
mod jobs;
mod orders;
mod pictures;
mod subcommands;
mod usage;

pub use checking::check;
pub use crewed::{Crewed, crew_status, fits_turns, print_closing};
pub use crewing::run_crew;
pub use dbg_desk::{Closing, Mismatch};
pub use jobs::{Coloring, Job, Request, Work};
pub use shell_io::{Health, Noted, Sink, Source};
pub use shell_parse::{Line, parse_line};
pub use shell_print::{ServeFault, Served, print_reply, status};
pub use shell_serve::serve;
pub use usage::{asked, job};
