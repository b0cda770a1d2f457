//! How a run of the shell ends.

ghost use Rattle.std.specs.Prelude.{◌≡◌, Err};
ghost use Rattle.shell_print.specs.Outcomes.{status_of};
ghost use Rattle.shell_print.specs.declared.outcome.ServeFault.TheVariants.{Memory};

use std::alloc::AllocError;
use thiserror::Error;

/// How a run ended if nothing failed.
#[derive(Clone, Copy, PartialEq, Eq)]
pub enum Served {
    /// All lines were answered.
    Done,
    /// The program text was refused, and the fault was reported.
    Refused,
    /// The input was too long, and that was reported.
    TooLong,
}

/// Why a run ended early.
#[derive(Debug, Drop, Error)]
pub enum ServeFault {
    /// The input could not be read.
    #[error("the input could not be read")]
    Read,
    /// The output could not be written.
    #[error("the output could not be written")]
    Write,
    /// Memory ran out before the first command line.
    #[error("out of memory")]
    Memory,
}

impl From<AllocError> for ServeFault {
    ghost from_gives = { λ _ fault. fault ≡ Memory };

    fn from(_error: AllocError) -> ServeFault {
        ServeFault::Memory
    }
}

impl ServeFault {
    /// The exit status after this fault.
    pub fn status(&self) -> u8
        ensures { result ≡ status_of (Err self.now) }
    {
        match self {
            ServeFault::Read | ServeFault::Write => 1,
            ServeFault::Memory => 4,
        }
    }
}

/// The exit status: 0 done, 1 a fault of input or output, 3 a refused program, 4 out of memory at the start.
pub fn status(outcome: &Result<Served, ServeFault>) -> u8
    ensures { result ≡ status_of outcome.now }
{
    match outcome {
        Ok(Served::Done) => 0,
        Ok(Served::TooLong) => 1,
        Ok(Served::Refused) => 3,
        Err(fault) => fault.status(),
    }
}
