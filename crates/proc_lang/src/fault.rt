//! Why a text could not be read.

ghost use Rattle.std.specs.Prelude.{◌≡◌};
ghost use Rattle.proc_lang.specs.declared.fault.ProgError.TheVariants.{Bad, Memory};

use dbg_base::{FaultKind, ProgFault};
use std::alloc::{AllocError, AllocFailed};

/// Why a text could not be read.
#[derive(Clone, Copy, Debug, PartialEq, Eq)]
pub enum ProgError {
    Bad(ProgFault),
    /// An allocation failed.
    Memory,
}

/// The error for a fault of this kind at this offset.
pub(crate) fn bad(kind: FaultKind, at: usize) -> ProgError
    ensures { result ≡ Bad (record { kind = kind; at = at }) }
{
    ProgError::Bad(ProgFault { kind, at })
}

impl From<ProgFault> for ProgError {
    ghost from_gives = { λ fault e. e ≡ Bad fault };

    fn from(fault: ProgFault) -> ProgError {
        ProgError::Bad(fault)
    }
}

impl From<AllocError> for ProgError {
    ghost from_gives = { λ _ e. e ≡ Memory };

    fn from(_error: AllocError) -> ProgError {
        ProgError::Memory
    }
}

impl<T: Drop> From<AllocFailed<T>> for ProgError {
    ghost from_gives = { λ _ e. e ≡ Memory };

    fn from(_error: AllocFailed<T>) -> ProgError {
        ProgError::Memory
    }
}
