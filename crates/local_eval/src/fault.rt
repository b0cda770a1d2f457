//! Why an evaluation has no value.

ghost use Rattle.std.specs.Prelude.{◌≡◌};
ghost use Rattle.local_eval.specs.declared.fault.EvalError.TheVariants.{Fault, Memory};

use std::alloc::{AllocError, AllocFailed};

/// An evaluation faulted: a number left its range, a divisor was 0, a variable or a process did not exist, or an operand had the wrong
/// type. (The right operand of `and` and `or` may have any type.)
#[derive(Clone, Copy, Debug, PartialEq, Eq)]
pub struct EvalFault;

/// Why a command has no effect.
#[derive(Debug, Drop)]
pub enum EvalError {
    /// An evaluation faulted.
    Fault,
    /// An allocation failed.
    Memory,
}

impl From<EvalFault> for EvalError {
    ghost from_gives = { λ _ e. e ≡ Fault };

    fn from(_e: EvalFault) -> EvalError {
        EvalError::Fault
    }
}

impl From<AllocError> for EvalError {
    ghost from_gives = { λ _ e. e ≡ Memory };

    fn from(_e: AllocError) -> EvalError {
        EvalError::Memory
    }
}

impl<T: Drop> From<AllocFailed<T>> for EvalError {
    ghost from_gives = { λ _ e. e ≡ Memory };

    fn from(_e: AllocFailed<T>) -> EvalError {
        EvalError::Memory
    }
}
