//! Who may start a piece of work in a thread.

ghost use Rattle.std.specs.Prelude.{IsFalse};

use std::marker::Sync;

/// Workers in threads call it before and after each turn of work. A worker does not start a turn from which the gate bars it.
pub trait Gate: Sync {
    ghost use Rattle.std.specs.Prelude.{ℕ};

    // The gate may bar this worker from this turn. Both are numbered from 0.
    ghost may_bar: { Self → ℕ → ℕ → Type 0 };

    /// Whether the worker may start the turn. Workers and turns are numbered from 0.
    fn may_start(&self, worker: u32, turn: u32) -> bool
        ensures { IsFalse result → may_bar self.now worker turn };

    /// The worker has ended the turn, with whatever result.
    fn answered(&self, worker: u32, turn: u32);
}

/// A gate that bars no turn.
#[derive(Clone, Copy, Drop)]
pub struct OpenGate;

impl Gate for OpenGate {
    ghost may_bar = { λ gate worker turn. ⊥ };

    fn may_start(&self, _worker: u32, _turn: u32) -> bool {
        true
    }

    fn answered(&self, _worker: u32, _turn: u32) {}
}
