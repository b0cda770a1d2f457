//! Where an expression finds the values of variables and the counts of messages.

ghost use Rattle.std.specs.Prelude.{◌≡◌, slice_get, [], ◌∷◌};
ghost use Rattle.dbg_base.specs.LocalStates.{LocalState, counts_of};
ghost use Rattle.dbg_base.specs.Firing.{with_set};

use crate::env::Env;
use dbg_base::Direction;

/// A local state, as expressions see it.
pub(crate) trait Local {
    // The local state.
    ghost state: { Self → LocalState };

    /// The value of a variable, or None if there is no such variable.
    fn variable(&self, index: u32) -> Option<i64>
        ensures { result ≡ slice_get (state self.now).values index };

    /// How many messages the process has sent to each process, or has received from each, in program order.
    fn counts(&self, direction: Direction) -> &[u32]
        ensures { result.now ≡ counts_of direction (state self.now) };
}

impl Local for Env {
    ghost state = { λ env. env };

    fn variable(&self, index: u32) -> Option<i64> {
        self.values().get(index as usize).copied()
    }

    fn counts(&self, direction: Direction) -> &[u32] {
        Env::counts(self, direction)
    }
}

/// A local state with a received message in a variable. The local state itself is not copied.
#[derive(Clone, Copy)]
pub(crate) struct LocalAfterReceive<'a> {
    pub(crate) env: &'a Env,
    pub(crate) variable: u32,
    pub(crate) message: i64,
}

impl Local for LocalAfterReceive<'_> {
    ghost state = { λ local. with_set local.env.now ((local.variable, local.message) ∷ []) };

    fn variable(&self, index: u32) -> Option<i64> {
        let value = self.env.variable(index)?;
        if index == self.variable {
            Some(self.message)
        } else {
            Some(value)
        }
    }

    fn counts(&self, direction: Direction) -> &[u32] {
        self.env.counts(direction)
    }
}
