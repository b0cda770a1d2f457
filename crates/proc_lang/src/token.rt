//! Tokens.

ghost use Rattle.std.specs.Prelude.{◌<◌, ◌^◌};

use dbg_base::{Name, Sign};

/// A number of a text: from 0 to the largest i64.
#[derive(Clone, Copy)]
pub(crate) struct Magnitude {
    pub(crate) value: u64,
    ghost in_range: { value < 2 ^ 63 },
}

/// A word, a number or a sign.
#[derive(Clone, Copy)]
pub(crate) enum Token {
    Word(Name),
    Number(Magnitude),
    Symbol(Sign),
}

/// A token, and the offset of its first byte.
#[derive(Clone, Copy)]
pub(crate) struct Placed {
    pub(crate) at: usize,
    pub(crate) token: Token,
}
