//! The word that all holders of a board share, what each of them knows, and the steps on it.

ghost use Rattle.std.specs.Prelude.{◌≡◌, ◌≤◌};
ghost use Rattle.dbg_base.specs.declared.limits.TheConstants.{BREAKPOINTS, CALLS};
ghost use Rattle.dbg_board.specs.Words.{code_of, glance_of};

use crate::glance::Glance;
use atomic_table::{Join, Play, Seat, Split, Table, TableRule};
use std::alloc::Global;
use std::collections::LinkedList;

// More than the positions of breakpoints, with 0 for none.
const POSITIONS: u64 = 128;

/// What a holder of the word knows: whether it publishes, the pairs that it has published or seen, and the pairs that its guest has seen.
/// No value of this type exists at run time.
pub struct Known {
    pub publishes: bool,
    pub pairs: LinkedList<Glance>,
    pub guest: LinkedList<Glance>,
}

/// All holders know prefixes of one list, whose last pair is in the word.
pub struct OneList;

impl TableRule<(), Known, ()> for OneList {
    ghost use Rattle.std.specs.Prelude.{[]};
    ghost use Rattle.dbg_board.specs.Rules.{IsKept, publishing};

    ghost holds = { λ _. IsKept };

    ghost first = { λ _. publishing [] };
}

/// The publisher stores a pair.
pub struct Publishes;

impl Play<(), Known> for Publishes {
    ghost use Rattle.dbg_board.specs.Rules.{Adds};

    ghost then = { Adds };
}

/// A view loads the last pair.
pub struct Looks;

impl Play<(), Known> for Looks {
    ghost use Rattle.dbg_board.specs.Rules.{Sees};

    ghost then = { Sees };
}

/// The publisher finds that the pairs that its guest has seen are a prefix of those that were published.
pub struct Compares;

impl Play<(), Known> for Compares {
    ghost use Rattle.dbg_board.specs.Rules.{Compared};

    ghost then = { Compared };
}

/// The publisher makes a view that has seen all that was published.
pub struct Shows;

impl Split<Known> for Shows {
    ghost use Rattle.dbg_board.specs.Rules.{following};

    ghost left = { λ known. known };

    ghost right = { λ known. following known.pairs };
}

/// The publisher takes a view as its guest.
pub struct Hosts;

impl Join<Known> for Hosts {
    ghost use Rattle.std.specs.Prelude.{[]};
    ghost use Rattle.dbg_board.specs.Rules.{hosting, following};

    ghost both = { λ known guest. hosting known.pairs guest.pairs };

    ghost spent = { following [] };
}

pub type BoardWord = Table<(), Known, (), OneList, Global>;

pub type WordSeat = Seat<(), Known>;

/// A pair as one number.
pub fn code(pair: Glance) -> u64
    requires calls { pair.calls ≤ CALLS }
    requires halt { pair.halt ≤ BREAKPOINTS }
    ensures { result ≡ code_of pair }
{
    POSITIONS * pair.calls + pair.halt
}

/// The pair of a number.
pub fn glance(code: u64) -> Glance
    ensures { result ≡ glance_of code }
{
    Glance {
        calls: code / POSITIONS,
        halt: code % POSITIONS,
    }
}
