//! A seat of a session.

ghost use Rattle.std.specs.Prelude.{◌≡◌, map};
ghost use Rattle.dbg_desk.specs.Desks.{own_of};

use crate::entry::RecordedCall;
use crate::run::Run;
use dbg_board::SeatView;
use std::marker::Model;
use std::sync::ledger::Share;

/// A numbered caller of a session, with the record of its own calls, its share of the run's ledger, and its view of the board. Contracts
/// see its number, its own calls, and what it has seen of the board.
#[derive(Drop)]
pub struct Seat<L: Run> {
    pub(crate) number: u32,
    pub(crate) own: Vec<RecordedCall>,
    pub(crate) share: Share<L>,
    pub(crate) view: SeatView,
}

impl<L: Run> Model for Seat<L> {
    ghost use Rattle.std.specs.Prelude.{map};
    ghost use Rattle.std.specs.Coded.{codes};
    ghost use Rattle.std.specs.Vec.{vec_len};
    ghost use Rattle.least_cut.specs.TreeCodes.{coded_tree};
    ghost use Rattle.dbg_board.specs.contracts.glance.Glance as glance_row;
    ghost use Rattle.dbg_desk.specs.Desks.{SeatState, IsSeat, own_of};

    ghost Value = { SeatState };

    ghost coded = { Prim.hlevel (codes, coded_tree, glance_row.the_row.coded) };

    ghost view = { λ seat. record { number = seat.number; own = map own_of seat.own.items; seen = seat.view.pairs } };

    ghost invariant = { λ seat. IsSeat L.board L.seats seat.number (vec_len seat.own) seat.share.parts seat.share.amount seat.view };
}

impl<L: Run> Seat<L> {
    /// The seat's number, from 1. It does not allocate.
    pub fn number(&self) -> u32
        ensures { result ≡ self.now.number }
    {
        self.number
    }

    /// The calls that the seat made and that were entered, in order, each with its answer. It does not allocate.
    pub fn own_calls(&self) -> &[RecordedCall]
        ensures { map own_of result.now ≡ self.now.own }
    {
        self.own.as_slice()
    }
}
