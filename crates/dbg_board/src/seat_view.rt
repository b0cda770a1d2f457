//! The views.

use crate::word::WordSeat;
use std::marker::Model;

/// What a seat has seen of a board. Contracts see the board, and these pairs.
pub struct SeatView {
    pub(crate) seat: WordSeat,
}

impl Drop for SeatView {
    fn drop(self) {
        let Self { seat } = self;
    }
}

impl Model for SeatView {
    ghost use Rattle.std.specs.Coded.{codes};
    ghost use Rattle.atomic_table.specs.Seated.{table_id_coded};
    ghost use Rattle.dbg_board.specs.Boards.{Listing};
    ghost use Rattle.dbg_board.specs.contracts.glance.Glance as glance_row;

    ghost Value = { Listing };

    ghost coded = { Prim.hlevel (codes, table_id_coded, glance_row.the_row.coded) };

    ghost use Rattle.std.specs.Prelude.{◌≡◌, []};
    ghost use Rattle.dbg_board.specs.Rules.{following};

    ghost view = { λ view. record { board = view.seat.table_id; pairs = view.seat.me.0.pairs } };

    ghost invariant = { λ view. view.seat.me ≡ (following view.seat.me.0.pairs, []) };
}
