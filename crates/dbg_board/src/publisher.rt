//! The publisher.

ghost use Rattle.std.specs.Prelude.{◌≡◌, ◌+◌, ◌≤◌, ◌++◌, ◌∷◌, [], length};
ghost use Rattle.dbg_base.specs.declared.limits.TheConstants.{BREAKPOINTS, CALLS};
ghost use Rattle.dbg_board.specs.Pairs.{Begins};
ghost use Rattle.dbg_board.specs.Boards.{listing};

use crate::glance::Glance;
use crate::seat_view::SeatView;
use crate::word::{BoardWord, Compares, Hosts, Publishes, Shows, WordSeat, code};
use std::marker::Model;
use std::mem;
use std::sync::Arc;

/// The only one who publishes to a board. Contracts see the board, and all pairs that were published.
pub struct Publisher {
    pub(crate) word: Arc<BoardWord>,
    pub(crate) seat: WordSeat,
}

impl Drop for Publisher {
    fn drop(self) {
        let Self { word, seat } = self;
    }
}

impl Model for Publisher {
    ghost use Rattle.std.specs.Coded.{codes};
    ghost use Rattle.atomic_table.specs.Seated.{table_id_coded};
    ghost use Rattle.dbg_board.specs.Boards.{Listing};
    ghost use Rattle.dbg_board.specs.contracts.glance.Glance as glance_row;

    ghost Value = { Listing };

    ghost coded = { Prim.hlevel (codes, table_id_coded, glance_row.the_row.coded) };

    ghost use Rattle.std.specs.Prelude.{◌≡◌, []};
    ghost use Rattle.std.specs.Arc.{arc_value};
    ghost use Rattle.dbg_board.specs.Rules.{publishing};

    ghost view = { λ publisher. record { board = publisher.seat.table_id; pairs = publisher.seat.me.0.pairs } };

    ghost invariant = { λ publisher. ((arc_value publisher.word).shared.table_id.words ≡ 1)
        × (publisher.seat.table_id ≡ (arc_value publisher.word).shared.table_id)
        × (publisher.seat.me ≡ (publishing publisher.seat.me.0.pairs, [])) };
}

impl Publisher {
    /// Publishes one more pair: the number of calls, and the position of the breakpoint that halts the session, or 0. It does not allocate.
    pub fn publish(&mut self, calls: u64, halt: u64)
        requires next { calls ≡ length self.old.pairs + 1 }
        requires few { calls ≤ CALLS }
        requires halt { halt ≤ BREAKPOINTS }
        ensures { self.new ≡ listing self.old.board (self.old.pairs ++ record { calls = calls; halt = halt } ∷ []) }
    {
        let code = code(Glance { calls, halt });
        self.word.shared.store::<Publishes>(&mut self.seat, 0, code);
    }

    /// Lets a view see all that was published. It does not allocate.
    pub fn tell(&mut self, view: &mut SeatView)
        requires { view.old.board ≡ self.old.board }
        ensures kept { self.new ≡ self.old }
        ensures begins { Begins view.old.pairs view.new.pairs }
        ensures reported { view.new ≡ self.old }
    {
        let shared = &self.word.shared;
        // The view is replaced by one that has seen all. What it had seen is compared with what was published.
        let knows_all = shared.split_seat::<Shows>(&mut self.seat);
        let before = mem::replace(&mut view.seat, knows_all);
        shared.join_seat::<Hosts>(&mut self.seat, before);
        shared.load::<Compares>(&mut self.seat, 0);
    }
}
