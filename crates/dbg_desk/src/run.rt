//! The run to which a seat belongs.

use std::marker::Brand;
use std::sync::ledger::Ledger;

/// One run of a session: the ledger of its calls, its program, its board, and how many seats it has. Code that starts a run calls a
/// function over this trait at `Brand`, and picks all of them at the call.
pub trait Run: Ledger {
    ghost use Rattle.dbg_base.specs.Trees.{Program};
    ghost use Rattle.dbg_board.specs.Boards.{BoardId};
    ghost use Rattle.std.specs.Prelude.{ℕ};

    ghost program: { Program };

    ghost board: { BoardId };

    ghost seats: { ℕ };
}

impl Run for Brand {
    ghost use Rattle.std.specs.Prelude.{[]};
    ghost use Rattle.dbg_desk.specs.Desks.{no_board};

    ghost program = { [] };

    ghost board = { no_board };

    ghost seats = { 0 };
}
