//! What a run is opened from.

ghost use Rattle.std.specs.Prelude.{◌≡◌, ◌≤◌, [], replicate};
ghost use Rattle.dbg_base.specs.declared.limits.TheConstants.{SEATS};
ghost use Rattle.dbg_board.specs.Boards.{listing};

use dbg_board::{Board, Publisher, SeatView};
use proc_tree::Program;
use std::sync::ledger::Blank;

/// What a run is opened from. The board is new, and has a view for each seat.
#[derive(Drop)]
pub struct Opening {
    /// The program that the session runs.
    pub program: Program,
    /// The ledger, with a part for each seat.
    pub blank: Blank,
    /// The board, on which nothing was published yet.
    pub board: Board,
    /// The publisher of the board.
    pub publisher: Publisher,
    /// A view of the board for each seat.
    pub views: Vec<SeatView>,
    ghost new: { publisher ≡ listing board [] },
    ghost looks: { views.items ≡ replicate blank.parts (listing board []) },
    ghost few: { blank.parts ≤ SEATS },
}
