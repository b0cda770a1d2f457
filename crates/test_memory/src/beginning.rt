//! What a run with three seats is opened from.

ghost use Rattle.std.specs.Prelude.{◌≡◌};

use dbg_base::Refusal;
use dbg_board::{Board, SeatView};
use dbg_desk::Opening;
use proc_lang::{ProgError, parse_program};
use proc_tree::Program;
use std::alloc::Global;
use std::sync::ledger::Blank;

/// The opening of a run with three seats, and a view of its board besides theirs.
#[derive(Drop)]
pub(crate) struct ThreeSeats {
    pub(crate) opening: Opening,
    pub(crate) display: SeatView,
    ghost three: { opening.blank.parts ≡ 3 },
    ghost looks: { display.board ≡ opening.board },
}

/// The program of a text. Error: `BadLine` if the text is not a program.
pub(crate) fn program_of_text(alloc: Global, text: &str) -> Result<Program, Refusal> {
    match parse_program(alloc, text.as_bytes()) {
        Ok(program) => Ok(program),
        Err(ProgError::Memory) => Err(Refusal::Memory),
        Err(ProgError::Bad(_)) => Err(Refusal::BadLine),
    }
}

/// What a run of this program is made of.
pub(crate) fn begin(alloc: Global, text: &str) -> Result<ThreeSeats, Refusal> {
    let program = program_of_text(alloc, text)?;
    let (board, publisher, mut views) = Board::new(alloc, 4)?;
    let display = views.pop().ok_or(Refusal::BadLine)?;
    let opening = Opening {
        program,
        blank: Blank::new(3),
        board,
        publisher,
        views,
    };
    Ok(ThreeSeats { opening, display })
}
