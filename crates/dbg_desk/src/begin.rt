//! How a run is opened.

ghost use Rattle.std.specs.Prelude.{◌≡◌, ◌≤◌, [], IfOk, IfErr};
ghost use Rattle.dbg_base.specs.declared.refusal.Refusal.TheVariants.{Memory};
ghost use Rattle.dbg_base.specs.declared.limits.TheConstants.{SEATS};
ghost use Rattle.dbg_desk.specs.Desks.{new_seats};
ghost use Rattle.dbg_desk.specs.Openings.{IsOpeningOf};

use crate::desk::Desk;
use crate::locked::Locked;
use crate::opening::Opening;
use crate::run::Run;
use crate::seat::Seat;
use dbg_base::Refusal;
use dbg_board::Board;
use dbg_command::Command;
use proc_tree::Program;
use std::alloc::Global;
use std::sync::ledger::Blank;

impl Opening {
    /// The opening of a run of this program with 1 to 16 seats. Error: `Memory`, if an allocation fails.
    pub fn new(alloc: Global, program: Program, seats: u32) -> Result<Opening, Refusal>
        requires { (1 ≤ seats) × (seats ≤ SEATS) }
        ensures program { IfOk result (λ opening. opening.program ≡ program) }
        ensures seats { IfOk result (λ opening. opening.blank.parts ≡ seats) }
        ensures refuses { IfErr result (λ refusal. refusal ≡ Memory) }
    {
        let (board, publisher, views) = Board::new(alloc, seats)?;
        Ok(Opening {
            program,
            blank: Blank::new(u64::from(seats)),
            board,
            publisher,
            views,
        })
    }

    /// The value under the lock of a run in which no call was made, and the run's seats. Error: `Memory`, if an allocation fails.
    pub fn lock<L: Run, C: Command>(
        self,
        alloc: Global,
    ) -> Result<(Locked<L, C>, Vec<Seat<L>>), Refusal>
        requires { IsOpeningOf L.program L.board L.name L.parts L.seats self }
        ensures journal { IfOk result (λ made. made.0.journal ≡ []) }
        ensures seats { IfOk result (λ made. made.1.items ≡ new_seats L.seats) }
        ensures refuses { IfErr result (λ refusal. refusal ≡ Memory) }
    {
        let Opening {
            program,
            blank,
            publisher,
            views,
            ..
        } = self;
        Locked::new(alloc, blank, publisher, views, program)
    }

    /// The desk of a run in which no call was made, and the run's seats. Error: `Memory`, if an allocation fails.
    pub fn desk<L: Run, C: Command>(
        self,
        alloc: Global,
    ) -> Result<(Desk<L, C>, Vec<Seat<L>>), Refusal>
        requires { IsOpeningOf L.program L.board L.name L.parts L.seats self }
        ensures seats { IfOk result (λ made. made.1.items ≡ new_seats L.seats) }
        ensures refuses { IfErr result (λ refusal. refusal ≡ Memory) }
    {
        let Opening {
            program,
            blank,
            board,
            publisher,
            views,
        } = self;
        Desk::begin(alloc, blank, board, publisher, views, program)
    }
}
