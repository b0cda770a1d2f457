//! A session that seats on several threads share.

ghost use Rattle.std.specs.Prelude.{◌≡◌, ◌≤◌, [], length, replicate, IfOk, IfErr};
ghost use Rattle.dbg_base.specs.declared.refusal.Refusal.TheVariants.{Memory};
ghost use Rattle.dbg_base.specs.declared.limits.TheConstants.{SEATS};
ghost use Rattle.dbg_base.specs.Calls as model;
ghost use Rattle.dbg_base.specs.Calls.{query_of};
ghost use Rattle.proc_tree.specs.Programs.{program_of};
ghost use Rattle.dbg_command.specs.Tables.{said_of, reported_of};
ghost use Rattle.dbg_board.specs.Boards.{listing};
ghost use Rattle.dbg_board.specs.Pairs.{Begins, last_of};
ghost use Rattle.dbg_desk.specs.Desks.{Records, new_seats};
ghost use Rattle.dbg_desk.specs.Settling.{Settles, Differs, AreAll, own_calls};

use crate::locked::Locked;
use crate::run::Run;
use crate::seat::Seat;
use crate::settling::{Closing, Mismatch};
use dbg_base::{Answer, Gate, Query, Refusal, Reply};
use dbg_board::{Board, Glance, Publisher, SeatView};
use dbg_command::Command;
use proc_tree::Program;
use std::alloc::Global;
use std::sync::ledger::Blank;
use std::sync::{Mutex, Wait};
use std::thread::Threads;

/// A session under its lock, with the board next to it. Whenever a thread holds the lock, the journal is one that a single caller could
/// have made. All its calls are of the run's seats, and the ledger counts as many.
#[derive(Drop)]
pub struct Desk<L: Run, C: Command> {
    shared: Mutex<Locked<L, C>>,
    board: Board,
    ghost same_board: { board ≡ L.board },
}

impl<L: Run, C: Command> Desk<L, C> {
    /// The session of this program with an empty journal, and a seat for each view of the board, numbered from 1. Error: `Memory`, if an
    /// allocation fails.
    pub fn begin(
        alloc: Global,
        blank: Blank,
        board: Board,
        publisher: Publisher,
        views: Vec<SeatView>,
        program: Program,
    ) -> Result<(Desk<L, C>, Vec<Seat<L>>), Refusal>
        requires ledger { (blank.name ≡ L.name) × (blank.parts ≡ L.parts) × (blank.parts ≡ L.seats) }
        requires board { (board ≡ L.board) × (publisher ≡ listing L.board []) }
        requires views { views.items ≡ replicate L.seats (listing L.board []) }
        requires few { L.seats ≤ SEATS }
        requires program { program_of program ≡ L.program }
        ensures seats { IfOk result (λ made. made.1.items ≡ new_seats L.seats) }
        ensures refuses { IfErr result (λ refusal. refusal ≡ Memory) }
    {
        let (locked, seats) = Locked::new(alloc, blank, publisher, views, program)?;
        let shared = Mutex::new(locked);
        Ok((Desk { shared, board }, seats))
    }

    /// Gives a command for a seat. Several threads, which ask the gate, scan the conjuncts of a breakpoint, while the session waits. Error:
    /// `JournalFull`, if the journal is full, and `Memory`, if an allocation fails. Then the call is not entered, and nothing changes.
    #[tactic(auto, using(crate::proofs::RecordLemmas::recorded))]
    pub fn call<R: Threads + Wait + Sync, G: Gate>(
        &self,
        rt: &R,
        alloc: Global,
        seat: &mut Seat<L>,
        command: C,
        gate: &G,
    ) -> Result<Reply, Refusal>
        requires fresh { C.IsFresh command }
        ensures records { Records seat.old (model.Give (C.order command)) (said_of result) seat.new }
    {
        self.shared.lock(rt).call(rt, alloc, seat, command, gate)
    }

    /// Takes back, for a seat, the last command that counts. Error: `JournalFull`, if the journal is full, and `Memory`, if an allocation
    /// fails. Then the call is not entered, and nothing changes.
    #[tactic(auto, using(crate::proofs::RecordLemmas::recorded))]
    pub fn back<R: Wait>(&self, rt: &R, seat: &mut Seat<L>) -> Result<Reply, Refusal>
        ensures records { Records seat.old model.Back (said_of result) seat.new }
    {
        self.shared.lock(rt).enter_back(seat)
    }

    /// Answers a query of a seat. Error: `JournalFull`, if the journal is full, and `Memory`, if an allocation fails. Then the call is not
    /// entered, and nothing changes.
    #[tactic(auto, using(crate::proofs::RecordLemmas::recorded))]
    pub fn ask<R: Wait>(
        &self,
        rt: &R,
        alloc: Global,
        seat: &mut Seat<L>,
        query: Query,
    ) -> Result<Answer, Refusal>
        ensures records { Records seat.old (model.Ask (query_of query)) (reported_of result) seat.new }
    {
        self.shared.lock(rt).enter_ask(alloc, seat, query)
    }

    /// Checks that each of these seats has recorded exactly its calls in the journal, in order. It does not allocate.
    pub fn settle<R: Wait>(&self, rt: &R, seats: &[Seat<L>]) -> Result<Closing, Mismatch>
        // They have: the recorded calls are in one history of a single caller, each once and in the seat's order. It has so many calls in
        // all.
        ensures settles { IfOk result (λ closing. Settles L.program L.seats seats.now closing.calls) }
        // If these are all seats, they have recorded all calls of the history.
        ensures all { IfOk result (λ closing. AreAll L.seats seats.now → closing.calls ≡ own_calls seats.now) }
        // They have not: the journal has other calls of this seat than its record.
        ensures differs { IfErr result (λ mismatch. Differs L.program L.seats seats.now mismatch.seat) }
    {
        self.shared.lock(rt).settle(seats)
    }

    /// How many calls were entered, and the position of the breakpoint that halts the session after them, or 0. The calls are at least as
    /// many as the seat's own, and no fewer than it has seen before. It does not allocate, and does not wait.
    pub fn look(&self, seat: &mut Seat<L>) -> Glance
        ensures number { seat.new.number ≡ seat.old.number }
        ensures own { seat.new.own ≡ seat.old.own }
        ensures begins { Begins seat.old.seen seat.new.seen }
        ensures last { result ≡ last_of seat.new.seen }
        ensures calls { result.calls ≡ length seat.new.seen }
        ensures enough { length seat.new.own ≤ result.calls }
    {
        self.board.look(&mut seat.view)
    }

    /// The value under the lock. It does not allocate, and does not wait.
    pub fn into_locked(self) -> Locked<L, C> {
        let Desk { shared, .. } = self;
        shared.into_inner()
    }
}
