//! The calls of a session that return their answer.

ghost use Rattle.std.specs.Prelude.{◌≡◌, ◌≤◌, [], length, IfOk, IfErr, IfSome};
ghost use Rattle.std.specs.Vec.{vec_capacity};
ghost use Rattle.dbg_base.specs.Calls as model;
ghost use Rattle.dbg_base.specs.Calls.{query_of};
ghost use Rattle.dbg_base.specs.ModelStates.{ModelState};
ghost use Rattle.dbg_base.specs.Journals.{Makes, LeadsTo, effective};
ghost use Rattle.dbg_base.specs.Fits.{FitsCall};
ghost use Rattle.dbg_command.specs.Tables.{said_of, reported_of};
ghost use Rattle.dbg_command.specs.Boxes.{IsScanFor};
ghost use Rattle.dbg_desk.specs.Desks.{Notes};
ghost use Rattle.dbg_desk.specs.Reserved.{IsUnready};

use crate::copies::{outcome_again, outcome_of};
use crate::locked::Locked;
use crate::run::Run;
use crate::seat::Seat;
use dbg_base::{Answer, Query, Refusal, Reply};
use dbg_command::Command;
use least_cut::Scan;
use std::alloc::Global;

impl<L: Run, C: Command> Locked<L, C> {
    // Memory for a place of each process, in a reply. Error: as for a call that is not entered.
    fn reply_room(&self) -> Result<Vec<u32>, Refusal>
        ensures empty { IfOk result (λ room. room.items ≡ []) }
        ensures room { IfOk result (λ room. length L.program ≤ vec_capacity room) }
        ensures refuses { IfErr result (IsUnready (length self.now.journal)) }
    {
        self.look_for_place()?;
        let places = self.program().processes() as usize;
        Ok(Vec::with_capacity(*self.log.journal.allocator(), places)?)
    }

    /// As `log_command`, and returns the answer.
    pub fn enter(
        &mut self,
        alloc: Global,
        seat: &mut Seat<L>,
        command: C,
        scan: Option<Scan>,
    ) -> Result<Reply, Refusal>
        requires fresh { C.IsFresh command }
        requires scan { IfSome scan (λ scan. (M : ModelState) → LeadsTo L.program (effective self.old.journal) M
            → IsScanFor (C.order command) L.program M scan) }
        ensures makes { Makes L.program self.old.journal seat.old.number (model.Give (C.order command)) (said_of result)
            self.new.journal }
        ensures notes { Notes L.program self.old seat.old (model.Give (C.order command)) (said_of result) self.new seat.new }
        ensures fits { FitsCall L.program (model.Give (C.order command)) (said_of result) }
    {
        let room = self.reply_room()?;
        self.log_command(alloc, seat, command, scan)?;
        outcome_of(&self.last_entry().said, room)
    }

    /// As `log_back`, and returns the answer.
    pub fn enter_back(&mut self, seat: &mut Seat<L>) -> Result<Reply, Refusal>
        ensures makes { Makes L.program self.old.journal seat.old.number model.Back (said_of result) self.new.journal }
        ensures notes { Notes L.program self.old seat.old model.Back (said_of result) self.new seat.new }
        ensures fits { FitsCall L.program model.Back (said_of result) }
    {
        let room = self.reply_room()?;
        self.log_back(seat)?;
        outcome_of(&self.last_entry().said, room)
    }

    /// As `log_query`, and returns the answer.
    pub fn enter_ask(
        &mut self,
        alloc: Global,
        seat: &mut Seat<L>,
        query: Query,
    ) -> Result<Answer, Refusal>
        ensures makes { Makes L.program self.old.journal seat.old.number (model.Ask (query_of query)) (reported_of result)
            self.new.journal }
        ensures notes { Notes L.program self.old seat.old (model.Ask (query_of query)) (reported_of result) self.new seat.new }
        ensures fits { FitsCall L.program (model.Ask (query_of query)) (reported_of result) }
    {
        self.look_for_place()?;
        let answered = self.session.ask(alloc, &query);
        let again = outcome_again(&answered)?;
        self.log_answer(alloc, seat, query, answered)?;
        again
    }
}
