//! The value under a session's lock.

ghost use Rattle.std.specs.Prelude.{◌≡◌, ◌≤◌, ◌<◌, ◌-◌, [], length, replicate, slice_get, Some};
ghost use Rattle.std.specs.Prelude.{IfOk, IfErr, IfSome, OnOk, MatchOption};
ghost use Rattle.dbg_base.specs.declared.refusal.Refusal.TheVariants.{Memory};
ghost use Rattle.dbg_base.specs.declared.limits.TheConstants.{CALLS, SEATS};
ghost use Rattle.dbg_base.specs.Calls as model;
ghost use Rattle.dbg_base.specs.Calls.{query_of};
ghost use Rattle.dbg_base.specs.ModelStates.{ModelState};
ghost use Rattle.dbg_base.specs.Journals.{Makes, Enters, LeadsTo, IsLegal, effective};
ghost use Rattle.dbg_base.specs.Fits.{FitsCall};
ghost use Rattle.proc_tree.specs.Programs.{program_of};
ghost use Rattle.dbg_command.specs.Tables.{AnswersOrRefuses, said_of, reported_of, state_of};
ghost use Rattle.dbg_command.specs.Boxes.{IsScanFor};
ghost use Rattle.dbg_board.specs.Boards.{listing};
ghost use Rattle.std.specs.List.{AllByRecursion};
ghost use Rattle.dbg_desk.specs.Desks.{entry_of, ArePairs, Notes, new_seats, last_said, said_noted};
ghost use Rattle.dbg_desk.specs.Reserved.{IsUnready};
ghost use Rattle.dbg_desk.specs.Settling.{IsKeptIn, IsRunJournal, HasOther};

mod returning;

use crate::copies::{ran_out, said_to_command, said_to_query};
use crate::entry::{Entry, RecordedCall};
use crate::log::CallLog;
use crate::rooms::Reserved;
use crate::run::Run;
use crate::seat::Seat;
use crate::settling::{Closing, Mismatch, are_kept};
use dbg_base::limits::CALLS;
use dbg_base::{Answer, Call, Gate, Query, Refusal, Reply};
use dbg_board::{Publisher, SeatView};
use dbg_command::{Command, SessionView};
use dbg_records::{GivenCall, SmallCall, SmallSaid};
use dbg_session::Session;
use least_cut::Scan;
use proc_tree::Program;
use std::alloc::Global;
use std::marker::Model;
use std::sync::Wait;
use std::sync::ledger::{Blank, Share};
use std::thread::Threads;

/// A session, the journal of all calls that were entered, and the publisher of the board. The type guarantees that a single caller could
/// have made the journal, that the session is in the state to which the journal leads, and that the board showed each call. Contracts see
/// the journal, and what was published of it.
#[derive(Drop)]
pub struct Locked<L: Run, C: Command> {
    session: Session<C>,
    log: CallLog<L>,
    rooms: Reserved,
}

impl<L: Run, C: Command> Model for Locked<L, C> {
    ghost use Rattle.std.specs.Prelude.{map};
    ghost use Rattle.std.specs.Coded.{codes};
    ghost use Rattle.least_cut.specs.TreeCodes.{coded_tree};
    ghost use Rattle.dbg_board.specs.contracts.glance.Glance as glance_row;
    ghost use Rattle.dbg_desk.specs.Desks.{Standing, IsLocked, entry_of};

    ghost Value = { Standing };

    ghost coded = { Prim.hlevel (codes, coded_tree, glance_row.the_row.coded) };

    ghost view = { λ locked. record { journal = map entry_of locked.log.journal.items; pairs = locked.log.publisher.pairs } };

    ghost invariant = { λ locked. IsLocked L.program L.seats locked.session (map entry_of locked.log.journal.items)
        locked.log.publisher.pairs };
}

// A seat for each view, numbered from 1, each with a part of the ledger.
fn make_seats<L: Run>(
    alloc: Global,
    views: Vec<SeatView>,
    share: Share<L>,
) -> Result<Vec<Seat<L>>, Refusal>
    requires views { views.items ≡ replicate L.seats (listing L.board []) }
    requires parts { share.parts ≡ L.seats }
    requires amount { share.amount ≡ 0 }
    requires few { L.seats ≤ SEATS }
    ensures seats { IfOk result (λ seats. seats.items ≡ new_seats L.seats) }
    ensures refuses { IfErr result (λ refusal. refusal ≡ Memory) }
{
    let mut share = share;
    let mut seats = Vec::new(alloc);
    let mut number = 0;
    for view in views {
        number += 1;
        seats.push(Seat {
            number,
            own: Vec::new(alloc),
            share: share.split_off(1, 0),
            view,
        })?;
    }
    Ok(seats)
}

impl<L: Run, C: Command> Locked<L, C> {
    /// The session of this program with an empty journal, and a seat for each view of the board, numbered from 1. Error: `Memory`, if an
    /// allocation fails.
    pub fn new(
        alloc: Global,
        blank: Blank,
        publisher: Publisher,
        views: Vec<SeatView>,
        program: Program,
    ) -> Result<(Locked<L, C>, Vec<Seat<L>>), Refusal>
        requires ledger { (blank.name ≡ L.name) × (blank.parts ≡ L.parts) × (blank.parts ≡ L.seats) }
        requires board { (publisher ≡ listing L.board []) × (views.items ≡ replicate L.seats (listing L.board [])) }
        requires few { L.seats ≤ SEATS }
        requires program { program_of program ≡ L.program }
        ensures journal { IfOk result (λ made. made.0.journal ≡ []) }
        ensures pairs { IfOk result (λ made. made.0.pairs ≡ []) }
        ensures seats { IfOk result (λ made. made.1.items ≡ new_seats L.seats) }
        ensures refuses { IfErr result (λ refusal. refusal ≡ Memory) }
    {
        let session = Session::new(alloc, program)?;
        let (book, share) = blank.open::<L>();
        let seats = make_seats::<L>(alloc, views, share)?;
        let log = CallLog::new(Vec::new(alloc), book, publisher);
        let rooms = Reserved::new(alloc);
        Ok((
            Locked {
                session,
                log,
                rooms,
            },
            seats,
        ))
    }

    /// The program. It does not allocate.
    pub fn program(&self) -> &Program
        ensures { program_of result.now ≡ L.program }
    {
        self.session.program()
    }

    /// The session, in the state to which the entered calls lead. It does not allocate.
    pub fn view(&self) -> SessionView<'_>
        ensures program { program_of result.program.now ≡ L.program }
        ensures leads_to { LeadsTo L.program (effective self.now.journal)
            (state_of (record { world = result.world.now; book = result.book.now })) }
    {
        self.session.table().view(self.session.program())
    }

    /// How many calls were entered. They are a legal journal, and the board showed each of them. It does not allocate.
    pub fn calls(&self) -> usize
        ensures calls { result ≡ length self.now.journal }
        ensures legal { IsLegal L.program self.now.journal }
        ensures shown { ArePairs L.program [] self.now.journal self.now.pairs }
    {
        self.log.journal.len()
    }

    /// The entered call at this position, from 0, or None if there are fewer calls. It does not allocate.
    pub fn entry(&self, place: usize) -> Option<&Entry>
        ensures { MatchOption result (length self.now.journal ≤ place)
            (λ found. slice_get self.now.journal place ≡ Some (entry_of found.now)) }
    {
        self.log.journal.get(place)
    }

    /// The last call that was entered. It does not allocate.
    pub fn last_entry(&self) -> &Entry
        requires { 0 < length self.now.journal }
        ensures { slice_get self.now.journal (length self.now.journal - 1) ≡ Some (entry_of result.now) }
    {
        &self.log.journal[self.log.journal.len() - 1]
    }

    // Whether one more call may be entered. Error: `JournalFull`.
    fn look_for_place(&self) -> Result<(), Refusal>
        ensures place { OnOk result (length self.now.journal < CALLS) }
        ensures refuses { IfErr result (IsUnready (length self.now.journal)) }
    {
        if self.calls() >= CALLS {
            return Err(Refusal::JournalFull);
        }
        Ok(())
    }

    /// Gives a command for a seat, and enters the call with its answer, in the last entry then. The command may be given the scan of its
    /// conjuncts in the present state. Error: `JournalFull`, if the journal is full, and `Memory`, if an allocation fails. Then the call is
    /// not entered, and nothing changes.
    pub fn log_command(
        &mut self,
        alloc: Global,
        seat: &mut Seat<L>,
        command: C,
        scan: Option<Scan>,
    ) -> Result<(), Refusal>
        requires fresh { C.IsFresh command }
        requires scan { IfSome scan (λ scan. (M : ModelState) → LeadsTo L.program (effective self.old.journal) M
            → IsScanFor (C.order command) L.program M scan) }
        ensures makes { Makes L.program self.old.journal seat.old.number (model.Give (C.order command))
            (said_noted result self.new.journal) self.new.journal }
        ensures notes { Notes L.program self.old seat.old (model.Give (C.order command)) (said_noted result self.new.journal) self.new
            seat.new }
        ensures fits { FitsCall L.program (model.Give (C.order command)) (said_noted result self.new.journal) }
        ensures enters { OnOk result (Enters L.program self.old.journal seat.old.number (model.Give (C.order command))
            (last_said self.new.journal) self.new.journal) }
        ensures left_out { IfErr result (IsUnready (length self.old.journal)) }
    {
        let Locked {
            session,
            log,
            rooms,
        } = self;
        let Seat {
            number,
            own,
            share,
            view,
        } = seat;
        log.make_ready(own, rooms, session.program())?;
        let given = GivenCall::new(alloc, command.plan())?;
        let outcome = session.perform(alloc, *number, command, scan);
        if ran_out(&outcome) {
            return Err(Refusal::Memory);
        }
        let halt = session.halt_at();
        log.enter_command(rooms, own, share, view, *number, given, outcome, halt);
        Ok(())
    }

    /// Takes back, for a seat, the last command that counts, and enters the call with its answer, in the last entry then. Error:
    /// `JournalFull`, if the journal is full, and `Memory`, if an allocation fails. Then the call is not entered, and nothing changes.
    pub fn log_back(&mut self, seat: &mut Seat<L>) -> Result<(), Refusal>
        ensures makes { Makes L.program self.old.journal seat.old.number model.Back (said_noted result self.new.journal) self.new.journal }
        ensures notes { Notes L.program self.old seat.old model.Back (said_noted result self.new.journal) self.new seat.new }
        ensures fits { FitsCall L.program model.Back (said_noted result self.new.journal) }
        ensures enters { OnOk result (Enters L.program self.old.journal seat.old.number model.Back
            (last_said self.new.journal) self.new.journal) }
        ensures left_out { IfErr result (IsUnready (length self.old.journal)) }
    {
        let Locked {
            session,
            log,
            rooms,
        } = self;
        let Seat {
            number,
            own,
            share,
            view,
        } = seat;
        log.make_ready(own, rooms, session.program())?;
        let taken = session.back(*number);
        if ran_out(&taken) {
            return Err(Refusal::Memory);
        }
        let kept = RecordedCall::new(SmallCall::Back, rooms.say(&taken));
        let entry = Entry::new(*number, Call::Back, said_to_command(taken));
        log.enter(own, share, view, entry, kept, session.halt_at());
        Ok(())
    }

    // Enters the call of a seat that has this answer to a query. The journal must not be full.
    fn log_answer(
        &mut self,
        alloc: Global,
        seat: &mut Seat<L>,
        query: Query,
        answered: Result<Answer, Refusal>,
    ) -> Result<(), Refusal>
        requires place { length self.old.journal < CALLS }
        requires answers { (M : ModelState) → LeadsTo L.program (effective self.old.journal) M
            → AnswersOrRefuses L.program M (query_of query) answered }
        requires fits { FitsCall L.program (model.Ask (query_of query)) (reported_of answered) }
        ensures makes { Makes L.program self.old.journal seat.old.number (model.Ask (query_of query))
            (said_noted result self.new.journal) self.new.journal }
        ensures notes { Notes L.program self.old seat.old (model.Ask (query_of query)) (said_noted result self.new.journal) self.new
            seat.new }
        ensures fits { FitsCall L.program (model.Ask (query_of query)) (said_noted result self.new.journal) }
        ensures enters { OnOk result (Enters L.program self.old.journal seat.old.number (model.Ask (query_of query))
            (last_said self.new.journal) self.new.journal) }
        ensures left_out { IfErr result (IsUnready (length self.old.journal)) }
        ensures says { OnOk result (last_said self.new.journal ≡ reported_of answered) }
    {
        let Locked { session, log, .. } = self;
        let Seat {
            number,
            own,
            share,
            view,
        } = seat;
        log.reserve(own)?;
        let said = said_to_query(answered)?;
        let own_call = SmallCall::ask(alloc, &query)?;
        let own_said = SmallSaid::new(alloc, &said)?;
        let entry = Entry::new(*number, Call::Ask(query), said);
        let kept = RecordedCall::new(own_call, own_said);
        log.enter(own, share, view, entry, kept, session.halt_at());
        Ok(())
    }

    /// Answers a query of a seat, and enters the call with its answer, in the last entry then. Error: `JournalFull`, if the journal is full,
    /// and `Memory`, if an allocation fails. Then the call is not entered, and nothing changes.
    pub fn log_query(
        &mut self,
        alloc: Global,
        seat: &mut Seat<L>,
        query: Query,
    ) -> Result<(), Refusal>
        ensures makes { Makes L.program self.old.journal seat.old.number (model.Ask (query_of query))
            (said_noted result self.new.journal) self.new.journal }
        ensures notes { Notes L.program self.old seat.old (model.Ask (query_of query)) (said_noted result self.new.journal) self.new
            seat.new }
        ensures fits { FitsCall L.program (model.Ask (query_of query)) (said_noted result self.new.journal) }
        ensures enters { OnOk result (Enters L.program self.old.journal seat.old.number (model.Ask (query_of query))
            (last_said self.new.journal) self.new.journal) }
        ensures left_out { IfErr result (IsUnready (length self.old.journal)) }
    {
        self.look_for_place()?;
        let answered = self.session.ask(alloc, &query);
        self.log_answer(alloc, seat, query, answered)
    }

    // The scan of the command's conjuncts in the present state, made by several threads.
    fn scan<R: Threads + Wait + Sync, G: Gate>(
        &self,
        rt: &R,
        alloc: Global,
        command: &C,
        gate: &G,
    ) -> Result<Option<Scan>, Refusal>
        ensures scan { IfOk result (λ found. IfSome found (λ scan. (M : ModelState) → LeadsTo L.program (effective self.now.journal) M
            → IsScanFor (C.order command.now) L.program M scan)) }
        ensures refuses { IfErr result (λ refusal. refusal ≡ Memory) }
    {
        self.session.scan(rt, alloc, command.plan(), gate)
    }

    /// Gives a command for a seat, as `enter` does. Several threads, which ask the gate, scan the conjuncts of a breakpoint, unless the journal
    /// is full.
    pub(crate) fn call<R: Threads + Wait + Sync, G: Gate>(
        &mut self,
        rt: &R,
        alloc: Global,
        seat: &mut Seat<L>,
        command: C,
        gate: &G,
    ) -> Result<Reply, Refusal>
        requires fresh { C.IsFresh command }
        ensures makes { Makes L.program self.old.journal seat.old.number (model.Give (C.order command)) (said_of result)
            self.new.journal }
        ensures notes { Notes L.program self.old seat.old (model.Give (C.order command)) (said_of result) self.new seat.new }
    {
        self.look_for_place()?;
        let scan = self.scan(rt, alloc, &command, gate)?;
        self.enter(alloc, seat, command, scan)
    }

    /// Checks that each of these seats has recorded exactly its calls in the journal, in order. It does not allocate.
    pub fn settle(&self, seats: &[Seat<L>]) -> Result<Closing, Mismatch>
        ensures run { IsRunJournal L.program L.seats self.now.journal }
        ensures calls { IfOk result (λ closing. closing.calls ≡ length self.now.journal) }
        ensures kept { OnOk result (AllByRecursion (IsKeptIn self.now.journal) seats.now) }
        ensures other { IfErr result (λ mismatch. HasOther self.now.journal seats.now mismatch.seat) }
    {
        are_kept(&self.log.journal, seats)?;
        Ok(Closing {
            calls: self.log.journal.len(),
        })
    }
}
