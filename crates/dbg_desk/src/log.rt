//! The calls that were entered, with their count and the board that shows it.

ghost use Rattle.std.specs.Prelude.{◌≡◌, ◌↔◌, ◌+◌, ◌<◌, ◌≤◌, ◌++◌, ◌∷◌, [], length, OnOk, IfOk, IfErr, IsSome, IsTrue};
ghost use Rattle.std.specs.Vec.{vec_len, vec_capacity};
ghost use Rattle.dbg_base.specs.declared.limits.TheConstants.{BREAKPOINTS, CALLS};
ghost use Rattle.dbg_base.specs.declared.refusal.Refusal.TheVariants.{Memory};
ghost use Rattle.std.specs.Option.{option_map};
ghost use Rattle.dbg_base.specs.Calls.{Call};
ghost use Rattle.dbg_base.specs.Copies.{counts_in};
ghost use Rattle.proc_tree.specs.Programs.{program_of};
ghost use Rattle.dbg_command.specs.Tables.{said_of};
ghost use Rattle.dbg_records.specs.Small.{small_call_of, IsGiven};
ghost use Rattle.dbg_board.specs.Pairs.{Begins};
ghost use Rattle.dbg_board.specs.Boards.{listing};
ghost use Rattle.dbg_desk.specs.Desks.{IsLonger, IsOneMore};
ghost use Rattle.dbg_desk.specs.Reserved.{IsUnready, IsReady};

use crate::copies::said_to_command;
use crate::entry::{Entry, RecordedCall};
use crate::rooms::Reserved;
use crate::run::Run;
use dbg_base::limits::CALLS;
use dbg_base::{Refusal, Reply};
use dbg_board::{Publisher, SeatView};
use dbg_records::GivenCall;
use proc_tree::Program;
use std::sync::ledger::{Book, Share};

/// The journal, the ledger's book that counts its entries, and the publisher that shows each. All three advance together.
#[derive(Drop)]
pub(crate) struct CallLog<L: Run> {
    // The oldest first.
    pub(crate) journal: Vec<Entry>,
    pub(crate) book: Book<L>,
    pub(crate) publisher: Publisher,
    ghost counted: { book.total ≡ vec_len journal },
    ghost posted: { length publisher.pairs ≡ vec_len journal },
    ghost same_board: { publisher.board ≡ L.board },
    ghost few: { vec_len journal ≤ CALLS },
}

impl<L: Run> CallLog<L> {
    /// The log of a run in which no call was entered.
    pub(crate) fn new(journal: Vec<Entry>, book: Book<L>, publisher: Publisher) -> CallLog<L>
        requires empty { journal.items ≡ [] }
        requires counted { book.total ≡ 0 }
        requires posted { publisher ≡ listing L.board [] }
        ensures journal { result.journal ≡ journal }
        ensures publisher { result.publisher ≡ publisher }
    {
        CallLog {
            journal,
            book,
            publisher,
        }
    }

    /// Makes room for one more call, in the journal and in a seat's own record. Error: `JournalFull`, if the journal is full, and otherwise
    /// `Memory`, if an allocation fails.
    pub(crate) fn make_room(&mut self, own: &mut Vec<RecordedCall>) -> Result<(), Refusal>
        ensures journal { self.new.journal.items ≡ self.old.journal.items }
        ensures publisher { self.new.publisher ≡ self.old.publisher }
        ensures own { own.new.items ≡ own.old.items }
        ensures few { OnOk result (vec_len self.new.journal < CALLS) }
        ensures room { OnOk result (vec_len self.new.journal < vec_capacity self.new.journal) }
        ensures record_room { OnOk result (vec_len own.new < vec_capacity own.new) }
        ensures refuses { IfErr result (IsUnready (vec_len self.old.journal)) }
    {
        if self.journal.len() >= CALLS {
            return Err(Refusal::JournalFull);
        }
        self.reserve(own)
    }

    /// As `make_room`, if the journal is not full. Error: `Memory`.
    pub(crate) fn reserve(&mut self, own: &mut Vec<RecordedCall>) -> Result<(), Refusal>
        requires few { vec_len self.old.journal < CALLS }
        ensures journal { self.new.journal.items ≡ self.old.journal.items }
        ensures publisher { self.new.publisher ≡ self.old.publisher }
        ensures own { own.new.items ≡ own.old.items }
        ensures room { OnOk result (vec_len self.new.journal < vec_capacity self.new.journal) }
        ensures record_room { OnOk result (vec_len own.new < vec_capacity own.new) }
        ensures refuses { IfErr result (λ refusal. refusal ≡ Memory) }
    {
        self.journal.reserve(1)?;
        own.reserve(1)?;
        Ok(())
    }

    // Whether there is room for one more call already, in the journal and in a seat's own record.
    #[inline(always)]
    fn has_room(&self, own: &Vec<RecordedCall>) -> bool
        ensures { IsTrue result ↔ ((vec_len self.now.journal < CALLS) × (vec_len self.now.journal < vec_capacity self.now.journal)
            × (vec_len own.now < vec_capacity own.now)) }
    {
        let calls = self.journal.len();
        calls < CALLS && calls < self.journal.capacity() && own.len() < own.capacity()
    }

    // As `make_ready`, if there is not yet room for all.
    #[cold]
    #[inline(never)]
    fn prepare(
        &mut self,
        own: &mut Vec<RecordedCall>,
        rooms: &mut Reserved,
        program: &Program,
    ) -> Result<(), Refusal>
        ensures { IsReady (program_of program.now) self.old.journal self.new.journal self.old.publisher self.new.publisher own.old own.new
            rooms.new result }
    {
        self.make_room(own)?;
        rooms.make(program)
    }

    /// Makes room for one more call, as `make_room` does, and for the answer to a command. Error: as that of `make_room`. There is almost
    /// always room already, so this is tested in the caller, and a function is called only if there is none.
    #[inline(always)]
    pub(crate) fn make_ready(
        &mut self,
        own: &mut Vec<RecordedCall>,
        rooms: &mut Reserved,
        program: &Program,
    ) -> Result<(), Refusal>
        ensures { IsReady (program_of program.now) self.old.journal self.new.journal self.old.publisher self.new.publisher own.old own.new
            rooms.new result }
    {
        if self.has_room(own) && rooms.has_room(program) {
            return Ok(());
        }
        self.prepare(own, rooms, program)
    }

    /// Enters a command with its outcome, as `enter` does. The record has the outcome in the reserved memory. It is not inlined, so that
    /// the entry is put together in one place.
    #[inline(never)]
    pub(crate) fn enter_command(
        &mut self,
        rooms: &mut Reserved,
        own: &mut Vec<RecordedCall>,
        share: &mut Share<L>,
        view: &mut SeatView,
        number: u32,
        given: GivenCall,
        outcome: Result<Reply, Refusal>,
        halt: u32,
    )
        requires room { (vec_len self.old.journal < CALLS) × (vec_len self.old.journal < vec_capacity self.old.journal)
            × (vec_len own.old < vec_capacity own.old)
            × IfOk outcome (λ reply. counts_in reply.done ≤ vec_capacity rooms.old.places) × IsSome rooms.old.apart }
        requires part { 0 < share.old.parts }
        requires board { (view.old.board ≡ L.board) × (halt ≤ BREAKPOINTS) }
        requires given { (call : Call) × IsGiven call given.small (option_map (λ again. again.value) given.again) }
        ensures journal { IsLonger self.old.journal.items self.new.journal.items number (small_call_of given.small) (said_of outcome) }
        ensures own { IsOneMore own.old.items own.new.items (small_call_of given.small) (said_of outcome) }
        ensures counts { (share.new.parts ≡ share.old.parts) × (share.new.amount ≡ share.old.amount + 1)
            × (share.new.amount ≤ vec_len self.new.journal) }
        ensures pairs { self.new.publisher.pairs
            ≡ self.old.publisher.pairs ++ record { calls = vec_len self.new.journal; halt = halt } ∷ [] }
        ensures seen { (view.new ≡ self.new.publisher) × Begins view.old.pairs view.new.pairs }
    {
        let own_said = rooms.say(&outcome);
        let GivenCall { small, again } = given;
        let entry = Entry::new(number, small.in_full(again), said_to_command(outcome));
        let kept = RecordedCall::new(small, own_said);
        self.enter(own, share, view, entry, kept, halt);
    }

    /// Enters a call in the journal and in the record of the seat that made it. Shows the call and the breakpoint that halts the session,
    /// first on the board and then to the seat. It does not allocate.
    pub(crate) fn enter(
        &mut self,
        own: &mut Vec<RecordedCall>,
        share: &mut Share<L>,
        view: &mut SeatView,
        entry: Entry,
        kept: RecordedCall,
        halt: u32,
    )
        requires room { (vec_len self.old.journal < CALLS) × (vec_len self.old.journal < vec_capacity self.old.journal)
            × (vec_len own.old < vec_capacity own.old) }
        requires part { 0 < share.old.parts }
        requires board { view.old.board ≡ L.board }
        requires halt { halt ≤ BREAKPOINTS }
        ensures journal { self.new.journal.items ≡ self.old.journal.items ++ entry ∷ [] }
        ensures own { own.new.items ≡ own.old.items ++ kept ∷ [] }
        ensures counts { (share.new.parts ≡ share.old.parts) × (share.new.amount ≡ share.old.amount + 1)
            × (share.new.amount ≤ vec_len self.new.journal) }
        ensures pairs { self.new.publisher.pairs
            ≡ self.old.publisher.pairs ++ record { calls = vec_len self.new.journal; halt = halt } ∷ [] }
        ensures seen { (view.new ≡ self.new.publisher) × Begins view.old.pairs view.new.pairs }
    {
        self.journal.push_reserved(entry);
        own.push_reserved(kept);
        self.book.add(share, 1);
        self.book.audit(share);
        let calls = self.journal.len() as u64;
        self.publisher.publish(calls, halt as u64);
        self.publisher.tell(view);
    }
}
