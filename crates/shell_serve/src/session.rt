//! The answer of a session to the call of a seat.

ghost use Rattle.std.specs.Prelude.{◌≡◌, OnOk};
ghost use Rattle.dbg_base.specs.Calls.{Give, order_of, call_of};
ghost use Rattle.dbg_base.specs.Fits.{FitsCall};
ghost use Rattle.dbg_base.specs.Journals.{Makes, Enters};
ghost use Rattle.shell_parse.specs.Lines as lines;
ghost use Rattle.dbg_command.specs.Tables.{IsGivable};
ghost use Rattle.dbg_desk.specs.Desks.{said_noted, last_said};
ghost use Rattle.shell_serve.specs.Answering.{IsMaker};

use dbg_base::limits::CALLS;
use dbg_base::{Call, Plan, Refusal};
use dbg_command::{Command, Givable};
use dbg_desk::{Locked, Run, Seat};
use std::alloc::Global;

// Gives the command that is made of this plan.
fn give<L: Run, C: Command, M: Fn(Givable) -> Result<C, Refusal>>(
    locked: &mut Locked<L, C>,
    alloc: Global,
    make: &M,
    seat: &mut Seat<L>,
    plan: Plan,
) -> Result<(), Refusal>
    requires givable { IsGivable plan }
    requires makes { (M.IsAlwaysCallable make.now) × IsMaker (M.post make.now) C.IsFresh C.order }
    ensures makes { Makes L.program locked.old.journal seat.old.number (Give (order_of plan)) (said_noted result locked.new.journal)
        locked.new.journal }
    ensures number { seat.new.number ≡ seat.old.number }
    ensures fits { FitsCall L.program (Give (order_of plan)) (said_noted result locked.new.journal) }
    ensures enters { OnOk result (Enters L.program locked.old.journal seat.old.number (Give (order_of plan))
        (last_said locked.new.journal) locked.new.journal) }
{
    match make(Givable::new(plan)) {
        Ok(command) => locked.log_command(alloc, seat, command, None),
        // A full journal is reported also if memory ran out.
        Err(_) if locked.calls() >= CALLS => Err(Refusal::JournalFull),
        Err(refusal) => Err(refusal),
    }
}

/// Makes a call of a seat. The last entry of the journal has its answer then. Error: why the call was not entered, and changed nothing:
/// `JournalFull`, if the journal is full, and `Memory`, if an allocation fails.
pub fn answer<L: Run, C: Command, M: Fn(Givable) -> Result<C, Refusal>>(
    locked: &mut Locked<L, C>,
    alloc: Global,
    make: &M,
    seat: &mut Seat<L>,
    call: Call,
) -> Result<(), Refusal>
    requires givable { lines.IsGivable call }
    requires makes { (M.IsAlwaysCallable make.now) × IsMaker (M.post make.now) C.IsFresh C.order }
    ensures makes { Makes L.program locked.old.journal seat.old.number (call_of call) (said_noted result locked.new.journal)
        locked.new.journal }
    ensures number { seat.new.number ≡ seat.old.number }
    ensures fits { FitsCall L.program (call_of call) (said_noted result locked.new.journal) }
    ensures enters { OnOk result (Enters L.program locked.old.journal seat.old.number (call_of call)
        (last_said locked.new.journal) locked.new.journal) }
{
    match call {
        Call::Give(plan) => give(locked, alloc, make, seat, plan),
        Call::Back => locked.log_back(seat),
        Call::Ask(query) => locked.log_query(alloc, seat, query),
    }
}
