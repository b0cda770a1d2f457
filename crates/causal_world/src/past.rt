//! What is kept of the events of each process.

ghost use Rattle.std.specs.Prelude.{◌≡◌, ◌≢◌, ℕ, ◌-◌, ◌<◌, ◌≤◌, ◌++◌, [], length, replicate, map, IfOk, OnOk, IsSome, ◌↔◌, Some};
ghost use Rattle.std.specs.Prelude.{slice_get, slice_index_or};
ghost use Rattle.std.specs.Option.{option_map, option_to_list};
ghost use Rattle.dbg_base.specs.declared.limits.TheConstants.{EVENTS};
ghost use Rattle.dbg_base.specs.LocalStates.{start_among};
ghost use Rattle.proc_tree.specs.Programs.{program_of};
ghost use Rattle.causal_world.specs.Scenes.{with_event, without_event};
ghost use Rattle.causal_world.specs.Pasts.{kind_done, with_kind, without_kind, without_row, row_at};
ghost use Rattle.causal_world.specs.Pasts.{IsWhole, AreClocksOf, IsSamePast, HasRoomFor, IsCause};
ghost use Rattle.causal_world.specs.Room.{IsAppended};

use clock_rows::Clocks;
use cut_core::{Kind, Tally};
use dbg_base::Pid;
use event_rows::{Event, Exchange, Rows};
use proc_tree::Program;
use std::alloc::{AllocError, Global};
use std::marker::Model;

/// The events of each process, with what they did to messages, the clock after each, and the start of the process.
#[derive(Drop)]
pub(crate) struct Past {
    rows: Rows,
    tally: Tally,
    clocks: Clocks,
}

impl Model for Past {
    ghost use Rattle.causal_world.specs.Pasts.{PastState, IsPast};

    ghost Value = { PastState };

    ghost view = { λ past. record {
      starts = past.rows.starts;
      events = past.rows.events;
      kinds = past.tally.kinds;
      clocks = past.clocks.rows;
      event_room = past.rows.room;
      kind_room = past.tally.room;
      clock_room = past.clocks.room;
    } };

    ghost invariant = { λ past. IsPast past.rows.events past.tally.kinds past.clocks.rows };
}

/// What the exchange does to messages.
pub(crate) fn kind_of(exchange: Exchange) -> Kind
    ensures { result ≡ kind_done exchange }
{
    match exchange {
        Exchange::Nothing => Kind::Local,
        Exchange::Sent { target, .. } => Kind::Sent(target),
        Exchange::Took { source, .. } => Kind::Got(source),
    }
}

// The event whose clock the next event of the process joins with its own, if the next event is of this kind. For a receive from another
// process it is the event that sent the message. Otherwise it is the last event of the process. Returns the event's process, and its
// number from 1, or 0 if there is none.
fn cause(tally: &Tally, pid: Pid, kind: Kind) -> (Pid, u32)
    requires here { pid.0 < length tally.now.kinds }
    requires few { length (slice_index_or tally.now.kinds pid.0 []) < EVENTS }
    requires whole { IsWhole (with_kind tally.now.kinds pid.0 kind) }
    ensures { IsCause tally.now.kinds pid.0 kind result.0.0 result.1 }
{
    match kind {
        Kind::Got(source) if source.0 != pid.0 => {
            let count = tally.got(pid, source, tally.len(pid));
            (source, tally.send_event(source, pid, count + 1))
        }
        _ => (pid, tally.len(pid)),
    }
}

impl Past {
    /// The start of each process, and no events. Error: out of memory.
    pub(crate) fn new(alloc: Global, program: &Program) -> Result<Past, AllocError>
        ensures starts { IfOk result (λ past. past.starts ≡ map (start_among (length (program_of program.now))) (program_of program.now)) }
        ensures events { IfOk result (λ past. past.events ≡ replicate (length (program_of program.now)) []) }
        ensures kinds { IfOk result (λ past. past.kinds ≡ replicate (length (program_of program.now)) []) }
        ensures clocks { IfOk result (λ past. AreClocksOf past.kinds past.clocks) }
    {
        let processes = program.processes();
        Ok(Past {
            rows: Rows::new(alloc, program)?,
            tally: Tally::new(alloc, processes)?,
            clocks: Clocks::new(alloc, processes)?,
        })
    }

    /// Copies the events; the copy has its own room. Error: out of memory.
    pub(crate) fn copy(&self) -> Result<Past, AllocError>
        ensures { IfOk result (λ past. IsSamePast self.now past) }
    {
        Ok(Past {
            rows: self.rows.copy()?,
            tally: self.tally.copy()?,
            clocks: self.clocks.copy()?,
        })
    }

    /// The starts of the processes and their events. Like all methods that only read, it does not allocate.
    pub(crate) fn rows(&self) -> &Rows
        ensures starts { result.now.starts ≡ self.now.starts }
        ensures events { result.now.events ≡ self.now.events }
    {
        &self.rows
    }

    /// What the events did to messages.
    pub(crate) fn tally(&self) -> &Tally
        ensures { result.now.kinds ≡ self.now.kinds }
    {
        &self.tally
    }

    /// The clock of an existing process after its n-th event, which it must have.
    pub(crate) fn clock(&self, pid: Pid, n: u32) -> &[u32]
        requires here { pid.0 < length self.now.kinds }
        requires event { n ≤ length (slice_index_or self.now.kinds pid.0 []) }
        ensures row { result.now ≡ row_at self.now.clocks pid.0 n }
        ensures len { length result.now ≡ length self.now.kinds }
    {
        self.clocks.row(pid, n)
    }

    /// The last event of the process, or None if there is none.
    pub(crate) fn last(&self, pid: Pid) -> Option<&Event>
        ensures { option_map (λ event. event.now) result
            ≡ slice_get (slice_index_or self.now.events pid.0 []) (length (slice_index_or self.now.events pid.0 []) - 1) }
    {
        self.rows.last(pid)
    }

    /// Makes room for so many more events of the process. No room is lost, and contracts see no change, also on an error. Error: out of
    /// memory.
    pub(crate) fn reserve(&mut self, pid: Pid, more: usize) -> Result<(), AllocError>
        ensures same { IsSamePast self.old self.new }
        ensures grows { (q n : ℕ) → HasRoomFor self.old q n → HasRoomFor self.new q n }
        ensures ok { OnOk result (pid.0 < length self.old.kinds → HasRoomFor self.new pid.0 more) }
    {
        self.rows.reserve(pid, more)?;
        self.tally.reserve(pid, more)?;
        self.clocks.reserve(pid, more)
    }

    /// Appends the event, which is of this kind, to those of the process. There must be room, and the cause of the event must be among the
    /// others. It does not allocate.
    pub(crate) fn push(&mut self, pid: Pid, kind: Kind, event: Event)
        requires here { pid.0 < length self.old.kinds }
        requires room { HasRoomFor self.old pid.0 1 }
        requires few { length (slice_index_or self.old.kinds pid.0 []) < EVENTS }
        requires kind { kind ≡ kind_done event.exchange }
        requires whole { IsWhole (with_kind self.old.kinds pid.0 (kind_done event.exchange)) }
        ensures { IsAppended self.old pid.0 event self.new }
    {
        self.rows.push(pid, event);
        let (source, n) = cause(&self.tally, pid, kind);
        self.clocks.push_joined(pid, source, n);
        self.tally.note(pid, kind);
    }

    /// Removes and returns the last event of the process. No other event may depend on it. If there is none, nothing changes. It does not
    /// allocate.
    pub(crate) fn pop(&mut self, pid: Pid) -> Option<Event>
        requires whole { IsWhole (without_kind self.old.kinds pid.0) }
        ensures last { slice_index_or self.old.events pid.0 [] ≡ slice_index_or self.new.events pid.0 [] ++ option_to_list result }
        ensures some { IsSome result ↔ (0 < length (slice_index_or self.old.events pid.0 [])) }
        ensures starts { self.new.starts ≡ self.old.starts }
        ensures events { self.new.events ≡ without_event self.old.events pid.0 }
        ensures kinds { self.new.kinds ≡ without_kind self.old.kinds pid.0 }
        ensures clocks { IsSome result → self.new.clocks ≡ without_row self.old.clocks pid.0 }
    {
        if self.rows.len(pid) == 0 {
            return None;
        }
        self.tally.unnote(pid);
        self.clocks.pop(pid);
        self.rows.pop(pid)
    }
}
