//! The events of all processes.

ghost use Rattle.std.specs.Prelude.{◌≡◌, ℕ, ◌+◌, ◌-◌, ◌<◌, ◌≤◌, ◌++◌, ◌∷◌, [], length, map, take, replicate, slice_get};
ghost use Rattle.std.specs.Prelude.{slice_set, slice_index_or, IfOk, OnOk, IsSome, IsTrue, ◌↔◌};
ghost use Rattle.std.specs.Option.{option_map, option_to_list};
ghost use Rattle.dbg_base.specs.Trees.{tree_of};
ghost use Rattle.dbg_base.specs.LocalStates.{no_state, start_among};
ghost use Rattle.proc_tree.specs.Programs.{program_of};
ghost use Rattle.event_rows.specs.Events.{after_events, past_of, advanced, retreated};
ghost use Rattle.event_rows.specs.Truths as model;
ghost use Rattle.dbg_base.specs.Predicates.{holds};

use crate::event::Event;
use crate::history::EventHistory;
use dbg_base::{Expr, Pid, Sequence};
use local_eval::{Env, guard};
use proc_tree::Program;
use std::alloc::{AllocError, Global};
use std::marker::Model;

/// For each process its start and its events, in order. Contracts see these, and the room of each process: how many more events fit without
/// allocation.
pub struct Rows {
    starts: Vec<Env>,
    histories: Vec<EventHistory>,
}

impl Drop for Rows {
    fn drop(self) {
        let Self { starts, histories } = self;
    }
}

impl Model for Rows {
    ghost use Rattle.std.specs.Prelude.{map};
    ghost use Rattle.event_rows.specs.EventValues.{RowsState};

    ghost Value = { RowsState };

    ghost view = { λ rows. record {
      starts = rows.starts.items;
      events = map (λ history. history.events) rows.histories.items;
      room = map (λ history. history.room) rows.histories.items;
    } };
}

// No events of each of so many processes.
fn empty_histories(alloc: Global, processes: u32) -> Result<Vec<EventHistory>, AllocError>
    ensures { IfOk result (λ histories. map (λ history. history.events) histories.items ≡ replicate processes []) }
{
    let mut histories = Vec::new(alloc);
    for _ in 0..processes {
        histories.push(EventHistory::new(alloc))?;
    }
    Ok(histories)
}

// Copies the events of all processes.
fn copy_histories(histories: &Vec<EventHistory>) -> Result<Vec<EventHistory>, AllocError>
    ensures { IfOk result (λ made. map (λ history. history.events) made.items ≡ map (λ history. history.events) histories.now.items) }
{
    let mut made = Vec::new(*histories.allocator());
    for history in histories {
        made.push(history.copy()?)?;
    }
    Ok(made)
}

// Whether the expression is true in this local state.
fn is_true(expr: &Expr, env: &Env) -> bool
    ensures { result ≡ holds (tree_of expr.now) env.now }
{
    matches!(guard(expr, env), Ok(true))
}

// Changes the local state into that after these events.
fn redo_all(env: &mut Env, events: &[Event])
    ensures { env.new ≡ after_events env.old events.now }
{
    for event in events {
        event.redo(env);
    }
}

// Whether the expression is true in this local state, and after each of these events.
fn truths_along(
    alloc: Global,
    env: &mut Env,
    events: &[Event],
    expr: &Expr,
) -> Result<Vec<bool>, AllocError>
    ensures { IfOk result (λ truths. truths.items ≡ model.truths_along (tree_of expr.now) env.old events.now) }
{
    let mut truths = Vec::new(alloc);
    truths.push(is_true(expr, env))?;
    for event in events {
        event.redo(env);
        truths.push(is_true(expr, env))?;
    }
    Ok(truths)
}

impl Rows {
    /// The start of each process, and no events. Error: out of memory.
    pub fn new(alloc: Global, program: &Program) -> Result<Rows, AllocError>
        ensures starts { IfOk result (λ rows. rows.starts ≡ map (start_among (length (program_of program.now))) (program_of program.now)) }
        ensures events { IfOk result (λ rows. rows.events ≡ replicate (length (program_of program.now)) []) }
    {
        Ok(Rows {
            starts: Env::starts(alloc, program)?,
            histories: empty_histories(alloc, program.processes())?,
        })
    }

    /// Copies the starts and events; the copy has its own room. Error: out of memory.
    pub fn copy(&self) -> Result<Rows, AllocError>
        ensures starts { IfOk result (λ rows. rows.starts ≡ self.now.starts) }
        ensures events { IfOk result (λ rows. rows.events ≡ self.now.events) }
    {
        Ok(Rows {
            starts: Env::copy_all(&self.starts)?,
            histories: copy_histories(&self.histories)?,
        })
    }

    /// Whether the process exists. Like all methods that only read, except `past` and `truths`, it does not allocate.
    pub fn has(&self, pid: Pid) -> bool
        ensures { IsTrue result ↔ (pid.0 < length self.now.events) }
    {
        (pid.0 as usize) < self.histories.len()
    }

    /// How many events the process has, 0 if it does not exist.
    pub fn len(&self, pid: Pid) -> usize
        ensures { result ≡ length (slice_index_or self.now.events pid.0 []) }
    {
        match self.histories.get(pid.0 as usize) {
            Some(history) => history.len(),
            None => 0,
        }
    }

    /// The n-th event of the process, from 0, or None if there is none.
    pub fn event(&self, pid: Pid, n: usize) -> Option<&Event>
        ensures { option_map (λ event. event.now) result ≡ slice_get (slice_index_or self.now.events pid.0 []) n }
    {
        match self.histories.get(pid.0 as usize) {
            Some(history) => history.event(n),
            None => None,
        }
    }

    /// The last event of the process, or None if there is none.
    pub fn last(&self, pid: Pid) -> Option<&Event>
        ensures { option_map (λ event. event.now) result
            ≡ slice_get (slice_index_or self.now.events pid.0 []) (length (slice_index_or self.now.events pid.0 []) - 1) }
    {
        match self.histories.get(pid.0 as usize) {
            Some(history) => history.last(),
            None => None,
        }
    }

    /// Makes room for so many more events of the process. It does nothing if the process does not exist. No event changes, and no room is
    /// lost, also on an error. Error: out of memory.
    #[tactic(auto, using(dbg_base::proofs::Places::one_place))]
    pub fn reserve(&mut self, pid: Pid, more: usize) -> Result<(), AllocError>
        ensures starts { self.new.starts ≡ self.old.starts }
        ensures events { self.new.events ≡ self.old.events }
        ensures grows { (a : ℕ) → slice_index_or self.old.room a 0 ≤ slice_index_or self.new.room a 0 }
        ensures ok { OnOk result (pid.0 < length self.old.events → more ≤ slice_index_or self.new.room pid.0 0) }
    {
        if pid.0 as usize >= self.histories.len() {
            return Ok(());
        }
        let history = &mut self.histories[pid.0 as usize];
        history.reserve(more)
    }

    /// Appends the event to those of the process, for which there must be room. It does not allocate.
    #[tactic(auto, using(dbg_base::proofs::Places::one_place))]
    pub fn push(&mut self, pid: Pid, event: Event)
        requires { 0 < slice_index_or self.old.room pid.0 0 }
        ensures starts { self.new.starts ≡ self.old.starts }
        ensures events { self.new.events ≡ slice_set self.old.events pid.0 (slice_index_or self.old.events pid.0 [] ++ event ∷ []) }
        ensures room { self.new.room ≡ slice_set self.old.room pid.0 (slice_index_or self.old.room pid.0 0 - 1) }
    {
        let history = &mut self.histories[pid.0 as usize];
        history.push(event);
    }

    /// Removes and returns the last event of the process. If there is none, it changes nothing. It does not allocate.
    #[tactic(auto, using(dbg_base::proofs::Places::one_place))]
    pub fn pop(&mut self, pid: Pid) -> Option<Event>
        ensures starts { self.new.starts ≡ self.old.starts }
        ensures last { slice_index_or self.old.events pid.0 [] ≡ slice_index_or self.new.events pid.0 [] ++ option_to_list result }
        ensures events { self.new.events ≡ slice_set self.old.events pid.0
            (take (length (slice_index_or self.old.events pid.0 []) - 1) (slice_index_or self.old.events pid.0 [])) }
        ensures some { IsSome result ↔ (0 < length (slice_index_or self.old.events pid.0 [])) }
        ensures grows { (a : ℕ) → slice_index_or self.old.room a 0 ≤ slice_index_or self.new.room a 0 }
    {
        if pid.0 as usize >= self.histories.len() {
            return None;
        }
        let history = &mut self.histories[pid.0 as usize];
        history.pop()
    }

    // Copies the start of the process, or a local state without variables if the process does not exist.
    fn start(&self, pid: Pid) -> Result<Env, AllocError>
        ensures { IfOk result (λ env. env ≡ slice_index_or self.now.starts pid.0 no_state) }
    {
        match self.starts.get(pid.0 as usize) {
            Some(start) => start.copy(),
            None => Ok(Env::none(*self.starts.allocator())),
        }
    }

    // The events of the process.
    fn events(&self, pid: Pid) -> &[Event]
        ensures { result.now ≡ slice_index_or self.now.events pid.0 [] }
    {
        match self.histories.get(pid.0 as usize) {
            Some(history) => history.events(),
            None => &[],
        }
    }

    /// The local state of the process after its first n events, or after all if there are fewer. For a process that does not exist it is a
    /// local state without variables. Error: out of memory.
    pub fn past(&self, pid: Pid, n: usize) -> Result<Env, AllocError>
        ensures { IfOk result (λ env. env
            ≡ past_of (slice_index_or self.now.starts pid.0 no_state) (slice_index_or self.now.events pid.0 []) n) }
    {
        let mut env = self.start(pid)?;
        let events = self.events(pid);
        redo_all(&mut env, &events[..n.min(events.len())]);
        Ok(env)
    }

    /// Changes the local state after n events of the process into that after one more. If there is no such event, it changes nothing. It
    /// does not allocate.
    pub fn advance(&self, pid: Pid, n: usize, env: &mut Env)
        ensures { env.new ≡ advanced (slice_get (slice_index_or self.now.events pid.0 []) n) env.old }
    {
        if let Some(event) = self.event(pid, n) {
            event.redo(env);
        }
    }

    /// Changes the local state after n + 1 events of the process into that after n. If there is no such event, it changes nothing. It does
    /// not allocate.
    pub fn retreat(&self, pid: Pid, n: usize, env: &mut Env)
        ensures { env.new ≡ retreated (slice_get (slice_index_or self.now.events pid.0 []) n) env.old }
    {
        if let Some(event) = self.event(pid, n) {
            event.undo(env);
        }
    }

    /// For each n from 0 to the number of the process's events, whether the expression is true after the first n of them. An expression
    /// whose evaluation faults is not true. A process that does not exist has no events, and a start without variables. Error: out of
    /// memory.
    pub fn truths(&self, alloc: Global, pid: Pid, expr: &Expr) -> Result<Sequence<bool>, AllocError>
        ensures { IfOk result (λ truths. truths ≡ model.truths_along (tree_of expr.now) (slice_index_or self.now.starts pid.0 no_state)
            (slice_index_or self.now.events pid.0 [])) }
    {
        let mut env = self.start(pid)?;
        let truths = truths_along(alloc, &mut env, self.events(pid), expr)?;
        Ok(Sequence::new(truths))
    }
}
