//! The events that a picture shows, in the order in which it shows them.

ghost use Rattle.std.specs.Prelude.{◌≡◌, ◌-◌, length, map, drop, IfOk};
ghost use Rattle.dbg_base.specs.Trees as tree;
ghost use Rattle.dbg_base.specs.SystemStates.{history_of};
ghost use Rattle.causal_world.specs.Scenes.{IsWorldOf};
ghost use Rattle.ui_timeline.specs.EventOrders.{IsEventOrder};

use crate::cuts::{NamedCut, size};
use crate::messages::{Messages, Received, Sent};
use crate::order::event_order;
use crate::selection::Selection;
use causal_world::World;
use dbg_base::{Cut, Pid, Refusal};
use event_rows::Event;
use std::alloc::{AllocError, Global};
use ui_text::{Notes, Part};

/// An event that is shown: the n-th of its process, from 1.
#[derive(Clone, Copy, PartialEq, Eq)]
pub struct ShownEvent {
    pub pid: Pid,
    pub number: u32,
}

/// All events of a world, in an order in which they can have happened, for each process the positions of its events in it, and the messages.
pub struct Timeline {
    events: Vec<ShownEvent>,
    rows: Vec<Vec<u32>>,
    messages: Messages,
}

impl Drop for Timeline {
    fn drop(self) {
        let Self {
            events,
            rows,
            messages,
        } = self;
    }
}

// Whether one of two cuts of so many processes contains the other.
fn are_nested(one: &Cut, other: &Cut, processes: u32) -> bool {
    let mut is_below = true;
    let mut is_above = true;
    for p in 0..processes {
        is_below = is_below && one.count(Pid(p)) <= other.count(Pid(p));
        is_above = is_above && other.count(Pid(p)) <= one.count(Pid(p));
    }
    is_below || is_above
}

// The cuts that are nested with the first of these: a cut that is not cannot go across as well.
fn nested_cuts<'a>(
    alloc: Global,
    cuts: &'a [NamedCut],
    processes: u32,
) -> Result<Vec<&'a Cut>, AllocError> {
    let mut nested = Vec::new(alloc);
    if let [first, ..] = cuts {
        for named in cuts {
            if are_nested(&first.cut, &named.cut, processes) {
                nested.push(&named.cut)?;
            }
        }
    }
    Ok(nested)
}

// For each of so many processes, no positions.
fn no_rows(alloc: Global, processes: u32) -> Result<Vec<Vec<u32>>, AllocError> {
    let mut rows = Vec::new(alloc);
    for _ in 0..processes {
        rows.push(Vec::new(alloc))?;
    }
    Ok(rows)
}

// Notes the position of the next event of a process. Returns the number of the event.
fn note_row(rows: &mut Vec<Vec<u32>>, pid: Pid, row: u32) -> Result<u32, AllocError> {
    match rows.get_mut(pid.0 as usize) {
        Some(own) => {
            own.push(row)?;
            Ok(u32::try_from(own.len()).unwrap_or(u32::MAX))
        }
        None => Ok(0),
    }
}

// The events that these processes make, one after the other. Notes their positions.
fn numbered(
    alloc: Global,
    order: &[Pid],
    rows: &mut Vec<Vec<u32>>,
) -> Result<Vec<ShownEvent>, AllocError>
    ensures { IfOk result (λ events. map (λ shown. shown.pid.0) events.items ≡ map (λ pid. pid.0) order.now) }
{
    let mut events = Vec::new(alloc);
    for pid in order {
        // (a history has fewer events than a `u32` counts)
        let row = u32::try_from(events.len()).unwrap_or(u32::MAX);
        let number = note_row(rows, *pid, row)?;
        events.push(ShownEvent { pid: *pid, number })?;
    }
    Ok(events)
}

impl Timeline {
    /// The events of a world, in an order in which they can have happened, those of the first of the cuts first; and which of the cuts go
    /// across.
    pub fn of(alloc: Global, world: &World, cuts: &mut [NamedCut]) -> Result<Timeline, Refusal>
        ensures order { IfOk result (λ timeline. (P : tree.Program) → IsWorldOf P world.now
            → IsEventOrder P (history_of world.now.state) (map (λ shown. shown.pid.0) timeline.events.items)) }
    {
        let timeline = Timeline::ordered(alloc, world, cuts)?;
        let processes = world.tally().processes();
        for named in cuts {
            named.is_prefix = timeline.begins_with(&named.cut, processes);
        }
        Ok(timeline)
    }

    // The events of a world, those of the first of the cuts first.
    fn ordered(alloc: Global, world: &World, cuts: &[NamedCut]) -> Result<Timeline, Refusal>
        ensures order { IfOk result (λ timeline. (P : tree.Program) → IsWorldOf P world.now
            → IsEventOrder P (history_of world.now.state) (map (λ shown. shown.pid.0) timeline.events.items)) }
    {
        let processes = world.tally().processes();
        let nested = nested_cuts(alloc, cuts, processes)?;
        let order = event_order(alloc, world, nested.as_slice())?;
        let mut rows = no_rows(alloc, processes)?;
        let events = numbered(alloc, order.items(), &mut rows)?;
        let messages = Messages::of(alloc, world, processes, events.as_slice())?;
        Ok(Timeline {
            events,
            rows,
            messages,
        })
    }

    // Whether the events of a cut are listed before all others.
    fn begins_with(&self, cut: &Cut, processes: u32) -> bool {
        let first = self.events.get(..size(cut, processes)).unwrap_or(&[]);
        first
            .iter()
            .all(|shown| shown.number <= cut.count(shown.pid))
    }

    /// The events, in order.
    pub fn events(&self) -> &[ShownEvent]
        ensures { result.now ≡ self.now.events.items }
    {
        self.events.as_slice()
    }

    /// How many events are before the last ones, if at most so many are shown.
    pub fn left_out(&self, most: usize) -> usize
        ensures { result ≡ length self.now.events.items - most }
    {
        self.events.len().saturating_sub(most)
    }

    /// How many events are before the last ones, if at most so many of a selection are shown.
    pub fn left_out_of(&self, selection: &Selection, most: usize) -> usize {
        if selection.is_whole() {
            return self.left_out(most);
        }
        let mut skipped = selection.count(self.events.as_slice()).saturating_sub(most);
        let mut place = 0usize;
        let mut left = 0usize;
        for shown in &self.events {
            if skipped == 0 {
                break;
            }
            place = place.saturating_add(1);
            if selection.contains(shown.pid) {
                skipped = skipped.saturating_sub(1);
                left = place;
            }
        }
        left
    }

    /// The last events: all without so many of the first ones.
    pub fn last_events(&self, left_out: usize) -> &[ShownEvent]
        ensures { result.now ≡ drop left_out self.now.events.items }
    {
        self.events.as_slice().get(left_out..).unwrap_or(&[])
    }

    /// Whether the n-th event of a process is one of these last events.
    pub fn is_shown(&self, pid: Pid, number: u32, left_out: usize) -> bool {
        match self.row(pid, number) {
            Some(row) => row as usize >= left_out,
            None => false,
        }
    }

    /// The message that an event received, if it did.
    pub fn received_by(&self, world: &World, shown: ShownEvent) -> Option<Received> {
        self.messages.received_by(world, shown)
    }

    /// The message that an event sent, if it did.
    pub fn sent_by(&self, world: &World, shown: ShownEvent) -> Option<Sent> {
        self.messages.sent_by(world, shown)
    }

    /// The position of the n-th event of a process, from 0.
    pub fn row(&self, pid: Pid, number: u32) -> Option<u32> {
        let own = self.rows.get(pid.0 as usize)?;
        own.get(number.checked_sub(1)? as usize).copied()
    }
}

/// The event that is shown.
pub fn event_of(world: &World, shown: ShownEvent) -> Option<&Event> {
    world
        .rows()
        .event(shown.pid, (shown.number as usize).saturating_sub(1))
}

/// Appends how many events are left out to the last line.
pub fn put_left_out(notes: &mut Notes, count: usize) -> Result<(), AllocError> {
    let words = match count {
        1 => "{} earlier event is left out",
        _ => "{} earlier events are left out",
    };
    notes.add_with(words, &[Part::Count(count)])
}
