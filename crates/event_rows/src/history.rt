//! The events of one process.

ghost use Rattle.std.specs.Prelude.{◌≡◌, ◌+◌, ◌-◌, ◌<◌, ◌≤◌, ◌++◌, ◌∷◌, [], length, take, slice_get, IfOk, OnOk, IsSome, ◌↔◌};
ghost use Rattle.std.specs.Option.{option_map, option_to_list};

use crate::event::Event;
use std::alloc::{AllocError, Global};
use std::marker::Model;

/// The events of one process, in order.
#[derive(Drop)]
pub(crate) struct EventHistory {
    events: Vec<Event>,
}

impl Model for EventHistory {
    ghost use Rattle.std.specs.Prelude.{◌-◌};
    ghost use Rattle.std.specs.Vec.{vec_len, vec_capacity};
    ghost use Rattle.event_rows.specs.EventValues.{HistoryState};

    ghost Value = { HistoryState };

    ghost view = { λ history. record { events = history.events.items; room = vec_capacity history.events - vec_len history.events } };
}

// Copies the events.
fn copy_events(events: &Vec<Event>) -> Result<Vec<Event>, AllocError>
    ensures { IfOk result (λ made. made.items ≡ events.now.items) }
{
    let mut made = Vec::new(*events.allocator());
    for event in events {
        made.push(event.copy()?)?;
    }
    Ok(made)
}

impl EventHistory {
    /// No events. It does not allocate.
    pub(crate) fn new(alloc: Global) -> EventHistory
        ensures { result.events ≡ [] }
    {
        EventHistory {
            events: Vec::new(alloc),
        }
    }

    /// Copies the events.
    pub(crate) fn copy(&self) -> Result<EventHistory, AllocError>
        ensures { IfOk result (λ history. history.events ≡ self.now.events) }
    {
        Ok(EventHistory {
            events: copy_events(&self.events)?,
        })
    }

    /// How many events there are.
    pub(crate) fn len(&self) -> usize
        ensures { result ≡ length self.now.events }
    {
        self.events.len()
    }

    /// The events, in order.
    pub(crate) fn events(&self) -> &[Event]
        ensures { result.now ≡ self.now.events }
    {
        self.events.as_slice()
    }

    /// The n-th event, from 0, if there is one.
    pub(crate) fn event(&self, n: usize) -> Option<&Event>
        ensures { option_map (λ event. event.now) result ≡ slice_get self.now.events n }
    {
        self.events.get(n)
    }

    /// The last event, if there is one.
    pub(crate) fn last(&self) -> Option<&Event>
        ensures { option_map (λ event. event.now) result ≡ slice_get self.now.events (length self.now.events - 1) }
    {
        self.events.last()
    }

    /// Makes room for so many more events.
    pub(crate) fn reserve(&mut self, more: usize) -> Result<(), AllocError>
        ensures same { self.new.events ≡ self.old.events }
        ensures grows { self.old.room ≤ self.new.room }
        ensures ok { OnOk result (more ≤ self.new.room) }
    {
        self.events.reserve(more)
    }

    /// Appends the event. It does not allocate.
    pub(crate) fn push(&mut self, event: Event)
        requires { 0 < self.old.room }
        ensures events { self.new.events ≡ self.old.events ++ event ∷ [] }
        ensures room { self.new.room ≡ self.old.room - 1 }
    {
        self.events.push_reserved(event);
    }

    /// Removes and returns the last event, if there is one. It does not allocate.
    pub(crate) fn pop(&mut self) -> Option<Event>
        ensures last { self.old.events ≡ self.new.events ++ option_to_list result }
        ensures events { self.new.events ≡ take (length self.old.events - 1) self.old.events }
        ensures some { IsSome result ↔ (0 < length self.old.events) }
        ensures grows { self.old.room ≤ self.new.room }
    {
        self.events.pop()
    }
}
