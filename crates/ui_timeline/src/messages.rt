//! The messages of a session, by the events that sent them.

use crate::listing::{ShownEvent, event_of};
use causal_world::World;
use dbg_base::Pid;
use event_rows::Exchange;
use std::alloc::{AllocError, Global};

/// The message that an event sent or received, if any.
pub fn exchange_of(world: &World, shown: ShownEvent) -> Exchange {
    match event_of(world, shown) {
        Some(event) => event.exchange(),
        None => Exchange::Nothing,
    }
}

/// A message that an event received: who sent it, its value, and the number, from 1, of the event that sent it.
#[derive(Clone, Copy)]
pub struct Received {
    pub source: Pid,
    pub value: i64,
    pub sender: u32,
}

/// A message that an event sent: to whom, its value, and whether it is on its way.
#[derive(Clone, Copy)]
pub struct Sent {
    pub target: Pid,
    pub value: i64,
    pub is_on_its_way: bool,
}

// The messages from one process to another: the numbers of the events that sent them, and how many were received.
#[derive(Drop)]
struct MessageLine {
    senders: Vec<u32>,
    received: u32,
}

/// The messages between each two processes.
#[derive(Drop)]
pub(crate) struct Messages {
    processes: u32,
    lines: Vec<MessageLine>,
}

impl Messages {
    /// The messages that these events of so many processes sent and received, in order.
    pub(crate) fn of(
        alloc: Global,
        world: &World,
        processes: u32,
        events: &[ShownEvent],
    ) -> Result<Messages, AllocError> {
        let mut messages = Messages::new(alloc, processes)?;
        for shown in events {
            messages.note(world, *shown)?;
        }
        Ok(messages)
    }

    // No messages between so many processes.
    fn new(alloc: Global, processes: u32) -> Result<Messages, AllocError> {
        let mut lines = Vec::new(alloc);
        for _ in 0..processes.saturating_mul(processes) {
            lines.push(MessageLine {
                senders: Vec::new(alloc),
                received: 0,
            })?;
        }
        Ok(Messages { processes, lines })
    }

    // The place of the messages from one process to another.
    fn place(&self, source: Pid, target: Pid) -> usize {
        source
            .0
            .saturating_mul(self.processes)
            .saturating_add(target.0) as usize
    }

    // Notes the message of an event. A message is noted when it is sent before it is when it is received.
    fn note(&mut self, world: &World, shown: ShownEvent) -> Result<(), AllocError> {
        match exchange_of(world, shown) {
            Exchange::Nothing => Ok(()),
            Exchange::Sent { target, .. } => {
                let place = self.place(shown.pid, target);
                if let Some(line) = self.lines.get_mut(place) {
                    line.senders.push(shown.number)?;
                }
                Ok(())
            }
            Exchange::Took { source, .. } => {
                let place = self.place(source, shown.pid);
                if let Some(line) = self.lines.get_mut(place) {
                    line.received = line.received.saturating_add(1);
                }
                Ok(())
            }
        }
    }

    /// The message that an event received, if it did.
    pub(crate) fn received_by(&self, world: &World, shown: ShownEvent) -> Option<Received> {
        let Exchange::Took {
            source,
            message,
            count,
        } = exchange_of(world, shown)
        else {
            return None;
        };
        let line = self.lines.get(self.place(source, shown.pid))?;
        let sender = line.senders.get(count.checked_sub(1)? as usize)?;
        Some(Received {
            source,
            value: message,
            sender: *sender,
        })
    }

    /// The message that an event sent, if it did.
    pub(crate) fn sent_by(&self, world: &World, shown: ShownEvent) -> Option<Sent> {
        let Exchange::Sent {
            target,
            value,
            count,
        } = exchange_of(world, shown)
        else {
            return None;
        };
        let line = self.lines.get(self.place(shown.pid, target))?;
        Some(Sent {
            target,
            value,
            is_on_its_way: count > line.received,
        })
    }
}
