//! The shortest chains of messages that lead to an event.

ghost use Rattle.std.specs.Prelude.{IfOk};
ghost use Rattle.std.specs.List.{All};
ghost use Rattle.ui_causes.specs.CausalPasts.{IsOnTheWay};

use crate::messages::{Hop, is_on_the_way, received};
use crate::past::EventPlace;
use causal_world::World;
use dbg_base::Pid;
use std::alloc::{AllocError, Global};

// A place from which the event is reached: by this message, and from where that was received. The event itself has no message.
#[derive(Clone, Copy)]
struct Reach {
    from: EventPlace,
    hop: Option<Hop>,
    next: usize,
}

/// The chains of messages that lead to an event, from each process of which an event is before it.
#[derive(Drop)]
pub(crate) struct Chains {
    reaches: Vec<Reach>,
    // For each process the place that was found first, and the last one.
    first: Vec<Option<usize>>,
    last: Vec<Option<usize>>,
}

// The last message from a process that another one received, up to an event of it.
fn last_message(world: &World, receiver: EventPlace, source: Pid) -> Option<Hop> {
    for before in (0..receiver.number).rev() {
        let at = EventPlace {
            pid: receiver.pid,
            number: before.saturating_add(1),
        };
        match received(world, at) {
            Some(hop) if hop.sender.pid == source => return Some(hop),
            _ => {}
        }
    }
    None
}

impl Chains {
    /// Those that lead to this event, of a world of so many processes.
    pub(crate) fn to(
        alloc: Global,
        world: &World,
        processes: u32,
        event: EventPlace,
    ) -> Result<Chains, AllocError> {
        let mut chains = Chains {
            reaches: Vec::new(alloc),
            first: vec![in alloc; None; processes as usize]?,
            last: vec![in alloc; None; processes as usize]?,
        };
        chains.note(Reach {
            from: event,
            hop: None,
            next: 0,
        })?;
        let mut begin = 0usize;
        // A chain needs no process twice.
        for _ in 1..processes {
            let end = chains.reaches.len();
            chains.lengthen(world, processes, begin, end)?;
            begin = end;
        }
        Ok(chains)
    }

    // Notes a place from which the event is reached.
    fn note(&mut self, reach: Reach) -> Result<(), AllocError> {
        let at = self.reaches.len();
        let process = reach.from.pid.0 as usize;
        self.reaches.push(reach)?;
        if let Some(first) = self.first.get_mut(process) {
            *first = first.or(Some(at));
        }
        if let Some(last) = self.last.get_mut(process) {
            *last = Some(at);
        }
        Ok(())
    }

    // The last event of a process from which the event is reached, as far as is known.
    fn reached(&self, pid: Pid) -> u32 {
        let last = self.last.get(pid.0 as usize).copied().unwrap_or(None);
        match last.and_then(|at| self.reaches.get(at)) {
            Some(reach) => reach.from.number,
            None => 0,
        }
    }

    // Puts one message before the chains of these numbers, if that reaches later events of its sender than are reached.
    fn lengthen(
        &mut self,
        world: &World,
        processes: u32,
        begin: usize,
        end: usize,
    ) -> Result<(), AllocError> {
        for p in 0..processes {
            if let Some(reach) = self.longer(world, Pid(p), begin, end) {
                self.note(reach)?;
            }
        }
        Ok(())
    }

    // The chain from a process, of one message and one of these chains, that leaves the process last.
    fn longer(&self, world: &World, pid: Pid, begin: usize, end: usize) -> Option<Reach> {
        let mut best = None;
        let mut latest = self.reached(pid);
        for next in begin..end {
            let Some(reach) = self.reaches.get(next) else {
                break;
            };
            if reach.from.pid == pid {
                continue;
            }
            match last_message(world, reach.from, pid) {
                Some(hop) if hop.sender.number > latest => {
                    latest = hop.sender.number;
                    best = Some(Reach {
                        from: hop.sender,
                        hop: Some(hop),
                        next,
                    });
                }
                _ => {}
            }
        }
        best
    }

    /// The messages of a chain with the fewest messages from a process to this event, in order. There is none if no event of the process is
    /// before it, or if it is an event of the process itself.
    pub(crate) fn from(
        &self,
        alloc: Global,
        world: &World,
        event: EventPlace,
        pid: Pid,
    ) -> Result<Vec<Hop>, AllocError>
        ensures { IfOk result (λ hops. All (IsOnTheWay world.now event) hops.items) }
    {
        let mut hops = Vec::new(alloc);
        let mut at = self.first.get(pid.0 as usize).copied().unwrap_or(None);
        for _ in 0..self.reaches.len() {
            let Some(reach) = at.and_then(|at| self.reaches.get(at)) else {
                break;
            };
            let Some(hop) = reach.hop else {
                break;
            };
            if is_on_the_way(world, event, hop) {
                hops.push(hop)?;
            }
            at = Some(reach.next);
        }
        Ok(hops)
    }
}
