//! Messages that are on their way at a cut.

use causal_world::World;
use dbg_base::{Cut, Pid};
use event_rows::{Event, Exchange};
use std::alloc::{AllocError, Global};
use ui_view::sending;

/// The messages from one process to another that were sent in a cut and not received in it: those after so many, up to so many.
#[derive(Clone, Copy)]
pub struct Crossing {
    pub source: Pid,
    pub target: Pid,
    pub received: u32,
    pub sent: u32,
}

/// The messages on their way at a cut from one process to another, if there are any.
pub fn find_crossing(world: &World, cut: &Cut, source: Pid, target: Pid) -> Option<Crossing> {
    let received = world.tally().got(target, source, cut.count(target));
    let sent = world.tally().sent(source, target, cut.count(source));
    if sent <= received {
        return None;
    }
    Some(Crossing {
        source,
        target,
        received,
        sent,
    })
}

/// The value of the message of this count from one process to another.
pub fn message(world: &World, source: Pid, target: Pid, count: u32) -> Option<i64> {
    let sender = sending(world, source, target, count).checked_sub(1)?;
    match world
        .rows()
        .event(source, sender as usize)
        .map(Event::exchange)
    {
        Some(Exchange::Sent { value, .. }) => Some(value),
        _ => None,
    }
}

/// All messages on their way at a cut, by channel.
pub(crate) fn crossings(
    alloc: Global,
    world: &World,
    cut: &Cut,
) -> Result<Vec<Crossing>, AllocError> {
    let processes = world.tally().processes();
    let mut found = Vec::new(alloc);
    for source in 0..processes {
        for target in 0..processes {
            if let Some(channel) = find_crossing(world, cut, Pid(source), Pid(target)) {
                found.push(channel)?;
            }
        }
    }
    Ok(found)
}
