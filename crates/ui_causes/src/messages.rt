//! The messages that led to an event.

ghost use Rattle.std.specs.Prelude.{◌≡◌, IfSome, IsTrue};
ghost use Rattle.ui_causes.specs.CausalPasts.{HappenedBefore, IsOnTheWay};

use crate::past::{EventPlace, is_before};
use causal_world::World;
use event_rows::{Event, Exchange};
use ui_view::sending;

/// A message: the event that sent it, the event that received it, and its value.
#[derive(Clone, Copy)]
pub(crate) struct Hop {
    pub(crate) sender: EventPlace,
    pub(crate) receiver: EventPlace,
    pub(crate) value: i64,
}

/// Whether a message was sent and received before an event, or by it.
pub(crate) fn is_on_the_way(world: &World, event: EventPlace, hop: Hop) -> bool
    ensures { IsTrue result → IsOnTheWay world.now event hop }
{
    is_before(world, hop.sender, event) && is_before(world, hop.receiver, event)
}

// The message that this event received, if it did.
fn message_of(world: &World, receiver: EventPlace) -> Option<Hop>
    ensures { IfSome result (λ hop. hop.receiver ≡ receiver) }
{
    let rows = world.rows();
    let event = rows.event(receiver.pid, (receiver.number as usize).saturating_sub(1));
    let Some(
        Exchange::Took {
            source,
            message,
            count,
        },
    ) = event.map(Event::exchange)
    else {
        return None;
    };
    let number = sending(world, source, receiver.pid, count);
    Some(Hop {
        sender: EventPlace {
            pid: source,
            number,
        },
        receiver,
        value: message,
    })
}

/// The message that an event received, if it did. Its sender happened before the event.
pub(crate) fn received(world: &World, receiver: EventPlace) -> Option<Hop>
    ensures { IfSome result (λ hop. (hop.receiver ≡ receiver) × HappenedBefore world.now hop.sender receiver) }
{
    match message_of(world, receiver) {
        Some(hop) if is_before(world, hop.sender, receiver) => Some(hop),
        _ => None,
    }
}
