//! The messages of a drawing, as arrows.

use crate::labels::EventWords;
use crate::layout::{FALL, Layout};
use crate::shapes::{Point, Stroke};
use crate::sheet::{Scene, SvgSheet};
use crate::svg::{end_text, put_ends, say_text};
use std::alloc::AllocError;
use ui_text::{Notes, Part, as_markup};
use ui_timeline::{ShownEvent, bytes_of};

// From the middle of an event to its arrow.
const ASIDE: i64 = 8;

// How much further below the arrows of some messages on their way end, so that those of several senders do not end at the same point.
const SPREAD: i64 = 6;

/// The arrow of a message, and whether the message is on its way.
#[derive(Clone, Copy)]
pub(crate) struct Arrow {
    pub(crate) is_waiting: bool,
    pub(crate) stroke: Stroke,
}

// A point moved toward another one, to the left or to the right.
fn toward(point: Point, other: Point, distance: i64) -> Point {
    let by = if other.x > point.x {
        distance
    } else {
        0i64.saturating_sub(distance)
    };
    Point {
        x: point.x.saturating_add(by),
        y: point.y,
    }
}

// The arrow of a message that an event received.
fn received_arrow(scene: Scene<'_>, layout: &Layout, shown: ShownEvent) -> Option<Arrow> {
    let received = scene.received(shown)?;
    let from = layout.event(scene, received.source, received.sender);
    let to = layout.event(scene, shown.pid, shown.number);
    Some(Arrow {
        is_waiting: false,
        stroke: Stroke {
            from: toward(from, to, ASIDE),
            to: toward(to, from, ASIDE),
        },
    })
}

// The arrow of a message that an event sent and that is on its way. It ends just before the line of its recipient.
fn waiting_arrow(scene: Scene<'_>, layout: &Layout, shown: ShownEvent) -> Option<Arrow> {
    let sent = scene.waiting(shown)?;
    let from = layout.event(scene, shown.pid, shown.number);
    let fall = i64::from(shown.pid.0 % 3).saturating_mul(SPREAD);
    let to = Point {
        x: layout.line(sent.target),
        y: from.y.saturating_add(FALL).saturating_add(fall),
    };
    Some(Arrow {
        is_waiting: true,
        stroke: Stroke {
            from: toward(from, to, ASIDE),
            to: toward(to, from, 3),
        },
    })
}

/// The arrow of the message that an event received, or that it sent and that is on its way.
pub(crate) fn arrow_of(scene: Scene<'_>, layout: &Layout, shown: ShownEvent) -> Option<Arrow> {
    match received_arrow(scene, layout, shown) {
        Some(arrow) => Some(arrow),
        None => waiting_arrow(scene, layout, shown),
    }
}

impl SvgSheet<'_> {
    // What the message is that an event received, if it did.
    fn put_received(&self, title: &mut Notes, shown: ShownEvent) -> Result<(), AllocError> {
        let world = self.scene.view.session.world;
        let Some(received) = self.scene.timeline.received_by(world, shown) else {
            return Ok(());
        };
        let scope = self.scene.scope(shown.pid);
        title.add_with(
            "{} from event {} of {} to event {} of {}",
            &[
                scope.message_from(received.source, received.value),
                Part::Natural(received.sender),
                scope.process(received.source),
                Part::Natural(shown.number),
                scope.name(),
            ],
        )
    }

    // What the message is that an event sent, if it did.
    fn put_sent(&self, title: &mut Notes, shown: ShownEvent) -> Result<(), AllocError> {
        let Some(sent) = self
            .scene
            .timeline
            .sent_by(self.scene.view.session.world, shown)
        else {
            return Ok(());
        };
        let scope = self.scene.scope(shown.pid);
        title.add_with(
            "{} from event {} of {}, on its way to {}",
            &[
                scope.message_to(sent.target, sent.value),
                Part::Natural(shown.number),
                scope.name(),
                scope.process(sent.target),
            ],
        )
    }

    /// The line of the message of an event, if there is one.
    pub(crate) fn say_arrow(&self, notes: &mut Notes, shown: ShownEvent) -> Result<(), AllocError> {
        let Some(arrow) = arrow_of(self.scene, self.layout, shown) else {
            return Ok(());
        };
        let (class, head) = if arrow.is_waiting {
            ("waiting", "open")
        } else {
            ("message", "head")
        };
        notes.say_with("  <line class=\"rdbg-{}\"", &[Part::Text(class)])?;
        put_ends(notes, arrow.stroke.from, arrow.stroke.to)?;
        notes.add_with(
            " marker-end=\"url(#rdbg-{}-{})\"><title>",
            &[Part::Number(self.id), Part::Text(head)],
        )?;
        if arrow.is_waiting {
            self.put_sent(notes, shown)?;
        } else {
            self.put_received(notes, shown)?;
        }
        notes.add("</title></line>")
    }

    /// The words at the arrow of an event, with their middle at this point.
    pub(crate) fn say_arrow_label(
        &self,
        notes: &mut Notes,
        words: &EventWords,
        middle: Point,
    ) -> Result<(), AllocError> {
        let Some(words) = &words.message else {
            return Ok(());
        };
        say_text(notes, "value", middle)?;
        let words = as_markup(self.scene.alloc, bytes_of(words))?;
        notes.add_with("{}", &[Part::Bytes(words.as_slice())])?;
        end_text(notes)
    }
}
