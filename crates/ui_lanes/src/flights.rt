//! Messages that are on their way at the cut.

use crate::arrows::{Arrow, ValuePlace, sender_place};
use crate::layout::Layout;
use crate::marks::HALF;
use crate::pixels::{Pixels, Point};
use crate::scene::{HaltScene, new_lines};
use std::alloc::AllocError;
use ui_halt::{Crossing, message};
use ui_text::{Notes, Part};

// At most so many messages of a channel are shown.
const MESSAGES: u32 = 4;

// The words for the messages of a channel.
fn words_of(notes: &Notes, scene: &HaltScene<'_>, channel: Crossing) -> Result<Notes, AllocError> {
    let world = scene.view.session.world;
    let (source, target) = (channel.source, channel.target);
    let mut words = new_lines(notes.alloc());
    words.say("")?;
    let mut between = "";
    for number in 0..MESSAGES {
        let count = channel.received.saturating_add(number).saturating_add(1);
        if count > channel.sent {
            break;
        }
        let value = message(world, source, target, count).unwrap_or(0);
        let shown = Part::Shown(scene.view.text.message(source, target, value));
        words.add_with("{}{}", &[Part::Text(between), shown])?;
        between = " ";
    }
    let all = channel.sent.saturating_sub(channel.received);
    if all > MESSAGES {
        words.add_with(" .. {} in all", &[Part::Natural(all)])?;
    }
    Ok(words)
}

// The way of the last message of a channel: from its sender through the line of the cut to the row of the recipient.
fn flight(scene: &HaltScene<'_>, layout: &Layout, channel: Crossing) -> Option<Arrow> {
    let from = sender_place(scene, layout, channel.source, channel.target, channel.sent)?;
    let to = Point {
        x: layout.cut + Pixels(20),
        y: layout.y(channel.target)?,
    };
    let sign = if from.y.0 < to.y.0 { 1 } else { -1 };
    Some(Arrow {
        from: from.moved(2, sign * HALF),
        to,
        bend: 0,
    })
}

/// Says the messages that are on their way. The places are those of values.
pub(crate) fn say_flights(
    notes: &mut Notes,
    scene: &HaltScene<'_>,
    layout: &Layout,
    places: &mut Vec<ValuePlace>,
) -> Result<(), AllocError> {
    for channel in &scene.halt.crossings {
        if let Some(arrow) = flight(scene, layout, *channel) {
            let words = words_of(notes, scene, *channel)?;
            arrow.say(notes, "flight", words.line(0).bytes, places)?;
        }
    }
    Ok(())
}
