//! Where everything of a drawing is. Events are put lower where their words, or an arrow across them, need room.

use crate::labels::EventWords;
use crate::layout::Layout;
use crate::places::WordPlaces;
use crate::rows::zeros;
use crate::sheet::Scene;
use std::alloc::AllocError;

// The most events of a drawing in which events are put lower.
const MOST_EVENTS: usize = 400;

// How often it is tried.
const TRIES: u32 = 40;

// The most rows by which an event is put lower.
const MOST_ROWS: i64 = 2;

/// A layout, and where the words are in it.
#[derive(Drop)]
pub(crate) struct Arrangement {
    pub(crate) layout: Layout,
    pub(crate) places: WordPlaces,
}

// An arrangement in which the events are so many rows lower.
fn arranged(
    scene: Scene<'_>,
    heading: usize,
    words: &[EventWords],
    falls: &[i64],
) -> Result<Arrangement, AllocError> {
    let layout = Layout::of(scene, heading, words, falls)?;
    let places = WordPlaces::of(scene, &layout, words)?;
    Ok(Arrangement { layout, places })
}

// Adds to the number at a position.
fn add(numbers: &mut [i64], place: usize, number: i64) {
    if let Some(own) = numbers.get_mut(place) {
        *own = own.saturating_add(number);
    }
}

impl Arrangement {
    // The first event from this position whose words or whose mark others cross, and that is not yet at its lowest.
    fn crossed(&self, falls: &[i64], from: usize) -> Option<usize> {
        let mut place = 0usize;
        for (event, fall) in self.places.events.iter().zip(falls) {
            if place >= from && event.cost > 0 && *fall < MOST_ROWS {
                return Some(place);
            }
            place = place.saturating_add(1);
        }
        None
    }

    /// The arrangement of a scene, whose heading has so many lines, and whose events have these words.
    pub(crate) fn of(
        scene: Scene<'_>,
        heading: usize,
        words: &[EventWords],
    ) -> Result<Arrangement, AllocError> {
        let mut falls = zeros(scene, scene.events.len())?;
        let mut best = arranged(scene, heading, words, falls.as_slice())?;
        let mut from = 0usize;
        for _ in 0..TRIES {
            let Some(place) = best.crossed(falls.as_slice(), from) else {
                break;
            };
            if scene.events.len() > MOST_EVENTS {
                break;
            }
            add(falls.as_mut_slice(), place, 1);
            let next = arranged(scene, heading, words, falls.as_slice())?;
            if next.places.cost() < best.places.cost() {
                best = next;
                from = place;
            } else {
                add(falls.as_mut_slice(), place, -1);
                from = place.saturating_add(1);
            }
        }
        Ok(best)
    }
}
