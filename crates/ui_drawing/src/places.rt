//! The places of the words of a drawing.

use crate::arrows::arrow_of;
use crate::cuts::{corners, level_of, right_of};
use crate::labels::{AGAIN, EventWords, width_of};
use crate::layout::Layout;
use crate::obstacles::{ARROW, CUT, MARK, Obstacles, WORDS};
use crate::shapes::{Area, Point, Stroke};
use crate::sheet::Scene;
use crate::spots::{BestSpot, WordSpot, label_area, label_choice, message_choice};
use dbg_base::Pid;
use std::alloc::AllocError;
use ui_timeline::{NamedCut, ShownEvent, bytes_of};

/// Where the words of an event and of its message are.
#[derive(Clone, Copy)]
pub(crate) struct EventPlaces {
    pub(crate) label: WordSpot,
    /// The middle of the words.
    pub(crate) message: Point,
    /// What it costs that they cross others, and that arrows cross the mark of the event.
    pub(crate) cost: i64,
}

/// Where the words of a drawing are.
#[derive(Drop)]
pub(crate) struct WordPlaces {
    /// In the order of the events.
    pub(crate) events: Vec<EventPlaces>,
    /// Of the names of the cuts.
    pub(crate) names: Vec<Point>,
    /// Where the names end on the right.
    pub(crate) right: i64,
}

// A drawing whose words are being placed.
#[derive(Clone, Copy)]
struct Placing<'a> {
    scene: Scene<'a>,
    layout: &'a Layout,
}

impl Placing<'_> {
    // Adds the marks of the events, and their arrows.
    fn add_events(&self, obstacles: &mut Obstacles) -> Result<(), AllocError> {
        for shown in self.scene.events {
            let middle = self.layout.event(self.scene, shown.pid, shown.number);
            obstacles.add_area(Area::around(middle, 6), MARK)?;
            if let Some(arrow) = arrow_of(self.scene, self.layout, *shown) {
                obstacles.add_stroke(arrow.stroke, ARROW)?;
            }
        }
        Ok(())
    }

    // Adds the lines of the cuts, and the marks of what they decide.
    fn add_cuts(&self, obstacles: &mut Obstacles) -> Result<(), AllocError> {
        for cut in self.scene.cuts {
            let corners = corners(self.scene, self.layout, cut)?;
            let others = corners.as_slice().get(1..).unwrap_or(&[]);
            for (from, to) in corners.iter().zip(others) {
                let (from, to) = (*from, *to);
                obstacles.add_stroke(Stroke { from, to }, CUT)?;
            }
            for pid in &cut.pids {
                if self.scene.selection.contains(*pid) {
                    let last = self.layout.event(self.scene, *pid, cut.cut.count(*pid));
                    obstacles.add_area(Area::around(last, 9), MARK)?;
                }
            }
        }
        Ok(())
    }

    // Adds the words at what can be redone.
    fn add_again(&self, obstacles: &mut Obstacles) -> Result<(), AllocError> {
        for pid in self.scene.selection.pids() {
            for n in 0..self.scene.again(*pid) {
                let label = self.scene.again_label(*pid, n)?;
                let point = Point {
                    x: self.layout.line(*pid),
                    y: self.layout.again(n),
                };
                let area = label_area(point, width_of(bytes_of(&label)), false, 4);
                obstacles.add_area(area, WORDS)?;
            }
        }
        Ok(())
    }

    // Whether no event is in the row below the last event in a cut of a process.
    fn is_free(&self, cut: &NamedCut, pid: Pid) -> bool {
        let count = cut.cut.count(pid);
        let row = self.layout.row(self.scene, pid, count);
        let next = self.layout.row(self.scene, pid, count.saturating_add(1));
        next != row.saturating_add(1)
    }

    // Where the name of a cut is: below its line in a row of its own, or at the right end of the line.
    fn name_area(&self, obstacles: &Obstacles, cut: &NamedCut) -> Result<Area, AllocError> {
        let title = cut.title(self.scene.alloc)?;
        let width = width_of(bytes_of(&title));
        let mut choice = BestSpot::new();
        let mut level = self.layout.top();
        for pid in self.scene.selection.pids() {
            level = level_of(self.scene, self.layout, cut, *pid);
            let x = self.layout.words(*pid);
            let fits = x.saturating_add(width) <= self.layout.room_end(*pid);
            if fits && self.is_free(cut, *pid) {
                let y = level.saturating_add(15);
                choice.offer(obstacles, Area::of_words(Point { x, y }, width), false);
            }
        }
        let x = right_of(self.layout).saturating_add(4);
        let mut y = level.saturating_add(4);
        // Each of the other names may be in two of these places.
        for _ in 0..self.scene.cuts.len().saturating_mul(2) {
            choice.offer(obstacles, Area::of_words(Point { x, y }, width), false);
            y = y.saturating_add(14);
        }
        Ok(choice.area)
    }

    // Places the names of the cuts.
    fn place_names(
        &self,
        obstacles: &mut Obstacles,
        places: &mut WordPlaces,
    ) -> Result<(), AllocError> {
        for cut in self.scene.cuts {
            let area = self.name_area(obstacles, cut)?;
            obstacles.add_area(area, WORDS)?;
            let y = area.middle().y;
            places.names.push(Point { x: area.left, y })?;
            places.right = places.right.max(area.right);
        }
        Ok(())
    }

    // What it costs that arrows of other events cross the mark of an event.
    fn mark_cost(&self, obstacles: &Obstacles, shown: ShownEvent) -> i64 {
        let middle = self.layout.event(self.scene, shown.pid, shown.number);
        let crossed = obstacles.strokes_cost(Area::around(middle, 6));
        crossed.saturating_mul(2)
    }

    // Places the words of the events.
    fn place_labels(
        &self,
        obstacles: &mut Obstacles,
        places: &mut WordPlaces,
        words: &[EventWords],
    ) -> Result<(), AllocError> {
        for (shown, words) in self.scene.events.iter().zip(words) {
            let middle = self.layout.event(self.scene, shown.pid, shown.number);
            let choice = label_choice(obstacles, middle, words.label_width());
            obstacles.add_area(choice.area.with_gap(), WORDS)?;
            let label = choice.place();
            places.events.push(EventPlaces {
                label,
                message: label.point,
                cost: choice
                    .cost
                    .saturating_add(self.mark_cost(obstacles, *shown)),
            })?;
        }
        Ok(())
    }

    // Places the words of the messages.
    fn place_messages(
        &self,
        obstacles: &mut Obstacles,
        places: &mut WordPlaces,
        words: &[EventWords],
    ) -> Result<(), AllocError> {
        let events = self.scene.events.iter().zip(words);
        for ((shown, words), own) in events.zip(places.events.iter_mut()) {
            if let Some(arrow) = arrow_of(self.scene, self.layout, *shown) {
                let choice = message_choice(obstacles, arrow, words.message_width());
                obstacles.add_area(choice.area.with_gap(), WORDS)?;
                own.message = choice.area.middle();
                own.cost = own.cost.saturating_add(choice.cost);
            }
        }
        Ok(())
    }
}

impl WordPlaces {
    /// Places the words of a scene: the names of the cuts, the words of the events, and those of the messages.
    pub(crate) fn of(
        scene: Scene<'_>,
        layout: &Layout,
        words: &[EventWords],
    ) -> Result<WordPlaces, AllocError> {
        let rows = layout.last_row().saturating_add(i64::from(AGAIN));
        let mut obstacles = Obstacles::of(scene, layout, rows.saturating_add(2))?;
        let mut places = WordPlaces {
            events: Vec::new(scene.alloc),
            names: Vec::new(scene.alloc),
            right: layout.right(),
        };
        let room = Placing { scene, layout };
        room.add_events(&mut obstacles)?;
        room.add_cuts(&mut obstacles)?;
        room.add_again(&mut obstacles)?;
        room.place_names(&mut obstacles, &mut places)?;
        obstacles.end_at(layout.right());
        room.place_labels(&mut obstacles, &mut places, words)?;
        room.place_messages(&mut obstacles, &mut places, words)?;
        Ok(places)
    }

    /// What all words cost together.
    pub(crate) fn cost(&self) -> i64 {
        let mut cost = 0i64;
        for event in &self.events {
            cost = cost.saturating_add(event.cost);
        }
        cost
    }
}
