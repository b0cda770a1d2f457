//! Why a session halts here, why not earlier, and how it continues.

use crate::halts::{HaltReport, INDENT, new_words};
use crate::lane_columns::LaneColumns;
use dbg_base::{Pid, Refusal};
use std::alloc::AllocError;
use ui_causes::{EventPlace, is_before, put_place};
use ui_halt::{Earlier, PartInCut};
use ui_text::{Notes, Part};

// Of at most so many parts it is said why they held too early, and so many undos are shown.
const REASONS: usize = 2;

const UNDOS: usize = 2;

/// What the signs are called to which sentences refer: those of a report, or those of a picture.
#[derive(Clone, Copy)]
pub(crate) enum Signs {
    Report,
    Picture,
}

impl Signs {
    // The mark of the event since which a part holds.
    fn mark(self) -> Part<'static> {
        Part::Text(match self {
            Signs::Report => "*",
            Signs::Picture => "large mark",
        })
    }

    // The line of the cut.
    fn cut(self) -> Part<'static> {
        Part::Text(match self {
            Signs::Report => "bar",
            Signs::Picture => "red line",
        })
    }
}

impl HaltReport<'_> {
    // Whether the event since which a part holds is the last one of its process in the cut, and before none of the other parts' events.
    fn is_concurrent(&self, part: &PartInCut) -> bool {
        let world = self.view().session.world;
        let event = EventPlace {
            pid: part.pid,
            number: part.since,
        };
        let is_last = part.since > 0 && part.since == self.cut.count(part.pid);
        is_last
            && !self.halt.parts.iter().any(|other| {
                let later = EventPlace {
                    pid: other.pid,
                    number: other.since,
                };
                other.pid != part.pid && is_before(world, event, later)
            })
    }

    // Whether no mark of a part is before another one, and each is the last event of its process in the cut.
    fn are_concurrent(&self) -> bool {
        let parts = self.halt.parts.as_slice();
        parts.len() > 1 && parts.iter().all(|part| self.is_concurrent(part))
    }

    /// Appends why this is a state of the session.
    pub(crate) fn put_why_here(&self, words: &mut Notes, signs: Signs) -> Result<(), AllocError> {
        let (form, sign) = match (self.are_concurrent(), self.halt.parts.len()) {
            (true, 2) => (
                "neither {} comes before the other: both parts can hold at once",
                signs.mark(),
            ),
            (true, _) => (
                "no {} comes before another: all parts can hold at once",
                signs.mark(),
            ),
            (false, _) => ("no event left of the {} needs one right of it", signs.cut()),
        };
        words.add_with(form, &[sign])
    }

    /// Says why this is a state of the session.
    pub(crate) fn tell_why_here(
        &self,
        notes: &mut Notes,
        columns: &LaneColumns,
    ) -> Result<(), AllocError> {
        let mut words = new_words(notes)?;
        self.put_why_here(&mut words, Signs::Report)?;
        self.tell_labelled(notes, "why here", columns, &words)
    }

    // Says why a part held too early.
    fn put_reason(
        &self,
        words: &mut Notes,
        part: &PartInCut,
        earlier: Earlier,
        reason: EventPlace,
    ) -> Result<(), AllocError> {
        let scope = self.view().scope(part.pid);
        words.add_with(
            "{} held after {}, too, but ",
            &[scope.name(), Part::Events(earlier.events)],
        )?;
        put_place(words, self.view(), reason)?;
        words.add(" comes after ")?;
        let next = EventPlace {
            pid: part.pid,
            number: earlier.events.saturating_add(1),
        };
        put_place(words, self.view(), next)
    }

    // Says of the parts that held too early why it was too early. Returns of how many.
    fn put_reasons(&self, words: &mut Notes, most: usize) -> Result<usize, AllocError> {
        let mut count = 0usize;
        for part in &self.halt.parts {
            let Some(earlier) = part.earlier else {
                continue;
            };
            let Some(reason) = earlier.reason else {
                continue;
            };
            if count < most {
                words.add(if count == 0 { "" } else { "; " })?;
                self.put_reason(words, part, earlier, reason)?;
            }
            count = count.saturating_add(1);
        }
        Ok(count)
    }

    /// Appends why the session does not halt at a smaller cut, for at most so many parts.
    pub(crate) fn put_no_earlier(
        &self,
        words: &mut Notes,
        signs: Signs,
        most: usize,
    ) -> Result<(), AllocError> {
        let count = self.put_reasons(words, most)?;
        let is_at_start = self.halt.parts.iter().all(|part| part.since == 0);
        if count > most {
            let more = Part::Count(count.saturating_sub(most));
            words.add_with("; and so on for {} more", &[more])?;
        } else if count == 0 && is_at_start {
            words.add("it holds from the start")?;
        } else if count == 0 && self.halt.parts.len() == 1 {
            let form = "its part is false before the {}, and all else comes before the {}";
            words.add_with(form, &[signs.mark(), signs.mark()])?;
        } else if count == 0 {
            let form = "a part is false before its {}, and all else comes before a {}";
            words.add_with(form, &[signs.mark(), signs.mark()])?;
        }
        Ok(())
    }

    /// Says why the session does not halt at a smaller cut.
    pub(crate) fn tell_no_earlier(
        &self,
        notes: &mut Notes,
        columns: &LaneColumns,
    ) -> Result<(), AllocError> {
        let mut words = new_words(notes)?;
        let most = if self.is_tight() { 1 } else { REASONS };
        self.put_no_earlier(&mut words, Signs::Report, most)?;
        self.tell_labelled(notes, "no earlier", columns, &words)
    }

    /// Says why here and why not earlier, in two lines about the signs of a picture.
    pub(crate) fn tell_sentences(&self, notes: &mut Notes) -> Result<(), AllocError> {
        notes.say("Why here: ")?;
        self.put_why_here(notes, Signs::Picture)?;
        notes.add(".")?;
        notes.say("Why not earlier: ")?;
        self.put_no_earlier(notes, Signs::Picture, REASONS)?;
        notes.add(".")
    }

    // How many events of the session are not in the cut.
    fn beyond(&self) -> u32 {
        let mut beyond = 0u32;
        for p in 0..self.view().session.program.processes() {
            let place = self.view().session.world.place(Pid(p));
            beyond = beyond.saturating_add(place.saturating_sub(self.cut.count(Pid(p))));
        }
        beyond
    }

    // Says how the session continues, and with how many events fewer.
    fn put_going_on(&self, words: &mut Notes) -> Result<(), Refusal> {
        words.add_with("`pass {}` ", &[self.view().breakpoint(self.name)])?;
        match self.view().next_halting(words.alloc(), self.name)? {
            Some(next) => {
                let next = self.view().breakpoint(next);
                words.add_with("disarms it, and then the breakpoint {} halts", &[next])?;
            }
            None => words.add("goes on")?,
        }
        let beyond = self.beyond();
        if beyond > 0 {
            let form = "; `goto {}` undoes the {} that {} not needed";
            let verb = Part::Text(if beyond == 1 { "is" } else { "are" });
            let name = self.view().breakpoint(self.name);
            words.add_with(form, &[name, Part::Events(beyond), verb])?;
        }
        Ok(())
    }

    // Says which undos undo one event of a part alone.
    fn put_undos(&self, words: &mut Notes) -> Result<(), AllocError> {
        let world = self.view().session.world;
        let mut count = 0usize;
        for part in &self.halt.parts {
            let is_last = world.place(part.pid) == self.cut.count(part.pid);
            if count < UNDOS && is_last && world.can_undo(part.pid).is_ok() {
                let name = self.view().scope(part.pid).name();
                words.add_with("; `undo {}` undoes ", &[name])?;
                let number = world.place(part.pid);
                put_place(
                    words,
                    self.view(),
                    EventPlace {
                        pid: part.pid,
                        number,
                    },
                )?;
                words.add(" alone")?;
                count = count.saturating_add(1);
            }
        }
        Ok(())
    }

    // Says what tells more.
    fn put_questions(&self, words: &mut Notes) -> Result<(), AllocError> {
        let first = self.halt.parts.iter().find(|part| part.since > 0);
        if let Some(part) = first {
            let name = self.view().scope(part.pid).name();
            let form = "; `how {} {}` says what led to it";
            words.add_with(form, &[name, Part::Natural(part.since)])?;
        }
        let name = self.view().breakpoint(self.name);
        words.add_with("; `cut {}` shows all values", &[name])
    }

    /// Says what one can do next.
    pub(crate) fn tell_what_next(&self, notes: &mut Notes) -> Result<(), Refusal> {
        let mut words = new_words(notes)?;
        self.put_going_on(&mut words)?;
        if !self.is_tight() {
            self.put_undos(&mut words)?;
        }
        self.put_questions(&mut words)?;
        notes.say("")?;
        Ok(self.wrapping(INDENT).put(notes, words.line(0).bytes)?)
    }
}
