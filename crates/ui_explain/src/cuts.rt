//! The state of a cut: what each process had done in it, and the messages on their way.

use crate::explained::ExplainedSession;
use crate::halts::new_words;
use dbg_base::{Cut, Expr, Pid};
use least_cut::Detector;
use local_eval::Env;
use std::alloc::AllocError;
use ui_halt::{Crossing, find_crossing, find_part, message};
use ui_text::{Notes, Part};
use ui_view::{Wrapping, part_of};

// At most this many messages of a channel are shown.
const SHOWN: u32 = 12;

// The room of two columns: for the events in the cut, as `12 of 345 events`, and for when a part began to hold.
const EVENTS: usize = 18;

const SINCE: usize = 26;

// Where further lines of values begin.
const INDENT: usize = 4;

// Where the columns of the lines about processes begin.
#[derive(Clone, Copy)]
struct CutColumns {
    events: usize,
    since: usize,
    values: usize,
}

impl CutColumns {
    fn after(longest: usize) -> CutColumns {
        let events = longest.max("on the way".len()).saturating_add(2);
        let since = events.saturating_add(EVENTS);
        CutColumns {
            events,
            since,
            values: since.saturating_add(SINCE),
        }
    }
}

// Appends how many of the events of a process there are.
fn put_share(notes: &mut Notes, count: u32, place: u32) -> Result<(), AllocError> {
    notes.add_with("{} of {}", &[Part::Natural(count), Part::Events(place)])
}

impl ExplainedSession<'_> {
    /// The local state of a process after its first events, so many. It is found from the nearer end of the events.
    pub(crate) fn state_after(&self, pid: Pid, count: u32) -> Result<Env, AllocError> {
        let world = self.view.session.world;
        let place = world.place(pid);
        match world.local_state(pid) {
            Some(env) if place.saturating_sub(count) < count => {
                let mut env = env.copy()?;
                for at in (count..place).rev() {
                    world.rows().retreat(pid, at as usize, &mut env);
                }
                Ok(env)
            }
            _ => world.rows().past(pid, count as usize),
        }
    }

    // Appends since when a part has held to the last line.
    fn put_since(
        &self,
        notes: &mut Notes,
        cut: &Cut,
        pid: Pid,
        part: &Expr,
    ) -> Result<(), AllocError> {
        let world = self.view.session.world;
        match find_part(notes.alloc(), world, cut, pid, part)? {
            Some(found) if found.since == 0 => notes.add("holds from the start"),
            Some(found) => notes.add_with("holds since event {}", &[Part::Natural(found.since)]),
            None => Ok(()),
        }
    }

    // Says what a process has done in a cut.
    fn tell_process_of_cut(
        &self,
        notes: &mut Notes,
        detector: &Detector,
        columns: CutColumns,
        cut: &Cut,
        pid: Pid,
    ) -> Result<(), AllocError> {
        let scope = self.view.scope(pid);
        let count = cut.count(pid);
        let env = self.state_after(pid, count)?;
        let part = part_of(detector, self.view.session.program, pid);
        notes.say_with("{}", &[scope.head()])?;
        notes.tab(columns.events)?;
        put_share(notes, count, self.view.session.world.place(pid))?;
        if let Some(part) = part {
            notes.tab(columns.since)?;
            self.put_since(notes, cut, pid, part)?;
        }
        let mut words = new_words(notes)?;
        let mut word = "";
        scope.put_variables(&mut words, &mut word, &env)?;
        if let Some(part) = part {
            scope.put_counts(&mut words, word, &env, part)?;
        }
        self.put_cut_values(notes, columns, &words)
    }

    // Appends the values of a process to the last line, or puts them into new lines if they have no room there.
    fn put_cut_values(
        &self,
        notes: &mut Notes,
        columns: CutColumns,
        words: &Notes,
    ) -> Result<(), AllocError> {
        let width = self.view.width;
        if words.width() == 0 {
            return Ok(());
        }
        if columns.values.saturating_add(words.width()) <= width {
            notes.tab(columns.values)?;
        } else {
            notes.say("")?;
            notes.tab(INDENT)?;
        }
        let column = INDENT;
        Wrapping { width, column }.put(notes, words.line(0).bytes)
    }

    // Says which messages of a channel cross a cut.
    fn tell_crossing(
        &self,
        notes: &mut Notes,
        columns: CutColumns,
        cut: &Cut,
        source: Pid,
        target: Pid,
    ) -> Result<(), AllocError> {
        let Some(channel) = find_crossing(self.view.session.world, cut, source, target) else {
            return Ok(());
        };
        let scope = self.view.scope(source);
        let mut words = new_words(notes)?;
        words.add_with("from {} to {}", &[scope.name(), scope.process(target)])?;
        self.put_messages(&mut words, channel, SHOWN)?;
        notes.say("on the way")?;
        notes.tab(columns.events)?;
        let (width, column) = (self.view.width, columns.events);
        Wrapping { width, column }.put(notes, words.line(0).bytes)
    }

    /// Appends the messages of a channel that are on their way to the last line: the first ones, at most so many.
    pub(crate) fn put_messages(
        &self,
        notes: &mut Notes,
        channel: Crossing,
        most: u32,
    ) -> Result<(), AllocError> {
        let Crossing { source, target, .. } = channel;
        let scope = self.view.scope(source);
        let mut word = ": ";
        let last = channel.sent.min(channel.received.saturating_add(most));
        for before in channel.received..last {
            let count = before.saturating_add(1);
            if let Some(value) = message(self.view.session.world, source, target, count) {
                let value = scope.message_to(target, value);
                notes.add_with("{}{}", &[Part::Text(word), value])?;
                word = ", ";
            }
        }
        let left_out = channel.sent.saturating_sub(last);
        if left_out > 0 {
            notes.add_with(" and {} more", &[Part::Natural(left_out)])?;
        }
        Ok(())
    }

    /// Shows the state of a breakpoint's cut: for each process its events, since when its part holds, and its variables; and the messages
    /// that were sent in the cut and not received in it.
    pub(crate) fn tell_cut_state(
        &self,
        notes: &mut Notes,
        detector: &Detector,
        cut: &Cut,
    ) -> Result<(), AllocError> {
        let processes = self.view.session.program.processes();
        let columns = CutColumns::after(self.view.text.longest_name());
        for p in 0..processes {
            self.tell_process_of_cut(notes, detector, columns, cut, Pid(p))?;
        }
        for p in 0..processes {
            for q in 0..processes {
                self.tell_crossing(notes, columns, cut, Pid(p), Pid(q))?;
            }
        }
        Ok(())
    }
}
