//! The report of a halt.

use crate::explained::ExplainedSession;
use crate::lane_columns::{LaneColumns, longest_value};
use dbg_base::{Cut, Name, Pid, Refusal};
use least_cut::Detector;
use shell_io::Style;
use std::alloc::AllocError;
use ui_halt::{Crossing, Halt};
use ui_text::{Notes, Part};
use ui_view::{SourceView, Wrapping, part_of};

/// Where a further line of a sentence begins.
pub(crate) const INDENT: usize = 2;

// At most so many messages of a channel are shown, so many channels, and so many parts of a predicate.
const MESSAGES: u32 = 4;

const CHANNELS: u32 = 6;

const PARTS: usize = 4;

// With more rows than this the rest of the report is shorter, so that all of it is in view.
const ROWS: usize = 7;

// With at most so many processes, the values of those that have no part are shown.
const FEW: usize = 4;

/// A halt that is reported.
#[derive(Clone, Copy)]
pub(crate) struct HaltReport<'a> {
    pub(crate) session: ExplainedSession<'a>,
    pub(crate) name: Name,
    pub(crate) detector: &'a Detector,
    pub(crate) cut: &'a Cut,
    pub(crate) halt: &'a Halt,
}

/// No words. They are one line without styles.
pub(crate) fn new_words(notes: &Notes) -> Result<Notes, AllocError> {
    let mut words = Notes::new(notes.alloc());
    words.begin(false);
    words.say("")?;
    Ok(words)
}

impl<'a> HaltReport<'a> {
    /// The session that halted.
    pub(crate) fn view(&self) -> SourceView<'a> {
        self.session.view
    }

    /// Lines whose further lines begin at this column.
    pub(crate) fn wrapping(&self, column: usize) -> Wrapping {
        let width = self.view().width;
        Wrapping { width, column }
    }

    /// Whether there are so many rows that the rest is shorter.
    pub(crate) fn is_tight(&self) -> bool {
        let shown = self
            .halt
            .order
            .iter()
            .filter(|pid| self.halt.is_shown(**pid));
        shown.count() > ROWS
    }

    // Appends the values that the part of a process names, in the cut, to the last line.
    fn put_values(&self, notes: &mut Notes, pid: Pid) -> Result<(), AllocError> {
        let program = self.view().session.program;
        let Some(part) = part_of(self.detector, program, pid) else {
            return Ok(());
        };
        let env = self.session.state_after(pid, self.cut.count(pid))?;
        self.view().scope(pid).put_values(notes, "", &env, &[part])
    }

    // The values that the parts name, in the cut: a line for each part.
    fn values(&self, notes: &Notes) -> Result<Notes, AllocError> {
        let mut values = Notes::new(notes.alloc());
        values.begin(false);
        for part in &self.halt.parts {
            values.say("")?;
            self.put_values(&mut values, part.pid)?;
        }
        Ok(values)
    }

    // Appends the name and the predicate of the breakpoint to the last line.
    fn put_predicate(&self, words: &mut Notes) -> Result<(), AllocError> {
        let view = self.view();
        let parts = self.halt.parts.len();
        if parts > PARTS {
            let form = "{}: its {} parts hold (`breaks` shows them)";
            return words.add_with(form, &[view.breakpoint(self.name), Part::Count(parts)]);
        }
        view.put_predicate(words, self.name, self.detector)
    }

    // Says which breakpoint halts the session, and what its predicate is.
    fn tell_predicate(&self, notes: &mut Notes) -> Result<(), AllocError> {
        let mut words = new_words(notes)?;
        words.add("by ")?;
        self.put_predicate(&mut words)?;
        notes.begin_line(Style::Plain)?;
        notes.add_in(Style::Halt, "HALTED")?;
        notes.add(" ")?;
        self.wrapping(INDENT).put(notes, words.line(0).bytes)
    }

    // Says how many of the events lead there, and what the signs of the rows mean.
    fn tell_signs(&self, notes: &mut Notes, columns: &LaneColumns) -> Result<(), AllocError> {
        let (mut cut, mut all) = (0u32, 0u32);
        for p in 0..self.view().session.program.processes() {
            cut = cut.saturating_add(self.cut.count(Pid(p)));
            all = all.saturating_add(self.view().session.world.place(Pid(p)));
        }
        let mut words = new_words(notes)?;
        let verb = Part::Text(if cut == 1 { "leads" } else { "lead" });
        let counts = [Part::Natural(cut), Part::Events(all), verb];
        words.add_with("{} of {} {} there (= part holds, . false, * since", &counts)?;
        words.add(if columns.has_before() {
            ", [10] 10 before):"
        } else {
            " this event):"
        })?;
        notes.say("")?;
        self.wrapping(INDENT).put(notes, words.line(0).bytes)
    }

    // Appends the messages of a channel that are on their way to the last line.
    fn put_channel(&self, words: &mut Notes, channel: Crossing) -> Result<(), AllocError> {
        let scope = self.view().scope(channel.source);
        words.add_with("{} to {}", &[scope.name(), scope.process(channel.target)])?;
        self.session.put_messages(words, channel, MESSAGES)
    }

    // Appends the messages of the channels that are on their way to the last line.
    fn put_channels(&self, words: &mut Notes) -> Result<(), AllocError> {
        for (at, channel) in (0u32..).zip(&self.halt.crossings) {
            if at >= CHANNELS {
                break;
            }
            words.add(if at == 0 { "" } else { "; " })?;
            self.put_channel(words, *channel)?;
        }
        let more = self.halt.crossings.len().saturating_sub(CHANNELS as usize);
        if more > 0 {
            words.add_with("; and in {} other channels", &[Part::Count(more)])?;
        }
        Ok(())
    }

    // Says which messages are on their way.
    fn tell_channels(&self, notes: &mut Notes, columns: &LaneColumns) -> Result<(), AllocError> {
        let mut words = new_words(notes)?;
        if self.halt.crossings.is_empty() {
            words.add("nothing")?;
        } else {
            self.put_channels(&mut words)?;
        }
        self.tell_labelled(notes, "  on the way", columns, &words)
    }

    /// Says these words after a label.
    pub(crate) fn tell_labelled(
        &self,
        notes: &mut Notes,
        label: &str,
        columns: &LaneColumns,
        words: &Notes,
    ) -> Result<(), AllocError> {
        notes.say(label)?;
        notes.tab(columns.begin)?;
        self.wrapping(columns.begin).put(notes, words.line(0).bytes)
    }

    // Says of which processes no event is needed, if there are any.
    fn tell_not_needed(&self, notes: &mut Notes, columns: &LaneColumns) -> Result<(), AllocError> {
        let mut words = new_words(notes)?;
        for pid in &self.halt.order {
            if !self.halt.is_shown(*pid) {
                words.add(if words.width() == 0 { "" } else { ", " })?;
                words.add_with("{}", &[self.view().scope(*pid).name()])?;
            }
        }
        if words.width() == 0 {
            return Ok(());
        }
        self.tell_labelled(notes, "  not needed", columns, &words)
    }

    // Shows the variables of a process in the cut, if they fit in a line.
    fn tell_variables(
        &self,
        notes: &mut Notes,
        columns: &LaneColumns,
        pid: Pid,
    ) -> Result<(), AllocError> {
        let scope = self.view().scope(pid);
        let env = self.session.state_after(pid, self.cut.count(pid))?;
        let mut words = new_words(notes)?;
        scope.put_variables(&mut words, &mut "", &env)?;
        if columns.begin.saturating_add(words.width()) > self.view().width {
            return Ok(());
        }
        notes.say_with("  {}", &[scope.name()])?;
        notes.tab(columns.begin)?;
        notes.add_with("{}", &[Part::Bytes(words.line(0).bytes)])
    }

    // Shows the variables of the processes that have no part, if there are few processes.
    fn tell_others(&self, notes: &mut Notes, columns: &LaneColumns) -> Result<(), AllocError> {
        if self.halt.order.len() > FEW {
            return Ok(());
        }
        for pid in &self.halt.order {
            let has_values = self.view().session.program.variables(*pid) > 0;
            if has_values && self.halt.is_shown(*pid) && self.halt.part(*pid).is_none() {
                self.tell_variables(notes, columns, *pid)?;
            }
        }
        Ok(())
    }

    // Reports the halt.
    fn tell(&self, notes: &mut Notes) -> Result<(), Refusal> {
        let values = self.values(notes)?;
        let columns = LaneColumns::of(notes.alloc(), self, longest_value(&values))?;
        self.tell_predicate(notes)?;
        if columns.are_values_above {
            self.tell_values_above(notes, &columns, &values)?;
        }
        self.tell_signs(notes, &columns)?;
        self.tell_lanes(notes, &columns, &values)?;
        self.tell_channels(notes, &columns)?;
        self.tell_not_needed(notes, &columns)?;
        self.tell_others(notes, &columns)?;
        self.tell_why_here(notes, &columns)?;
        self.tell_no_earlier(notes, &columns)?;
        self.tell_what_next(notes)
    }
}

impl ExplainedSession<'_> {
    /// Says why a breakpoint halts the session at this cut, and why not earlier, in two lines about the signs of a picture: its large marks, since
    /// which parts hold, and its line of the cut.
    pub fn tell_why(
        &self,
        notes: &mut Notes,
        name: Name,
        detector: &Detector,
        cut: &Cut,
        halt: &Halt,
    ) -> Result<(), AllocError> {
        HaltReport {
            session: *self,
            name,
            detector,
            cut,
            halt,
        }
        .tell_sentences(notes)
    }

    /// Reports that a breakpoint halts the session at its cut: its predicate, since when each part holds and which events lead there, the
    /// messages on their way, why here and not earlier, and how to continue.
    pub(crate) fn tell_halt(
        &self,
        notes: &mut Notes,
        name: Name,
        cut: &Cut,
    ) -> Result<(), Refusal> {
        let Some(detector) = self.view.detector_of(name) else {
            return Ok(());
        };
        let halt = Halt::of(notes.alloc(), self.view.session.world, detector, cut)?;
        HaltReport {
            session: *self,
            name,
            detector,
            cut,
            halt: &halt,
        }
        .tell(notes)
    }

    /// Says that a breakpoint still halts the session, at the same cut.
    pub(crate) fn tell_same_halt(&self, notes: &mut Notes, name: Name) -> Result<(), AllocError> {
        notes.begin_line(Style::Plain)?;
        notes.add_in(Style::Halt, "HALTED")?;
        notes.add_with(" as before by {}; ", &[self.view.breakpoint(name)])?;
        notes.add_with("`cut {}` shows where", &[self.view.breakpoint(name)])
    }
}
