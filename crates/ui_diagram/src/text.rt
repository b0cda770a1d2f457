//! A space-time diagram for a terminal: a column for each process, time downward.

mod columns;
mod words;

use crate::canvas::{Canvas, CanvasRow};
use dbg_base::{Pid, Refusal};
use std::alloc::{AllocError, Global};
use ui_text::{Notes, Part};
use ui_timeline::{
    NamedCut, Selection, ShownEvent, Timeline, bytes_of, halting, named_cuts, put_left_out, size,
};
use ui_view::SourceView;
use words::{TextScene, words};

// The most events that are shown.
const SHOWN: usize = 60;

// At most so many events after the cut that halts the session are shown, if that would not be in view among the last events.
const AFTER: usize = 6;

/// How many characters wide a diagram is, if no other width is named.
pub const WIDTH: u32 = 120;

/// No limit on how many events a picture shows, but that of its form.
pub const ALL_EVENTS: u32 = u32::MAX;

/// A picture that is being made: what it shows, and its columns.
#[derive(Clone, Copy)]
struct TextSheet<'a> {
    scene: TextScene<'a>,
    canvas: &'a Canvas,
}

fn say_row(notes: &mut Notes, row: &CanvasRow) -> Result<(), AllocError> {
    notes.say_with("{}", &[Part::Bytes(row.text())])
}

// How many of these events a process has.
fn own_events(events: &[ShownEvent], pid: Pid) -> usize {
    events.iter().filter(|shown| shown.pid == pid).count()
}

impl TextSheet<'_> {
    // The predicate of the breakpoint that halts the session.
    fn say_heading(&self, notes: &mut Notes, cuts: &[NamedCut]) -> Result<(), AllocError> {
        match halting(cuts) {
            Some(cut) => notes.say_with(
                "{}",
                &[Part::Bytes(bytes_of(&cut.heading(self.scene.alloc)?))],
            ),
            None => Ok(()),
        }
    }

    fn say_names(&self, notes: &mut Notes) -> Result<(), AllocError> {
        let mut row = self.canvas.filled(self.scene.alloc, b' ')?;
        for pid in self.scene.selection.pids() {
            let name = words(self.scene.alloc, "{}", &[self.scene.scope(*pid).name()])?;
            let at = self.canvas.place(*pid);
            row.put_cut(at, bytes_of(&name), self.canvas.room(*pid));
        }
        say_row(notes, &row)
    }

    fn say_lines(&self, notes: &mut Notes) -> Result<(), AllocError> {
        say_row(notes, &self.canvas.lines(self.scene.alloc)?)
    }

    // An arrow between two processes, made of this character, with these words in its middle. It ends at the second one.
    fn say_arrow(
        &self,
        notes: &mut Notes,
        from: Pid,
        to: Pid,
        with: u8,
        label: &Notes,
    ) -> Result<(), AllocError> {
        let mut row = self.canvas.lines(self.scene.alloc)?;
        let (from, to) = (self.canvas.place(from), self.canvas.place(to));
        let (left, right) = (from.min(to), from.max(to));
        row.fill(left.saturating_add(1), right, with);
        if from < to {
            row.put(right.saturating_sub(1), b">");
        } else {
            row.put(left.saturating_add(1), b"<");
        }
        let label = bytes_of(label);
        let room = right.saturating_sub(left).saturating_sub(4);
        let space = room.saturating_sub(label.len()) / 2;
        row.put_cut(left.saturating_add(2).saturating_add(space), label, room);
        say_row(notes, &row)
    }

    // The arrow of a message that an event received.
    fn say_message(&self, notes: &mut Notes, shown: ShownEvent) -> Result<(), AllocError> {
        match self
            .scene
            .timeline
            .received_by(self.scene.view.session.world, shown)
        {
            Some(received) if self.scene.selection.contains(received.source) => {
                let label = self.scene.received(shown.pid, received)?;
                self.say_arrow(notes, received.source, shown.pid, b'-', &label)
            }
            _ => Ok(()),
        }
    }

    fn say_event(&self, notes: &mut Notes, shown: ShownEvent) -> Result<(), AllocError> {
        self.say_message(notes, shown)?;
        let mut row = self.canvas.lines(self.scene.alloc)?;
        let room = self.canvas.room(shown.pid);
        let words = self.scene.event(shown, room)?;
        row.put_cut(self.canvas.place(shown.pid), bytes_of(&words), room);
        say_row(notes, &row)
    }

    // A cut across the whole picture.
    fn say_cut(&self, notes: &mut Notes, cut: &NamedCut) -> Result<(), AllocError> {
        let with = if cut.halts { b'#' } else { b'=' };
        let mut row = self.canvas.filled(self.scene.alloc, with)?;
        let title = cut.title(self.scene.alloc)?;
        row.put(2, b" ");
        row.put(3, bytes_of(&title));
        row.put(bytes_of(&title).len().saturating_add(3), b" ");
        say_row(notes, &row)
    }

    // Marks a cut in the column of a process.
    fn put_part(&self, row: &mut CanvasRow, cut: &NamedCut, pid: Pid) -> Result<(), AllocError> {
        let at = self.canvas.place(pid);
        let room = self.canvas.room(pid);
        row.fill(at, at.saturating_add(room), b'=');
        let name = words(self.scene.alloc, "= {} ", &[cut.name()])?;
        row.put_cut(at, bytes_of(&name), room);
        Ok(())
    }

    // A cut in the column of a process of which this event is the last in the cut.
    fn say_part(
        &self,
        notes: &mut Notes,
        cut: &NamedCut,
        shown: ShownEvent,
    ) -> Result<(), AllocError> {
        if cut.cut.count(shown.pid) != shown.number {
            return Ok(());
        }
        let mut row = self.canvas.lines(self.scene.alloc)?;
        self.put_part(&mut row, cut, shown.pid)?;
        say_row(notes, &row)
    }

    // A cut in the columns of the processes that have no event in it besides those that are left out.
    fn say_first_part(
        &self,
        notes: &mut Notes,
        cut: &NamedCut,
        left: &[ShownEvent],
    ) -> Result<(), AllocError> {
        let mut row = self.canvas.lines(self.scene.alloc)?;
        let mut any = false;
        for pid in self.scene.selection.pids() {
            if cut.cut.count(*pid) as usize <= own_events(left, *pid) {
                any = true;
                self.put_part(&mut row, cut, *pid)?;
            }
        }
        if any { say_row(notes, &row) } else { Ok(()) }
    }

    // The messages of each channel that are on their way.
    fn say_all_waiting(&self, notes: &mut Notes) -> Result<(), Refusal> {
        for from in self.scene.selection.pids() {
            for to in self.scene.selection.pids() {
                if let Some(label) = self.scene.waiting(*from, *to)? {
                    self.say_arrow(notes, *from, *to, b'~', &label)?;
                }
            }
        }
        Ok(())
    }

    fn say_again(&self, notes: &mut Notes) -> Result<(), AllocError> {
        let mut row = self.canvas.lines(self.scene.alloc)?;
        let mut any = false;
        for pid in self.scene.selection.pids() {
            if let Some(words) = self.scene.again(*pid)? {
                any = true;
                let at = self.canvas.place(*pid);
                row.put_cut(at, bytes_of(&words), self.canvas.room(*pid));
            }
        }
        if any { say_row(notes, &row) } else { Ok(()) }
    }
}

impl TextSheet<'_> {
    // The cuts that are drawn before the event at this position: those that consist of the events before it.
    fn say_cuts_across(
        &self,
        notes: &mut Notes,
        place: usize,
        cuts: &[NamedCut],
    ) -> Result<(), AllocError> {
        for cut in cuts {
            if cut.is_prefix && size(&cut.cut, self.scene.processes()) == place {
                self.say_cut(notes, cut)?;
            }
        }
        Ok(())
    }

    // The parts of the other cuts that are drawn before all events that are shown.
    fn say_first_parts(
        &self,
        notes: &mut Notes,
        cuts: &[NamedCut],
        left: &[ShownEvent],
    ) -> Result<(), AllocError> {
        for cut in cuts {
            if !cut.is_prefix {
                self.say_first_part(notes, cut, left)?;
            }
        }
        Ok(())
    }

    // The parts of the other cuts that are drawn after this event.
    fn say_cut_parts(
        &self,
        notes: &mut Notes,
        cuts: &[NamedCut],
        shown: ShownEvent,
    ) -> Result<(), AllocError> {
        for cut in cuts {
            if !cut.is_prefix {
                self.say_part(notes, cut, shown)?;
            }
        }
        Ok(())
    }

    // Which processes are not shown, if there are some.
    fn say_hidden(&self, notes: &mut Notes) -> Result<(), AllocError> {
        if self.scene.selection.is_whole() {
            return Ok(());
        }
        notes.say(".. ")?;
        self.scene.selection.put_hidden(notes, self.scene.view)
    }

    // How many events of the processes that are shown are left out, if there are some.
    fn say_left_out(&self, notes: &mut Notes, left: &[ShownEvent]) -> Result<(), AllocError> {
        let count = self.scene.selection.count(left);
        if count == 0 {
            return Ok(());
        }
        notes.say(".. ")?;
        put_left_out(notes, count)?;
        notes.add(":")?;
        let mut word = " ";
        for pid in self.scene.selection.pids() {
            let own = own_events(left, *pid);
            if own > 0 {
                let name = self.scene.scope(*pid).name();
                notes.add_with("{}{} of {}", &[Part::Text(word), Part::Count(own), name])?;
                word = ", ";
            }
        }
        Ok(())
    }

    // How many events after those that are shown are left out, if there are some.
    fn say_later(&self, notes: &mut Notes, later: &[ShownEvent]) -> Result<(), AllocError> {
        match self.scene.selection.count(later) {
            0 => Ok(()),
            1 => notes.say(".. 1 later event is left out"),
            count => notes.say_with(".. {} later events are left out", &[Part::Count(count)]),
        }
    }

    // These events, which come after so many others, with the cuts.
    fn say_events(
        &self,
        notes: &mut Notes,
        events: &[ShownEvent],
        first: usize,
        cuts: &[NamedCut],
    ) -> Result<(), AllocError> {
        let mut place = first;
        for shown in events {
            self.say_cuts_across(notes, place, cuts)?;
            if self.scene.selection.contains(shown.pid) {
                self.say_event(notes, *shown)?;
                self.say_cut_parts(notes, cuts, *shown)?;
            }
            place = place.saturating_add(1);
        }
        self.say_cuts_across(notes, place, cuts)
    }
}

// Which events are shown: those from the first of these positions up to the second. They are the last ones, or those around the cut that halts
// the session, if that would not be in view.
fn window(
    timeline: &Timeline,
    selection: &Selection,
    cuts: &[NamedCut],
    processes: u32,
) -> (usize, usize) {
    let all = timeline.events().len();
    let most = selection.last().min(SHOWN);
    let first = timeline.left_out_of(selection, most);
    match halting(cuts) {
        Some(cut) if cut.is_prefix && size(&cut.cut, processes) < first => {
            let after = AFTER.min(most / 2);
            let to = size(&cut.cut, processes).saturating_add(after).min(all);
            (to.saturating_sub(most), to)
        }
        _ => (first, all),
    }
}

/// Draws a session in its present state. Each process has a column with its events downward, each with its number, its command and what it
/// set. There are arrows for the messages, also for those on their way, the redo lines in brackets, and lines across for the cuts of
/// breakpoints. Only the events of the processes of the selection are shown, and the last of them, or those around the cut of a halt. The columns are as wide as they need to
/// be, but for more than eight characters each at most so wide that all are within this width.
pub fn draw_text(
    alloc: Global,
    notes: &mut Notes,
    view: SourceView<'_>,
    selection: &Selection,
    width: usize,
) -> Result<(), Refusal> {
    let mut cuts = named_cuts(alloc, view)?;
    let timeline = Timeline::of(alloc, view.session.world, cuts.as_mut_slice())?;
    let events = timeline.events();
    let processes = view.session.program.processes();
    let (first, to) = window(&timeline, selection, cuts.as_slice(), processes);
    let scene = TextScene {
        alloc,
        view,
        selection,
        timeline: &timeline,
    };
    let shown = events.get(first..to).unwrap_or(&[]);
    let canvas = scene.canvas(shown, cuts.as_slice(), width)?;
    let sheet = TextSheet {
        scene,
        canvas: &canvas,
    };
    let left = events.get(..first).unwrap_or(&[]);
    sheet.say_heading(notes, cuts.as_slice())?;
    sheet.say_hidden(notes)?;
    sheet.say_left_out(notes, left)?;
    sheet.say_names(notes)?;
    sheet.say_lines(notes)?;
    sheet.say_first_parts(notes, cuts.as_slice(), left)?;
    sheet.say_events(notes, shown, first, cuts.as_slice())?;
    sheet.say_later(notes, events.get(to..).unwrap_or(&[]))?;
    sheet.say_all_waiting(notes)?;
    sheet.say_again(notes)?;
    Ok(sheet.say_lines(notes)?)
}
