//! What an accepted command did.

use crate::batches::made_from;
use crate::explained::ExplainedSession;
use dbg_base::{Call, Cut, Done, Name, Pid, Plan, Refusal, Reply, Said};
use std::alloc::{AllocError, Global};
use ui_text::{Notes, Part};
use ui_view::{EventNews, named_reply};

/// What has to be known of a session before a call: how many events each process had, and how long its line was.
#[derive(Drop)]
pub struct Before {
    places: Vec<(u32, u32)>,
    // If it says what an undo is about to undo, how many lines the explanation had before that.
    lines: Option<usize>,
    // The breakpoint that halts the session, and its cut.
    halt: Option<(Name, Cut)>,
}

impl Before {
    /// Nothing is known. It does not allocate.
    pub fn new(alloc: Global) -> Before {
        Before {
            places: Vec::new(alloc),
            lines: None,
            halt: None,
        }
    }

    // Whether the session was halted by this breakpoint, at this cut.
    fn is_halt(&self, name: Name, cut: &Cut) -> bool {
        match &self.halt {
            Some((before, place)) => *before == name && *place == *cut,
            None => false,
        }
    }

    /// After the call, keeps what was said of an undo before it, or takes it off the explanation.
    pub fn settle(&mut self, notes: &mut Notes, is_kept: bool) {
        match self.lines.take() {
            Some(lines) if !is_kept => notes.truncate(lines),
            _ => {}
        }
    }
}

impl ExplainedSession<'_> {
    fn place_of(&self, pid: Pid) -> (u32, u32) {
        (
            self.view.session.world.place(pid),
            self.view.session.world.line_len(pid),
        )
    }

    // Says what the last event of a process did, if it has one.
    fn tell_last(&self, notes: &mut Notes, news: EventNews, pid: Pid) -> Result<(), AllocError> {
        self.view
            .tell_event(notes, news, pid, self.view.session.world.rows().len(pid))
    }

    // The breakpoint that halts the session, and its cut, if one does.
    fn present_halt(&self, alloc: Global) -> Result<Option<(Name, Cut)>, AllocError> {
        let Some(name) = self.view.session.book.halted() else {
            return Ok(None);
        };
        match self.view.cut_of(name) {
            Some(cut) => Ok(Some((name, Cut::new(Vec::from_slice(alloc, cut.counts())?)))),
            None => Ok(None),
        }
    }

    /// Notes what has to be known of a session before a call, to explain afterwards what the call did. Before an undo, says what the last
    /// event did.
    pub fn note_before(
        &self,
        notes: &mut Notes,
        before: &mut Before,
        call: &Call,
    ) -> Result<(), AllocError> {
        before.halt = self.present_halt(notes.alloc())?;
        match call {
            Call::Give(Plan::Step(_, _) | Plan::Next(_) | Plan::Redo(_)) => {}
            Call::Give(Plan::Undo(pid)) => {
                before.lines = Some(notes.count());
                self.tell_last(notes, EventNews::Undone, *pid)?;
            }
            Call::Give(Plan::Rollback(_, _) | Plan::Goto(_) | Plan::Batch(_)) | Call::Back => {
                before.places.clear();
                for p in 0..self.view.session.program.processes() {
                    before.places.push(self.place_of(Pid(p)))?;
                }
            }
            _ => before.places.clear(),
        }
        Ok(())
    }

    // Says how many events a process has now, and how many it can make again.
    fn tell_place(&self, notes: &mut Notes, pid: Pid, old_place: u32) -> Result<(), AllocError> {
        let (place, line) = self.place_of(pid);
        let scope = self.view.scope(pid);
        if place == old_place {
            notes.say_with("{}: {}", &[scope.name(), Part::Events(place)])?;
        } else {
            let back = if place < old_place { "back " } else { "" };
            notes.say_with(
                "{}: {}from {} to {}",
                &[
                    scope.name(),
                    Part::Text(back),
                    Part::Natural(old_place),
                    Part::Events(place),
                ],
            )?;
        }
        let redo = line.saturating_sub(place);
        if redo > 0 {
            notes.add_with(", {} to redo", &[Part::Natural(redo)])?;
        }
        Ok(())
    }

    // Says how a process's number of events, or its line, has changed, and what the events did that a batch made of it.
    fn tell_move(
        &self,
        notes: &mut Notes,
        pid: Pid,
        before: (u32, u32),
        call: &Call,
    ) -> Result<(), AllocError> {
        let (place, line) = self.place_of(pid);
        let first = made_from(call, pid, place);
        if first == place && (place, line) == before {
            return Ok(());
        }
        self.tell_place(notes, pid, before.0)?;
        for at in first..place {
            let number = (at as usize).saturating_add(1);
            self.view.tell_event(notes, EventNews::Made, pid, number)?;
        }
        Ok(())
    }

    fn tell_moves(
        &self,
        notes: &mut Notes,
        before: &Before,
        call: &Call,
    ) -> Result<(), AllocError> {
        for p in 0..self.view.session.program.processes() {
            if let Some(place) = before.places.get(p as usize) {
                self.tell_move(notes, Pid(p), *place, call)?;
            }
        }
        Ok(())
    }

    fn tell_done(
        &self,
        notes: &mut Notes,
        before: &Before,
        call: &Call,
        done: &Done,
    ) -> Result<(), AllocError> {
        match done {
            Done::Played(pid, _) => self.tell_last(notes, EventNews::Made, *pid),
            Done::Undone(_, _) => Ok(()),
            Done::Places(_) | Done::Plain => self.tell_moves(notes, before, call),
        }
    }

    // Says that a breakpoint halts the session. If it did so before, at the same cut, it does not show that again.
    fn tell_halted_by(
        &self,
        notes: &mut Notes,
        before: &Before,
        call: &Call,
        said: &Said,
        name: Name,
    ) -> Result<(), Refusal> {
        match self.view.cut_of(name) {
            Some(cut) if !before.is_halt(name, cut) => {
                self.tell_halt(notes, name, cut)?;
                Ok(self.tell_reply_again(notes, call, said)?)
            }
            _ => Ok(self.tell_same_halt(notes, name)?),
        }
    }

    // Shows the reply again, as the last line.
    fn tell_reply_again(
        &self,
        notes: &mut Notes,
        call: &Call,
        said: &Said,
    ) -> Result<(), AllocError> {
        let reply = named_reply(notes.alloc(), self.view.text, call, said)?;
        let line = reply.line.as_slice().trim_ascii_end();
        notes.say_with("{}", &[Part::Bytes(line)])
    }

    /// Says what an accepted command did.
    pub fn tell_reply(
        &self,
        notes: &mut Notes,
        before: &Before,
        call: &Call,
        said: &Said,
        reply: &Reply,
    ) -> Result<(), Refusal> {
        self.tell_done(notes, before, call, &reply.done)?;
        if let Call::Give(Plan::Break(name, _)) = call {
            if reply.halted != Some(*name) {
                self.view.tell_breakpoint(notes, *name)?;
            }
        }
        match reply.halted {
            Some(name) => self.tell_halted_by(notes, before, call, said, name),
            None => Ok(()),
        }
    }
}
