//! Sentences about the events before and after an event.

use crate::chains::Chains;
use crate::event_words::{put_place, put_range, shown_message};
use crate::messages::Hop;
use crate::past::{EventPlace, causal_past, first_after};
use crate::rows::{Rows, new_words};
use crate::undoing::{UndoCommand, find_undoing};
use dbg_base::{Cut, Pid, Refusal};
use std::alloc::AllocError;
use ui_text::{Notes, Part};
use ui_view::SourceView;

// Ranges of events, one after the other in a row.
#[derive(Clone, Copy)]
struct Ranges<'a> {
    view: SourceView<'a>,
    rows: Rows,
    mark: &'static str,
}

impl Ranges<'_> {
    // Appends the events of a process from one number to another, if there are any.
    fn put(&mut self, notes: &mut Notes, pid: Pid, from: u32, to: u32) -> Result<(), AllocError> {
        if from > to {
            return Ok(());
        }
        let mut words = new_words(notes)?;
        put_range(&mut words, self.view, pid, from, to)?;
        self.rows.put(notes, self.mark, &words)?;
        self.mark = ",";
        Ok(())
    }
}

/// An event in a session, of which sentences are made.
#[derive(Clone, Copy)]
pub(crate) struct EventView<'a> {
    pub(crate) view: SourceView<'a>,
    pub(crate) rows: Rows,
    pub(crate) event: EventPlace,
}

impl<'a> EventView<'a> {
    // How many events of a process happened before the event.
    fn earlier(&self, past: &Cut, pid: Pid) -> u32 {
        let own = u32::from(pid == self.event.pid);
        past.count(pid).saturating_sub(own)
    }

    // No ranges.
    fn ranges(&self) -> Ranges<'a> {
        Ranges {
            view: self.view,
            rows: self.rows,
            mark: "",
        }
    }

    // Says how many events of each process happened before the event.
    fn tell_before(&self, notes: &mut Notes, past: &Cut) -> Result<(), AllocError> {
        let (mut sum, mut all) = (0u32, 0u32);
        self.rows.begin(notes, "comes after", &[])?;
        for p in 0..self.view.session.program.processes() {
            let count = self.earlier(past, Pid(p));
            all = all.saturating_add(self.view.session.world.place(Pid(p)));
            if count > 0 {
                let mut words = new_words(notes)?;
                let name = self.view.scope(Pid(p)).name();
                words.add_with("{} of {}", &[Part::Natural(count), name])?;
                let mark = if sum == 0 { "" } else { "," };
                self.rows.put(notes, mark, &words)?;
            }
            sum = sum.saturating_add(count);
        }
        let others = Part::Natural(all.saturating_sub(1));
        let mut words = new_words(notes)?;
        if sum == 0 {
            words.add_with("none of {} others", &[others])?;
            return self.rows.put(notes, "", &words);
        }
        words.add_with("{} of {} others", &[Part::Natural(sum), others])?;
        self.rows.put(notes, ":", &words)
    }

    // Says which events happened after the event.
    fn tell_after(&self, notes: &mut Notes) -> Result<(), AllocError> {
        let world = self.view.session.world;
        let mut ranges = self.ranges();
        self.rows.begin(notes, "led to", &[])?;
        for p in 0..self.view.session.program.processes() {
            let own = u32::from(Pid(p) == self.event.pid);
            let first = first_after(world, self.event, Pid(p)).saturating_add(own);
            ranges.put(notes, Pid(p), first, world.place(Pid(p)))?;
        }
        if ranges.mark.is_empty() {
            notes.add("no event")?;
        }
        Ok(())
    }

    // Says which events happened neither before the event nor after it, if there are any.
    fn tell_others(&self, notes: &mut Notes, past: &Cut) -> Result<(), AllocError> {
        let world = self.view.session.world;
        let mut ranges = self.ranges();
        for p in 0..self.view.session.program.processes() {
            let from = past.count(Pid(p)).saturating_add(1);
            let to = first_after(world, self.event, Pid(p)).saturating_sub(1);
            if ranges.mark.is_empty() && from <= to {
                self.rows.begin(notes, "concurrent", &[])?;
            }
            ranges.put(notes, Pid(p), from, to)?;
        }
        Ok(())
    }

    // Appends a message of a chain: its value, its recipient, and up to which event that is followed.
    fn put_hop(&self, notes: &mut Notes, hop: Hop, until: u32) -> Result<(), AllocError> {
        let mut words = new_words(notes)?;
        words.add_with("-{}-> ", &[shown_message(self.view, hop)])?;
        put_place(&mut words, self.view, hop.receiver)?;
        if until > hop.receiver.number {
            words.add_with(" .. {}", &[Part::Natural(until)])?;
        }
        self.rows.put(notes, "", &words)
    }

    // Says by which messages a process led to the event, if it did.
    fn tell_chain(&self, notes: &mut Notes, chains: &Chains, pid: Pid) -> Result<(), AllocError> {
        let world = self.view.session.world;
        let hops = chains.from(notes.alloc(), world, self.event, pid)?;
        let Some(first) = hops.first() else {
            return Ok(());
        };
        self.rows
            .begin(notes, "from {}", &[self.view.scope(pid).name()])?;
        let mut words = new_words(notes)?;
        put_place(&mut words, self.view, first.sender)?;
        self.rows.put(notes, "", &words)?;
        for at in 0..hops.len() {
            let until = match hops.get(at.saturating_add(1)) {
                Some(next) => next.sender.number,
                None => self.event.number,
            };
            if let Some(hop) = hops.get(at) {
                self.put_hop(notes, *hop, until)?;
            }
        }
        Ok(())
    }

    // Says by which messages other processes led to the event.
    fn tell_chains(&self, notes: &mut Notes) -> Result<(), AllocError> {
        let processes = self.view.session.program.processes();
        let world = self.view.session.world;
        let chains = Chains::to(notes.alloc(), world, processes, self.event)?;
        for p in 0..processes {
            self.tell_chain(notes, &chains, Pid(p))?;
        }
        Ok(())
    }

    // Says which command undoes the event, and what it undoes besides.
    fn tell_undo(&self, notes: &mut Notes) -> Result<(), Refusal> {
        let world = self.view.session.world;
        let Some(undoing) = find_undoing(notes.alloc(), world, self.event)? else {
            return Ok(());
        };
        let name = self.view.scope(self.event.pid).name();
        self.rows.begin(notes, "to undo it", &[])?;
        match undoing.command {
            UndoCommand::Undo => {
                notes.add_with("`undo {}`: ", &[name])?;
                put_place(notes, self.view, self.event)?;
                return Ok(notes.add(" alone")?);
            }
            UndoCommand::Rollback(count) => {
                notes.add_with("`rollback {} {}`: with", &[name, Part::Natural(count)])?;
            }
        }
        let mut ranges = self.ranges();
        for p in 0..self.view.session.program.processes() {
            let own = u32::from(Pid(p) == self.event.pid);
            let first = undoing
                .left
                .count(Pid(p))
                .saturating_add(1)
                .saturating_add(own);
            ranges.put(notes, Pid(p), first, world.place(Pid(p)))?;
        }
        Ok(())
    }

    /// Says which events happened before the event and after it, by which messages, and what an undo costs.
    pub(crate) fn tell_neighbours(&self, notes: &mut Notes) -> Result<(), Refusal> {
        let world = self.view.session.world;
        let Some(past) = causal_past(notes.alloc(), world, self.event)? else {
            return Ok(());
        };
        self.tell_before(notes, &past)?;
        self.tell_after(notes)?;
        self.tell_others(notes, &past)?;
        self.tell_chains(notes)?;
        self.tell_undo(notes)
    }
}
