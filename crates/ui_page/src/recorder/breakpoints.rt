//! Changes of the breakpoints, of their searches, and of which breakpoint halts, as JSON.

use crate::list::List;
use crate::recorder::trail::Trail;
use break_book::{Book, Breakpoint};
use causal_world::World;
use dbg_base::{Cause, Elimination, Expr, Name, Pid, Refusal};
use proc_tree::Program;
use std::alloc::{AllocError, Global};
use ui_text::Notes;
use ui_view::{BreakpointChange, ProcessView, SourceView};

// What the page was last given about a breakpoint: its mark, the eliminations of its search that are still valid, and how many of them the
// page has.
#[derive(Drop)]
struct ShownBreakpoint {
    name: Name,
    is_armed: bool,
    trail: Trail,
    known: usize,
}

/// What the page was last given about the breakpoints of a session, in their order, and about the places of its processes.
#[derive(Drop)]
pub(super) struct Breakpoints {
    alloc: Global,
    reported: Vec<ShownBreakpoint>,
    places: Vec<u32>,
    halted: Option<Name>,
}

// How the search of the breakpoint at a position has changed: how many of the eliminations that the page has are gone, the last ones, and
// which follow.
#[derive(Clone, Copy)]
struct SearchChange<'a> {
    at: usize,
    dropped: usize,
    more: &'a [Elimination],
}

impl SearchChange<'_> {
    // Whether another search has changed in the same way.
    fn is_like(&self, other: &SearchChange<'_>) -> bool {
        self.dropped == other.dropped && self.more == other.more
    }
}

impl List {
    // A conjunct of a breakpoint: its process, and its expression as text, with numbers, and then as it is shown, if that is another text.
    fn conjunct(
        &mut self,
        alloc: Global,
        scope: ProcessView<'_>,
        expr: &Expr,
    ) -> Result<(), AllocError> {
        let mut words = Notes::new(alloc);
        words.say("")?;
        scope.with_numbers().put_expression(&mut words, expr)?;
        words.say("")?;
        scope.put_expression(&mut words, expr)?;
        let (text, shown) = (words.line(0).bytes, words.line(1).bytes);
        let mut conjunct = self.another();
        conjunct.number(i64::from(scope.pid.0))?;
        conjunct.text(text)?;
        if shown != text {
            conjunct.text(shown)?;
        }
        self.list(conjunct)
    }

    // The conjuncts of a breakpoint.
    fn conjuncts(
        &mut self,
        alloc: Global,
        view: SourceView<'_>,
        breakpoint: &Breakpoint,
    ) -> Result<(), AllocError> {
        let mut conjuncts = self.another();
        for at in 0..view.session.program.processes() {
            if let Some((pid, expr)) = breakpoint.detector().conjunct(at as usize) {
                conjuncts.conjunct(alloc, view.scope(pid), expr)?;
            }
        }
        self.list(conjuncts)
    }

    // An elimination, as further numbers: its process p, and the count to which the candidate advances. If the elimination is because of a
    // clock, -1 - p is in place of p, and the process of that clock and its event follow.
    fn elimination(&mut self, elimination: &Elimination) -> Result<(), AllocError> {
        let pid = i64::from(elimination.pid.0);
        let to = i64::from(elimination.to);
        match elimination.cause {
            Cause::FalseAt => {
                self.number(pid)?;
                self.number(to)
            }
            Cause::Passed(by, event) => {
                self.number((-1i64).saturating_sub(pid))?;
                self.number(to)?;
                self.number(i64::from(by.0))?;
                self.number(i64::from(event))
            }
        }
    }

    // The positions of the searches that have changed like this one: of each row of neighbours the first one, and how many they are.
    fn positions(
        &mut self,
        change: &SearchChange<'_>,
        changes: &[SearchChange<'_>],
    ) -> Result<(), AllocError> {
        let mut positions = self.another();
        let (mut first, mut count) = (change.at, 0usize);
        for other in changes.iter().filter(|other| other.is_like(change)) {
            if other.at != first.saturating_add(count) {
                positions.count(first)?;
                positions.count(count)?;
                (first, count) = (other.at, 0);
            }
            count = count.saturating_add(1);
        }
        positions.count(first)?;
        positions.count(count)?;
        self.list(positions)
    }

    // How searches have changed. Those that have changed in the same way have one item: their positions, how many eliminations are gone, and
    // which follow.
    fn searches(&mut self, changes: &[SearchChange<'_>]) -> Result<(), AllocError> {
        let mut searches = self.another();
        for (number, change) in changes.iter().enumerate() {
            let mut earlier = changes.iter().take(number);
            if !earlier.any(|other| other.is_like(change)) {
                let mut search = self.another();
                search.positions(change, changes)?;
                search.count(change.dropped)?;
                for elimination in change.more {
                    search.elimination(elimination)?;
                }
                searches.list(search)?;
            }
        }
        self.list(searches)
    }
}

impl ShownBreakpoint {
    // How the search of the breakpoint has changed since the page was last given it, if it has. The page is given this.
    fn search_change<'a>(
        &mut self,
        at: usize,
        steps: &'a [Elimination],
        change: BreakpointChange,
    ) -> Result<Option<SearchChange<'a>>, AllocError> {
        if change != BreakpointChange::Followed || !self.trail.is_first_of(steps) {
            let common = self.trail.common(steps);
            self.trail.truncate(common);
        }
        let dropped = self.known.saturating_sub(self.trail.len());
        let more = steps.get(self.trail.len()..).unwrap_or(&[]);
        self.trail.extend(more)?;
        self.known = self.trail.len();
        let is_same = dropped == 0 && more.is_empty();
        Ok((!is_same).then_some(SearchChange { at, dropped, more }))
    }
}

impl Breakpoints {
    pub(super) fn new(alloc: Global) -> Breakpoints {
        Breakpoints {
            alloc,
            reported: Vec::new(alloc),
            places: Vec::new(alloc),
            halted: None,
        }
    }

    // Whether the page already has these breakpoints and marks.
    fn are_reported(&self, marks: &[(Name, bool)]) -> bool {
        marks.len() == self.reported.len()
            && marks.iter().zip(&self.reported).all(|(mark, reported)| mark.0 == reported.name
                && mark.1 == reported.is_armed)
    }

    // Removes and returns what the page was last given about a breakpoint.
    fn take(&mut self, name: Name) -> Option<ShownBreakpoint> {
        let at = self
            .reported
            .iter()
            .position(|reported| reported.name == name)?;
        Some(self.reported.swap_remove(at))
    }

    // Writes a breakpoint's name and mark, and its conjuncts if the breakpoint is new.
    fn put_mark(
        &mut self,
        marks: &mut List,
        view: SourceView<'_>,
        (name, is_armed): (Name, bool),
        breakpoint: &Breakpoint,
    ) -> Result<ShownBreakpoint, AllocError> {
        let mut mark = marks.another();
        mark.breakpoint(view, Some(name))?;
        mark.count(usize::from(is_armed))?;
        let reported = match self.take(name) {
            Some(reported) => ShownBreakpoint {
                is_armed,
                ..reported
            },
            None => {
                mark.conjuncts(self.alloc, view, breakpoint)?;
                ShownBreakpoint {
                    name,
                    is_armed,
                    trail: Trail::new(self.alloc, view.session.program.processes())?,
                    known: 0,
                }
            }
        };
        marks.list(mark)?;
        Ok(reported)
    }

    // Writes which breakpoints there are, with their marks.
    fn put_marks(
        &mut self,
        operations: &mut List,
        view: SourceView<'_>,
        marks: &[(Name, bool)],
    ) -> Result<(), AllocError> {
        let mut reported = Vec::new(self.alloc);
        let mut list = operations.another();
        for mark in marks {
            if let Some((_, breakpoint)) = view.session.book.find(mark.0) {
                reported.push(self.put_mark(&mut list, view, *mark, breakpoint)?)?;
            }
        }
        self.reported = reported;
        let mut operation = operations.another_of("m")?;
        operation.list(list)?;
        operations.list(operation)
    }

    // Notes the place of a process, and drops the eliminations that depend on undone events.
    fn note_place(&mut self, world: &World, pid: Pid) -> Result<(), AllocError> {
        let place = world.place(pid);
        match self.places.get_mut(pid.0 as usize) {
            Some(noted) => {
                if place < *noted {
                    for reported in &mut self.reported {
                        reported.trail.drop_to(pid, place);
                    }
                }
                *noted = place;
                Ok(())
            }
            None => Ok(self.places.push(place)?),
        }
    }

    fn note_places(&mut self, program: &Program, world: &World) -> Result<(), AllocError> {
        for p in 0..program.processes() {
            self.note_place(world, Pid(p))?;
        }
        Ok(())
    }

    // Writes how the searches have changed.
    fn put_searches(
        &mut self,
        operations: &mut List,
        book: &Book,
        change: BreakpointChange,
    ) -> Result<(), AllocError> {
        let mut changes = Vec::new(self.alloc);
        for (at, reported) in self.reported.iter_mut().enumerate() {
            if let Some((_, breakpoint)) = book.find(reported.name) {
                let steps = breakpoint.detector().why();
                if let Some(changed) = reported.search_change(at, steps, change)? {
                    changes.push(changed)?;
                }
            }
        }
        if changes.is_empty() {
            return Ok(());
        }
        let mut operation = operations.another_of("c")?;
        operation.searches(changes.as_slice())?;
        operations.list(operation)
    }

    fn put_halted(
        &mut self,
        operations: &mut List,
        view: SourceView<'_>,
    ) -> Result<(), AllocError> {
        let halted = view.session.book.halted();
        if halted == self.halted {
            return Ok(());
        }
        self.halted = halted;
        let mut operation = operations.another_of("h")?;
        operation.breakpoint(view, halted)?;
        operations.list(operation)
    }

    /// Writes what has changed of the breakpoints, as operations.
    pub(super) fn put_changes(
        &mut self,
        operations: &mut List,
        view: SourceView<'_>,
        change: BreakpointChange,
    ) -> Result<(), Refusal> {
        let book = view.session.book;
        self.note_places(view.session.program, view.session.world)?;
        let marks = book.list(self.alloc)?;
        let are_new = change == BreakpointChange::Replaced && !self.reported.is_empty();
        if are_new {
            self.reported.clear();
        }
        if are_new || !self.are_reported(marks.items()) {
            self.put_marks(operations, view, marks.items())?;
        }
        self.put_searches(operations, book, change)?;
        Ok(self.put_halted(operations, view)?)
    }
}
