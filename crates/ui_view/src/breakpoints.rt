//! What a breakpoint asks for, and how a session continues after it halted.

use crate::view::SourceView;
use crate::wrapping::Wrapping;
use dbg_base::{Cut, Expr, Head, Name, Pid, Refusal};
use least_cut::Detector;
use proc_tree::Program;
use std::alloc::{AllocError, Global};
use ui_text::{Notes, Part};

/// The part of a breakpoint's predicate that this process has.
pub fn part_of<'a>(detector: &'a Detector, program: &Program, pid: Pid) -> Option<&'a Expr> {
    for at in 0..program.processes() {
        let (found, expr) = detector.conjunct(at as usize)?;
        if found == pid {
            return Some(expr);
        }
    }
    None
}

impl<'a> SourceView<'a> {
    /// The search of a breakpoint, if there is one of this name.
    pub fn detector_of(&self, name: Name) -> Option<&'a Detector> {
        let (_, breakpoint) = self.session.book.find(name)?;
        Some(breakpoint.detector())
    }

    /// Appends the name of a breakpoint and its conjuncts to the last line.
    pub fn put_predicate(
        &self,
        notes: &mut Notes,
        name: Name,
        detector: &Detector,
    ) -> Result<(), AllocError> {
        notes.add_with("{}: ", &[self.breakpoint(name)])?;
        let mut word = "";
        for at in 0..self.session.program.processes() {
            let Some((pid, expr)) = detector.conjunct(at as usize) else {
                break;
            };
            let scope = self.scope(pid);
            notes.add_with("{}{} ", &[Part::Text(word), scope.name()])?;
            scope.put_expression(notes, expr)?;
            word = " and ";
        }
        Ok(())
    }

    // Lines of words of which further ones begin with two blanks.
    fn wrapping(&self) -> Wrapping {
        Wrapping {
            width: self.width,
            column: 2,
        }
    }

    // Says how many events of each process a cut has.
    fn tell_cut(&self, notes: &mut Notes, cut: &Cut) -> Result<(), AllocError> {
        let mut words = Notes::new(notes.alloc());
        words.say("it holds first after these events:")?;
        let mut word = " ";
        for p in 0..self.session.program.processes() {
            let count = Part::Natural(cut.count(Pid(p)));
            let name = self.scope(Pid(p)).name();
            words.add_with("{}{} of {}", &[Part::Text(word), count, name])?;
            word = ", ";
        }
        notes.say("")?;
        self.wrapping().put(notes, words.line(0).bytes)
    }

    /// Says that the part of a process does not hold yet, and which values make it false. It is false in the present state of the process,
    /// since that state was ruled out, and no later event can rule it out for another reason.
    pub fn tell_not_yet(
        &self,
        notes: &mut Notes,
        detector: &Detector,
        pid: Pid,
    ) -> Result<(), AllocError> {
        let scope = self.scope(pid);
        notes.say_with("not yet in {}", &[scope.name()])?;
        match (
            part_of(detector, self.session.program, pid),
            self.session.world.local_state(pid),
        ) {
            (Some(part), Some(env)) => {
                notes.add(": ")?;
                scope.put_false(notes, env, part)
            }
            _ => Ok(()),
        }
    }

    /// The processes that have too few events: all of their states were ruled out.
    pub fn past_processes(&self, alloc: Global, detector: &Detector) -> Result<Vec<Pid>, Refusal> {
        let heads = detector.frontier(alloc)?;
        let mut pids = Vec::new(alloc);
        for p in 0..self.session.program.processes() {
            if let Some(Head::Past) = heads.items().get(p as usize) {
                pids.push(Pid(p))?;
            }
        }
        Ok(pids)
    }

    /// Says what a breakpoint's predicate is, and what its cut is, or which parts do not hold yet.
    pub fn tell_breakpoint(&self, notes: &mut Notes, name: Name) -> Result<(), Refusal> {
        let Some(detector) = self.detector_of(name) else {
            return Ok(());
        };
        let mut words = Notes::new(notes.alloc());
        words.say("")?;
        self.put_predicate(&mut words, name, detector)?;
        notes.say("")?;
        self.wrapping().put(notes, words.line(0).bytes)?;
        if let Some(cut) = detector.cut() {
            return Ok(self.tell_cut(notes, cut)?);
        }
        for pid in &self.past_processes(notes.alloc(), detector)? {
            self.tell_not_yet(notes, detector, *pid)?;
        }
        Ok(())
    }

    /// The cut of a breakpoint, if it has one.
    pub fn cut_of(&self, name: Name) -> Option<&'a Cut> {
        self.detector_of(name)?.cut()
    }

    // Whether a process has events that are not in a cut.
    fn is_beyond(&self, cut: &Cut) -> bool {
        let mut is_beyond = false;
        for p in 0..self.session.program.processes() {
            let pid = Pid(p);
            is_beyond = is_beyond || cut.count(pid) < self.session.world.place(pid);
        }
        is_beyond
    }

    /// Another armed breakpoint that has a cut, so it halts the session after `pass`.
    pub fn next_halting(&self, alloc: Global, halting: Name) -> Result<Option<Name>, Refusal> {
        for (name, is_armed) in self.session.book.list(alloc)?.items() {
            if *is_armed && *name != halting && self.cut_of(*name).is_some() {
                return Ok(Some(*name));
            }
        }
        Ok(None)
    }

    /// Says how the session continues after a halt.
    pub fn tell_continuing(&self, notes: &mut Notes, halting: Name) -> Result<(), Refusal> {
        notes.say_with("`pass {}", &[self.breakpoint(halting)])?;
        match self.next_halting(notes.alloc(), halting)? {
            Some(next) => notes.add_with(
                "` disarms it, and then the breakpoint {} halts the session",
                &[self.breakpoint(next)],
            )?,
            None => notes.add("` lets the session continue")?,
        }
        notes.say("")?;
        if self.cut_of(halting).is_some_and(|cut| self.is_beyond(cut)) {
            notes.add_with(
                "`goto {}` undoes the events that are not in its cut; ",
                &[self.breakpoint(halting)],
            )?;
        }
        notes.add("`undo`, `rollback` and `back` undo what led there")?;
        Ok(())
    }
}
