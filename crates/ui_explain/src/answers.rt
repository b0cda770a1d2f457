//! Explanations of the answers to queries.

use crate::explained::ExplainedSession;
use dbg_base::{Call, Cause, Choice, Elimination, Name, Pid, Query, Refusal};
use least_cut::Detector;
use std::alloc::{AllocError, Global};
use ui_halt::last_true;
use ui_text::{Notes, Part};
use ui_view::part_of;

// What a search has ruled out of the states of one process.
#[derive(Clone, Copy)]
struct RuledOut {
    // In how many states the part of the process is false, and the number of events before the last of them.
    false_states: usize,
    last_false: u32,
    // The last state that another process depends on, by its number of events, with that process and its event.
    needed: Option<Needed>,
}

// So many events of a process are needed, because an event of another process depends on the last of them.
#[derive(Clone, Copy)]
struct Needed {
    events: u32,
    by: Pid,
    event: u32,
}

impl RuledOut {
    // Nothing.
    fn new() -> RuledOut {
        RuledOut {
            false_states: 0,
            last_false: 0,
            needed: None,
        }
    }

    // Notes the next elimination of the process.
    fn note(&mut self, elimination: &Elimination) {
        match elimination.cause {
            Cause::FalseAt => {
                self.false_states = self.false_states.saturating_add(1);
                self.last_false = elimination.from;
            }
            Cause::Passed(by, event) => {
                let events = elimination.to;
                self.needed = Some(Needed { events, by, event });
            }
        }
    }
}

// What was ruled out of the states of each process: a row for each of them.
fn ruled_out(
    alloc: Global,
    trail: &[Elimination],
    processes: u32,
) -> Result<Vec<RuledOut>, AllocError> {
    let mut rows = vec![in alloc; RuledOut::new(); processes as usize]?;
    for elimination in trail {
        if let Some(row) = rows.get_mut(elimination.pid.0 as usize) {
            row.note(elimination);
        }
    }
    Ok(rows)
}

impl ExplainedSession<'_> {
    // Says in which states of a process its part is false.
    fn tell_false(
        &self,
        notes: &mut Notes,
        pid: Pid,
        states: usize,
        last: u32,
    ) -> Result<(), AllocError> {
        let scope = self.view.scope(pid);
        if states == 1 {
            let parts = [scope.name(), Part::Events(last)];
            return notes.say_with("{}: its part is false after {}", &parts);
        }
        notes.say_with(
            "{}: its part is false in {} states that were looked at, the last of them after {}",
            &[scope.name(), Part::Count(states), Part::Events(last)],
        )
    }

    // Says how many events of a process are needed, and for which event of another one.
    fn tell_needed(&self, notes: &mut Notes, pid: Pid, needed: Needed) -> Result<(), AllocError> {
        let scope = self.view.scope(pid);
        notes.say_with(
            "{}: at least {}, since event {} of {} depends on its event {}",
            &[
                scope.name(),
                Part::Events(needed.events),
                Part::Natural(needed.event),
                scope.process(needed.by),
                Part::Natural(needed.events),
            ],
        )
    }

    // Says what was ruled out of the states of all processes.
    fn tell_ruled_out(&self, notes: &mut Notes, rows: &[RuledOut]) -> Result<(), AllocError> {
        for p in 0..self.view.session.program.processes() {
            let Some(row) = rows.get(p as usize) else {
                break;
            };
            if row.false_states > 0 {
                self.tell_false(notes, Pid(p), row.false_states, row.last_false)?;
            }
            if let Some(needed) = row.needed {
                self.tell_needed(notes, Pid(p), needed)?;
            }
        }
        Ok(())
    }

    // Says why the part of a process does not hold yet, and which of its commands can fire now.
    fn tell_further(
        &self,
        notes: &mut Notes,
        detector: &Detector,
        pid: Pid,
    ) -> Result<(), Refusal> {
        let scope = self.view.scope(pid);
        let mut fires = false;
        self.view.tell_not_yet(notes, detector, pid)?;
        for number in 0..self.view.session.program.commands(pid) {
            if scope.fires(notes.alloc(), self.view.session.world, Choice(number))? {
                let word = if fires { ", " } else { "; it can now fire " };
                notes.add(word)?;
                scope.put_command(notes, Choice(number))?;
                fires = true;
            }
        }
        if fires {
            return Ok(());
        }
        Ok(notes.add("; none of its commands can fire now")?)
    }

    // Says that the part of a process held too early, if it did: before what an event of another process depends on.
    fn tell_cause(
        &self,
        notes: &mut Notes,
        detector: &Detector,
        pid: Pid,
        row: Option<&RuledOut>,
    ) -> Result<(), AllocError> {
        let (Some(part), Some(needed)) = (
            part_of(detector, self.view.session.program, pid),
            row.and_then(|row| row.needed),
        ) else {
            return Ok(());
        };
        let rows = self.view.session.world.rows();
        let truths = rows.truths(notes.alloc(), pid, part)?;
        let Some(held) = last_true(truths.items(), needed.events) else {
            return Ok(());
        };
        let scope = self.view.scope(pid);
        notes.say_with(
            "the part of {} held last after {}, but event {} of {} depends on event {} of {}",
            &[
                scope.name(),
                Part::Events(held),
                Part::Natural(needed.event),
                scope.process(needed.by),
                Part::Natural(needed.events),
                scope.name(),
            ],
        )
    }

    /// Explains the answer to a query. For `why`, says how the search for the cut went, which parts do not hold yet, which commands of
    /// these processes can fire now, and which parts held too early. For `breaks`, shows the predicates. For `can`, says what prevents the
    /// undo.
    pub fn tell_answer(&self, notes: &mut Notes, call: &Call) -> Result<(), Refusal> {
        match call {
            Call::Ask(Query::Why(name)) => self.tell_search(notes, *name),
            Call::Ask(Query::CutOf(name)) => Ok(self.tell_cut_of(notes, *name)?),
            Call::Ask(Query::Breaks) => self.tell_all_breakpoints(notes),
            Call::Ask(Query::Can(pid)) if pid.0 < self.view.session.program.processes() => {
                match self.view.session.world.can_undo(*pid) {
                    Err(Refusal::Consequence(receiver)) => {
                        Ok(self.view.tell_consequence(notes, *pid, receiver)?)
                    }
                    _ => Ok(()),
                }
            }
            _ => Ok(()),
        }
    }

    // Says how the search for a breakpoint's cut went.
    fn tell_search(&self, notes: &mut Notes, name: Name) -> Result<(), Refusal> {
        let Some(detector) = self.view.detector_of(name) else {
            return Ok(());
        };
        let rows = ruled_out(
            notes.alloc(),
            detector.why(),
            self.view.session.program.processes(),
        )?;
        self.tell_ruled_out(notes, rows.as_slice())?;
        if let Some(cut) = detector.cut() {
            notes.say("what is left is the earliest state:")?;
            return Ok(self.tell_cut_state(notes, detector, cut)?);
        }
        let past = self.view.past_processes(notes.alloc(), detector)?;
        for pid in &past {
            self.tell_further(notes, detector, *pid)?;
        }
        for pid in &past {
            self.tell_cause(notes, detector, *pid, rows.get(pid.0 as usize))?;
        }
        Ok(())
    }
}
