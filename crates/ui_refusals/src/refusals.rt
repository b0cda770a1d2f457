//! Why a call is refused, and what the person can do.

use crate::refusing::RefusingSession;
use dbg_base::{Call, Choice, Name, Pid, Plan, Query, Refusal};
use std::alloc::{AllocError, Global};
use ui_text::{Notes, Part, meaning};

// The process that a command names.
fn process_of(plan: &Plan) -> Option<Pid> {
    match plan {
        Plan::Step(pid, _)
        | Plan::Next(pid)
        | Plan::Undo(pid)
        | Plan::Redo(pid)
        | Plan::Rollback(pid, _) => Some(*pid),
        _ => None,
    }
}

// The breakpoint that a command names.
fn breakpoint_of(plan: &Plan) -> Option<Name> {
    match plan {
        Plan::Goto(name)
        | Plan::Break(name, _)
        | Plan::Clear(name)
        | Plan::Arm(name)
        | Plan::Pass(name) => Some(*name),
        _ => None,
    }
}

// What the person can do after a refusal that names nothing and does not depend on the command.
fn remedy_of(refusal: &Refusal) -> Option<&'static str> {
    match refusal {
        Refusal::NothingBack => Some(
            "every accepted command is already taken back; queries and refused lines leave nothing to take back",
        ),
        Refusal::ProcessFull => Some("`undo`, `rollback` and `goto` make room for new events"),
        Refusal::BreaksFull => Some("`clear B` removes one of them"),
        Refusal::JournalFull => Some(
            "a new session can begin with the lines that lead here, without those that were taken back",
        ),
        Refusal::Memory => Some(
            "the session is as it was before the line; `clear` and `back` may free memory",
        ),
        _ => None,
    }
}

impl RefusingSession<'_> {
    // The command of the program that would be made.
    fn choice_of(&self, plan: &Plan) -> Option<Choice> {
        match plan {
            Plan::Step(_, choice) => Some(*choice),
            Plan::Redo(pid) => self
                .view
                .session
                .world
                .choice(*pid, self.view.session.world.place(*pid)),
            _ => None,
        }
    }

    fn tell_commands(&self, notes: &mut Notes, pid: Pid) -> Result<(), AllocError> {
        let count = self.view.session.program.commands(pid);
        let name = self.view.scope(pid).name();
        match count.checked_sub(1) {
            None => notes.say_with("{} has no command", &[name]),
            Some(0) => notes.say_with("{} has only command 0", &[name]),
            Some(last) => {
                let last = Part::Natural(last);
                notes.say_with("{} has commands 0 to {}", &[name, last])
            }
        }
    }

    // Says which breakpoints exist.
    fn tell_breakpoints(&self, notes: &mut Notes) -> Result<(), Refusal> {
        let marks = self.view.session.book.list(notes.alloc())?;
        if marks.items().is_empty() {
            return Ok(notes.say("no breakpoint is set")?);
        }
        let mut word = match marks.items().len() {
            1 => "the only breakpoint is ",
            _ => "the breakpoints are ",
        };
        notes.say("")?;
        for (name, _) in marks.items() {
            notes.add_with("{}{}", &[Part::Text(word), self.view.breakpoint(*name)])?;
            word = ", ";
        }
        Ok(())
    }

    // Says what prevents a command: of a guard that is false, which of its parts hold.
    fn tell_prevention(
        &self,
        notes: &mut Notes,
        pid: Pid,
        choice: Choice,
        refusal: &Refusal,
    ) -> Result<(), Refusal> {
        let is_told = match refusal {
            Refusal::GuardFalse => self.tell_false_guard(notes, pid, choice)?,
            _ => false,
        };
        if is_told {
            return Ok(());
        }
        let scope = self.view.scope(pid);
        scope.tell_hindrance(notes, self.view.session.world, choice)
    }

    fn tell_of_process(
        &self,
        notes: &mut Notes,
        plan: &Plan,
        pid: Pid,
        refusal: &Refusal,
    ) -> Result<(), Refusal> {
        let scope = self.view.scope(pid);
        match refusal {
            Refusal::UnknownChoice => self.tell_commands(notes, pid)?,
            Refusal::GuardFalse | Refusal::Fault | Refusal::ChannelEmpty => {
                if let Some(choice) = self.choice_of(plan) {
                    self.tell_prevention(notes, pid, choice, refusal)?;
                }
            }
            Refusal::NoneEnabled => scope.tell_hindrances(notes, self.view.session.world)?,
            Refusal::NothingToUndo => notes.say_with("{} is at its start", &[scope.name()])?,
            Refusal::Consequence(receiver) => self.view.tell_consequence(notes, pid, *receiver)?,
            Refusal::NothingToRedo => notes.say_with(
                "{}'s redo list is empty; `next` and `step` make new events",
                &[scope.name()],
            )?,
            Refusal::BadPlace => {
                notes.say_with(
                    "{} has {}",
                    &[
                        scope.name(),
                        Part::Events(self.view.session.world.place(pid)),
                    ],
                )?;
            }
            _ => {}
        }
        Ok(())
    }

    fn tell_of_breakpoint(
        &self,
        notes: &mut Notes,
        name: Name,
        refusal: &Refusal,
    ) -> Result<(), Refusal> {
        match refusal {
            Refusal::UnknownBreak => self.tell_breakpoints(notes),
            Refusal::BreakTaken | Refusal::NoCut => self.view.tell_breakpoint(notes, name),
            Refusal::NotArmed => {
                Ok(notes.say_with("`arm {}` arms it", &[self.view.breakpoint(name)])?)
            }
            Refusal::AlreadyArmed if self.view.cut_of(name).is_some() => {
                self.view.tell_continuing(notes, name)
            }
            _ => Ok(()),
        }
    }

    /// Says why a command is refused in the present state, and what the person can do.
    pub(crate) fn tell_reason(
        &self,
        notes: &mut Notes,
        plan: &Plan,
        refusal: &Refusal,
    ) -> Result<(), Refusal> {
        if let Some(pid) = process_of(plan) {
            self.tell_of_process(notes, plan, pid, refusal)?;
        }
        if let Some(name) = breakpoint_of(plan) {
            self.tell_of_breakpoint(notes, name, refusal)?;
        }
        Ok(())
    }

    // Says why a command is refused. Of a batch, says which of its commands is.
    fn tell_of_plan(
        &self,
        notes: &mut Notes,
        plan: &Plan,
        refusal: &Refusal,
    ) -> Result<(), Refusal> {
        match refusal {
            Refusal::InBatch { at, number } => match plan {
                Plan::Batch(plans) => { self.tell_in_batch(notes, plans.as_slice(), *at, *number) }
                _ => Ok(()),
            },
            _ => self.tell_reason(notes, plan, refusal),
        }
    }

    // Says why a question is refused.
    fn tell_of_query(
        &self,
        notes: &mut Notes,
        query: &Query,
        refusal: &Refusal,
    ) -> Result<(), Refusal> {
        match query {
            Query::CutOf(name) | Query::Why(name) => {
                self.tell_of_breakpoint(notes, *name, refusal)
            }
            _ => Ok(()),
        }
    }

    // Says what the person can do after a refusal that does not depend on the command.
    pub(crate) fn tell_remedy(&self, notes: &mut Notes, refusal: &Refusal) -> Result<(), Refusal> {
        match refusal {
            Refusal::Halted(name) => {
                self.view.tell_breakpoint(notes, *name)?;
                self.view.tell_continuing(notes, *name)
            }
            Refusal::OtherSeat(seat) => {
                let seat = Part::Natural(*seat);
                Ok(notes.say_with("`{} back` takes it back", &[seat])?)
            }
            _ => match remedy_of(refusal) {
                Some(words) => Ok(notes.say(words)?),
                None => Ok(()),
            },
        }
    }

    /// Says why a call is refused, and what the person can do.
    pub fn tell_refusal(
        &self,
        notes: &mut Notes,
        call: &Call,
        refusal: &Refusal,
    ) -> Result<(), Refusal> {
        notes.say(meaning(refusal.number()))?;
        self.tell_remedy(notes, refusal)?;
        match call {
            Call::Give(plan) => self.tell_of_plan(notes, plan, refusal),
            Call::Ask(query) => self.tell_of_query(notes, query, refusal),
            Call::Back => Ok(()),
        }
    }
}
