//! Why a command of a batch is refused.

use crate::refusing::RefusingSession;
use crate::trial::Trial;
use dbg_base::{Choice, Name, Pid, Plan, Refusal};
use std::alloc::{AllocError, Global};
use ui_text::{Notes, Part, meaning};
use ui_view::Hindrance;

// The refusal of this number, if it names no process, no breakpoint and no seat.
fn refusal_of(number: u32) -> Option<Refusal> {
    match number {
        2 => Some(Refusal::UnknownChoice),
        3 => Some(Refusal::GuardFalse),
        4 => Some(Refusal::Fault),
        5 => Some(Refusal::ChannelEmpty),
        6 => Some(Refusal::NothingToUndo),
        8 => Some(Refusal::NothingToRedo),
        10 => Some(Refusal::BadPlace),
        11 => Some(Refusal::BreakTaken),
        12 => Some(Refusal::UnknownBreak),
        13 => Some(Refusal::NoCut),
        14 => Some(Refusal::NotArmed),
        15 => Some(Refusal::AlreadyArmed),
        24 => Some(Refusal::NoneEnabled),
        _ => None,
    }
}

// Whether a breakpoint is armed after these commands, if it exists then. `is_armed` says whether it is armed before them.
fn is_armed_after(plans: &[Plan], name: Name, is_armed: bool) -> bool {
    let mut is_armed = is_armed;
    for plan in plans {
        match plan {
            Plan::Break(own, _) | Plan::Arm(own) if *own == name => is_armed = true,
            Plan::Pass(own) | Plan::Clear(own) if *own == name => is_armed = false,
            _ => {}
        }
    }
    is_armed
}

impl RefusingSession<'_> {
    // Says which event prevents an undo.
    fn tell_prevented(&self, notes: &mut Notes, plan: &Plan) -> Result<(), AllocError> {
        let Plan::Undo(pid) = plan else {
            return Ok(());
        };
        match self.view.session.world.can_undo(*pid) {
            Err(Refusal::Consequence(receiver)) => self
                .view
                .tell_consequence(notes, *pid, receiver),
            _ => Ok(()),
        }
    }

    // Says which breakpoint halts the session.
    fn tell_halted_batch(&self, notes: &mut Notes) -> Result<(), Refusal> {
        match self.view.session.book.halted() {
            Some(name) => {
                self.view.tell_breakpoint(notes, name)?;
                self.view.tell_continuing(notes, name)
            }
            None => Ok(()),
        }
    }

    // Says why the first command of a batch is refused, which is given in the present state.
    fn tell_first(&self, notes: &mut Notes, plan: &Plan, number: u32) -> Result<(), Refusal> {
        if number == 7 {
            return Ok(self.tell_prevented(notes, plan)?);
        }
        if number == 9 {
            return self.tell_halted_batch(notes);
        }
        match refusal_of(number) {
            Some(refusal) => self.tell_reason(notes, plan, &refusal),
            None => Ok(()),
        }
    }

    // Whether a breakpoint that a batch sets is not there before the batch, and is armed and not set once more after these later commands.
    fn is_new_after(&self, name: Name, later: &[Plan]) -> bool {
        let is_set_again = later
            .iter()
            .any(|plan| matches!(plan, Plan::Break(own, _) if *own == name));
        self.view.session.book.find(name).is_none()
            && !is_set_again
            && is_armed_after(later, name, true)
    }

    // Says which breakpoints may halt the session after these commands of a batch: those that are armed then.
    fn tell_halting(&self, notes: &mut Notes, plans: &[Plan]) -> Result<(), Refusal> {
        let marks = self.view.session.book.list(notes.alloc())?;
        let mut word = "after the commands before it, a breakpoint halts the session: ";
        notes.say("")?;
        for (name, is_armed) in marks.items() {
            if is_armed_after(plans, *name, *is_armed) {
                notes.add_with("{}{}", &[Part::Text(word), self.view.breakpoint(*name)])?;
                word = " or ";
            }
        }
        for (at, plan) in plans.iter().enumerate() {
            let later = plans.get(at.saturating_add(1)..).unwrap_or(&[]);
            match plan {
                Plan::Break(name, _) if self.is_new_after(*name, later) => {
                    notes.add_with("{}{}", &[Part::Text(word), self.view.breakpoint(*name)])?;
                    word = " or ";
                }
                _ => {}
            }
        }
        Ok(())
    }

    // Says which command of a batch is refused, and the meaning of its refusal.
    fn tell_which(
        &self,
        notes: &mut Notes,
        plans: &[Plan],
        at: u32,
        number: u32,
    ) -> Result<(), AllocError> {
        let position = Part::Natural(at);
        notes.say_with("command {} of the batch", &[position])?;
        self.put_plan_of_batch(notes, plans, at)?;
        notes.add_with(": {}", &[Part::Text(meaning(number))])
    }

    /// Says which command of a batch is refused, and why.
    pub(crate) fn tell_in_batch(
        &self,
        notes: &mut Notes,
        plans: &[Plan],
        at: u32,
        number: u32,
    ) -> Result<(), Refusal> {
        self.tell_which(notes, plans, at, number)?;
        match plans.first() {
            Some(plan) if at == 1 => self.tell_first(notes, plan, number),
            _ if number == 9 => {
                let before = (at as usize).saturating_sub(1);
                self.tell_halting(notes, plans.get(..before).unwrap_or(plans))
            }
            _ => self.tell_after(notes, plans, at),
        }
    }

    // Says what prevents a command of a process in the state of this trial.
    fn tell_in_trial(
        &self,
        notes: &mut Notes,
        trial: &Trial<'_>,
        pid: Pid,
        choice: Choice,
        is_alone: bool,
    ) -> Result<(), Refusal> {
        let scope = self.view.scope(pid);
        let command = self.view.session.program.command(pid, choice);
        let (Some(command), Some(env)) = (command, trial.env(pid)) else {
            return Ok(());
        };
        let Some(hindrance) = trial.find(pid, choice)? else {
            return Ok(());
        };
        let has_parts = is_alone && hindrance == Hindrance::GuardFalse;
        if has_parts && self.tell_guard_parts(notes, pid, choice, &command.guard, env)? {
            return Ok(());
        }
        notes.say("")?;
        scope.put_command(notes, choice)?;
        notes.add(": ")?;
        Ok(scope.put_hindrance(notes, env, command, hindrance)?)
    }

    // Says that the commands before the one at this position of a batch, from 1, were accepted, and what prevents that one.
    fn tell_after(&self, notes: &mut Notes, plans: &[Plan], at: u32) -> Result<(), Refusal> {
        notes.say(
            "the commands before it were accepted, and are undone: of a batch all commands are made, or none",
        )?;
        self.tell_trial(notes, plans, at)
    }

    // Says what prevents that command after those before it, if these make events alone.
    fn tell_trial(&self, notes: &mut Notes, plans: &[Plan], at: u32) -> Result<(), Refusal> {
        let session = self.view.session;
        let mut trial = Trial::begin(notes.alloc(), session.program, session.world)?;
        let before = (at as usize).saturating_sub(1);
        for plan in plans.get(..before).unwrap_or(plans) {
            if !trial.give(plan)? {
                return Ok(());
            }
        }
        match plans.get(before) {
            Some(Plan::Step(pid, choice)) => {
                self.tell_in_trial(notes, &trial, *pid, *choice, true)
            }
            Some(Plan::Next(pid)) => {
                for number in 0..session.program.commands(*pid) {
                    self.tell_in_trial(notes, &trial, *pid, Choice(number), false)?;
                }
                Ok(())
            }
            _ => Ok(()),
        }
    }
}
