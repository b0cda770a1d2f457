//! Commands as text.

use crate::refusing::RefusingSession;
use dbg_base::{Name, Pid, Plan};
use std::alloc::AllocError;
use ui_text::{Notes, Part};

impl RefusingSession<'_> {
    // Appends a command that names a breakpoint to the last line.
    fn put_of_breakpoint(
        &self,
        notes: &mut Notes,
        word: &'static str,
        name: Name,
    ) -> Result<(), AllocError> {
        notes.add_with("{} {}", &[Part::Text(word), self.view.breakpoint(name)])
    }

    // Appends a command that names a process to the last line.
    fn put_of_process(
        &self,
        notes: &mut Notes,
        word: &'static str,
        pid: Pid,
        number: Option<u32>,
    ) -> Result<(), AllocError> {
        notes.add_with("{} {}", &[Part::Text(word), self.view.scope(pid).name()])?;
        match number {
            Some(number) => notes.add_with(" {}", &[Part::Natural(number)]),
            None => Ok(()),
        }
    }

    /// Appends a command to the last line, as it is given. A predicate and the commands of a batch are left out.
    pub(crate) fn put_plan(&self, notes: &mut Notes, plan: &Plan) -> Result<(), AllocError> {
        match plan {
            Plan::Step(pid, choice) => self.put_of_process(notes, "step", *pid, Some(choice.0)),
            Plan::Next(pid) => self.put_of_process(notes, "next", *pid, None),
            Plan::Undo(pid) => self.put_of_process(notes, "undo", *pid, None),
            Plan::Redo(pid) => self.put_of_process(notes, "redo", *pid, None),
            Plan::Rollback(pid, count) => {
                self.put_of_process(notes, "rollback", *pid, Some(*count))
            }
            Plan::Goto(name) => self.put_of_breakpoint(notes, "goto", *name),
            Plan::Break(name, _) => self.put_of_breakpoint(notes, "break", *name),
            Plan::Clear(name) => self.put_of_breakpoint(notes, "clear", *name),
            Plan::Arm(name) => self.put_of_breakpoint(notes, "arm", *name),
            Plan::Pass(name) => self.put_of_breakpoint(notes, "pass", *name),
            Plan::Batch(_) => notes.add("batch"),
        }
    }

    /// Appends the command of a batch at this position, from 1, to the last line, if there is one.
    pub(crate) fn put_plan_of_batch(
        &self,
        notes: &mut Notes,
        plans: &[Plan],
        at: u32,
    ) -> Result<(), AllocError> {
        let plan = (at as usize)
            .checked_sub(1)
            .and_then(|place| plans.get(place));
        match plan {
            Some(plan) => {
                notes.add(", `")?;
                self.put_plan(notes, plan)?;
                notes.add("`")
            }
            None => Ok(()),
        }
    }
}
