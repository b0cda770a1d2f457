//! Records what each line of a session did, for the page.

ghost use Rattle.std.specs.Prelude.{IfOk};
ghost use Rattle.ui_page.specs.PageLines.{ArePageLines};

mod breakpoints;
mod events;
pub(crate) mod lines;
mod trail;

use crate::data::{Incomplete, PageData};
use crate::list::{List, text_value};
use breakpoints::Breakpoints;
use causal_world::World;
use dbg_base::{Call, Choice, Done, Pid, Plan, Refusal, Reply, Said};
use dbg_command::SessionView;
use lines::RecordedLines;
use proc_tree::Program;
use serde_json::{Map, Value};
use std::alloc::{AllocError, Global};
use ui_text::{Notes, ProgramText};
use ui_view::{BreakpointChange, CountedCommand, SourceView, Told};

// The kind of a call, as far as a page needs it.
#[derive(Clone, Copy)]
enum CallKind {
    // The process makes a new event.
    Further(Pid),
    // The process makes an event of its redo line.
    Again(Pid),
    Undo(Pid),
    Batch,
    Back,
    Other,
}

fn kind_of(call: &Call) -> CallKind {
    match call {
        Call::Give(Plan::Step(pid, _) | Plan::Next(pid)) => CallKind::Further(*pid),
        Call::Give(Plan::Redo(pid)) => CallKind::Again(*pid),
        Call::Give(Plan::Undo(pid)) => CallKind::Undo(*pid),
        Call::Give(Plan::Batch(_)) => CallKind::Batch,
        Call::Give(_) | Call::Ask(_) => CallKind::Other,
        Call::Back => CallKind::Back,
    }
}

// How an accepted command may have changed breakpoints. `back` may have changed what the command changed that it takes back.
fn change_by(call: &Call, taken_back: Option<CountedCommand<'_>>) -> BreakpointChange {
    match (call, taken_back) {
        (Call::Back, Some(command)) => command.change,
        (Call::Back, None) => BreakpointChange::Replaced,
        _ => BreakpointChange::by(call),
    }
}

/// Records what each line did.
pub struct Recorder<'a> {
    alloc: Global,
    text: &'a ProgramText,
    lines: RecordedLines,
    breakpoints: Breakpoints,
    // The world before a batch.
    before: Option<World>,
    // The first reason why something was not recorded.
    incomplete: Option<Incomplete>,
}

impl Drop for Recorder<'_> {
    fn drop(self) {
        let Self {
            alloc,
            text,
            lines,
            breakpoints,
            before,
            incomplete,
        } = self;
    }
}

impl List {
    // A command: the number of its line, the line, and its label, if it has one.
    fn command(&mut self, text: &ProgramText, pid: Pid, number: u32) -> Result<(), AllocError> {
        let choice = Choice(number);
        let place = text.place(pid, choice);
        let mut command = self.another();
        command.count(place.unwrap_or(0))?;
        command.text(place.map_or(&[], |place| text.line(place)))?;
        let label = text.label(pid, choice);
        if !label.is_empty() {
            command.text(label)?;
        }
        self.list(command)
    }

    // The commands of a process.
    fn commands(
        &mut self,
        program: &Program,
        text: &ProgramText,
        pid: Pid,
    ) -> Result<(), AllocError> {
        for number in 0..program.commands(pid) {
            self.command(text, pid, number)?;
        }
        Ok(())
    }

    // The variables of a process with their values at the start.
    fn variables(
        &mut self,
        program: &Program,
        text: &ProgramText,
        pid: Pid,
    ) -> Result<(), AllocError> {
        for variable in 0..program.variables(pid) {
            let mut start = self.another();
            start.text(text.variable_name(pid, variable))?;
            let value = program.start_value(pid, variable).unwrap_or(0);
            start.value(value, text.value(pid, variable, value))?;
            self.list(start)?;
        }
        Ok(())
    }
}

// A process: its name, its variables with their values at the start, and its commands.
fn process_value(
    alloc: Global,
    program: &Program,
    text: &ProgramText,
    pid: Pid,
) -> Result<Value, AllocError> {
    let name = text_value(alloc, text.process_name(pid))?;
    let mut variables = List::new(alloc);
    variables.variables(program, text, pid)?;
    let mut commands = List::new(alloc);
    commands.commands(program, text, pid)?;
    let mut members = Map::new(alloc);
    serde_json::put(&mut members, alloc, "name", name)?;
    serde_json::put(&mut members, alloc, "variables", variables.into_value())?;
    serde_json::put(&mut members, alloc, "commands", commands.into_value())?;
    Ok(Value::Object(members))
}

// The processes, and the text of the program.
fn program_value(
    alloc: Global,
    program: &Program,
    text: &ProgramText,
) -> Result<Value, AllocError> {
    let mut processes = List::new(alloc);
    for p in 0..program.processes() {
        processes.push(process_value(alloc, program, text, Pid(p))?)?;
    }
    let source = text_value(alloc, text.text())?;
    let mut members = Map::new(alloc);
    serde_json::put(&mut members, alloc, "processes", processes.into_value())?;
    serde_json::put(&mut members, alloc, "program", source)?;
    Ok(Value::Object(members))
}

impl<'a> Recorder<'a> {
    /// A recorder of a session of this program in which no line was answered. The page shows the commands as this text has them.
    pub fn new(alloc: Global, program: &Program, text: &'a ProgramText) -> Recorder<'a> {
        let mut recorder = Recorder {
            alloc,
            text,
            lines: RecordedLines::new(alloc),
            breakpoints: Breakpoints::new(alloc),
            before: None,
            incomplete: None,
        };
        let put = recorder.put_program(program);
        recorder.note(put);
        recorder
    }

    // Notes that something was not recorded since memory ran out, if it was not.
    fn note<E: Drop>(&mut self, done: Result<(), E>) {
        if done.is_err() {
            self.note_why(Incomplete::Memory);
        }
    }

    fn note_why(&mut self, why: Incomplete) {
        self.incomplete = self.incomplete.or(Some(why));
    }

    // Records the program.
    fn put_program(&mut self, program: &Program) -> Result<(), Incomplete> {
        let value = program_value(self.alloc, program, self.text)?;
        self.lines.add(self.alloc, &value)
    }

    fn put_batch(&mut self, view: SourceView<'_>) -> Result<(), AllocError> {
        let Some(before) = &self.before else {
            return Ok(());
        };
        for p in 0..view.session.program.processes() {
            self.lines.operations().changed_line(view, before, Pid(p))?;
        }
        Ok(())
    }

    // What an accepted command did to the processes, as an operation.
    fn put_command(
        &mut self,
        view: SourceView<'_>,
        call: &Call,
        reply: &Reply,
    ) -> Result<(), AllocError> {
        let operations = self.lines.operations();
        match kind_of(call) {
            CallKind::Further(pid) => operations.made("e", view, pid),
            CallKind::Again(pid) => operations.made("r", view, pid),
            CallKind::Undo(pid) => {
                let mut undo = operations.another_of("u")?;
                undo.number(i64::from(pid.0))?;
                operations.list(undo)
            }
            CallKind::Batch => self.put_batch(view),
            CallKind::Back => {
                let back = operations.another_of("b")?;
                operations.list(back)
            }
            CallKind::Other => match &reply.done {
                Done::Places(cut) => {
                    let mut places = operations.another_of("p")?;
                    places.counts(cut.counts())?;
                    operations.list(places)
                }
                _ => Ok(()),
            },
        }
    }

    fn put_all(
        &mut self,
        view: SourceView<'_>,
        call: &Call,
        reply: &Reply,
        change: BreakpointChange,
    ) -> Result<(), Refusal> {
        self.put_command(view, call, reply)?;
        let operations = self.lines.operations();
        self.breakpoints.put_changes(operations, view, change)
    }

    /// A line begins.
    pub fn begin_line(&mut self, line: &[u8]) {
        let begun = self.lines.begin(self.alloc, line);
        self.note(begun);
    }

    /// A call is about to be made.
    pub fn prepare(&mut self, view: SessionView<'_>, call: &Call) {
        if let CallKind::Batch = kind_of(call) {
            match view.world.copy() {
                Ok(before) => self.before = Some(before),
                Err(_) => self.note_why(Incomplete::Memory),
            }
        }
    }

    /// The present line is explained so.
    pub fn explain_line(&mut self, notes: &Notes) {
        let explained = self.lines.explain(notes);
        self.note(explained);
    }

    /// This was said to the present line, and it has this reply.
    pub fn end_line(&mut self, session: SessionView<'_>, told: Told<'_>, reply: &[u8]) {
        let view = SourceView::new(session, self.text);
        if let Told::Said(call, Said::Accepted(accepted), taken_back) = told {
            let reported = self.put_all(view, call, accepted, change_by(call, taken_back));
            self.note(reported);
        }
        self.before = None;
        if let Err(why) = self.lines.end(self.alloc, reply) {
            self.note_why(why);
        }
    }

    /// What was recorded: the program, what each line did, and the lines with their replies. They are recorded no longer.
    pub fn session(&mut self) -> Result<PageData, Incomplete>
        ensures lines { IfOk result (λ page. ∥ ArePageLines page.bytes.items ∥₁) }
    {
        if let Some(why) = self.incomplete {
            return Err(why);
        }
        self.lines.put_replies(self.alloc)?;
        Ok(self.lines.take_data(self.alloc))
    }
}
