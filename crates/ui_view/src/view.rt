//! What explanations are made from.

use crate::expressions::ProcessView;
use crate::replies::breakpoint_part;
use dbg_base::{Name, Pid};
use dbg_command::SessionView;
use std::alloc::AllocError;
use ui_text::{Notes, Part, ProgramText};

// How many characters a line has, at most, if it is not known how wide its terminal is: 80 with the two blanks before it.
const WIDTH: usize = 78;

/// A session, and its program as it was written. Lines about it have at most so many characters, where words can wrap.
#[derive(Clone, Copy)]
pub struct SourceView<'a> {
    pub session: SessionView<'a>,
    pub text: &'a ProgramText,
    pub width: usize,
}

impl<'a> SourceView<'a> {
    /// A session of a program with this text. A terminal has 80 columns.
    pub fn new(session: SessionView<'a>, text: &'a ProgramText) -> SourceView<'a> {
        SourceView {
            session,
            text,
            width: WIDTH,
        }
    }

    /// A process of the session.
    pub fn scope(&self, pid: Pid) -> ProcessView<'a> {
        ProcessView::new(self.session.program, self.text, pid)
    }

    /// The name of a breakpoint: in a model, with its indices in brackets.
    pub fn breakpoint(&self, name: Name) -> Part<'a> {
        breakpoint_part(self.text, name)
    }

    /// Says that no process has this name, and which names there are.
    pub fn tell_processes(&self, notes: &mut Notes, word: &[u8]) -> Result<(), AllocError> {
        notes.say_with("`{}` is not a process; ", &[Part::Bytes(word)])?;
        let mut between = match self.session.program.processes() {
            1 => "the only process is ",
            _ => "the processes are ",
        };
        for p in 0..self.session.program.processes() {
            notes.add_with("{}{}", &[Part::Text(between), self.scope(Pid(p)).name()])?;
            between = ", ";
        }
        Ok(())
    }
}
