//! Commands of a program, with their lines in its text.

use crate::expressions::ProcessView;
use dbg_base::Choice;
use std::alloc::{AllocError, Global};
use ui_text::{Notes, Part};

impl<'a> ProcessView<'a> {
    /// A command in a word: its label, or else its number.
    pub fn command(&self, choice: Choice) -> Part<'a> {
        let label = self.text.label(self.pid, choice);
        if label.is_empty() {
            Part::Natural(choice.0)
        } else {
            Part::Bytes(label)
        }
    }

    /// Appends a command to the last line: its label, its number, and the line of the text at which it begins.
    pub fn put_command(&self, notes: &mut Notes, choice: Choice) -> Result<(), AllocError> {
        let label = self.text.label(self.pid, choice);
        if label.is_empty() {
            notes.add_with("command {}", &[Part::Natural(choice.0)])?;
        } else {
            let number = Part::Natural(choice.0);
            notes.add_with("{} (command {})", &[Part::Bytes(label), number])?;
        }
        match self.text.place(self.pid, choice) {
            Some(place) => notes.add_with(" in line {}", &[Part::Count(place)]),
            None => Ok(()),
        }
    }

    /// Appends the text of a command to the last line.
    pub fn put_text(&self, notes: &mut Notes, choice: Choice) -> Result<(), AllocError> {
        let text = self.text.command_text(notes.alloc(), self.pid, choice)?;
        notes.add_with(": {}", &[Part::Bytes(text.as_slice())])
    }
}
