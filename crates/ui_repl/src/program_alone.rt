//! A program text that no session follows.

use crate::written_program::{ReadText, WrittenProgram, read_text};
use notation::Fault;
use proc_tree::Program;
use shell_io::Source;
use shell_print::ServeFault;
use shell_serve::{Input, TextEnd, read_program_text, text_alone};
use std::alloc::Global;

/// What a program text is.
#[derive(Drop)]
pub enum ProgramAlone {
    /// A program, in the process language or in the notation.
    Program(WrittenProgram, Program),
    /// Neither.
    Wrong(WrongText),
    /// It does not end within the limit of the input.
    TooLong,
}

/// A program text, and what is wrong with it.
#[derive(Drop)]
pub struct WrongText {
    input: Input,
    end: TextEnd,
    pub fault: Fault,
}

impl WrongText {
    /// The text.
    pub fn text(&self) -> &[u8] {
        text_alone(&self.input, self.end).unwrap_or(&[])
    }
}

/// Reads a program text up to a line `%%` or to the end of the input. It may be in the model notation.
pub fn read_alone<R: Source>(alloc: Global, reader: &mut R) -> Result<ProgramAlone, ServeFault> {
    let mut input = Input::new(alloc)?;
    let end = read_program_text(&mut input, reader)?;
    let Some(text) = text_alone(&input, end) else {
        return Ok(ProgramAlone::TooLong);
    };
    match read_text(alloc, text)? {
        ReadText::Program(written, program) => Ok(ProgramAlone::Program(written, program)),
        ReadText::Wrong(fault) => Ok(ProgramAlone::Wrong(WrongText { input, end, fault })),
    }
}
