//! The commands of a program, with the names that its author gave them.

use crate::expanding::{write_fault, write_notes};
use crate::program_alone::{ProgramAlone, read_alone};
use crate::written_program::WrittenProgram;
use dbg_base::{Choice, Pid};
use proc_tree::Program;
use shell_io::{Sink, Source};
use shell_print::{ServeFault, Served, tell_too_long};
use std::alloc::{AllocError, Global};
use ui_text::{Notes, Part, ProgramText};

// Appends the lines of the commands of a process.
fn put_process(
    notes: &mut Notes,
    program: &Program,
    text: &ProgramText,
    pid: Pid,
) -> Result<(), AllocError> {
    for number in 0..program.commands(pid) {
        let choice = Choice(number);
        notes.say_with(
            "{}\t{}\t{}\t{}\t{}",
            &[
                Part::Bytes(text.plain_name(pid)),
                Part::Natural(number),
                Part::Count(text.place(pid, choice).unwrap_or(0)),
                Part::Bytes(text.process_name(pid)),
                Part::Bytes(text.label(pid, choice)),
            ],
        )?;
    }
    Ok(())
}

// Writes the lines of the commands of a program.
fn write_commands<W: Sink>(
    alloc: Global,
    program: &Program,
    written: &WrittenProgram,
    writer: &mut W,
) -> Result<Served, ServeFault> {
    let mut notes = Notes::new(alloc);
    for p in 0..program.processes() {
        put_process(&mut notes, program, written.text(), Pid(p))?;
    }
    write_notes(&notes, writer)?;
    Ok(Served::Done)
}

/// Reads a program text up to a line `%%` or to the end of the input. It may be in the model notation. Writes a line for each command of
/// the plain program, in five columns with a tab between: the name of its process and its number there, from 0; and in the text of the
/// author the line, the name of the process, and the label, which is empty if the command has none. What is wrong with a program goes to
/// the other writer.
pub fn name_commands<R: Source, W: Sink, E: Sink>(
    alloc: Global,
    reader: &mut R,
    writer: &mut W,
    errors: &mut E,
) -> Result<Served, ServeFault> {
    match read_alone(alloc, reader)? {
        ProgramAlone::Program(written, program) => {
            write_commands(alloc, &program, &written, writer)
        }
        ProgramAlone::Wrong(wrong) => write_fault(alloc, wrong.text(), &wrong.fault, errors),
        ProgramAlone::TooLong => tell_too_long(errors),
    }
}

// Says what reads a program of this name, if it is in the model notation.
fn write_hint<E: Sink>(
    alloc: Global,
    name: &str,
    written: &WrittenProgram,
    errors: &mut E,
) -> Result<(), ServeFault> {
    if written.expansion().is_none() {
        return Ok(());
    }
    let mut notes = Notes::new(alloc);
    notes.say_with(
        "hint: '{}' is in the model notation, which `check --explain`, `talk`, `test` and `draw` read; `expand` makes it plain",
        &[Part::Text(name)],
    )?;
    write_notes(&notes, errors)
}

/// Says what reads the program of this file, if the program is in the model notation. Errors: the reader or the writer failed, or memory
/// ran out.
pub fn tell_notation<R: Source, E: Sink>(
    alloc: Global,
    name: &str,
    reader: &mut R,
    errors: &mut E,
) -> Result<(), ServeFault> {
    match read_alone(alloc, reader)? {
        ProgramAlone::Program(written, _program) => write_hint(alloc, name, &written, errors),
        ProgramAlone::Wrong(_) | ProgramAlone::TooLong => Ok(()),
    }
}
