//! Interactive sessions.

use crate::typing::Device;
use shell_io::{Noted, Sink};
use shell_print::{ServeFault, Served};
use std::alloc::Global;
use ui_repl::talk;

// How many programs a person may type until one is accepted.
const PROGRAMS: u32 = 10_000;

/// An interactive session, whose lines are so many characters wide, if that is known. If a person types the program and it is refused, another one is read.
pub(crate) fn talk_again<W: Sink>(
    alloc: Global,
    width: Option<usize>,
    input: Device<'_>,
    writer: &mut W,
) -> Result<Served, ServeFault> {
    let mut input = input;
    for _ in 1..PROGRAMS {
        let mut reader = Noted::new(input);
        let outcome = talk(alloc, width, &mut reader, writer);
        input = reader.into_inner();
        if !matches!(outcome, Ok(Served::Refused)) || !input.begins_again() {
            return outcome;
        }
    }
    talk(alloc, width, &mut Noted::new(input), writer)
}
