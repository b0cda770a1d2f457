//! Results in the Test Anything Protocol (https://testanything.org).

use crate::comparing::Tested;
use shell_io::Sink;
use shell_print::ServeFault;
use std::alloc::Global;
use ui_repl::write_notes;
use ui_text::{Notes, Part};

/// Writes how many results follow.
pub fn write_plan<W: Sink>(alloc: Global, count: usize, writer: &mut W) -> Result<(), ServeFault> {
    let mut notes = Notes::new(alloc);
    notes.say("TAP version 13")?;
    notes.say_with("1..{}", &[Part::Count(count)])?;
    write_notes(&notes, writer)
}

/// Writes the result of the session of this name and number, with the report of one that failed. A session without an expected reply is
/// skipped, if it may be.
pub fn write_result<W: Sink>(
    alloc: Global,
    name: &str,
    number: usize,
    tested: Tested,
    may_skip: bool,
    report: &[u8],
    writer: &mut W,
) -> Result<(), ServeFault> {
    let is_skipped = tested == Tested::Unchecked && may_skip;
    let is_ok = tested == Tested::Passed || is_skipped;
    let mut notes = Notes::new(alloc);
    let word = Part::Text(if is_ok { "ok " } else { "not ok " });
    notes.say_with("{}{} - {}", &[word, Part::Count(number), Part::Text(name)])?;
    if is_skipped {
        notes.add(" # SKIP no expected reply")?;
    }
    for line in report
        .split(|byte| *byte == b'\n')
        .filter(|line| !is_ok && !line.is_empty())
    {
        notes.say_with("# {}", &[Part::Bytes(line)])?;
    }
    write_notes(&notes, writer)
}
