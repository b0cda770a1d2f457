//! A line of a session as its author wrote it, and the lines that are played for it.

ghost use Rattle.std.specs.Prelude.{◌≡◌, ◌⊎◌, ◌<◌, ◌≤◌, true, false, is_none, [], length, IfOk};
ghost use Rattle.ui_repl.specs.PlainLines.{IsPlayed, once, repeated};
ghost use Rattle.ui_repl.specs.ReadLines.{stops, IsBegun, IsRepeated};

use crate::words::{bare, completed, is_for, is_plain, is_single, repeated};
use crate::written_program::WrittenProgram;
use dbg_base::Name;
use notation::{Fault, LineExpander, NotationError};
use shell_io::GivenLine;
use shell_serve::{Answer, Span};
use std::alloc::{AllocError, Global};
use ui_view::Answered;

/// Why a line cannot be expanded, and the plain name of the process that it named before its fault.
#[derive(Drop)]
pub struct LineFault {
    pub fault: Fault,
    pub process: Option<Name>,
}

/// A line that is played, with why it cannot be expanded, if it cannot.
pub type ExpandedLine<'a> = GivenLine<'a, Option<LineFault>>;

/// Such a line, and what was said to it.
pub type AnsweredLine<'a> = Answered<'a, Option<LineFault>>;

/// The line that was read last. It may be short, and that of a model may be in the notation.
#[derive(Drop)]
pub(crate) struct ReadLine<'a> {
    alloc: Global,
    expander: Option<LineExpander<'a>>,
    // Where it is in the input, and why it stays as it is, if it cannot be expanded.
    pub(crate) span: Span,
    pub(crate) fault: Option<LineFault>,
    pub(crate) is_typed: bool,
    // Its plain lines, and how many of them were begun. There is none if the line is plain.
    plain: Vec<Vec<u8>>,
    next: usize,
    // The line that is played, unless it is played as it is written, or memory ran out before it was made, and how often it is to be
    // played again.
    pub(crate) played: Vec<u8>,
    pub(crate) is_as_written: bool,
    pub(crate) is_lost: bool,
    pub(crate) is_first: bool,
    again: u32,
}

// Whether a line that is repeated ends after this answer.
fn stops(answer: Answer) -> bool
    ensures { result ≡ stops answer }
{
    matches!(answer, Answer::Refused | Answer::Halted | Answer::Ended)
}

// Puts this line in place of the one that was played, and returns how often it is played again: not at all.
fn put_once(line: &[u8], played: &mut Vec<u8>) -> Result<u32, AllocError>
    ensures { IfOk result (λ again. record { text = played.new.items; again = again } ≡ once line.now) }
{
    played.clear();
    played.extend_from_slice(line)?;
    Ok(0)
}

// The same for a plain line, which is repeated if it says so.
fn put_repeated(line: &[u8], played: &mut Vec<u8>) -> Result<u32, AllocError>
    ensures { IfOk result (λ again. record { text = played.new.items; again = again } ≡ repeated line.now) }
{
    let (text, again) = repeated(line);
    played.clear();
    played.extend_from_slice(text)?;
    Ok(again)
}

// The same for the plain line of this number, which is not repeated if it is single.
fn put_next(
    plain: &[Vec<u8>],
    next: usize,
    is_single: bool,
    played: &mut Vec<u8>,
) -> Result<u32, AllocError> {
    let line = match plain.get(next) {
        Some(line) => line.as_slice(),
        None => &[],
    };
    if is_single {
        put_once(line, played)
    } else {
        put_repeated(line, played)
    }
}

// The same for a line of a plain session.
fn put_plain(alloc: Global, line: &[u8], played: &mut Vec<u8>) -> Result<u32, AllocError>
    ensures { IfOk result (λ again. IsPlayed line.now (record { text = played.new.items; again = again })) }
{
    let bare = bare(line);
    if is_single(line, bare) {
        return put_once(bare, played);
    }
    match completed(alloc, bare, 0)? {
        Some(whole) => put_repeated(whole.as_slice(), played),
        None => put_repeated(bare, played),
    }
}

// The plain lines of a command line of a model, which has no comment. If it cannot be expanded, it stays as it is.
fn plain_lines(
    alloc: Global,
    expander: &mut LineExpander<'_>,
    line: &[u8],
    fault: &mut Option<LineFault>,
) -> Result<Vec<Vec<u8>>, AllocError> {
    let head = if is_for(line) {
        expander.head(line)?
    } else {
        0
    };
    let whole = completed(alloc, line, head)?;
    let line = match &whole {
        Some(whole) => whole.as_slice(),
        None => line,
    };
    let mut lines = match expander.expand(line) {
        Ok(lines) => lines,
        Err(NotationError::Bad(bad)) => {
            let process = expander.process();
            *fault = Some(LineFault {
                fault: bad,
                process,
            });
            let mut lines = Vec::new(alloc);
            lines.push(Vec::from_slice(alloc, line)?)?;
            lines
        }
        Err(NotationError::Memory) => return Err(AllocError),
    };
    if lines.is_empty() {
        lines.push(Vec::new(alloc))?;
    }
    Ok(lines)
}

impl<'a> ReadLine<'a> {
    /// No line was read. Those that come are lines of this program. Error: memory ran out.
    pub(crate) fn new(
        alloc: Global,
        program: &'a WrittenProgram,
    ) -> Result<ReadLine<'a>, AllocError> {
        let expander = match program.expanded() {
            Some(expanded) => Some(LineExpander::new(alloc, expanded)?),
            None => None,
        };
        Ok(ReadLine {
            alloc,
            expander,
            span: Span { from: 0, to: 0 },
            fault: None,
            is_typed: false,
            plain: Vec::new(alloc),
            next: 0,
            played: Vec::new(alloc),
            is_as_written: false,
            is_lost: false,
            is_first: false,
            again: 0,
        })
    }

    // Begins to play the next plain line.
    fn take(&mut self) -> Result<(), AllocError>
        ensures session { self.new.expander ≡ self.old.expander }
        ensures same { (self.new.span ≡ self.old.span) × (self.new.is_as_written ≡ self.old.is_as_written) }
    {
        let next = self.next;
        self.next = next.saturating_add(1);
        let is_single = self.fault.is_some();
        let plain = self.plain.as_slice();
        self.again = put_next(plain, next, is_single, &mut self.played)?;
        Ok(())
    }

    // Makes the first line that is played for this one.
    #[inline(never)]
    fn make(&mut self, line: &[u8]) -> Result<(), AllocError>
        ensures session { is_none self.new.expander ≡ is_none self.old.expander }
        ensures played { is_none self.old.expander ≡ true → IfOk result (λ _. IsPlayed line.now (record { text = self.new.played.items; again = self.new.again })) }
        ensures same { (self.new.span ≡ self.old.span) × (self.new.is_as_written ≡ self.old.is_as_written) }
        ensures alone { is_none self.old.expander ≡ true → (self.new.plain ≡ self.old.plain) × (self.new.next ≡ self.old.next) }
    {
        let Some(expander) = &mut self.expander else {
            self.again = put_plain(self.alloc, line, &mut self.played)?;
            return Ok(());
        };
        let bare = bare(line);
        if is_single(line, bare) {
            self.again = put_once(bare, &mut self.played)?;
            return Ok(());
        }
        self.plain = plain_lines(self.alloc, expander, bare, &mut self.fault)?;
        self.take()
    }

    // Forgets the line that was read before.
    fn forget(&mut self)
        ensures session { self.new.expander ≡ self.old.expander }
        ensures alone { (self.new.plain.items ≡ []) × (self.new.next ≡ 0) }
        ensures begun { (self.new.again ≡ 0) × (self.new.is_lost ≡ false) × (self.new.is_as_written ≡ false) }
    {
        if self.fault.is_some() {
            self.fault = None;
        }
        self.plain.clear();
        self.next = 0;
        self.again = 0;
        self.is_first = true;
        self.is_as_written = false;
        self.is_lost = false;
    }

    /// Begins to play a line that was read.
    pub(crate) fn begin(&mut self, span: Span, line: &[u8], is_typed: bool)
        ensures plain { is_none self.old.expander ≡ true → IsBegun line.now self.new }
        ensures span { self.new.span ≡ span }
        ensures session { is_none self.new.expander ≡ is_none self.old.expander }
    {
        self.forget();
        self.span = span;
        self.is_typed = is_typed;
        if self.expander.is_none() && is_plain(line) {
            self.is_as_written = true;
            return;
        }
        self.is_lost = self.make(line).is_err();
    }

    /// Begins to play the next of its lines, after this answer to the one before. Returns whether there is one.
    pub(crate) fn is_under_way(&mut self, last: Answer) -> bool
        ensures repeats { stops last ≡ false → 0 < self.old.again → (result ≡ true) × IsRepeated self.old self.new }
        ensures ends { (stops last ≡ true) ⊎ (self.old.again ≡ 0) → length self.old.plain.items ≤ self.old.next → result ≡ false }
        ensures session { is_none self.new.expander ≡ is_none self.old.expander }
    {
        self.is_first = false;
        self.is_as_written = false;
        if self.again > 0 && !stops(last) {
            self.again = self.again.saturating_sub(1);
            return true;
        }
        self.again = 0;
        if self.is_lost || self.next >= self.plain.len() {
            return false;
        }
        self.is_lost = self.take().is_err();
        true
    }

    /// How many bytes the line has that is played.
    pub(crate) fn length(&self) -> usize {
        if self.is_as_written {
            self.span.to.saturating_sub(self.span.from)
        } else {
            self.played.len()
        }
    }

    /// Whether nothing more is played for it, whatever the answer is.
    pub(crate) fn is_last(&self) -> bool {
        self.again == 0 && (self.is_lost || self.next >= self.plain.len())
    }
}
