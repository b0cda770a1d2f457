//! The lines of a session as its author writes them, as the source of the lines that are played.

ghost use Rattle.std.specs.Prelude.{◌≡◌, ◌<◌, IfOk, IfSome};
ghost use Rattle.shell_serve.specs.Spans.{EndsWith};
ghost use Rattle.ui_repl.specs.LineSources.{HoldsLine, written_line, lines_left, FewerIfLine};

use crate::read_line::{ExpandedLine, LineFault, ReadLine};
use crate::written_program::WrittenProgram;
use dbg_base::limits::INPUT_BYTES;
use shell_io::{GivenLine, Source};
use shell_print::ServeFault;
use shell_serve::{Answer, Input, LineSource, Next, Span};
use std::alloc::{AllocError, Global};
use ui_session::Typed;

/// The lines of a session as its author writes them.
#[derive(Drop)]
pub struct SessionLines<'a> {
    /// What was read.
    pub input: Input,
    // How many lines are read at most, and how many were read.
    wanted: Option<usize>,
    count: usize,
    line: ReadLine<'a>,
    // How many bytes of the plain session were given.
    used: usize,
}

impl<'a> SessionLines<'a> {
    /// The lines after the program text, which has so many, up to the one of this number in the input. Error: memory ran out.
    pub(crate) fn new(
        alloc: Global,
        input: Input,
        program: &'a WrittenProgram,
        count: usize,
        wanted: Option<usize>,
    ) -> Result<SessionLines<'a>, AllocError>
        ensures input { IfOk result (λ lines. lines.input ≡ input) }
    {
        let used = match program.expansion() {
            Some(expansion) => expansion.plain().len().saturating_add(3),
            None => input.at,
        };
        Ok(SessionLines {
            input,
            wanted,
            count,
            line: ReadLine::new(alloc, program)?,
            used,
        })
    }

    /// How many lines were read, with those of the program text.
    pub fn count(&self) -> usize {
        self.count
    }

    // The line that was read last, as it is written.
    fn written(&self) -> &[u8]
        ensures { result.now ≡ written_line self.now }
    {
        let Span { from, to } = self.line.span;
        let bytes = self.input.bytes();
        if from <= to && to <= bytes.len() {
            &bytes[from..to]
        } else {
            &[]
        }
    }

    // Whether no further line is read.
    fn is_at_end(&self) -> bool {
        self.wanted.is_some_and(|wanted| self.count >= wanted)
    }

    /// Where the next line is that is not played, after a line that ended the session.
    pub fn unplayed<R: Source>(&mut self, reader: &mut R) -> Result<Option<Span>, ServeFault>
        requires { EndsWith self.old.input.ended (R.remaining reader.old) }
        ensures ready { EndsWith self.new.input.ended (R.remaining reader.new) }
        ensures advances { IfOk result (λ next. IfSome next (λ span. self.old.input.at < self.new.input.at)) }
    {
        if self.is_at_end() {
            return Ok(None);
        }
        match self.input.next_line(reader)? {
            Next::Line(span) => {
                self.count = self.count.saturating_add(1);
                Ok(Some(span))
            }
            Next::End | Next::TooLong => Ok(None),
        }
    }

    // Whether the last line of the input has no line end, and is played for the last time.
    fn is_unended(&self) -> bool {
        let input = &self.input;
        let is_last = input.ended && input.at >= input.bytes().len() && self.line.is_last();
        is_last && input.bytes().last() != Some(&b'\n')
    }

    // How many bytes the line takes in the plain session, at least one.
    fn length(&self) -> usize
        ensures { 0 < result }
    {
        let end = if self.is_unended() { 0 } else { 1 };
        self.line.length().saturating_add(end).max(1)
    }

    // Gives the line that is played, unless the plain session becomes too long.
    fn give(&mut self) -> Next
        ensures fewer { FewerIfLine self.old self.new result }
        ensures input { self.new.input ≡ self.old.input }
    {
        let length = self.length();
        if length > INPUT_BYTES.saturating_sub(self.used) {
            return Next::TooLong;
        }
        self.used = self.used.saturating_add(length);
        Next::Line(self.line.span)
    }
}

impl<'a, R: Source + Typed> LineSource<R, Option<LineFault>> for SessionLines<'a> {
    ghost Ready = { λ lines reader. EndsWith lines.input.ended (R.remaining reader) };

    ghost Gives = { λ lines reader line after later. Unit {0} };

    ghost Stops = { λ lines reader result after later. Unit {0} };

    ghost Holds = { HoldsLine };

    ghost left = { lines_left };

    fn advance(&mut self, reader: &mut R, last: Answer) -> Result<Next, ServeFault> {
        if self.line.is_under_way(last) {
            return Ok(self.give());
        }
        if self.is_at_end() {
            return Ok(Next::End);
        }
        match self.input.next_line(reader)? {
            Next::Line(span) => {
                self.count = self.count.saturating_add(1);
                let is_typed = reader.is_typed();
                self.line.begin(span, self.input.line(span), is_typed);
                Ok(self.give())
            }
            Next::End => Ok(Next::End),
            Next::TooLong => Ok(Next::TooLong),
        }
    }

    fn line(&self, _span: Span) -> ExpandedLine<'_> {
        let line = &self.line;
        let written = self.written();
        let played = if line.is_lost {
            None
        } else if line.is_as_written {
            Some(written)
        } else {
            Some(line.played.as_slice())
        };
        GivenLine {
            written,
            played,
            is_first: line.is_first,
            is_typed: line.is_typed,
            note: &line.fault,
        }
    }
}
