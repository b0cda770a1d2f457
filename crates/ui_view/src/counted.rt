//! The commands that count: those that were accepted and not taken back.

use dbg_base::{Call, Plan};
use std::alloc::{AllocError, Global};
use ui_text::{Notes, Part};

/// How a command, or its being taken back, may change breakpoints and their searches.
#[derive(Clone, Copy, PartialEq, Eq)]
pub enum BreakpointChange {
    /// Events were made, or some were undone: a search dropped from its end the eliminations that depend on undone events, and continued.
    /// Or a breakpoint was armed, disarmed, set or cleared.
    Followed,
    /// Several of these, or an earlier table came back: a search may be a different one.
    Batch,
    /// A breakpoint may also be a different one of the same name.
    Replaced,
}

impl BreakpointChange {
    /// How a command may change them.
    pub fn by(call: &Call) -> BreakpointChange {
        match call {
            Call::Give(Plan::Batch(plans)) => {
                let sets = |plan: &Plan| matches!(plan, Plan::Break(_, _) | Plan::Clear(_));
                if plans.iter().any(sets) {
                    BreakpointChange::Replaced
                } else {
                    BreakpointChange::Batch
                }
            }
            _ => BreakpointChange::Followed,
        }
    }
}

/// A command that counts.
#[derive(Clone, Copy)]
pub struct CountedCommand<'a> {
    /// Its line.
    pub line: &'a [u8],
    /// How it may have changed breakpoints.
    pub change: BreakpointChange,
}

// Where the line of a command ends in the text of all lines.
#[derive(Clone, Copy)]
struct Ended {
    end: usize,
    change: BreakpointChange,
}

// A line of the author from which commands came that are not the line itself.
#[derive(Clone, Copy)]
struct Source {
    // Its first command, and how many of its commands count.
    first: usize,
    count: usize,
    // Where it ends in the text of all such lines.
    end: usize,
    // Whether each line that was played for it is one of these commands.
    is_whole: bool,
}

/// The commands that count, in order.
pub struct CountedCommands {
    text: Vec<u8>,
    commands: Vec<Ended>,
    // The lines of the author that are not commands themselves, and whether the last one may have further commands.
    written: Vec<u8>,
    sources: Vec<Source>,
    is_open: bool,
    // Whether all of them are there. Memory may run out.
    is_whole: bool,
}

impl Drop for CountedCommands {
    fn drop(self) {
        let Self {
            text,
            commands,
            written,
            sources,
            is_open,
            is_whole,
        } = self;
    }
}

impl CountedCommands {
    /// No command. It does not allocate.
    pub fn new(alloc: Global) -> CountedCommands {
        CountedCommands {
            text: Vec::new(alloc),
            commands: Vec::new(alloc),
            written: Vec::new(alloc),
            sources: Vec::new(alloc),
            is_open: false,
            is_whole: true,
        }
    }

    /// The last command, or None if it is not known.
    pub fn last(&self) -> Option<CountedCommand<'_>> {
        let last = self.commands.last()?;
        if !self.is_whole {
            return None;
        }
        let line = self.text.get(self.begin_of(self.commands.len().saturating_sub(1))..last.end)?;
        let change = last.change;
        Some(CountedCommand { line, change })
    }

    // Where the line of the command at this position begins.
    fn begin_of(&self, at: usize) -> usize {
        match at
            .checked_sub(1)
            .and_then(|before| self.commands.get(before))
        {
            Some(command) => command.end,
            None => 0,
        }
    }

    // The line of the command at this position.
    fn line(&self, at: usize) -> &[u8] {
        match self.commands.get(at) {
            Some(command) => self.text.get(self.begin_of(at)..command.end).unwrap_or(&[]),
            None => &[],
        }
    }

    // The author's line whose commands begin at this position, and how many there are, if all that was played for it are commands that count.
    fn source_at(&self, at: usize) -> Option<(&[u8], usize)> {
        let found = self
            .sources
            .binary_search_by(|source| source.first.cmp(&at))
            .ok()?;
        let source = self.sources.get(found).filter(|source| source.is_whole)?;
        let before = found
            .checked_sub(1)
            .and_then(|before| self.sources.get(before));
        let begin = before.map_or(0, |before| before.end);
        Some((self.written.get(begin..source.end)?, source.count))
    }

    /// Says the lines that lead to the present state, one below the other, as their author wrote them. Of a line that only in part made commands
    /// that count, it is these commands.
    pub fn tell_lines(&self, notes: &mut Notes) -> Result<(), AllocError> {
        if !self.is_whole {
            return notes.say("some commands are not known any more: memory ran out");
        }
        let mut next = 0usize;
        for at in 0..self.commands.len() {
            if at < next {
                continue;
            }
            let (line, count) = self.source_at(at).unwrap_or((self.line(at), 1));
            notes.say_with("{}", &[Part::Bytes(line.trim_ascii())])?;
            next = at.saturating_add(count);
        }
        Ok(())
    }

    // Notes that the last command is one of this line of the author.
    fn try_note(&mut self, written: &[u8]) -> Result<(), AllocError> {
        let at = self.commands.len().saturating_sub(1);
        if self.is_open {
            if let Some(source) = self.sources.last_mut() {
                source.count = source.count.saturating_add(1);
            }
            return Ok(());
        }
        self.written.extend_from_slice(written)?;
        let end = self.written.len();
        self.sources.push(Source {
            first: at,
            count: 1,
            end,
            is_whole: true,
        })?;
        self.is_open = true;
        Ok(())
    }

    fn try_push(
        &mut self,
        line: &[u8],
        written: &[u8],
        change: BreakpointChange,
    ) -> Result<(), AllocError> {
        self.text.extend_from_slice(line)?;
        let end = self.text.len();
        self.commands.push(Ended { end, change })?;
        if line != written {
            self.try_note(written)?;
        }
        Ok(())
    }

    /// A line of the author begins.
    pub fn begin_line(&mut self) {
        self.is_open = false;
    }

    /// The command of this line was accepted, which was played for this line of the author.
    pub fn push(&mut self, line: &[u8], written: &[u8], call: &Call) {
        let is_pushed = self
            .try_push(line, written, BreakpointChange::by(call))
            .is_ok();
        self.is_whole = self.is_whole && is_pushed;
    }

    /// A line was played for the author's line that is no command that counts.
    pub fn skip(&mut self) {
        if self.is_open {
            if let Some(source) = self.sources.last_mut() {
                source.is_whole = false;
            }
        }
    }

    // Takes the last command off the line of the author that it came from.
    fn shorten(&mut self) {
        let Some(source) = self.sources.last() else {
            return;
        };
        let (first, count) = (source.first, source.count);
        if first.saturating_add(count) < self.commands.len() {
            return;
        }
        if count > 1 {
            if let Some(source) = self.sources.last_mut() {
                source.count = count.saturating_sub(1);
                source.is_whole = false;
            }
            return;
        }
        let _ = self.sources.pop();
        let begin = self.sources.last().map_or(0, |source| source.end);
        self.written.truncate(begin);
        self.is_open = false;
    }

    /// The last command was taken back.
    pub fn pop(&mut self) {
        self.shorten();
        let begin = self.begin_of(self.commands.len().saturating_sub(1));
        self.text.truncate(begin);
        let _ = self.commands.pop();
    }
}
