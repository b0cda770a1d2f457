//! The lines of a session, and what each of them did.

use crate::data::{Incomplete, PageData};
use crate::list::List;
use serde_json::Value;
use shell_parse::without_return;
use std::alloc::{AllocError, Global};
use std::mem;
use ui_text::Notes;

/// The most bytes that the replies of a page have.
pub const REPLY_BYTES: usize = 16_777_216;

// The most bytes that the explanations of a page have. Lines after that have none.
const EXPLAINED_BYTES: usize = 1_048_576;

// Where the text of a line ends in the texts of all lines, its reply in all replies, and its explanation in all explanations. A line without
// a reply has an empty one.
#[derive(Clone, Copy)]
struct End {
    text: usize,
    reply: usize,
    explained: usize,
}

/// The lines, one after the other, and their operations.
#[derive(Drop)]
pub(super) struct RecordedLines {
    text: Vec<u8>,
    replies: Vec<u8>,
    explanations: Vec<u8>,
    ends: Vec<End>,
    // How many lines the page shows so far.
    shown: usize,
    // The operations of the present line.
    operations: List,
    // The program. Then of each line that has operations, its number among the lines that the page shows, and the operations.
    data: PageData,
}

impl RecordedLines {
    pub(super) fn new(alloc: Global) -> RecordedLines {
        RecordedLines {
            text: Vec::new(alloc),
            replies: Vec::new(alloc),
            explanations: Vec::new(alloc),
            ends: Vec::new(alloc),
            shown: 0,
            operations: List::new(alloc),
            data: PageData::new(alloc),
        }
    }

    /// Adds a line to the data.
    pub(super) fn add(&mut self, alloc: Global, value: &Value) -> Result<(), Incomplete> {
        self.data.add(alloc, value)
    }

    /// Begins a line.
    pub(super) fn begin(&mut self, alloc: Global, line: &[u8]) -> Result<(), AllocError> {
        let line = without_return(line);
        if is_shown(line) {
            self.shown = self.shown.saturating_add(1);
        }
        self.operations = List::new(alloc);
        self.operations.count(self.shown)?;
        self.text.extend_from_slice(line)?;
        let end = End {
            text: self.text.len(),
            reply: self.replies.len(),
            explained: self.explanations.len(),
        };
        Ok(self.ends.push(end)?)
    }

    /// The number of the present line, and then its operations.
    pub(super) fn operations(&mut self) -> &mut List {
        &mut self.operations
    }

    /// Adds these lines to the explanation of the present line, if there is room for them.
    pub(super) fn explain(&mut self, notes: &Notes) -> Result<(), AllocError> {
        if notes.length() > EXPLAINED_BYTES.saturating_sub(self.explanations.len()) {
            return Ok(());
        }
        for number in 0..notes.count() {
            self.explanations
                .extend_from_slice(notes.line(number).bytes)?;
            self.explanations.push(b'\n')?;
        }
        if let Some(end) = self.ends.last_mut() {
            end.explained = self.explanations.len();
        }
        Ok(())
    }

    /// The present line has this reply, and its operations end here.
    pub(super) fn end(&mut self, alloc: Global, reply: &[u8]) -> Result<(), Incomplete> {
        if reply.len() > REPLY_BYTES.saturating_sub(self.replies.len()) {
            return Err(Incomplete::TooLarge);
        }
        self.replies.extend_from_slice(reply)?;
        if let Some(end) = self.ends.last_mut() {
            end.reply = self.replies.len();
        }
        let operations = mem::replace(&mut self.operations, List::new(alloc));
        if operations.len() > 1 {
            self.data.add(alloc, &operations.into_value())?;
        }
        Ok(())
    }

    // The line between these ends, its reply, and its explanation, if it has one. None if the page does not show the line.
    fn value(&self, alloc: Global, from: End, to: End) -> Result<Option<Value>, AllocError> {
        let line = self.text.get(from.text..to.text).unwrap_or(&[]);
        if !is_shown(line) {
            return Ok(None);
        }
        let mut value = List::new(alloc);
        value.text(line)?;
        value.text(self.replies.get(from.reply..to.reply).unwrap_or(&[]))?;
        let explained = self.explanations.get(from.explained..to.explained);
        if let Some([_, ..]) = explained {
            value.text(explained.unwrap_or(&[]))?;
        }
        Ok(Some(value.into_value()))
    }

    /// Adds the lines with their replies to the data.
    pub(super) fn put_replies(&mut self, alloc: Global) -> Result<(), Incomplete> {
        let mut from = End {
            text: 0,
            reply: 0,
            explained: 0,
        };
        for number in 0..self.ends.len() {
            let to = self.ends.get(number).copied().unwrap_or(from);
            if let Some(value) = self.value(alloc, from, to)? {
                self.data.add(alloc, &value)?;
            }
            from = to;
        }
        Ok(())
    }

    /// The data. Then there are none.
    pub(super) fn take_data(&mut self, alloc: Global) -> PageData {
        mem::replace(&mut self.data, PageData::new(alloc))
    }
}

// Whether a line is shown. Blank lines and expected replies are not shown.
fn is_shown(line: &[u8]) -> bool {
    !matches!(line.trim_ascii(), [] | [b'>', ..])
}
