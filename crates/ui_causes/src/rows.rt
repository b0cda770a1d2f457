//! Rows of a label and words, which wrap.

use std::alloc::AllocError;
use ui_text::{Notes, Part};
use ui_view::SourceView;

// How many characters a label has that is not about a process, with the blanks around it.
const LABEL: usize = 15;

// The room of a name in a label.
const FROM: usize = 7;

/// Rows of words after a label.
#[derive(Clone, Copy)]
pub(crate) struct Rows {
    /// Where the words begin.
    pub(crate) column: usize,
    // The most characters of a line.
    width: usize,
}

/// No words. They are one line.
pub(crate) fn new_words(notes: &Notes) -> Result<Notes, AllocError> {
    let mut words = Notes::new(notes.alloc());
    words.begin(false);
    words.say("")?;
    Ok(words)
}

impl Rows {
    /// Rows about the processes of this session.
    pub(crate) fn new(view: SourceView<'_>) -> Rows {
        let longest = view.text.longest_name();
        Rows {
            column: longest.saturating_add(FROM).max(LABEL),
            width: view.width,
        }
    }

    /// Begins a row with a label.
    pub(crate) fn begin(
        &self,
        notes: &mut Notes,
        form: &str,
        label: &[Part<'_>],
    ) -> Result<(), AllocError> {
        notes.say_with(form, label)?;
        notes.tab(self.column)
    }

    /// Appends words to the last line after this mark, or puts them into a new line, if they do not fit.
    pub(crate) fn put(
        &self,
        notes: &mut Notes,
        mark: &'static str,
        words: &Notes,
    ) -> Result<(), AllocError> {
        let words = words.line(0).bytes;
        notes.add(mark)?;
        let width = notes.width();
        if width <= self.column {
            return notes.add_with("{}", &[Part::Bytes(words)]);
        }
        if width.saturating_add(1).saturating_add(words.len()) > self.width {
            notes.say("")?;
            notes.tab(self.column)?;
            return notes.add_with("{}", &[Part::Bytes(words)]);
        }
        notes.add_with(" {}", &[Part::Bytes(words)])
    }
}
