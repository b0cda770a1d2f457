//! Words that wrap.

use std::alloc::AllocError;
use ui_text::{Notes, Part};

/// Lines of at most so many characters, which begin at a column after the first one.
#[derive(Clone, Copy)]
pub struct Wrapping {
    pub width: usize,
    pub column: usize,
}

// Whether a blank belongs to a comparison or an assignment, or is before a parenthesis.
fn is_bound(words: &[u8], blank: usize) -> bool {
    let is_sign = |at: usize| matches!(words.get(at), Some(b'=' | b'<' | b'>' | b'!'));
    let after = blank.saturating_add(1);
    let is_before_parenthesis = words.get(after) == Some(&b'(');
    is_before_parenthesis || is_sign(after) || (blank > 0 && is_sign(blank.saturating_sub(1)))
}

// Where the words end that stay together, from a place on: at a blank that is not in parentheses, in a command or at a comparison.
fn end_of_phrase(words: &[u8], from: usize) -> usize {
    let mut depth = 0usize;
    let mut is_quoted = false;
    for at in from..words.len() {
        match words.get(at) {
            Some(b'`') => is_quoted = !is_quoted,
            Some(b'(') => depth = depth.saturating_add(1),
            Some(b')') => depth = depth.saturating_sub(1),
            Some(b' ') if depth == 0 && !is_quoted && !is_bound(words, at) => return at,
            _ => {}
        }
    }
    words.len()
}

// Where the word ends that begins at a place.
fn end_of_word(words: &[u8], from: usize) -> usize {
    let rest = words.get(from..).unwrap_or(&[]);
    let length = rest.iter().take_while(|byte| **byte != b' ').count();
    from.saturating_add(length)
}

impl Wrapping {
    // Where the words end that the next line has to have together.
    fn end(&self, words: &[u8], from: usize) -> usize {
        let end = end_of_phrase(words, from);
        let room = self.width.saturating_sub(self.column);
        if end.saturating_sub(from) > room {
            return end_of_word(words, from);
        }
        end
    }

    // Appends words that stay together to the last line, or puts them into a new line if they do not fit. Further ones come after a blank.
    fn put_phrase(
        &self,
        notes: &mut Notes,
        is_further: bool,
        phrase: &[u8],
    ) -> Result<(), AllocError> {
        let width = notes.width().saturating_add(usize::from(is_further));
        if width > self.column && width.saturating_add(phrase.len()) > self.width {
            notes.say("")?;
            notes.tab(self.column)?;
        } else if is_further {
            notes.add(" ")?;
        }
        notes.add_with("{}", &[Part::Bytes(phrase)])
    }

    /// Appends words to the last line, and to new ones if they do not fit.
    pub fn put(&self, notes: &mut Notes, words: &[u8]) -> Result<(), AllocError> {
        let mut from = 0usize;
        for _ in 0..words.len() {
            if from >= words.len() {
                break;
            }
            let end = self.end(words, from);
            let phrase = words.get(from..end).unwrap_or(&[]);
            self.put_phrase(notes, from > 0, phrase)?;
            from = end.saturating_add(1);
        }
        Ok(())
    }
}
