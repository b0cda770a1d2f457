//! The plain text, and where each of its tokens comes from.

ghost use Rattle.std.specs.Prelude.{◌≡◌, ◌≤◌, IfOk, vec_len};
ghost use Rattle.notation_programs.specs.TokenCounts.{are_joined, begins_token, token_count};
ghost use Rattle.dbg_base.specs.declared.limits.TheConstants.{INPUT_BYTES};

use dbg_base::limits::INPUT_BYTES;
use notation_tree::fault::{Expanding, ExpansionStop, Problem};
use notation_tree::token::{is_space, is_word_byte};
use std::alloc::{AllocError, Global};

/// A token of the plain text: its offset there, the offset in the source, and the copy in which it is.
#[derive(Clone, Copy)]
pub(crate) struct Origin {
    pub(crate) start: usize,
    pub(crate) at: usize,
    pub(crate) copy: usize,
}

/// The plain text as far as it is written.
#[derive(Drop)]
pub struct PlainText {
    pub bytes: Vec<u8>,
    pub(crate) origins: Vec<Origin>,
    // Whether the next token follows without a blank.
    tight: bool,
    ghost few: { vec_len bytes ≤ INPUT_BYTES },
}

impl PlainText {
    /// Nothing is written.
    pub fn new(alloc: Global) -> PlainText {
        PlainText {
            bytes: Vec::new(alloc),
            origins: Vec::new(alloc),
            tight: true,
        }
    }

    // Writes these bytes, unless the text becomes too long. A fault is at this offset of the source.
    fn put(&mut self, bytes: &[u8], at: usize) -> Expanding<()> {
        if bytes.len() > INPUT_BYTES.saturating_sub(self.bytes.len()) {
            return Err(ExpansionStop::Bad(Problem::LongText, at));
        }
        self.bytes.extend_from_slice(bytes)?;
        Ok(())
    }

    /// Begins a line, with so many blanks.
    pub(crate) fn line(&mut self, indent: &[u8], at: usize) -> Expanding<()> {
        if !self.bytes.is_empty() {
            self.put(b"\n", at)?;
        }
        self.put(indent, at)?;
        self.tight = true;
        Ok(())
    }

    /// Writes a token, after a blank where one belongs there. It comes from this offset of the source, in this copy.
    pub(crate) fn token(&mut self, token: &[u8], at: usize, copy: usize) -> Expanding<()> {
        if !self.tight {
            self.put(b" ", at)?;
        }
        self.tight = token == b"(".as_slice();
        let start = self.bytes.len();
        self.put(token, at)?;
        self.origins.push(Origin { start, at, copy })?;
        Ok(())
    }

    /// Lets the next token follow without a blank.
    pub(crate) fn join(&mut self) {
        self.tight = true;
    }
}

// Whether two bytes, one after the other, are of one token.
fn are_joined(before: u8, byte: u8) -> bool
    ensures { result ≡ are_joined before byte }
{
    (is_word_byte(before) && is_word_byte(byte))
        || ((before == b':' || before == b'!' || before == b'<' || before == b'>') && byte == b'=')
}

// Whether a token begins with a byte that comes after another one.
fn begins_token(before: u8, byte: u8) -> bool
    ensures { result ≡ begins_token before byte }
{
    !is_space(byte) && !are_joined(before, byte)
}

// The origin of the token of this number.
fn origin_of(origins: &[Origin], number: usize) -> Origin {
    let first = Origin {
        start: 0,
        at: 0,
        copy: 0,
    };
    origins.get(number).copied().unwrap_or(first)
}

/// For each token of a plain text where it comes from; the tokens were written in the order of these origins.
pub(crate) fn map_of(
    alloc: Global,
    text: &[u8],
    origins: &[Origin],
) -> Result<Vec<Origin>, AllocError>
    ensures { IfOk result (λ map. vec_len map ≡ token_count text.now) }
{
    let mut map = Vec::new(alloc);
    let mut before = b' ';
    let mut rest = text;
    while let [byte, others @ ..] = rest {
        if begins_token(before, *byte) {
            map.push(origin_of(origins, map.len()))?;
        }
        before = *byte;
        rest = others;
    }
    Ok(map)
}
