//! A reader whose last line always ends with a line end.

ghost use Rattle.std.specs.Prelude.{◌≡◌};
ghost use Rattle.std.specs.Io.Chain.{chain_remaining};
ghost use Rattle.shell_io.specs.Lines.{with_line_end, closed_remaining, inputs_in_order};

use std::io::{Chain, Read, Result};

/// The bytes of a reader. If there are any and they do not end with a line end, a line end follows. A failure of the reader is reported,
/// and loses nothing.
#[derive(Drop)]
pub struct ClosedLines<R> {
    reader: R,
    // The last byte that was returned, or a line end if there was none.
    last: u8,
}

impl<R: Read> ClosedLines<R> {
    /// A reader of which nothing was read yet. It does not allocate.
    pub fn new(reader: R) -> ClosedLines<R>
        ensures { closed_remaining R.remaining result ≡ with_line_end (R.remaining reader) }
    {
        ClosedLines {
            reader,
            last: b'\n',
        }
    }
}

impl<R: Read> Read for ClosedLines<R> {
    ghost remaining = { closed_remaining R.remaining };

    fn read(&mut self, bytes: &mut [u8]) -> Result<usize> {
        let count = self.reader.read(bytes)?;
        if count > 0 {
            self.last = bytes[count - 1];
            return Ok(count);
        }
        if bytes.is_empty() || self.last == b'\n' {
            return Ok(0);
        }
        self.last = b'\n';
        bytes[0] = b'\n';
        Ok(1)
    }
}

/// Both readers as one stream: all bytes of the first reader, a line end if they do not end with one, and then those of the second. It does
/// not allocate.
pub fn one_after_the_other<R: Read, S: Read>(first: R, second: S) -> Chain<ClosedLines<R>, S>
    ensures { chain_remaining (closed_remaining R.remaining) S.remaining result
        ≡ inputs_in_order (R.remaining first) (S.remaining second) }
{
    ClosedLines::new(first).chain(second)
}
