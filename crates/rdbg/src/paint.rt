//! Text and colours for a terminal.

ghost use Rattle.std.specs.Io.{WritesAtMost};

use shell_io::{Style, StyledWrite};
use std::alloc::{AllocError, Global};
use std::io;
use std::io::{ErrorKind, Stderr, Stdout, Write};
use ui_text::put_visible;

// Ends what an escape sequence has set.
const PLAIN: &str = "\x1b[0m";

// The colours of processes, by their numbers.
const HUES: [&str; 6] = [
    "\x1b[36m", "\x1b[33m", "\x1b[35m", "\x1b[32m", "\x1b[34m", "\x1b[96m",
];

/// How bytes are written.
#[derive(Clone, Copy, PartialEq, Eq)]
pub(crate) enum Look {
    /// As they are.
    Raw,
    /// As text that cannot drive a terminal: control bytes are written as `\x1b`.
    Visible,
    /// The same, with colours.
    Coloured,
}

/// A standard stream for output.
#[derive(Drop)]
pub(crate) enum Stream {
    Output(Stdout),
    Errors(Stderr),
}

impl Write for Stream {
    #[inline(always)]
    fn write(&mut self, bytes: &[u8]) -> io::Result<usize> {
        match self {
            Stream::Output(stream) => stream.write(bytes),
            Stream::Errors(stream) => stream.write(bytes),
        }
    }

    #[inline(always)]
    fn flush(&mut self) -> io::Result<()> {
        match self {
            Stream::Output(stream) => stream.flush(),
            Stream::Errors(stream) => stream.flush(),
        }
    }
}

/// A writer for text, which it writes in whole lines. In colours, it shows styles.
#[derive(Drop)]
pub(crate) struct Painted {
    inner: Stream,
    look: Look,
    // The style of the next bytes.
    style: Style,
    // The text that is not written yet: first what is painted, and then bytes of one style in the last line.
    painted: Vec<u8>,
    run: Vec<u8>,
    run_style: Style,
}

// The escape sequence of a style, by Select Graphic Rendition of ISO 6429. It is empty for plain text.
fn sequence_of(style: Style) -> &'static str {
    match style {
        Style::Plain => "",
        Style::Process(number) => {
            let place = number as usize % HUES.len();
            HUES.get(place).copied().unwrap_or(PLAIN)
        }
        Style::Value => "\x1b[1m", // bold
        Style::Halt => "\x1b[1;31m", // bold red
        Style::Place => "\x1b[2m", // faint
        Style::Refusal => "\x1b[31m", // red
        Style::Halted(_) => "\x1b[7m", // inverse
    }
}

// Appends bytes of one style.
fn put_run(text: &mut Vec<u8>, style: Style, bytes: &[u8]) -> Result<(), AllocError> {
    let plain = match style {
        Style::Halted(length) => bytes.len().saturating_sub(length),
        _ => 0,
    };
    put_visible(text, bytes.get(..plain).unwrap_or(&[]))?;
    let (styled, sequence) = (bytes.get(plain..).unwrap_or(&[]), sequence_of(style));
    if sequence.is_empty() || styled.is_empty() {
        return put_visible(text, styled);
    }
    text.extend_from_slice(sequence.as_bytes())?;
    put_visible(text, styled)?;
    text.extend_from_slice(PLAIN.as_bytes())
}

// How many bytes are checked at once.
const BLOCK: usize = 32;

// Whether these are plain characters, and line ends. It checks all bytes, which is faster than to stop at the first that is not.
fn are_plain(bytes: &[u8]) -> bool {
    // The comparison of signed numbers leaves out what is above `~`, too.
    let is_plain = |byte: u8| byte.wrapping_add(1).cast_signed() > 32 || byte == b'\n';
    bytes
        .iter()
        .fold(true, |before, byte| before & is_plain(*byte))
}

// Whether these are lines of plain characters.
#[inline(never)]
fn are_plain_lines(bytes: &[u8]) -> bool {
    let is_line = bytes.last() == Some(&b'\n');
    let Some(end) = bytes.last_chunk::<BLOCK>() else {
        return is_line && are_plain(bytes);
    };
    let mut are_all_plain = is_line && are_plain(end);
    for block in bytes.chunks_exact(BLOCK) {
        are_all_plain &= are_plain(block);
    }
    are_all_plain
}

// Writes all of the bytes. A write that failed is not tried again.
fn write_fully(stream: &mut Stream, bytes: &[u8]) -> io::Result<()> {
    let mut rest = bytes;
    for _ in 0..bytes.len() {
        if rest.is_empty() {
            break;
        }
        let count = stream.write(rest)?;
        if count == 0 {
            return Err(io::Error::from(ErrorKind::WriteZero));
        }
        rest = rest.get(count..).unwrap_or(&[]);
    }
    Ok(())
}

impl Painted {
    /// A writer on top of this stream.
    pub(crate) fn new(alloc: Global, inner: Stream, look: Look) -> Painted {
        Painted {
            inner,
            look,
            style: Style::Plain,
            painted: Vec::new(alloc),
            run: Vec::new(alloc),
            run_style: Style::Plain,
        }
    }

    // Paints the bytes of one style.
    fn paint_run(&mut self) -> Result<(), AllocError> {
        put_run(&mut self.painted, self.run_style, self.run.as_slice())?;
        self.run.clear();
        Ok(())
    }

    // Paints the end of a line, and of its style.
    fn end_line(&mut self) -> Result<(), AllocError> {
        self.paint_run()?;
        self.painted.extend_from_slice(b"\n")?;
        self.style = Style::Plain;
        self.run_style = Style::Plain;
        Ok(())
    }

    // Writes what is painted.
    fn write_painted(&mut self) -> io::Result<()> {
        write_fully(&mut self.inner, self.painted.as_slice())?;
        self.painted.clear();
        Ok(())
    }

    // Whether lines of plain characters are written as they are: nothing is before them, and they have no style.
    fn is_plain(&self) -> bool {
        let is_empty = self.painted.is_empty() && self.run.is_empty();
        is_empty && self.style == Style::Plain && self.run_style == Style::Plain
    }

    // Writes bytes for a person, up to their last line end.
    #[inline(never)]
    fn write_text(&mut self, bytes: &[u8]) -> io::Result<usize>
        ensures { WritesAtMost result bytes.now }
    {
        if self.style != self.run_style {
            self.paint_run()?;
            self.run_style = self.style;
        }
        for piece in bytes.split_inclusive(|byte| *byte == b'\n') {
            let line = piece.strip_suffix(b"\n".as_slice());
            self.run.extend_from_slice(line.unwrap_or(piece))?;
            if line.is_some() {
                self.end_line()?;
            }
        }
        if self.painted.last() == Some(&b'\n') {
            self.write_painted()?;
        }
        Ok(bytes.len())
    }
}

impl Write for Painted {
    fn write(&mut self, bytes: &[u8]) -> io::Result<usize> {
        if self.look == Look::Raw || (self.is_plain() && are_plain_lines(bytes)) {
            return self.inner.write(bytes);
        }
        self.write_text(bytes)
    }

    fn flush(&mut self) -> io::Result<()> {
        if self.look != Look::Raw && !self.is_plain() {
            self.paint_run()?;
            self.write_painted()?;
        }
        self.inner.flush()
    }
}

impl StyledWrite for Painted {
    fn shows_styles(&self) -> bool {
        self.look == Look::Coloured
    }

    fn set_style(&mut self, style: Style) {
        self.style = style;
    }
}
