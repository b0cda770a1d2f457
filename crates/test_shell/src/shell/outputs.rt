//! The buffered output: what it does after a failure, and the order of bytes and styles.

use crate::expecting::{expect_same, expect_true};
use shell_io::{Output, Sink, Style, StyledWrite};
use std::alloc::Global;
use std::io;
use std::io::{ErrorKind, Write};
use std::test::Fail;

// Takes at most four bytes at each write. The `left`-th write fails as `fault` says, or takes nothing. The writes after it succeed.
#[derive(Drop)]
struct Stumbles {
    taken: Vec<u8>,
    count: usize,
    left: usize,
    fault: Option<ErrorKind>,
    calls: usize,
    flushes: usize,
    shows_styles: bool,
    // The styles that were set, each with the number of bytes before it.
    styles: Vec<(usize, Style)>,
}

impl Stumbles {
    fn new(alloc: Global, left: usize, fault: Option<ErrorKind>) -> Self {
        Self {
            taken: Vec::new(alloc),
            count: 0,
            left,
            fault,
            calls: 0,
            flushes: 0,
            shows_styles: true,
            styles: Vec::new(alloc),
        }
    }
}

impl Write for Stumbles {
    fn write(&mut self, buf: &[u8]) -> io::Result<usize> {
        let is_bad = self.calls == self.left;
        self.calls = self.calls.saturating_add(1);
        if is_bad {
            return match self.fault {
                Some(kind) => Err(io::Error::from(kind)),
                None => Ok(0),
            };
        }
        let count = buf.len().min(4);
        self.taken.extend_from_slice(&buf[..count])?;
        self.count = self.count.saturating_add(count);
        Ok(count)
    }

    fn flush(&mut self) -> io::Result<()> {
        self.flushes = self.flushes.saturating_add(1);
        Ok(())
    }
}

impl StyledWrite for &mut Stumbles {
    fn shows_styles(&self) -> bool {
        self.shows_styles
    }

    fn set_style(&mut self, style: Style) {
        let count = self.count;
        let _pushed = self.styles.push((count, style));
    }
}

#[test]
fn a_write_that_failed_is_not_tried_again(rt: HostRuntime) -> Result<(), Fail> {
    let text = b"ten bytes.";
    for fault in [Some(ErrorKind::Interrupted), Some(ErrorKind::Other), None] {
        for (left, taken) in [(0, 0), (1, 4), (2, 8)] {
            let mut stumbles = Stumbles::new(rt.alloc(), left, fault);
            let mut output = Output::new(&mut stumbles);
            expect_same(&rt, output.write(text)?, 10);
            expect_true(&rt, output.flush().is_err());
            expect_true(&rt, output.flush().is_err());
            expect_true(&rt, output.write(text).is_err());
            expect_true(&rt, output.set_style(Style::Value).is_err());
            drop(output);
            expect_same(
                &rt,
                stumbles.taken.as_slice(),
                text.get(..taken).unwrap_or(&[]),
            );
            expect_same(&rt, (stumbles.calls, stumbles.flushes), (left + 1, 0));
            expect_true(&rt, stumbles.styles.is_empty());
        }
    }
    Ok(())
}

#[test]
fn bytes_and_styles_go_out_in_order(rt: HostRuntime) -> Result<(), Fail> {
    // Each byte differs from those near it.
    let mut text = Vec::new(rt.alloc());
    for i in 0..16_484u32 {
        text.push((i % 251) as u8)?;
    }
    let mut stumbles = Stumbles::new(rt.alloc(), 100_000, None);
    let mut output = Output::new(&mut stumbles);
    // The lengths of pieces, how much of each is taken, and the style that is set after it. The second piece fills the buffer.
    let steps = [
        (100, 100, Style::Value),
        (8_192, 8_192, Style::Place),
        (0, 0, Style::Plain),
        (9_000, 8_192, Style::Plain),
    ];
    let mut rest = text.as_slice();
    for (size, taken, style) in steps {
        let piece = &rest[..rest.len().min(size)];
        expect_same(&rt, output.write(piece)?, taken);
        rest = rest.get(taken..).unwrap_or(&[]);
        output.set_style(style)?;
    }
    expect_true(&rt, rest.is_empty());
    output.flush()?;
    drop(output);
    let styles = [
        (100, Style::Value),
        (8_292, Style::Place),
        (8_292, Style::Plain),
        (16_484, Style::Plain),
    ];
    expect_same(&rt, stumbles.flushes, 1);
    expect_same(&rt, stumbles.styles.as_slice(), styles.as_slice());
    expect_same(&rt, stumbles.taken.as_slice(), text.as_slice());
    Ok(())
}

#[test]
fn dropping_the_output_writes_nothing(rt: HostRuntime) -> Result<(), Fail> {
    for shows_styles in [true, false] {
        let mut stumbles = Stumbles::new(rt.alloc(), 100, None);
        stumbles.shows_styles = shows_styles;
        let mut output = Output::new(&mut stumbles);
        expect_same(&rt, output.write(b"lost")?, 4);
        // A style is for a writer that shows it, and writes the bytes before it there.
        if !shows_styles {
            output.set_style(Style::Value)?;
        }
        drop(output);
        expect_same(&rt, stumbles.calls, 0);
        expect_true(&rt, stumbles.styles.is_empty());
    }
    Ok(())
}
