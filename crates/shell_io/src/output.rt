//! A writer with a buffer.

ghost use Rattle.std.specs.Prelude.{◌≡◌, ◌<◌, ◌≤◌, ◌++◌, [], length, take, OnOk, IfOk};
ghost use Rattle.std.specs.Io.{WritesAtMost};
ghost use Rattle.std.specs.Io.KnownBytes.{Keeps, WriteAppends};
ghost use Rattle.shell_io.specs.declared.health.Health.TheVariants.{Fine};
ghost use Rattle.shell_io.specs.Healths.{health_after};
ghost use Rattle.shell_io.specs.declared.output.TheConstants.{ROOM};
ghost use Rattle.shell_io.specs.Outputs.{output_contents, output_seen};

use crate::fixed_buffer::FixedBuffer;
use crate::health::Health;
use crate::noted::Noted;
use crate::streams::Sink;
use crate::style::{Style, StyledWrite};
use std::io::{Error, ErrorKind, Result, Write};
use std::result;

// The bytes that are kept before they are written.
const ROOM: usize = 8_192;

/// A writer with a buffer of 8,192 bytes, which `flush` writes. A write that failed is not tried again: each further call returns an error.
/// Dropping the output writes nothing.
#[derive(Drop)]
pub struct Output<W> {
    inner: Noted<W>,
    buffer: FixedBuffer<ROOM>,
}

impl<W: Write> Output<W> {
    /// An output with an empty buffer. It does not allocate.
    pub fn new(inner: W) -> Output<W>
        ensures inner { result.inner.device ≡ inner }
        ensures empty { result.buffer ≡ [] }
        ensures fine { result.inner.health ≡ Fine }
    {
        Output {
            inner: Noted::new(inner),
            buffer: FixedBuffer::new(),
        }
    }

    // Writes all bytes of the buffer. Error: of which kind the failure of the writer is. It ends the output for good.
    fn hand_on(&mut self) -> result::Result<(), ErrorKind>
        requires { self.old.inner.health ≡ Fine }
        ensures bytes { Keeps (output_contents W.contents self.old) (output_contents W.contents self.new) }
        ensures empty { OnOk result (self.new.buffer ≡ []) }
        ensures health { self.new.inner.health ≡ health_after Fine result }
    {
        while !self.buffer.bytes().is_empty() {
            let count = match self.inner.write(self.buffer.bytes()) {
                Ok(count) => count,
                Err(error) => return Err(error.kind()),
            };
            self.buffer.drop_prefix(count);
        }
        Ok(())
    }

    // Keeps as many bytes as there is room for, and returns how many.
    fn keep(&mut self, bytes: &[u8]) -> usize
        requires { length self.old.buffer < ROOM }
        ensures inner { self.new.inner ≡ self.old.inner }
        ensures few { result ≤ length bytes.now }
        ensures bytes { self.new.buffer ≡ self.old.buffer ++ take result bytes.now }
        ensures takes { result ≡ 0 → bytes.now ≡ [] }
    {
        let count = bytes.len().min(self.buffer.room());
        self.buffer.append(&bytes[..count]);
        count
    }

    // Writes the buffer if it is full, and then keeps bytes.
    #[cold]
    #[inline(never)]
    fn make_room_and_keep(&mut self, bytes: &[u8]) -> Result<usize>
        ensures bound { WritesAtMost result bytes.now }
        ensures bytes { WriteAppends (output_contents W.contents self.old) (output_contents W.contents self.new) result bytes.now }
        ensures takes { IfOk result (λ count. count ≡ 0 → bytes.now ≡ []) }
        ensures health { self.new.inner.health ≡ health_after self.old.inner.health result }
    {
        self.inner.go_on()?;
        if self.buffer.room() == 0 {
            if let Err(kind) = self.hand_on() {
                return Err(Error::from(kind));
            }
        }
        Ok(self.keep(bytes))
    }
}

impl<W: StyledWrite> Sink for Output<W> {
    ghost seen = { output_seen W.contents };

    // Takes as many bytes as there is room for. A full buffer is written first.
    fn write(&mut self, bytes: &[u8]) -> Result<usize>
        ensures bound { WritesAtMost result bytes.now }
        ensures bytes { WriteAppends (output_contents W.contents self.old) (output_contents W.contents self.new) result bytes.now }
        ensures takes { IfOk result (λ count. count ≡ 0 → bytes.now ≡ []) }
        ensures health { self.new.inner.health ≡ health_after self.old.inner.health result }
    {
        if self.inner.health() == Health::Fine && self.buffer.room() > 0 {
            return Ok(self.keep(bytes));
        }
        self.make_room_and_keep(bytes)
    }

    fn flush(&mut self) -> Result<()>
        ensures bytes { Keeps (output_contents W.contents self.old) (output_contents W.contents self.new) }
        ensures empty { OnOk result (self.new.buffer ≡ []) }
        ensures health { self.new.inner.health ≡ health_after self.old.inner.health result }
    {
        if self.inner.health() != Health::Fine {
            return self.inner.go_on();
        }
        match self.hand_on() {
            Ok(()) => self.inner.flush(),
            Err(kind) => Err(Error::from(kind)),
        }
    }

    fn shows_styles(&self) -> bool {
        self.inner.device().shows_styles()
    }

    // The bytes in the buffer have the style before. They are written first, if the writer shows styles.
    fn set_style(&mut self, style: Style) -> Result<()>
        ensures bytes { Keeps (output_contents W.contents self.old) (output_contents W.contents self.new) }
        ensures health { self.new.inner.health ≡ health_after self.old.inner.health result }
    {
        self.inner.go_on()?;
        if self.shows_styles() {
            if let Err(kind) = self.hand_on() {
                return Err(Error::from(kind));
            }
            self.inner.set_device_style(style);
        }
        Ok(())
    }
}
