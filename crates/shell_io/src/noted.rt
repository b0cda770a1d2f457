//! A reader or a writer, with a note of whether it has failed.

ghost use Rattle.std.specs.Prelude.{◌≡◌, [], IfOk, OnOk};
ghost use Rattle.std.specs.Io.{ReadsAtMost, WritesAtMost};
ghost use Rattle.std.specs.Io.KnownBytes.{Keeps, ReadConsumes, WriteAppends};
ghost use Rattle.shell_io.specs.declared.health.Health.TheVariants.{Fine, Failed, TriedAgain};
ghost use Rattle.shell_io.specs.Healths.{health_after};
ghost use Rattle.shell_io.specs.Seen.{seen_noted};

use crate::health::Health;
use crate::streams::{Sink, Source};
use crate::style::{Style, StyledWrite};
use std::io::{Error, ErrorKind, Read, Result, Write};

/// A reader or a writer that is not called again once it has failed: each further call returns an error. A write that accepts no byte is a
/// failure.
#[derive(Drop)]
pub struct Noted<D> {
    device: D,
    health: Health,
}

impl<D> Noted<D> {
    /// A device that has not failed. It does not allocate.
    pub fn new(device: D) -> Noted<D>
        ensures device { result.device ≡ device }
        ensures fine { result.health ≡ Fine }
    {
        Noted {
            device,
            health: Health::Fine,
        }
    }

    /// Whether the device has failed.
    pub fn health(&self) -> Health
        ensures { result ≡ self.now.health }
    {
        self.health
    }

    /// The device, by reference.
    pub fn device(&self) -> &D
        ensures { result.now ≡ self.now.device }
    {
        &self.device
    }

    /// The device.
    pub fn into_inner(self) -> D
        ensures { result ≡ self.device }
    {
        self.device
    }

    /// Succeeds, unless the device has failed. Then it returns an error, and notes that a further call was made.
    pub fn go_on(&mut self) -> Result<()>
        ensures device { self.new.device ≡ self.old.device }
        ensures fine { OnOk result ((self.old.health ≡ Fine) × (self.new ≡ self.old)) }
        ensures health { self.new.health ≡ health_after self.old.health result }
    {
        if self.health == Health::Fine {
            return Ok(());
        }
        Err(self.tried_again())
    }

    // Notes that a further call was made after the device has failed, and returns its error.
    #[cold]
    #[inline(never)]
    fn tried_again(&mut self) -> Error
        ensures device { self.new.device ≡ self.old.device }
        ensures health { self.new.health ≡ TriedAgain }
    {
        self.health = Health::TriedAgain;
        Error::from(ErrorKind::Other)
    }

    // Notes that a call of the device failed, with this error.
    fn failed(&mut self, error: Error) -> Error
        ensures device { self.new.device ≡ self.old.device }
        ensures health { self.new.health ≡ Failed }
        ensures error { result ≡ error }
    {
        self.health = Health::Failed;
        error
    }
}

impl<W: StyledWrite> Noted<W> {
    /// Sets the style of the next bytes of the device.
    pub fn set_device_style(&mut self, style: Style)
        ensures bytes { Keeps (W.contents self.old.device) (W.contents self.new.device) }
        ensures health { self.new.health ≡ self.old.health }
    {
        self.device.set_style(style);
    }
}

impl<R: Read> Source for Noted<R> {
    ghost remaining = { λ noted. R.remaining noted.device };

    ghost health = { λ noted. noted.health };

    fn read(&mut self, bytes: &mut [u8]) -> Result<usize>
        ensures bound { ReadsAtMost result bytes.new }
        ensures bytes { ReadConsumes (R.remaining self.old.device) (R.remaining self.new.device) result bytes.new }
        ensures health { self.new.health ≡ health_after self.old.health result }
    {
        if self.health != Health::Fine {
            return Err(self.tried_again());
        }
        match self.device.read(bytes) {
            Ok(count) => Ok(count),
            Err(error) => Err(self.failed(error)),
        }
    }
}

impl<W: Write> Sink for Noted<W> {
    ghost seen = { seen_noted W.contents };

    fn write(&mut self, bytes: &[u8]) -> Result<usize>
        ensures bound { WritesAtMost result bytes.now }
        ensures bytes { WriteAppends (W.contents self.old.device) (W.contents self.new.device) result bytes.now }
        ensures takes { IfOk result (λ count. count ≡ 0 → bytes.now ≡ []) }
        ensures health { self.new.health ≡ health_after self.old.health result }
    {
        if self.health != Health::Fine {
            return Err(self.tried_again());
        }
        match self.device.write(bytes) {
            Ok(0) if !bytes.is_empty() => Err(self.failed(Error::from(ErrorKind::WriteZero))),
            Ok(count) => Ok(count),
            Err(error) => Err(self.failed(error)),
        }
    }

    fn flush(&mut self) -> Result<()>
        ensures bytes { Keeps (W.contents self.old.device) (W.contents self.new.device) }
        ensures health { self.new.health ≡ health_after self.old.health result }
    {
        if self.health != Health::Fine {
            return Err(self.tried_again());
        }
        match self.device.flush() {
            Ok(()) => Ok(()),
            Err(error) => Err(self.failed(error)),
        }
    }

    // It shows no styles.
    fn set_style(&mut self, _style: Style) -> Result<()>
        ensures bytes { Keeps (W.contents self.old.device) (W.contents self.new.device) }
        ensures health { self.new.health ≡ health_after self.old.health result }
    {
        self.go_on()
    }
}
