//! Sources, from which bytes are read, and sinks, to which they are written.

ghost use Rattle.std.specs.Prelude.{◌≡◌, ℕ, List, [], Option, IfOk};
ghost use Rattle.std.specs.Io.{ReadsAtMost, WritesAtMost};
ghost use Rattle.std.specs.Io.KnownBytes.{Keeps, ReadConsumes, WriteAppends};
ghost use Rattle.shell_io.specs.declared.health.Health.{Health};
ghost use Rattle.shell_io.specs.Healths.{health_after};
ghost use Rattle.shell_io.specs.Seen.{Seen};

use crate::style::Style;
use std::io::Result;

/// A source of bytes.
pub trait Source {
    // The bytes that reads will still return, if they are known.
    ghost remaining: { Self → Option (List ℕ) };

    ghost health: { Self → Health };

    /// Reads some bytes to the beginning of `bytes`, and returns how many: none at the end, or if there is no room. An error is a failure
    /// of the source.
    fn read(&mut self, bytes: &mut [u8]) -> Result<usize>
        ensures bound { ReadsAtMost result bytes.new }
        ensures bytes { ReadConsumes (remaining self.old) (remaining self.new) result bytes.new }
        ensures health { health self.new ≡ health_after (health self.old) result };
}

/// A sink for bytes.
pub trait Sink {
    ghost seen: { Self → Seen };

    /// Writes some of the first bytes, and returns how many: at least one, if there are any. An error is a failure of the sink.
    fn write(&mut self, bytes: &[u8]) -> Result<usize>
        ensures bound { WritesAtMost result bytes.now }
        ensures bytes { WriteAppends (seen self.old).contents (seen self.new).contents result bytes.now }
        ensures takes { IfOk result (λ count. count ≡ 0 → bytes.now ≡ []) }
        ensures health { (seen self.new).health ≡ health_after (seen self.old).health result };

    /// Flushes what was written. An error is a failure of the sink.
    fn flush(&mut self) -> Result<()>
        ensures bytes { Keeps (seen self.old).contents (seen self.new).contents }
        ensures health { (seen self.new).health ≡ health_after (seen self.old).health result };

    /// Whether it shows styles.
    fn shows_styles(&self) -> bool {
        false
    }

    /// Sets the style of the next bytes, if the sink shows styles. An error is a failure of the sink.
    fn set_style(&mut self, style: Style) -> Result<()>
        ensures bytes { Keeps (seen self.old).contents (seen self.new).contents }
        ensures health { (seen self.new).health ≡ health_after (seen self.old).health result };
}
