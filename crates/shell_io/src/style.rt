//! How bytes look on a device that shows it.

ghost use Rattle.std.specs.Io.KnownBytes.{Keeps};

use std::io::Write;

/// What bytes are, which decides how they look.
#[derive(Clone, Copy, Debug, PartialEq, Eq)]
pub enum Style {
    /// Plain words, or another reply.
    Plain,
    /// The name of the process of this number.
    Process(u32),
    /// The new value of a variable.
    Value,
    /// The place of a command in the program.
    Place,
    /// What halts the session.
    Halt,
    /// A reply that refuses something.
    Refusal,
    /// A reply whose last bytes, so many, say that a breakpoint halts the session.
    Halted(usize),
}

/// A writer that may show styles.
pub trait StyledWrite: Write {
    /// Whether it shows styles.
    fn shows_styles(&self) -> bool;

    /// Sets the style of the next bytes, up to the end of their line.
    fn set_style(&mut self, style: Style)
        ensures { Keeps (Self.contents self.old) (Self.contents self.new) };
}
