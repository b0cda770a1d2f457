//! The arguments of the program.

ghost use Rattle.std.specs.Prelude.{◌≡◌};
ghost use Rattle.rdbg.specs.declared.words.WordsFault.TheVariants.{NotText, Memory};

use std::env;
use std::io::ErrorKind;

/// Why there are no arguments.
#[derive(Debug, Drop, PartialEq, Eq)]
pub(crate) enum WordsFault {
    /// An argument is not valid UTF-8.
    NotText,
    Memory,
}

impl WordsFault {
    /// The exit status: that of a usage error, or that of too little memory.
    pub(crate) fn status(&self) -> u8
        ensures text { self.now ≡ NotText → result ≡ 2 }
        ensures memory { self.now ≡ Memory → result ≡ 4 }
    {
        match self {
            WordsFault::NotText => 2,
            WordsFault::Memory => 4,
        }
    }
}

/// The arguments, of which the first is the program's own name.
pub(crate) fn words(rt: &HostRuntime) -> Result<Vec<String>, WordsFault> {
    match env::args(rt) {
        Ok(words) => match words.collect::<Vec<String>>(rt.alloc()) {
            Ok(words) => Ok(words),
            Err(_) => Err(WordsFault::Memory),
        },
        // Only an argument that is not valid UTF-8 makes this error.
        Err(error) if error.kind() == ErrorKind::InvalidData => Err(WordsFault::NotText),
        Err(_) => Err(WordsFault::Memory),
    }
}
