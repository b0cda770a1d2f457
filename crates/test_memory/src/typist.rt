//! A person who types a text.

use std::io;
use std::io::Read;
use ui_session::Typed;

/// The text that is not read yet.
#[derive(Drop)]
pub(crate) struct Typist<'a> {
    text: &'a [u8],
}

impl<'a> Typist<'a> {
    /// Types this text.
    pub(crate) fn new(text: &'a [u8]) -> Typist<'a> {
        Typist { text }
    }
}

impl Read for Typist<'_> {
    fn read(&mut self, bytes: &mut [u8]) -> io::Result<usize> {
        self.text.read(bytes)
    }
}

impl Typed for Typist<'_> {
    fn is_typed(&self) -> bool {
        true
    }
}
