//! A device for output that nobody sees.

use std::alloc::Global;
use std::io;
use std::io::Write;

/// Room for a text, or for none: then what is written is dropped.
#[derive(Drop)]
pub enum Room {
    Nothing,
    Text(Vec<u8>),
}

impl Room {
    /// What was written, if it was kept.
    pub fn text(&self) -> &[u8] {
        match self {
            Room::Nothing => &[],
            Room::Text(text) => text.as_slice(),
        }
    }

    /// The same.
    pub fn into_text(self, alloc: Global) -> Vec<u8> {
        match self {
            Room::Nothing => Vec::new(alloc),
            Room::Text(text) => text,
        }
    }
}

impl Write for Room {
    fn write(&mut self, bytes: &[u8]) -> io::Result<usize> {
        if let Room::Text(text) = self {
            text.extend_from_slice(bytes)?;
        }
        Ok(bytes.len())
    }

    fn flush(&mut self) -> io::Result<()> {
        Ok(())
    }
}
