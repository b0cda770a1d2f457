//! Bytes that are put together before they are written.

ghost use Rattle.std.specs.Prelude.{◌≡◌, ◌≤◌, ◌+◌, ◌<◌, ◌++◌, ◌∷◌, [], length, drop};

use std::marker::Model;

/// A buffer of at most so many bytes. Contracts see the bytes. No call allocates.
#[derive(Drop)]
pub struct FixedBuffer<const ROOM: usize> {
    bytes: [u8; ROOM],
    used: usize,
}

impl<const ROOM: usize> Model for FixedBuffer<ROOM> {
    ghost use Rattle.std.specs.Prelude.{ℕ, List, ◌≤◌, take};

    ghost Value = { List ℕ };

    ghost view = { λ buffer. take buffer.used buffer.bytes };

    ghost invariant = { λ buffer. buffer.used ≤ ROOM };
}

impl<const ROOM: usize> FixedBuffer<ROOM> {
    /// A buffer without bytes.
    pub fn new() -> FixedBuffer<ROOM>
        ensures { result ≡ [] }
    {
        FixedBuffer {
            bytes: [0; ROOM],
            used: 0,
        }
    }

    /// The bytes.
    pub fn bytes(&self) -> &[u8]
        ensures { result.now ≡ self.now }
    {
        &self.bytes[..self.used]
    }

    /// How many more bytes there is room for.
    pub fn room(&self) -> usize
        ensures { result + length self.now ≡ ROOM }
    {
        ROOM - self.used
    }

    /// Drops all bytes.
    pub fn clear(&mut self)
        ensures { self.new ≡ [] }
    {
        self.used = 0;
    }

    /// Appends these bytes, for which there must be room.
    pub fn append(&mut self, more: &[u8])
        requires { length self.old + length more.now ≤ ROOM }
        ensures { self.new ≡ self.old ++ more.now }
    {
        let end = self.used + more.len();
        let bytes = &mut self.bytes[..];
        bytes[self.used..end].copy_from_slice(more);
        self.used = end;
    }

    /// Appends a byte, for which there must be room.
    pub fn push(&mut self, byte: u8)
        requires { length self.old < ROOM }
        ensures { self.new ≡ self.old ++ byte ∷ [] }
    {
        self.bytes[self.used] = byte;
        self.used += 1;
    }

    /// Drops the first bytes, so many. There must be as many.
    pub fn drop_prefix(&mut self, count: usize)
        requires { count ≤ length self.old }
        ensures { self.new ≡ drop count self.old }
    {
        self.bytes.copy_within(count..self.used, 0);
        self.used -= count;
    }
}
