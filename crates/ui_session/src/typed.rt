//! Whether lines are typed.

use shell_io::Noted;

/// A reader whose lines may be typed.
pub trait Typed {
    /// Whether the last line was typed at a terminal, which shows it already.
    fn is_typed(&self) -> bool;
}

/// Bytes in memory, which nobody types.
impl Typed for &[u8] {
    fn is_typed(&self) -> bool {
        false
    }
}

impl<D: Typed> Typed for Noted<D> {
    fn is_typed(&self) -> bool {
        self.device().is_typed()
    }
}
