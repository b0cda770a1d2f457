//! Text in a page or an SVG.

use std::alloc::{AllocError, Global};

/// What a page or an SVG has for a byte of a text, unless that is the byte itself.
pub fn markup_of(byte: u8) -> Option<&'static str> {
    match byte {
        b'<' => Some("&lt;"),
        b'>' => Some("&gt;"),
        b'&' => Some("&amp;"),
        _ => None,
    }
}

/// A text as a page or an SVG has it. Error: memory ran out.
pub fn as_markup(alloc: Global, text: &[u8]) -> Result<Vec<u8>, AllocError> {
    let mut words = Vec::new(alloc);
    for byte in text {
        match markup_of(*byte) {
            Some(sign) => words.extend_from_slice(sign.as_bytes())?,
            None => words.push(*byte)?,
        }
    }
    Ok(words)
}
