//! Bytes as text that a terminal, a page or a picture can show.

use std::alloc::{AllocError, Global};

// Whether a character changes how the text around it is shown, or is not shown: a control character, a sign for the direction of writing,
// a line separator or a character without width.
fn is_hidden(character: char) -> bool {
    match character {
        '\t' => false,
        '\u{61c}'
        | '\u{200b}'..='\u{200f}'
        | '\u{2028}'..='\u{202e}'
        | '\u{2060}'..='\u{206f}'
        | '\u{feff}' => true,
        _ => character.is_control(),
    }
}

// The hexadecimal digit of this value, which is below 16.
fn digit(value: u8) -> u8 {
    b"0123456789abcdef"
        .get(usize::from(value))
        .copied()
        .unwrap_or(b'?')
}

// Appends bytes that are not shown as they are: for each `\x` and its two hexadecimal digits.
fn put_escaped(line: &mut Vec<u8>, bytes: &[u8]) -> Result<(), AllocError> {
    for byte in bytes {
        line.extend_from_slice(&[b'\\', b'x', digit(*byte / 16), digit(*byte % 16)])?;
    }
    Ok(())
}

/// Appends these bytes to a line as text in UTF-8. A byte is written as `\x1b`, with its hexadecimal digits, if it is in no character of
/// UTF-8, or in a control character other than a tab, a character that changes the direction of writing, or one without width. Error:
/// memory ran out.
pub fn put_visible(line: &mut Vec<u8>, bytes: &[u8]) -> Result<(), AllocError> {
    // Most bytes are plain, and are appended at once.
    let plain = bytes
        .iter()
        .take_while(|byte| matches!(**byte, b' '..=b'~'))
        .count();
    line.extend_from_slice(bytes.get(..plain).unwrap_or(&[]))?;
    for chunk in bytes.get(plain..).unwrap_or(&[]).utf8_chunks() {
        for piece in chunk.valid().split_inclusive(is_hidden) {
            let shown = piece.trim_end_matches(is_hidden);
            line.extend_from_slice(shown.as_bytes())?;
            put_escaped(line, piece.as_bytes().get(shown.len()..).unwrap_or(&[]))?;
        }
        put_escaped(line, chunk.invalid())?;
    }
    Ok(())
}

/// These bytes as text in UTF-8, as `put_visible` writes them. Error: memory ran out.
pub fn visible(alloc: Global, bytes: &[u8]) -> Result<Vec<u8>, AllocError> {
    let mut line = Vec::new(alloc);
    put_visible(&mut line, bytes)?;
    Ok(line)
}
