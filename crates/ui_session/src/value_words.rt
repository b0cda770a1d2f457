//! Replies with words in place of values.

ghost use Rattle.std.specs.Prelude.{◌≡◌, ◌++◌, true, IfOk, IfSome, OnOk};
ghost use Rattle.std.specs.Fmt.{signed_decimal};
ghost use Rattle.ui_session.specs.Named.{EndsIn, HasValueWords, HasValuesAfter, HasWords, IsWordAfter, is_word_end, plain_text};

use crate::named_replies::{is_ink, is_same, put_plain_text};
use itoa::Buffer;
use std::alloc::{AllocError, Global};
use ui_view::ValuePlace;

// The byte after which this line has values, if it may have some that are shown as words.
fn value_mark(line: &[u8]) -> Option<u8>
    ensures { IfSome result (λ mark. HasValuesAfter line.now mark) }
{
    match line {
        [b'v', b'a', b'r', b's', b' ', ..] => Some(b'='),
        [b'c', b'h', b'a', b'n', b' ', ..] => Some(b' '),
        _ => None,
    }
}

// Whether a word ends before this text.
fn is_word_end(after: &[u8]) -> bool
    ensures { result ≡ is_word_end after.now }
{
    match after {
        [byte, ..] => *byte <= b' ',
        [] => false,
    }
}

// Whether the last byte of a text is this one.
fn ends_with(text: &[u8], mark: u8) -> bool
    ensures { result ≡ true → EndsIn mark text.now }
{
    match text {
        [.., byte] => *byte == mark,
        [] => false,
    }
}

// Whether the second of these parts of a line is a whole word that is after this byte.
fn is_word_after(mark: u8, before: &[u8], word: &[u8], after: &[u8]) -> bool
    ensures { result ≡ true → IsWordAfter mark before.now word.now after.now }
{
    ends_with(before, mark) && !word.is_empty() && is_ink(word) && is_word_end(after)
}

// Appends a text with plain names, and the value in whose place the word after it is.
fn put_back(read: &mut Vec<u8>, before: &[u8], value: i64) -> Result<(), AllocError>
    ensures { OnOk result (read.new.items ≡ read.old.items ++ (plain_text before.now ++ signed_decimal value)) }
{
    put_plain_text(read, before)?;
    let mut buffer = Buffer::new();
    read.extend_from_slice(buffer.format(value).as_bytes())
}

// The line with plain names, and with the values in place of the words at these places. None if they are not the places of words.
fn value_line(
    alloc: Global,
    mark: u8,
    line: &[u8],
    places: &[ValuePlace],
) -> Result<Option<Vec<u8>>, AllocError>
    ensures { IfOk result (λ read. IfSome read (λ due. HasWords mark due.items line.now)) }
{
    let mut read = Vec::new(alloc);
    let mut rest = line;
    let mut at = 0usize;
    for place in places {
        if place.from < at || place.to < place.from || place.to - at > rest.len() {
            return Ok(None);
        }
        let (before, from_word) = rest.split_at(place.from - at);
        let (word, after) = from_word.split_at(place.to - place.from);
        if !is_word_after(mark, before, word, after) {
            return Ok(None);
        }
        put_back(&mut read, before, place.value)?;
        rest = after;
        at = place.to;
    }
    put_plain_text(&mut read, rest)?;
    Ok(Some(read))
}

/// Whether this line, which has words for values at these places, is shown for that line.
pub(crate) fn is_valued(
    alloc: Global,
    due: &[u8],
    line: &[u8],
    places: &[ValuePlace],
) -> Result<bool, AllocError>
    ensures { IfOk result (λ is. is ≡ true → HasValueWords due.now line.now) }
{
    let Some(mark) = value_mark(due) else {
        return Ok(false);
    };
    match value_line(alloc, mark, line, places)? {
        Some(read) => Ok(is_same(due, read.as_slice())),
        None => Ok(false),
    }
}
