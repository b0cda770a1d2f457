//! Texts that differ in indices, as `got(replica[2]) = 0` and `got(replica[5]) = 0`.

use std::alloc::AllocError;
use ui_text::{Notes, Part};

// The first index in which two texts differ: what is before it, its two values, and what is after it in each text.
#[derive(Clone, Copy)]
struct IndexPair<'n> {
    before: &'n [u8],
    first: &'n [u8],
    last: &'n [u8],
    first_rest: &'n [u8],
    last_rest: &'n [u8],
}

// The digits at the start, and what is after them.
fn split_digits(bytes: &[u8]) -> Option<(&[u8], &[u8])> {
    let length = bytes
        .iter()
        .take_while(|byte| byte.is_ascii_digit())
        .count();
    match (bytes.get(..length), bytes.get(length..)) {
        (Some(digits), Some(rest)) if length > 0 => Some((digits, rest)),
        _ => None,
    }
}

// The number that these digits are.
fn number_of(digits: &[u8]) -> usize {
    let mut number = 0usize;
    for digit in digits {
        let digit = usize::from(digit.saturating_sub(b'0'));
        number = number.saturating_mul(10).saturating_add(digit);
    }
    number
}

// The first index in which two texts differ, if the first difference is in an index.
fn index_pair<'n>(first: &'n [u8], last: &'n [u8]) -> Option<IndexPair<'n>> {
    let both = first.iter().zip(last.iter());
    let common = both.take_while(|(byte, other)| byte == other).count();
    let begun = first.get(..common)?;
    let within = begun.iter().rev().take_while(|byte| **byte != b'[').count();
    let begin = begun.len().saturating_sub(within);
    if begin == 0 {
        return None;
    }
    let (from, first_rest) = split_digits(first.get(begin..)?)?;
    let (to, last_rest) = split_digits(last.get(begin..)?)?;
    if from == to {
        return None;
    }
    Some(IndexPair {
        before: first.get(..begin)?,
        first: from,
        last: to,
        first_rest,
        last_rest,
    })
}

// Whether two texts differ in indices alone, of which each is so much larger in the second one, or by anything.
fn differ_by(first: &[u8], last: &[u8], by: Option<usize>) -> bool {
    let mut before = first;
    let mut after = last;
    for _ in first {
        let Some(pair) = index_pair(before, after) else {
            break;
        };
        let distance = number_of(pair.last).checked_sub(number_of(pair.first));
        if by.is_some() && distance != by {
            return false;
        }
        before = pair.first_rest;
        after = pair.last_rest;
    }
    before == after
}

// Appends two texts that differ in indices alone as one, with a range in place of each index that differs.
fn put_range(notes: &mut Notes, first: &[u8], last: &[u8]) -> Result<(), AllocError> {
    let mut before = first;
    let mut after = last;
    for _ in first {
        let Some(pair) = index_pair(before, after) else {
            break;
        };
        notes.add_with(
            "{}{}..{}",
            &[
                Part::Bytes(pair.before),
                Part::Bytes(pair.first),
                Part::Bytes(pair.last),
            ],
        )?;
        before = pair.first_rest;
        after = pair.last_rest;
    }
    notes.add_with("{}", &[Part::Bytes(before)])
}

// The last of the lines from this one on that differ from it in indices, each by one more than the line before.
fn range_end(lines: &Notes, from: usize) -> usize {
    let first = lines.line(from).bytes;
    let mut end = from;
    for at in from.saturating_add(1)..lines.count() {
        let by = at.saturating_sub(from);
        if !differ_by(first, lines.line(at).bytes, Some(by)) {
            break;
        }
        end = at;
    }
    end
}

/// Appends these lines to the last line of an explanation: the first one after this word, and the others after a comma. Lines that differ in
/// indices, one after the other, are one with a range. Returns how many that are. Error: memory ran out.
pub fn put_folded(
    notes: &mut Notes,
    word: &'static str,
    lines: &Notes,
) -> Result<usize, AllocError> {
    let mut from = 0usize;
    let mut count = 0usize;
    for _ in 0..lines.count() {
        if from >= lines.count() {
            break;
        }
        let end = range_end(lines, from);
        notes.add(if count == 0 { word } else { ", " })?;
        put_range(notes, lines.line(from).bytes, lines.line(end).bytes)?;
        from = end.saturating_add(1);
        count = count.saturating_add(1);
    }
    Ok(count)
}

/// After the last of the lines from this one on that differ from it in indices alone.
pub fn family_end(lines: &Notes, from: usize) -> usize {
    let first = lines.line(from).bytes;
    let mut end = from.saturating_add(1);
    for at in end..lines.count() {
        if !differ_by(first, lines.line(at).bytes, None) {
            break;
        }
        end = at.saturating_add(1);
    }
    end
}
