//! Texts of more than 1,048,576 bytes.

use super::{Place, fault_of};
use crate::expecting::expect_same;
use std::alloc::Global;
use std::process::Abort;
use test_programs::MEMORY;

// This text, filled up with blanks to so many bytes.
pub(super) fn filled(rt: &impl Abort, alloc: Global, text: &str, bytes: usize) -> Vec<u8> {
    let mut all = Vec::from_slice(alloc, text.as_bytes()).expect(rt, MEMORY);
    all.resize(bytes, b' ').expect(rt, MEMORY);
    all
}

// A text, the bytes to which it is filled up, and its first fault.
const LENGTHS: [(&str, usize, Option<Place>); 4] = [
    ("process a { }", 1_048_576, None),
    ("process a { }", 1_048_577, Some((7, 1_048_576))),
    ("process a { }", 2_000_000, Some((7, 1_048_576))),
    ("!", 1_048_577, Some((7, 1_048_576))),
];

#[test]
fn a_text_has_at_most_1048576_bytes(rt: HostRuntime) {
    for (text, bytes, want) in &LENGTHS {
        let all = filled(&rt, rt.alloc(), text, *bytes);
        let fault = fault_of(rt.alloc(), all.as_slice());
        expect_same(&rt, (*text, *bytes, fault), (*text, *bytes, *want));
    }
}
