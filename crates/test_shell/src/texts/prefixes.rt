//! Texts that break off, and texts with one byte replaced: each has a result.

use super::{Place, fault_of};
use crate::expecting::{expect_same, expect_true};
use std::alloc::Global;
use std::process::Abort;
use test_programs::{COUNTS, MEMORY, PAIR, TWO};

// Programs that need their last brace, and end with one line end after it.
const PROGRAMS: [&str; 4] = [
    TWO,
    PAIR,
    COUNTS,
    "process first{var x=-12;var y_1 = 007;
  when ((x <= 3) and (not (y_1 != (- 2)))) : send second (x * 2), x := (x - 1), y_1 := ((x / 3) % 5);
  when ((true or false) or ((x > 1) or (x >= y_1))) : x := 1, y_1 := x;}
process second { var x = 0; var z = 0; when true : recv first x, z := (x + 1); }
",
];

// Expects no fault, or one within so many bytes.
fn expect_within(rt: &impl Abort, fault: Option<Place>, length: usize) {
    if let Some((kind, at)) = fault {
        expect_true(rt, kind > 0 && at <= length);
    }
}

// Expects so many bytes of a program to be the whole of it, or to have a fault within them.
fn expect_prefix(rt: &impl Abort, alloc: Global, all: &[u8], length: usize) {
    let prefix = all.get(..length).unwrap_or(&[]);
    let is_whole = length >= all.len().saturating_sub(1);
    let fault = fault_of(alloc, prefix);
    expect_same(rt, (length, fault.is_none()), (length, is_whole));
    expect_within(rt, fault, length);
}

#[test]
fn each_prefix_of_a_program_is_answered(rt: HostRuntime) {
    for text in &PROGRAMS {
        let all = text.as_bytes();
        for length in 0..all.len().saturating_add(1) {
            expect_prefix(&rt, rt.alloc(), all, length);
        }
    }
}

// Expects a result where any other byte is at this place.
fn expect_replaced(rt: &impl Abort, alloc: Global, text: &mut [u8], at: usize) {
    if at < text.len() {
        let was = text[at];
        for byte in 0..256u32 {
            text[at] = byte as u8;
            expect_within(rt, fault_of(alloc, text), text.len());
        }
        text[at] = was;
    }
}

#[test]
fn each_byte_may_be_any_other(rt: HostRuntime) {
    let mut text = Vec::from_slice(rt.alloc(), TWO.as_bytes()).expect(&rt, MEMORY);
    for at in 0..text.len() {
        expect_replaced(&rt, rt.alloc(), text.as_mut_slice(), at);
    }
}
