//! Tests of `dbg_shell`, with expected texts from the tables of the program's documents.

mod breakpoints;
mod broken;
mod crews;
mod faults;
mod jobs;
mod limits;
mod outputs;
mod sessions;

use crate::expecting::{expect_same, expect_true};
use dbg_shell::{Noted, check, serve, status};
use std::alloc::Global;
use std::io::{Read, Write};
use std::process::Abort;
use test_programs::MEMORY;

// Adds a text.
fn add(rt: &impl Abort, all: &mut Vec<u8>, text: &str) {
    all.extend_from_slice(text.as_bytes()).expect(rt, MEMORY);
}

// Adds a text so many times.
fn repeat(rt: &impl Abort, all: &mut Vec<u8>, text: &str, count: u32) {
    for _ in 0..count {
        add(rt, all, text);
    }
}

// Two texts, one after the other.
fn joined(rt: &impl Abort, alloc: Global, prefix: &str, back: &str) -> Vec<u8> {
    let mut all = Vec::new(alloc);
    add(rt, &mut all, prefix);
    add(rt, &mut all, back);
    all
}

// Checks the text of a reader, and returns the exit status.
fn check_between<R: Read, W: Write>(alloc: Global, reader: &mut R, writer: &mut W) -> u8 {
    let outcome = check(alloc, &mut Noted::new(reader), &mut Noted::new(writer));
    status(&outcome)
}

// Serves the input of a reader, and returns the exit status.
fn serve_between<R: Read, W: Write>(alloc: Global, reader: &mut R, writer: &mut W) -> u8 {
    let outcome = serve(alloc, &mut Noted::new(reader), &mut Noted::new(writer));
    status(&outcome)
}

// The output of `serve` for an input, and the exit status.
fn served(alloc: Global, input: &[u8]) -> (Vec<u8>, u8) {
    let mut reader = input;
    let mut writer = Vec::new(alloc);
    let code = serve_between(alloc, &mut reader, &mut writer);
    (writer, code)
}

// The exit status that belongs to an output.
fn status_beside(text: &str) -> u8 {
    if text.starts_with("program refused") {
        3
    } else if text.ends_with("input too long\n") {
        1
    } else {
        0
    }
}

// Expects this output, and the exit status that belongs to it; a failure shows the name.
fn expect_written(rt: &impl Abort, name: &str, written: &[u8], code: u8, want: &str) {
    expect_same(
        rt,
        (name, written, code),
        (name, want.as_bytes(), status_beside(want)),
    );
}

// Expects this output of `check` for a text.
fn expect_checked(rt: &impl Abort, alloc: Global, text: &[u8], want: &str) {
    let mut reader = text;
    let mut writer = Vec::new(alloc);
    let code = check_between(alloc, &mut reader, &mut writer);
    expect_written(rt, want, writer.as_slice(), code, want);
}

// Expects this output of `serve` for an input; a failure shows the name.
fn expect_served(rt: &impl Abort, alloc: Global, name: &str, input: &[u8], want: &str) {
    let (replies, code) = served(alloc, input);
    expect_written(rt, name, replies.as_slice(), code, want);
}

// Rows of a name, a program, the lines after it and the output for them.
fn expect_rows(rt: &impl Abort, alloc: Global, rows: &[(&str, &str, &str, &str)]) {
    for (name, program, lines, want) in rows {
        let input = joined(rt, alloc, program, lines);
        expect_served(rt, alloc, name, input.as_slice(), want);
    }
}

// Expects so long an output of `serve`, with this exit status. A failure does not show it.
fn expect_long(rt: &impl Abort, alloc: Global, input: &[u8], want: &[u8], status: u8) {
    let (replies, code) = served(alloc, input);
    expect_true(rt, replies.as_slice() == want);
    expect_same(rt, code, status);
}
