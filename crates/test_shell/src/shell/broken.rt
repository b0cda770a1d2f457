//! Inputs that break off, and devices that are interrupted.

use super::sessions::{GOING, GONE};
use super::{expect_served, joined, served};
use crate::expecting::{expect_same, expect_true};
use dbg_shell::{Health, Noted, check, serve, status};
use std::alloc::Global;
use std::io;
use std::io::{Read, Write};
use std::process::Abort;
use test_programs::TWO;

// So many of these lines, with their line ends.
fn first_lines(text: &[u8], count: usize) -> &[u8] {
    let mut left = count;
    for (i, b) in text.iter().enumerate() {
        if left == 0 {
            return text.get(..i).unwrap_or(&[]);
        }
        if *b == b'\n' {
            left -= 1;
        }
    }
    text
}

fn lines_in(text: &[u8]) -> usize {
    text.iter().filter(|b| **b == b'\n').count()
}

// Expects an answer to each whole line, of which there are so many, and at most one more, for the unfinished line, which the end of the
// input ends.
fn expect_answers(rt: &impl Abort, written: &[u8], whole: usize) {
    let replies = lines_in(written);
    expect_true(rt, written.starts_with(first_lines(GONE.as_bytes(), whole)));
    expect_true(rt, replies == whole || replies == whole.saturating_add(1));
}

// Expects the output for a prefix of the input, whose command lines begin at an offset.
fn expect_prefix(rt: &impl Abort, alloc: Global, prefix: &[u8], begun: usize) {
    if prefix.len() < begun {
        let want = "program refused: no end line\n";
        expect_served(rt, alloc, want, prefix, want);
        return;
    }
    let (written, code) = served(alloc, prefix);
    let lines = prefix.get(begun..).unwrap_or(&[]);
    let whole = lines_in(lines).saturating_sub(1);
    expect_answers(rt, written.as_slice(), whole);
    expect_same(rt, code, 0);
}

#[test]
fn an_input_may_break_off_anywhere(rt: HostRuntime) {
    let input = joined(&rt, rt.alloc(), TWO, GOING);
    let begun = TWO.len().saturating_add(2);
    for length in 0..input.len().saturating_add(1) {
        let prefix = input.as_slice().get(..length).unwrap_or(&[]);
        expect_prefix(&rt, rt.alloc(), prefix, begun);
    }
    let (written, _) = served(rt.alloc(), input.as_slice());
    expect_same(&rt, written.as_slice(), GONE.as_bytes());
}

// Returns a text, and then fails once with this error; what comes after could be read.
#[derive(Drop)]
struct Breaks<'a> {
    text: &'a [u8],
    kind: io::ErrorKind,
    reads: usize,
}

impl Read for Breaks<'_> {
    fn read(&mut self, buf: &mut [u8]) -> io::Result<usize> {
        self.reads = self.reads.saturating_add(1);
        if self.text.is_empty() {
            self.text = b"1 vars b\n";
            return Err(io::Error::from(self.kind));
        }
        self.text.read(buf)
    }
}

// Expects the whole line before this error to be answered, and the error to be reported.
fn expect_break(rt: &impl Abort, alloc: Global, text: &[u8], kind: io::ErrorKind) {
    let mut breaks = Breaks {
        text,
        kind,
        reads: 0,
    };
    let mut written = Vec::new(alloc);
    let mut reader = Noted::new(&mut breaks);
    let outcome = serve(alloc, &mut reader, &mut Noted::new(&mut written));
    let health = reader.health();
    expect_same(rt, (status(&outcome), health), (1, Health::Failed));
    expect_same(rt, written.as_slice(), b"ok a 0\n".as_slice());
    expect_same(rt, breaks.reads, 2);
}

#[test]
fn the_line_under_way_is_not_answered(rt: HostRuntime) {
    let text = joined(&rt, rt.alloc(), TWO, "%%\n1 next a\n1 va");
    for kind in [io::ErrorKind::Other, io::ErrorKind::Interrupted] {
        expect_break(&rt, rt.alloc(), text.as_slice(), kind);
    }
}

// Fails once with this error at its first write, and accepts all after it.
#[derive(Drop)]
struct Blocks {
    taken: Vec<u8>,
    kind: io::ErrorKind,
    writes: usize,
}

impl Write for Blocks {
    fn write(&mut self, buf: &[u8]) -> io::Result<usize> {
        self.writes = self.writes.saturating_add(1);
        if self.writes == 1 {
            return Err(io::Error::from(self.kind));
        }
        self.taken.extend_from_slice(buf)?;
        Ok(buf.len())
    }

    fn flush(&mut self) -> io::Result<()> {
        Ok(())
    }
}

// Checks the program, with a writer that fails once; the exit status, and the health of the reader and of the writer.
fn check_blocked(alloc: Global, blocks: &mut Blocks) -> (u8, Health, Health) {
    let mut text = TWO.as_bytes();
    let mut reader = Noted::new(&mut text);
    let mut writer = Noted::new(blocks);
    let outcome = check(alloc, &mut reader, &mut writer);
    (status(&outcome), reader.health(), writer.health())
}

// Expects a first write that fails with this error to be reported, and no other write.
fn expect_block(rt: &impl Abort, alloc: Global, kind: io::ErrorKind) {
    let mut blocks = Blocks {
        taken: Vec::new(alloc),
        kind,
        writes: 0,
    };
    let reported = check_blocked(alloc, &mut blocks);
    expect_same(rt, reported, (1, Health::Fine, Health::Failed));
    expect_same(rt, (blocks.writes, blocks.taken.len()), (1, 0));
}

#[test]
fn a_write_that_is_interrupted_is_a_fault(rt: HostRuntime) {
    for kind in [
        io::ErrorKind::Interrupted,
        io::ErrorKind::BrokenPipe,
        io::ErrorKind::Other,
    ] {
        expect_block(&rt, rt.alloc(), kind);
    }
}
