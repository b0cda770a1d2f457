use super::{check_between, joined, serve_between, served};
use crate::expecting::{expect_same, expect_true};
use std::alloc::Global;
use std::cell::Cell;
use std::io::{Read, Write};
use std::process::Abort;
use std::{io, str};
use test_programs::TWO;

const LINES: &str = "%%\n1 next a\n1 vars a\n1 next b\n\n1 next d\n1 vars b";

const REPLIES: &[u8] = b"ok a 0\nvars a x=1\nok b 0\nno 1\nvars b y=1 n=1\n";

const SIZE: &[u8] = b"ok 2 processes 3 commands\n";

fn fault() -> io::Error {
    io::Error::from(io::ErrorKind::Other)
}

// Returns so many bytes at each read, and a fault at each read from the `left`-th on.
#[derive(Drop)]
struct Pieces<'a> {
    text: &'a [u8],
    size: usize,
    left: usize,
}

impl Read for Pieces<'_> {
    fn read(&mut self, buf: &mut [u8]) -> io::Result<usize> {
        if self.left == 0 {
            return Err(fault());
        }
        self.left -= 1;
        let room = self.size.min(buf.len());
        self.text.read(&mut buf[..room])
    }
}

fn make_pieces(text: &[u8], size: usize, left: usize) -> Pieces<'_> {
    Pieces { text, size, left }
}

// Expects the output of `serve` for pieces of this size.
fn expect_pieces(rt: &impl Abort, alloc: Global, input: &[u8], size: usize) {
    let mut reader = make_pieces(input, size, 1_000);
    let mut writer = Vec::new(alloc);
    let code = serve_between(alloc, &mut reader, &mut writer);
    expect_same(rt, (size, code), (size, 0));
    expect_same(rt, writer.as_slice(), REPLIES);
}

// The same of `check`.
fn expect_checked_pieces(rt: &impl Abort, alloc: Global, size: usize) {
    let mut reader = make_pieces(TWO.as_bytes(), size, 1_000);
    let mut writer = Vec::new(alloc);
    let code = check_between(alloc, &mut reader, &mut writer);
    expect_same(rt, (size, code), (size, 0));
    expect_same(rt, writer.as_slice(), SIZE);
}

#[test]
fn pieces_make_no_difference(rt: HostRuntime) {
    let input = joined(&rt, rt.alloc(), TWO, LINES);
    for size in 1..70 {
        expect_pieces(&rt, rt.alloc(), input.as_slice(), size);
        expect_checked_pieces(&rt, rt.alloc(), size);
    }
}

// The bytes up to the last line end.
fn whole_lines(bytes: &[u8]) -> &[u8] {
    match bytes.iter().rposition(|b| *b == b'\n') {
        Some(last) => bytes.get(..=last).unwrap_or(&[]),
        None => &[],
    }
}

// Expects the output where the reader fails after so many bytes: nothing within the program, and otherwise the answers to the whole lines.
fn expect_read(rt: &impl Abort, alloc: Global, input: &[u8], reads: usize) {
    let mut reader = make_pieces(input, 1, reads);
    let mut writer = Vec::new(alloc);
    let code = serve_between(alloc, &mut reader, &mut writer);
    expect_same(rt, (reads, code), (reads, 1));
    expect_true(rt, REPLIES.starts_with(writer.as_slice()));
    let lines = whole_lines(input.get(..reads).unwrap_or(&[]));
    let (whole, _) = served(alloc, lines);
    let want = if reads > 185 { whole.as_slice() } else { &[] };
    expect_same(rt, (reads, writer.as_slice()), (reads, want));
}

#[test]
fn a_reader_fails_at_any_read(rt: HostRuntime) {
    let input = joined(&rt, rt.alloc(), TWO, LINES);
    for reads in 0..input.len() {
        expect_read(&rt, rt.alloc(), input.as_slice(), reads);
    }
}

// Expects nothing to be written where a check fails after so many bytes.
fn expect_unread(rt: &impl Abort, alloc: Global, reads: usize) {
    let mut reader = make_pieces(TWO.as_bytes(), 1, reads);
    let mut writer = Vec::new(alloc);
    let code = check_between(alloc, &mut reader, &mut writer);
    expect_same(rt, (reads, code, writer.len()), (reads, 1, 0));
}

#[test]
fn a_check_that_cannot_read_writes_nothing(rt: HostRuntime) {
    for reads in 0..TWO.len() {
        expect_unread(&rt, rt.alloc(), reads);
    }
}

// Accepts at most so many bytes at each write, and fails at the `left`-th one, or accepts none there.
#[derive(Drop)]
struct Stops {
    taken: Vec<u8>,
    size: usize,
    left: usize,
    is_quiet: bool,
    calls: usize,
}

impl Write for Stops {
    fn write(&mut self, buf: &[u8]) -> io::Result<usize> {
        self.calls = self.calls.saturating_add(1);
        if self.left == 0 {
            return if self.is_quiet { Ok(0) } else { Err(fault()) };
        }
        self.left -= 1;
        let count = self.size.min(buf.len());
        self.taken.extend_from_slice(&buf[..count])?;
        Ok(count)
    }

    fn flush(&mut self) -> io::Result<()> {
        Ok(())
    }
}

fn make_stops(alloc: Global, size: usize, left: usize, is_quiet: bool) -> Stops {
    Stops {
        taken: Vec::new(alloc),
        size,
        left,
        is_quiet,
        calls: 0,
    }
}

// Expects so many bytes of the output where no more can be written, and one write after them.
fn expect_stop(rt: &impl Abort, alloc: Global, input: &[u8], left: usize, is_quiet: bool) {
    let mut reader = input;
    let mut writer = make_stops(alloc, 1, left, is_quiet);
    let code = serve_between(alloc, &mut reader, &mut writer);
    let calls = left.saturating_add(1);
    expect_same(rt, (code, writer.calls), (1, calls));
    let want = REPLIES.get(..left).unwrap_or(&[]);
    expect_same(rt, writer.taken.as_slice(), want);
}

#[test]
fn a_writer_fails_at_any_write(rt: HostRuntime) {
    let input = joined(&rt, rt.alloc(), TWO, LINES);
    for left in 0..REPLIES.len() {
        expect_stop(&rt, rt.alloc(), input.as_slice(), left, false);
        expect_stop(&rt, rt.alloc(), input.as_slice(), left, true);
    }
}

// Expects the output where the writer accepts at most so many bytes at a time.
fn expect_taken(rt: &impl Abort, alloc: Global, input: &[u8], size: usize) {
    let mut reader = input;
    let mut writer = make_stops(alloc, size, 1_000, false);
    let code = serve_between(alloc, &mut reader, &mut writer);
    expect_same(
        rt,
        (size, code, writer.taken.as_slice()),
        (size, 0, REPLIES),
    );
}

// Accepts all, and fails at the `left`-th flush.
#[derive(Drop)]
struct Clogs {
    taken: Vec<u8>,
    left: usize,
}

impl Write for Clogs {
    fn write(&mut self, buf: &[u8]) -> io::Result<usize> {
        self.taken.extend_from_slice(buf)?;
        Ok(buf.len())
    }

    fn flush(&mut self) -> io::Result<()> {
        if self.left == 0 {
            return Err(fault());
        }
        self.left -= 1;
        Ok(())
    }
}

// Expects one line more than there were flushes before the one that fails.
fn expect_clog(rt: &impl Abort, alloc: Global, input: &[u8], left: usize) {
    let mut reader = input;
    let mut writer = Clogs {
        taken: Vec::new(alloc),
        left,
    };
    let code = serve_between(alloc, &mut reader, &mut writer);
    let lines = writer.taken.iter().filter(|b| **b == b'\n').count();
    expect_same(rt, (code, lines), (1, left.saturating_add(1)));
}

#[test]
fn a_writer_takes_what_it_likes_and_fails_at_any_flush(rt: HostRuntime) {
    let input = joined(&rt, rt.alloc(), TWO, LINES);
    for size in 1..20 {
        expect_taken(&rt, rt.alloc(), input.as_slice(), size);
    }
    for left in 0..5 {
        expect_clog(&rt, rt.alloc(), input.as_slice(), left);
    }
}

// What a reader and a writer share.
#[derive(Drop)]
struct IoLog {
    // Bytes that were written and not flushed.
    pending: Cell<usize>,
    flushes: Cell<usize>,
}

// Returns a piece at each read, and checks what was flushed before.
#[derive(Drop)]
struct Watching<'a> {
    log: &'a IoLog,
    pieces: &'a [&'a str],
    reads: usize,
    is_late: bool,
}

impl Read for Watching<'_> {
    fn read(&mut self, buf: &mut [u8]) -> io::Result<usize> {
        if self.log.pending.get() != 0 || self.log.flushes.get() != self.reads.saturating_sub(1) {
            self.is_late = true;
        }
        let piece = self.pieces.get(self.reads).copied().unwrap_or("");
        self.reads = self.reads.saturating_add(1);
        let mut text = piece.as_bytes();
        text.read(buf)
    }
}

#[derive(Drop)]
struct Watched<'a> {
    log: &'a IoLog,
}

impl Write for Watched<'_> {
    fn write(&mut self, buf: &[u8]) -> io::Result<usize> {
        self.log
            .pending
            .set(self.log.pending.get().saturating_add(buf.len()));
        Ok(buf.len())
    }

    fn flush(&mut self) -> io::Result<()> {
        self.log.pending.set(0);
        self.log
            .flushes
            .set(self.log.flushes.get().saturating_add(1));
        Ok(())
    }
}

// The lines after a program, one for each read.
const PIECES: [&str; 5] = ["1 next a\n", "1 vars a\n", "1 next d\n", "1 jump\n", "17\n"];

// Expects each reply to be flushed before the next piece is read.
fn expect_flushed(rt: &impl Abort, alloc: Global, pieces: &[&str]) {
    let log = IoLog {
        pending: Cell::new(0),
        flushes: Cell::new(0),
    };
    let mut reader = Watching {
        log: &log,
        pieces,
        reads: 0,
        is_late: false,
    };
    let mut writer = Watched { log: &log };
    let code = serve_between(alloc, &mut reader, &mut writer);
    let found = (code, reader.reads, reader.is_late, log.flushes.get());
    expect_same(rt, found, (0, 7, false, 5));
}

#[test]
fn a_reply_comes_before_the_next_line_is_read(rt: HostRuntime) {
    let program = joined(&rt, rt.alloc(), TWO, "%%\n");
    let text = str::from_utf8(program.as_slice()).expect(&rt, "a text");
    let [first, second, third, fourth, fifth] = PIECES;
    let pieces = [text, first, second, third, fourth, fifth];
    expect_flushed(&rt, rt.alloc(), &pieces);
}
