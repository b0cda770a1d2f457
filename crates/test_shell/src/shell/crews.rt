//! Runs of workers. Each `next` is a call, accepted or refused, so there are as many calls as turns of all processes.

use crate::expecting::{expect_same, expect_true};
use dbg_shell::{Closing, Mismatch, Noted, crew_status, fits_turns, print_closing, run_crew};
use std::alloc::Global;
use std::io;
use std::io::{Read, Write};
use std::process::Abort;
use std::sync::Wait;
use std::thread::Threads;
use test_programs::THREE;

// Runs workers between a reader and a writer, and returns the exit status.
fn crew_between<R: Threads + Wait + Sync, I: Read, O: Write>(
    rt: &R,
    alloc: Global,
    turns: u32,
    reader: &mut I,
    writer: &mut O,
) -> u8 {
    crew_status(&run_crew(
        rt,
        alloc,
        turns,
        &mut Noted::new(reader),
        &mut Noted::new(writer),
    ))
}

fn expect_crewed<R: Threads + Wait + Sync + Abort>(
    rt: &R,
    alloc: Global,
    turns: u32,
    input: &[u8],
    want: &str,
    status: u8,
) {
    let mut reader = input;
    let mut writer = Vec::new(alloc);
    let code = crew_between(rt, alloc, turns, &mut reader, &mut writer);
    expect_same(rt, (writer.as_slice(), code), (want.as_bytes(), status));
}

#[test]
fn three_workers_settle(rt: HostRuntime) {
    let settled = "calls 300\njournal ok\n";
    expect_crewed(&rt, rt.alloc(), 100, THREE.as_bytes(), settled, 0);
}

// Turns, processes, and whether they are few enough.
const TURNS: [(u32, u32, bool); 7] = [
    (33_334, 3, false),
    (33_333, 3, true),
    (100_000, 1, true),
    (100_001, 1, false),
    (3_125, 32, true),
    (u32::MAX, u32::MAX, false),
    (0, 0, true),
];

#[test]
fn there_are_no_more_turns_than_calls(rt: HostRuntime) {
    for (turns, processes, fits) in &TURNS {
        let found = (*turns, *processes, fits_turns(*turns, *processes));
        expect_same(&rt, found, (*turns, *processes, *fits));
    }
}

// Expects this output for the end of a run.
fn expect_closing(rt: &impl Abort, alloc: Global, closing: &Result<Closing, Mismatch>, want: &str) {
    let mut writer = Vec::new(alloc);
    let outcome = print_closing(closing, &mut Noted::new(&mut writer));
    expect_true(rt, outcome.is_ok());
    expect_same(rt, writer.as_slice(), want.as_bytes());
}

#[test]
fn a_journal_that_differs_is_reported(rt: HostRuntime) {
    let differs = Err(Mismatch { seat: 1 });
    expect_closing(&rt, rt.alloc(), &differs, "journal differs\n");
    let settled = Ok(Closing { calls: 0 });
    expect_closing(&rt, rt.alloc(), &settled, "calls 0\njournal ok\n");
}

// Fails at each read.
#[derive(Drop)]
struct Unreadable;

impl Read for Unreadable {
    fn read(&mut self, _buf: &mut [u8]) -> io::Result<usize> {
        Err(io::Error::from(io::ErrorKind::Other))
    }
}

// Accepts so many bytes, one at each write, and then fails.
#[derive(Drop)]
struct Narrow {
    taken: Vec<u8>,
    left: usize,
}

impl Write for Narrow {
    fn write(&mut self, buf: &[u8]) -> io::Result<usize> {
        if self.left == 0 {
            return Err(io::Error::from(io::ErrorKind::Other));
        }
        self.left -= 1;
        let count = buf.len().min(1);
        self.taken.extend_from_slice(&buf[..count])?;
        Ok(count)
    }

    fn flush(&mut self) -> io::Result<()> {
        Ok(())
    }
}

// Expects exit status 1, and no output, where the input cannot be read.
fn expect_unreadable<R: Threads + Wait + Sync + Abort>(rt: &R, alloc: Global) {
    let mut writer = Vec::new(alloc);
    let code = crew_between(rt, alloc, 1, &mut Unreadable, &mut writer);
    expect_same(rt, (code, writer.len()), (1, 0));
}

// Expects exit status 1, and so many bytes of the output, where no more can be written.
fn expect_narrow<R: Threads + Wait + Sync + Abort>(
    rt: &R,
    alloc: Global,
    left: usize,
    want: &[u8],
) {
    let mut writer = Narrow {
        taken: Vec::new(alloc),
        left,
    };
    let mut reader = THREE.as_bytes();
    let code = crew_between(rt, alloc, 1, &mut reader, &mut writer);
    expect_same(rt, (code, writer.taken.as_slice()), (1, want));
}

#[test]
fn faults_of_the_streams_have_status_1(rt: HostRuntime) {
    expect_unreadable(&rt, rt.alloc());
    let text = b"calls 3\njournal ok\n";
    for left in 0..text.len() {
        let want = text.get(..left).unwrap_or(&[]);
        expect_narrow(&rt, rt.alloc(), left, want);
    }
}
