//! `serve`, `talk`, `check` and `run_crew`, from a text in memory to a buffer in memory.

use crate::typist::Typist;
use dbg_shell::{Noted, check, crew_status, run_crew, serve, status};
use std::alloc::{AllocError, Global};
use std::io::Write;
use std::mem;
use std::sync::Wait;
use std::thread::Threads;
use test_programs::TWO;
use ui_repl::talk;

// The command lines of a run.
const LINES: &str = "1 break k a (x = 2) b (y = 1)
1 next a
2 next b
1 next a
1 why k
1 pass k
2 batch next a ; undo b
2 vars b
2 back
1 rollback a 0
1 back
1 breaks
";

// The program of an interactive session, and lines as a person writes them. Each has one reply.
const MODEL: &str = "process p[i: 1..2] { var x = 0; go: when x < 9 : x := x + 1; }\n";

const TYPED_LINES: &str = "br k p[1] (x = 2) p[2] (x = 1) # both
step p[1] go
n p[2]
for i: 1..1 : next p[i]
w k
pass k
batch next p[1] ; undo p[2]
v p[2]
bac
roll p[1] 0
back
breaks
";

// Buffers for the output of the calls, and for comparing it. Each has room for all of it.
#[derive(Drop)]
pub(crate) struct StreamRoom {
    input: Vec<u8>,
    written: Vec<u8>,
    other: Vec<u8>,
    rest: Vec<u8>,
}

// Room for the output of an interactive session, with its explanations.
const ROOM: usize = 8_192;

// Room for a text, requested again if that fails.
fn room(alloc: Global) -> Result<Vec<u8>, AllocError> {
    let mut room = Vec::new(alloc);
    if room.reserve(ROOM).is_err() {
        room.reserve(ROOM)?;
    }
    Ok(room)
}

impl StreamRoom {
    /// Buffers for all texts of the calls, none of which needs more.
    pub(crate) fn new(alloc: Global) -> Result<StreamRoom, AllocError> {
        Ok(StreamRoom {
            input: room(alloc)?,
            written: room(alloc)?,
            other: room(alloc)?,
            rest: room(alloc)?,
        })
    }
}

// The text without its line at this position.
fn set_without(text: &[u8], place: usize, rest: &mut Vec<u8>) -> Result<(), AllocError> {
    rest.clear();
    for (at, line) in text.split(|byte| *byte == b'\n').enumerate() {
        if at != place && !line.is_empty() {
            rest.extend_from_slice(line)?;
            rest.extend_from_slice(b"\n")?;
        }
    }
    Ok(())
}

/// Who answers the lines.
#[derive(Clone, Copy)]
pub(crate) enum Server {
    Run,
    Talk,
}

impl Server {
    fn name(self) -> &'static str {
        match self {
            Server::Run => "serve",
            Server::Talk => "talk",
        }
    }

    fn program(self) -> &'static str {
        match self {
            Server::Run => TWO,
            Server::Talk => MODEL,
        }
    }

    fn lines(self) -> &'static str {
        match self {
            Server::Run => LINES,
            Server::Talk => TYPED_LINES,
        }
    }

    // Sets the input to the program, the line `%%`, and these lines.
    fn set_input(self, lines: &[u8], input: &mut Vec<u8>) -> Result<(), AllocError> {
        input.clear();
        input.extend_from_slice(self.program().as_bytes())?;
        input.extend_from_slice(b"%%\n")?;
        input.extend_from_slice(lines)
    }

    // The output for an input, and the exit status.
    fn write_all(self, alloc: Global, input: &[u8], written: &mut Vec<u8>) -> u8 {
        written.clear();
        let mut reader = input;
        let mut writer = Noted::new(written);
        let outcome = match self {
            Server::Run => serve(alloc, &mut Noted::new(&mut reader), &mut writer),
            Server::Talk => {
                talk(
                    alloc,
                    None,
                    &mut Noted::new(Typist::new(input)),
                    &mut writer,
                )
            }
        };
        status(&outcome)
    }
}

// Leaves out the lines of explanations, which begin with a blank, and the plain line of a `for`, which is written before its reply.
fn keep_replies(written: &mut Vec<u8>, rest: &mut Vec<u8>) -> Result<(), AllocError> {
    rest.clear();
    for line in written.split_inclusive(|byte| *byte == b'\n') {
        if line.first() != Some(&b' ') && !line.starts_with(b"next ") {
            rest.extend_from_slice(line)?;
        }
    }
    mem::swap(written, rest);
    Ok(())
}

// The number of the line that is the refusal as out of memory, if there is one.
fn refused_line(written: &[u8]) -> Option<usize> {
    written
        .split(|byte| *byte == b'\n')
        .position(|line| line == b"no 21".as_slice())
}

fn checked(alloc: Global, input: &[u8], written: &mut Vec<u8>) -> u8 {
    written.clear();
    let mut reader = input;
    let outcome = check(
        alloc,
        &mut Noted::new(&mut reader),
        &mut Noted::new(written),
    );
    status(&outcome)
}

fn crewed<R: Threads + Wait + Sync>(
    rt: &R,
    alloc: Global,
    input: &[u8],
    written: &mut Vec<u8>,
) -> u8 {
    written.clear();
    let mut reader = input;
    let outcome = run_crew(
        rt,
        alloc,
        3,
        &mut Noted::new(&mut reader),
        &mut Noted::new(written),
    );
    crew_status(&outcome)
}

fn tell(name: &str, status: u8, written: &[u8], report: &mut Vec<u8>) {
    let _ = write!(report, "{name}: status {status}\n");
    let _ = report.extend_from_slice(written);
}

// Whether a line that was refused as out of memory changed nothing: the output without it is the same.
fn is_left_out(
    alloc: Global,
    server: Server,
    place: usize,
    rooms: &mut StreamRoom,
) -> Result<bool, AllocError> {
    set_without(server.lines().as_bytes(), place, &mut rooms.rest)?;
    server.set_input(rooms.rest.as_slice(), &mut rooms.input)?;
    let status = server.write_all(alloc, rooms.input.as_slice(), &mut rooms.other);
    keep_replies(&mut rooms.other, &mut rooms.rest)?;
    set_without(rooms.written.as_slice(), place, &mut rooms.rest)?;
    Ok(status == 0 && rooms.other.as_slice() == rooms.rest.as_slice())
}

// The exit status of a session. Its replies are in the room for output.
fn served(alloc: Global, server: Server, rooms: &mut StreamRoom) -> Result<u8, AllocError> {
    server.set_input(server.lines().as_bytes(), &mut rooms.input)?;
    let status = server.write_all(alloc, rooms.input.as_slice(), &mut rooms.written);
    keep_replies(&mut rooms.written, &mut rooms.rest)?;
    Ok(status)
}

/// Has the lines answered. If one is refused as out of memory, it reports whether that changed nothing, and has all answered again.
pub(crate) fn tell_served(
    alloc: Global,
    server: Server,
    rooms: &mut StreamRoom,
    report: &mut Vec<u8>,
) -> Result<(), AllocError> {
    let mut status = served(alloc, server, rooms)?;
    let refused = refused_line(rooms.written.as_slice());
    if let Some(place) = refused {
        if status != 0 || !is_left_out(alloc, server, place, rooms)? {
            tell(
                "a session differs",
                status,
                rooms.written.as_slice(),
                report,
            );
        }
    }
    if refused.is_some() || (status == 4 && rooms.written.is_empty()) {
        status = served(alloc, server, rooms)?;
    }
    tell(server.name(), status, rooms.written.as_slice(), report);
    Ok(())
}

/// Checks the program, again if it is refused as out of memory.
pub(crate) fn tell_checked(alloc: Global, rooms: &mut StreamRoom, report: &mut Vec<u8>) {
    let mut status = checked(alloc, TWO.as_bytes(), &mut rooms.written);
    if status == 4 && rooms.written.is_empty() {
        status = checked(alloc, TWO.as_bytes(), &mut rooms.written);
    }
    tell("check", status, rooms.written.as_slice(), report);
}

/// Lets workers give `next` three times for each process, again if the run or a call is refused as out of memory.
pub(crate) fn tell_crewed<R: Threads + Wait + Sync>(
    rt: &R,
    alloc: Global,
    rooms: &mut StreamRoom,
    report: &mut Vec<u8>,
) {
    let mut status = crewed(rt, alloc, TWO.as_bytes(), &mut rooms.written);
    let is_dropped = status == 0 && rooms.written.as_slice() == b"calls 5\njournal ok\n".as_slice();
    if is_dropped || (status == 4 && rooms.written.is_empty()) {
        status = crewed(rt, alloc, TWO.as_bytes(), &mut rooms.written);
    }
    tell("run_crew", status, rooms.written.as_slice(), report);
}
