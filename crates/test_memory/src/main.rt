//! Makes each call of the debugger, and makes it again if memory runs out. Its output is the same whichever allocation fails.
#![tactic(auto)]

mod beginning;
mod crews;
mod desks;
mod full;
mod makings;
mod picture;
mod report;
mod script;
mod scripts;
mod sessions;
mod streams;
mod trial;
mod typist;

use std::alloc::{AllocError, Global};
use std::io::Write;
use std::sync::Wait;
use std::thread::Threads;
use streams::{Server, StreamRoom};

// Reports the results of `serve`, `talk`, `check` and `run_crew`.
fn tell_streams<R: Threads + Wait + Sync>(
    rt: &R,
    alloc: Global,
    report: &mut Vec<u8>,
) -> Result<(), AllocError> {
    let mut rooms = StreamRoom::new(alloc)?;
    for server in [Server::Run, Server::Talk] {
        streams::tell_served(alloc, server, &mut rooms, report)?;
    }
    streams::tell_checked(alloc, &mut rooms, report);
    streams::tell_crewed(rt, alloc, &mut rooms, report);
    Ok(())
}

fn main(rt: HostRuntime) {
    let alloc = rt.alloc();
    let mut report = Vec::new(alloc);
    if report.reserve(65_536).is_err() {
        let _ = report.reserve(65_536);
    }
    makings::tell_makings(&rt, alloc, &mut report);
    sessions::play_scripts(&rt, alloc, &mut report);
    crews::tell_crew(&rt, alloc, &mut report);
    if tell_streams(&rt, alloc, &mut report).is_err() {
        let _ = report.extend_from_slice(b"differs: no room\n");
    }
    let _ = rt.stdout().write_all(report.as_slice());
}
