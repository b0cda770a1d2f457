//! Plays sessions, and compares their replies with the expected ones.

use crate::sessions::{SessionFile, session_files};
use crate::{FAILED, device_of, tell_unreadable};
use shell_io::{Noted, Sink};
use shell_print::ServeFault;
use std::alloc::AllocError;
use ui_expect::{Tested, test_session, write_plan, write_result};
use ui_session::Room;

// The files of these names, and the sessions below those that are folders. What cannot be read is reported, and the status is then that of a
// usage error.
fn named_sessions(
    rt: &HostRuntime,
    names: &[&str],
    worst: &mut u8,
) -> Result<Vec<SessionFile>, AllocError> {
    let mut files = Vec::new(rt.alloc());
    for name in names {
        match session_files(rt, name) {
            Ok(found) => {
                for file in found {
                    files.push(file)?;
                }
            }
            Err(error) => *worst = tell_unreadable(rt, name, &error),
        }
    }
    Ok(files)
}

// Plays the session of this file, and writes the result. Returns its status.
fn test_file<W: Sink>(
    rt: &HostRuntime,
    file: &SessionFile,
    number: Option<usize>,
    writer: &mut W,
) -> Result<u8, ServeFault> {
    let name = file.name.as_str();
    let mut session = match device_of(rt, None, name) {
        Ok(device) => Noted::new(device),
        Err(error) => {
            if let Some(number) = number {
                write_result(rt.alloc(), name, number, Tested::Failed, false, &[], writer)?;
            }
            return Ok(tell_unreadable(rt, name, &error));
        }
    };
    let tested = match number {
        None => test_session(rt.alloc(), name, &mut session, writer)?,
        Some(number) => {
            let mut report = Noted::new(Room::Text(Vec::new(rt.alloc())));
            let tested = test_session(rt.alloc(), name, &mut session, &mut report)?;
            let text = report.device().text();
            write_result(
                rt.alloc(),
                name,
                number,
                tested,
                file.is_found,
                text,
                writer,
            )?;
            tested
        }
    };
    match tested {
        Tested::Passed => Ok(0),
        Tested::Unchecked if file.is_found => Ok(0),
        Tested::Failed | Tested::Unchecked => Ok(FAILED),
    }
}

// Plays the sessions, and returns the largest status of them all.
fn test_all<W: Sink>(
    rt: &HostRuntime,
    names: &[&str],
    is_tap: bool,
    writer: &mut W,
) -> Result<u8, ServeFault> {
    let mut worst = 0;
    let files = named_sessions(rt, names, &mut worst)?;
    if is_tap {
        write_plan(rt.alloc(), files.len(), writer)?;
    }
    for (before, file) in files.iter().enumerate() {
        let number = is_tap.then_some(before.saturating_add(1));
        worst = worst.max(test_file(rt, file, number, writer)?);
    }
    Ok(worst)
}

/// Plays the sessions of these files, and of those below these folders. Returns the largest status of them all. The results are written as
/// the Test Anything Protocol has them (https://testanything.org), or in words.
pub(crate) fn test<W: Sink>(rt: &HostRuntime, names: &[&str], is_tap: bool, writer: &mut W) -> u8 {
    match test_all(rt, names, is_tap, writer) {
        Ok(worst) => worst,
        Err(fault) => fault.status(),
    }
}
