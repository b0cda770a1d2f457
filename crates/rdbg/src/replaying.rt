//! Plays a session again on an edited program.

use crate::{FAILED, device_of, tell_unreadable};
use shell_io::{Noted, Sink};
use shell_print::status;
use ui_expect::{ReplayNames, Replayed, replay};

/// Plays the session of the first file, and its lines on the program of the second. Returns the exit status.
pub(crate) fn replay_files<W: Sink>(
    rt: &HostRuntime,
    names: ReplayNames<'_>,
    writer: &mut W,
) -> u8 {
    let session = match device_of(rt, None, names.session) {
        Ok(device) => device,
        Err(error) => return tell_unreadable(rt, names.session, &error),
    };
    let program = match device_of(rt, None, names.program) {
        Ok(device) => device,
        Err(error) => return tell_unreadable(rt, names.program, &error),
    };
    let (mut session, mut program) = (Noted::new(session), Noted::new(program));
    match replay(rt.alloc(), names, &mut session, &mut program, writer) {
        Ok(Replayed::Same) => 0,
        Ok(Replayed::Otherwise) => FAILED,
        Ok(Replayed::Unplayed(served)) => status(&Ok(served)),
        Err(fault) => fault.status(),
    }
}
