//! Which event wrote a value.

ghost use Rattle.std.specs.Prelude.{◌≡◌, [], IfOk, slice_index_or};
ghost use Rattle.dbg_base.specs.LocalStates.{no_state};
ghost use Rattle.ui_causes.specs.Origins.{write_at, FindsWrite, IsOrigin};

use crate::written::{Written, value_in, write_of};
use dbg_base::Pid;
use event_rows::Rows;
use std::alloc::AllocError;
use ui_view::NamedValue;

/// Where a value of a process comes from.
#[derive(Clone, Copy, PartialEq, Eq)]
pub(crate) enum Origin {
    /// It is the value at the start.
    Start(i64),
    /// The event of this number, from 1, wrote it.
    Event(u32, Written),
}

impl Origin {
    /// The value.
    pub(crate) fn value(&self) -> i64 {
        match self {
            Origin::Start(value) => *value,
            Origin::Event(_, written) => written.new,
        }
    }
}

// What the event of a process at this position, from 0, writes to this value, if it does.
fn write_at(rows: &Rows, pid: Pid, at: u32, named: NamedValue) -> Option<Written>
    ensures { result ≡ write_at named (slice_index_or rows.now.events pid.0 []) at }
{
    match rows.event(pid, at as usize) {
        Some(event) => write_of(event, named),
        None => None,
    }
}

// The last of the first n events of a process that writes this value, by its number from 1, and what it writes.
fn last_write(rows: &Rows, pid: Pid, n: u32, named: NamedValue) -> Option<(u32, Written)>
    ensures { FindsWrite named (slice_index_or rows.now.starts pid.0 no_state) (slice_index_or rows.now.events pid.0 []) n result }
{
    let mut left = n;
    while left > 0 {
        match write_at(rows, pid, left - 1, named) {
            Some(found) => return Some((left, found)),
            None => left -= 1,
        }
    }
    None
}

/// Where a value of a process comes from that it has after its first n events: the last of these that wrote it, or its start. Error: memory
/// ran out.
pub(crate) fn find_origin(
    rows: &Rows,
    pid: Pid,
    n: u32,
    named: NamedValue,
) -> Result<Origin, AllocError>
    ensures { IfOk result (λ origin. IsOrigin named (slice_index_or rows.now.starts pid.0 no_state)
        (slice_index_or rows.now.events pid.0 []) n origin) }
{
    match last_write(rows, pid, n, named) {
        Some((number, found)) => Ok(Origin::Event(number, found)),
        None => {
            let start = rows.past(pid, 0)?;
            Ok(Origin::Start(value_in(&start, named)))
        }
    }
}
