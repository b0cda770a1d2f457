//! The events of a process in a cut, as marks: runs of events that are shown as one.

ghost use Rattle.std.specs.Prelude.{◌≡◌, [], IfOk, slice_index_or};
ghost use Rattle.ui_halt.specs.Marks.{receives, changes, begins, AreStarts};

use crate::lane::is_true_after;
use dbg_base::Pid;
use event_rows::{Event, Exchange, Rows};
use std::alloc::{AllocError, Global};

// Whether the event of this number, from 1, received a message.
fn receives(rows: &Rows, pid: Pid, number: u32) -> bool
    ensures { result ≡ receives (slice_index_or rows.now.events pid.0 []) number }
{
    let event = rows.event(pid, (number as usize).saturating_sub(1));
    matches!(event.map(Event::exchange), Some(Exchange::Took { .. }))
}

// Whether the event of this number, from 1, changes the truth of the part.
fn changes(truths: &[bool], number: u32) -> bool
    ensures { result ≡ changes truths.now number }
{
    is_true_after(truths, number) != is_true_after(truths, number.saturating_sub(1))
}

// Whether a mark begins with the event of this number, from 1.
fn begins(rows: &Rows, pid: Pid, truths: &[bool], number: u32) -> bool
    ensures { result ≡ begins (slice_index_or rows.now.events pid.0 []) truths.now number }
{
    number == 1
        || receives(rows, pid, number)
        || changes(truths, number)
        || changes(truths, number.saturating_sub(1))
}

/// The numbers, from 1, of the events with which the marks of a process begin, of its first events, so many. A mark ends before the next one.
/// It has at most one receive, its first event, and an event that changes the truth of the part is alone. Error: memory ran out.
pub fn mark_starts(
    alloc: Global,
    rows: &Rows,
    pid: Pid,
    truths: &[bool],
    count: u32,
) -> Result<Vec<u32>, AllocError>
    ensures { IfOk result (λ starts. AreStarts (slice_index_or rows.now.events pid.0 []) truths.now count starts.items) }
{
    let mut starts = Vec::new(alloc);
    for before in 0..count {
        let number = before + 1;
        if begins(rows, pid, truths, number) {
            starts.push(number)?;
        }
    }
    Ok(starts)
}
