//! The events that a batch made.

use dbg_base::{Call, Pid, Plan};

// The position, from 0, of the first event that these commands made of the events that the process has now, up to this place. If one of the
// commands may have undone what another one made, the result is the place itself.
fn made_by(plans: &[Plan], pid: Pid, place: u32) -> u32 {
    let mut level = place;
    let mut first = place;
    let mut is_known = true;
    for plan in plans.iter().rev() {
        match plan {
            Plan::Rollback(_, _) | Plan::Goto(_) => is_known = false,
            Plan::Undo(own) if *own == pid => level = level.saturating_add(1),
            Plan::Step(own, _) | Plan::Next(own) | Plan::Redo(own) if *own == pid => {
                if !is_known {
                    return place;
                }
                level = level.saturating_sub(1);
                first = first.min(level);
            }
            _ => {}
        }
    }
    first
}

/// The position, from 0, of the first event that a batch made of the events that the process has now, up to this place. If that is not
/// known, or the call is not a batch, the result is the place itself.
pub(crate) fn made_from(call: &Call, pid: Pid, place: u32) -> u32 {
    match call {
        Call::Give(Plan::Batch(plans)) => made_by(plans.as_slice(), pid, place),
        _ => place,
    }
}
