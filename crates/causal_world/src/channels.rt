//! What an event does to the messages on their way, and how that is undone.

ghost use Rattle.std.specs.Prelude.{◌≡◌, ◌≤◌, ◌+◌, ℕ, OnOk};
ghost use Rattle.fifo_grid.specs.Grids.{room_at};
ghost use Rattle.causal_world.specs.Scenes.{channels_after, channels_before};
ghost use Rattle.causal_world.specs.Room.{HasRoomsAfter, HasRoomAfter, HasRoomBefore, puts_after, puts_before};
ghost use Rattle.causal_world.specs.Worlds.{ReceivedBy};

use dbg_base::Pid;
use event_rows::Exchange;
use fifo_grid::Grid;
use std::alloc::AllocError;

/// Makes room for so many messages on the channel to which the exchange sends. No room is lost. If an allocation fails, no message changes.
pub(crate) fn make_room_after(
    grid: &mut Grid,
    pid: Pid,
    exchange: Exchange,
    more: usize,
) -> Result<(), AllocError>
    ensures kept { grid.new.channels ≡ grid.old.channels }
    ensures grows { (i j : ℕ) → room_at grid.old.room i j ≤ room_at grid.new.room i j }
    ensures room { OnOk result (HasRoomsAfter grid.new pid.0 exchange more) }
{
    match exchange {
        Exchange::Sent { target, .. } => grid.reserve(pid, target, more),
        _ => Ok(()),
    }
}

/// Appends a sent message to its channel, and removes a received one from the head.
pub(crate) fn go_after(grid: &mut Grid, pid: Pid, exchange: Exchange)
    requires { HasRoomAfter grid.old pid.0 exchange }
    ensures channels { grid.new.channels ≡ channels_after grid.old.channels pid.0 exchange }
    ensures room { (i j : ℕ) → room_at grid.old.room i j ≤ room_at grid.new.room i j + puts_after pid.0 exchange i j }
{
    match exchange {
        Exchange::Nothing => {}
        Exchange::Sent { target, value, .. } => {
            if grid.has(pid, target) {
                grid.push_back(pid, target, value);
            }
        }
        Exchange::Took { source, .. } => {
            let _prefix = grid.pop_front(source, pid);
        }
    }
}

/// Makes room for the message that the exchange received. If an allocation fails, no message changes.
pub(crate) fn make_room_before(
    grid: &mut Grid,
    pid: Pid,
    exchange: Exchange,
) -> Result<(), AllocError>
    ensures kept { grid.new.channels ≡ grid.old.channels }
    ensures room { OnOk result (HasRoomBefore grid.new pid.0 exchange) }
{
    match exchange {
        Exchange::Took { source, .. } => grid.reserve(source, pid, 1),
        _ => Ok(()),
    }
}

/// Removes a sent message from the tail of its channel, and puts a received one back at the head.
pub(crate) fn go_before(grid: &mut Grid, pid: Pid, exchange: Exchange)
    requires { HasRoomBefore grid.old pid.0 exchange }
    ensures channels { grid.new.channels ≡ channels_before grid.old.channels pid.0 exchange }
    ensures room { (i j : ℕ) → room_at grid.old.room i j ≤ room_at grid.new.room i j + puts_before pid.0 exchange i j }
{
    match exchange {
        Exchange::Nothing => {}
        Exchange::Sent { target, .. } => {
            let _back = grid.unpush_back(pid, target);
        }
        Exchange::Took {
            source,
            message,
            ..
        } => {
            if grid.has(source, pid) {
                grid.unpop_front(source, pid, message);
            }
        }
    }
}

/// The process that has received the message that the exchange sent, if there is one. Then the channel is empty, since the message sent
/// last is received last.
pub(crate) fn received(grid: &Grid, pid: Pid, exchange: Exchange) -> Option<Pid>
    ensures { ReceivedBy grid.now.channels pid.0 exchange result }
{
    match exchange {
        Exchange::Sent { target, .. } => {
            if grid.has(pid, target) && grid.len(pid, target) == 0 {
                Some(target)
            } else {
                None
            }
        }
        _ => None,
    }
}
