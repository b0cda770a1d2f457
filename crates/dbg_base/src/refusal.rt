//! Why a call was refused.

ghost use Rattle.std.specs.Prelude.{◌≡◌};
ghost use Rattle.dbg_base.specs.Refusals.{refusal_number};
ghost use Rattle.dbg_base.specs.declared.refusal.Refusal.TheVariants.{Memory};

use crate::ids::Pid;
use crate::name::Name;
use std::alloc::{AllocError, AllocFailed};

/// Why a call or a line was refused. A refused call changes nothing.
#[derive(Clone, Copy, Debug, PartialEq, Eq)]
pub enum Refusal {
    /// There is no such process.
    UnknownProcess,
    /// The process has no such command.
    UnknownChoice,
    /// The command's guard is false.
    GuardFalse,
    /// An evaluation faults.
    Fault,
    /// There is nothing to receive.
    ChannelEmpty,
    /// The process has no event.
    NothingToUndo,
    /// This process has received the message.
    Consequence(Pid),
    /// The redo line is empty.
    NothingToRedo,
    /// This breakpoint halts the session.
    Halted(Name),
    /// The count of events is above the process's place.
    BadPlace,
    /// A breakpoint has the name already.
    BreakTaken,
    /// No breakpoint has the name.
    UnknownBreak,
    /// The breakpoint has no cut.
    NoCut,
    /// The breakpoint is not armed.
    NotArmed,
    /// The breakpoint is armed already.
    AlreadyArmed,
    /// No accepted command is left to take back.
    NothingBack,
    /// Another seat gave the last accepted command: this one.
    OtherSeat(u32),
    /// The process has reached the limit of events.
    ProcessFull,
    /// The session has reached the limit of breakpoints.
    BreaksFull,
    /// The journal has reached the limit of calls.
    JournalFull,
    /// An allocation failed.
    Memory,
    /// Syntax error: the line is not a command line.
    BadLine,
    /// The text is not a truth expression of that process, a process is named twice, or there is no conjunct.
    BadPredicate,
    /// No command of the process fires.
    NoneEnabled,
    /// A command of the batch was refused: the first refused one is at this position, from 1, with this number of its refusal.
    InBatch { at: u32, number: u32 },
}

impl Refusal {
    /// The number of the refusal, from 1 to 25. It does not allocate.
    pub fn number(&self) -> u32
        ensures { result ≡ refusal_number self.now }
    {
        match self {
            Refusal::UnknownProcess => 1,
            Refusal::UnknownChoice => 2,
            Refusal::GuardFalse => 3,
            Refusal::Fault => 4,
            Refusal::ChannelEmpty => 5,
            Refusal::NothingToUndo => 6,
            Refusal::Consequence(_) => 7,
            Refusal::NothingToRedo => 8,
            Refusal::Halted(_) => 9,
            Refusal::BadPlace => 10,
            Refusal::BreakTaken => 11,
            Refusal::UnknownBreak => 12,
            Refusal::NoCut => 13,
            Refusal::NotArmed => 14,
            Refusal::AlreadyArmed => 15,
            Refusal::NothingBack => 16,
            Refusal::OtherSeat(_) => 17,
            Refusal::ProcessFull => 18,
            Refusal::BreaksFull => 19,
            Refusal::JournalFull => 20,
            Refusal::Memory => 21,
            Refusal::BadLine => 22,
            Refusal::BadPredicate => 23,
            Refusal::NoneEnabled => 24,
            Refusal::InBatch { .. } => 25,
        }
    }
}

impl From<AllocError> for Refusal {
    ghost from_gives = { λ _ refusal. refusal ≡ Memory };

    fn from(_error: AllocError) -> Refusal {
        Refusal::Memory
    }
}

impl<T: Drop> From<AllocFailed<T>> for Refusal {
    ghost from_gives = { λ _ refusal. refusal ≡ Memory };

    fn from(_error: AllocFailed<T>) -> Refusal {
        Refusal::Memory
    }
}
