//! What prevents a command from firing.

ghost use Rattle.std.specs.Prelude.{◌≡◌};
ghost use Rattle.ui_view.specs.Hindrances.{refusal_of};

use dbg_base::{Pid, Refusal};

/// What prevents a command of a process from firing.
#[derive(Clone, Copy, PartialEq, Eq)]
pub enum Hindrance {
    /// The process has no such command.
    NoCommand,
    /// The process has as many events as it may have.
    Full,
    /// The guard is false.
    GuardFalse,
    /// The evaluation of the guard faults.
    GuardFaults,
    /// No message from this process is on its way.
    NoMessage(Pid),
    /// An expression after the guard faults. The message is the one that the command would receive, if it receives.
    Faults(Option<i64>),
}

impl Hindrance {
    /// The refusal of the command.
    pub fn refusal(self) -> Refusal
        ensures { result ≡ refusal_of self }
    {
        match self {
            Hindrance::NoCommand => Refusal::UnknownChoice,
            Hindrance::Full => Refusal::ProcessFull,
            Hindrance::GuardFalse => Refusal::GuardFalse,
            Hindrance::GuardFaults | Hindrance::Faults(_) => Refusal::Fault,
            Hindrance::NoMessage(_) => Refusal::ChannelEmpty,
        }
    }
}
