//! What an event did.

ghost use Rattle.std.specs.Prelude.{◌≡◌, ℕ, ◌≤◌, true, false, min, MatchOption};
ghost use Rattle.cut_core.specs.Kinds.{is_like, gets_from};
ghost use Rattle.cut_core.specs.Places.{own_list};

use dbg_base::Pid;

/// What an event did.
#[derive(Clone, Copy, PartialEq, Eq)]
pub enum Kind {
    /// It sent a message to this process.
    Sent(Pid),
    /// It received a message from this process.
    Got(Pid),
    /// It sent no message and received none.
    Local,
}

impl Kind {
    // Whether both did the same, with the same process.
    pub(crate) fn is_like(self, wanted: Kind) -> bool
        ensures { result ≡ is_like wanted self }
    {
        match (wanted, self) {
            (Kind::Sent(to), Kind::Sent(other)) => other.0 == to.0,
            (Kind::Got(from), Kind::Got(other)) => other.0 == from.0,
            (Kind::Local, Kind::Local) => true,
            _ => false,
        }
    }

    // The number of the list for its position. The last list is for all kinds without a list of their own.
    pub(crate) fn list(self, last: usize) -> usize
        ensures { result ≡ min (own_list self) last }
    {
        self.own_list().min(last)
    }

    // The number of the list of its own, if there are so many lists.
    pub(crate) fn own_list(self) -> usize
        ensures { result ≡ own_list self }
    {
        match self {
            Kind::Local => 0,
            Kind::Sent(to) => to.0 as usize * 2 + 1,
            Kind::Got(from) => from.0 as usize * 2 + 2,
        }
    }

    // The process from which it received, if that is not among so many.
    pub(crate) fn stranger(self, processes: u32) -> Option<Pid>
        ensures { MatchOption result ((i : ℕ) → processes ≤ i → gets_from i self ≡ false)
            (λ from. (processes ≤ from.0) × (gets_from from.0 self ≡ true)) }
    {
        match self {
            Kind::Got(from) if from.0 >= processes => Some(from),
            _ => None,
        }
    }
}
