//! Numbers of processes and commands, and cuts.

ghost use Rattle.std.specs.Prelude.{◌≡◌, ◌<◌, ◌≤◌, [], length, slice_index, slice_set};
ghost use Rattle.std.specs.Vec.{vec_capacity};
ghost use Rattle.dbg_base.specs.Copies.{IsCopy};

use crate::refusal::Refusal;
use std::marker::Model;

/// A process, by its position in the program, from 0.
#[derive(Clone, Copy, Debug, PartialEq, Eq, PartialOrd, Ord)]
pub struct Pid(pub u32);

/// A command of a process, by its position in the process, from 0.
#[derive(Clone, Copy, Debug, PartialEq, Eq, PartialOrd, Ord)]
pub struct Choice(pub u32);

/// The count of a process in this list, or 0 if the list has none. It does not allocate.
pub fn count_of(counts: &[u32], pid: Pid) -> u32
    ensures { result ≡ slice_index counts.now pid.0 }
{
    counts.get(pid.0 as usize).copied().unwrap_or(0)
}

/// One count of events for each process, in program order.
#[derive(Debug)]
pub struct Cut {
    counts: Vec<u32>,
}

impl Drop for Cut {
    fn drop(self) {
        let Self { counts } = self;
    }
}

impl Model for Cut {
    ghost use Rattle.std.specs.Prelude.{ℕ, List};

    ghost Value = { List ℕ };

    ghost view = { λ cut. cut.counts.items };
}

impl PartialEq for Cut {
    ghost use Rattle.std.specs.Str.{bytes_eq};
    ghost use Rattle.std.specs.Cmp.{partial_equiv_from_equiv};
    ghost use Rattle.std.specs.Cmp.Lexicographic.{nat_list_eq_equiv};

    ghost eq = { bytes_eq };

    ghost laws = { partial_equiv_from_equiv nat_list_eq_equiv };

    fn eq(&self, other: &Self) -> bool {
        self.counts() == other.counts()
    }
}

impl Eq for Cut {
    ghost use Rattle.std.specs.Cmp.Lexicographic.{nat_list_eq_equiv};

    ghost laws = { nat_list_eq_equiv };
}

impl Cut {
    /// The cut with these counts. It does not allocate.
    pub fn new(counts: Vec<u32>) -> Self
        ensures { result ≡ counts.items }
    {
        Cut { counts }
    }

    /// The counts, in program order.
    pub fn counts(&self) -> &[u32]
        ensures { result.now ≡ self.now }
    {
        self.counts.as_slice()
    }

    /// The count of a process, or 0 if the cut has none. It does not allocate.
    pub fn count(&self, pid: Pid) -> u32
        ensures { result ≡ slice_index self.now pid.0 }
    {
        count_of(self.counts(), pid)
    }

    /// Sets the count of a process that the cut has. It does not allocate.
    pub fn set(&mut self, pid: Pid, count: u32)
        requires { pid.0 < length self.old }
        ensures { self.new ≡ slice_set self.old pid.0 count }
    {
        self.counts[pid.0 as usize] = count;
    }

    /// Copies the cut. Error: `Memory`, if an allocation fails.
    pub fn copy(&self) -> Result<Cut, Refusal>
        ensures { IsCopy result (λ made. made ≡ self.now) }
    {
        Ok(Cut::new(self.counts.clone()?))
    }

    /// Copies the cut into the memory of this list, which is empty and has room for it. It does not allocate.
    pub fn copy_into(&self, room: Vec<u32>) -> Cut
        requires empty { room.items ≡ [] }
        requires room { length self.now ≤ vec_capacity room }
        ensures { result ≡ self.now }
    {
        let mut counts = room;
        for count in self.counts() {
            counts.push_reserved(*count);
        }
        Cut::new(counts)
    }
}
