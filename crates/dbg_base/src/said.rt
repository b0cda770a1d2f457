//! What a session answers.

ghost use Rattle.std.specs.Prelude.{◌≡◌, ◌≤◌, []};
ghost use Rattle.std.specs.Vec.{vec_capacity};
ghost use Rattle.dbg_base.specs.Copies.{IsCopy, counts_in};

use crate::ids::{Choice, Cut, Pid};
use crate::name::Name;
use crate::refusal::Refusal;
use crate::sequence::Sequence;

/// What an accepted command did.
#[derive(Debug, Drop, PartialEq, Eq)]
pub enum Done {
    /// The process made this command.
    Played(Pid, Choice),
    /// The process undid this command.
    Undone(Pid, Choice),
    /// The processes are at these places now.
    Places(Cut),
    /// There is nothing else to report.
    Plain,
}

impl Done {
    // Copies it. Error: `Memory`, if an allocation fails.
    fn copy(&self) -> Result<Done, Refusal>
        ensures { IsCopy result (λ made. made ≡ self.now) }
    {
        match self {
            Done::Played(pid, choice) => Ok(Done::Played(*pid, *choice)),
            Done::Undone(pid, choice) => Ok(Done::Undone(*pid, *choice)),
            Done::Places(places) => Ok(Done::Places(places.copy()?)),
            Done::Plain => Ok(Done::Plain),
        }
    }

    // Copies it into the memory of this list, which is empty and has room for the counts.
    fn copy_into(&self, room: Vec<u32>) -> Done
        requires empty { room.items ≡ [] }
        requires room { counts_in self.now ≤ vec_capacity room }
        ensures { result ≡ self.now }
    {
        match self {
            Done::Played(pid, choice) => Done::Played(*pid, *choice),
            Done::Undone(pid, choice) => Done::Undone(*pid, *choice),
            Done::Places(places) => Done::Places(places.copy_into(room)),
            Done::Plain => Done::Plain,
        }
    }
}

/// The answer to an accepted command.
#[derive(Debug, Drop, PartialEq, Eq)]
pub struct Reply {
    pub done: Done,
    /// The breakpoint that halts the session after the command, if any.
    pub halted: Option<Name>,
}

impl Reply {
    // Copies the reply. Error: `Memory`, if an allocation fails.
    fn copy(&self) -> Result<Reply, Refusal>
        ensures { IsCopy result (λ made. made ≡ self.now) }
    {
        let done = self.done.copy()?;
        Ok(Reply {
            done,
            halted: self.halted,
        })
    }

    /// Copies the reply into the memory of this list. The list is empty, and has room for the places if the reply has places. It does not
    /// allocate.
    pub fn copy_into(&self, room: Vec<u32>) -> Reply
        requires empty { room.items ≡ [] }
        requires room { counts_in self.now.done ≤ vec_capacity room }
        ensures { result ≡ self.now }
    {
        Reply {
            done: self.done.copy_into(room),
            halted: self.halted,
        }
    }
}

/// One component of a frontier.
#[derive(Clone, Copy, Debug, PartialEq, Eq)]
pub enum Head {
    /// This count of events of the process.
    At(u32),
    /// One more than the number of the process's events.
    Past,
}

/// The answer to a query.
#[derive(Debug, Drop, PartialEq, Eq)]
pub enum Answer {
    /// The values of a process's variables, in program order.
    Values(Sequence<i64>),
    /// The messages on their way, the head of the channel first.
    Messages(Sequence<i64>),
    /// A vector clock.
    Counts(Cut),
    /// A process's place and the length of its line.
    PlaceOf { at: u32, line: u32 },
    /// Whether a process's last event may be undone, or why not.
    CanUndo(Result<(), Refusal>),
    /// A breakpoint's cut, if it has one.
    CutIs(Option<Cut>),
    /// A breakpoint's frontier, a component for each process.
    Frontier(Sequence<Head>),
    /// The breakpoints in order, each with its mark: whether it is armed.
    Marks(Sequence<(Name, bool)>),
}

impl Answer {
    /// Copies the answer. Error: `Memory`, if an allocation fails.
    pub fn copy(&self) -> Result<Answer, Refusal>
        ensures { IsCopy result (λ made. made ≡ self.now) }
    {
        match self {
            Answer::Values(values) => Ok(Answer::Values(values.copy()?)),
            Answer::Messages(messages) => Ok(Answer::Messages(messages.copy()?)),
            Answer::Counts(counts) => Ok(Answer::Counts(counts.copy()?)),
            Answer::PlaceOf { at, line } => Ok(Answer::PlaceOf {
                at: *at,
                line: *line,
            }),
            Answer::CanUndo(can) => Ok(Answer::CanUndo(*can)),
            Answer::CutIs(Some(cut)) => Ok(Answer::CutIs(Some(cut.copy()?))),
            Answer::CutIs(None) => Ok(Answer::CutIs(None)),
            Answer::Frontier(heads) => Ok(Answer::Frontier(heads.copy()?)),
            Answer::Marks(marks) => Ok(Answer::Marks(marks.copy()?)),
        }
    }
}

/// The answer of a session to a call.
#[derive(Debug, Drop, PartialEq, Eq)]
pub enum Said {
    /// The command was accepted.
    Accepted(Reply),
    /// The query was answered.
    Answered(Answer),
    /// The call was refused, and changed nothing.
    Refused(Refusal),
}

impl Said {
    /// Copies the answer. Error: `Memory`, if an allocation fails.
    pub fn copy(&self) -> Result<Said, Refusal>
        ensures { IsCopy result (λ made. made ≡ self.now) }
    {
        match self {
            Said::Accepted(reply) => Ok(Said::Accepted(reply.copy()?)),
            Said::Answered(answer) => Ok(Said::Answered(answer.copy()?)),
            Said::Refused(refusal) => Ok(Said::Refused(*refusal)),
        }
    }
}
