//! An answer in few bytes.

ghost use Rattle.std.specs.Prelude.{◌≡◌, ◌↔◌, IsTrue, IfSome};
ghost use Rattle.dbg_base.specs.declared.said.Said.TheVariants.{Accepted, Answered};
ghost use Rattle.dbg_base.specs.Copies.{IsCopy};
ghost use Rattle.dbg_records.specs.Small.{accepted, small_said_of};

use dbg_base::{Answer, Choice, Cut, Done, Head, Pid, Refusal, Reply, Said, Sequence};
use std::alloc::Global;

/// An answer in 32 bytes: frequent answers are stored in place, others in a box.
#[derive(Debug, Drop)]
pub enum SmallSaid {
    /// The command was accepted, no breakpoint halts, and the process made this command.
    Played(Pid, Choice),
    /// The same, and the process undid this command.
    Undone(Pid, Choice),
    /// The same, with nothing else to report.
    Plain,
    Values(Vec<i64>),
    Messages(Vec<i64>),
    Counts(Cut),
    PlaceOf { at: u32, line: u32 },
    /// The process's last event may be undone.
    MayUndo,
    Frontier(Vec<Head>),
    Apart(Box<Said>),
}

const _: () = prove!(size_of::<SmallSaid>() <= 32);

// The answer that the command was accepted with this result, and no breakpoint halts.
fn accept(done: Done) -> Said
    ensures { result ≡ accepted done }
{
    Said::Accepted(Reply { done, halted: None })
}

// Copies these items.
fn copy_items<T: Copy>(items: &Vec<T>) -> Result<Sequence<T>, Refusal>
    ensures { IsCopy result (λ made. made ≡ items.now.items) }
{
    Ok(Sequence::new(Vec::from_slice(*items.allocator(), items)?))
}

// The answer in a box.
fn apart(alloc: Global, said: Said) -> Result<SmallSaid, Refusal>
    ensures { IsCopy result (λ made. small_said_of made ≡ said) }
{
    Ok(SmallSaid::Apart(Box::new(alloc, said)?))
}

// The answer to a query.
fn small_answer(alloc: Global, answer: &Answer) -> Result<SmallSaid, Refusal>
    ensures { IsCopy result (λ made. small_said_of made ≡ Answered answer.now) }
{
    match answer {
        Answer::Values(values) => Ok(SmallSaid::Values(Vec::from_slice(alloc, values.items())?)),
        Answer::Messages(messages) => Ok(SmallSaid::Messages(Vec::from_slice(
            alloc,
            messages.items(),
        )?)),
        Answer::Counts(counts) => Ok(SmallSaid::Counts(counts.copy()?)),
        Answer::PlaceOf { at, line } => Ok(SmallSaid::PlaceOf {
            at: *at,
            line: *line,
        }),
        Answer::CanUndo(Ok(())) => Ok(SmallSaid::MayUndo),
        Answer::Frontier(heads) => Ok(SmallSaid::Frontier(Vec::from_slice(alloc, heads.items())?)),
        Answer::CanUndo(Err(_)) | Answer::CutIs(_) | Answer::Marks(_) => {
            apart(alloc, Said::Answered(answer.copy()?))
        }
    }
}

impl SmallSaid {
    /// The reply to an accepted command, or None if it needs a box. It does not allocate.
    pub fn of_reply(reply: &Reply) -> Option<SmallSaid>
        ensures { IfSome result (λ small. small_said_of small ≡ Accepted reply.now) }
    {
        match (&reply.done, reply.halted) {
            (Done::Played(pid, choice), None) => Some(SmallSaid::Played(*pid, *choice)),
            (Done::Undone(pid, choice), None) => Some(SmallSaid::Undone(*pid, *choice)),
            (Done::Plain, None) => Some(SmallSaid::Plain),
            _ => None,
        }
    }

    /// This answer. Error: `Memory`, if an allocation fails.
    pub fn new(alloc: Global, said: &Said) -> Result<SmallSaid, Refusal>
        ensures { IsCopy result (λ made. small_said_of made ≡ said.now) }
    {
        match said {
            Said::Accepted(reply) => match SmallSaid::of_reply(reply) {
                Some(small) => Ok(small),
                None => apart(alloc, said.copy()?),
            },
            Said::Answered(answer) => small_answer(alloc, answer),
            Said::Refused(refusal) => apart(alloc, Said::Refused(*refusal)),
        }
    }

    /// A copy of the answer. Error: `Memory`, if an allocation fails.
    pub fn said(&self) -> Result<Said, Refusal>
        ensures { IsCopy result (λ made. made ≡ small_said_of self.now) }
    {
        match self {
            SmallSaid::Played(pid, choice) => Ok(accept(Done::Played(*pid, *choice))),
            SmallSaid::Undone(pid, choice) => Ok(accept(Done::Undone(*pid, *choice))),
            SmallSaid::Plain => Ok(accept(Done::Plain)),
            SmallSaid::Values(values) => Ok(Said::Answered(Answer::Values(copy_items(values)?))),
            SmallSaid::Messages(messages) => {
                Ok(Said::Answered(Answer::Messages(copy_items(messages)?)))
            }
            SmallSaid::Counts(counts) => Ok(Said::Answered(Answer::Counts(counts.copy()?))),
            SmallSaid::PlaceOf { at, line } => Ok(Said::Answered(Answer::PlaceOf {
                at: *at,
                line: *line,
            })),
            SmallSaid::MayUndo => Ok(Said::Answered(Answer::CanUndo(Ok(())))),
            SmallSaid::Frontier(heads) => Ok(Said::Answered(Answer::Frontier(copy_items(heads)?))),
            SmallSaid::Apart(said) => said.copy(),
        }
    }

    /// Whether it is this answer. It does not allocate.
    pub fn is_said(&self, said: &Said) -> bool
        ensures { IsTrue result ↔ (small_said_of self.now ≡ said.now) }
    {
        match (self, said) {
            (
                SmallSaid::Played(one, first),
                Said::Accepted(
                    Reply {
                        done: Done::Played(other, second),
                        halted: None,
                    },
                ),
            ) => one == other && first == second,
            (
                SmallSaid::Undone(one, first),
                Said::Accepted(
                    Reply {
                        done: Done::Undone(other, second),
                        halted: None,
                    },
                ),
            ) => one == other && first == second,
            (
                SmallSaid::Plain,
                Said::Accepted(
                    Reply {
                        done: Done::Plain,
                        halted: None,
                    },
                ),
            ) => true,
            (SmallSaid::Values(one), Said::Answered(Answer::Values(other))) => {
                one.as_slice() == other.items()
            }
            (SmallSaid::Messages(one), Said::Answered(Answer::Messages(other))) => {
                one.as_slice() == other.items()
            }
            (SmallSaid::Counts(one), Said::Answered(Answer::Counts(other))) => one == other,
            (
                SmallSaid::PlaceOf { at, line },
                Said::Answered(
                    Answer::PlaceOf {
                        at: other,
                        line: other_line,
                    },
                ),
            ) => at == other && line == other_line,
            (SmallSaid::MayUndo, Said::Answered(Answer::CanUndo(Ok(())))) => true,
            (SmallSaid::Frontier(one), Said::Answered(Answer::Frontier(other))) => {
                one.as_slice() == other.items()
            }
            (SmallSaid::Apart(one), other) => *one.as_ref() == *other,
            _ => false,
        }
    }
}
