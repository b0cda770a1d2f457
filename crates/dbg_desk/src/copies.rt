//! Copies of answers to queries, for the journal.

ghost use Rattle.std.specs.Prelude.{◌≡◌, ◌≢◌, ◌↔◌, IfOk, IfErr, OnOk, Err, IsTrue};
ghost use Rattle.dbg_base.specs.declared.refusal.Refusal.TheVariants.{Memory};
ghost use Rattle.std.specs.Prelude.{◌≤◌, [], length};
ghost use Rattle.std.specs.Vec.{vec_capacity};
ghost use Rattle.dbg_base.specs.Trees.{Program};
ghost use Rattle.dbg_base.specs.Calls.{Back};
ghost use Rattle.dbg_base.specs.Fits.{FitsCall};
ghost use Rattle.dbg_command.specs.Tables.{said_of, reported_of};

use dbg_base::{Answer, Refusal, Reply, Said};

/// Whether the call was refused because memory ran out.
pub(crate) fn ran_out<T>(outcome: &Result<T, Refusal>) -> bool
    ensures { IsTrue result ↔ (outcome.now ≡ Err Memory) }
{
    matches!(outcome, Err(Refusal::Memory))
}

/// What is said to a command with this outcome.
#[inline(never)]
pub(crate) fn said_to_command(outcome: Result<Reply, Refusal>) -> Said
    ensures { result ≡ said_of outcome }
{
    match outcome {
        Ok(reply) => Said::Accepted(reply),
        Err(refusal) => Said::Refused(refusal),
    }
}

/// What is said to a query with this outcome. Error: `Memory`, if it was refused with it.
pub(crate) fn said_to_query(outcome: Result<Answer, Refusal>) -> Result<Said, Refusal>
    ensures said { IfOk result (λ made. made ≡ reported_of outcome) }
    ensures there { OnOk result (outcome ≢ Err Memory) }
    ensures refuses { IfErr result (λ refusal. refusal ≡ Memory) }
{
    match outcome {
        Ok(answer) => Ok(Said::Answered(answer)),
        Err(Refusal::Memory) => Err(Refusal::Memory),
        Err(refusal) => Ok(Said::Refused(refusal)),
    }
}

/// The outcome of a command or of `back` to which this was said. A reply has its places in the memory of this list, which is empty and has
/// room for a place of each process. It does not allocate.
pub(crate) fn outcome_of(said: &Said, room: Vec<u32>) -> Result<Reply, Refusal>
    requires fits { (P : Program) × FitsCall P Back said.now × (length P ≤ vec_capacity room) }
    requires empty { room.items ≡ [] }
    ensures { said_of result ≡ said.now }
{
    match said {
        Said::Accepted(reply) => Ok(reply.copy_into(room)),
        Said::Refused(refusal) => Err(*refusal),
        Said::Answered(_) => unreachable!(),
    }
}

/// A copy of the outcome of a query. Error: `Memory`, if an allocation fails.
pub(crate) fn outcome_again(
    outcome: &Result<Answer, Refusal>,
) -> Result<Result<Answer, Refusal>, Refusal>
    ensures again { IfOk result (λ made. made ≡ outcome.now) }
    ensures refuses { IfErr result (λ refusal. refusal ≡ Memory) }
{
    match outcome {
        Ok(answer) => Ok(Ok(answer.copy()?)),
        Err(refusal) => Ok(Err(*refusal)),
    }
}
