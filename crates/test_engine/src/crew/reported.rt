//! Comparisons of answers.

use dbg_base::{Answer, Done, Refusal, Reply, Said};

/// The answer to a command.
pub fn said_to(outcome: Result<Reply, Refusal>) -> Said {
    match outcome {
        Ok(reply) => Said::Accepted(reply),
        Err(refusal) => Said::Refused(refusal),
    }
}

/// The answer to a query.
pub fn said_to_question(outcome: Result<Answer, Refusal>) -> Said {
    match outcome {
        Ok(answer) => Said::Answered(answer),
        Err(refusal) => Said::Refused(refusal),
    }
}

/// Whether the command was accepted, with nothing else to report, and no breakpoint halts.
pub fn is_plain(said: &Said) -> bool {
    match said {
        Said::Accepted(reply) => matches!(reply.done, Done::Plain) && reply.halted.is_none(),
        _ => false,
    }
}

/// Whether the answer is these values.
pub fn are_values(said: &Said, wanted: &[i64]) -> bool {
    match said {
        Said::Answered(Answer::Values(values)) => values.items() == wanted,
        _ => false,
    }
}

/// Whether the answer is this cut.
pub fn is_cut(said: &Said, wanted: &[u32]) -> bool {
    match said {
        Said::Answered(Answer::CutIs(Some(cut))) => cut.counts() == wanted,
        _ => false,
    }
}
