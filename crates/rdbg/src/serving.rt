//! A run of a session, and its exit status.

ghost use Rattle.std.specs.Prelude.{◌≡◌, Result, IfOk, IfSome};
ghost use Rattle.shell_io.specs.declared.health.Health.TheVariants.{Fine};
ghost use Rattle.shell_print.specs.declared.outcome.Served.{Served};
ghost use Rattle.shell_print.specs.declared.outcome.ServeFault.{ServeFault};
ghost use Rattle.shell_print.specs.Outcomes.{status_of, source_after, sink_after};
ghost use Rattle.shell_serve.specs.Written.{WritesSome};
ghost use Rattle.shell_serve.specs.Serving.{ServesInput};

use dbg_shell::{serve, status};
use shell_io::{Sink, Source};
use std::alloc::Global;

/// Answers a session, as `serve` does, and returns the exit status of its outcome.
pub(crate) fn run<R: Source, W: Sink>(alloc: Global, reader: &mut R, writer: &mut W) -> u8
    ensures { (outcome : Result Served ServeFault) × (result ≡ status_of outcome)
        × IfOk outcome (λ served. IfSome (R.remaining reader.old)
        (λ input. WritesSome (W.seen writer.old) (W.seen writer.new) (ServesInput input served)))
        × (R.health reader.old ≡ Fine → R.health reader.new ≡ source_after outcome)
        × ((W.seen writer.old).health ≡ Fine → (W.seen writer.new).health ≡ sink_after outcome) }
{
    status(&serve(alloc, reader, writer))
}
