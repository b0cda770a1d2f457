//! How the replies of a session are shown.

ghost use Rattle.std.specs.Prelude.{◌≡◌, ℕ, List};
ghost use Rattle.proc_tree.specs.Programs.{program_of};
ghost use Rattle.shell_serve.specs.Replying.{FitsReply, reply_line};
ghost use Rattle.shell_serve.specs.Sessions.{WritesForm, exactly};

use crate::observer::LineReply;
use proc_tree::Program;
use shell_io::Sink;
use shell_print::{ServeFault, print_refusal, print_reply};
use std::alloc::Global;

/// How the replies of a session are shown: as a run writes them, or in another form.
pub trait ReplyForm {
    // This text may be shown for this line of a run.
    ghost Shows: { Self → List ℕ → List ℕ → Type 0 };

    /// Writes what is shown for a reply, with its line end.
    fn write_reply<W: Sink>(
        &self,
        alloc: Global,
        program: &Program,
        reply: LineReply<'_>,
        writer: &mut W,
    ) -> Result<(), ServeFault>
        requires { FitsReply (program_of program.now) reply }
        ensures { WritesForm (Shows self.now (reply_line (program_of program.now) reply.entry)) (W.seen writer.old) result
            (W.seen writer.new) };
}

/// The replies of a run, as they are.
#[derive(Clone, Copy)]
pub struct PlainReplies;

impl ReplyForm for PlainReplies {
    ghost Shows = { λ form. exactly };

    #[inline(always)]
    fn write_reply<W: Sink>(
        &self,
        _alloc: Global,
        program: &Program,
        reply: LineReply<'_>,
        writer: &mut W,
    ) -> Result<(), ServeFault> {
        match reply {
            LineReply::Said(call, said) => print_reply(program, call, said, writer),
            LineReply::Refused(refusal) => print_refusal(program, refusal, writer),
        }
    }
}
