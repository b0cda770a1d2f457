//! An interactive session, as an observer.

ghost use Rattle.proc_tree.specs.Programs.{program_of};
ghost use Rattle.shell_serve.specs.Replying.{FitsReply};
ghost use Rattle.ui_session.specs.Dialogues.{interactive};

use crate::directives::{directive, sort};
use crate::named_replies::NamedReplies;
use crate::room::Room;
use crate::written::{explain, gap_before, write_echo};
use dbg_base::{Call, Said};
use dbg_command::SessionView;
use proc_tree::Program;
use shell_io::{GivenLine, Noted, Sink};
use shell_parse::without_return;
use shell_print::ServeFault;
use shell_serve::{LineReply, LineSort, Observer, PlainReplies, ReplyForm};
use std::alloc::{AllocError, Global};
use std::mem;
use ui_text::Notes;
use ui_view::{Answered, CountedCommands, Echo, Explainer, ReplyLines, Told};

/// The observer of an interactive session. It writes each line that was not typed, and an explanation after the reply. A directive has only
/// an explanation. A command line without a seat is one of seat 1.
#[derive(Drop)]
pub struct Dialogue<'a, T> {
    form: NamedReplies<'a>,
    explainer: T,
    commands: CountedCommands,
    // The last reply as it is shown, and as a run writes it, without line ends, if the explainer keeps replies.
    reply: Vec<u8>,
    plain_reply: Vec<u8>,
    // The last explanation.
    notes: Notes,
    is_out_of_memory: bool,
}

impl<'a, T> Dialogue<'a, T> {
    /// A session with replies in this form, and with this explainer.
    pub fn new(alloc: Global, form: NamedReplies<'a>, explainer: T) -> Dialogue<'a, T> {
        Dialogue {
            form,
            explainer,
            commands: CountedCommands::new(alloc),
            reply: Vec::new(alloc),
            plain_reply: Vec::new(alloc),
            notes: Notes::new(alloc),
            is_out_of_memory: false,
        }
    }

    /// The explainer, after the session. Error: memory ran out while it explained a line.
    pub fn into_explainer(self) -> Result<T, AllocError>
    where
        T: Drop,
    {
        if self.is_out_of_memory {
            return Err(AllocError);
        }
        Ok(self.explainer)
    }
}

// Keeps the reply to a line in this form, without its line end, in place of the last one. Error: memory ran out.
fn keep_reply<F: ReplyForm>(
    alloc: Global,
    form: &F,
    program: &Program,
    reply: LineReply<'_>,
    kept: &mut Vec<u8>,
) -> Result<(), ServeFault>
    requires { FitsReply (program_of program.now) reply }
{
    kept.clear();
    let mut line = Noted::new(Room::Text(mem::replace(kept, Vec::new(alloc))));
    let written = form.write_reply(alloc, program, reply, &mut line);
    *kept = line.into_inner().into_text(alloc);
    if kept.last() == Some(&b'\n') {
        let _end = kept.pop();
    }
    written
}

// What was said to a line. An accepted `back` took back the last command.
fn told<'x>(commands: &'x CountedCommands, reply: LineReply<'x>) -> Told<'x> {
    match reply {
        LineReply::Refused(refusal) => Told::Refused(refusal),
        LineReply::Said(call, said) => match (call, said) {
            (Call::Back, Said::Accepted(_)) => Told::Said(call, said, commands.last()),
            _ => Told::Said(call, said, None),
        },
    }
}

// Has a line explained with what was said to it.
fn explain_line<'x, T: Explainer<N>, N>(
    explainer: &mut T,
    view: SessionView<'x>,
    line: &'x GivenLine<'x, N>,
    told: Told<'x>,
    replies: ReplyLines<'x>,
    notes: &mut Notes,
) -> Result<(), AllocError> {
    explainer.explain(&Answered::new(view, line, told, replies), notes)
}

// Notes the command of this line, if it was accepted, or that one was taken back.
fn count<N>(commands: &mut CountedCommands, line: &GivenLine<'_, N>, reply: LineReply<'_>) {
    if line.is_first {
        commands.begin_line();
    }
    match reply {
        LineReply::Said(Call::Back, Said::Accepted(_)) => commands.pop(),
        LineReply::Said(call, Said::Accepted(_)) => {
            commands.push(line.played.unwrap_or(line.written), line.written, call);
        }
        LineReply::Said(_, _) | LineReply::Refused(_) => commands.skip(),
    }
}

impl<T: Explainer<N>, N> Observer<N> for Dialogue<'_, T> {
    ghost manner = { interactive };

    #[inline(always)]
    fn sort(&self, line: &[u8]) -> LineSort {
        sort(line)
    }

    // Only styles that are shown have to be set.
    fn marks_replies(&self) -> bool {
        self.notes.has_styles()
    }

    fn before<W: Sink>(
        &mut self,
        _alloc: Global,
        line: &GivenLine<'_, N>,
        writer: &mut W,
    ) -> Result<(), ServeFault> {
        self.notes.begin(writer.shows_styles());
        let heard = self.explainer.hear(line);
        self.is_out_of_memory |= heard.is_err();
        let echo = heard.unwrap_or(Echo::Nothing);
        let (echoes, gap) = (echo != Echo::Nothing, gap_before(echo));
        match line.played {
            Some(played) => write_echo(echoes, gap, without_return(played), writer),
            None => write_echo(echoes, gap, without_return(line.written), writer),
        }
    }

    fn direct<W: Sink>(
        &mut self,
        _alloc: Global,
        view: SessionView<'_>,
        line: &[u8],
        writer: &mut W,
    ) -> Result<(), ServeFault> {
        self.explainer
            .answer_directive(view, &self.commands, directive(line), &mut self.notes);
        explain(&mut self.notes, writer)
    }

    fn prepare(&mut self, _alloc: Global, view: SessionView<'_>, call: &Call) {
        self.explainer.prepare(view, call, &mut self.notes);
    }

    #[inline(always)]
    fn explain<W: Sink>(
        &mut self,
        alloc: Global,
        view: SessionView<'_>,
        line: &GivenLine<'_, N>,
        reply: LineReply<'_>,
        writer: &mut W,
    ) -> Result<(), ServeFault> {
        if self.explainer.keeps_replies() {
            let kept = keep_reply(alloc, &self.form, view.program, reply, &mut self.reply);
            self.is_out_of_memory |= kept.is_err();
            let plain = &mut self.plain_reply;
            let kept = keep_reply(alloc, &PlainReplies, view.program, reply, plain);
            self.is_out_of_memory |= kept.is_err();
        }
        let explained = explain_line(
            &mut self.explainer,
            view,
            &*line,
            told(&self.commands, reply),
            ReplyLines {
                shown: self.reply.as_slice(),
                plain: self.plain_reply.as_slice(),
            },
            &mut self.notes,
        );
        self.is_out_of_memory |= explained.is_err();
        count(&mut self.commands, line, reply);
        explain(&mut self.notes, writer)
    }

    fn end(&mut self, alloc: Global, view: SessionView<'_>) {
        self.is_out_of_memory |= self.explainer.end(alloc, view).is_err();
    }
}
