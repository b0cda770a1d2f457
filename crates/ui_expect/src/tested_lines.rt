//! The lines of a session with expected replies, as they are read and answered.

ghost use Rattle.std.specs.Prelude.{◌≡◌, ◌++◌, ◌∷◌, [], Some, None, IfOk};
ghost use Rattle.std.specs.declared.vec.Vec.{Vec};
ghost use Rattle.ui_expect.specs.Tests.{pending, tested_of};
ghost use Rattle.ui_expect.specs.declared.comparing.PlayedLine.TheVariants as kinds;

use crate::comparing::{PlayedLine, Tested, compare};
use std::alloc::{AllocError, Global};
use ui_repl::ReplyForms;

/// The lines that were read, and the last reply to the last of them that is no remark, if no line expects it yet.
#[derive(Drop)]
pub struct TestedLines {
    lines: Vec<PlayedLine>,
    reply: Option<ReplyForms>,
}

impl TestedLines {
    /// No line was read.
    pub fn new(alloc: Global) -> TestedLines
        ensures lines { result.lines.items ≡ [] }
        ensures reply { result.reply ≡ None }
    {
        TestedLines {
            lines: Vec::new(alloc),
            reply: None,
        }
    }

    /// A blank line or a comment was read. Error: memory ran out.
    pub fn remark(&mut self) -> Result<(), AllocError>
        ensures lines { IfOk result (λ _. self.new.lines.items ≡ self.old.lines.items ++ (kinds.Remark ∷ [])) }
        ensures reply { self.new.reply ≡ self.old.reply }
    {
        Ok(self.lines.push(PlayedLine::Remark)?)
    }

    /// Another line was read, which has no reply yet. Error: memory ran out.
    pub fn begin(&mut self) -> Result<(), AllocError>
        ensures lines { IfOk result (λ _. self.new.lines.items ≡ self.old.lines.items ++ (kinds.Unanswered ∷ [])) }
        ensures reply { self.new.reply ≡ None }
    {
        self.reply = None;
        Ok(self.lines.push(PlayedLine::Unanswered)?)
    }

    /// The line that was begun has this reply, in place of any before.
    pub fn answer(&mut self, reply: ReplyForms)
        ensures lines { self.new.lines ≡ self.old.lines }
        ensures reply { self.new.reply ≡ Some reply }
    {
        self.reply = Some(reply);
    }

    /// The reply to the line before, if no line expects it yet.
    pub fn reply(&self) -> Option<&ReplyForms> {
        self.reply.as_ref()
    }

    /// A line was read that expects this reply of the line before. Error: memory ran out.
    pub fn expect(&mut self, wanted: Vec<u8>) -> Result<(), AllocError>
        ensures lines { IfOk result (λ _. self.new.lines.items ≡ self.old.lines.items ++ pending self.old.reply ++ (kinds.Expected wanted ∷ [])) }
        ensures reply { self.new.reply ≡ None }
    {
        if let Some(reply) = self.reply.take() {
            self.lines.push(PlayedLine::Answered(reply))?;
        }
        Ok(self.lines.push(PlayedLine::Expected(wanted))?)
    }

    /// The result of these lines, and how many expected replies come before the first that is not the reply.
    pub fn tested(&self) -> (Tested, usize)
        ensures { result.0 ≡ tested_of self.now.lines.items }
    {
        let comparison = compare(self.lines.as_slice());
        (comparison.tested(), comparison.compared)
    }
}
