//! Expected replies, and the replies that a session has.

ghost use Rattle.std.specs.Prelude.{◌≡◌, None, is_none};
ghost use Rattle.ui_expect.specs.Tests.{has_reply, are_met, expected_count, tested_by};
ghost use Rattle.ui_expect.specs.declared.comparing.PlayedLine.TheVariants.{Unanswered};

use ui_repl::ReplyForms;

/// A line of a session that was played.
#[derive(Drop)]
pub enum PlayedLine {
    /// A blank line, or a comment.
    Remark,
    /// A line without a reply, or whose reply no line expects.
    Unanswered,
    /// A line with this reply as its last one.
    Answered(ReplyForms),
    /// A line `> REPLY`, which gives this reply as the expected one.
    Expected(Vec<u8>),
}

/// The comparison of the expected replies of a session with the replies that it has.
#[derive(Clone, Copy, PartialEq, Eq)]
pub struct Comparison {
    /// The position, from 0, of the first line that expects another reply than the line before it has.
    pub wrong: Option<usize>,
    /// How many expected replies come before it.
    pub compared: usize,
}

/// The result of a session in which a line `> REPLY` gives the expected reply to the command line before it.
#[derive(Clone, Copy, PartialEq, Eq)]
pub enum Tested {
    /// Each reply was the expected one.
    Passed,
    /// A reply was not, an expected reply is at a wrong place, the program was refused, or the input was too long.
    Failed,
    /// No reply is expected.
    Unchecked,
}

impl Comparison {
    /// The result of a session whose lines were compared so.
    pub fn tested(&self) -> Tested
        ensures { result ≡ tested_by (is_none self.now.wrong) self.now.compared }
    {
        if self.wrong.is_some() {
            Tested::Failed
        } else if self.compared == 0 {
            Tested::Unchecked
        } else {
            Tested::Passed
        }
    }
}

// Whether the line before this expected reply has it, in one of its forms.
fn is_reply_to(before: &PlayedLine, wanted: &[u8]) -> bool
    ensures { result ≡ has_reply before.now wanted.now }
{
    match before {
        PlayedLine::Answered(reply) => reply.has(wanted),
        PlayedLine::Remark | PlayedLine::Unanswered | PlayedLine::Expected(_) => false,
    }
}

/// Compares the lines of a session. Each line that expects a reply has to come after a line that has it as its last reply, in one of its
/// forms, and only remarks may be between the two.
pub fn compare(lines: &[PlayedLine]) -> Comparison
    ensures met { is_none result.wrong ≡ are_met Unanswered lines.now }
    ensures compared { result.wrong ≡ None → result.compared ≡ expected_count lines.now }
{
    let first = PlayedLine::Unanswered;
    let mut before = &first;
    let mut compared = 0usize;
    for (place, line) in lines.iter().enumerate() {
        match line {
            PlayedLine::Remark => {}
            PlayedLine::Unanswered | PlayedLine::Answered(_) => before = line,
            PlayedLine::Expected(wanted) => {
                if !is_reply_to(before, wanted.as_slice()) {
                    let wrong = Some(place);
                    return Comparison { wrong, compared };
                }
                before = line;
                compared += 1;
            }
        }
    }
    Comparison {
        wrong: None,
        compared,
    }
}
