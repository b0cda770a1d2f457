//! Sessions with expectations.

ghost use Rattle.std.specs.Prelude.{◌≡◌, ℕ, ◌++◌, ◌∷◌, [], Some, None, IfOk};
ghost use Rattle.std.specs.declared.alloc.Global.{Global};
ghost use Rattle.std.specs.declared.vec.Vec.{Vec};
ghost use Rattle.shell_serve.specs.Spans.{EndsWith};
ghost use Rattle.ui_repl.specs.Expected.{IsComparable};
ghost use Rattle.ui_repl.specs.declared.reply_forms.ReplyForms.{ReplyForms};
ghost use Rattle.ui_expect.specs.Tests.{pending, tested_of, Reads};
ghost use Rattle.ui_expect.specs.declared.comparing.PlayedLine.TheVariants as kinds;

use crate::comparing::Tested;
use crate::explanation::LastExplanation;
use crate::reports::{begin_refusal, begin_report, put_replies, tell_long_session};
use crate::tested_lines::TestedLines;
use dbg_base::Call;
use dbg_command::SessionView;
use shell_io::{Noted, Sink, Source};
use shell_print::{ServeFault, Served};
use std::alloc::{AllocError, Global};
use ui_repl::{
    AnsweredLine, ExpandedLine, LineFault, LineWords, OpenSession, Opening, PlayedSession,
    WrittenProgram, open, wanted, write_notes, write_text,
};
use ui_session::{Room, Typed};
use ui_text::{Notes, Part};
use ui_view::{Echo, Explainer, ReplyLines};

// The last line that is no remark: its number in the input, its text, and its last reply as it is shown.
#[derive(Drop)]
struct AskedLine {
    number: usize,
    text: Vec<u8>,
    shown: Vec<u8>,
}

// Compares the replies of a session with the expected ones, line by line.
struct Tester<'a> {
    explanation: LastExplanation<'a>,
    alloc: Global,
    name: &'a str,
    written: &'a WrittenProgram,
    // The number of the present line in the input.
    number: usize,
    asked: AskedLine,
    lines: TestedLines,
    // The report of the first expected reply that was not the reply.
    report: Option<Notes>,
}

impl Drop for Tester<'_> {
    fn drop(self) {
        let Self {
            explanation,
            alloc,
            name,
            written,
            number,
            asked,
            lines,
            report,
        } = self;
    }
}

impl<'a> Tester<'a> {
    // Nothing was compared yet, and so many lines were read.
    fn new(alloc: Global, name: &'a str, written: &'a WrittenProgram, number: usize) -> Tester<'a> {
        Tester {
            explanation: LastExplanation::new(alloc, written),
            alloc,
            name,
            written,
            number,
            asked: AskedLine {
                number,
                text: Vec::new(alloc),
                shown: Vec::new(alloc),
            },
            lines: TestedLines::new(alloc),
            report: None,
        }
    }

    // Reports that the reply to the line before is not the expected one.
    fn tell_difference(&self, wanted: &[u8]) -> Result<Notes, AllocError> {
        let mut notes = Notes::new(self.alloc);
        let (number, line) = (self.asked.number, self.asked.text.as_slice());
        begin_report(&mut notes, self.name, number, line)?;
        notes.say_with("  expected: {}", &[Part::Bytes(wanted)])?;
        notes.say_with(
            "  reply:    {}",
            &[Part::Bytes(self.asked.shown.as_slice())],
        )?;
        self.explanation.put(&mut notes)?;
        Ok(notes)
    }

    // Reports that no reply is before this line, which expects one.
    fn tell_misplaced(&self, line: &[u8]) -> Result<Notes, AllocError> {
        let mut notes = Notes::new(self.alloc);
        begin_report(&mut notes, self.name, self.number, line)?;
        notes.say("  an expected reply follows the command line that it is for, once")?;
        Ok(notes)
    }

    // What is wrong with a line that expects this reply, if it is not the reply to the line before.
    fn difference(
        &self,
        line: &[u8],
        wanted: &[u8],
        expected: &[u8],
    ) -> Result<Option<Notes>, AllocError> {
        match self.lines.reply() {
            Some(forms) if forms.has(expected) => Ok(None),
            Some(_) => Ok(Some(self.tell_difference(wanted)?)),
            None => Ok(Some(self.tell_misplaced(line)?)),
        }
    }

    // Keeps what is wrong with such a line, if nothing was wrong before.
    fn keep_difference(
        &mut self,
        line: &[u8],
        wanted: &[u8],
        expected: &[u8],
    ) -> Result<(), AllocError>
        ensures { self.new.lines ≡ self.old.lines }
    {
        if self.report.is_none() {
            self.report = self.difference(line, wanted, expected)?;
        }
        Ok(())
    }

    // The line expects this reply.
    fn expect(&mut self, line: &[u8], wanted: &[u8]) -> Result<(), AllocError>
        ensures { IfOk result (λ _. (made : Vec ℕ Global) × IsComparable wanted.now made.items
            × (self.new.lines.lines.items ≡ self.old.lines.lines.items ++ pending self.old.lines.reply ++ (kinds.Expected made ∷ []))
            × (self.new.lines.reply ≡ None)) }
    {
        let expected = self.written.comparable(self.alloc, wanted)?;
        self.keep_difference(line, wanted, expected.as_slice())?;
        self.lines.expect(expected)?;
        Ok(())
    }

    // Another line begins, or one that is not played.
    fn ask(&mut self, line: &[u8]) -> Result<(), AllocError>
        ensures { IfOk result (λ _. (self.new.lines.lines.items ≡ self.old.lines.lines.items ++ (kinds.Unanswered ∷ []))
            × (self.new.lines.reply ≡ None)) }
    {
        self.asked.number = self.number;
        self.asked.text = Vec::from_slice(self.alloc, line)?;
        self.explanation.forget();
        self.lines.begin()
    }

    // A line was read.
    fn begin(&mut self, line: &[u8]) -> Result<(), AllocError>
        ensures { IfOk result (λ _. Reads line.now self.old.lines.lines.items self.old.lines.reply self.new.lines.lines.items
            self.new.lines.reply) }
    {
        self.number = self.number.saturating_add(1);
        match wanted(line) {
            Some(wanted) => self.expect(line, wanted),
            None if LineWords::of(line).are_remark() => self.lines.remark(),
            None => self.ask(line),
        }
    }

    // The line was answered so.
    fn answer(&mut self, replies: ReplyLines<'_>) -> Result<(), AllocError>
        ensures lines { self.new.lines.lines ≡ self.old.lines.lines }
        ensures reply { IfOk result (λ _. (forms : ReplyForms) × IsComparable replies.entry.shown.now forms.shown.items
            × (forms.plain.items ≡ replies.entry.plain.now) × (self.new.lines.reply ≡ Some forms)) }
    {
        self.asked.shown = Vec::from_slice(self.alloc, replies.shown)?;
        let forms = self.written.forms_of(self.alloc, replies)?;
        self.lines.answer(forms);
        Ok(())
    }

    // The report, and the result.
    fn result(&mut self) -> Result<(Notes, Tested), ServeFault>
        ensures { IfOk result (λ told. told.1 ≡ tested_of self.old.lines.lines.items) }
    {
        let (tested, compared) = self.lines.tested();
        let mut notes = Notes::new(self.alloc);
        match tested {
            Tested::Failed => {
                if let Some(report) = self.report.take() {
                    notes = report;
                }
            }
            Tested::Unchecked => {
                notes.say_with("{}: ", &[Part::Text(self.name)])?;
                notes.add("no line `> REPLY` gives an expected reply")?;
            }
            Tested::Passed => {
                notes.say_with("{}: ", &[Part::Text(self.name)])?;
                notes.add("ok, ")?;
                put_replies(&mut notes, compared)?;
            }
        }
        Ok((notes, tested))
    }
}

impl Explainer<Option<LineFault>> for Tester<'_> {
    fn keeps_replies(&self) -> bool {
        true
    }

    fn hear(&mut self, line: &ExpandedLine<'_>) -> Result<Echo, AllocError> {
        if line.is_first {
            self.begin(line.written)?;
        } else {
            self.explanation.forget();
        }
        Ok(Echo::Nothing)
    }

    fn prepare(&mut self, view: SessionView<'_>, call: &Call, _notes: &mut Notes) {
        self.explanation.prepare(view, call);
    }

    fn explain(&mut self, line: &AnsweredLine<'_>, _notes: &mut Notes) -> Result<(), AllocError> {
        self.answer(line.replies)?;
        self.explanation.explain(line)
    }
}

// Plays a session that was opened, and returns the report and the result.
fn test_open<'a, R: Source + Typed>(
    alloc: Global,
    name: &'a str,
    written: &'a WrittenProgram,
    session: OpenSession,
    reader: &mut R,
) -> Result<(Notes, Tested), ServeFault>
    requires { EndsWith session.input.ended (R.remaining reader.old) }
{
    let tester = Tester::new(alloc, name, written, session.lines());
    let PlayedSession {
        served,
        explainer,
        lines,
    } = session.play_unheard(alloc, written, None, tester, reader)?;
    let (mut tester, mut lines) = (explainer, lines);
    while let Some(span) = lines.unplayed(reader)? {
        tester.begin(lines.input.line(span))?;
    }
    if served == Served::TooLong {
        return Ok((tell_long_session(alloc, name)?, Tested::Failed));
    }
    tester.result()
}

/// Plays the session of this name, which may be in the model notation. Writes a report: how many replies were compared, or the first that
/// was not the expected one, with its explanation. A line `> REPLY` gives the expected reply to the command line before it, in a model with
/// the names and labels of its author or as a run writes it; between the two there are only comments and blank lines. A program that is
/// refused, and input that is too long, are reported as an interactive session reports them.
pub fn test_session<R: Source + Typed, W: Sink>(
    alloc: Global,
    name: &str,
    reader: &mut R,
    writer: &mut W,
) -> Result<Tested, ServeFault> {
    let mut refusal = Noted::new(Room::Text(Vec::new(alloc)));
    match open(alloc, reader, &mut refusal)? {
        Opening::Session(written, session) => {
            let (notes, tested) = test_open(alloc, name, &written, session, reader)?;
            write_notes(&notes, writer)?;
            Ok(tested)
        }
        Opening::Refused(told) => {
            let _refused = told?;
            begin_refusal(name, writer)?;
            write_text(refusal.device().text(), writer)?;
            Ok(Tested::Failed)
        }
    }
}
