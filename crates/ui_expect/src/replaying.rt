//! A session is played again on an edited program, up to the first line that goes another way.

ghost use Rattle.shell_serve.specs.Spans.{EndsWith};

use crate::explanation::LastExplanation;
use crate::outcome::Outcome;
use crate::reports::{begin_refusal, begin_report, put_replies, tell_long_session};
use dbg_base::Call;
use dbg_command::SessionView;
use proc_tree::Program;
use shell_io::{Noted, Sink, Source};
use shell_print::{ServeFault, Served, tell_too_long};
use shell_serve::Input;
use std::alloc::{AllocError, Global};
use std::mem;
use ui_repl::{
    AnsweredLine, ExpandedLine, LineFault, OpenSession, Opening, PlayedSession, ProgramAlone,
    WrittenProgram, open, read_alone, refuse, write_notes, write_text,
};
use ui_session::{Room, Typed};
use ui_text::{Notes, Part, ProgramText};
use ui_view::{Echo, Explainer};

/// How a session went on an edited program.
#[derive(Clone, Copy, PartialEq, Eq)]
pub enum Replayed {
    /// As before.
    Same,
    /// Another way.
    Otherwise,
    /// It was not played: a program was refused, or an input was too long.
    Unplayed(Served),
}

/// The names of the files of a session and of an edited program.
#[derive(Clone, Copy)]
pub struct ReplayNames<'a> {
    pub session: &'a str,
    pub program: &'a str,
}

// Notes what is said to the lines of a session, and compares it with what was said before.
struct Replayer<'a> {
    alloc: Global,
    names: ReplayNames<'a>,
    text: &'a ProgramText,
    // The number of the present line in the session, and the explanation of its reply.
    number: usize,
    explanation: LastExplanation<'a>,
    outcomes: Vec<Outcome>,
    // What was said before, if the session was played before.
    before: Option<Vec<Outcome>>,
    // The report of the first line that goes another way.
    report: Option<Notes>,
}

impl Drop for Replayer<'_> {
    fn drop(self) {
        let Self {
            alloc,
            names,
            text,
            number,
            explanation,
            outcomes,
            before,
            report,
        } = self;
    }
}

// Begins a report about a line of a session of this name.
fn report_of<'x>(
    alloc: Global,
    session: &'x str,
    outcome: &'x Outcome,
    how: &'x str,
) -> Result<Notes, AllocError> {
    let mut notes = Notes::new(alloc);
    begin_report(&mut notes, session, outcome.number, outcome.line.as_slice())?;
    notes.say_with("  {}", &[Part::Text(how)])?;
    Ok(notes)
}

// Appends an outcome to a report.
fn put_outcome<'x>(
    notes: &mut Notes,
    when: &'x str,
    outcome: &'x Outcome,
) -> Result<(), AllocError> {
    let reply = outcome.reply.as_slice();
    notes.say_with("  {}{}", &[Part::Text(when), Part::Bytes(reply)])?;
    match &outcome.message {
        Some(message) => notes.add_with(", received {}", &[Part::Bytes(message.as_slice())]),
        None => Ok(()),
    }
}

impl<'a> Replayer<'a> {
    // Nothing was played yet, and so many lines were read.
    fn new(
        alloc: Global,
        names: ReplayNames<'a>,
        written: &'a WrittenProgram,
        number: usize,
        before: Option<Vec<Outcome>>,
    ) -> Replayer<'a> {
        Replayer {
            alloc,
            names,
            text: written.text(),
            number,
            explanation: LastExplanation::new(alloc, written),
            outcomes: Vec::new(alloc),
            before,
            report: None,
        }
    }

    // Reports that something else is said to a line now, with the explanation of that.
    fn tell_difference(
        &self,
        how: &str,
        before: &Outcome,
        now: &Outcome,
    ) -> Result<Notes, AllocError> {
        let mut notes = report_of(self.alloc, self.names.session, now, how)?;
        put_outcome(&mut notes, "before: ", before)?;
        put_outcome(&mut notes, "now:    ", now)?;
        self.explanation.put(&mut notes)?;
        Ok(notes)
    }

    // Reports that a line gives one command more than before.
    fn tell_another(&self, now: &Outcome) -> Result<Notes, AllocError> {
        let how = "it gives one more command now";
        self.tell_outcome(how, "now:    ", now)
    }

    // Reports that a line gives one command less than before.
    fn tell_missing(&self, before: &Outcome) -> Result<Notes, AllocError> {
        let how = "it gives one command less now";
        self.tell_outcome(how, "before: ", before)
    }

    // Reports what is said to a line that gives another number of commands, which was so before or is so now.
    fn tell_outcome(&self, how: &str, when: &str, outcome: &Outcome) -> Result<Notes, AllocError> {
        let mut notes = report_of(self.alloc, self.names.session, outcome, how)?;
        put_outcome(&mut notes, when, outcome)?;
        Ok(notes)
    }

    // The report, if this outcome is not the one of before.
    fn compare(&self, now: &Outcome) -> Result<Option<Notes>, AllocError> {
        let Some(outcomes) = &self.before else {
            return Ok(None);
        };
        match outcomes.get(self.outcomes.len()) {
            Some(before) if before.number == now.number => match now.difference(before) {
                Some(how) => Ok(Some(self.tell_difference(how, before, now)?)),
                None => Ok(None),
            },
            Some(before) if before.number < now.number => Ok(Some(self.tell_missing(before)?)),
            Some(_) | None => Ok(Some(self.tell_another(now)?)),
        }
    }

    // The report, and the result.
    fn result(&mut self) -> Result<(Notes, Replayed), ServeFault> {
        if let Some(report) = self.report.take() {
            return Ok((report, Replayed::Otherwise));
        }
        let count = self.outcomes.len();
        if let Some(missing) = self.before.as_ref().and_then(|before| before.get(count)) {
            return Ok((self.tell_missing(missing)?, Replayed::Otherwise));
        }
        let mut notes = Notes::new(self.alloc);
        let (session, program) = (self.names.session, self.names.program);
        notes.say_with(
            "{}: the same with {}, ",
            &[Part::Text(session), Part::Text(program)],
        )?;
        put_replies(&mut notes, count)?;
        Ok((notes, Replayed::Same))
    }
}

impl Explainer<Option<LineFault>> for Replayer<'_> {
    fn keeps_replies(&self) -> bool {
        true
    }

    fn hear(&mut self, line: &ExpandedLine<'_>) -> Result<Echo, AllocError> {
        if line.is_first {
            self.number = self.number.saturating_add(1);
        }
        self.explanation.forget();
        Ok(Echo::Nothing)
    }

    fn prepare(&mut self, view: SessionView<'_>, call: &Call, _notes: &mut Notes) {
        self.explanation.prepare(view, call);
    }

    fn explain(&mut self, line: &AnsweredLine<'_>, _notes: &mut Notes) -> Result<(), AllocError> {
        self.explanation.explain(line)?;
        let now = Outcome::new(self.alloc, self.text, self.number, line)?;
        if self.report.is_none() {
            self.report = self.compare(&now)?;
        }
        Ok(self.outcomes.push(now)?)
    }
}

// Plays a session that was opened, and then its lines on an edited program. Returns the report and the result.
fn replay_open<'a, R: Source + Typed>(
    alloc: Global,
    names: ReplayNames<'a>,
    written: &'a WrittenProgram,
    session: OpenSession,
    edited: &'a WrittenProgram,
    program: Program,
    reader: &mut R,
) -> Result<(Notes, Replayed), ServeFault>
    requires { EndsWith session.input.ended (R.remaining reader.old) }
{
    let (from, number) = (session.text().len(), session.lines());
    let first = Replayer::new(alloc, names, written, number, None);
    let PlayedSession {
        served,
        explainer,
        lines,
    } = session.play_unheard(alloc, written, None, first, reader)?;
    if served == Served::TooLong {
        let notes = tell_long_session(alloc, names.session)?;
        return Ok((notes, Replayed::Unplayed(served)));
    }
    let (mut first, lines) = (explainer, lines);
    let outcomes = mem::replace(&mut first.outcomes, Vec::new(alloc));
    let second = Replayer::new(alloc, names, edited, number, Some(outcomes));
    let rest = lines.input.bytes().get(from..).unwrap_or(&[]);
    let mut again = Noted::new(rest);
    let input = Input::new(alloc)?;
    let session = OpenSession { program, input };
    let mut played = session.play_unheard(alloc, edited, None, second, &mut again)?;
    played.explainer.result()
}

// Plays a session on an edited program.
fn replay_on<R: Source + Typed, W: Sink>(
    alloc: Global,
    names: ReplayNames<'_>,
    edited: &WrittenProgram,
    program: Program,
    reader: &mut R,
    writer: &mut W,
) -> Result<Replayed, ServeFault> {
    let mut refusal = Noted::new(Room::Text(Vec::new(alloc)));
    match open(alloc, reader, &mut refusal)? {
        Opening::Session(written, session) => {
            let (notes, replayed) = replay_open(
                alloc, names, &written, session, edited, program, reader,
            )?;
            write_notes(&notes, writer)?;
            Ok(replayed)
        }
        Opening::Refused(told) => {
            let served = told?;
            begin_refusal(names.session, writer)?;
            write_text(refusal.device().text(), writer)?;
            Ok(Replayed::Unplayed(served))
        }
    }
}

/// Plays a session, and then its lines on an edited program, by the names of processes and the labels of commands. Both may be in the model
/// notation. Writes that each reply is the same, or the first line that goes another way, and how: its reply before and now, and the
/// explanation of the reply now. The lines after the edited program are not read. A text that is refused is explained.
pub fn replay<R: Source + Typed, P: Source, W: Sink>(
    alloc: Global,
    names: ReplayNames<'_>,
    reader: &mut R,
    edited: &mut P,
    writer: &mut W,
) -> Result<Replayed, ServeFault> {
    let wrong = match read_alone(alloc, edited)? {
        ProgramAlone::Program(written, program) => {
            return replay_on(alloc, names, &written, program, reader, writer);
        }
        ProgramAlone::Wrong(wrong) => Some(wrong),
        ProgramAlone::TooLong => None,
    };
    begin_refusal(names.program, writer)?;
    let served = match wrong {
        Some(wrong) => refuse(alloc, wrong.text(), &wrong.fault, writer)?,
        None => tell_too_long(writer)?,
    };
    Ok(Replayed::Unplayed(served))
}
