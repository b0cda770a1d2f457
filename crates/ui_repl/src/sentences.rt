//! The explanations of an interactive session.

use crate::read_line::{AnsweredLine, ExpandedLine, LineFault};
use crate::words::{is_for, without_seat};
use crate::written_program::WrittenProgram;
use dbg_base::{Call, Name, Pid, Refusal, Said};
use dbg_command::SessionView;
use shell_parse::next_word;
use std::alloc::{AllocError, Global};
use ui_causes::CausalSession;
use ui_diagram::{ALL_EVENTS, WIDTH, draw_text};
use ui_explain::{Before, ExplainedSession};
use ui_refusals::RefusingSession;
use ui_text::{Notes, Part, tell_help, tell_to_file, tell_too_long};
use ui_timeline::Selection;
use ui_view::{CountedCommand, CountedCommands, Directive, Echo, Explainer, SourceView, Told};

/// The most bytes of explanations of a session. A line that is line without a call counts more, by the work that its answer takes.
pub const EXPLAINED_BYTES: usize = 268_435_456;

// How many bytes of explanations take as long as a picture takes for each event of its session.
const EVENT_WEIGHT: usize = 16;

/// Explains in words what happened, or what prevents it. If memory runs out, the explanations end.
#[derive(Drop)]
pub struct Sentences<'a> {
    program: &'a WrittenProgram,
    // What was known before the call that is made, and whether that is all. If memory ran out it is not, and nothing is explained.
    before: Before,
    is_prepared: bool,
    last_kind: LineKind,
    // How many characters wide a line is, if that is known.
    width: Option<usize>,
    // How many bytes of explanations are left.
    left: usize,
}

// The kinds of lines, for the blank lines between them.
#[derive(Clone, Copy, PartialEq, Eq)]
enum LineKind {
    // No line was there yet that is not blank.
    None,
    Blank,
    Comment,
    Expectation,
    Command,
}

impl LineKind {
    fn of(line: &[u8]) -> LineKind {
        match line.trim_ascii_start().first() {
            None => LineKind::Blank,
            Some(b'#') => LineKind::Comment,
            Some(b'>') => LineKind::Expectation,
            Some(_) => LineKind::Command,
        }
    }
}

// How a typed line, or a plain line of one, is written.
fn echo_of_typed(line: &ExpandedLine<'_>) -> Echo {
    let is_alone = !is_for(line.written) || is_for(line.played.unwrap_or(line.written));
    match (is_alone, line.is_first) {
        (true, _) => Echo::Nothing,
        (false, true) => Echo::Line,
        (false, false) => Echo::Separated,
    }
}

// How many events a session has.
fn events_of(view: SessionView<'_>) -> usize {
    let add = |sum: usize, p: u32| sum.saturating_add(view.world.place(Pid(p)) as usize);
    (0..view.program.processes()).fold(0, add)
}

// A session of this program, with its text.
fn view_of<'b>(
    program: &'b WrittenProgram,
    session: SessionView<'b>,
    width: Option<usize>,
) -> SourceView<'b> {
    let view = SourceView::new(session, program.text());
    match width {
        Some(width) => SourceView { width, ..view },
        None => view,
    }
}

impl<'a> Sentences<'a> {
    /// Explanations of a session of this program, in lines of so many characters. If that is not known, words wrap at 80 columns, and pictures
    /// are wider.
    pub fn new(alloc: Global, program: &'a WrittenProgram, width: Option<usize>) -> Sentences<'a> {
        Sentences {
            program,
            before: Before::new(alloc),
            is_prepared: false,
            last_kind: LineKind::None,
            width,
            left: EXPLAINED_BYTES,
        }
    }

    // After a wrong line `step P ..` of a model, the labels of the process, or the processes if it is none.
    fn tell_labels(
        &self,
        notes: &mut Notes,
        view: SessionView<'_>,
        line: &[u8],
    ) -> Result<(), AllocError> {
        let (command, arguments) = next_word(without_seat(line));
        let word = next_word(arguments).0;
        if self.program.expansion().is_none() || command != b"step".as_slice() || word.is_empty() {
            return Ok(());
        }
        match Name::new(word).and_then(|name| view.program.find_process(name)) {
            Some(pid) => self.program.tell_labels(notes, view.program, pid),
            None => view_of(self.program, view, self.width).tell_processes(notes, word),
        }
    }

    fn tell_line(
        &self,
        notes: &mut Notes,
        view: SessionView<'_>,
        given: &ExpandedLine<'_>,
        refusal: &Refusal,
    ) -> Result<(), Refusal> {
        let line = given.played.unwrap_or(given.written);
        if let Some(fault) = given.note {
            return Ok(
                self.program
                    .tell_line_fault(notes, view.program, line, fault)?,
            );
        }
        let arguments = next_word(without_seat(line)).1;
        if *refusal == Refusal::UnknownProcess && self.program.tell_family(notes, arguments)? {
            return Ok(());
        }
        let refusing = RefusingSession {
            view: view_of(self.program, view, self.width),
        };
        refusing.tell_bad_line(notes, line, refusal)?;
        if *refusal == Refusal::BadLine {
            self.tell_labels(notes, view, line)?;
        }
        Ok(())
    }

    fn tell_said(
        &self,
        notes: &mut Notes,
        view: SessionView<'_>,
        call: &Call,
        said: &Said,
        taken_back: Option<CountedCommand<'_>>,
    ) -> Result<(), Refusal> {
        if let Some(command) = taken_back {
            notes.say_with(
                "taken back: `{}`",
                &[Part::Bytes(command.line.trim_ascii())],
            )?;
        }
        if !self.is_prepared {
            return Ok(());
        }
        let view = view_of(self.program, view, self.width);
        let explained = ExplainedSession { view };
        match said {
            Said::Accepted(reply) => {
                explained.tell_reply(notes, &self.before, call, said, reply)
            }
            Said::Refused(refusal) => {
                RefusingSession { view }.tell_refusal(notes, call, refusal)
            }
            Said::Answered(_) => explained.tell_answer(notes, call),
        }
    }

    // Takes so many bytes and these explanations off what is left.
    fn spend(&mut self, notes: &Notes, more: usize) {
        let length = notes.length().saturating_add(more);
        self.left = self.left.saturating_sub(length);
    }

    // Says that nothing is left, in place of an explanation.
    fn tell_end(notes: &mut Notes) {
        let words = "no explanation: a session has at most {} bytes of them";
        let _ended = notes.say_with(words, &[Part::Count(EXPLAINED_BYTES)]);
    }

    // Draws the whole session.
    fn draw(&self, notes: &mut Notes, view: SourceView<'_>) -> Result<(), Refusal> {
        let selection = Selection::of(notes.alloc(), view, None, ALL_EVENTS as usize)?;
        let width = self.width.unwrap_or(WIDTH as usize);
        draw_text(notes.alloc(), notes, view, &selection, width)
    }

    fn tell_directive(
        &self,
        notes: &mut Notes,
        view: SessionView<'_>,
        commands: &CountedCommands,
        directive: Directive<'_>,
    ) -> Result<(), Refusal> {
        if self.program.tell_family(notes, directive.process())? {
            return Ok(());
        }
        let view = view_of(self.program, view, self.width);
        let explained = ExplainedSession { view };
        match directive {
            Directive::Remark | Directive::Quit => Ok(()),
            Directive::Help(word) => Ok(tell_help(notes, word)?),
            Directive::On(name) => explained.tell_on(notes, name),
            Directive::List(name) => explained.tell_list(notes, name),
            Directive::State(name) => explained.tell_state(notes, name),
            Directive::Line(name) => Ok(explained.tell_line(notes, name)?),
            Directive::How(name, number) => CausalSession { view }.tell_how(notes, name, number),
            Directive::From(name, variable) => {
                CausalSession { view }.tell_from(notes, name, variable)
            }
            Directive::Draw => self.draw(notes, view),
            Directive::Session => Ok(commands.tell_lines(notes)?),
            Directive::TooLong(word) => Ok(tell_too_long(notes, word)?),
            Directive::ToFile(word) => Ok(tell_to_file(notes, word)?),
        }
    }
}

impl Explainer<Option<LineFault>> for Sentences<'_> {
    // The terminal already shows what was typed, but not the plain lines of a `for`. Of other lines, those that belong together are together:
    // comments, a command, and the reply that is expected to it.
    fn hear(&mut self, line: &ExpandedLine<'_>) -> Result<Echo, AllocError> {
        let before = self.last_kind;
        let kind = LineKind::of(line.played.unwrap_or(line.written));
        if before != LineKind::None || kind != LineKind::Blank {
            self.last_kind = kind;
        }
        if line.is_typed {
            return Ok(echo_of_typed(line));
        }
        Ok(match (before, kind) {
            (_, LineKind::Blank) => Echo::Nothing,
            (LineKind::None | LineKind::Comment, _) | (_, LineKind::Expectation) => Echo::Line,
            (LineKind::Blank | LineKind::Command | LineKind::Expectation, _) => Echo::Separated,
        })
    }

    fn prepare(&mut self, session: SessionView<'_>, call: &Call, notes: &mut Notes) {
        let view = view_of(self.program, session, self.width);
        let explained = ExplainedSession { view };
        self.is_prepared = self.left > 0
            && explained.note_before(notes, &mut self.before, call).is_ok();
    }

    fn explain(&mut self, line: &AnsweredLine<'_>, notes: &mut Notes) -> Result<(), AllocError> {
        let is_accepted = matches!(line.told, Told::Said(_, Said::Accepted(_), _));
        self.before.settle(notes, self.is_prepared && is_accepted);
        match line.told {
            Told::Said(_, _, _) if self.left == 0 => {}
            Told::Said(call, said, taken_back) => {
                let _ended = self.tell_said(notes, line.view, call, said, taken_back);
                self.spend(notes, 0);
            }
            Told::Refused(_) if self.left == 0 => Sentences::tell_end(notes),
            Told::Refused(refusal) => {
                let _ended = self.tell_line(notes, line.view, line.given, refusal);
                self.spend(notes, self.program.text().text().len());
            }
        }
        Ok(())
    }

    fn answer_directive(
        &mut self,
        view: SessionView<'_>,
        commands: &CountedCommands,
        directive: Directive<'_>,
        notes: &mut Notes,
    ) {
        if let Directive::Remark | Directive::Quit = directive {
            return;
        }
        if self.left == 0 {
            return Sentences::tell_end(notes);
        }
        let _ended = self.tell_directive(notes, view, commands, directive);
        let more = match directive {
            Directive::Draw => events_of(view).saturating_mul(EVENT_WEIGHT),
            _ => self.program.text().text().len(),
        };
        self.spend(notes, more);
    }
}
