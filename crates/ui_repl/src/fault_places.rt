//! What is wrong with texts in the model notation.

ghost use Rattle.std.specs.Prelude.{◌≡◌, IfOk};
ghost use Rattle.shell_io.specs.declared.health.Health.TheVariants.{Fine};
ghost use Rattle.shell_print.specs.Outcomes.{source_after};
ghost use Rattle.shell_print.specs.declared.outcome.Served.TheVariants.{Refused};
ghost use Rattle.shell_serve.specs.Sessions.{WritesForm};
ghost use Rattle.ui_repl.specs.Talks.{IsFaultText, Talks};

use crate::expanding::fault_notes;
use dbg_base::{FaultKind, ProgFault};
use notation::{Fault, Problem, likely};
use shell_io::{Sink, Style};
use shell_print::{ServeFault, Served, hand_on, set_style, tell_fault, tell_no_end_line};
use std::alloc::{AllocError, Global};
use ui_session::explain;
use ui_text::{
    DeclaredAs, Notes, Part, find_declaration, foreign_correction, prefix_word, tell_correction,
    tell_no_end_line as explain_no_end_line,
};

// The kind of a fault, as the process language counts them.
fn fault_kind(problem: Problem) -> FaultKind {
    match problem {
        Problem::Byte => FaultKind::Byte,
        Problem::LongWord | Problem::LargeNumber => FaultKind::Token,
        Problem::Expected(_)
        | Problem::ComparisonChain
        | Problem::FormName
        | Problem::CaseAfterElse
        | Problem::Arguments { .. } => FaultKind::Grammar,
        Problem::NameTaken(_) | Problem::LabelTaken => FaultKind::NameTaken,
        Problem::NotADefinition
        | Problem::NoType
        | Problem::NoField
        | Problem::FieldOfSeveral
        | Problem::NoLabel => FaultKind::NameUnknown,
        Problem::VariableComputed
        | Problem::CountComputed
        | Problem::NumberExpected
        | Problem::TruthExpected
        | Problem::OtherEnum
        | Problem::ReadsReceived => FaultKind::TypeWrong,
        Problem::Overflow
        | Problem::DivisionByZero
        | Problem::BelowZero
        | Problem::EmptyRange
        | Problem::ManyParameters
        | Problem::DeepNesting
        | Problem::DeepUnfolding
        | Problem::LongText
        | Problem::MuchWork
        | Problem::SessionWork
        | Problem::ManyCopies
        | Problem::Disagreement => FaultKind::Limit,
        Problem::Plain(kind) => kind,
    }
}

// What is wrong with a name of which the value would have to be known before the session, and what can be done, by what the name is declared as
// in the text.
fn computed_name(text: &[u8], name: &[u8], at: usize) -> Option<(&'static str, &'static str)> {
    match find_declaration(text, name) {
        None => Some((
            "nothing has this name",
            "a constant, a definition or a member of a range can be named here",
        )),
        Some(found) => match found.kind {
            DeclaredAs::Constant | DeclaredAs::Definition if found.at > at => Some((
                "nothing has this name yet",
                "it is declared further down: put the declaration before its first use",
            )),
            DeclaredAs::Definition => Some((
                "this is a definition",
                "a definition is used with its arguments in parentheses",
            )),
            DeclaredAs::Process => Some((
                "this is a process, and has no value",
                "a constant, a definition or a member of a range can be named here",
            )),
            DeclaredAs::Constant | DeclaredAs::Variable => None,
        },
    }
}

/// A fault, and the texts that explain it.
#[derive(Clone, Copy)]
pub(crate) struct FaultPlace<'a> {
    fault: &'a Fault,
    // The text that has the fault.
    text: &'a [u8],
    // The program, and how much of it counts as before the fault.
    program: &'a [u8],
    before: usize,
}

impl<'a> FaultPlace<'a> {
    /// A fault of a program.
    pub(crate) fn in_program(text: &'a [u8], fault: &'a Fault) -> FaultPlace<'a> {
        FaultPlace {
            fault,
            text,
            program: text,
            before: fault.at(),
        }
    }

    /// A fault of a line of a session, and the text of its program.
    pub(crate) fn in_line(line: &'a [u8], program: &'a [u8], fault: &'a Fault) -> FaultPlace<'a> {
        FaultPlace {
            fault,
            text: line,
            program,
            before: program.len(),
        }
    }

    // Puts what is wrong and what can be done in place of the last lines, where that depends on the text.
    fn correct(&self, notes: &mut Notes) -> Result<(), AllocError> {
        let (problem, at, count) = (self.fault.problem(), self.fault.at(), notes.count());
        let general = likely(problem);
        let kept = count.saturating_sub(usize::from(general.is_some()));
        match problem {
            Problem::VariableComputed => {
                let name = prefix_word(self.text.get(at..).unwrap_or(&[]));
                if let Some((wrong, correction)) = computed_name(self.program, name, self.before) {
                    notes.truncate(count.saturating_sub(2));
                    notes.say_with("{}: `{}`", &[Part::Text(wrong), Part::Bytes(name)])?;
                    return notes.say(correction);
                }
            }
            Problem::Byte | Problem::Expected(_) | Problem::Plain(FaultKind::Grammar) => {
                if let Some(correction) = foreign_correction(self.text, at) {
                    notes.truncate(kept);
                    return notes.say(correction);
                }
            }
            _ => {}
        }
        if problem != Problem::Byte && general.is_some() {
            return Ok(());
        }
        notes.truncate(kept);
        let kind = fault_kind(problem);
        tell_correction(notes, self.text, &ProgFault { kind, at })?;
        match general {
            Some(general) if notes.count() == kept => notes.say(general),
            _ => Ok(()),
        }
    }

    /// The line and the column, the text of the line with a mark under the place, what is wrong, and what was probably meant.
    pub(crate) fn explanation(&self, alloc: Global) -> Result<Notes, AllocError> {
        let mut notes = fault_notes(alloc, 0, self.text, self.fault)?;
        self.correct(&mut notes)?;
        Ok(notes)
    }
}

// Reports this fault of a program text, or that no line ends the text.
fn tell_refusal<W: Sink>(fault: Option<&ProgFault>, writer: &mut W) -> Result<Served, ServeFault>
    ensures written { WritesForm IsFaultText (W.seen writer.old) result (W.seen writer.new) }
    ensures served { IfOk result (λ served. served ≡ Refused) }
{
    match fault {
        Some(fault) => tell_fault(fault, writer),
        None => tell_no_end_line(writer),
    }
}

// The same, with an explanation.
fn write_refusal<W: Sink>(
    fault: Option<&ProgFault>,
    notes: &mut Notes,
    writer: &mut W,
) -> Result<Served, ServeFault>
    ensures talks { Talks (W.seen writer.old) result (W.seen writer.new) }
    ensures reader { source_after result ≡ Fine }
{
    set_style(Style::Refusal, writer)?;
    let served = tell_refusal(fault, writer)?;
    let explained = explain(notes, writer);
    hand_on(explained, writer)?;
    Ok(served)
}

/// Reports that no line of a text ends the program, and what can be done.
#[tactic(auto, using(crate::proofs::TalkLemmas::memory_talks))]
pub(crate) fn refuse_unended<W: Sink>(
    alloc: Global,
    text: &[u8],
    writer: &mut W,
) -> Result<Served, ServeFault>
    ensures talks { Talks (W.seen writer.old) result (W.seen writer.new) }
    ensures reader { source_after result ≡ Fine }
{
    let mut notes = Notes::new(alloc);
    if explain_no_end_line(&mut notes, text).is_err() {
        return Err(ServeFault::Memory);
    }
    write_refusal(None, &mut notes, writer)
}

/// Reports that a program text is refused, and explains why: the line and the column, the text of the line with a mark under the place,
/// what is wrong, and what was probably meant.
#[tactic(auto, using(crate::proofs::TalkLemmas::memory_talks))]
pub fn refuse<W: Sink>(
    alloc: Global,
    text: &[u8],
    fault: &Fault,
    writer: &mut W,
) -> Result<Served, ServeFault>
    ensures talks { Talks (W.seen writer.old) result (W.seen writer.new) }
    ensures reader { source_after result ≡ Fine }
{
    let Ok(mut notes) = FaultPlace::in_program(text, fault).explanation(alloc) else {
        return Err(ServeFault::Memory);
    };
    let kind = fault_kind(fault.problem());
    let at = fault.at();
    write_refusal(Some(&ProgFault { kind, at }), &mut notes, writer)
}
