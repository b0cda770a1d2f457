//! Programs as their authors write them.

ghost use Rattle.std.specs.Prelude.{◌≡◌, IfOk, IfErr, is_some};
ghost use Rattle.ui_repl.specs.Talks.{IsExpansion, IsText};
ghost use Rattle.shell_print.specs.declared.outcome.ServeFault.TheVariants.{Memory};

use crate::fault_places::FaultPlace;
use crate::read_line::LineFault;
use crate::value_types::{add_channel_types, add_types};
use crate::words::without_seat;
use dbg_base::{Choice, Name, Pid};
use notation::{ExpandedProgram, Expansion, Fault, NotationError, Problem, expand_program};
use proc_lang::{ProgError, parse_program};
use proc_tree::Program;
use shell_parse::next_word;
use shell_print::ServeFault;
use std::alloc::{AllocError, Global};
use ui_session::NamedReplies;
use ui_text::{DeclaredAs, Notes, Part, ProgramText, command_offsets, find_declaration};

/// The text of a program as its author wrote it, and its expansion if it is in the notation.
#[derive(Drop)]
pub struct WrittenProgram {
    text: ProgramText,
    expanded: Option<ExpandedProgram>,
}

/// What a text is.
#[derive(Drop)]
pub enum ReadText {
    /// A program, in the process language or in the notation.
    Program(WrittenProgram, Program),
    /// Neither.
    Wrong(Fault),
}

// The bytes of a name, if there is one.
fn name_bytes(name: &Option<Name>) -> &[u8] {
    match name {
        Some(name) => name.bytes(),
        None => &[],
    }
}

// A text of this program, with the names of processes and variables, and the place and the label of each command.
fn text_of(
    alloc: Global,
    text: &[u8],
    expansion: Option<&Expansion>,
    program: &Program,
) -> Result<ProgramText, AllocError> {
    let mut written = ProgramText::new(alloc, text, expansion.is_some())?;
    if let Some(expansion) = expansion {
        add_types(&mut written, expansion)?;
    }
    let offsets = command_offsets(alloc, text)?;
    let mut plain = offsets.iter().copied();
    for p in 0..program.processes() {
        let pid = Pid(p);
        let plain_name = program.process_name(pid);
        let name = match expansion {
            Some(expansion) => expansion.process_name(alloc, pid)?,
            None => None,
        };
        let name = name
            .as_ref()
            .map_or(name_bytes(&plain_name), |name| name.as_slice());
        written.add_process(alloc, name_bytes(&plain_name), name)?;
        for variable in 0..program.variables(pid) {
            let plain_name = program.variable_name(pid, variable);
            let name = expansion.and_then(|expansion| expansion.variable_name(pid, variable));
            let kind = expansion.and_then(|expansion| expansion.variable_type(pid, variable));
            written.add_variable(alloc, name.unwrap_or(name_bytes(&plain_name)), kind)?;
        }
        for number in 0..program.commands(pid) {
            let plain_at = plain.next().unwrap_or(0);
            let found = expansion.and_then(|expansion| expansion.command(pid, Choice(number)));
            let (at, label) = found.unwrap_or((plain_at, &[]));
            written.add_command(alloc, at, label)?;
        }
    }
    if let Some(expansion) = expansion {
        add_channel_types(&mut written, expansion, program.processes())?;
    }
    Ok(written)
}

// Reads the plain text of a model, once more: a session plays a program of its own.
fn read_model(alloc: Global, text: &[u8], expanded: ExpandedProgram) -> Result<ReadText, ServeFault>
    requires { IsExpansion expanded }
    ensures text { IfOk result IsText }
    ensures fault { IfErr result (λ fault. fault ≡ Memory) }
{
    match parse_program(alloc, expanded.expansion.plain()) {
        Ok(program) => {
            let written = WrittenProgram {
                text: text_of(alloc, text, Some(&expanded.expansion), &program)?,
                expanded: Some(expanded),
            };
            Ok(ReadText::Program(written, program))
        }
        Err(ProgError::Memory) => Err(ServeFault::Memory),
        Err(ProgError::Bad(found)) => {
            let fault = expanded.expansion.fault(alloc, &found)?;
            Ok(ReadText::Wrong(fault))
        }
    }
}

/// Reads a program text. A program of the process language is never expanded.
pub fn read_text(alloc: Global, text: &[u8]) -> Result<ReadText, ServeFault>
    ensures text { IfOk result IsText }
    ensures fault { IfErr result (λ fault. fault ≡ Memory) }
{
    match parse_program(alloc, text) {
        Ok(program) => {
            let written = WrittenProgram {
                text: text_of(alloc, text, None, &program)?,
                expanded: None,
            };
            return Ok(ReadText::Program(written, program));
        }
        Err(ProgError::Memory) => return Err(ServeFault::Memory),
        Err(ProgError::Bad(_)) => {}
    }
    match expand_program(alloc, text) {
        Ok(expanded) => read_model(alloc, text, expanded),
        Err(NotationError::Bad(fault)) => Ok(ReadText::Wrong(fault)),
        Err(NotationError::Memory) => Err(ServeFault::Memory),
    }
}

// What to write in place of this line, if its `for` has a form or a place that many try.
fn usual_for(line: &[u8]) -> Option<&'static str> {
    let (command, rest) = next_word(without_seat(line));
    let mut words = rest.split(|byte| byte.is_ascii_whitespace());
    if command == b"for".as_slice() && words.nth(2) == Some(b"in".as_slice()) {
        Some("a colon is between the name and its range: `for i: 1..2 : next p[i]`")
    } else if command == b"batch".as_slice() && words.any(|word| word == b"for".as_slice()) {
        Some("a `for` comes before a whole command, and not in a batch: `for i: 1..2 : next p[i]`")
    } else {
        None
    }
}

impl WrittenProgram {
    /// The expansion, and its program, if the program is in the notation.
    pub(crate) fn expanded(&self) -> Option<&ExpandedProgram> {
        self.expanded.as_ref()
    }

    /// The expansion, if the program is in the notation.
    pub(crate) fn expansion(&self) -> Option<&Expansion> {
        match &self.expanded {
            Some(expanded) => Some(&expanded.expansion),
            None => None,
        }
    }

    /// How the replies of a session of this program are shown.
    pub fn replies(&self) -> NamedReplies<'_>
        ensures { is_some result.text ≡ is_some self.now.expanded }
    {
        match &self.expanded {
            Some(_) => NamedReplies::of(Some(&self.text)),
            None => NamedReplies::of(None),
        }
    }

    /// The text, with the places of the commands.
    pub fn text(&self) -> &ProgramText {
        &self.text
    }

    /// Says that a word of a line is the name of a family of processes, if one is. Returns whether one is.
    pub(crate) fn tell_family(&self, notes: &mut Notes, line: &[u8]) -> Result<bool, AllocError> {
        for word in line.split(|byte| byte.is_ascii_whitespace()) {
            let found = find_declaration(self.text.text(), word);
            let is_family = found.is_some_and(|found| {
                found.is_family && found.kind == DeclaredAs::Process
            });
            if is_family {
                notes.say_with(
                    "`{}` is a family of processes: an index in brackets chooses one, as in `{}[1]`",
                    &[Part::Bytes(word), Part::Bytes(word)],
                )?;
                return Ok(true);
            }
        }
        Ok(false)
    }

    /// Says why a line of a session cannot be expanded: the line with a mark under the place, what is wrong, and what was probably meant.
    pub(crate) fn tell_line_fault(
        &self,
        notes: &mut Notes,
        program: &Program,
        line: &[u8],
        fault: &LineFault,
    ) -> Result<(), AllocError> {
        let place = FaultPlace::in_line(line, self.text.text(), &fault.fault);
        // The number of the line in its text says nothing here.
        let explanation = place.explanation(notes.alloc())?;
        for number in 1..explanation.count() {
            notes.say_with("{}", &[Part::Bytes(explanation.line(number).bytes)])?;
        }
        if let Some(words) = usual_for(line) {
            notes.say(words)?;
        }
        if fault.fault.problem() != Problem::NoLabel {
            return Ok(());
        }
        match fault.process.and_then(|name| program.find_process(name)) {
            Some(pid) => self.tell_labels(notes, program, pid),
            None => Ok(()),
        }
    }

    /// Says which labels the commands of a process have, if any has one.
    pub(crate) fn tell_labels(
        &self,
        notes: &mut Notes,
        program: &Program,
        pid: Pid,
    ) -> Result<(), AllocError> {
        let mut is_begun = false;
        for number in 0..program.commands(pid) {
            let label = self.text.label(pid, Choice(number));
            if label.is_empty() {
                continue;
            }
            if is_begun {
                notes.add(", ")?;
            } else {
                let name = Part::Bytes(self.text.process_name(pid));
                notes.say_with("the labels of {} are ", &[name])?;
            }
            notes.add_with("{}", &[Part::Bytes(label)])?;
            is_begun = true;
        }
        Ok(())
    }
}
