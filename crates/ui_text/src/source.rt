//! A program as it was written: its text, its names, and the places of its commands.

use crate::part::ShownValue;
use crate::value_types::ValueTypes;
use dbg_base::{Choice, Pid};
use itoa::Buffer;
use std::alloc::{AllocError, Global};

// The offset at which a command begins, and its label. A command without a label has an empty one.
#[derive(Drop)]
struct CommandPlace {
    at: usize,
    label: Vec<u8>,
    // A colon, the number of its line, and its label or number.
    shown: Vec<u8>,
}

// The name of a variable as it was written, and the number of its type, if its values are shown as those of a type.
#[derive(Drop)]
struct VariableWords {
    name: Vec<u8>,
    kind: Option<usize>,
}

// The names of a process, in the plain program and as it was written, its variables and its commands, in order, and the types of the
// messages that it sends to each process.
#[derive(Drop)]
struct ProcessWords {
    plain: Vec<u8>,
    name: Vec<u8>,
    variables: Vec<VariableWords>,
    commands: Vec<CommandPlace>,
    messages: Vec<Option<usize>>,
}

// The longest text of a command that is shown, in bytes.
const SHOWN: usize = 160;

/// A program's text, as it was written, with the names of its processes and variables, and the place of each command.
#[derive(Drop)]
pub struct ProgramText {
    text: Vec<u8>,
    is_model: bool,
    // The offset at which each line begins.
    starts: Vec<usize>,
    types: ValueTypes,
    processes: Vec<ProcessWords>,
    longest_name: usize,
}

/// The offsets of the commands in the text of a program of the process language, in order: each has one word `when`.
pub fn command_offsets(alloc: Global, text: &[u8]) -> Result<Vec<usize>, AllocError> {
    let mut offsets = Vec::new(alloc);
    let mut at = 0usize;
    for word in text.split(|byte| !is_word_byte(*byte)) {
        if word == b"when".as_slice() {
            offsets.push(at)?;
        }
        at = at.saturating_add(word.len()).saturating_add(1);
    }
    Ok(offsets)
}

/// Whether a word may have this byte.
pub fn is_word_byte(byte: u8) -> bool {
    byte.is_ascii_lowercase() || byte.is_ascii_digit() || byte == b'_'
}

/// The word at the start.
pub fn prefix_word(bytes: &[u8]) -> &[u8] {
    let mut words = bytes.split(|byte| !is_word_byte(*byte));
    words.next().unwrap_or(bytes)
}

/// The word at the end.
pub(crate) fn suffix_word(bytes: &[u8]) -> &[u8] {
    let length = bytes
        .iter()
        .rev()
        .take_while(|byte| is_word_byte(**byte))
        .count();
    bytes
        .get(bytes.len().saturating_sub(length)..)
        .unwrap_or(bytes)
}

// The place of the command of this number, from 0, in a few words.
fn shown_place(
    alloc: Global,
    line: usize,
    label: &[u8],
    number: usize,
) -> Result<Vec<u8>, AllocError> {
    let mut buffer = Buffer::new();
    let mut shown = Vec::from_slice(alloc, b":")?;
    shown.extend_from_slice(buffer.format(line).as_bytes())?;
    shown.push(b' ')?;
    if label.is_empty() {
        shown.extend_from_slice(b"command ")?;
        shown.extend_from_slice(buffer.format(number).as_bytes())?;
    } else {
        shown.extend_from_slice(label)?;
    }
    Ok(shown)
}

// The text up to a `;`, in one line.
fn one_line(alloc: Global, text: &[u8]) -> Result<Vec<u8>, AllocError> {
    let mut line = Vec::new(alloc);
    let mut is_comment = false;
    let mut is_blank = false;
    for byte in text {
        is_comment = (is_comment || *byte == b'#') && *byte != b'\n';
        if is_comment || byte.is_ascii_whitespace() {
            is_blank = true;
            continue;
        }
        if line.len() >= SHOWN {
            line.extend_from_slice(b" ..")?;
            break;
        }
        if is_blank && !line.is_empty() {
            line.push(b' ')?;
        }
        is_blank = false;
        line.push(*byte)?;
        if *byte == b';' {
            break;
        }
    }
    Ok(line)
}

impl ProgramText {
    /// A text, which may be in the model notation, and whose processes, variables and commands are added in the order of the program. Error:
    /// memory ran out.
    pub fn new(alloc: Global, text: &[u8], is_model: bool) -> Result<ProgramText, AllocError> {
        let mut starts = Vec::new(alloc);
        let mut from = 0usize;
        for line in text.split(|byte| *byte == b'\n') {
            starts.push(from)?;
            from = from.saturating_add(line.len()).saturating_add(1);
        }
        Ok(ProgramText {
            text: Vec::from_slice(alloc, text)?,
            is_model,
            starts,
            types: ValueTypes::new(alloc),
            processes: Vec::new(alloc),
            longest_name: 0,
        })
    }

    /// The whole text.
    pub fn text(&self) -> &[u8] {
        self.text.as_slice()
    }

    /// Whether it is in the model notation.
    pub fn is_model(&self) -> bool {
        self.is_model
    }

    /// Adds the next process, with its name in the plain program, and as it was written. Error: memory ran out.
    pub fn add_process(
        &mut self,
        alloc: Global,
        plain: &[u8],
        name: &[u8],
    ) -> Result<(), AllocError> {
        self.longest_name = self.longest_name.max(name.len());
        self.processes.push(ProcessWords {
            plain: Vec::from_slice(alloc, plain)?,
            name: Vec::from_slice(alloc, name)?,
            variables: Vec::new(alloc),
            commands: Vec::new(alloc),
            messages: Vec::new(alloc),
        })?;
        Ok(())
    }

    /// Adds the next variable of the last process, as it was written, and the number of the type as a value of which its value is shown, if
    /// it has one. Error: memory ran out.
    pub fn add_variable(
        &mut self,
        alloc: Global,
        name: &[u8],
        kind: Option<usize>,
    ) -> Result<(), AllocError> {
        let name = Vec::from_slice(alloc, name)?;
        if let Some(process) = self.processes.last_mut() {
            process.variables.push(VariableWords { name, kind })?;
        }
        Ok(())
    }

    /// Adds the next command of the last process: the offset in the text at which it begins, and its label, which is empty if it has none.
    /// Error: memory ran out.
    pub fn add_command(
        &mut self,
        alloc: Global,
        at: usize,
        label: &[u8],
    ) -> Result<(), AllocError> {
        let label = Vec::from_slice(alloc, label)?;
        let line = self.line_at(at);
        if let Some(process) = self.processes.last_mut() {
            let number = process.commands.len();
            let shown = shown_place(alloc, line, label.as_slice(), number)?;
            process.commands.push(CommandPlace { at, label, shown })?;
        }
        Ok(())
    }

    /// Adds the next type, an enum without names. Types are numbered from 0. Error: memory ran out.
    pub fn add_enum(&mut self) -> Result<(), AllocError> {
        self.types.add_enum()
    }

    /// Adds a name to the last type, an enum. Error: memory ran out.
    pub fn add_enum_name(&mut self, name: &[u8], value: i64) -> Result<(), AllocError> {
        self.types.add_name(name, value)
    }

    /// Adds the next type, a message without fields. Error: memory ran out.
    pub fn add_message(&mut self, name: &[u8]) -> Result<(), AllocError> {
        self.types.add_message(name)
    }

    /// Adds a field to the last type, a message: the least number in it, how many numbers it has from there, and the number of the enum
    /// that they are of, if they are of one. Error: memory ran out.
    pub fn add_field(
        &mut self,
        low: i64,
        width: i64,
        kind: Option<usize>,
    ) -> Result<(), AllocError> {
        self.types.add_field(low, width, kind)
    }

    /// The messages that a process sends to this other are of the type of this number. Error: memory ran out.
    pub fn set_channel_type(&mut self, from: Pid, to: Pid, kind: usize) -> Result<(), AllocError> {
        let at = to.0 as usize;
        if let Some(process) = self.processes.get_mut(from.0 as usize) {
            if at >= process.messages.len() {
                process.messages.resize(at.saturating_add(1), None)?;
            }
            if let Some(place) = process.messages.as_mut_slice().get_mut(at) {
                *place = Some(kind);
            }
        }
        Ok(())
    }

    /// What is shown for a value of a variable of a process.
    pub fn value(&self, pid: Pid, variable: u32, value: i64) -> ShownValue<'_> {
        let process = self.processes.get(pid.0 as usize);
        let variable = process.and_then(|process| process.variables.get(variable as usize));
        self.types
            .shown(variable.and_then(|variable| variable.kind), value)
    }

    /// What is shown for a message that a process sends to another.
    pub fn message(&self, from: Pid, to: Pid, value: i64) -> ShownValue<'_> {
        let process = self.processes.get(from.0 as usize);
        let kind = process.and_then(|process| process.messages.get(to.0 as usize));
        self.types.shown(kind.copied().flatten(), value)
    }

    /// How many bytes the longest name of a process has, as it was written.
    pub fn longest_name(&self) -> usize {
        self.longest_name
    }

    /// The name of a process in the plain program, as `server_3`. It is empty if there is no such process.
    pub fn plain_name(&self, pid: Pid) -> &[u8] {
        match self.processes.get(pid.0 as usize) {
            Some(process) => process.plain.as_slice(),
            None => &[],
        }
    }

    /// The name of a process as it was written, as `server[3]`. It is empty if there is no such process.
    pub fn process_name(&self, pid: Pid) -> &[u8] {
        match self.processes.get(pid.0 as usize) {
            Some(process) => process.name.as_slice(),
            None => &[],
        }
    }

    /// Whether a process has this name, in the plain program or as it was written.
    pub fn is_named(&self, pid: Pid, word: &[u8]) -> bool {
        self.plain_name(pid) == word || self.process_name(pid) == word
    }

    /// The name of a variable of a process as it was written, as `vote[2]`. It is empty if there is no such variable.
    pub fn variable_name(&self, pid: Pid, variable: u32) -> &[u8] {
        let process = self.processes.get(pid.0 as usize);
        match process.and_then(|process| process.variables.get(variable as usize)) {
            Some(variable) => variable.name.as_slice(),
            None => &[],
        }
    }

    // The number, from 1, of the line in which this offset is.
    fn line_at(&self, at: usize) -> usize {
        self.starts.partition_point(|start| *start <= at)
    }

    fn command(&self, pid: Pid, choice: Choice) -> Option<&CommandPlace> {
        let process = self.processes.get(pid.0 as usize)?;
        process.commands.get(choice.0 as usize)
    }

    /// The number, from 1, of the line at which a command begins.
    pub fn place(&self, pid: Pid, choice: Choice) -> Option<usize> {
        Some(self.line_at(self.command(pid, choice)?.at))
    }

    /// The place of a command in a few words: a colon, the number of its line, and its label or number.
    pub fn shown_place(&self, pid: Pid, choice: Choice) -> &[u8] {
        match self.command(pid, choice) {
            Some(command) => command.shown.as_slice(),
            None => &[],
        }
    }

    /// The label of a command, with its indices. It is empty if the command has none.
    pub fn label(&self, pid: Pid, choice: Choice) -> &[u8] {
        match self.command(pid, choice) {
            Some(command) => command.label.as_slice(),
            None => &[],
        }
    }

    // The text from the guard of a command on, after its label.
    fn text_from(&self, command: &CommandPlace) -> &[u8] {
        let text = self.text.get(command.at..).unwrap_or(&[]);
        if command.label.is_empty() {
            return text;
        }
        let label = text.iter().take_while(|byte| **byte != b':').count();
        text.get(label.saturating_add(1)..).unwrap_or(&[])
    }

    /// The text of a command from its guard up to its `;`. Blanks, line ends and comments in it are one blank. Of a long text it is the
    /// beginning. Error: memory ran out.
    pub fn command_text(
        &self,
        alloc: Global,
        pid: Pid,
        choice: Choice,
    ) -> Result<Vec<u8>, AllocError> {
        match self.command(pid, choice) {
            Some(command) => one_line(alloc, self.text_from(command)),
            None => Ok(Vec::new(alloc)),
        }
    }

    /// The bytes of the line of this number, without blanks at its ends.
    pub fn line(&self, number: usize) -> &[u8] {
        let start = |at: usize| self.starts.get(at).copied();
        let from = start(number.saturating_sub(1)).unwrap_or(0);
        let to = start(number).unwrap_or(self.text.len());
        self.text.get(from..to).unwrap_or(&[]).trim_ascii()
    }
}
