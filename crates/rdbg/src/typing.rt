//! The readers of the program: standard input and files.

use shell_io::{ClosedLines, FixedBuffer};
use shell_serve::is_end_line;
use std::fs::{File, OpenFile};
use std::io;
use std::io::{Chain, Error, ErrorKind, Read, Stdin};
use ui_session::Typed;

// How many bytes of a line are kept: more than a line `%%` has.
const KEPT: usize = 4;

// Whether a line `%%` was read.
#[derive(Drop)]
struct ProgramEnd {
    // The first bytes of the present line.
    line: FixedBuffer<KEPT>,
    is_passed: bool,
}

impl ProgramEnd {
    fn new(is_passed: bool) -> ProgramEnd {
        let line = FixedBuffer::new();
        ProgramEnd { line, is_passed }
    }

    // Looks at the next bytes. After the first line `%%` there is nothing to look for.
    fn note(&mut self, bytes: &[u8]) {
        for byte in bytes {
            if self.is_passed {
                return;
            }
            if *byte == b'\n' {
                self.is_passed = self.is_passed_at_end();
                self.line.clear();
            } else if self.line.room() > 0 {
                self.line.push(*byte);
            }
        }
    }

    // The end of the bytes ends a line, too.
    fn is_passed_at_end(&self) -> bool {
        self.is_passed || is_end_line(self.line.bytes())
    }
}

/// Standard input. At a terminal it prompts for each line of an interactive session.
#[derive(Drop)]
pub(crate) struct Typing<'a> {
    rt: &'a HostRuntime,
    input: Stdin,
    prompts: bool,
    end: ProgramEnd,
    // Whether the prompt for the next line was written.
    is_begun: bool,
    // The first byte of a line, if it was read ahead of the others.
    ahead: Option<u8>,
    // Whether the next byte belongs to a line that was asked for.
    is_in_line: bool,
    is_at_end: bool,
}

impl<'a> Typing<'a> {
    /// Standard input, which prompts if a person types a session: for the program, unless it is in a file, and then for lines.
    pub(crate) fn new(rt: &'a HostRuntime, prompts: bool, is_program_read: bool) -> Typing<'a> {
        Typing {
            rt,
            input: rt.stdin(),
            prompts,
            end: ProgramEnd::new(is_program_read),
            is_begun: false,
            ahead: None,
            is_in_line: false,
            is_at_end: false,
        }
    }

    // Asks for a program once more, after one that was refused, unless the input has ended. The answer is whether a person types one.
    fn begins_again(&mut self) -> bool {
        if !self.is_typed() || self.is_at_end {
            return false;
        }
        self.prompt("Type the program again, or Ctrl-D to end.\n");
        self.end = ProgramEnd::new(false);
        let mut first = [0];
        self.ahead = match self.read(&mut first) {
            Ok(1) => Some(first[0]),
            _ => None,
        };
        self.is_in_line = !matches!(self.ahead, None | Some(b'\n'));
        self.ahead.is_some()
    }

    // Writes a prompt, or the line end after the last one. What cannot be written is left out.
    fn prompt(&self, text: &str) {
        if self.prompts {
            let _ = eprint!(self.rt; "{text}");
        }
    }
}

impl Read for Typing<'_> {
    fn read(&mut self, bytes: &mut [u8]) -> io::Result<usize> {
        self.is_begun = true;
        if let (Some(first), Some(byte)) = (bytes.first_mut(), self.ahead) {
            *first = byte;
            self.ahead = None;
            return Ok(1);
        }
        if !self.is_in_line {
            self.prompt(if self.end.is_passed {
                "> "
            } else {
                "program> "
            });
        }
        self.is_in_line = false;
        let count = self.input.read(bytes)?;
        if count == 0 {
            self.is_at_end = true;
            self.prompt("\n");
        }
        self.end.note(bytes.get(..count).unwrap_or(&[]));
        Ok(count)
    }
}

// What ends a program that has no line `%%`.
static END_LINE: &[u8] = b"\n%%\n";

/// A file, whose lines nobody types.
#[derive(Drop)]
pub(crate) struct FileInput {
    file: File,
    end: ProgramEnd,
    // What is read after the file.
    rest: &'static [u8],
}

impl FileInput {
    /// The bytes of the file. If it is to end the program, a line `%%` follows if no line of the file is one.
    pub(crate) fn new(file: File, ends_program: bool) -> FileInput {
        FileInput {
            file,
            end: ProgramEnd::new(!ends_program),
            rest: &[],
        }
    }
}

impl Read for FileInput {
    fn read(&mut self, bytes: &mut [u8]) -> io::Result<usize> {
        let count = self.file.read(bytes)?;
        self.end.note(bytes.get(..count).unwrap_or(&[]));
        if count > 0 || bytes.is_empty() {
            return Ok(count);
        }
        if !self.end.is_passed_at_end() {
            self.rest = END_LINE;
        }
        self.end.is_passed = true;
        self.rest.read(bytes)
    }
}

/// What a session is read from.
#[derive(Drop)]
pub(crate) enum Device<'a> {
    File(FileInput),
    Input(Typing<'a>),
    /// A file, and then standard input.
    Both(Chain<ClosedLines<FileInput>, Typing<'a>>),
}

impl Device<'_> {
    /// Asks for a program once more, after one that was refused. The answer is whether a person types one: the program of a file is not
    /// typed.
    pub(crate) fn begins_again(&mut self) -> bool {
        match self {
            Device::Input(input) => input.begins_again(),
            Device::File(_) | Device::Both(_) => false,
        }
    }
}

impl Read for Device<'_> {
    fn read(&mut self, bytes: &mut [u8]) -> io::Result<usize> {
        match self {
            Device::File(file) => file.read(bytes),
            Device::Input(input) => input.read(bytes),
            Device::Both(both) => both.read(bytes),
        }
    }
}

impl Typed for Typing<'_> {
    fn is_typed(&self) -> bool {
        self.prompts && self.is_begun
    }
}

impl Typed for Device<'_> {
    fn is_typed(&self) -> bool {
        match self {
            Device::File(_) => false,
            Device::Input(input) => input.is_typed(),
            Device::Both(both) => both.get_ref().1.is_typed(),
        }
    }
}

/// Opens a file that can be read. A folder cannot.
pub(crate) fn open(rt: &HostRuntime, name: &str) -> io::Result<File> {
    let file = File::open(rt, name)?;
    if file.metadata()?.is_dir() {
        return Err(Error::from(ErrorKind::IsADirectory));
    }
    Ok(file)
}
