//! Writes the plain lines that a command line stands for.

use dbg_base::limits::INPUT_BYTES;
use itoa::Buffer;
use notation_meaning::{CommandLine, LinePiece, Meant, Reading, Segment};
use notation_programs::building::{ProcessCopy, put_indices};
use notation_programs::environment::Environment;
use notation_programs::expansion::Expansion;
use notation_programs::plain_text::PlainText;
use notation_programs::writing::Writer;
use notation_tree::fault::{Expanding, ExpansionStop, Problem};
use notation_tree::lexer::tokens;
use notation_tree::limits::{COPIES, UNFOLDING};
use notation_tree::syntax::{Binder, DeclarationNode, Expression, Reference, place};
use notation_tree::token::part;
use std::alloc::{AllocError, Global};

/// Writes the plain lines of a line.
#[derive(Drop)]
pub(crate) struct Renderer<'a> {
    pub(crate) writer: Writer<'a>,
    expansion: &'a Expansion,
    line: &'a [u8],
    tree: &'a CommandLine,
    /// The name that was written last.
    pub(crate) process: Vec<u8>,
    // The lines that are written, the one that is being written, and how many bytes they have.
    pub(crate) lines: Vec<Vec<u8>>,
    present: Vec<u8>,
    length: usize,
    /// Where the piece begins that is written.
    pub(crate) from: usize,
}

// Whether two texts have the same tokens.
fn have_same_tokens(alloc: Global, left: &[u8], right: &[u8]) -> Result<bool, AllocError> {
    let left_tokens = tokens(alloc, left)?;
    let right_tokens = tokens(alloc, right)?;
    for (one, other) in left_tokens.iter().zip(&right_tokens) {
        if part(left, one.at, one.length) != part(right, other.at, other.length) {
            return Ok(false);
        }
    }
    Ok(left_tokens.len() == right_tokens.len())
}

impl<'a> Renderer<'a> {
    /// Nothing is written.
    pub(crate) fn new(
        alloc: Global,
        expansion: &'a Expansion,
        line: &'a [u8],
        tree: &'a CommandLine,
    ) -> Renderer<'a> {
        let tables = &expansion.model.tables;
        let constants = expansion.built.constants.as_slice();
        let mut environment = Environment::knowing(alloc, tables, constants);
        environment.line_members = tree.members.as_slice();
        let text = PlainText::new(alloc);
        Renderer {
            writer: Writer { environment, text },
            expansion,
            line,
            tree,
            process: Vec::new(alloc),
            lines: Vec::new(alloc),
            present: Vec::new(alloc),
            length: 0,
            from: 0,
        }
    }

    fn alloc(&self) -> Global {
        self.writer.environment.alloc
    }

    // The process of the name that was written last.
    fn last_process(&self) -> Option<&'a ProcessCopy> {
        let processes: &'a [ProcessCopy] = self.expansion.built.processes.as_slice();
        processes.iter().find(|process| process.name.as_slice() == self.process.as_slice())
    }

    // A fault at the piece that is written.
    fn fault(&self, problem: Problem) -> ExpansionStop {
        ExpansionStop::Bad(problem, self.expansion.source.saturating_add(self.from))
    }

    // Writes bytes, unless the lines become too long.
    fn put(&mut self, bytes: &[u8]) -> Expanding<()> {
        if bytes.len() > INPUT_BYTES.saturating_sub(self.length) {
            return Err(self.fault(Problem::LongText));
        }
        self.length = self.length.saturating_add(bytes.len());
        self.present.extend_from_slice(bytes)?;
        Ok(())
    }

    // Writes the bytes of the line from one offset to another.
    fn copy(&mut self, from: usize, to: usize) -> Expanding<()> {
        let line = self.line;
        self.put(part(line, from, to.saturating_sub(from)))
    }

    // Writes a name.
    fn name(&mut self, reference: &'a Reference) -> Expanding<()> {
        let name = self.writer.name_of(reference, UNFOLDING)?;
        self.put(name.as_slice())?;
        self.process = name;
        Ok(())
    }

    // The label that a name with indices is.
    fn label_text(&mut self, reference: &'a Reference) -> Expanding<Vec<u8>> {
        let mut indices = Vec::new(self.alloc());
        for index in &reference.indices {
            indices.push(self.writer.environment.number(index, UNFOLDING)?)?;
        }
        let mut label = Vec::from_slice(self.alloc(), reference.name.bytes())?;
        put_indices(&mut label, indices.as_slice())?;
        Ok(label)
    }

    // Writes a number that is computed. It cannot be below 0.
    fn number(&mut self, expression: &'a Expression) -> Expanding<()> {
        let number = self.writer.environment.number(expression, UNFOLDING)?;
        if number < 0 {
            return Err(ExpansionStop::Bad(Problem::BelowZero, place(expression)));
        }
        self.put(Buffer::new().format(number).as_bytes())
    }

    // Writes the number of the command of a label, or else the number that this expression gives. Another word remains.
    fn label(&mut self, reference: &'a Reference, number: &'a Option<Expression>) -> Expanding<()> {
        let label = self.label_text(reference)?;
        if let Some(process) = self.last_process() {
            let mut commands = process.commands.iter();
            let place = commands.position(|command| command.label.as_slice() == label.as_slice());
            if let Some(number) = place {
                let mut buffer = Buffer::new();
                return self.put(buffer.format(number).as_bytes());
            }
        }
        if let Some(number) = number {
            return self.number(number);
        }
        if reference.indices.is_empty() {
            return self.put(reference.name.bytes());
        }
        Err(ExpansionStop::Bad(Problem::NoLabel, reference.at))
    }

    // The plain text of a predicate.
    fn plain(&mut self, expression: &'a Expression) -> Expanding<()> {
        self.writer.text = PlainText::new(self.alloc());
        self.writer.expression(expression, UNFOLDING)
    }

    // The plain text of a predicate over this process, where the members of its family and its constants are visible.
    fn plain_in(&mut self, copy: &'a ProcessCopy, expression: &'a Expression) -> Expanding<()> {
        let declaration = self.expansion.model.declarations.get(copy.declaration);
        let Some(DeclarationNode::Process(process)) = declaration else {
            return self.plain(expression);
        };
        let environment = &mut self.writer.environment;
        environment.set_own(process.first_constant, copy.constants.as_slice());
        let before = environment.enter_all(process.ranges.as_slice(), copy.members.as_slice())?;
        self.plain(expression)?;
        self.writer.environment.leave(before);
        self.writer.environment.set_own(0, &[]);
        Ok(())
    }

    // The plain text of a predicate over the last process.
    fn plain_reading(&mut self, readings: &'a [Reading]) -> Expanding<()> {
        if let Some(copy) = self.last_process() {
            for reading in readings {
                if reading.declaration == Some(copy.declaration) {
                    return self.plain_in(copy, &reading.expression);
                }
            }
        }
        match readings {
            [first, ..] => self.plain(&first.expression),
            [] => Ok(()),
        }
    }

    // Writes a predicate. One that is plain remains as it is.
    fn predicate(&mut self, piece: &'a LinePiece, readings: &'a [Reading]) -> Expanding<()> {
        self.plain_reading(readings)?;
        let line = self.line;
        let written = part(line, piece.from, piece.to.saturating_sub(piece.from));
        let alloc = self.alloc();
        let text = PlainText::new(alloc);
        let plain = std::mem::replace(&mut self.writer.text, text);
        if have_same_tokens(alloc, written, plain.bytes.as_slice())? {
            return self.put(written);
        }
        self.put(plain.bytes.as_slice())
    }

    // Writes the plain text of a piece.
    fn piece(&mut self, piece: &'a LinePiece) -> Expanding<()> {
        self.from = piece.from;
        match &piece.meant {
            Meant::Name(reference) => self.name(reference),
            Meant::Label(reference, number) => self.label(reference, number),
            Meant::Number(expression) => self.number(expression),
            Meant::Predicate(readings) => self.predicate(piece, readings.as_slice()),
        }
    }

    // Writes the bytes of the line from one offset to another, where these pieces are among them.
    fn part(&mut self, pieces: &'a [LinePiece], from: usize, to: usize) -> Expanding<()> {
        let mut at = from;
        for piece in pieces {
            self.copy(at, piece.from)?;
            self.piece(piece)?;
            at = piece.to;
        }
        self.copy(at, to)
    }

    // The values of the members of these ranges.
    fn copies(&mut self, ranges: &'a [Binder]) -> Expanding<Vec<Vec<i64>>> {
        let tuples = self.writer.environment.combinations(ranges, COPIES)?;
        if tuples.len() > COPIES {
            return Err(self.fault(Problem::ManyCopies));
        }
        Ok(tuples)
    }

    // Writes a segment for each member of its ranges.
    fn repeat(&mut self, segment: &'a Segment) -> Expanding<()> {
        let ranges = segment.ranges.as_slice();
        let tuples = self.copies(ranges)?;
        for (number, values) in tuples.iter().enumerate() {
            if number > 0 {
                self.put(b" ")?;
            }
            let environment = &mut self.writer.environment;
            let before = environment.enter_all(ranges, values.as_slice())?;
            self.part(segment.pieces.as_slice(), segment.start, segment.to)?;
            self.writer.environment.leave(before);
        }
        Ok(())
    }

    // Writes a line.
    fn whole(&mut self, segments: &'a [Segment]) -> Expanding<()> {
        for segment in segments {
            if segment.from < segment.start {
                self.from = segment.from;
            }
            if segment.ranges.is_empty() {
                self.part(segment.pieces.as_slice(), segment.start, segment.to)?;
            } else {
                self.repeat(segment)?;
            }
        }
        Ok(())
    }

    /// Writes a line for each member of the ranges.
    pub(crate) fn render(&mut self) -> Expanding<()> {
        let tree = self.tree;
        let ranges = tree.ranges.as_slice();
        let tuples = self.copies(ranges)?;
        for values in &tuples {
            let environment = &mut self.writer.environment;
            let before = environment.enter_all(ranges, values.as_slice())?;
            self.whole(tree.segments.as_slice())?;
            self.writer.environment.leave(before);
            let present = Vec::new(self.alloc());
            self.lines
                .push(std::mem::replace(&mut self.present, present))?;
        }
        Ok(())
    }
}
