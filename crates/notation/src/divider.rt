//! How a command line is divided into pieces.

use notation_meaning::{CommandLine, LinePiece, Meant, Reading, Segment};
use notation_parser::parser::ModelParser;
use notation_programs::building::ProcessCopy;
use notation_programs::expansion::Expansion;
use notation_tree::fault::{Expanding, ExpansionStop};
use notation_tree::lexer::has_notation;
use notation_tree::limits::NESTING;
use notation_tree::scope::{ModelNames, ModelScope};
use notation_tree::syntax::{Binder, DeclarationNode, Expression, Reference};
use notation_tree::token::{Mark, SourceToken, SourceTokenKind};
use std::alloc::{AllocError, Global};

/// Divides a line into segments.
#[derive(Drop)]
pub(crate) struct Divider<'a> {
    parser: ModelParser<'a>,
    expansion: &'a Expansion,
    segments: Vec<Segment>,
    // The present segment: where it begins, with the ranges before it and without them, and its pieces.
    from: usize,
    inner: usize,
    pieces: Vec<LinePiece>,
}

// Whether the name may be that of the process: its plain name, or that of its family with so many indices.
fn may_name(expansion: &Expansion, process: &ProcessCopy, name: &Reference) -> bool {
    if name.indices.is_empty() {
        return process.name.as_slice() == name.name.bytes();
    }
    match expansion.model.declarations.get(process.declaration) {
        Some(DeclarationNode::Process(declared)) => {
            declared.name == name.name && declared.ranges.len() == name.indices.len()
        }
        _ => false,
    }
}

// The declarations that may have made the process of this name; None alone where there is none.
fn declarations_of(
    alloc: Global,
    expansion: &Expansion,
    name: &Reference,
) -> Result<Vec<Option<usize>>, AllocError> {
    let mut found = Vec::new(alloc);
    for process in &expansion.built.processes {
        let declaration = Some(process.declaration);
        if may_name(expansion, process, name) && found.last() != Some(&declaration) {
            found.push(declaration)?;
        }
    }
    if found.is_empty() {
        found.push(None)?;
    }
    Ok(found)
}

impl<'a> Divider<'a> {
    /// Divides the line of these tokens, where the model has these names.
    pub(crate) fn new(
        alloc: Global,
        expansion: &'a Expansion,
        names: &'a ModelNames,
        line: &'a [u8],
        tokens: &'a [SourceToken],
    ) -> Divider<'a> {
        let scope = ModelScope::new(alloc, Some(names));
        let members = expansion.model.tables.members.len();
        Divider {
            parser: ModelParser::new(alloc, line, tokens, scope, expansion.source, members),
            expansion,
            segments: Vec::new(alloc),
            from: 0,
            inner: 0,
            pieces: Vec::new(alloc),
        }
    }

    // The offset in the line after the last token that was passed.
    fn end(&self) -> usize {
        let token = self.parser.token_before();
        token.at.saturating_add(token.length)
    }

    // The offset in the line of the next token.
    fn start(&self) -> usize {
        self.parser.token().at
    }

    // Appends the piece from this offset to the end of the last token that was passed.
    fn put(&mut self, from: usize, meant: Meant) -> Expanding<()> {
        let to = self.end();
        self.pieces.push(LinePiece { from, to, meant })?;
        Ok(())
    }

    // Ends the present segment, which has these ranges, at this offset. The next one begins there.
    fn end_segment(&mut self, ranges: Vec<Binder>, to: usize) -> Expanding<()> {
        let nothing = Vec::new(self.parser.alloc);
        let pieces = std::mem::replace(&mut self.pieces, nothing);
        self.segments.push(Segment {
            from: self.from,
            start: self.inner,
            to,
            ranges,
            pieces,
        })?;
        self.from = to;
        self.inner = to;
        Ok(())
    }

    // Ends the present segment before the ranges at the next token, and reads these. The next segment begins after them.
    fn begin_repeated(&mut self) -> Expanding<Vec<Binder>> {
        let from = self.start();
        let ranges = self.ranges()?;
        self.end_segment(Vec::new(self.parser.alloc), from)?;
        self.inner = self.start();
        Ok(ranges)
    }

    // Whether indices follow the next token.
    fn has_indices(&self) -> bool {
        self.parser.has_mark_after(1, Mark::OpenBracket)
    }

    // A name with indices, which becomes a piece. The answer is the declarations that may have made the process of this name.
    fn name(&mut self) -> Expanding<Vec<Option<usize>>> {
        let from = self.start();
        let reference = self.parser.reference(NESTING)?;
        let declarations = declarations_of(self.parser.alloc, self.expansion, &reference)?;
        self.put(from, Meant::Name(reference))?;
        Ok(declarations)
    }

    // `for` and its ranges, up to the colon.
    fn ranges(&mut self) -> Expanding<Vec<Binder>> {
        let mut ranges = Vec::new(self.parser.alloc);
        for _ in 0..self.parser.tokens.len() {
            if !self.parser.passes_word(b"for") {
                break;
            }
            ranges.push(self.parser.binder(NESTING)?)?;
        }
        self.parser.mark(Mark::Colon)?;
        Ok(ranges)
    }

    // Passes the parenthesis at the next token, and all up to the one that closes it.
    fn pass_parentheses(&mut self) {
        let mut open = 0usize;
        for _ in 0..self.parser.tokens.len() {
            if self.parser.is_at_end() {
                break;
            }
            if self.parser.is_mark(Mark::OpenParenthesis) {
                open = open.saturating_add(1);
            }
            if self.parser.is_mark(Mark::CloseParenthesis) {
                open = open.saturating_sub(1);
            }
            self.parser.pass();
            if open == 0 {
                break;
            }
        }
    }

    // The predicate at the next token, in parentheses that end before the token of this number.
    fn enclosed(
        &mut self,
        declaration: Option<usize>,
        end: usize,
    ) -> Expanding<Option<Expression>> {
        let first = self.parser.next;
        let mark = self.parser.scope.mark();
        self.parser.scope.process = declaration;
        let read = self.parser.primary(NESTING);
        self.parser.scope.process = None;
        self.parser.scope.leave(mark);
        let tokens = self.parser.tokens.get(first..end).unwrap_or(&[]);
        match read {
            Ok(expression) if self.parser.next == end => Ok(Some(expression)),
            Err(ExpansionStop::Memory) => Err(ExpansionStop::Memory),
            Err(stop) if has_notation(tokens) => Err(stop),
            _ => Ok(None),
        }
    }

    // What the predicate at the token of this number says for each of these declarations.
    fn readings(
        &mut self,
        declarations: &[Option<usize>],
        first: usize,
        end: usize,
    ) -> Expanding<Vec<Reading>> {
        let mut readings = Vec::new(self.parser.alloc);
        for declaration in declarations {
            self.parser.next = first;
            if let Some(expression) = self.enclosed(*declaration, end)? {
                readings.push(Reading {
                    declaration: *declaration,
                    expression,
                })?;
            }
        }
        self.parser.next = end;
        Ok(readings)
    }

    // The predicate of a part, which becomes a piece if it is in parentheses and is an expression.
    fn predicate(&mut self, declarations: &[Option<usize>]) -> Expanding<()> {
        if !self.parser.is_mark(Mark::OpenParenthesis) {
            self.word()?;
            return Ok(());
        }
        let from = self.start();
        let first = self.parser.next;
        self.pass_parentheses();
        let end = self.parser.next;
        let readings = self.readings(declarations, first, end)?;
        if !readings.is_empty() {
            self.put(from, Meant::Predicate(readings))?;
        }
        Ok(())
    }

    // A process and its predicate.
    fn part(&mut self) -> Expanding<()> {
        if !self.parser.is_name() {
            return self.word();
        }
        let declarations = self.name()?;
        self.predicate(declarations.as_slice())
    }

    // Whether the next tokens begin a range: `for`, a name and a colon.
    fn is_at_range(&self) -> bool {
        self.parser.is_word(b"for") && self.parser.has_mark_after(2, Mark::Colon)
    }

    // A part for each member of ranges.
    fn repeat(&mut self) -> Expanding<()> {
        let mark = self.parser.scope.mark();
        let ranges = self.begin_repeated()?;
        self.part()?;
        self.parser.scope.leave(mark);
        let to = self.end();
        self.end_segment(ranges, to)
    }

    // A word, or another token. A name with indices becomes a piece.
    fn word(&mut self) -> Expanding<()> {
        if self.parser.is_name() && self.has_indices() {
            self.name()?;
        } else {
            self.parser.pass();
        }
        Ok(())
    }

    // Whether a command ends here.
    fn is_at_end(&self) -> bool {
        self.parser.is_at_end() || self.parser.is_mark(Mark::Semicolon)
    }

    // `break`, a name, and parts.
    fn breakpoint(&mut self) -> Expanding<()> {
        self.parser.pass();
        if !self.is_at_end() {
            self.word()?;
        }
        for _ in 0..self.parser.tokens.len() {
            if self.is_at_end() {
                break;
            }
            if self.is_at_range() {
                self.repeat()?;
            } else {
                self.part()?;
            }
        }
        Ok(())
    }

    // Whether the next token is a number, and the command ends after it.
    fn is_at_last_number(&self) -> bool {
        let is_number = matches!(self.parser.token().kind, SourceTokenKind::Number(_));
        let is_end = self.parser.has_mark_after(1, Mark::Semicolon) || self.parser.is_last();
        is_number && is_end
    }

    // The expression up to the end of the command, if there is one.
    fn last_expression(&mut self) -> Expanding<Option<Expression>> {
        let first = self.parser.next;
        let read = self.parser.expression();
        let is_whole = self.is_at_end();
        let tokens = self.parser.tokens.get(first..).unwrap_or(&[]);
        match read {
            Ok(expression) if is_whole => return Ok(Some(expression)),
            Err(ExpansionStop::Memory) => return Err(ExpansionStop::Memory),
            Err(stop) if has_notation(tokens) => return Err(stop),
            _ => {}
        }
        self.parser.next = first;
        Ok(None)
    }

    // The same, if it is not a name.
    fn last_number(&mut self) -> Expanding<Option<Expression>> {
        match self.last_expression()? {
            Some(Expression::Name(_)) | None => Ok(None),
            number => Ok(number),
        }
    }

    // A number that is computed, up to the end of the command.
    fn number(&mut self) -> Expanding<()> {
        if self.is_at_end() || self.is_at_last_number() {
            return Ok(());
        }
        let from = self.start();
        match self.last_number()? {
            Some(expression) => self.put(from, Meant::Number(expression)),
            None => Ok(()),
        }
    }

    // `rollback` or `next`, a process, and a number.
    fn counted(&mut self) -> Expanding<()> {
        self.parser.pass();
        if !self.parser.is_name() {
            return Ok(());
        }
        self.name()?;
        self.number()
    }

    // `step`, a process, and a label or a number.
    fn step(&mut self) -> Expanding<()> {
        self.parser.pass();
        if !self.parser.is_name() {
            return Ok(());
        }
        self.name()?;
        if !self.parser.is_name() {
            return self.number();
        }
        let (from, first) = (self.start(), self.parser.next);
        let reference = self.parser.reference(NESTING)?;
        if !self.is_at_end() {
            self.parser.next = first;
            return self.number();
        }
        self.parser.next = first;
        let number = self.last_number()?;
        self.put(from, Meant::Label(reference, number))
    }

    // One command, up to the end of the line or to a semicolon.
    fn command(&mut self) -> Expanding<()> {
        if self.parser.is_word(b"break") {
            self.breakpoint()?;
        } else if self.parser.is_word(b"step") {
            self.step()?;
        } else if self.parser.is_word(b"next") || self.parser.is_word(b"rollback") {
            self.counted()?;
        }
        for _ in 0..self.parser.tokens.len() {
            if self.is_at_end() {
                break;
            }
            self.word()?;
        }
        Ok(())
    }

    // Commands, with semicolons between them.
    fn commands(&mut self) -> Expanding<()> {
        self.parser.passes_word(b"batch");
        for _ in 0..self.parser.tokens.len() {
            self.command()?;
            if self.parser.is_at_end() {
                break;
            }
            self.parser.pass();
        }
        Ok(())
    }

    // Passes the number of a seat.
    fn seat(&mut self) {
        if matches!(self.parser.token().kind, SourceTokenKind::Number(_)) {
            self.parser.pass();
        }
    }

    /// The offset after the ranges before the line, or 0 if it has none.
    pub(crate) fn head(&mut self) -> Expanding<usize> {
        self.seat();
        if !self.is_at_range() {
            return Ok(0);
        }
        let _ranges = self.ranges()?;
        Ok(self.start())
    }

    /// What a line of so many bytes is read as.
    pub(crate) fn line(&mut self, length: usize) -> Expanding<CommandLine> {
        let alloc = self.parser.alloc;
        let mut ranges = Vec::new(alloc);
        self.seat();
        if self.is_at_range() {
            ranges = self.begin_repeated()?;
            self.seat();
        }
        self.commands()?;
        self.end_segment(Vec::new(alloc), length)?;
        let members = Vec::from_slice(alloc, self.parser.tables.members.as_slice())?;
        let segments = std::mem::replace(&mut self.segments, Vec::new(alloc));
        Ok(CommandLine {
            ranges,
            segments,
            members,
        })
    }
}
